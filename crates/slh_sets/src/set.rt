//! Which sets there are, by name and by number.
ghost use Rattle.std.specs.Prelude.{◌≡◌, ◌==◌};
ghost use Rattle.std.specs.List.{find};
ghost use Rattle.std.specs.Str.{bytes_eq};
ghost use Rattle.slh_sets.specs.Sets.{name_of, number_of, set_named, set_numbered};

/// A parameter set of SLH-DSA over SHA-2 (FIPS 205, section 11, table 2).
#[derive(Clone, Copy, Debug, PartialEq, Eq)]
pub enum Set {
    /// SLH-DSA-SHA2-128s: signatures of 7856 bytes.
    Sha2_128s,
    /// SLH-DSA-SHA2-128f: signatures of 17088 bytes, made faster.
    Sha2_128f,
    /// SLH-DSA-SHA2-192s: signatures of 16224 bytes.
    Sha2_192s,
    /// SLH-DSA-SHA2-192f: signatures of 35664 bytes, made faster.
    Sha2_192f,
    /// SLH-DSA-SHA2-256s: signatures of 29792 bytes.
    Sha2_256s,
    /// SLH-DSA-SHA2-256f: signatures of 49856 bytes, made faster.
    Sha2_256f,
}

impl Set {
    /// All sets, in the order of the table.
    pub const ALL: [Set; 6] = [
        Set::Sha2_128s,
        Set::Sha2_128f,
        Set::Sha2_192s,
        Set::Sha2_192f,
        Set::Sha2_256s,
        Set::Sha2_256f,
    ];

    /// The names of all sets, in this order.
    pub const NAMES: [&'static str; 6] = [
        "SLH-DSA-SHA2-128s",
        "SLH-DSA-SHA2-128f",
        "SLH-DSA-SHA2-192s",
        "SLH-DSA-SHA2-192f",
        "SLH-DSA-SHA2-256s",
        "SLH-DSA-SHA2-256f",
    ];

    /// The name of the set.
    pub fn name(self) -> &'static str
        ensures { result.now ≡ name_of self }
    {
        match self {
            Set::Sha2_128s => Set::NAMES[0],
            Set::Sha2_128f => Set::NAMES[1],
            Set::Sha2_192s => Set::NAMES[2],
            Set::Sha2_192f => Set::NAMES[3],
            Set::Sha2_256s => Set::NAMES[4],
            Set::Sha2_256f => Set::NAMES[5],
        }
    }

    /// The set of a name, where there is one. Upper and lower case differ.
    pub fn from_name(name: &[u8]) -> Option<Set>
        ensures { result ≡ set_named name.now }
    {
        first_named(&Set::ALL, name)
    }

    /// The place of the set in the table, from 1 on, by which callers in C name it.
    pub fn number(self) -> u32
        ensures { result ≡ number_of self }
    {
        match self {
            Set::Sha2_128s => 1,
            Set::Sha2_128f => 2,
            Set::Sha2_192s => 3,
            Set::Sha2_192f => 4,
            Set::Sha2_256s => 5,
            Set::Sha2_256f => 6,
        }
    }

    /// The set of a number, where there is one.
    pub fn from_number(number: u32) -> Option<Set>
        ensures { result ≡ set_numbered number }
    {
        first_numbered(&Set::ALL, number)
    }
}

fn first_named(sets: &[Set], name: &[u8]) -> Option<Set>
    ensures { result ≡ find (λ set. bytes_eq name.now (name_of set)) sets.now }
{
    sets.iter()
        .copied()
        .find(|set| name == set.name().as_bytes())
}

fn first_numbered(sets: &[Set], number: u32) -> Option<Set>
    ensures { result ≡ find (λ set. number == number_of set) sets.now }
{
    sets.iter().copied().find(|set| number == set.number())
}
