//! What stands at a path.
ghost use Rattle.std.specs.Prelude.{◌≡◌};

/// The kind of what stands at a path. No link is followed.
#[derive(Clone, Copy, Debug, PartialEq, Eq)]
pub enum Kind {
    Regular,
    Link,
    Folder,
    Other,
}

/// Which file it is, whatever its names.
#[derive(Clone, Copy, Debug, PartialEq, Eq)]
pub struct FileId {
    pub device: u64,
    pub number: u64,
}

/// The mode of a new file that leaves it to the user's mask, as the system's calls take it.
pub const MASKED_BITS: u32 = 0o666;

/// The mode that a file is made with.
#[derive(Clone, Copy, Debug, PartialEq, Eq)]
pub enum Mode {
    /// What the user's mask leaves of [`MASKED_BITS`].
    Masked,
    /// These bits, whatever the mask says.
    Exact(u32),
}

impl Mode {
    ghost use Rattle.whole_files.specs.Modes.{bits_of};

    /// The bits before the mask.
    pub fn bits(self) -> u32
        ensures { result ≡ bits_of self }
    {
        match self {
            Mode::Masked => MASKED_BITS,
            Mode::Exact(bits) => bits,
        }
    }
}

/// What is known of a file without its bytes. The mode has the bits for permissions.
#[derive(Clone, Copy, Debug, PartialEq, Eq)]
pub struct Stat {
    pub kind: Kind,
    pub mode: u32,
    pub id: FileId,
}

/// A call that failed.
#[derive(Clone, Copy, Debug, PartialEq, Eq)]
pub struct Failed;
