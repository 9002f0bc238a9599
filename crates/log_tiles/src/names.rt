//! Names of the files of a log.
ghost use Rattle.std.specs.Prelude.{◌≡◌, ◌≢◌, ◌⊎◌, ◌↔◌, ◌+◌, ◌<◌, ◌≤◌, ◌++◌};
ghost use Rattle.std.specs.Prelude.{OnOk, IfOk, string_bytes};
ghost use Rattle.log_tiles.specs.Names.{group_text, index_text, three_digits, width_text};

use std::alloc::{AllocError, Global};
use std::fmt::Write;

/// How many hashes a full tile has, and how many entries a full bundle.
pub const FULL: u32 = 256;

// The powers of 1000 at which groups of digits begin, but for the last one.
const POWERS: [u64; 6] = [
    1_000_000_000_000_000_000,
    1_000_000_000_000_000,
    1_000_000_000_000,
    1_000_000_000,
    1_000_000,
    1_000,
];

/// A tile of a log's tree: `width` hashes, of which number j is the root over run `256 * index + j`
/// of `256^level` entries.
#[derive(Clone, Copy, Debug, PartialEq, Eq)]
pub struct Tile {
    pub level: u32,
    pub index: u64,
    pub width: u32,
}

/// A bundle of a log's entries: `width` of them, from number `256 * index` on.
#[derive(Clone, Copy, Debug, PartialEq, Eq)]
pub struct Bundle {
    pub index: u64,
    pub width: u32,
}

/// Why a file has no name.
#[derive(Clone, Copy, Debug, PartialEq, Eq)]
pub enum NameError {
    /// The level is above 63.
    Level,
    /// The width is 0 or above 256.
    Width,
    /// Memory ran out.
    Memory,
}

impl From<AllocError> for NameError {
    ghost use Rattle.std.specs.Prelude.{◌≡◌};
    ghost use Rattle.log_tiles.specs.declared.names.NameError.TheVariants.{Memory};

    ghost from_gives = { λ _ e. e ≡ Memory };

    fn from(_error: AllocError) -> Self {
        NameError::Memory
    }
}

// The character of a digit.
fn digit(n: u64) -> char
    requires { n < 10 }
    ensures { result ≡ 48 + n }
{
    (b'0' + n as u8) as char
}

// Puts the three digits of a number at the end.
fn push_three(text: &mut String, n: u64) -> Result<(), AllocError>
    requires { n < 1000 }
    ensures { OnOk result (string_bytes text.new ≡ string_bytes text.old ++ three_digits n) }
{
    text.push(digit(n / 100))?;
    text.push(digit(n / 10 % 10))?;
    text.push(digit(n % 10))
}

// Puts a group of three digits at the end, if it isn't one of zeros on the left.
fn push_group(text: &mut String, n: u64) -> Result<(), AllocError>
    ensures { OnOk result (string_bytes text.new ≡ string_bytes text.old ++ group_text n) }
{
    if n == 0 {
        return Ok(());
    }
    text.push('x')?;
    push_three(text, n % 1000)?;
    text.push('/')
}

fn push_index(text: &mut String, index: u64) -> Result<(), AllocError>
    ensures { OnOk result (string_bytes text.new ≡ string_bytes text.old ++ index_text index) }
{
    for power in POWERS {
        push_group(text, index / power)?;
    }
    push_three(text, index % 1000)
}

fn push_width(text: &mut String, width: u32) -> Result<(), AllocError>
    ensures { OnOk result (string_bytes text.new ≡ string_bytes text.old ++ width_text width) }
{
    if width == FULL {
        return Ok(());
    }
    write!(text, ".p/{width}")
}

impl Tile {
    ghost use Rattle.log_tiles.specs.Names.{tile_path};

    /// Its name below the log's folder. A tile that isn't full has its width in its name.
    pub fn path(&self, alloc: Global) -> Result<String, NameError>
        ensures name { IfOk result (λ text. string_bytes text
            ≡ tile_path self.now.level self.now.index self.now.width) }
        ensures level { (result ≡ Err NameError.Level) ↔ (63 < self.now.level) }
        ensures width { (result ≡ Err NameError.Width)
            ↔ ((self.now.level ≤ 63) × (self.now.width ≡ 0 ⊎ 256 < self.now.width)) }
    {
        let level = self.level;
        if level > 63 {
            return Err(NameError::Level);
        }
        if self.width == 0 || self.width > FULL {
            return Err(NameError::Width);
        }
        let mut text = format!(in alloc; "tile/{level}/")?;
        push_index(&mut text, self.index)?;
        push_width(&mut text, self.width)?;
        Ok(text)
    }
}

impl Bundle {
    ghost use Rattle.log_tiles.specs.Names.{bundle_path};

    /// Its name below the log's folder. A bundle that isn't full has its width in its name.
    pub fn path(&self, alloc: Global) -> Result<String, NameError>
        ensures name { IfOk result (λ text. string_bytes text
            ≡ bundle_path self.now.index self.now.width) }
        ensures width { (result ≡ Err NameError.Width)
            ↔ (self.now.width ≡ 0 ⊎ 256 < self.now.width) }
        ensures level { result ≢ Err NameError.Level }
    {
        if self.width == 0 || self.width > FULL {
            return Err(NameError::Width);
        }
        let mut text = format!(in alloc; "tile/entries/")?;
        push_index(&mut text, self.index)?;
        push_width(&mut text, self.width)?;
        Ok(text)
    }
}
