//! Names of files that are begun.
ghost use Rattle.std.specs.Prelude.{◌≢◌, ◌↔◌, IfOk, IsTrue, codes, string_bytes};
ghost use Rattle.whole_files.specs.Parts.{EndsIn, HasPartEnd, IsPartName};

use std::alloc::{AllocError, Global};

// How the name of a part ends.
const END: &str = ".part";

// How many digits it has.
const DIGITS: usize = 16;

// 16 hexadecimal digits and the end.
fn digits_of(alloc: Global, number: u64) -> Result<String, AllocError>
    ensures { IfOk result (λ name. EndsIn (codes ".part") (string_bytes name)) }
{
    format!(in alloc; "{number:016x}{END}")
}

// The same in the folder of a path.
fn name_beside(alloc: Global, path: &str, number: u64) -> Result<String, AllocError>
    ensures { IfOk result (λ name. EndsIn (codes ".part") (string_bytes name)) }
{
    let digits = digits_of(alloc, number)?;
    let Some((folder, _)) = path.rsplit_once('/') else {
        return Ok(digits);
    };
    let mut name = String::from_str(alloc, folder)?;
    name.push('/')?;
    name.push_str(digits.as_str())?;
    Ok(name)
}

/// A name in the folder of a path, of 21 bytes or of 22, with a number that the caller draws: 16
/// hexadecimal digits and `.part`. It is short whatever the path's own name is.
pub fn part_name(alloc: Global, path: &str, number: u64) -> Result<String, AllocError>
    ensures other { IfOk result (λ name. string_bytes name ≢ path.now) }
    ensures end { IfOk result (λ name. HasPartEnd (string_bytes name)) }
{
    let mut name = name_beside(alloc, path, number)?;
    if name.as_str() == path {
        name.push('_')?;
        return Ok(name);
    }
    Ok(name)
}

/// Whether a name, without its folder, is one that [`part_name`] gives where no file has it yet: 16
/// hexadecimal digits, of either case, and `.part`.
pub fn is_part(name: &str) -> bool
    ensures { IsTrue result ↔ IsPartName name.now }
{
    match name.strip_suffix(END) {
        Some(digits) => digits.len() == DIGITS && digits.bytes().all(|b| b.is_ascii_hexdigit()),
        None => false,
    }
}
