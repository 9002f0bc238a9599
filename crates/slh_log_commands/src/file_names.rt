//! The names of files that are written whole.
ghost use Rattle.std.specs.Prelude.{◌≡◌, ◌≢◌, IfOk, string_bytes};
ghost use Rattle.log_files.specs.Names.{below};
ghost use Rattle.whole_files.specs.Parts.{HasPartEnd};

use crate::log_folder::LogFolder;
use slh_arguments::host::{Failure, random};
use whole_files::part_name;

/// The two names of a file.
#[derive(Drop)]
pub struct Names {
    pub path: String,
    /// Where it is written first.
    pub part: String,
}

/// The names of the file at a path, the second of which is new.
pub fn names_at(rt: &HostRuntime, path: &str) -> Result<Names, Failure<'static>>
    ensures path { IfOk result (λ names. string_bytes names.path ≡ path.now) }
    ensures part { IfOk result (λ names. string_bytes names.part ≢ string_bytes names.path) }
    ensures end { IfOk result (λ names. HasPartEnd (string_bytes names.part)) }
{
    let number = u64::from_be_bytes(random::<8>(rt)?);
    let part = part_name(rt.alloc(), path, number)?;
    let path = String::from_str(rt.alloc(), path)?;
    Ok(Names { path, part })
}

/// The names of a file below a log's folder, the second of which is new.
pub fn names_of<'a>(folder: LogFolder<'_, 'a>, name: &str) -> Result<Names, Failure<'a>>
    ensures path { IfOk result (λ names.
        string_bytes names.path ≡ below folder.entry.path.now name.now) }
    ensures part { IfOk result (λ names. string_bytes names.part ≢ string_bytes names.path) }
    ensures end { IfOk result (λ names. HasPartEnd (string_bytes names.part)) }
{
    let path = folder.path_of(name)?;
    Ok(names_at(folder.rt, path.as_str())?)
}
