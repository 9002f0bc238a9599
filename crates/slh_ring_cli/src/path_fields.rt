//! Paths as fields of a line.
ghost use Rattle.std.specs.Prelude.{◌≡◌, ◌⊎◌, [], ◌∷◌, ◌++◌, length, Ok, Err, OnOk, IfOk, IfErr};
ghost use Rattle.line_serve.specs.Fields.{contents};
ghost use Rattle.slh_line.specs.declared.line_error.LineError.TheVariants.{Memory};
ghost use Rattle.slh_ring_cli.specs.PathFields.{all_paths as spec_all_paths};
ghost use Rattle.slh_ring_cli.specs.PathFields.{path_of as spec_path_of};

use slh_line::LineError;
use slh_ring::Path;
use std::alloc::{AllocError, Global};

/// The path that a field stands for. `Fields`: it stands for none.
pub(crate) fn path_of(field: &[u8]) -> Result<Path, LineError>
    ensures { result ≡ spec_path_of field.now }
{
    match Path::from_text(field) {
        Some(path) => Ok(path),
        None => Err(LineError::Fields),
    }
}

// Puts a path at the end.
fn push(paths: &mut Vec<Path>, path: Path) -> Result<(), AllocError>
    ensures { OnOk result (paths.new.items ≡ paths.old.items ++ path ∷ []) }
{
    paths.push(path)?;
    Ok(())
}

/// The paths that all fields stand for, in their order. `Fields`: one stands for none.
pub(crate) fn all_paths(alloc: Global, fields: &[&[u8]]) -> Result<Vec<Path>, LineError>
    ensures paths { IfOk result (λ paths. spec_all_paths (contents fields.now) ≡ Ok paths.items) }
    ensures count { IfOk result (λ paths. length paths.items ≡ length fields.now) }
    ensures error { IfErr result (λ e. (spec_all_paths (contents fields.now) ≡ Err e)
        ⊎ (e ≡ Memory)) }
{
    let mut paths = Vec::new(alloc);
    for field in fields {
        push(&mut paths, path_of(field)?)?;
    }
    Ok(paths)
}
