//! What a line asks of the files where the program runs, besides commands of `slh`.
use std::alloc::AllocError;
use std::fs::{self, Permissions};
use std::io::{self, ErrorKind};
use std::os::unix::fs::{PermissionsExt, symlink};

// The statuses of what is so, and of what isn't.
const YES: u8 = 0;

const NO: u8 = 1;

/// Does what a verb asks for of one file or two.
pub fn look(rt: &HostRuntime, verb: &str, one: &str, other: &str) -> io::Result<u8> {
    match verb {
        "same" => same(rt, one, other),
        "mode" => mode(rt, one),
        "list" => list(rt, one),
        "copy" => copy(rt, one, other),
        "link" => done(symlink(rt, one, other)),
        "folder" => done(fs::create_dir(rt, one)),
        "remove" => done(fs::remove_file(rt, one)),
        "permit" => permit(rt, one, other),
        _ => Err(io::Error::from(ErrorKind::Unsupported)),
    }
}

fn done(made: io::Result<()>) -> io::Result<u8> {
    match made {
        Ok(()) => Ok(YES),
        Err(error) => Err(error),
    }
}

fn copy(rt: &HostRuntime, one: &str, other: &str) -> io::Result<u8> {
    match fs::copy(rt, one, other) {
        Ok(_) => Ok(YES),
        Err(error) => Err(error),
    }
}

// Tells whether two files have the same bytes.
fn same(rt: &HostRuntime, one: &str, other: &str) -> io::Result<u8> {
    let (one, other) = (fs::read(rt, one)?, fs::read(rt, other)?);
    if one.as_slice() == other.as_slice() {
        println!(rt; "same")?;
        Ok(YES)
    } else {
        println!(rt; "different")?;
        Ok(NO)
    }
}

// Tells the mode of what stands at a path. No link is followed.
fn mode(rt: &HostRuntime, path: &str) -> io::Result<u8> {
    let mode = fs::symlink_metadata(rt, path)?.permissions().mode() & 0o7777;
    println!(rt; "{mode:o}")?;
    Ok(YES)
}

// Gives a file a mode.
fn permit(rt: &HostRuntime, path: &str, mode: &str) -> io::Result<u8> {
    let Ok(mode) = u32::from_str_radix(mode, 8) else {
        return Err(io::Error::from(ErrorKind::InvalidInput));
    };
    done(fs::set_permissions(rt, path, Permissions::from_mode(mode)))
}

// Tells what stands in a folder, a line for each name.
fn list(rt: &HostRuntime, path: &str) -> io::Result<u8> {
    let mut names = Vec::new(rt.alloc());
    for entry in fs::read_dir(rt, path)? {
        let name = String::from_str(rt.alloc(), entry?.file_name())?;
        names.push(name).map_err(AllocError::from)?;
    }
    names.sort().map_err(AllocError::from)?;
    for name in &names {
        println!(rt; "{name}")?;
    }
    Ok(YES)
}
