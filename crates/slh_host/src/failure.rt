//! What is told on standard error.
use anyhow::Error;
use slh_bytes::Printable;
use std::alloc::AllocError;
use std::fmt;

/// Why a command failed, and what it has to do with: a file, as it is named on the command line, or
/// a word. How it is told is its error's; names are printed as [`Printable`] has them.
#[derive(Drop)]
pub enum Failure<'a> {
    /// What is wrong with the command line as a whole, or with the machine.
    Alone(Error),
    /// What is wrong with a file or a word.
    Told(&'a str, Error),
    /// What is wrong with an option of this name, or its value.
    Option(&'static str, Error),
    /// What is wrong with the file of this name and this ending.
    Beside(&'a str, &'static str, Error),
    /// What is wrong with a file below a folder.
    Entry(&'a str, String, Error),
    /// What is wrong with a file whose name the command made.
    Named(String, Error),
    /// There is no memory.
    Memory,
}

impl<'a> Failure<'a> {
    /// What is wrong with the command line as a whole, or with the machine.
    pub fn alone<E: std::error::Error>(error: E) -> Self {
        Failure::Alone(Error::from(error))
    }

    /// What is wrong with a file or a word.
    pub fn told<E: std::error::Error>(name: &'a str, error: E) -> Self {
        Failure::Told(name, Error::from(error))
    }

    /// What is wrong with an option of this name, or its value.
    pub fn option<E: std::error::Error>(name: &'static str, error: E) -> Self {
        Failure::Option(name, Error::from(error))
    }

    /// What is wrong with the file of this name and this ending.
    pub fn beside<E: std::error::Error>(name: &'a str, end: &'static str, error: E) -> Self {
        Failure::Beside(name, end, Error::from(error))
    }

    /// What is wrong with a file below a folder.
    pub fn entry<E: std::error::Error>(folder: &'a str, name: String, error: E) -> Self {
        Failure::Entry(folder, name, Error::from(error))
    }

    /// What is wrong with a file whose name the command made.
    pub fn named<E: std::error::Error>(name: String, error: E) -> Self {
        Failure::Named(name, Error::from(error))
    }
}

impl From<AllocError> for Failure<'_> {
    fn from(_: AllocError) -> Self {
        Failure::Memory
    }
}

impl fmt::Display for Failure<'_> {
    fn fmt<W: fmt::Write>(&self, f: &mut fmt::Formatter<W>) -> fmt::Result {
        match self {
            Failure::Alone(error) => write!(f, "{error}"),
            Failure::Told(name, error) => write!(f, "{}: {error}", Printable(*name)),
            Failure::Option(name, error) => write!(f, "--{name}: {error}"),
            Failure::Beside(name, end, error) => write!(f, "{}{end}: {error}", Printable(*name)),
            Failure::Entry(folder, name, error) => {
                write!(
                    f,
                    "{}/{}: {error}",
                    Printable(*folder),
                    Printable(name.as_str())
                )
            }
            Failure::Named(name, error) => write!(f, "{}: {error}", Printable(name.as_str())),
            Failure::Memory => f.write_str("out of memory"),
        }
    }
}
