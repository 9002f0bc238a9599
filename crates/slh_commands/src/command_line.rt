//! From the words of the command line to the program's status.
use crate::commands::outcome_of;
use slh_file_commands::arguments::bytes::shown;
use slh_file_commands::arguments::host::Failure;
use slh_file_commands::arguments::{WordError, command};
use std::alloc::AllocError;
use std::env;

/// The status for everything but an outcome.
const FAILED: u8 = 2;

/// Does what the words of the command line ask for. The result is the program's status; of what
/// failed the cause goes to standard error.
pub fn status(rt: &HostRuntime) -> u8 {
    match own_words(rt) {
        Ok(words) => status_of(rt, words.as_slice()),
        Err(failure) => told(rt, failure),
    }
}

/// The same for these words, of which the first is the program's name.
pub fn status_of(rt: &HostRuntime, words: &[String]) -> u8 {
    match answer(rt, words) {
        Ok(status) => status,
        Err(failure) => told(rt, failure),
    }
}

// Tells why a command failed.
fn told(rt: &HostRuntime, failure: Failure<'_>) -> u8 {
    let _ = eprintln!(rt; "slh: {failure}");
    FAILED
}

// The words of the command line.
fn own_words(rt: &HostRuntime) -> Result<Vec<String>, Failure<'static>> {
    match env::args(rt) {
        Ok(words) => {
            let words: Vec<String> = words.collect(rt.alloc())?;
            Ok(words)
        }
        Err(error) => Err(Failure::told("the command line", error)),
    }
}

// The words as a terminal may show them.
fn shown_words(rt: &HostRuntime, words: &[String]) -> Result<Vec<String>, Failure<'static>> {
    let mut all = Vec::new(rt.alloc());
    for word in words {
        let word = shown(rt.alloc(), word.as_bytes())?;
        all.push(word).map_err(AllocError::from)?;
    }
    Ok(all)
}

// Tells the help or the version, or what is wrong with the words, in which no control character is
// printed as it stands.
fn refuse(rt: &HostRuntime, words: &[String]) -> Result<u8, Failure<'static>> {
    let words = shown_words(rt, words)?;
    match command(rt.alloc())?.try_get_matches_from(&words) {
        Ok(_) => Err(Failure::alone(WordError::Unprintable)),
        Err(error) => {
            let status = error.exit_code() as u8;
            match error.print(rt) {
                Ok(()) => Ok(status),
                Err(error) => Err(Failure::told("standard output", error)),
            }
        }
    }
}

// Reads words and does what they ask for.
fn answer(rt: &HostRuntime, words: &[String]) -> Result<u8, Failure<'static>> {
    let matches = match command(rt.alloc())?.try_get_matches_from(words) {
        Ok(matches) => matches,
        Err(_) => return refuse(rt, words),
    };
    match outcome_of(rt, &matches) {
        Ok(outcome) => Ok(outcome.status()),
        Err(failure) => Ok(told(rt, failure)),
    }
}
