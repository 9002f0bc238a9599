//! Does what each line of standard input asks for as arguments of `slh`, and writes the line, what
//! came of it, and its status. Its own status is the last one. Other lines look at the files that
//! the commands write. Its stored run shows verdicts that say yes and no, refusals, and what is
//! written.
#![tactic(auto)]

mod looks;

use looks::look;
use slh_commands::status_of;
use std::alloc::AllocError;
use std::io;
use std::process::ExitCode;

// The status where a line can't be read or its status can't be written.
const FAULT: u8 = 4;

// The status of a look that fails, as that of a command which is refused.
const REFUSED: u8 = 2;

// A word of a line, in which `~` stands for a blank.
fn word_of(rt: &HostRuntime, text: &str) -> Result<String, AllocError> {
    let mut word = String::new(rt.alloc());
    for symbol in text.chars() {
        word.push(if symbol == '~' { ' ' } else { symbol })?;
    }
    Ok(word)
}

// The words of a line, which are what stands between blanks.
fn words_of(rt: &HostRuntime, line: &str) -> Result<Vec<String>, AllocError> {
    let mut words = Vec::new(rt.alloc());
    for word in line.split_whitespace() {
        words.push(word_of(rt, word)?)?;
    }
    Ok(words)
}

fn word_at(words: &[String], i: usize) -> &str {
    match words.get(i) {
        Some(word) => word.as_str(),
        None => "",
    }
}

// The status of the command or the look of a line.
fn answer(rt: &HostRuntime, words: &[String]) -> u8 {
    let verb = word_at(words, 0);
    if verb == "slh" {
        return status_of(rt, words);
    }
    match look(rt, verb, word_at(words, 1), word_at(words, 2)) {
        Ok(status) => status,
        Err(error) => {
            let _ = eprintln!(rt; "{verb}: {error}");
            REFUSED
        }
    }
}

// Writes a line, what came of it, and its status.
fn answer_line(rt: &HostRuntime, line: &str) -> io::Result<u8> {
    println!(rt; "$ {line}")?;
    let words = words_of(rt, line)?;
    let status = answer(rt, words.as_slice());
    println!(rt; "{status}")?;
    Ok(status)
}

// The status of the last line. A line that begins with `#` is a heading, and only written.
fn answer_lines(rt: &HostRuntime) -> io::Result<u8> {
    let mut status = 0;
    for line in rt.lines(rt.alloc()) {
        let line = line?;
        if line.starts_with('#') {
            println!(rt; "{line}")?;
        } else {
            status = answer_line(rt, line.as_str())?;
        }
    }
    Ok(status)
}

fn main(rt: HostRuntime) -> ExitCode {
    match answer_lines(&rt) {
        Ok(status) => ExitCode::from(status),
        Err(_) => ExitCode::from(FAULT),
    }
}
