//! The words that the command knows, in tables, and the parser that they make.
use crate::group_words::groups;
use crate::names;
use crate::verbs::{FileVerb, Verb};
use clap::builder::ValueParser;
use clap::{Arg, ArgAction, ArgMatches, Command, value_parser};
use slh_host::bytes::Set;
use std::alloc::{AllocError, Global};

/// What `--version` prints: the version, and the logic of the toolchain that proved the program.
const VERSION: &str = "0.21.0 (logic dac8208d650f15bf)";

const HASHES: [&str; 2] = ["sha256", "sha512"];

/// What says how a file is signed, and isn't said of an envelope.
const WAYS_OF_SIGNING: [&str; 4] = [
    names::CONTEXT,
    names::CONTEXT_HEX,
    names::PREHASH,
    names::SIGNATURE,
];

/// A command that has commands below it.
#[derive(Drop)]
pub struct Group {
    pub name: &'static str,
    pub about: &'static str,
    pub subcommands: &'static [Subcommand],
}

/// A command with no commands below it.
pub struct Subcommand {
    pub name: &'static str,
    pub verb: Verb,
    pub about: &'static str,
    pub example: &'static str,
    pub words: &'static [Word],
}

/// An option, a flag or an operand.
pub struct Word {
    pub kind: Kind,
    pub name: &'static str,
    pub value: &'static str,
    pub help: &'static str,
}

/// What a word is.
#[derive(Clone, Copy)]
pub enum Kind {
    /// `--name` alone.
    Flag,
    /// An option that may be left out.
    Optional,
    /// An option that may be left out, and does not stand with `--context-hex`.
    Context,
    /// An option that may be left out, is not empty, and does not stand with what says how a file is
    /// signed.
    Envelope,
    /// An option that may be left out, and stands with `--dsse` alone.
    Payload,
    /// An option that may be left out, one of `HASHES`.
    Hash,
    /// An option that may be left out: a number, or else 0.
    Number,
    /// An option.
    Required,
    /// An option, the name of a set.
    Set,
    /// An option that may be left out, the name of a set.
    OptionalSet,
    /// An option that may be left out, and does not stand with `--key-text`.
    Key,
    /// One word, which is not empty.
    Operand,
    /// One word, which is not empty and may be left out.
    OptionalOperand,
    /// One word or more.
    Operands,
}

pub const SET: Word = Word {
    kind: Kind::Set,
    name: names::SET,
    value: "SET",
    help: "The parameter set",
};

const KEYGEN_SET: Word = Word {
    kind: Kind::OptionalSet,
    name: names::SET,
    value: "SET",
    help: "The parameter set; SLH-DSA-SHA2-128s if it is left out",
};

pub const SIGNING_KEY: Word = Word {
    kind: Kind::Required,
    name: names::KEY,
    value: "NAME.key",
    help: "The signing key",
};

pub const PASSPHRASE_FILE: Word = Word {
    kind: Kind::Optional,
    name: names::PASSPHRASE_FILE,
    value: "FILE",
    help: "The passphrase of an encrypted key: the first line of a file",
};

pub const ENCRYPTED_BY: Word = Word {
    kind: Kind::Optional,
    name: names::PASSPHRASE_FILE,
    value: "FILE",
    help: "Encrypts NAME.key by a passphrase, the first line of a file",
};

const NEW_PASSPHRASE_FILE: Word = Word {
    kind: Kind::Optional,
    name: names::NEW_PASSPHRASE_FILE,
    value: "FILE",
    help: "Encrypts the key by a passphrase, the first line of a file",
};

pub const ITERATIONS: Word = Word {
    kind: Kind::Optional,
    name: names::ITERATIONS,
    value: "NUMBER",
    help: "How often a passphrase is hashed, up to 10000000; 600000 if it is left out",
};

pub const VERIFYING_KEY: Word = Word {
    kind: Kind::Key,
    name: names::KEY,
    value: "NAME.pub",
    help: "The verifying key",
};

pub const KEY_TEXT: Word = Word {
    kind: Kind::Optional,
    name: names::KEY_TEXT,
    value: "TEXT",
    help: "The verifying key itself, as 'SET HEX'",
};

pub const SIGNATURE: Word = Word {
    kind: Kind::Optional,
    name: names::SIGNATURE,
    value: "FILE.sig",
    help: "The signature; FILE.sig if it is left out",
};

pub const CONTEXT: Word = Word {
    kind: Kind::Context,
    name: names::CONTEXT,
    value: "TEXT",
    help: "The context, at most 255 bytes",
};

pub const CONTEXT_HEX: Word = Word {
    kind: Kind::Optional,
    name: names::CONTEXT_HEX,
    value: "HEX",
    help: "The context in hexadecimal",
};

pub const PREHASH: Word = Word {
    kind: Kind::Hash,
    name: names::PREHASH,
    value: "HASH",
    help: "Signs this digest of the file",
};

const SIGNED_HASH: Word = Word {
    kind: Kind::Hash,
    name: names::PREHASH,
    value: "HASH",
    help: "This digest of the file was signed",
};

const SIGNED_FILES: Word = Word {
    kind: Kind::Operands,
    name: names::FILES,
    value: "FILE",
    help: "The files; - is standard input",
};

pub const DETERMINISTIC: Word = Word {
    kind: Kind::Flag,
    name: names::DETERMINISTIC,
    value: "",
    help: "Signs without random bytes",
};

pub const FILE: Word = Word {
    kind: Kind::Operand,
    name: names::FILE,
    value: "FILE",
    help: "The file; - is standard input",
};

pub const NAME: Word = Word {
    kind: Kind::Operand,
    name: names::NAME,
    value: "NAME",
    help: "The files' name, without .key and .pub",
};

pub const OUTPUT: Word = Word {
    kind: Kind::Optional,
    name: names::OUTPUT,
    value: "FILE",
    help: "Where it goes, in place of standard output",
};

pub const JSON: Word = Word {
    kind: Kind::Flag,
    name: names::JSON,
    value: "",
    help: "Tells the verdict as an object of JSON",
};

const AUDIT: Word = Word {
    kind: Kind::Flag,
    name: names::AUDIT,
    value: "",
    help: "Makes the signature twice, and compares, before it is written",
};

const SIGNATURE_OUTPUT: Word = Word {
    kind: Kind::Optional,
    name: names::OUTPUT,
    value: "FILE.sig",
    help: "Where the signature goes; - is standard output",
};

const DSSE: Word = Word {
    kind: Kind::Envelope,
    name: names::DSSE,
    value: "TYPE",
    help: "Signs it as a payload of this type, in a DSSE envelope, FILE.dsse",
};

const SIGNED_DSSE: Word = Word {
    kind: Kind::Envelope,
    name: names::DSSE,
    value: "TYPE",
    help: "The files are DSSE envelopes, with payloads of this type",
};

const PAYLOAD: Word = Word {
    kind: Kind::Payload,
    name: names::PAYLOAD,
    value: "FILE",
    help: "Where an envelope's payload goes once it is accepted; - is standard output",
};

const KEY_OUTPUT: Word = Word {
    kind: Kind::Required,
    name: names::OUTPUT,
    value: "NAME.key",
    help: "Where the key goes, where no file is",
};

const EVIDENCE: Word = Word {
    kind: Kind::Required,
    name: names::EVIDENCE,
    value: "WORDS",
    help: "What an audit printed after foreign",
};

const KEYGEN: Subcommand = Subcommand {
    name: "keygen",
    verb: Verb::File(FileVerb::Keygen),
    about: "Makes a key of random bytes: NAME.key, which is secret, and NAME.pub",
    example: "Example:\n    slh keygen --set SLH-DSA-SHA2-128f release",
    words: &[KEYGEN_SET, ENCRYPTED_BY, ITERATIONS, NAME],
};

const KEY: Subcommand = Subcommand {
    name: "key",
    verb: Verb::File(FileVerb::Key),
    about: "Writes a signing key anew: encrypted, in the open, or by another passphrase",
    example: "Example:\n    \
              slh key --key release.key --new-passphrase-file passphrase --output locked.key",
    words: &[
        SIGNING_KEY,
        PASSPHRASE_FILE,
        NEW_PASSPHRASE_FILE,
        ITERATIONS,
        KEY_OUTPUT,
    ],
};

const PUBLIC: Subcommand = Subcommand {
    name: "public",
    verb: Verb::File(FileVerb::Public),
    about: "Writes the verifying key of a signing key",
    example: "Example:\n    slh public --key release.key --output release.pub",
    words: &[SIGNING_KEY, PASSPHRASE_FILE, OUTPUT],
};

const SIGN: Subcommand = Subcommand {
    name: "sign",
    verb: Verb::File(FileVerb::Sign),
    about: "Signs a file; the signature goes to FILE.sig",
    example: "Example:\n    slh sign --key release.key --audit notes.txt",
    words: &[
        SIGNING_KEY,
        PASSPHRASE_FILE,
        CONTEXT,
        CONTEXT_HEX,
        PREHASH,
        DSSE,
        FILE,
        DETERMINISTIC,
        AUDIT,
        SIGNATURE_OUTPUT,
    ],
};

const VERIFY: Subcommand = Subcommand {
    name: "verify",
    verb: Verb::File(FileVerb::Verify),
    about: "Verifies the signatures of files: accepted (0) or invalid (1)",
    example: "Example:\n    slh verify --key release.pub notes.txt",
    words: &[
        VERIFYING_KEY,
        KEY_TEXT,
        SIGNATURE,
        CONTEXT,
        CONTEXT_HEX,
        SIGNED_HASH,
        SIGNED_DSSE,
        PAYLOAD,
        JSON,
        SIGNED_FILES,
    ],
};

const AUDIT_COMMAND: Subcommand = Subcommand {
    name: "audit",
    verb: Verb::File(FileVerb::Audit),
    about: "Tells whether a key made a signature: genuine (0), foreign or invalid (1)",
    example: "Example:\n    \
              slh audit --key release.key --signature notes.txt.sig notes.txt",
    words: &[
        SIGNING_KEY,
        PASSPHRASE_FILE,
        SIGNATURE,
        CONTEXT,
        CONTEXT_HEX,
        PREHASH,
        JSON,
        FILE,
    ],
};

const EVIDENCE_COMMAND: Subcommand = Subcommand {
    name: "evidence",
    verb: Verb::File(FileVerb::Evidence),
    about: "Tells whether evidence shows against a signature: shown (0) or not shown (1)",
    example: "Example:\n    slh evidence --key release.key --signature notes.txt.sig \
              --evidence 'early 0 1' notes.txt",
    words: &[
        SIGNING_KEY,
        PASSPHRASE_FILE,
        SIGNATURE,
        EVIDENCE,
        CONTEXT,
        CONTEXT_HEX,
        PREHASH,
        JSON,
        FILE,
    ],
};

const INSPECT: Subcommand = Subcommand {
    name: "inspect",
    verb: Verb::File(FileVerb::Inspect),
    about: "Tells what a key or a signature is, and nothing that is secret",
    example: "Example:\n    slh inspect release.key",
    words: &[PASSPHRASE_FILE, FILE],
};

// (in a function of its own, a table stands in no other function's proof)
fn subcommands() -> &'static [Subcommand] {
    &[
        KEYGEN,
        KEY,
        PUBLIC,
        SIGN,
        VERIFY,
        AUDIT_COMMAND,
        EVIDENCE_COMMAND,
        INSPECT,
    ]
}

/// The command and its subcommands.
pub fn command<'a>(alloc: Global) -> Result<Command<'a>, AllocError> {
    let mut command = with_subcommands(alloc, root(alloc), subcommands())?;
    for group in groups() {
        command = command.subcommand(group_command(alloc, group)?)?;
    }
    Ok(command)
}

// What the row of a name asks for.
fn verb_in(rows: &[Subcommand], name: &str) -> Option<Verb> {
    match rows.iter().find(|row| row.name == name) {
        Some(row) => Some(row.verb),
        None => None,
    }
}

/// What the words ask for, and the words of its row.
pub fn chosen<'m, 'a>(matches: &'m ArgMatches<'a>) -> Option<(Verb, &'m ArgMatches<'a>)> {
    let (name, words) = matches.subcommand()?;
    if let Some(verb) = verb_in(subcommands(), name) {
        return Some((verb, words));
    }
    let groups = groups();
    let group = groups.iter().find(|group| group.name == name)?;
    let (name, words) = words.subcommand()?;
    Some((verb_in(group.subcommands, name)?, words))
}

fn root<'a>(alloc: Global) -> Command<'a> {
    let about = "Signs and verifies files by SLH-DSA over SHA-2 (FIPS 205)";
    parent(alloc, "slh", about).version(VERSION).after_help(
        "The status is 0, or 1 where a verdict says no, or 2 for all else.\n\n\
         Example:\n    slh keygen release\n    \
         slh sign --key release.key notes.txt\n    \
         slh verify --key release.pub notes.txt",
    )
}

// A command that one below it has to follow.
fn parent<'a>(alloc: Global, name: &'a str, about: &'a str) -> Command<'a> {
    Command::new(alloc, name)
        .about(about)
        .subcommand_required(true)
        .arg_required_else_help(true)
}

fn group_command<'a>(alloc: Global, group: Group) -> Result<Command<'a>, AllocError> {
    let command = parent(alloc, group.name, group.about);
    with_subcommands(alloc, command, group.subcommands)
}

fn with_subcommands<'a>(
    alloc: Global,
    mut command: Command<'a>,
    rows: &'static [Subcommand],
) -> Result<Command<'a>, AllocError> {
    for row in rows {
        command = command.subcommand(command_of(alloc, row)?)?;
    }
    Ok(command)
}

fn command_of<'a>(alloc: Global, row: &'static Subcommand) -> Result<Command<'a>, AllocError> {
    let mut command = Command::new(alloc, row.name)
        .about(row.about)
        .after_help(row.example);
    for word in row.words {
        command = command.arg(arg_of(alloc, word)?)?;
    }
    Ok(command)
}

fn arg_of<'a>(alloc: Global, word: &'static Word) -> Result<Arg<'a>, AllocError> {
    let arg = Arg::new(alloc, word.name).help(word.help);
    match word.kind {
        Kind::Flag => Ok(arg.long(word.name).action(ArgAction::SetTrue)),
        Kind::Operand | Kind::OptionalOperand => Ok(with_value(arg, word)),
        Kind::Operands => Ok(with_value(arg, word).num_args(1usize..)),
        Kind::Context => with_value(arg.long(word.name), word).conflicts_with(names::CONTEXT_HEX),
        Kind::Envelope => with_value(arg.long(word.name), word).conflicts_with_all(
            &WAYS_OF_SIGNING,
        ),
        Kind::Payload => with_value(arg.long(word.name), word).requires_arg(names::DSSE),
        Kind::Key => with_value(arg.long(word.name), word).conflicts_with(names::KEY_TEXT),
        _ => Ok(with_value(arg.long(word.name), word)),
    }
}

fn with_value<'a>(arg: Arg<'a>, word: &'static Word) -> Arg<'a> {
    arg.value_name(word.value)
        .value_parser(parser_of(word.kind))
        .default_values(defaults_of(word.kind))
        .required(is_required(word.kind))
}

fn parser_of(kind: Kind) -> ValueParser<'static> {
    match kind {
        Kind::Set | Kind::OptionalSet => ValueParser::Names(&Set::NAMES),
        Kind::Hash => ValueParser::Names(&HASHES),
        Kind::Number => value_parser!(u8),
        Kind::Operand | Kind::OptionalOperand | Kind::Operands | Kind::Envelope => {
            ValueParser::NonEmptyString
        }
        _ => ValueParser::String,
    }
}

fn defaults_of(kind: Kind) -> &'static [&'static str] {
    match kind {
        Kind::Number => &["0"],
        _ => &[],
    }
}

fn is_required(kind: Kind) -> bool {
    matches!(
        kind,
        Kind::Required | Kind::Set | Kind::Operand | Kind::Operands
    )
}
