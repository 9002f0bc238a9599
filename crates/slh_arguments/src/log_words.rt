//! The words of the commands for signed logs.
use crate::names;
use crate::verbs::{LogVerb, Verb};
use crate::words::{
    DETERMINISTIC, FILE, Group, JSON, KEY_TEXT, Kind, OUTPUT, PASSPHRASE_FILE, SIGNING_KEY,
    Subcommand, VERIFYING_KEY, Word,
};

const LOG_INIT: Subcommand = Subcommand {
    name: "init",
    verb: Verb::Log(LogVerb::Init),
    about: "Begins a log without entries in a folder",
    example: "Example:\n    \
              slh log init --key log.key --origin example.org/releases releases",
    words: &[
        SIGNING_KEY,
        PASSPHRASE_FILE,
        ORIGIN,
        LAST,
        DETERMINISTIC,
        LOG,
    ],
};

const LOG_APPEND: Subcommand = Subcommand {
    name: "append",
    verb: Verb::Log(LogVerb::Append),
    about: "Adds each file as an entry, and signs the head again",
    example: "Example:\n    slh log append --key log.key releases notes.txt",
    words: &[
        SIGNING_KEY,
        PASSPHRASE_FILE,
        LAST,
        LINES,
        BREAK_LOCK,
        DETERMINISTIC,
        LOG,
        ENTRIES,
    ],
};

const LOG_PRUNE: Subcommand = Subcommand {
    name: "prune",
    verb: Verb::Log(LogVerb::Prune),
    about: "Removes partial tiles that became full, and what no head counts",
    example: "Example:\n    slh log prune --key log.key releases",
    words: &[SIGNING_KEY, PASSPHRASE_FILE, LAST, BREAK_LOCK, LOG],
};

const LOG_PROVE: Subcommand = Subcommand {
    name: "prove",
    verb: Verb::Log(LogVerb::Prove),
    about: "Writes the proof that an entry is in the log, or that the log grew",
    example: "Example:\n    \
              slh log prove releases 0 --output notes.proof\n    \
              slh log prove releases --from 1 --output growth.proof",
    words: &[FROM, OUTPUT, LOG, INDEX],
};

const LOG_VERIFY: Subcommand = Subcommand {
    name: "verify",
    verb: Verb::Log(LogVerb::Verify),
    about: "Tells whether a file is an entry of the log of a proof: accepted (0) or \
            invalid (1)",
    example: VERIFY_EXAMPLE,
    words: &[VERIFYING_KEY, KEY_TEXT, ORIGIN, HEAD, PROOF, JSON, FILE],
};

const LOG_GROWTH: Subcommand = Subcommand {
    name: "growth",
    verb: Verb::Log(LogVerb::Growth),
    about: "Tells whether a log kept all entries of an older checkpoint: accepted (0) \
            or invalid (1)",
    example: GROWTH_EXAMPLE,
    words: &[VERIFYING_KEY, KEY_TEXT, ORIGIN, OLD, NEW, PROOF, JSON],
};

const LOG_CHECK: Subcommand = Subcommand {
    name: "check",
    verb: Verb::Log(LogVerb::Check),
    about: "Makes everything again from the entries, and compares: accepted (0) or \
            invalid (1)",
    example: "Example:\n    slh log check --key log.pub releases",
    words: &[VERIFYING_KEY, KEY_TEXT, ANY_ORIGIN, JSON, LOG],
};

/// `slh log`.
pub fn log() -> Group {
    Group {
        name: "log",
        about: "A signed log that only grows",
        subcommands: &[
            LOG_INIT, LOG_APPEND, LOG_PRUNE, LOG_PROVE, LOG_VERIFY, LOG_GROWTH, LOG_CHECK,
        ],
    }
}

const VERIFY_EXAMPLE: &str = "Example:\n    \
    slh log verify --key log.pub --origin example.org/releases --proof notes.proof notes.txt";

const GROWTH_EXAMPLE: &str = "Example:\n    \
    slh log growth --key log.pub --origin example.org/releases --old before --new \
    releases/checkpoint --proof growth.proof";

const LOG: Word = Word {
    kind: Kind::Operand,
    name: names::FOLDER,
    value: "FOLDER",
    help: "The folder of the log",
};

const ENTRIES: Word = Word {
    kind: Kind::Operands,
    name: names::FILES,
    value: "FILE",
    help: "The entries, each of up to 65535 bytes; - is standard input",
};

const INDEX: Word = Word {
    kind: Kind::OptionalOperand,
    name: names::INDEX,
    value: "INDEX",
    help: "Which entry, from 0; or --from",
};

const ORIGIN: Word = Word {
    kind: Kind::Required,
    name: names::ORIGIN,
    value: "ORIGIN",
    help: "The name of the log",
};

const ANY_ORIGIN: Word = Word {
    kind: Kind::Optional,
    name: names::ORIGIN,
    value: "ORIGIN",
    help: "The name of the log; that of its checkpoint if it is left out",
};

const LINES: Word = Word {
    kind: Kind::Flag,
    name: names::LINES,
    value: "",
    help: "Adds each line of a file as an entry, without its end",
};

const LAST: Word = Word {
    kind: Kind::Optional,
    name: names::LAST,
    value: "FILE",
    help: "The head that was signed last; NAME.key.ORIGIN.last if it is left out",
};

const BREAK_LOCK: Word = Word {
    kind: Kind::Flag,
    name: names::BREAK_LOCK,
    value: "",
    help: "Takes the lock of a process of this host that is gone",
};

const FROM: Word = Word {
    kind: Kind::Optional,
    name: names::FROM,
    value: "SIZE",
    help: "Proves that the log grew from its first so many entries",
};

const HEAD: Word = Word {
    kind: Kind::Optional,
    name: names::CHECKPOINT,
    value: "CHECKPOINT",
    help: "The checkpoint; the one in the proof if it is left out",
};

const PROOF: Word = Word {
    kind: Kind::Required,
    name: names::PROOF,
    value: "PROOF",
    help: "The proof",
};

const OLD: Word = Word {
    kind: Kind::Required,
    name: names::OLD,
    value: "CHECKPOINT",
    help: "The older checkpoint",
};

const NEW: Word = Word {
    kind: Kind::Required,
    name: names::NEW,
    value: "CHECKPOINT",
    help: "The newer checkpoint",
};
