//! The words of the commands for batches, manifests, chains and rings.
use crate::log_words::log;
use crate::names;
use crate::verbs::{GroupVerb, Verb};
use crate::words::{
    CONTEXT, CONTEXT_HEX, DETERMINISTIC, ENCRYPTED_BY, FILE, Group, ITERATIONS, JSON, KEY_TEXT,
    Kind, NAME, OUTPUT, PASSPHRASE_FILE, PREHASH, SET, SIGNATURE, SIGNING_KEY, Subcommand,
    VERIFYING_KEY, Word,
};

/// The commands that have commands below them.
pub fn groups() -> [Group; 5] {
    [batch(), manifest(), chain(), ring(), log()]
}

const BATCH_SIGN: Subcommand = Subcommand {
    name: "sign",
    verb: Verb::Group(GroupVerb::BatchSign),
    about: "Signs many files at once: FILE.receipt for each",
    example: "Example:\n    slh batch sign --key release.key *.txt",
    words: &[
        SIGNING_KEY,
        PASSPHRASE_FILE,
        HEAD_OUTPUT,
        DETERMINISTIC,
        FILES,
    ],
};

const BATCH_VERIFY: Subcommand = Subcommand {
    name: "verify",
    verb: Verb::Group(GroupVerb::BatchVerify),
    about: "Verifies the receipt of a file: accepted (0) or invalid (1)",
    example: "Example:\n    slh batch verify --key release.pub a.txt",
    words: &[VERIFYING_KEY, KEY_TEXT, BATCH_HEAD, RECEIPT, JSON, FILE],
};

// `slh batch`.
fn batch() -> Group {
    Group {
        name: "batch",
        about: "One signature for many files, and a receipt for each",
        subcommands: &[BATCH_SIGN, BATCH_VERIFY],
    }
}

const MANIFEST_SEAL: Subcommand = Subcommand {
    name: "seal",
    verb: Verb::Group(GroupVerb::ManifestSeal),
    about: "Signs the regular files below a folder, up to 4096",
    example: "Example:\n    \
              slh manifest seal --key release.key --output folder.manifest folder",
    words: &[
        SIGNING_KEY,
        PASSPHRASE_FILE,
        DETERMINISTIC,
        MANIFEST_OUTPUT,
        FOLDER,
    ],
};

const MANIFEST_CHECK: Subcommand = Subcommand {
    name: "check",
    verb: Verb::Group(GroupVerb::ManifestCheck),
    about: "Tells whether a folder has the files of a manifest: accepted (0), or \
            which is missing, differs or is unnamed (1)",
    example: "Example:\n    \
              slh manifest check --key release.pub --manifest folder.manifest folder",
    words: &[
        VERIFYING_KEY,
        KEY_TEXT,
        ROOT_CHAIN,
        MANIFEST_FILE,
        STRICT,
        JSON,
        FOLDER,
    ],
};

// `slh manifest`.
fn manifest() -> Group {
    Group {
        name: "manifest",
        about: "One signature for the files of a folder",
        subcommands: &[MANIFEST_SEAL, MANIFEST_CHECK],
    }
}

const CHAIN_DELEGATE: Subcommand = Subcommand {
    name: "delegate",
    verb: Verb::Group(GroupVerb::ChainDelegate),
    about: "Lets another key act: a chain with a link more",
    example: "Example:\n    \
              slh chain delegate --key root.key --subject release.pub --name \
              release --output release.chain",
    words: &[
        SIGNING_KEY,
        PASSPHRASE_FILE,
        SUBJECT,
        LINK_NAME,
        DEPTH,
        OLD_CHAIN,
        DETERMINISTIC,
        CHAIN_OUTPUT,
    ],
};

const CHAIN_WALK: Subcommand = Subcommand {
    name: "walk",
    verb: Verb::Group(GroupVerb::ChainWalk),
    about: "Writes the key at the end of a chain",
    example: "Example:\n    slh chain walk --key root.pub --chain release.chain",
    words: &[ROOT, KEY_TEXT, CHAIN_FILE, OUTPUT],
};

const CHAIN_SHOW: Subcommand = Subcommand {
    name: "show",
    verb: Verb::Group(GroupVerb::ChainShow),
    about: "Writes a line for each link of a chain: its depth, its key and its name",
    example: "Example:\n    slh chain show --key root.pub --chain release.chain",
    words: &[ROOT, KEY_TEXT, CHAIN_FILE],
};

const CHAIN_VERIFY: Subcommand = Subcommand {
    name: "verify",
    verb: Verb::Group(GroupVerb::ChainVerify),
    about: "Verifies a file under the key at the end of a chain: accepted (0) or \
            invalid (1)",
    example: "Example:\n    \
              slh chain verify --key root.pub --chain release.chain notes.txt",
    words: &[
        ROOT,
        KEY_TEXT,
        CHAIN_FILE,
        SIGNATURE,
        CONTEXT,
        CONTEXT_HEX,
        PREHASH,
        JSON,
        FILE,
    ],
};

// `slh chain`.
fn chain() -> Group {
    Group {
        name: "chain",
        about: "Keys that sign keys",
        subcommands: &[CHAIN_DELEGATE, CHAIN_WALK, CHAIN_SHOW, CHAIN_VERIFY],
    }
}

const RING_MASTER: Subcommand = Subcommand {
    name: "master",
    verb: Verb::Group(GroupVerb::RingMaster),
    about: "Makes a master secret of random bytes",
    example: "Example:\n    slh ring master products.master",
    words: &[MASTER_FILE],
};

const RING_KEY: Subcommand = Subcommand {
    name: "key",
    verb: Verb::Group(GroupVerb::RingKey),
    about: "Makes the key at a path again: NAME.key and NAME.pub",
    example: "Example:\n    \
              slh ring key --set SLH-DSA-SHA2-128f --master products.master --path \
              2/2026 product2",
    words: &[SET, MASTER, PATH, ENCRYPTED_BY, ITERATIONS, NAME],
};

const RING_RECORD: Subcommand = Subcommand {
    name: "record",
    verb: Verb::Group(GroupVerb::RingRecord),
    about: "Writes the record of a ring, which is no secret",
    example: "Example:\n    \
              slh ring record --set SLH-DSA-SHA2-128f --master products.master \
              --output products.ring 1/2026 2/2026",
    words: &[SET, MASTER, RECORD_OUTPUT, PATHS],
};

const RING_RESTORE: Subcommand = Subcommand {
    name: "restore",
    verb: Verb::Group(GroupVerb::RingRestore),
    about: "Writes the paths of a record, where its keys are those of the master",
    example: "Example:\n    slh ring restore --master products.master products.ring",
    words: &[MASTER, RECORD],
};

// `slh ring`.
fn ring() -> Group {
    Group {
        name: "ring",
        about: "The keys that one master secret gives",
        subcommands: &[RING_MASTER, RING_KEY, RING_RECORD, RING_RESTORE],
    }
}

const FILES: Word = Word {
    kind: Kind::Operands,
    name: names::FILES,
    value: "FILE",
    help: "The files, up to 2^20",
};

const HEAD_OUTPUT: Word = Word {
    kind: Kind::Optional,
    name: names::HEAD,
    value: "HEAD",
    help: "Where the head of the batch goes",
};

const BATCH_HEAD: Word = Word {
    kind: Kind::Optional,
    name: names::HEAD,
    value: "HEAD",
    help: "The head of the batch that the file has to be in",
};

const RECEIPT: Word = Word {
    kind: Kind::Optional,
    name: names::RECEIPT,
    value: "FILE.receipt",
    help: "The receipt; FILE.receipt if it is left out",
};

const FOLDER: Word = Word {
    kind: Kind::Operand,
    name: names::FOLDER,
    value: "FOLDER",
    help: "The folder",
};

const MANIFEST_FILE: Word = Word {
    kind: Kind::Required,
    name: names::MANIFEST,
    value: "MANIFEST",
    help: "The manifest",
};

const MANIFEST_OUTPUT: Word = Word {
    kind: Kind::Required,
    name: names::OUTPUT,
    value: "MANIFEST",
    help: "Where the manifest goes",
};

const SUBJECT: Word = Word {
    kind: Kind::Required,
    name: names::SUBJECT,
    value: "OTHER.pub",
    help: "The key that may act",
};

const LINK_NAME: Word = Word {
    kind: Kind::Required,
    name: names::NAME,
    value: "TEXT",
    help: "The name it acts under, 1 to 64 bytes",
};

const DEPTH: Word = Word {
    kind: Kind::Number,
    name: names::DEPTH,
    value: "NUMBER",
    help: "How deep it may delegate, 0 to 15",
};

const OLD_CHAIN: Word = Word {
    kind: Kind::Optional,
    name: names::CHAIN,
    value: "CHAIN",
    help: "The chain from the root key",
};

const CHAIN_FILE: Word = Word {
    kind: Kind::Required,
    name: names::CHAIN,
    value: "CHAIN",
    help: "The chain from the root key",
};

const ROOT_CHAIN: Word = Word {
    kind: Kind::Optional,
    name: names::CHAIN,
    value: "CHAIN",
    help: "A chain from that key to the one that sealed",
};

const STRICT: Word = Word {
    kind: Kind::Flag,
    name: names::STRICT,
    value: "",
    help: "Refuses a file below the folder that the manifest doesn't name",
};

const CHAIN_OUTPUT: Word = Word {
    kind: Kind::Required,
    name: names::OUTPUT,
    value: "CHAIN",
    help: "Where the chain with the new link goes",
};

const ROOT: Word = Word {
    kind: Kind::Key,
    name: names::KEY,
    value: "ROOT.pub",
    help: "The root's verifying key",
};

const MASTER: Word = Word {
    kind: Kind::Required,
    name: names::MASTER,
    value: "FILE",
    help: "The master secret",
};

const MASTER_FILE: Word = Word {
    kind: Kind::Operand,
    name: names::FILE,
    value: "FILE",
    help: "The file, which is secret",
};

const PATH: Word = Word {
    kind: Kind::Required,
    name: names::PATH,
    value: "PATH",
    help: "Up to 8 numbers with slashes, or a dot",
};

const PATHS: Word = Word {
    kind: Kind::Operands,
    name: names::PATHS,
    value: "PATH",
    help: "Up to 64 paths: numbers with slashes, or a dot",
};

const RECORD: Word = Word {
    kind: Kind::Operand,
    name: names::FILE,
    value: "RECORD",
    help: "The record",
};

const RECORD_OUTPUT: Word = Word {
    kind: Kind::Optional,
    name: names::OUTPUT,
    value: "RECORD",
    help: "Where it goes, in place of standard output",
};
