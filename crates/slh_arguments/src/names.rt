//! What the options, the flags and the operands of the commands are called: an option by its name
//! behind `--`, an operand by the name that the parser has for it.

pub const AUDIT: &str = "audit";

pub const BREAK_LOCK: &str = "break-lock";

pub const CHAIN: &str = "chain";

pub const CHECKPOINT: &str = "checkpoint";

pub const CONTEXT: &str = "context";

pub const CONTEXT_HEX: &str = "context-hex";

pub const DEPTH: &str = "depth";

pub const DETERMINISTIC: &str = "deterministic";

pub const DSSE: &str = "dsse";

pub const EVIDENCE: &str = "evidence";

pub const FILE: &str = "file";

pub const FILES: &str = "files";

pub const FOLDER: &str = "folder";

pub const FROM: &str = "from";

pub const HEAD: &str = "head";

pub const INDEX: &str = "index";

pub const ITERATIONS: &str = "iterations";

pub const JSON: &str = "json";

pub const KEY: &str = "key";

pub const KEY_TEXT: &str = "key-text";

pub const LAST: &str = "last";

pub const LINES: &str = "lines";

pub const MANIFEST: &str = "manifest";

pub const MASTER: &str = "master";

pub const NAME: &str = "name";

pub const NEW: &str = "new";

pub const NEW_PASSPHRASE_FILE: &str = "new-passphrase-file";

pub const OLD: &str = "old";

pub const ORIGIN: &str = "origin";

pub const OUTPUT: &str = "output";

pub const PASSPHRASE_FILE: &str = "passphrase-file";

pub const PATH: &str = "path";

pub const PATHS: &str = "paths";

pub const PAYLOAD: &str = "payload";

pub const PREHASH: &str = "prehash";

pub const PROOF: &str = "proof";

pub const RECEIPT: &str = "receipt";

pub const SET: &str = "set";

pub const SIGNATURE: &str = "signature";

pub const STRICT: &str = "strict";

pub const SUBJECT: &str = "subject";
