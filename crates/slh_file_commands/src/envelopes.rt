//! `slh sign --dsse` and `slh verify --dsse`: files in envelopes of DSSE.
use crate::error::FileError;
use crate::signatures::{check_output_of, put, signed_bytes};
use clap::ArgMatches;
use slh_arguments::bytes::envelope::{OpenError, encoding};
use slh_arguments::bytes::{
    Key, Mode, Outcome, SigningTerms, envelope_of, open_envelope, verifying_half,
};
use slh_arguments::host::files::{self, Reader};
use slh_arguments::host::{Failure, outputs};
use slh_arguments::{Randomness, WordError, check_output, names, signing_key};

/// What is put behind the name of a file for the name of its envelope.
const ENVELOPE_END: &str = ".dsse";

/// Signs a file in an envelope, as a payload of a type. The envelope goes to `--output`, else to
/// FILE.dsse, or from standard input to standard output.
pub(crate) fn sign_envelope<'a>(
    rt: &HostRuntime,
    words: &ArgMatches<'a>,
    path: &'a str,
    payload_type: &str,
) -> Result<Outcome, Failure<'a>> {
    check_output_of(rt, words, path, ENVELOPE_END)?;
    let key = signing_key(rt, words)?;
    let payload = Reader::open(rt, path)?.whole(rt, path)?;
    let payload = payload.as_slice();
    let text = encoding(rt.alloc(), payload_type.as_bytes(), payload)?;
    let randomness = Randomness::new(rt, words)?;
    let terms = SigningTerms {
        key: &key,
        mode: Mode::Pure,
        context: b"",
        opt_rand: randomness.of_set(key.set),
    };
    let signature = signed_bytes(rt, words, path, &terms, &text)?;
    let public = verifying_half(key.bytes.as_slice());
    let signature = signature.as_slice();
    match envelope_of(
        rt.alloc(),
        key.set,
        public,
        payload_type,
        payload,
        signature,
    ) {
        Ok(envelope) => put(rt, words, path, ENVELOPE_END, &envelope),
        Err(_) => Err(Failure::Memory),
    }
}

/// What is told of an envelope under a verifying key, of which the payload has a type. Once it is
/// accepted the payload goes to `--payload`.
pub(crate) fn told_of_envelope<'a>(
    rt: &HostRuntime,
    words: &ArgMatches<'a>,
    key: &Key,
    payload_type: &str,
    path: &'a str,
) -> Result<Outcome, Failure<'a>> {
    let text = Reader::open(rt, path)?.whole(rt, path)?;
    let key_bytes = key.bytes.as_slice();
    match open_envelope(
        rt.alloc(),
        key.set,
        key_bytes,
        payload_type,
        text.as_slice(),
    ) {
        Ok(payload) => {
            if let Some(output) = words.get_str(names::PAYLOAD) {
                outputs::put(rt, output, &payload)?;
            }
            Ok(Outcome::Accepted)
        }
        Err(error) => match Outcome::of_unopened(error) {
            Some(outcome) => Ok(outcome),
            None => Err(unopened(path, error)),
        },
    }
}

// Why there is no verdict on an envelope.
fn unopened(path: &str, error: OpenError) -> Failure<'_> {
    match error {
        OpenError::PayloadType => Failure::told(path, FileError::OtherType),
        OpenError::Memory => Failure::Memory,
        OpenError::Form | OpenError::Unsigned | OpenError::Invalid => {
            Failure::told(path, FileError::NotEnvelope)
        }
    }
}

/// Refuses a payload's output at the place of an input.
pub(crate) fn check_payload_output<'a>(
    rt: &HostRuntime,
    words: &ArgMatches<'a>,
    path: &'a str,
) -> Result<(), Failure<'a>> {
    let Some(output) = words.get_str(names::PAYLOAD) else {
        return Ok(());
    };
    if files::are_one(rt, path, output) {
        return Err(Failure::told(path, WordError::OverInput));
    }
    check_output(rt, words, &[names::KEY], output)
}
