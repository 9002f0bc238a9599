//! What a job line asks for.
ghost use Rattle.std.specs.Prelude.{◌≡◌, ◌⊎◌, Err, drop};
ghost use Rattle.std.specs.List.{find};
ghost use Rattle.std.specs.Str.{bytes_eq};
ghost use Rattle.line_serve.specs.Fields.{contents};
ghost use Rattle.slh_line.specs.declared.line_error.LineError.TheVariants.{Memory};
ghost use Rattle.slh_jobs.specs.EvidenceWords.{evidence_in};
ghost use Rattle.slh_run.specs.Requests.{command_name, command_named, job_at, job_of};
ghost use Rattle.slh_run.specs.Requests.{keyed_message_of};
ghost use Rattle.slh_run.specs.declared.request.Command.TheVariants.{Keygen, Sign, Verify, Audit};
ghost use Rattle.slh_run.specs.declared.request.Command.TheVariants.{Check};

use line_serve::{ByteString, field_at};
use slh_audit::Evidence;
use slh_dsa::Mode;
use slh_jobs::{Job, read_evidence};
use slh_line::{LineError, bytes_at, randomizer_at};
use std::alloc::Global;

// The key, the context and the message of a line, which all commands but keygen have.
#[derive(Drop)]
struct KeyedMessage {
    key: ByteString,
    context: ByteString,
    message: ByteString,
}

#[derive(Clone, Copy, Debug, PartialEq, Eq)]
pub(crate) enum Command {
    Keygen,
    Sign(Mode),
    Verify(Mode),
    Audit(Mode),
    Check(Mode),
}

impl Command {
    // All commands.
    const ALL: [Command; 13] = [
        Command::Keygen,
        Command::Sign(Mode::Pure),
        Command::Sign(Mode::Sha256),
        Command::Sign(Mode::Sha512),
        Command::Verify(Mode::Pure),
        Command::Verify(Mode::Sha256),
        Command::Verify(Mode::Sha512),
        Command::Audit(Mode::Pure),
        Command::Audit(Mode::Sha256),
        Command::Audit(Mode::Sha512),
        Command::Check(Mode::Pure),
        Command::Check(Mode::Sha256),
        Command::Check(Mode::Sha512),
    ];

    fn name(self) -> &'static [u8]
        ensures { result.now ≡ command_name self }
    {
        match self {
            Command::Keygen => b"keygen",
            Command::Sign(Mode::Pure) => b"sign",
            Command::Sign(Mode::Sha256) => b"sign-sha256",
            Command::Sign(Mode::Sha512) => b"sign-sha512",
            Command::Verify(Mode::Pure) => b"verify",
            Command::Verify(Mode::Sha256) => b"verify-sha256",
            Command::Verify(Mode::Sha512) => b"verify-sha512",
            Command::Audit(Mode::Pure) => b"audit",
            Command::Audit(Mode::Sha256) => b"audit-sha256",
            Command::Audit(Mode::Sha512) => b"audit-sha512",
            Command::Check(Mode::Pure) => b"check",
            Command::Check(Mode::Sha256) => b"check-sha256",
            Command::Check(Mode::Sha512) => b"check-sha512",
        }
    }

    #[tactic(auto, unfolding(crate::specs::Requests::command_named))]
    fn from_name(name: &[u8]) -> Option<Command>
        ensures { result ≡ command_named name.now }
    {
        first_named(&Command::ALL, name)
    }
}

fn first_named(commands: &[Command], name: &[u8]) -> Option<Command>
    ensures { result ≡ find (λ command. bytes_eq name.now (command_name command)) commands.now }
{
    commands
        .iter()
        .copied()
        .find(|command| name == command.name())
}

fn read_keyed_message(alloc: Global, fields: &[&[u8]]) -> Result<KeyedMessage, LineError>
    ensures { (result ≡ keyed_message_of (contents fields.now)) ⊎ (result ≡ Err Memory) }
{
    let key = bytes_at(alloc, fields, 2)?;
    let context = bytes_at(alloc, fields, 3)?;
    let message = bytes_at(alloc, fields, 4)?;
    Ok(KeyedMessage {
        key,
        context,
        message,
    })
}

fn read_keygen(alloc: Global, fields: &[&[u8]]) -> Result<Job, LineError>
    ensures { (result ≡ job_of Keygen (contents fields.now)) ⊎ (result ≡ Err Memory) }
{
    let sk_seed = bytes_at(alloc, fields, 2)?;
    let sk_prf = bytes_at(alloc, fields, 3)?;
    let pk_seed = bytes_at(alloc, fields, 4)?;
    Ok(Job::Keygen {
        sk_seed,
        sk_prf,
        pk_seed,
    })
}

fn read_sign(alloc: Global, mode: Mode, fields: &[&[u8]]) -> Result<Job, LineError>
    ensures { (result ≡ job_of (Sign mode) (contents fields.now)) ⊎ (result ≡ Err Memory) }
{
    let keyed = read_keyed_message(alloc, fields)?;
    let randomizer = randomizer_at(alloc, fields, 5)?;
    Ok(Job::Sign {
        mode,
        key: keyed.key,
        context: keyed.context,
        message: keyed.message,
        randomizer,
    })
}

fn read_verify(alloc: Global, mode: Mode, fields: &[&[u8]]) -> Result<Job, LineError>
    ensures { (result ≡ job_of (Verify mode) (contents fields.now)) ⊎ (result ≡ Err Memory) }
{
    let keyed = read_keyed_message(alloc, fields)?;
    let signature = bytes_at(alloc, fields, 5)?;
    Ok(Job::Verify {
        mode,
        key: keyed.key,
        context: keyed.context,
        message: keyed.message,
        signature,
    })
}

fn read_audit(alloc: Global, mode: Mode, fields: &[&[u8]]) -> Result<Job, LineError>
    ensures { (result ≡ job_of (Audit mode) (contents fields.now)) ⊎ (result ≡ Err Memory) }
{
    let keyed = read_keyed_message(alloc, fields)?;
    let signature = bytes_at(alloc, fields, 5)?;
    Ok(Job::Audit {
        mode,
        key: keyed.key,
        context: keyed.context,
        message: keyed.message,
        signature,
    })
}

// The evidence behind the signature.
fn evidence_behind(fields: &[&[u8]]) -> Option<Evidence>
    ensures { result ≡ evidence_in (drop 6 (contents fields.now)) }
{
    read_evidence(fields.get(6..)?)
}

fn read_check(alloc: Global, mode: Mode, fields: &[&[u8]]) -> Result<Job, LineError>
    ensures { (result ≡ job_of (Check mode) (contents fields.now)) ⊎ (result ≡ Err Memory) }
{
    let Some(evidence) = evidence_behind(fields) else {
        return Err(LineError::Fields);
    };
    let keyed = read_keyed_message(alloc, fields)?;
    let signature = bytes_at(alloc, fields, 5)?;
    Ok(Job::Check {
        mode,
        key: keyed.key,
        context: keyed.context,
        message: keyed.message,
        signature,
        evidence,
    })
}

/// The job of a line whose first field names a set, or the first thing that is wrong with it.
pub(crate) fn read_job(alloc: Global, fields: &[&[u8]]) -> Result<Job, LineError>
    ensures { (result ≡ job_at (contents fields.now)) ⊎ (result ≡ Err Memory) }
{
    let Some(command) = Command::from_name(field_at(fields, 1)) else {
        return Err(LineError::Command);
    };
    match command {
        Command::Keygen if fields.len() == 5 => read_keygen(alloc, fields),
        Command::Sign(mode) if fields.len() == 6 => read_sign(alloc, mode, fields),
        Command::Verify(mode) if fields.len() == 6 => read_verify(alloc, mode, fields),
        Command::Audit(mode) if fields.len() == 6 => read_audit(alloc, mode, fields),
        Command::Check(mode) => read_check(alloc, mode, fields),
        _ => Err(LineError::Fields),
    }
}
