//! Replies to lines `SET command fields..`.
ghost use Rattle.std.specs.Prelude.{◌≡◌, ◌⊎◌, ◌++◌, OnOk, OnErr, Err};
ghost use Rattle.line_serve.specs.Fields.{contents};
ghost use Rattle.slh_line.specs.Replies.{answer_for, reply_by, reply_to_fields};
ghost use Rattle.slh_line.specs.Replies.{Answers};
ghost use Rattle.slh_line.specs.declared.line_error.LineError.TheVariants.{Memory};

use crate::line_error::LineError;
use line_serve::{ByteString, Replier, all_fields};
use slh_dsa::SetSizes;
use slh_sets::{OnSet, Set, SetSuite};
use std::alloc::{AllocError, Global};

/// The commands of a program.
pub trait Commands {
    /// The reply to the fields of a line, or what is wrong with them.
    ghost answers: { Answers };

    /// The reply to the fields of a line whose first field names this set.
    fn answer<P: SetSizes>(&self, alloc: Global, fields: &[&[u8]]) -> Result<ByteString, LineError>
        ensures { (result ≡ answers P.scheme P.set_name (contents fields.now))
            ⊎ (result ≡ Err Memory) };
}

// A line of which only the set is known.
#[derive(Drop)]
struct Line<'a, C> {
    commands: &'a C,
    alloc: Global,
    fields: &'a [&'a [u8]],
}

impl<'a, C: Commands> OnSet for Line<'a, C> {
    type Out = Result<ByteString, LineError>;

    ghost gives = { λ line Z name result.
        (result ≡ C.answers Z name (contents line.fields.now)) ⊎ (result ≡ Err Memory) };

    fn on<P: SetSuite>(self) -> Result<ByteString, LineError> {
        self.commands.answer::<P>(self.alloc, self.fields)
    }
}

/// Answers lines by these commands.
#[derive(Drop)]
pub struct Lines<C>(pub C);

fn push_reply<C: Commands>(
    alloc: Global,
    commands: &C,
    fields: &[&[u8]],
    out: &mut ByteString,
) -> Result<(), AllocError>
    ensures ok { OnOk result (out.new ≡ out.old ++ reply_to_fields C.answers (contents fields.now)) }
    ensures err { OnErr result (out.new ≡ out.old) }
{
    if fields.is_empty() {
        return Ok(());
    }
    let Some(set) = Set::from_name(fields[0]) else {
        return out.push_slice(LineError::Set.text());
    };
    match set.run(Line {
        commands,
        alloc,
        fields,
    }) {
        Ok(text) => out.append(text),
        Err(LineError::Memory) => Err(AllocError),
        Err(found) => out.push_slice(found.text()),
    }
}

impl<C: Commands> Replier for Lines<C> {
    ghost reply_of = { λ _. reply_by C.answers };

    fn reply(&self, alloc: Global, line: &[u8], out: &mut ByteString) -> Result<(), AllocError> {
        let fields = all_fields(alloc, line)?;
        push_reply(alloc, &self.0, &fields, out)
    }
}
