//! Answers lines as their bytes come in.
ghost use Rattle.std.specs.Prelude.{◌≡◌, ◌==◌, ◌^◌, ◌≤◌, ◌++◌, ◌∷◌, [], Option, List, ℕ, length};
ghost use Rattle.std.specs.Prelude.{OnOk, OnErr};
ghost use Rattle.line_serve.specs.Engine.{StandsFor, Takes, GoesOn, Stops, Answered, HaltsFor};
ghost use Rattle.line_serve.specs.Lines.{HasNoLineFeed, line_feed, reply_to, replies_to, lines};

use crate::bytes::ByteString;
use crate::pending::Pending;
use crate::place::first_place;
use crate::stream::Sink;
use crate::write::{Halt, flush, flush_long, put};
use std::alloc::{AllocError, Global};

// The reply to a line that is too long.
const TOO_LONG: &[u8] = b"error line\n";

/// Answers single lines.
pub trait Replier {
    /// The reply to each line.
    ghost reply_of: { Self → List ℕ → List ℕ };

    /// Puts the reply to a line at the end of `out`. The line has at most 2^22 bytes; the line feed
    /// that ended it is no part of it, and a carriage return before that is.
    fn reply(&self, alloc: Global, line: &[u8], out: &mut ByteString) -> Result<(), AllocError>
        requires { length line.now ≤ 2 ^ 22 }
        ensures ok { OnOk result (out.new ≡ out.old ++ reply_of self.now line.now) }
        ensures err { OnErr result (out.new ≡ out.old) };
}

// Puts the reply to the pending line at the end of those that wait.
fn answer<R: Replier>(
    alloc: Global,
    replier: &R,
    pending: &Pending,
    waiting: &mut ByteString,
) -> Result<(), AllocError>
    ensures ok { (line : List ℕ) → StandsFor pending.now line
        → OnOk result (waiting.new ≡ waiting.old ++ reply_to (R.reply_of replier.now) line) }
    ensures err { OnErr result (waiting.new ≡ waiting.old) }
{
    if pending.overlong {
        return waiting.push_slice(TOO_LONG);
    }
    replier.reply(alloc, pending.line.as_slice(), waiting)
}

// Ends the pending line by these bytes and a line feed, and answers it.
fn end_line<R: Replier>(
    alloc: Global,
    replier: &R,
    pending: &mut Pending,
    bytes: &[u8],
    waiting: &mut ByteString,
) -> Result<(), AllocError>
    requires { HasNoLineFeed bytes.now }
    ensures ok { (taken : Option (List ℕ)) → OnOk result (GoesOn (R.reply_of replier.now)
        taken waiting.old pending.old taken waiting.new pending.new (bytes.now ++ line_feed ∷ [])) }
    ensures err { OnErr result (waiting.new ≡ waiting.old) }
{
    pending.extend(bytes)?;
    answer(alloc, replier, pending, waiting)?;
    pending.clear();
    Ok(())
}

// Takes a piece of the input, and answers each line that it ends. Some replies may wait afterwards.
fn collect<R: Replier, K: Sink>(
    alloc: Global,
    replier: &R,
    pending: &mut Pending,
    piece: &[u8],
    waiting: &mut ByteString,
    sink: &mut K,
) -> Result<(), Halt>
    ensures ok { OnOk result (GoesOn (R.reply_of replier.now) (K.taken sink.old) waiting.old
        pending.old (K.taken sink.new) waiting.new pending.new piece.now) }
    ensures stops { Stops (R.reply_of replier.now) (K.taken sink.old) waiting.old pending.old
        (K.taken sink.new) waiting.new piece.now }
    ensures cause { HaltsFor (K.faults sink.old) (K.faults sink.new) result }
{
    let mut done = 0;
    while let Some(at) = first_place(b'\n', &piece[done..]) {
        end_line(alloc, replier, pending, &piece[done..done + at], waiting)?;
        flush_long(waiting, sink)?;
        done += at + 1;
    }
    pending.extend(&piece[done..])?;
    Ok(())
}

/// Takes a piece of the input, answers each line that it ends, and writes the replies. Where there
/// is no memory for a reply, those before it are written all the same.
pub fn feed<R: Replier, K: Sink>(
    alloc: Global,
    replier: &R,
    pending: &mut Pending,
    piece: &[u8],
    sink: &mut K,
) -> Result<(), Halt>
    ensures ok { OnOk result (GoesOn (R.reply_of replier.now) (K.taken sink.old) [] pending.old
        (K.taken sink.new) [] pending.new piece.now) }
    ensures err { OnErr result (Stops (R.reply_of replier.now) (K.taken sink.old) [] pending.old
        (K.taken sink.new) [] piece.now) }
    ensures cause { HaltsFor (K.faults sink.old) (K.faults sink.new) result }
{
    let mut waiting = ByteString::new(alloc);
    let collected = collect(alloc, replier, pending, piece, &mut waiting, sink);
    flush(&mut waiting, sink)?;
    collected
}

/// Answers what stands after the last line feed, where there is anything.
pub fn finish<R: Replier, K: Sink>(
    alloc: Global,
    replier: &R,
    pending: &Pending,
    sink: &mut K,
) -> Result<(), Halt>
    ensures bytes { (p : List ℕ) (start : Option (List ℕ))
        → Answered (R.reply_of replier.now) p start (K.taken sink.old) [] pending.now
        → Takes start (K.taken sink.new) result (replies_to (R.reply_of replier.now) (lines p)) }
    ensures cause { HaltsFor (K.faults sink.old) (K.faults sink.new) result }
{
    if pending.is_empty() {
        return Ok(());
    }
    let mut reply = ByteString::new(alloc);
    answer(alloc, replier, pending, &mut reply)?;
    put(sink, reply.as_slice())
}
