//! Where bytes come from, and where they go. Each end counts its faults, so that a caller can tell
//! a fault of its own end from others.
ghost use Rattle.std.specs.Prelude.{Option, List, ℕ, ◌<◌, ◌≤◌, length, IfOk};
ghost use Rattle.std.specs.Io.{ReadsAtMost};
ghost use Rattle.std.specs.Io.KnownBytes.{ReadConsumes, WriteAppends};
ghost use Rattle.line_serve.specs.Causes.{HasCause};

/// A read or a write that came to nothing.
#[derive(Clone, Copy, Debug, PartialEq, Eq)]
pub struct Failed;

/// Where bytes come from.
pub trait Source {
    /// The bytes that are left, where the source tells them.
    ghost left: { Self → Option (List ℕ) };

    /// How many reads failed, up to 2^64 - 1.
    ghost faults: { Self → ℕ };

    /// Puts the next bytes at the front of `buf`, and says how many. None at all is the end of the
    /// bytes, if `buf` has room for one. After [`Failed`] the same bytes are left.
    fn read(&mut self, buf: &mut [u8]) -> Result<usize, Failed>
        ensures bound { ReadsAtMost result buf.new }
        ensures bytes { ReadConsumes (left self.old) (left self.new) result buf.new }
        ensures cause { HasCause (faults self.old) (faults self.new) result };
}

/// Where bytes go.
pub trait Sink {
    /// The bytes that were taken, where the sink tells them.
    ghost taken: { Self → Option (List ℕ) };

    /// How many writes failed, up to 2^64 - 1.
    ghost faults: { Self → ℕ };

    /// Takes the first bytes of `piece`, at least one if there is one, and says how many.
    /// [`Failed`] takes none.
    fn write(&mut self, piece: &[u8]) -> Result<usize, Failed>
        ensures bound { IfOk result (λ n. n ≤ length piece.now) }
        ensures progress { IfOk result (λ n. 0 < length piece.now → 0 < n) }
        ensures bytes { WriteAppends (taken self.old) (taken self.new) result piece.now }
        ensures cause { HasCause (faults self.old) (faults self.new) result };
}
