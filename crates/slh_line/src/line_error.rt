//! What is wrong with a line.
ghost use Rattle.std.specs.Prelude.{◌≡◌};
ghost use Rattle.slh_line.specs.LineErrors.{error_text};
ghost use Rattle.slh_line.specs.declared.line_error.LineError.TheVariants.{Memory};

use std::alloc::AllocError;

/// Why a line has no answer, in the order in which the causes are looked for; `Memory` ends a run.
#[derive(Clone, Copy, Debug, PartialEq, Eq)]
pub enum LineError {
    Set,
    Command,
    Fields,
    Hex,
    Length,
    Randomizer,
    Memory,
}

impl From<AllocError> for LineError {
    ghost from_gives = { λ _ e. e ≡ Memory };

    fn from(_: AllocError) -> Self {
        LineError::Memory
    }
}

impl LineError {
    /// The reply that names what is wrong.
    pub fn text(self) -> &'static [u8]
        ensures { result.now ≡ error_text self }
    {
        match self {
            LineError::Set => b"error set\n",
            LineError::Command => b"error command\n",
            LineError::Fields => b"error fields\n",
            LineError::Hex => b"error hex\n",
            LineError::Length => b"error length\n",
            LineError::Randomizer => b"error randomizer\n",
            LineError::Memory => b"",
        }
    }
}
