//! Verifying what an input gives.
ghost use Rattle.std.specs.Prelude.{◌≡◌, IsTrue};
ghost use Rattle.slh_bytes.specs.Jobs.{accepted_by};
ghost use Rattle.slh_bytes.specs.Answers.{IsAnswer};
ghost use Rattle.slh_jobs.specs.Judgement.{judgement};
ghost use Rattle.slh_jobs.specs.declared.job.Job.TheVariants.{Verify};
ghost use Rattle.slh_sets.specs.Sets.{scheme_for};

use crate::absorbing::absorb_all;
use crate::input::Input;
use crate::key::Key;
use crate::read_error::ReadError;
use slh_dsa::{Mode, VerifyingKey};
use slh_sets::{OnSet, SetSuite};
use slh_stream::MessageVerifier;

/// A signature of what an input gives, and the key that it is said to be by.
#[derive(Drop)]
pub(crate) struct Claim<'a, R> {
    pub(crate) mode: Mode,
    pub(crate) key: &'a [u8],
    pub(crate) context: &'a [u8],
    pub(crate) signature: &'a [u8],
    pub(crate) reader: R,
}

impl<'a, R: Input + Drop> OnSet for Claim<'a, R> {
    type Out = Result<bool, ReadError>;

    ghost gives = { λ c Z _ result. IsAnswer (IsTrue R.may_fail) (R.remaining c.reader) (λ m. accepted_by
        (judgement Z (Verify c.mode c.key.now c.context.now m c.signature.now))) result };

    fn on<P: SetSuite>(self) -> Result<bool, ReadError> {
        let key = VerifyingKey::<P>::try_from(self.key)?;
        let mut verifier = MessageVerifier::<P>::new(
            &key,
            self.mode,
            self.context,
            self.signature,
        )?;
        absorb_all(self.reader, &mut verifier)?;
        Ok(verifier.finish().is_ok())
    }
}

/// Whether a signature of what an input gives is accepted under a verifying key.
pub fn verify<R: Input + Drop>(
    key: &Key,
    mode: Mode,
    context: &[u8],
    signature: &[u8],
    reader: R,
) -> Result<bool, ReadError>
    ensures { IsAnswer (IsTrue R.may_fail) (R.remaining reader) (λ m. accepted_by (judgement (scheme_for key.now.set)
        (Verify mode key.now.bytes context.now m signature.now))) result }
{
    key.set.run(Claim {
        mode,
        key: key.bytes.as_slice(),
        context,
        signature,
        reader,
    })
}
