//! What tells frames and modes apart, as the contract of a function that does nothing.
ghost use Rattle.std.specs.Prelude.{◌≡◌, ℕ, List};
ghost use Rattle.sha256_lanes.specs.Sha256.{sha256};
ghost use Rattle.sha2.specs.Sha512.{sha512};
ghost use Rattle.slh_frames.specs.Frames.{mode_frame};
ghost use Rattle.slh_frames.specs.declared.frame.Mode.{Mode as SigningMode};
ghost use Rattle.slh_frames.specs.declared.frame.Mode.TheVariants.{Pure, Sha256, Sha512};

/// What is signed in one mode is never what is signed in another; and what is signed in one mode
/// tells the context, and the message or its digest.
pub fn frames_differ()
    ensures modes { (a b : SigningMode) (context other message another : List ℕ)
        → mode_frame a context message ≡ mode_frame b other another → a ≡ b }
    ensures contexts { (mode : SigningMode) (context other message another : List ℕ)
        → mode_frame mode context message ≡ mode_frame mode other another → context ≡ other }
    ensures pure { (context other message another : List ℕ)
        → mode_frame Pure context message ≡ mode_frame Pure other another → message ≡ another }
    ensures by_sha256 { (context other message another : List ℕ)
        → mode_frame Sha256 context message ≡ mode_frame Sha256 other another
        → sha256 message ≡ sha256 another }
    ensures by_sha512 { (context other message another : List ℕ)
        → mode_frame Sha512 context message ≡ mode_frame Sha512 other another
        → sha512 message ≡ sha512 another }
{}
