//! The sizes of a parameter set (FIPS 205, section 11).
ghost use Rattle.std.specs.Prelude.{◌≡◌, ℕ, ◌+◌, ◌-◌, ◌*◌, ◌^◌, ◌≤◌, ◌<◌};
ghost use Rattle.slh_core.specs.Parameters.{IsValidWots, IsValidXmss};
ghost use Rattle.slh_core.specs.Parameters.{IsValidHypertree, IsValidFors};
ghost use Rattle.slh_core.specs.Parameters.{Scheme, scheme_of, bytes_for, chain_count};

use crate::suite::HashSuite;
use hybrid_array::ArraySize;

/// The most bytes that a value has: a seed, a hash, or a message that a key pair signs.
pub const MAX_N: usize = 32;

/// The most chains of a key pair: one for each digit of a message, and three for their checksum.
pub const MAX_CHAINS: usize = 2 * MAX_N + 3;

/// The most bytes of all ends of a key pair's chains. No hash of joined values takes more.
pub const MAX_ENDS_LEN: usize = MAX_CHAINS * MAX_N;

/// The most trees of a forest.
pub const MAX_FORS_TREES: usize = 64;

/// The most bytes of all roots of a forest.
pub const MAX_ROOTS_LEN: usize = MAX_FORS_TREES * MAX_N;

/// The most bytes that are opened in one tree of a forest: a secret, and the siblings on the way up
/// a tree of height 16.
pub const MAX_OPENED_LEN: usize = (1 + 16) * MAX_N;

/// The most bytes of a message's digest that a call takes.
pub const MAX_DIGEST_LEN: usize = 256;

/// The most bytes of the three slices of a message: a message of 2^60 bytes, its context, and what
/// frames them, for which 512 bytes are more than enough.
pub const MAX_MESSAGE_LEN: usize = (1 << 60) + 512;

/// The sizes of a WOTS+ key pair, as types.
pub trait WotsParams: HashSuite {
    /// How many digits a message has.
    type WotsMsgLen: ArraySize;

    /// How many chains a key pair has.
    type WotsSigLen: ArraySize;

    ghost valid_wots: { IsValidWots Self.N.USIZE Self.WotsMsgLen.USIZE Self.WotsSigLen.USIZE };
}

/// The size of an XMSS tree, as a type.
pub trait XmssParams: WotsParams {
    /// The height of a tree.
    type HPrime: ArraySize;

    ghost valid_xmss: { IsValidXmss Self.HPrime.USIZE };
}

/// The sizes of a hypertree, as types.
pub trait HypertreeParams: XmssParams {
    /// The number of layers.
    type D: ArraySize;

    /// The height of all layers together.
    type H: ArraySize;

    ghost valid_hypertree: { IsValidHypertree Self.HPrime.USIZE Self.D.USIZE Self.H.USIZE };
}

/// The sizes of a forest, and of the digest that names a leaf in each of its trees, as types.
pub trait ForsParams: HypertreeParams {
    /// The number of trees.
    type K: ArraySize;

    /// The height of a tree, in bits of a digit.
    type A: ArraySize;

    /// How many bytes of the digest hold the digits.
    type MD: ArraySize;

    /// The suite and all sizes.
    ghost scheme: { Scheme };

    ghost scheme_is: { scheme ≡ scheme_of Self.suite Self.N.USIZE
        Self.HPrime.USIZE Self.D.USIZE Self.A.USIZE Self.K.USIZE };

    ghost valid_fors: { IsValidFors Self.HPrime.USIZE Self.H.USIZE Self.K.USIZE
        Self.A.USIZE Self.MD.USIZE Self.M.USIZE };
}

/// The sizes of a WOTS+ key pair, as numbers. Who has [`WotsParams`] has these, too, and so on for
/// the three traits below. What is generic over numbers alone is proved in less time than over
/// types, so the calls ask for no more.
pub trait WotsSizes: HashSuite {
    /// How many digits a message has.
    const WOTS_MSG_LEN: usize;

    ghost WOTS_MSG_LEN: { ℕ };

    /// How many chains a key pair has.
    const WOTS_SIG_LEN: usize;

    ghost WOTS_SIG_LEN: { ℕ };

    ghost valid_wots: { IsValidWots Self.N.USIZE WOTS_MSG_LEN WOTS_SIG_LEN };
}

/// The size of an XMSS tree, as a number.
pub trait XmssSizes: WotsSizes {
    /// The height of a tree.
    const H_PRIME: usize;

    ghost H_PRIME: { ℕ };

    // a law, and no value, since it names what a trait above has
    ghost valid_xmss: { let n = Self.N.USIZE in IsValidXmss H_PRIME };
}

/// The sizes of a hypertree, as numbers.
pub trait HypertreeSizes: XmssSizes {
    /// The number of layers.
    const D: usize;

    ghost D: { ℕ };

    /// The height of all layers together.
    const H: usize;

    ghost H: { ℕ };

    ghost valid_hypertree: { IsValidHypertree Self.H_PRIME D H };
}

/// The sizes of a forest, and of the digest that names a leaf in each of its trees, as numbers.
pub trait ForsSizes: HypertreeSizes {
    /// The number of trees.
    const K: usize;

    ghost K: { ℕ };

    /// The height of a tree, in bits of a digit.
    const A: usize;

    ghost A: { ℕ };

    /// How many bytes of the digest hold the digits.
    const MD: usize;

    ghost MD: { ℕ };

    /// The suite and all sizes.
    ghost scheme: { Scheme };

    ghost scheme_is: { scheme ≡ scheme_of Self.suite Self.N.USIZE
        Self.H_PRIME Self.D A K };

    ghost valid_fors: { IsValidFors Self.H_PRIME Self.H K
        A MD Self.M.USIZE };
}

impl<P: WotsParams> WotsSizes for P {
    const WOTS_MSG_LEN: usize = P::WotsMsgLen::USIZE;

    ghost WOTS_MSG_LEN = { P.WotsMsgLen.USIZE };

    const WOTS_SIG_LEN: usize = P::WotsSigLen::USIZE;

    ghost WOTS_SIG_LEN = { P.WotsSigLen.USIZE };

    ghost valid_wots = { P.valid_wots };
}

impl<P: XmssParams> XmssSizes for P {
    const H_PRIME: usize = P::HPrime::USIZE;

    ghost H_PRIME = { P.HPrime.USIZE };

    ghost valid_xmss = { P.valid_xmss };
}

impl<P: HypertreeParams> HypertreeSizes for P {
    const D: usize = P::D::USIZE;

    ghost D = { P.D.USIZE };

    const H: usize = P::H::USIZE;

    ghost H = { P.H.USIZE };

    ghost valid_hypertree = { P.valid_hypertree };
}

impl<P: ForsParams> ForsSizes for P {
    const K: usize = P::K::USIZE;

    ghost K = { P.K.USIZE };

    const A: usize = P::A::USIZE;

    ghost A = { P.A.USIZE };

    const MD: usize = P::MD::USIZE;

    ghost MD = { P.MD.USIZE };

    ghost scheme = { P.scheme };

    ghost scheme_is = { P.scheme_is };

    ghost valid_fors = { P.valid_fors };
}

/// What the law says of the sizes of key pairs.
pub fn chain_sizes<P: WotsSizes>()
    ensures n_low { 1 ≤ P.N.USIZE }
    ensures n_high { P.N.USIZE ≤ MAX_N }
    ensures message_len { P.WOTS_MSG_LEN ≡ 2 * P.N.USIZE }
    ensures signature_len { P.WOTS_SIG_LEN ≡ chain_count P.N.USIZE }
{}

/// What the law says of the sizes of trees.
pub fn tree_sizes<P: XmssSizes>()
    ensures n_low { 1 ≤ P.N.USIZE }
    ensures n_high { P.N.USIZE ≤ MAX_N }
    ensures message_len { P.WOTS_MSG_LEN ≡ 2 * P.N.USIZE }
    ensures signature_len { P.WOTS_SIG_LEN ≡ chain_count P.N.USIZE }
    ensures height_low { 1 ≤ P.H_PRIME }
    ensures height_high { P.H_PRIME ≤ 31 }
{}

/// What the law says of the sizes of layers.
pub fn layer_sizes<P: HypertreeSizes>()
    ensures n_low { 1 ≤ P.N.USIZE }
    ensures n_high { P.N.USIZE ≤ MAX_N }
    ensures signature_len { P.WOTS_SIG_LEN ≡ chain_count P.N.USIZE }
    ensures height_low { 1 ≤ P.H_PRIME }
    ensures height_high { P.H_PRIME ≤ 31 }
    ensures layers { 1 ≤ P.D }
    ensures few_layers { P.D ≤ 65 }
    ensures height { P.H ≡ P.D * P.H_PRIME }
    ensures tree_bits { P.H - P.H_PRIME ≤ 64 }
{}

/// What the law says of the sizes of a forest and of a digest.
pub fn forest_sizes<P: ForsSizes>()
    ensures n_low { 1 ≤ P.N.USIZE }
    ensures n_high { P.N.USIZE ≤ MAX_N }
    ensures bits_low { 1 ≤ P.A }
    ensures bits_high { P.A ≤ 16 }
    ensures trees_low { 1 ≤ P.K }
    ensures trees_high { P.K ≤ 64 }
    ensures leaves { P.K * 2 ^ P.A < 2 ^ 32 }
    ensures forest_len { P.MD ≡ bytes_for (P.K * P.A) }
    ensures digest_len { let tree_bits = P.H - P.H_PRIME in
        P.M.USIZE ≡ P.MD + bytes_for tree_bits + bytes_for P.H_PRIME }
    ensures digest_small { P.M.USIZE ≤ 140 }
    ensures scheme { let hp = P.H_PRIME in
        P.scheme ≡ scheme_of P.suite P.N.USIZE hp P.D P.A P.K }
{}
