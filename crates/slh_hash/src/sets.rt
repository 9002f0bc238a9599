//! The parameter sets over SHA-2 (FIPS 205, section 11, table 2).
ghost use Rattle.slh_hash.specs.Sets.{sha2_128s, sha2_128f, sha2_192s, sha2_192f};
ghost use Rattle.slh_hash.specs.Sets.{sha2_256s, sha2_256f};

use crate::sha2_l1::Sha2L1;
use crate::sha2_l35::Sha2L35;
use slh_core::array::sizes::{
    U3, U4, U6, U7, U8, U9, U12, U14, U16, U17, U21, U22, U24, U25, U30, U32, U33, U34, U35, U39,
    U40, U42, U47, U48, U49, U51, U63, U64, U66, U67, U68,
};
use slh_core::params::{ForsParams, HypertreeParams, WotsParams, XmssParams};

/// SLH-DSA-SHA2-128s: small signatures.
pub type Sha2_128s = Sha2L1<U16, U30>;

/// SLH-DSA-SHA2-128f: fast signing.
pub type Sha2_128f = Sha2L1<U16, U34>;

/// SLH-DSA-SHA2-192s: small signatures.
pub type Sha2_192s = Sha2L35<U24, U39>;

/// SLH-DSA-SHA2-192f: fast signing.
pub type Sha2_192f = Sha2L35<U24, U42>;

/// SLH-DSA-SHA2-256s: small signatures.
pub type Sha2_256s = Sha2L35<U32, U47>;

/// SLH-DSA-SHA2-256f: fast signing.
pub type Sha2_256f = Sha2L35<U32, U49>;

impl WotsParams for Sha2_128s {
    ghost use Rattle.std.proofs.Common.{rules};

    type WotsMsgLen = U32;

    type WotsSigLen = U35;

    ghost valid_wots = { Prim.search rules };
}

impl XmssParams for Sha2_128s {
    ghost use Rattle.std.proofs.Common.{lit≤};

    type HPrime = U9;

    ghost valid_xmss = { record { height_low = lit≤ tt; height_high = lit≤ tt } };
}

impl HypertreeParams for Sha2_128s {
    ghost use Rattle.std.proofs.Common.{rules};

    type D = U7;

    type H = U63;

    ghost valid_hypertree = { Prim.search rules };
}

impl ForsParams for Sha2_128s {
    ghost use Rattle.std.proofs.Common.{refl, rules};

    type K = U14;

    type A = U12;

    type MD = U21;

    ghost scheme = { sha2_128s.scheme };

    ghost scheme_is = { refl };

    ghost valid_fors = { Prim.search rules };
}

impl WotsParams for Sha2_128f {
    ghost use Rattle.std.proofs.Common.{rules};

    type WotsMsgLen = U32;

    type WotsSigLen = U35;

    ghost valid_wots = { Prim.search rules };
}

impl XmssParams for Sha2_128f {
    ghost use Rattle.std.proofs.Common.{lit≤};

    type HPrime = U3;

    ghost valid_xmss = { record { height_low = lit≤ tt; height_high = lit≤ tt } };
}

impl HypertreeParams for Sha2_128f {
    ghost use Rattle.std.proofs.Common.{rules};

    type D = U22;

    type H = U66;

    ghost valid_hypertree = { Prim.search rules };
}

impl ForsParams for Sha2_128f {
    ghost use Rattle.std.proofs.Common.{refl, rules};

    type K = U33;

    type A = U6;

    type MD = U25;

    ghost scheme = { sha2_128f.scheme };

    ghost scheme_is = { refl };

    ghost valid_fors = { Prim.search rules };
}

impl WotsParams for Sha2_192s {
    ghost use Rattle.std.proofs.Common.{rules};

    type WotsMsgLen = U48;

    type WotsSigLen = U51;

    ghost valid_wots = { Prim.search rules };
}

impl XmssParams for Sha2_192s {
    ghost use Rattle.std.proofs.Common.{lit≤};

    type HPrime = U9;

    ghost valid_xmss = { record { height_low = lit≤ tt; height_high = lit≤ tt } };
}

impl HypertreeParams for Sha2_192s {
    ghost use Rattle.std.proofs.Common.{rules};

    type D = U7;

    type H = U63;

    ghost valid_hypertree = { Prim.search rules };
}

impl ForsParams for Sha2_192s {
    ghost use Rattle.std.proofs.Common.{refl, rules};

    type K = U17;

    type A = U14;

    type MD = U30;

    ghost scheme = { sha2_192s.scheme };

    ghost scheme_is = { refl };

    ghost valid_fors = { Prim.search rules };
}

impl WotsParams for Sha2_192f {
    ghost use Rattle.std.proofs.Common.{rules};

    type WotsMsgLen = U48;

    type WotsSigLen = U51;

    ghost valid_wots = { Prim.search rules };
}

impl XmssParams for Sha2_192f {
    ghost use Rattle.std.proofs.Common.{lit≤};

    type HPrime = U3;

    ghost valid_xmss = { record { height_low = lit≤ tt; height_high = lit≤ tt } };
}

impl HypertreeParams for Sha2_192f {
    ghost use Rattle.std.proofs.Common.{rules};

    type D = U22;

    type H = U66;

    ghost valid_hypertree = { Prim.search rules };
}

impl ForsParams for Sha2_192f {
    ghost use Rattle.std.proofs.Common.{refl, rules};

    type K = U33;

    type A = U8;

    type MD = U33;

    ghost scheme = { sha2_192f.scheme };

    ghost scheme_is = { refl };

    ghost valid_fors = { Prim.search rules };
}

impl WotsParams for Sha2_256s {
    ghost use Rattle.std.proofs.Common.{rules};

    type WotsMsgLen = U64;

    type WotsSigLen = U67;

    ghost valid_wots = { Prim.search rules };
}

impl XmssParams for Sha2_256s {
    ghost use Rattle.std.proofs.Common.{lit≤};

    type HPrime = U8;

    ghost valid_xmss = { record { height_low = lit≤ tt; height_high = lit≤ tt } };
}

impl HypertreeParams for Sha2_256s {
    ghost use Rattle.std.proofs.Common.{rules};

    type D = U8;

    type H = U64;

    ghost valid_hypertree = { Prim.search rules };
}

impl ForsParams for Sha2_256s {
    ghost use Rattle.std.proofs.Common.{refl, rules};

    type K = U22;

    type A = U14;

    type MD = U39;

    ghost scheme = { sha2_256s.scheme };

    ghost scheme_is = { refl };

    ghost valid_fors = { Prim.search rules };
}

impl WotsParams for Sha2_256f {
    ghost use Rattle.std.proofs.Common.{rules};

    type WotsMsgLen = U64;

    type WotsSigLen = U67;

    ghost valid_wots = { Prim.search rules };
}

impl XmssParams for Sha2_256f {
    ghost use Rattle.std.proofs.Common.{lit≤};

    type HPrime = U4;

    ghost valid_xmss = { record { height_low = lit≤ tt; height_high = lit≤ tt } };
}

impl HypertreeParams for Sha2_256f {
    ghost use Rattle.std.proofs.Common.{rules};

    type D = U17;

    type H = U68;

    ghost valid_hypertree = { Prim.search rules };
}

impl ForsParams for Sha2_256f {
    ghost use Rattle.std.proofs.Common.{refl, rules};

    type K = U35;

    type A = U9;

    type MD = U40;

    ghost scheme = { sha2_256f.scheme };

    ghost scheme_is = { refl };

    ghost valid_fors = { Prim.search rules };
}
