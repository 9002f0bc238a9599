//! The names of the parameter sets, and the lengths of their keys and signatures (FIPS 205, section
//! 11, table 2).
ghost use Rattle.std.specs.Prelude.{codes};
ghost use Rattle.slh_hash.specs.Sets.{sha2_128s, sha2_128f, sha2_192s, sha2_192f};
ghost use Rattle.slh_hash.specs.Sets.{sha2_256s, sha2_256f};

use crate::parameter_set::ParameterSet;
use slh_core::array::sizes::{
    U2, U4, U21, U32, U48, U64, U96, U128, U7856, U16224, U17088, U29792, U35664, U49856,
};
use slh_hash::{Sha2_128f, Sha2_128s, Sha2_192f, Sha2_192s, Sha2_256f, Sha2_256s};
use slh_trees::merkle::toy::Toy;

impl ParameterSet for Sha2_128s {
    ghost use Rattle.std.proofs.Common.{refl, rules};

    const NAME: &'static str = "SLH-DSA-SHA2-128s";

    type SkLen = U64;

    type VkLen = U32;

    type SigLen = U7856;

    ghost set_name = { sha2_128s.name };

    fn set_name() -> &'static str {
        Self::NAME
    }

    ghost name_len = { Prim.search rules };

    ghost sk_len = { refl };

    ghost vk_len = { refl };

    ghost sig_len = { refl };
}

impl ParameterSet for Sha2_128f {
    ghost use Rattle.std.proofs.Common.{refl, rules};

    const NAME: &'static str = "SLH-DSA-SHA2-128f";

    type SkLen = U64;

    type VkLen = U32;

    type SigLen = U17088;

    ghost set_name = { sha2_128f.name };

    fn set_name() -> &'static str {
        Self::NAME
    }

    ghost name_len = { Prim.search rules };

    ghost sk_len = { refl };

    ghost vk_len = { refl };

    ghost sig_len = { refl };
}

impl ParameterSet for Sha2_192s {
    ghost use Rattle.std.proofs.Common.{refl, rules};

    const NAME: &'static str = "SLH-DSA-SHA2-192s";

    type SkLen = U96;

    type VkLen = U48;

    type SigLen = U16224;

    ghost set_name = { sha2_192s.name };

    fn set_name() -> &'static str {
        Self::NAME
    }

    ghost name_len = { Prim.search rules };

    ghost sk_len = { refl };

    ghost vk_len = { refl };

    ghost sig_len = { refl };
}

impl ParameterSet for Sha2_192f {
    ghost use Rattle.std.proofs.Common.{refl, rules};

    const NAME: &'static str = "SLH-DSA-SHA2-192f";

    type SkLen = U96;

    type VkLen = U48;

    type SigLen = U35664;

    ghost set_name = { sha2_192f.name };

    fn set_name() -> &'static str {
        Self::NAME
    }

    ghost name_len = { Prim.search rules };

    ghost sk_len = { refl };

    ghost vk_len = { refl };

    ghost sig_len = { refl };
}

impl ParameterSet for Sha2_256s {
    ghost use Rattle.std.proofs.Common.{refl, rules};

    const NAME: &'static str = "SLH-DSA-SHA2-256s";

    type SkLen = U128;

    type VkLen = U64;

    type SigLen = U29792;

    ghost set_name = { sha2_256s.name };

    fn set_name() -> &'static str {
        Self::NAME
    }

    ghost name_len = { Prim.search rules };

    ghost sk_len = { refl };

    ghost vk_len = { refl };

    ghost sig_len = { refl };
}

impl ParameterSet for Sha2_256f {
    ghost use Rattle.std.proofs.Common.{refl, rules};

    const NAME: &'static str = "SLH-DSA-SHA2-256f";

    type SkLen = U128;

    type VkLen = U64;

    type SigLen = U49856;

    ghost set_name = { sha2_256f.name };

    fn set_name() -> &'static str {
        Self::NAME
    }

    ghost name_len = { Prim.search rules };

    ghost sk_len = { refl };

    ghost vk_len = { refl };

    ghost sig_len = { refl };
}

impl ParameterSet for Toy {
    ghost use Rattle.std.proofs.Common.{refl, rules};

    const NAME: &'static str = "TOY";

    type SkLen = U4;

    type VkLen = U2;

    type SigLen = U21;

    ghost set_name = { codes "TOY" };

    fn set_name() -> &'static str {
        Self::NAME
    }

    ghost name_len = { Prim.search rules };

    ghost sk_len = { refl };

    ghost vk_len = { refl };

    ghost sig_len = { refl };
}
