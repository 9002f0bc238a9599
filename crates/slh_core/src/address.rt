//! Hash addresses: where in the hypertree and its forests a hash stands.
ghost use Rattle.std.specs.Prelude.{◌≡◌, ℕ, List};
ghost use Rattle.slh_core.specs.Address.{address_bytes, compressed_address};
ghost use Rattle.slh_core.specs.Address.{wots_hash_type, wots_pk_type, tree_type, fors_tree_type};
ghost use Rattle.slh_core.specs.Address.{fors_roots_type, wots_prf_type, fors_prf_type};

/// Something that stands for 32 address bytes (FIPS 205, section 4.2).
pub trait Address {
    /// The number of the address's type.
    const TYPE_CONST: u32;

    ghost TYPE_CONST: { ℕ };

    ghost bytes: { Self → List ℕ };

    /// All 32 bytes.
    fn to_bytes(&self) -> [u8; 32]
        ensures { result ≡ bytes self.now };

    /// The 22 bytes that the SHA-2 suites hash (FIPS 205, section 11.2).
    #[inline]
    fn compressed(&self) -> [u8; 22]
        ensures { result ≡ compressed_address (bytes self.now) }
    {
        let all = self.to_bytes();
        let mut out = [0u8; 22];
        out[0] = all[3];
        out[1..9].copy_from_slice(&all[8..16]);
        out[9] = all[19];
        out[10..22].copy_from_slice(&all[20..32]);
        out
    }
}

/// The layer, the tree, the type and three words, as bytes.
#[inline]
#[tactic(auto, unfolding(crate::specs::Address::address_bytes))]
fn bytes_of(layer: u32, tree: u64, kind: u32, w1: u32, w2: u32, w3: u32) -> [u8; 32]
    ensures { result ≡ address_bytes layer tree kind w1 w2 w3 }
{
    let mut out = [0u8; 32];
    out[0..4].copy_from_slice(&layer.to_be_bytes());
    out[8..16].copy_from_slice(&tree.to_be_bytes());
    out[16..20].copy_from_slice(&kind.to_be_bytes());
    out[20..24].copy_from_slice(&w1.to_be_bytes());
    out[24..28].copy_from_slice(&w2.to_be_bytes());
    out[28..32].copy_from_slice(&w3.to_be_bytes());
    out
}

/// A step of a chain.
#[derive(Clone, Drop)]
pub struct WotsHash {
    pub layer_adrs: u32,
    pub tree_adrs_low: u64,
    pub key_pair_adrs: u32,
    pub chain_adrs: u32,
    pub hash_adrs: u32,
}

impl Address for WotsHash {
    const TYPE_CONST: u32 = 0;

    ghost TYPE_CONST = { wots_hash_type };

    ghost bytes = { λ a. address_bytes a.layer_adrs a.tree_adrs_low wots_hash_type
        a.key_pair_adrs a.chain_adrs a.hash_adrs };

    #[inline]
    fn to_bytes(&self) -> [u8; 32] {
        bytes_of(
            self.layer_adrs,
            self.tree_adrs_low,
            Self::TYPE_CONST,
            self.key_pair_adrs,
            self.chain_adrs,
            self.hash_adrs,
        )
    }
}

impl Default for WotsHash {
    ghost use Rattle.std.specs.Prelude.{◌≡◌};

    ghost is_default = { λ a. a ≡ record {
      layer_adrs = 0;
      tree_adrs_low = 0;
      key_pair_adrs = 0;
      chain_adrs = 0;
      hash_adrs = 0;
    } };

    #[inline]
    fn default() -> WotsHash {
        WotsHash {
            layer_adrs: 0,
            tree_adrs_low: 0,
            key_pair_adrs: 0,
            chain_adrs: 0,
            hash_adrs: 0,
        }
    }
}

impl WotsHash {
    /// The address of a step of a chain of the same key pair.
    #[inline]
    pub(crate) fn at_step(&self, chain: u32, step: u32) -> WotsHash
        ensures { result ≡ record self.now { chain_adrs = chain; hash_adrs = step } }
    {
        WotsHash {
            layer_adrs: self.layer_adrs,
            tree_adrs_low: self.tree_adrs_low,
            key_pair_adrs: self.key_pair_adrs,
            chain_adrs: chain,
            hash_adrs: step,
        }
    }

    /// The address of step 0 of chain 0 of a key pair of the same tree.
    #[inline]
    pub fn at_key_pair(&self, key_pair: u32) -> WotsHash
        ensures { let a = self.now in
            result ≡ record a { key_pair_adrs = key_pair; chain_adrs = 0; hash_adrs = 0 } }
    {
        WotsHash {
            layer_adrs: self.layer_adrs,
            tree_adrs_low: self.tree_adrs_low,
            key_pair_adrs: key_pair,
            ..WotsHash::default()
        }
    }

    /// The address of the secret of chain 0 of this key pair.
    pub fn prf_adrs(&self) -> WotsPrf
        ensures { let a = self.now in
            result ≡ record {
              layer_adrs = a.layer_adrs;
              tree_adrs_low = a.tree_adrs_low;
              key_pair_adrs = a.key_pair_adrs;
              chain_adrs = 0;
            } }
    {
        WotsPrf {
            layer_adrs: self.layer_adrs,
            tree_adrs_low: self.tree_adrs_low,
            key_pair_adrs: self.key_pair_adrs,
            chain_adrs: 0,
        }
    }

    /// The address of this key pair's public key.
    pub fn pk_adrs(&self) -> WotsPk
        ensures { let a = self.now in
            result ≡ record {
              layer_adrs = a.layer_adrs;
              tree_adrs_low = a.tree_adrs_low;
              key_pair_adrs = a.key_pair_adrs;
            } }
    {
        WotsPk {
            layer_adrs: self.layer_adrs,
            tree_adrs_low: self.tree_adrs_low,
            key_pair_adrs: self.key_pair_adrs,
        }
    }

    /// The address of this tree's node at height 0 and index 0.
    pub fn tree_adrs(&self) -> HashTree
        ensures { let a = self.now in
            result ≡ record {
              layer_adrs = a.layer_adrs;
              tree_adrs_low = a.tree_adrs_low;
              tree_height = 0;
              tree_index = 0;
            } }
    {
        HashTree {
            layer_adrs: self.layer_adrs,
            tree_adrs_low: self.tree_adrs_low,
            tree_height: 0,
            tree_index: 0,
        }
    }
}

/// The public key of a key pair.
#[derive(Clone, Drop)]
pub struct WotsPk {
    pub layer_adrs: u32,
    pub tree_adrs_low: u64,
    pub key_pair_adrs: u32,
}

impl Address for WotsPk {
    const TYPE_CONST: u32 = 1;

    ghost TYPE_CONST = { wots_pk_type };

    ghost bytes = { λ a. address_bytes a.layer_adrs a.tree_adrs_low wots_pk_type
        a.key_pair_adrs 0 0 };

    #[inline]
    fn to_bytes(&self) -> [u8; 32] {
        bytes_of(
            self.layer_adrs,
            self.tree_adrs_low,
            Self::TYPE_CONST,
            self.key_pair_adrs,
            0,
            0,
        )
    }
}

/// A node of a tree.
#[derive(Clone, Drop)]
pub struct HashTree {
    pub layer_adrs: u32,
    pub tree_adrs_low: u64,
    pub tree_height: u32,
    pub tree_index: u32,
}

impl Address for HashTree {
    const TYPE_CONST: u32 = 2;

    ghost TYPE_CONST = { tree_type };

    ghost bytes = { λ a. address_bytes a.layer_adrs a.tree_adrs_low tree_type
        0 a.tree_height a.tree_index };

    #[inline]
    fn to_bytes(&self) -> [u8; 32] {
        bytes_of(
            self.layer_adrs,
            self.tree_adrs_low,
            Self::TYPE_CONST,
            0,
            self.tree_height,
            self.tree_index,
        )
    }
}

/// A node of a tree of a forest. Its index runs through all trees of the forest.
#[derive(Clone, Drop)]
pub struct ForsTree {
    pub tree_adrs_low: u64,
    pub key_pair_adrs: u32,
    pub tree_height: u32,
    pub tree_index: u32,
}

impl Address for ForsTree {
    const TYPE_CONST: u32 = 3;

    ghost TYPE_CONST = { fors_tree_type };

    ghost bytes = { λ a. address_bytes 0 a.tree_adrs_low fors_tree_type
        a.key_pair_adrs a.tree_height a.tree_index };

    #[inline]
    fn to_bytes(&self) -> [u8; 32] {
        bytes_of(
            0,
            self.tree_adrs_low,
            Self::TYPE_CONST,
            self.key_pair_adrs,
            self.tree_height,
            self.tree_index,
        )
    }
}

impl ForsTree {
    /// The address of the node at height 0 and index 0 of the forest below a leaf of a tree.
    pub fn new(tree_adrs_low: u64, key_pair_adrs: u32) -> ForsTree
        ensures { result ≡ record {
          tree_adrs_low = tree_adrs_low;
          key_pair_adrs = key_pair_adrs;
          tree_height = 0;
          tree_index = 0;
        } }
    {
        ForsTree {
            tree_adrs_low,
            key_pair_adrs,
            tree_height: 0,
            tree_index: 0,
        }
    }

    /// The address of the secret with the same index.
    pub fn prf_adrs(&self) -> ForsPrf
        ensures { let a = self.now in
            result ≡ record {
              tree_adrs_low = a.tree_adrs_low;
              key_pair_adrs = a.key_pair_adrs;
              tree_index = a.tree_index;
            } }
    {
        ForsPrf {
            tree_adrs_low: self.tree_adrs_low,
            key_pair_adrs: self.key_pair_adrs,
            tree_index: self.tree_index,
        }
    }

    /// The address of the hash of all roots of the same forest.
    pub fn fors_roots(&self) -> ForsRoots
        ensures { let a = self.now in
            result ≡ record {
              tree_adrs_low = a.tree_adrs_low;
              key_pair_adrs = a.key_pair_adrs;
            } }
    {
        ForsRoots {
            tree_adrs_low: self.tree_adrs_low,
            key_pair_adrs: self.key_pair_adrs,
        }
    }
}

/// The hash of all roots of a forest.
#[derive(Clone, Drop)]
pub struct ForsRoots {
    pub tree_adrs_low: u64,
    pub key_pair_adrs: u32,
}

impl Address for ForsRoots {
    const TYPE_CONST: u32 = 4;

    ghost TYPE_CONST = { fors_roots_type };

    ghost bytes = { λ a. address_bytes 0 a.tree_adrs_low fors_roots_type
        a.key_pair_adrs 0 0 };

    #[inline]
    fn to_bytes(&self) -> [u8; 32] {
        bytes_of(
            0,
            self.tree_adrs_low,
            Self::TYPE_CONST,
            self.key_pair_adrs,
            0,
            0,
        )
    }
}

/// The secret at the start of a chain.
#[derive(Clone, Drop)]
pub struct WotsPrf {
    pub layer_adrs: u32,
    pub tree_adrs_low: u64,
    pub key_pair_adrs: u32,
    pub chain_adrs: u32,
}

impl Address for WotsPrf {
    const TYPE_CONST: u32 = 5;

    ghost TYPE_CONST = { wots_prf_type };

    ghost bytes = { λ a. address_bytes a.layer_adrs a.tree_adrs_low wots_prf_type
        a.key_pair_adrs a.chain_adrs 0 };

    #[inline]
    fn to_bytes(&self) -> [u8; 32] {
        bytes_of(
            self.layer_adrs,
            self.tree_adrs_low,
            Self::TYPE_CONST,
            self.key_pair_adrs,
            self.chain_adrs,
            0,
        )
    }
}

/// A secret of a forest.
#[derive(Clone, Drop)]
pub struct ForsPrf {
    pub tree_adrs_low: u64,
    pub key_pair_adrs: u32,
    pub tree_index: u32,
}

impl Address for ForsPrf {
    const TYPE_CONST: u32 = 6;

    ghost TYPE_CONST = { fors_prf_type };

    ghost bytes = { λ a. address_bytes 0 a.tree_adrs_low fors_prf_type
        a.key_pair_adrs 0 a.tree_index };

    #[inline]
    fn to_bytes(&self) -> [u8; 32] {
        bytes_of(
            0,
            self.tree_adrs_low,
            Self::TYPE_CONST,
            self.key_pair_adrs,
            0,
            self.tree_index,
        )
    }
}

/// An address in a row of addresses that differ in one number alone: the chains of a key pair, or
/// the nodes of a tree at one height.
pub trait RowAddress: Address {
    /// The bytes of the address with a number of its row.
    ghost numbered: { Self → ℕ → List ℕ };

    /// The address with a number of its row.
    fn at_number(&self, number: u32) -> Self
        ensures { Self.bytes result ≡ numbered self.now number };
}

impl RowAddress for WotsHash {
    ghost numbered = { λ a k. address_bytes a.layer_adrs a.tree_adrs_low wots_hash_type
        a.key_pair_adrs k a.hash_adrs };

    #[inline]
    fn at_number(&self, number: u32) -> WotsHash {
        self.at_step(number, self.hash_adrs)
    }
}

impl RowAddress for HashTree {
    ghost numbered = { λ a k. address_bytes a.layer_adrs a.tree_adrs_low tree_type
        0 a.tree_height k };

    #[inline]
    fn at_number(&self, number: u32) -> HashTree {
        HashTree {
            layer_adrs: self.layer_adrs,
            tree_adrs_low: self.tree_adrs_low,
            tree_height: self.tree_height,
            tree_index: number,
        }
    }
}

impl RowAddress for ForsTree {
    ghost numbered = { λ a k. address_bytes 0 a.tree_adrs_low fors_tree_type
        a.key_pair_adrs a.tree_height k };

    #[inline]
    fn at_number(&self, number: u32) -> ForsTree {
        ForsTree {
            tree_adrs_low: self.tree_adrs_low,
            key_pair_adrs: self.key_pair_adrs,
            tree_height: self.tree_height,
            tree_index: number,
        }
    }
}

impl RowAddress for WotsPrf {
    ghost numbered = { λ a k. address_bytes a.layer_adrs a.tree_adrs_low wots_prf_type
        a.key_pair_adrs k 0 };

    #[inline]
    fn at_number(&self, number: u32) -> WotsPrf {
        WotsPrf {
            layer_adrs: self.layer_adrs,
            tree_adrs_low: self.tree_adrs_low,
            key_pair_adrs: self.key_pair_adrs,
            chain_adrs: number,
        }
    }
}

impl RowAddress for ForsPrf {
    ghost numbered = { λ a k. address_bytes 0 a.tree_adrs_low fors_prf_type
        a.key_pair_adrs 0 k };

    #[inline]
    fn at_number(&self, number: u32) -> ForsPrf {
        ForsPrf {
            tree_adrs_low: self.tree_adrs_low,
            key_pair_adrs: self.key_pair_adrs,
            tree_index: number,
        }
    }
}
