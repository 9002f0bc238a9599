//! What receipts, and clashes of receipts, say, as the contracts of functions that do nothing. The
//! laws of the tree are merkle_tree's.
ghost use Rattle.std.specs.Prelude.{◌≡◌, ◌≢◌, ◌↔◌, ◌⊎◌, ℕ, ◌+◌, ◌*◌, ◌^◌, ◌<◌, ◌≤◌, List, [], ◌∷◌};
ghost use Rattle.std.specs.Prelude.{length, drop, map, slice_index_or, All, true};
ghost use Rattle.std.specs.Prelude.{Option, None, Some};
ghost use Rattle.merkle_tree.specs.Clashes.{clash_place};
ghost use Rattle.merkle_tree.specs.Climb.{node_input};
ghost use Rattle.sha256_lanes.specs.Sha256.{sha256};
ghost use Rattle.slh_core.specs.Parameters.{Scheme};
ghost use Rattle.slh_frames.specs.Frames.{frame};
ghost use Rattle.slh_trees.specs.Keys.{IsTrueKey};
ghost use Rattle.slh_trees.specs.Signing.{signature_of};
ghost use Rattle.slh_batch.specs.Calls.{accept_error, are_comparable, clash_height, open_error};
ghost use Rattle.slh_batch.specs.Calls.{receipt_under_error, under_error};
ghost use Rattle.slh_batch.specs.Climbs.{ClashesAt, IsFirstClash, input_at, is_left_at, sibling_at};
ghost use Rattle.slh_batch.specs.Heads.{BatchHead, IsOfAnotherRoot, head_in, head_of};
ghost use Rattle.slh_batch.specs.Heads.{receipt_under, root_under};
ghost use Rattle.slh_batch.specs.Receipts.{batch_context, batch_message, climbed_inputs};
ghost use Rattle.slh_batch.specs.Receipts.{climbed_root, has_right_form, receipt_count};
ghost use Rattle.slh_batch.specs.Receipts.{receipt_index, receipt_of, receipt_path};
ghost use Rattle.slh_batch.specs.Receipts.{receipt_path_len};
ghost use Rattle.slh_batch.specs.Tree.{batch_inputs, batch_leaf, batch_path, batch_tree};
ghost use Rattle.slh_batch.specs.declared.error.ReceiptError.{ReceiptError};

use slh_dsa::SetSizes;
use slh_dsa::laws::signed_is_accepted;

/// Each receipt of a batch that is signed by a key with the root of its own seeds, with any
/// `opt_rand` or none, is accepted for its message under the verifying key.
pub fn sealed_is_accepted<P: SetSizes>()
    ensures { (key : List ℕ) (messages : List (List ℕ)) (opt_rand : Option (List ℕ)) (i : ℕ)
        → IsTrueKey P.scheme key
        → length key ≡ 4 * P.N.USIZE
        → i < length messages
        → length messages ≤ 2 ^ 20
        → length (slice_index_or messages i []) ≤ 2 ^ 60
        → let q = map batch_leaf messages in
        let sig = signature_of P.scheme key opt_rand (frame batch_context (batch_message q)) in
        accept_error P.scheme (drop (2 * P.N.USIZE) key) (slice_index_or messages i [])
        (receipt_of q sig i) ≡ None }
{
    signed_is_accepted::<P>();
}

/// Two receipts of right form for one place in batches of one size, which lead different messages
/// to one root, clash.
pub fn receipts_bind()
    ensures { (Z : Scheme) (m a o b : List ℕ)
        → has_right_form Z a ≡ true
        → has_right_form Z b ≡ true
        → receipt_index a ≡ receipt_index b
        → receipt_count a ≡ receipt_count b
        → length m ≤ 2 ^ 60
        → length o ≤ 2 ^ 60
        → climbed_root m a ≡ climbed_root o b
        → m ≢ o
        → (h : ℕ) × (clash_height Z m a o b ≡ Some h) }
{}

/// The head of a batch that is signed by a key with the root of its own seeds, with any `opt_rand`
/// or none, opens under the verifying key to the number and root of the messages and the signature,
/// and under it each message is accepted by its path, and by its receipt.
pub fn sealed_head_is_opened<P: SetSizes>()
    ensures opens { (key : List ℕ) (messages : List (List ℕ)) (opt_rand : Option (List ℕ))
        → IsTrueKey P.scheme key
        → length key ≡ 4 * P.N.USIZE
        → 0 < length messages
        → length messages ≤ 2 ^ 20
        → let q = map batch_leaf messages in
        let sig = signature_of P.scheme key opt_rand (frame batch_context (batch_message q)) in
        open_error P.scheme (drop (2 * P.N.USIZE) key) (head_of q sig) ≡ None }
    ensures says { (messages : List (List ℕ)) (sig : List ℕ)
        → 0 < length messages
        → length messages ≤ 2 ^ 20
        → let q = map batch_leaf messages in
        head_in (head_of q sig)
        ≡ record { count = length q; root = batch_tree q; signature = sig } }
    ensures accepts { (messages : List (List ℕ)) (sig : List ℕ) (i : ℕ)
        → i < length messages
        → length messages ≤ 2 ^ 20
        → length (slice_index_or messages i []) ≤ 2 ^ 60
        → let q = map batch_leaf messages in
        under_error (head_in (head_of q sig)) (slice_index_or messages i []) i (batch_path q i)
        ≡ None }
    ensures takes { (key : List ℕ) (messages : List (List ℕ)) (opt_rand : Option (List ℕ)) (i : ℕ)
        → IsTrueKey P.scheme key
        → length key ≡ 4 * P.N.USIZE
        → i < length messages
        → length messages ≤ 2 ^ 20
        → length (slice_index_or messages i []) ≤ 2 ^ 60
        → let q = map batch_leaf messages in
        let sig = signature_of P.scheme key opt_rand (frame batch_context (batch_message q)) in
        receipt_under_error P.scheme (head_in (head_of q sig)) (slice_index_or messages i [])
        (receipt_of q sig i) ≡ None }
{
    signed_is_accepted::<P>();
}

/// What is answered under a head that opens is what is answered to the whole receipt, which has the
/// head's signature. What is accepted under the head has a receipt that is accepted, and a receipt
/// that is refused is refused under the head for the same cause. Both answers are the same, or the
/// head's signature is one of another root, too: the one that the path leads to.
pub fn heads_stand_for_receipts<P: SetSizes>()
    ensures accepted { (key bytes m : List ℕ) (i : ℕ) (path : List (List ℕ))
        → open_error P.scheme key bytes ≡ None
        → i < 2 ^ 32
        → All (λ d. length d ≡ 32) path
        → let head = head_in bytes in
        under_error head m i path ≡ None
        → accept_error P.scheme key m (receipt_under head i path) ≡ None }
    ensures refused { (key bytes m : List ℕ) (i : ℕ) (path : List (List ℕ)) (e : ReceiptError)
        → open_error P.scheme key bytes ≡ None
        → i < 2 ^ 32
        → All (λ d. length d ≡ 32) path
        → let head = head_in bytes in
        accept_error P.scheme key m (receipt_under head i path) ≡ Some e
        → under_error head m i path ≡ Some e }
    ensures same { (key bytes m : List ℕ) (i : ℕ) (path : List (List ℕ))
        → open_error P.scheme key bytes ≡ None
        → i < 2 ^ 32
        → All (λ d. length d ≡ 32) path
        → let head = head_in bytes in
        (accept_error P.scheme key m (receipt_under head i path) ≡ under_error head m i path)
        ⊎ IsOfAnotherRoot P.scheme key head (root_under head m i path) }
{}

/// A receipt of right form that is for a head's number of messages is answered under the head as
/// its place and its path are. So what is accepted under a head that opens, whatever signature the
/// receipt has, is accepted as a whole receipt of that place and path with the head's signature.
pub fn receipts_stand_for_paths()
    ensures path { (Z : Scheme) (head : BatchHead) (m r : List ℕ)
        → has_right_form Z r ≡ true
        → receipt_count r ≡ head.count
        → receipt_under_error Z head m r
        ≡ under_error head m (receipt_index r) (receipt_path r) }
    ensures accepted { (Z : Scheme) (key bytes m r : List ℕ)
        → open_error Z key bytes ≡ None
        → let head = head_in bytes in
        receipt_under_error Z head m r ≡ None
        → accept_error Z key m (receipt_under head (receipt_index r) (receipt_path r)) ≡ None }
{}

/// Under a head one place is one message's: where two are accepted there, each by a path of its
/// own, the ways up from them clash.
pub fn heads_bind()
    ensures { (head : BatchHead) (m o : List ℕ) (i : ℕ) (p r : List (List ℕ))
        → All (λ d. length d ≡ 32) p
        → All (λ d. length d ≡ 32) r
        → under_error head m i p ≡ None
        → under_error head o i r ≡ None
        → m ≢ o
        → (h : ℕ) × (clash_place sha256 (batch_inputs m i head.count p)
        (batch_inputs o i head.count r) ≡ Some h) }
{}

/// On the way up by a receipt the leaf's input is hashed first. At each height above it the input
/// has the digest of the one before, beside the sibling from the path; the root that a receipt of
/// right form leads to is the digest of the last.
pub fn climbs_are_chains()
    ensures len { (m r : List ℕ) → length (climbed_inputs m r) ≡ receipt_path_len r + 1 }
    ensures leaf { (m r : List ℕ) → input_at m r 0 ≡ 0 ∷ m }
    ensures above { (m r : List ℕ) (h : ℕ)
        → h < receipt_path_len r
        → input_at m r (h + 1)
        ≡ node_input (is_left_at r h) (sha256 (input_at m r h)) (sibling_at r h) }
    ensures root { (Z : Scheme) (m r : List ℕ)
        → has_right_form Z r ≡ true
        → climbed_root m r ≡ sha256 (input_at m r (receipt_path_len r)) }
{}

/// `clash` answers a height exactly where the receipts may be compared and hash different inputs to
/// one digest there, and at none below; and `None` exactly where they do so at no height or may not
/// be compared.
pub fn clash_is_first()
    ensures some { (Z : Scheme) (m a o b : List ℕ) (h : ℕ)
        → (clash_height Z m a o b ≡ Some h)
        ↔ ((are_comparable Z m a o b ≡ true) × IsFirstClash m a o b h) }
    ensures none { (Z : Scheme) (m a o b : List ℕ)
        → (clash_height Z m a o b ≡ None)
        ↔ (are_comparable Z m a o b ≡ true → (h : ℕ) → ClashesAt m a o b h → ⊥) }
{}
