//! What publishing keeps, and that files have names of their own, as contracts of functions that do
//! nothing.
ghost use Rattle.std.specs.Prelude.{◌≡◌, ◌≢◌, ◌⊎◌, ◌<◌, ◌+◌, ◌^◌, ℕ, List, [], ◌∷◌, ◌++◌, codes};
ghost use Rattle.std.specs.Prelude.{Result, Ok, Some, slice_get};
ghost use Rattle.std.specs.List.{AllByRecursion};
ghost use Rattle.log_files.specs.Appending.{Named, full_bundle, of_levels, partial_bundle};
ghost use Rattle.log_files.specs.Appending.{partial_files, tile_files};
ghost use Rattle.log_files.specs.Names.{AreBelow, AreFull, AreSuch, IsName};
ghost use Rattle.log_files.specs.Names.{ArePieces, IsHeadLast, StandWhole};
ghost use Rattle.log_files.specs.Publishing.{AreWhole, HaveNames, IsApart, IsPublishing, IsWhole};
ghost use Rattle.log_files.specs.Publishing.{IsSeparate, Publishes};
ghost use Rattle.log_files.specs.declared.error.PublishError.{PublishError};
ghost use Rattle.log_files.specs.declared.publishing.Piece.{Piece};
ghost use Rattle.log_tiles.specs.Names.{bundle_path, tile_path};
ghost use Rattle.log_tiles.specs.Tiles.{full_levels};
ghost use Rattle.merkle_tree.specs.Hashes.{HashFunction};
ghost use Rattle.whole_files.specs.Files.{Files};
ghost use Rattle.whole_files.specs.declared.error.Written.{Written};

/// Wherever everything stops: a path that is no name of a piece or the head has what it had
/// (`others`), and the head has what it had, or it and all pieces stand whole (`head_is_last`).
pub fn old_or_all()
    ensures others { (m n : Files) (ps : List Piece) (head : Piece) → IsPublishing m ps head n
        → (q : List ℕ) → AllByRecursion (IsApart q) (head ∷ ps) → n q ≡ m q }
    ensures head_is_last { (m n : Files) (ps : List Piece) (head : Piece) → HaveNames ps head
        → IsPublishing m ps head n → (n head.path.now ≡ m head.path.now)
        ⊎ (AreWhole ps n × IsWhole head.bytes.now (n head.path.now)) }
{}

/// Names of different files of a log are different, and none is `checkpoint`: of tiles below level
/// 10, and of bundles.
pub fn names_differ()
    ensures tiles { (level index width other number size : ℕ) → level < 10 → other < 10
        → index < 2 ^ 64 → number < 2 ^ 64 → width < 2 ^ 64 → size < 2 ^ 64
        → tile_path level index width ≡ tile_path other number size
        → (level ≡ other) × (index ≡ number) × (width ≡ size) }
    ensures bundles { (index width number size : ℕ)
        → index < 2 ^ 64 → number < 2 ^ 64 → width < 2 ^ 64 → size < 2 ^ 64
        → bundle_path index width ≡ bundle_path number size → (index ≡ number) × (width ≡ size) }
    ensures kinds { (level index width number size : ℕ) → level < 10
        → tile_path level index width ≢ bundle_path number size }
    ensures heads { (level index width : ℕ) → (tile_path level index width ≢ codes "checkpoint")
        × (bundle_path index width ≢ codes "checkpoint") }
{}

/// What an append writes has names of its own. Nothing is full at first (`begun`); what an entry makes
/// full, as [`Appending::push`](crate::Appending::push) puts it, has other names (`pushed`); and all
/// that [`Appending::finish`](crate::Appending::finish) gives are bundles and tiles with names of
/// their own (`finished`).
pub fn names_stay_apart()
    ensures begun { (count : ℕ) → AreFull count [] [] }
    ensures pushed { (H : HashFunction) (count : ℕ) (bundles tiles : List Named) (bytes : List ℕ)
        (q : List (List ℕ)) → count + 1 < 2 ^ 64 → AreFull count bundles tiles
        → AreFull (count + 1) (bundles ++ full_bundle (count + 1) bytes)
        (tiles ++ of_levels (tile_files H (count + 1) q) (full_levels (count + 1))) }
    ensures finished { (H : HashFunction) (count : ℕ) (bundles tiles : List Named) (bytes : List ℕ)
        (q : List (List ℕ)) → count < 2 ^ 64 → AreFull count bundles tiles
        → AreSuch IsName ((bundles ++ partial_bundle count bytes)
        ++ (tiles ++ of_levels (partial_files H count q) 8)) }
{}

/// Files of a log, put below a folder under other names first, and the checkpoint beside them have
/// names of their own, as [`old_or_all`] asks for.
pub fn files_have_names()
    ensures { (folder : List ℕ) (files : List Named) (ps : List Piece) (head : Piece)
        → AreSuch IsName files → AreBelow folder files ps head → HaveNames ps head }
{}

/// Files of a log with names of their own, published below its folder as such pieces: wherever
/// everything stops (`stopped`), and whatever [`publish`](crate::publish) answers (`answered`), the
/// checkpoint has what it had, or it and all files stand whole; after `Ok` they do (`done`). Each
/// piece and the head have two names (`pieces`, `head`), as it asks for.
pub fn checkpoint_is_last()
    ensures stopped { (m n : Files) (folder : List ℕ) (files : List Named) (checkpoint : List ℕ)
        (ps : List Piece) (head : Piece) → AreSuch IsName files
        → ArePieces folder files checkpoint ps head → IsPublishing m ps head n
        → IsHeadLast m folder files checkpoint n }
    ensures answered { (m n : Files) (folder : List ℕ) (files : List Named) (checkpoint : List ℕ)
        (ps : List Piece) (head : Piece) (result : Result Written PublishError)
        → AreSuch IsName files → ArePieces folder files checkpoint ps head
        → Publishes m ps head result n → IsHeadLast m folder files checkpoint n }
    ensures done { (m n : Files) (folder : List ℕ) (files : List Named) (checkpoint : List ℕ)
        (ps : List Piece) (head : Piece) (written : Written)
        → AreSuch IsName files → ArePieces folder files checkpoint ps head
        → Publishes m ps head (Ok written) n → StandWhole folder files checkpoint n }
    ensures pieces { (folder : List ℕ) (files : List Named) (ps : List Piece) (head : Piece)
        → AreSuch IsName files → AreBelow folder files ps head → (i : ℕ) (p : Piece)
        → slice_get ps i ≡ Some p → IsSeparate p }
    ensures head { (folder : List ℕ) (files : List Named) (ps : List Piece) (head : Piece)
        → AreBelow folder files ps head → IsSeparate head }
{}
