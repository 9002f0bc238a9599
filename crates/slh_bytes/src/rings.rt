//! Rings of the keys of a master secret.
ghost use Rattle.std.specs.Prelude.{◌≡◌, ◌⊎◌, ◌+◌, ◌≤◌, [], length, Ok, Err, IfOk, IfErr};
ghost use Rattle.std.specs.Prelude.{OnOk};
ghost use Rattle.line_serve.specs.Fields.{contents};
ghost use Rattle.slh_bytes.specs.Rings.{paths_text as spec_paths_text, record_by, restored_text};
ghost use Rattle.slh_bytes.specs.Rings.{NamesText, ring_from, with_text};
ghost use Rattle.slh_bytes.specs.declared.rings.RecordError.TheVariants.{Memory as NoMemory};
ghost use Rattle.slh_ring.specs.Keys.{ring_key};
ghost use Rattle.slh_ring.specs.declared.error.RestoreError.TheVariants.{Memory};
ghost use Rattle.slh_sets.specs.Sets.{name_of, scheme_for};

use line_serve::ByteString;
use slh_dsa::SetSizes;
use slh_ring::{MAX_MASTER, Path, RestoreError, Ring, RingError, derive};
use slh_sets::{OnSet, Set, SetSuite};
use std::alloc::{AllocError, Global};

// The key at a path.
#[derive(Drop)]
struct Deriving<'a> {
    alloc: Global,
    master: &'a [u8],
    path: &'a Path,
}

impl<'a> OnSet for Deriving<'a> {
    type Out = Result<ByteString, AllocError>;

    ghost gives = { λ c Z name result. IfOk result
        (λ key. key ≡ ring_key Z name c.master.now c.path.now) };

    fn on<P: SetSuite>(self) -> Result<ByteString, AllocError> {
        if self.master.len() > MAX_MASTER {
            return Err(AllocError);
        }
        let key = derive::<P>(self.master, self.path);
        ByteString::from_slice(self.alloc, &key.to_vec(self.alloc)?)
    }
}

/// The signing key of a set at a path under a master of at most [`MAX_MASTER`] bytes, as
/// [`slh_ring::derive`] makes it. More bytes are as good as want of memory.
pub fn key_at(alloc: Global, set: Set, master: &[u8], path: &Path) -> Result<ByteString, AllocError>
    ensures { IfOk result
        (λ key. key ≡ ring_key (scheme_for set) (name_of set) master.now path.now) }
{
    set.run(Deriving {
        alloc,
        master,
        path,
    })
}

/// Why no record is made.
#[derive(Clone, Copy, Debug, PartialEq, Eq)]
pub enum RecordError {
    /// The text of this number, from 0, is no path.
    Text(usize),
    /// The path of this number, from 0, isn't added.
    Ring(usize, RingError),
    /// There was no memory.
    Memory,
}

impl From<AllocError> for RecordError {
    ghost use Rattle.std.specs.Prelude.{◌≡◌};
    ghost use Rattle.slh_bytes.specs.declared.rings.RecordError.TheVariants.{Memory};

    ghost from_gives = { λ _ e. e ≡ Memory };

    fn from(_error: AllocError) -> Self {
        RecordError::Memory
    }
}

// The record of the ring of some paths.
#[derive(Drop)]
struct Recording<'a, 't> {
    alloc: Global,
    master: &'a [u8],
    texts: &'a [&'t str],
}

// Adds the path of a text to a ring.
fn add_text<P: SetSizes>(ring: &mut Ring<P>, i: usize, text: &str) -> Result<(), RecordError>
    ensures ok { OnOk result (with_text i text.now ring.old ≡ Ok ring.new) }
    ensures error { IfErr result (λ e. (with_text i text.now ring.old ≡ Err e)
        ⊎ (e ≡ NoMemory)) }
    ensures named { IfErr result (NamesText (i + 1)) }
{
    let Some(path) = Path::from_text(text.as_bytes()) else {
        return Err(RecordError::Text(i));
    };
    match ring.add(path) {
        Ok(()) => Ok(()),
        Err(RingError::Memory) => Err(RecordError::Memory),
        Err(error) => Err(RecordError::Ring(i, error)),
    }
}

// The ring of the paths of some texts.
fn ring_of<P: SetSizes>(alloc: Global, texts: &[&str]) -> Result<Ring<P>, RecordError>
    ensures ring { IfOk result (λ ring. ring_from 0 [] (contents texts.now) ≡ Ok ring) }
    ensures error { IfErr result
        (λ e. (ring_from 0 [] (contents texts.now) ≡ Err e) ⊎ (e ≡ NoMemory)) }
    ensures named { IfErr result (NamesText (length texts.now)) }
{
    let mut ring = Ring::new(alloc);
    'each_text: for i in 0..texts.len() {
        add_text(&mut ring, i, texts[i])?;
    }
    Ok(ring)
}

impl<'a, 't> OnSet for Recording<'a, 't> {
    type Out = Result<Vec<u8>, RecordError>;

    ghost gives = { λ c Z name result.
        let answer = record_by Z name c.master.now (ring_from 0 [] (contents c.texts.now)) in
        IfOk result (λ made. answer ≡ Ok made.items)
        × IfErr result (λ e. (answer ≡ Err e) ⊎ (e ≡ NoMemory))
        × IfErr result (NamesText (length c.texts.now)) };

    fn on<P: SetSuite>(self) -> Result<Vec<u8>, RecordError> {
        if self.master.len() > MAX_MASTER {
            return Err(RecordError::Memory);
        }
        let ring = ring_of::<P>(self.alloc, self.texts)?;
        Ok(ring.to_record(self.alloc, self.master)?)
    }
}

/// The record of the ring of a set at the paths of some texts, under a master of at most
/// [`MAX_MASTER`] bytes, as [`Ring::to_record`] makes it. `Text`, `Ring`: the first text that is no
/// path or isn't added; `Memory`, which more bytes of a master are too.
pub fn record_of(
    alloc: Global,
    set: Set,
    master: &[u8],
    texts: &[&str],
) -> Result<Vec<u8>, RecordError>
    ensures value { let ring = ring_from 0 [] (contents texts.now) in
        IfOk result (λ made. record_by (scheme_for set) (name_of set) master.now ring
        ≡ Ok made.items) }
    ensures error { let ring = ring_from 0 [] (contents texts.now) in
        IfErr result (λ e. (record_by (scheme_for set) (name_of set) master.now ring ≡ Err e)
        ⊎ (e ≡ NoMemory)) }
    ensures named { IfErr result (NamesText (length texts.now)) }
{
    set.run(Recording {
        alloc,
        master,
        texts,
    })
}

// A record that is to give its ring again.
#[derive(Drop)]
struct Restoring<'a> {
    alloc: Global,
    master: &'a [u8],
    recorded: &'a [u8],
}

// The paths of a ring, a line for each.
fn paths_text<P: SetSizes>(alloc: Global, ring: &Ring<P>) -> Result<ByteString, AllocError>
    ensures { IfOk result (λ text. text ≡ spec_paths_text ring.now) }
{
    let mut text = ByteString::new(alloc);
    for i in 0..ring.len() {
        let Some(path) = ring.get(i) else {
            unreachable!()
        };
        path.push_to(&mut text)?;
        text.push_slice(b"\n")?;
    }
    Ok(text)
}

impl<'a> OnSet for Restoring<'a> {
    type Out = Result<ByteString, RestoreError>;

    ghost gives = { λ c Z name result.
        (result ≡ restored_text Z name c.master.now c.recorded.now) ⊎ (result ≡ Err Memory) };

    fn on<P: SetSuite>(self) -> Result<ByteString, RestoreError> {
        if self.master.len() > MAX_MASTER {
            return Err(RestoreError::Memory);
        }
        let ring = Ring::<P>::restore(self.alloc, self.master, self.recorded)?;
        Ok(paths_text(self.alloc, &ring)?)
    }
}

/// The paths of a record of a set, a line for each, where their keys under a master of at most
/// [`MAX_MASTER`] bytes are those that were recorded, as [`Ring::restore`] finds them. `Form`;
/// `Mismatch`; `Memory`, which more bytes of a master are too.
pub fn restored_paths(
    alloc: Global,
    set: Set,
    master: &[u8],
    recorded: &[u8],
) -> Result<ByteString, RestoreError>
    ensures { (result ≡ restored_text (scheme_for set) (name_of set) master.now recorded.now)
        ⊎ (result ≡ Err Memory) }
{
    set.run(Restoring {
        alloc,
        master,
        recorded,
    })
}
