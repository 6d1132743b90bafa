ghost use Rattle.std.specs.Prelude.{◌≡◌, ◌+◌, ◌-◌, ◌^◌, ◌<◌, ◌≤◌, if◌then◌else◌, take, drop, ◌++◌, suc, [], ◌∷◌, Some, None, length, slice_set, vec_capacity, OnOk, OnErr};
ghost use Rattle.record_defs.specs.Records.{is_name};
ghost use Rattle.vault_table.specs.Starts.{begins_at, with_mark, AreNameMarks};
ghost use Rattle.vault_table.specs.Values.{started_from};

use record_codec::Name;
use std::alloc::Global;
use std::marker::Model;
use stream_model::Memory;

/// For how many more names room can be reserved: a name has at most 64 letters.
const MOST_SPARE: usize = usize::MAX / 64;

/// The names of started puts in the order of their ids, one behind the other; each 64th has a mark. A put
/// that is done leaves its letters. So a name takes one byte and a sixty-fourth of a mark beside its letters.
#[derive(Drop)]
pub struct Starts {
    sizes: Vec<u8>,
    letters: Vec<u8>,
    marks: Vec<usize>,
    spare: usize,
}

impl Model for Starts {
    ghost use Rattle.vault_table.specs.Starts.{Starts};

    ghost Value = { Starts };

    ghost use Rattle.vault_table.specs.Starts.{started_puts, IsStarts};

    ghost view = { started_puts };

    ghost invariant = { IsStarts };
}

/// Where among the letters the name of a place begins: from the mark before it on.
fn begin_of(sizes: &[u8], marks: &[usize], place: usize) -> usize
    requires place { place < length sizes.now }
    requires marks { AreNameMarks sizes.now marks.now }
    requires fits { begins_at sizes.now (length sizes.now) < 2 ^ 64 }
    ensures { result ≡ begins_at sizes.now place }
{
    let first = place / 64 * 64;
    let mut at = marks[place / 64];
    for i in first..place {
        at += (sizes[i] % 128) as usize;
    }
    at
}

/// The name of so many letters from a place on.
fn name_at(letters: &[u8], begin: usize, size: usize) -> Option<Name>
    requires { begin + size ≤ length letters.now }
    ensures { result ≡ (if is_name (take size (drop begin letters.now))
        then Some (take size (drop begin letters.now)) else None) }
{
    Name::new(&letters[begin..begin + size])
}

/// Marks where the next name begins, if it is a 64th one.
fn mark(marks: &mut Vec<usize>, count: usize, at: usize)
    requires { length marks.old.items < vec_capacity marks.old }
    ensures items { marks.new.items ≡ with_mark count at marks.old.items }
    ensures capacity { vec_capacity marks.new ≡ vec_capacity marks.old }
{
    if count % 64 == 0 {
        marks.push_reserved(at);
    }
}

impl Starts {
    /// No started put.
    pub fn new(alloc: Global) -> Starts
        ensures { result ≡ record { names = []; spare = 0 } }
    {
        Starts {
            sizes: Vec::new(alloc),
            letters: Vec::new(alloc),
            marks: Vec::new(alloc),
            spare: 0,
        }
    }

    /// How many puts were started.
    pub fn len(&self) -> usize
        ensures { result ≡ length self.now.names }
    {
        self.sizes.len()
    }

    /// The name under which the put at a place was started and is not done.
    pub fn name(&self, place: usize) -> Option<Name>
        ensures { result ≡ started_from self.now.names place }
    {
        if place >= self.sizes.len() {
            return None;
        }
        let size = self.sizes[place];
        if size >= 128 {
            return None;
        }
        let begin = begin_of(&self.sizes, &self.marks, place);
        name_at(&self.letters, begin, size as usize)
    }

    /// Makes room for one more put.
    pub fn reserve(&mut self) -> Result<(), Memory>
        ensures ok { OnOk result (self.new ≡ record self.old { spare = suc self.old.spare }) }
        ensures err { OnErr result (self.new ≡ self.old) }
    {
        if self.spare >= MOST_SPARE {
            return Err(Memory);
        }
        let spare = self.spare + 1;
        self.sizes.reserve(spare)?;
        self.letters.reserve(64 * spare)?;
        self.marks.reserve(spare)?;
        self.spare = spare;
        Ok(())
    }

    /// Adds a started put. Memory is wanted only where no room was reserved.
    pub fn push(&mut self, name: &Name) -> Result<(), Memory>
        ensures ok { OnOk result (self.new ≡ record {
          names = self.old.names ++ Some name.now ∷ [];
          spare = self.old.spare - 1;
        }) }
        ensures err { OnErr result (self.new ≡ self.old) }
        ensures reserved { OnErr result (self.old.spare ≡ 0) }
    {
        if self.spare == 0 {
            self.reserve()?;
        }
        self.put(name);
        Ok(())
    }

    /// Adds a started put in the room that was reserved.
    fn put(&mut self, name: &Name)
        requires { 0 < self.old.spare }
        ensures { self.new ≡ record {
          names = self.old.names ++ Some name.now ∷ [];
          spare = self.old.spare - 1;
        } }
    {
        let bytes = name.as_bytes();
        mark(&mut self.marks, self.sizes.len(), self.letters.len());
        self.sizes.push_reserved(bytes.len() as u8);
        let Ok(()) = self.letters.extend_from_slice(bytes) else {
            unreachable!()
        };
        self.spare -= 1;
    }

    /// The put at a place is done.
    pub fn end(&mut self, place: usize)
        requires { place < length self.old.names }
        ensures { self.new ≡ record self.old { names = slice_set self.old.names place None } }
    {
        self.sizes[place] = self.sizes[place] % 128 + 128;
    }

    /// Forgets all started puts; the room stays.
    pub fn clear(&mut self)
        ensures { self.new ≡ record self.old { names = [] } }
    {
        self.sizes.clear();
        self.letters.clear();
        self.marks.clear();
    }
}
