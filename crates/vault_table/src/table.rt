ghost use Rattle.std.specs.Prelude.{◌≡◌, ◌+◌, suc, [], length, slice_get, IfOk, IfSome, OnOk, OnErr};
ghost use Rattle.std.specs.Option.{option_map};
ghost use Rattle.record_defs.specs.Table.{find_file};
ghost use Rattle.record_codec.specs.Entries.{IsPadded};
ghost use Rattle.vault_table.specs.Values.{file_of_entry, due_of_pair, setup_of_pair, id_after, forgotten, IsFoldOf};

use crate::entry::Entry;
use crate::files::find;
use crate::starts::Starts;
use key_schedule::Master;
use record_codec::{Counts, Name, Setup};
use record_defs::MOST_FILES;
use std::alloc::Global;
use std::marker::Model;
use stream_model::Memory;

/// The fold of the records of a journal. Ids up to `passed` are those of no started put; the started ones
/// stand behind it in the order of their ids, and a put that is done leaves None there.
#[derive(Drop)]
pub struct Table {
    pub(crate) setup: Option<(Setup, Master)>,
    pub(crate) version: u8,
    pub(crate) files: Vec<Entry>,
    pub(crate) passed: u64,
    pub(crate) started: Starts,
    pub(crate) next_audit: u64,
    pub(crate) running: Option<u64>,
    pub(crate) due: Option<(u64, Counts)>,
}

impl Model for Table {
    ghost use Rattle.vault_table.specs.Values.{Kept};

    ghost Value = { Kept };

    ghost use Rattle.vault_table.specs.Parts.{kept_of, IsTable};

    ghost view = { kept_of };

    ghost invariant = { IsTable };
}

impl Table {
    /// The fold of no records, with room for 1,024 files.
    pub fn new(alloc: Global) -> Result<Table, Memory>
        ensures fold { IfOk result (λ t. IsFoldOf [] t) }
        ensures spare { IfOk result (λ t. t.spare ≡ 0) }
    {
        let files = Vec::with_capacity(alloc, MOST_FILES)?;
        Ok(Table {
            setup: None,
            version: 1,
            files,
            passed: 0,
            started: Starts::new(alloc),
            next_audit: 1,
            running: None,
            due: None,
        })
    }

    /// Makes room for one more `PutStart`.
    pub fn reserve_start(&mut self) -> Result<(), Memory>
        ensures ok { OnOk result (self.new ≡ record self.old { spare = suc self.old.spare }) }
        ensures err { OnErr result (self.new ≡ self.old) }
    {
        self.started.reserve()
    }

    /// The file in effect under a name.
    pub fn find(&self, name: &Name) -> Option<Entry>
        ensures { option_map file_of_entry result ≡ find_file self.now.files name.now }
    {
        find(&self.files, name)
    }

    /// How many files are in effect.
    pub fn count(&self) -> usize
        ensures { result ≡ length self.now.files }
    {
        self.files.len()
    }

    /// The file at a place in byte order of the names; None from `count` on.
    pub fn at(&self, place: usize) -> Option<Entry>
        ensures { option_map file_of_entry result ≡ slice_get self.now.files place }
    {
        self.files.get(place).copied()
    }

    /// The audit whose repair is due, with its counts.
    pub fn due(&self) -> Option<(u64, Counts)>
        ensures value { option_map due_of_pair result ≡ self.now.due }
        ensures padded { IfSome result (λ x. IsPadded x.1) }
    {
        self.due
    }

    /// The setup and its master key.
    pub fn setup(&self) -> Option<(Setup, Master)>
        ensures { option_map setup_of_pair result ≡ self.now.setup }
    {
        self.setup
    }

    /// The version of the journal: 1 or 2.
    pub fn version(&self) -> u8
        ensures { result ≡ self.now.version }
    {
        self.version
    }

    /// Empties the started puts and the running audit. So the table of accepted records becomes that of a
    /// packed journal.
    pub fn forget(&mut self)
        ensures { self.new ≡ forgotten self.old }
    {
        self.passed += self.started.len() as u64;
        self.started.clear();
        self.running = None;
    }

    /// The id that the next put takes.
    pub fn next_id(&self) -> u64
        ensures { result ≡ id_after self.now }
    {
        self.passed + self.started.len() as u64 + 1
    }

    /// The number that the next audit takes.
    pub fn next_audit(&self) -> u64
        ensures { result ≡ self.now.next_audit }
    {
        self.next_audit
    }
}
