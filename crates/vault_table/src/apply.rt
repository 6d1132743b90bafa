ghost use Rattle.std.specs.Prelude.{◌≡◌, ◌-◌, ◌∷◌, List, Some, None, nat_lt, ◌||◌, is_some, OnOk, OnErr, IfErr, IsErrOf, IsTrue, if◌then◌else◌};
ghost use Rattle.record_defs.specs.Records.{Record as EntryData, SetUp, PutStart, PutDone, Drop, AuditStart, AuditDone, RepairDone, PutDoneIn, Version, Resume, InEffect, RepairDue};
ghost use Rattle.record_defs.specs.Acceptance.{refused, is_file_id};
ghost use Rattle.std.specs.List.{list_any};
ghost use Rattle.record_codec.specs.Entries.{entry_of, with_master, counted, IsPadded, HasPadding};
ghost use Rattle.vault_table.specs.declared.entry.Refused.TheVariants as fault;
ghost use Rattle.vault_table.specs.Values.{IsFoldOf, started_at};
ghost use Rattle.vault_table.specs.Causes.{Applies, EndsStartedPut, IsCause, is_put_start, is_version};

use crate::entry::{Entry, Refused};
use crate::files::{drop_file, has_id, put_file};
use crate::table::Table;
use key_schedule::Master;
use record_codec::{Counts, Name, Record, Setup};
use stream_model::Memory;

impl Table {
    /// Goes on by a record, or says why it may not follow, and then stays as it is. Only a `PutStart` with
    /// nothing reserved may take memory. Condition: the counts of the record are padded.
    pub fn apply(&mut self, entry: &Record) -> Result<(), Refused>
        requires { HasPadding entry.now }
        ensures ok { (rs : List EntryData) → IsFoldOf rs self.old
            → OnOk result (IsFoldOf (entry_of entry.now ∷ rs) self.new) }
        ensures accepted { (rs : List EntryData) → IsFoldOf rs self.old
            → OnOk result (refused rs (entry_of entry.now) ≡ None) }
        ensures refused { (rs : List EntryData) → IsFoldOf rs self.old
            → IfErr result (λ why. IsCause why (refused rs (entry_of entry.now))) }
        ensures unchanged { OnErr result (self.new ≡ self.old) }
        ensures memory { IsErrOf result fault.Memory → IsTrue (is_put_start (entry_of entry.now)) }
        ensures reserved { IsErrOf result fault.Memory → self.old.spare ≡ 0 }
        ensures spare { OnOk result (self.new.spare ≡ (if is_put_start (entry_of entry.now) then
            self.old.spare - 1 else self.old.spare)) }
        ensures version { OnOk result (self.new.version
            ≡ (if is_version (entry_of entry.now) then 2 else self.old.version)) }
    {
        match entry {
            Record::Setup { setup, master } => self.set_up(setup, master),
            Record::PutStart { id, name } => self.put_start(*id, name),
            Record::PutDone { id, length } => self.put_done(*id, *length),
            Record::Drop { name } => self.drop_name(name),
            Record::AuditStart { number } => self.audit_start(*number),
            Record::AuditDone {
                number,
                undecided,
                counts,
            } => self.audit_done(*number, *undecided, counts),
            Record::RepairDone { number } => self.repair_done(*number),
            Record::PutDoneIn {
                id,
                length,
                profile,
            } => self.put_done_in(*id, *length, *profile),
            Record::Version => self.raise_version(),
            Record::Resume { id, audit } => self.resume(*id, *audit),
            Record::File {
                id,
                length,
                profile,
                name,
            } => self.keep_file(*id, *length, *profile, name),
            Record::Due { number, counts } => self.keep_due(*number, counts),
        }
    }

    /// Takes a setup, where there is none.
    fn set_up(&mut self, setup: &Setup, master: &[u8; 32]) -> Result<(), Refused>
        ensures { Applies self.old (SetUp (with_master setup.now master.now)) result self.new }
    {
        if self.setup.is_some() {
            return Err(Refused::SecondSetup);
        }
        self.setup = Some((*setup, Master(*master)));
        Ok(())
    }

    /// Takes the start of a put under the next id.
    fn put_start(&mut self, id: u64, name: &Name) -> Result<(), Refused>
        ensures { Applies self.old (PutStart id name.now) result self.new }
    {
        if self.setup.is_none() {
            return Err(Refused::NoSetup);
        }
        if id != self.next_id() || id == u64::MAX {
            return Err(Refused::BadId);
        }
        match self.started.push(name) {
            Ok(()) => Ok(()),
            Err(Memory) => Err(Refused::Memory),
        }
    }

    /// The name under which a put was started and is not done, where the first place is that of the id after
    /// `passed`.
    fn started_name(&self, id: u64) -> Option<Name>
        ensures { result ≡ started_at self.now id }
    {
        if id <= self.passed {
            return None;
        }
        self.started.name((id - self.passed - 1) as usize)
    }

    /// Takes the end of a put, whatever the version.
    fn end_put(&mut self, id: u64, size: u32, profile: u8) -> Result<(), Refused>
        ensures { EndsStartedPut self.old id size profile result self.new }
    {
        match self.started_name(id) {
            Some(name) => {
                let file = Entry {
                    name,
                    id,
                    length: size,
                    profile,
                };
                if !put_file(&mut self.files, file) {
                    return Err(Refused::TooMany);
                }
                self.started.end((id - self.passed - 1) as usize);
                Ok(())
            }
            None => Err(Refused::NotStarted),
        }
    }

    /// Takes the end of a put in the first version: its file has the setup's profile.
    fn put_done(&mut self, id: u64, size: u32) -> Result<(), Refused>
        ensures { Applies self.old (PutDone id size) result self.new }
    {
        let Some((setup, _)) = &self.setup else {
            return Err(Refused::NoSetup);
        };
        let profile = setup.profile;
        if self.version == 2 {
            return Err(Refused::OldKind);
        }
        self.end_put(id, size, profile)
    }

    /// Takes the end of a put in the second version, with its profile.
    fn put_done_in(&mut self, id: u64, size: u32, profile: u8) -> Result<(), Refused>
        ensures { Applies self.old (PutDoneIn id size profile) result self.new }
    {
        if self.setup.is_none() {
            return Err(Refused::NoSetup);
        }
        if self.version == 1 {
            return Err(Refused::OldVersion);
        }
        self.end_put(id, size, profile)
    }

    /// Takes the version: from here on it is the second.
    fn raise_version(&mut self) -> Result<(), Refused>
        ensures { Applies self.old Version result self.new }
    {
        if self.setup.is_none() {
            return Err(Refused::NoSetup);
        }
        if self.version == 2 {
            return Err(Refused::NewVersion);
        }
        self.version = 2;
        Ok(())
    }

    /// Takes the next numbers of a packed journal, where none was drawn before.
    fn resume(&mut self, id: u64, audit: u64) -> Result<(), Refused>
        ensures { Applies self.old (Resume id audit) result self.new }
    {
        if self.setup.is_none() {
            return Err(Refused::NoSetup);
        }
        if self.version == 1
            || self.next_id() != 1
            || self.next_audit != 1
            || id == 0
            || audit == 0
        {
            return Err(Refused::BadResume);
        }
        self.passed = id - 1;
        self.next_audit = audit;
        Ok(())
    }

    /// Takes a file in effect of a packed journal: its id is drawn and not in use, and its name is new.
    fn keep_file(&mut self, id: u64, size: u32, profile: u8, name: &Name) -> Result<(), Refused>
        ensures { Applies self.old (InEffect id size profile name.now) result self.new }
    {
        if self.setup.is_none() {
            return Err(Refused::NoSetup);
        }
        if self.version == 1 {
            return Err(Refused::OldVersion);
        }
        if id == 0 || id >= self.next_id() || self.is_in_use(id) {
            return Err(Refused::BadId);
        }
        if self.find(name).is_some() {
            return Err(Refused::NameTwice);
        }
        let file = Entry {
            name: *name,
            id,
            length: size,
            profile,
        };
        if !put_file(&mut self.files, file) {
            return Err(Refused::TooMany);
        }
        Ok(())
    }

    /// Whether an id is that of a file in effect or of a started put.
    fn is_in_use(&self, id: u64) -> bool
        ensures { result ≡ (is_file_id self.now.files id || is_some (started_at self.now id)) }
    {
        has_id(&self.files, id) || self.started_name(id).is_some()
    }

    /// Takes the due audit of a packed journal: its number is drawn, none is due, and its counts flag a
    /// provider.
    fn keep_due(&mut self, number: u64, counts: &Counts) -> Result<(), Refused>
        requires { IsPadded counts.now }
        ensures { Applies self.old (RepairDue number (counted counts.now)) result self.new }
    {
        let Some((setup, _)) = &self.setup else {
            return Err(Refused::NoSetup);
        };
        if self.version == 1 {
            return Err(Refused::OldVersion);
        }
        if number == 0
            || number >= self.next_audit
            || self.due.is_some()
            || counts.n != setup.n
            || !exceeds(counts, setup.tolerance)
        {
            return Err(Refused::BadAudit);
        }
        self.due = Some((number, *counts));
        Ok(())
    }

    /// Takes a drop of a name in effect.
    fn drop_name(&mut self, name: &Name) -> Result<(), Refused>
        ensures { Applies self.old (Drop name.now) result self.new }
    {
        if self.setup.is_none() {
            return Err(Refused::NoSetup);
        }
        if !drop_file(&mut self.files, name) {
            return Err(Refused::NoName);
        }
        Ok(())
    }

    /// Takes the start of an audit under the next number.
    fn audit_start(&mut self, number: u64) -> Result<(), Refused>
        ensures { Applies self.old (AuditStart number) result self.new }
    {
        if self.setup.is_none() {
            return Err(Refused::NoSetup);
        }
        if number != self.next_audit || number == u64::MAX || self.due.is_some() {
            return Err(Refused::BadAudit);
        }
        self.next_audit = number + 1;
        self.running = Some(number);
        Ok(())
    }

    /// Takes the end of the running audit; its repair is due where a count exceeds the tolerance.
    fn audit_done(&mut self, number: u64, undecided: u32, counts: &Counts) -> Result<(), Refused>
        requires { IsPadded counts.now }
        ensures { Applies self.old (AuditDone number undecided (counted counts.now)) result self.new }
    {
        let Some((setup, _)) = &self.setup else {
            return Err(Refused::NoSetup);
        };
        if self.running != Some(number) || counts.n != setup.n {
            return Err(Refused::BadAudit);
        }
        self.running = None;
        if exceeds(counts, setup.tolerance) {
            self.due = Some((number, *counts));
        }
        Ok(())
    }

    /// Takes the end of the due repair.
    fn repair_done(&mut self, number: u64) -> Result<(), Refused>
        ensures { Applies self.old (RepairDone number) result self.new }
    {
        if self.setup.is_none() {
            return Err(Refused::NoSetup);
        }
        match self.due {
            Some((due, _)) if due == number => {
                self.due = None;
                Ok(())
            }
            _ => Err(Refused::NoRepair),
        }
    }
}

/// Whether a provider has more wrong rounds than an audit tolerates.
fn exceeds(counts: &Counts, tolerance: u16) -> bool
    requires { IsPadded counts.now }
    ensures { result ≡ list_any (λ count. nat_lt tolerance count) (counted counts.now) }
{
    counts.by[..counts.n as usize]
        .iter()
        .any(|count| *count > tolerance as u32)
}
