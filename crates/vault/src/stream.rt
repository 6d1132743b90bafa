//! Streams: puts that are given their files stripe by stripe.
ghost use Rattle.std.specs.Prelude.{◌≡◌, ◌<◌, ◌≤◌, ◌+◌, ◌*◌, ◌-◌, ◌^◌, ℕ, List, None, Some, true, false, Err, length, is_some, IfOk, OnErr};
ghost use Rattle.column_defs.specs.Objects.{stripe_symbols, symbols_in};
ghost use Rattle.machine_defs.specs.Begins.{chosen};
ghost use Rattle.machine_defs.specs.Events.{AreBytes};
ghost use Rattle.machine_defs.specs.Jobs.{PutJob, Job, job_of};
ghost use Rattle.machine_defs.specs.States.{State, ended};
ghost use Rattle.record_codec.specs.Entries.{with_master};
ghost use Rattle.record_defs.specs.Records.{largest_file};
ghost use Rattle.column_codec.specs.Bench.{bench_object};
ghost use Rattle.vault_core.specs.declared.wish.BeginFault.TheVariants as fault;
ghost use Rattle.vault_core.specs.Streams.{stripe_size};
ghost use Rattle.vault_core.specs.View.{job_in, wants_in};
ghost use Rattle.vault_open.specs.Devices.{Devices};
ghost use Rattle.vault.specs.AtHand.{IsStreaming, piece_size, TakesPiece};
ghost use Rattle.code_defs.specs.Profiles.{is_unknown};
ghost use Rattle.vault.specs.Desks.{DeskStands, DeskMakesBegin, IsAtWork};
ghost use Rattle.vault.specs.Seen.{held_by, left_of, next_job_of, vault_setup, master_of, IsUnchanged};
ghost use Rattle.vault.specs.Stands.{Stands, MakesBegin};
ghost use Rattle.vault.specs.Streams.{wants_of, told_of, stripe_by, stripe_of, IsPiece, FitsPiece, OpensStream, TakesNext};

use crate::benches::bytes_are_bytes;
use crate::desk::Desk;
use crate::making::profile_of_put;
use crate::tasks::{Running, StreamTask, Task};
use crate::vault::Vault;
use code_points::{is_unknown, profile_at};
use record_codec::Name;
use record_defs::LARGEST_FILE;
use vault_core::BeginFault;

/// How long a file is with so many bytes behind so many stripes.
fn length_with(stripes: u32, size: usize, count: usize) -> u32
    requires { stripes * size + count ≤ largest_file }
    ensures { result ≡ stripes * size + count }
{
    (stripes as usize * size + count) as u32
}

/// Whether a stream that waits for a stripe may be given so many bytes, where a stripe has this size.
fn is_piece(stripe: u32, size: usize, count: usize, last: bool) -> bool
    ensures yes { result ≡ true → IsPiece size (Some stripe) count last }
    ensures no { result ≡ false → IsPiece size (Some stripe) count last → ⊥ }
{
    if u128::from(stripe) * size as u128 + count as u128 > u128::from(LARGEST_FILE) {
        return false;
    }
    if last { count <= size } else { count == size }
}

impl Task {
    /// How many bytes a stripe of a stream has; 0 for every other job.
    fn piece_size(&self) -> usize
        ensures { result ≡ piece_size self.now }
    {
        match self {
            Task::Stream(stream) => stream.size(),
            _ => 0,
        }
    }

    /// Takes a stripe of a stream out of a piece that begins with it, and says how many bytes a stripe has.
    fn take(&mut self, piece: &[u8], stripe: u32) -> usize
        requires { IsStreaming self.old }
        ensures taken { TakesPiece self.old self.new piece.now stripe }
        ensures size { result ≡ piece_size self.old }
    {
        match self {
            Task::Stream(stream) => stream.take(piece, stripe),
            Task::Put(_)
            | Task::Get(_)
            | Task::Drop
            | Task::Audit(_)
            | Task::Repair(_)
            | Task::Upgrade => unreachable!(),
        }
    }
}

impl StreamTask {
    ghost use Rattle.std.specs.Prelude.{◌≡◌, ◌*◌, Some};
    ghost use Rattle.column_defs.specs.Objects.{stripe_symbols, symbols_in};
    ghost use Rattle.column_codec.specs.Bench.{bench_object};

    /// Takes a stripe out of a piece that begins with it, and says how many bytes a stripe has.
    fn take(&mut self, piece: &[u8], stripe: u32) -> usize
        ensures rows { self.new.bench.rows.items ≡ symbols_in (bench_object self.old.bench) piece.now 0 }
        ensures keys { self.new.bench.keys ≡ self.old.bench.keys }
        ensures at_hand { self.new.at_hand ≡ Some stripe }
        ensures size { result ≡ 16 * stripe_symbols (bench_object self.old.bench) }
    {
        self.bench.take_stripe(piece, 0);
        self.at_hand = Some(stripe);
        self.size()
    }

    /// How many bytes a stripe has.
    fn size(&self) -> usize
        ensures { result ≡ 16 * stripe_symbols (bench_object self.now.bench) }
    {
        let file = self.bench.keys.file;
        16 * (usize::from(file.shape.l) * file.profile.keep as usize)
    }
}

impl Desk {
    /// Takes in a stream. Its bench is that of the largest file, since its length is not known.
    fn begin_stream(&mut self, name: &[u8], profile: Option<u8>) -> Result<u32, BeginFault>
        requires { self.old.core.next_job < 2 ^ 32 - 1 }
        ensures machine { (w : State) (d : Devices) (moment : ℕ) (bytes : List ℕ) → DeskStands self.old d w
            → AreBytes bytes → length bytes ≤ largest_file
            → DeskMakesBegin w moment (PutJob name.now bytes) profile result self.new d }
        ensures opens { OpensStream self.old self.new result }
    {
        let name = self.checked_name(name)?;
        if is_unknown(profile) {
            return Err(BeginFault::BadProfile);
        }
        let chosen = profile_of_put(profile, &self.setup);
        let bench = self.bench_for(0, LARGEST_FILE, chosen)?;
        let task = StreamTask {
            bench,
            at_hand: None,
        };
        self.admit_stream(name, profile, task)
    }

    /// Whether a stream that waits for this stripe may be given so many bytes.
    fn may_give(&self, job: u32, stripe: u32, count: usize, last: bool) -> bool
        requires wants { wants_in self.now.core job ≡ Some stripe }
        requires at_work { IsAtWork self.now }
        ensures yes { result ≡ true
            → IsPiece (stripe_by self.now.core.setup (job_in self.now.core.jobs job)) (Some stripe) count last }
        ensures no { result ≡ false
            → IsPiece (stripe_by self.now.core.setup (job_in self.now.core.jobs job)) (Some stripe) count last
            → ⊥ }
    {
        let place = self.place_of(job);
        let size = self.jobs[place].task.piece_size();
        is_piece(stripe, size, count, last)
    }

    /// Gives a stream that waits for a stripe its next piece: the core is told how long its file is with it.
    fn give(&mut self, job: u32, piece: &[u8], last: bool)
        requires wants { is_some (wants_in self.old.core job) ≡ true }
        requires piece { IsPiece (stripe_by self.old.core.setup (job_in self.old.core.jobs job))
            (wants_in self.old.core job) (length piece.now) last }
        requires at_work { IsAtWork self.old }
        ensures stands { (w : State) (d : Devices) → DeskStands self.old d w
            → FitsPiece (stripe_by self.old.core.setup (job_in self.old.core.jobs job))
            (wants_in self.old.core job) piece.now last (job_of w.jobs job)
            → DeskStands self.new d w }
        ensures at_work { IsAtWork self.new }
        ensures takes { TakesNext self.old.core job last self.new.core }
    {
        let Some(stripe) = self.core.wants(job) else {
            unreachable!()
        };
        bytes_are_bytes(piece);
        let place = self.place_of(job);
        let size = self.jobs[place].task.take(piece, stripe);
        let length = length_with(stripe, size, piece.len());
        self.core.given(job, length, last);
    }

    /// Ends a stream that waits for a stripe.
    fn abandon(&mut self, job: u32)
        requires wants { is_some (wants_in self.old.core job) ≡ true }
        requires at_work { IsAtWork self.old }
        ensures stands { (w : State) (d : Devices) (j : Job) → DeskStands self.old d w
            → job_of w.jobs job ≡ Some j → DeskStands self.new d (ended w j) }
        ensures at_work { IsAtWork self.new }
    {
        let place = self.place_of(job);
        self.core.abandon(job);
        let running = self.jobs.remove(place);
        drop(running);
    }
}

impl Vault {
    /// How many bytes a stripe of a put has: at the profile that it names, or else at the setup's. Condition:
    /// there is a profile of this number.
    pub fn stripe_size(&self, profile: Option<u8>) -> usize
        requires { is_unknown profile ≡ false }
        ensures { result ≡ stripe_size (with_master (vault_setup self.now) (master_of self.now))
            (chosen (with_master (vault_setup self.now) (master_of self.now)) profile) }
    {
        let keep = profile_at(profile_of_put(profile, &self.desk.setup)).keep;
        16 * (usize::from(self.desk.setup.l) * keep as usize)
    }

    /// Begins to put a file that is given stripe by stripe, of a profile of its own where it names one. It is
    /// refused as `begin_put` is, but never for its length. One stripe's symbols and blocks are reserved: no
    /// step of it takes memory.
    pub fn begin_stream(&mut self, name: &[u8], profile: Option<u8>) -> Result<u32, BeginFault>
        requires { next_job_of self.old < 2 ^ 32 - 1 }
        ensures machine { (w : State) (d : Devices) (moment : ℕ) (bytes : List ℕ) → Stands self.old d w
            → AreBytes bytes → length bytes ≤ largest_file
            → MakesBegin w moment (PutJob name.now bytes) profile result self.new d }
        ensures unchanged { OnErr result (IsUnchanged self.old self.new) }
        ensures open { IfOk result (λ job. told_of self.new job ≡ Some 0) }
        ensures busy { is_some (held_by self.old) ≡ true → result ≡ Err fault.Busy }
    {
        self.unheld()?;
        self.desk.begin_stream(name, profile)
    }

    /// The stripe that a stream waits for: its first append is done, its last piece was not given, and each
    /// stripe given so far is stored. None for every other job, and where no such job runs.
    pub fn wants(&self, job: u32) -> Option<u32>
        ensures { result ≡ wants_of self.now job }
    {
        self.desk.core.wants(job)
    }

    /// Whether a stream waits for a stripe and may be given so many bytes next: a whole stripe, or its last
    /// ones. Where not, that piece may not be given to the job.
    pub fn may_give(&self, job: u32, count: usize, last: bool) -> bool
        ensures wants { result ≡ true → is_some (wants_of self.now job) ≡ true }
        ensures piece { result ≡ true
            → IsPiece (stripe_of self.now job) (wants_of self.now job) count last }
        ensures refused { result ≡ false
            → IsPiece (stripe_of self.now job) (wants_of self.now job) count last → ⊥ }
    {
        match self.desk.core.wants(job) {
            Some(stripe) => self.desk.may_give(job, stripe, count, last),
            None => false,
        }
    }

    /// Gives a stream its next stripe, or its last bytes: at most a stripe, and none perhaps, which make no
    /// stripe. It takes no memory. Conditions: the stream waits for a stripe, and the file has at most 2^22
    /// bytes with these.
    pub fn give(&mut self, job: u32, bytes: &[u8], last: bool)
        requires wants { is_some (wants_of self.old job) ≡ true }
        requires piece { IsPiece (stripe_of self.old job) (wants_of self.old job) (length bytes.now) last }
        ensures stands { (w : State) (d : Devices) → Stands self.old d w
            → FitsPiece (stripe_of self.old job) (wants_of self.old job) bytes.now last (job_of w.jobs job)
            → Stands self.new d w }
        ensures more { (stripe : ℕ) → wants_of self.old job ≡ Some stripe → last ≡ false
            → told_of self.new job ≡ Some (stripe + 1) }
        ensures closed { last ≡ true → told_of self.new job ≡ None }
        ensures wants { wants_of self.new job ≡ None }
        ensures left { left_of self.new job ≤ left_of self.old job }
    {
        self.desk.give(job, bytes, last);
    }

    /// Ends a stream. What it has brought into effect, and the blocks that it has stored, stay under a number
    /// that is never used again. Condition: the stream waits for a stripe.
    pub fn abandon(&mut self, job: u32)
        requires { is_some (wants_of self.old job) ≡ true }
        ensures { (w : State) (d : Devices) (j : Job) → Stands self.old d w → job_of w.jobs job ≡ Some j
            → Stands self.new d (ended w j) }
    {
        self.desk.abandon(job);
    }
}
