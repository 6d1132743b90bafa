//! How a job is made.
ghost use Rattle.std.specs.Prelude.{◌≡◌, ◌<◌, ◌≤◌, ◌+◌, ◌*◌, ◌^◌, ◌++◌, ℕ, List, [], ◌∷◌, true, false, length, map, sum_by, Option, Some, None, IfOk, IfSome, IfNone, OnOk, IsTrue, nat_lt};
ghost use Rattle.std.specs.Option.{option_map};
ghost use Rattle.std.specs.List.{insert};
ghost use Rattle.record_codec.specs.Entries.{with_master, IsPadded};
ghost use Rattle.code_defs.specs.Profiles.{profile_of};
ghost use Rattle.record_defs.specs.Records.{all_profiles};
ghost use Rattle.record_defs.specs.Table.{files_of};
ghost use Rattle.machine_defs.specs.Begins.{pin_all, pin_by, pin_found, pin_each, due_number, due_flags, chosen};
ghost use Rattle.machine_defs.specs.States.{State};
ghost use Rattle.vault_table.specs.Values.{file_of_entry, due_of_pair};
ghost use Rattle.vault_core.specs.declared.pinned.Pinned.{Pinned as PinnedFile};
ghost use Rattle.vault_core.specs.declared.job.Task.{Task as TaskData};
ghost use Rattle.vault_core.specs.Carried.{CoreIs, pin_of};
ghost use Rattle.vault_core.specs.View.{core_pins, flag_at};
ghost use Rattle.vault_core.specs.Targets.{targets_of, stripes_in, turns_for, tasks_made};
ghost use Rattle.vault_core.specs.Rest.{rewrites_from};
ghost use Rattle.vault_core.specs.Parts.{IsJobKept, is_rewriter};
ghost use Rattle.vault_core.specs.Wished.{HasName, IsShort, file_named, profile_named};
ghost use Rattle.vault_core.specs.Making.{pin_of_file, pins_for, size_of_turn, other_actions, most_at, appends_for, cursor_on, cursor_first, IsMade};

use crate::cursor::{Cursor, Move, Spot};
use crate::job::{Job, Task};
use crate::own::Core;
use crate::pinned::Pinned;
use crate::wish::Wish;
use code_defs::PROFILES;
use code_points::{Profile, find_profile};
use record_codec::{Counts, Setup};
use std::alloc::Global;
use stream_model::Memory;
use vault_table::{Entry, Table};

/// The profile of a number; the last one of a greater number.
fn profile_at(number: u8) -> Profile
    ensures { result.keep ≡ (profile_of number).keep }
{
    match find_profile(number.min(PROFILES - 1)) {
        Some(profile) => profile,
        None => unreachable!(),
    }
}

/// How many stripes a file has.
pub fn stripes(setup: &Setup, file: &Pinned) -> u32
    requires primary { 1 ≤ setup.now.l }
    ensures { (key : List ℕ) → result ≡ stripes_in (with_master setup.now key) file.now }
{
    let profile = profile_at(file.profile);
    let stripe = 16 * (u64::from(setup.l) * u64::from(profile.keep));
    ((u64::from(file.length) + (stripe - 1)) / stripe) as u32
}

/// The first place of a file with a larger object number.
fn place_of(pinned: &[Pinned], id: u64) -> usize
    ensures within { result ≤ length pinned.now }
    ensures place { (file : PinnedFile) → file.id ≡ id
        → insert pinned.now result file ≡ pin_by core_pins file pinned.now }
{
    for place in 0..pinned.len() {
        if id < pinned[place].id {
            return place;
        }
    }
    pinned.len()
}

/// Puts a file among others, in ascending order of their object numbers.
fn pin(pinned: &mut Vec<Pinned>, file: Pinned) -> Result<(), Memory>
    ensures { OnOk result (pinned.new.items ≡ pin_by core_pins file pinned.old.items) }
{
    let place = place_of(pinned, file.id);
    match pinned.insert(place, file) {
        Ok(()) => Ok(()),
        Err(_) => Err(Memory),
    }
}

/// What is pinned of a file.
fn pinned_entry(file: &Entry) -> Pinned
    ensures { result ≡ pin_of_file (file_of_entry file.now) }
{
    Pinned {
        id: file.id,
        length: file.length,
        profile: file.profile,
    }
}

/// The file in effect under the name of a get.
fn pin_one(alloc: Global, file: Option<Entry>) -> Result<Vec<Pinned>, Memory>
    ensures { IfOk result (λ pinned. pinned.items ≡ pin_found pin_of_file (option_map file_of_entry file)) }
{
    let mut pinned = Vec::with_capacity(alloc, 1)?;
    if let Some(file) = file {
        pinned.push(pinned_entry(&file))?;
    }
    Ok(pinned)
}

/// All files in effect.
fn pin_all(alloc: Global, table: &Table) -> Result<Vec<Pinned>, Memory>
    ensures { IfOk result (λ pinned. pinned.items ≡ pin_each core_pins pin_of_file table.now.files) }
{
    let mut place = table.count();
    let mut pinned = Vec::with_capacity(alloc, place)?;
    while place > 0 {
        place -= 1;
        match table.at(place) {
            Some(file) => pin(&mut pinned, pinned_entry(&file))?,
            None => unreachable!(),
        }
    }
    Ok(pinned)
}

impl Core {
    /// All files in effect, in ascending order of their object numbers.
    pub fn all_pinned(&self, alloc: Global) -> Result<Vec<Pinned>, Memory>
        ensures { (w : State) → CoreIs self.now w
            → IfOk result (λ pinned. pinned.items ≡ map pin_of (pin_all w (files_of w.records))) }
    {
        pin_all(alloc, &self.table)
    }
}

/// The files that a job works on.
fn pinned_for(
    alloc: Global,
    table: &Table,
    wish: &Wish,
    file: Option<Entry>,
) -> Result<Vec<Pinned>, Memory>
    requires { option_map file_of_entry file ≡ file_named table.now wish.now }
    ensures { IfOk result (λ pinned. pinned.items ≡ pins_for table.now wish.now) }
{
    match wish {
        Wish::Get { .. } => pin_one(alloc, file),
        Wish::Audit | Wish::Repair => pin_all(alloc, table),
        _ => Ok(Vec::new(alloc)),
    }
}

/// How often a job of this wish works on a file: at each stripe, or in each round where there is a stripe.
fn turns(setup: &Setup, wish: &Wish, file: &Pinned) -> u32
    requires primary { 1 ≤ setup.now.l }
    ensures { (key : List ℕ) → result ≡ turns_for (with_master setup.now key) wish.now file.now }
{
    let stripes = stripes(setup, file);
    match wish {
        Wish::Audit => if stripes == 0 { 0 } else { setup.rounds as u32 },
        _ => stripes,
    }
}

/// Adds the task of a file, if there is something to do.
fn add_task(tasks: &mut Vec<Task>, setup: &Setup, wish: &Wish, file: &Pinned) -> Result<(), Memory>
    requires primary { 1 ≤ setup.now.l }
    ensures { (key : List ℕ) → OnOk result (tasks.new.items ≡ tasks.old.items ++ tasks_made
        (turns_for (with_master setup.now key) wish.now) (file.now ∷ [])) }
{
    let turns = turns(setup, wish, file);
    if turns > 0 {
        tasks.push(Task {
            object: file.id,
            turns,
        })?;
    }
    Ok(())
}

/// The tasks of files.
fn tasks_for(
    alloc: Global,
    setup: &Setup,
    wish: &Wish,
    files: &[Pinned],
) -> Result<Vec<Task>, Memory>
    requires primary { 1 ≤ setup.now.l }
    ensures { (key : List ℕ) → IfOk result (λ tasks. tasks.items ≡ tasks_made
        (turns_for (with_master setup.now key) wish.now) files.now) }
{
    let mut tasks = Vec::with_capacity(alloc, files.len())?;
    for file in files {
        add_task(&mut tasks, setup, wish, file)?;
    }
    Ok(tasks)
}

/// The profile of a new job: the one that a put names, or else the setup's.
fn profile_for(setup: &Setup, wish: &Wish) -> u8
    ensures { (key : List ℕ) → result ≡ chosen (with_master setup.now key) (profile_named wish.now) }
{
    match wish {
        Wish::Put {
            profile: Some(profile),
            ..
        } => *profile,
        _ => setup.profile,
    }
}

/// The tasks of a new job: of a put its own file, whose object number is not yet drawn.
fn tasks_of(
    alloc: Global,
    setup: &Setup,
    wish: &Wish,
    profile: u8,
    pinned: &[Pinned],
) -> Result<Vec<Task>, Memory>
    requires primary { 1 ≤ setup.now.l }
    ensures { (key : List ℕ) → IfOk result (λ tasks. tasks.items ≡ tasks_made
        (turns_for (with_master setup.now key) wish.now)
        (targets_of wish.now profile 0 pinned.now)) }
{
    match wish {
        Wish::Put { length, .. } => {
            let own = [Pinned {
                id: 0,
                length: *length,
                profile,
            }];
            tasks_for(alloc, setup, wish, &own)
        }
        _ => tasks_for(alloc, setup, wish, pinned),
    }
}

/// The providers whose counts are above the tolerance.
fn flags_of(counts: &Counts, tolerance: u16) -> [bool; 16]
    requires { IsPadded counts.now }
    ensures flags { (j : ℕ) → flag_at result j ≡ due_flags tolerance
        (Some (due_of_pair (record { 0 = 0; 1 = counts.now }))) j }
    ensures long { length result ≡ 16 }
{
    let mut flagged = [false; 16];
    for j in 0..16 {
        flagged[j] = counts.by[j] > tolerance as u32;
    }
    flagged
}

/// The providers that a due audit flags.
fn flags(due: &Option<(u64, Counts)>, tolerance: u16) -> [bool; 16]
    requires { IfSome due.now (λ x. IsPadded x.1) }
    ensures flags { (j : ℕ) → flag_at result j ≡ due_flags tolerance (option_map due_of_pair due.now) j }
    ensures long { length result ≡ 16 }
{
    match due {
        Some((_, counts)) => flags_of(counts, tolerance),
        None => [false; 16],
    }
}

/// How many of so many providers are flagged.
fn count_flagged(flagged: &[bool; 16], providers: u8) -> u64
    requires { providers ≤ 16 }
    ensures count { result ≡ length (rewrites_from 0 providers flagged.now 0 0) }
    ensures bound { result ≤ providers }
{
    let mut count = 0;
    for j in 0..providers as usize {
        if flagged[j] {
            count += 1;
        }
    }
    count
}

/// How many actions a job has at each stripe or round.
fn turn_size(wish: &Wish, flagged: &[bool; 16], providers: u8) -> u64
    requires { providers ≤ 16 }
    ensures size { result ≡ size_of_turn providers wish.now flagged.now }
    ensures bound { result ≤ 33 }
{
    let calls = providers as u64;
    match wish {
        Wish::Get { .. } => calls + 1,
        Wish::Repair => calls + 1 + count_flagged(flagged, providers),
        _ => calls,
    }
}

/// How many actions a job has on its files; none exactly where a number can't hold it.
fn count_turns(tasks: &[Task], size: u64) -> Option<u64>
    requires { size ≤ 33 }
    ensures count { IfSome result (λ count. count ≡ sum_by (λ (t : TaskData). t.turns * size) tasks.now) }
    ensures none { IfNone result (2 ^ 64 ≤ sum_by (λ (t : TaskData). t.turns * size) tasks.now) }
{
    let mut count = 0u64;
    for task in tasks {
        count = count.checked_add(u64::from(task.turns) * size)?;
    }
    Some(count)
}

/// How many actions a job may have at most besides those on its files.
fn other_size(wish: &Wish, providers: u8) -> u64
    ensures { result ≡ other_actions providers wish.now }
{
    match wish {
        Wish::Put { .. } => 9 + providers as u64,
        Wish::Get { .. } => 1,
        Wish::Drop { .. } => 5 + providers as u64,
        Wish::Audit => 9,
        Wish::Repair | Wish::Upgrade => 5,
    }
}

/// A sum; none exactly where a number can't hold it.
fn add_other(on_files: u64, others: u64) -> Option<u64>
    ensures sum { IfSome result (λ most. most ≡ on_files + others) }
    ensures none { IfNone result (2 ^ 64 ≤ on_files + others) }
{
    on_files.checked_add(others)
}

/// How many actions a job may have at most; none exactly where a number can't hold it.
fn most_actions(wish: &Wish, tasks: &[Task], flagged: &[bool; 16], providers: u8) -> Option<u64>
    requires { providers ≤ 16 }
    ensures most { IfSome result (λ most. most ≡ most_at providers wish.now flagged.now tasks.now) }
    ensures none { IfNone result (2 ^ 64 ≤ most_at providers wish.now flagged.now tasks.now) }
{
    let size = turn_size(wish, flagged, providers);
    match count_turns(tasks, size) {
        Some(on_files) => add_other(on_files, other_size(wish, providers)),
        None => None,
    }
}

/// The number of a new job as a repair; 0 for any other.
fn subject(wish: &Wish, due: &Option<(u64, Counts)>) -> u64
    ensures repair { is_rewriter wish.now ≡ true → result ≡ due_number (option_map due_of_pair due.now) }
    ensures other { is_rewriter wish.now ≡ false → result ≡ 0 }
{
    match (wish, due) {
        (Wish::Repair, Some((number, _))) => *number,
        _ => 0,
    }
}

/// How many appends a job of this wish has.
fn appends(wish: &Wish) -> u8
    ensures { result ≡ appends_for wish.now }
{
    match wish {
        Wish::Put { .. } | Wish::Audit => 2,
        Wish::Get { .. } => 0,
        Wish::Drop { .. } | Wish::Repair | Wish::Upgrade => 1,
    }
}

/// The cursor at the first task, or at what is behind all tasks.
fn cursor_on(closing: Cursor, tasks: &[Task]) -> Cursor
    ensures { result ≡ cursor_on closing tasks.now }
{
    match tasks.first() {
        Some(task) => Cursor::Calling {
            spot: Spot {
                object: task.object,
                turn: 0,
                turns: task.turns,
                behind: 1,
            },
            provider: 0,
        },
        None => closing,
    }
}

/// The cursor at which a job of this wish begins, with these tasks.
fn first_cursor(wish: &Wish, tasks: &[Task]) -> Cursor
    ensures { result ≡ cursor_first wish.now tasks.now }
{
    match wish {
        Wish::Get { .. } => cursor_on(Cursor::Ending, tasks),
        Wish::Repair => cursor_on(Cursor::Closing { at: Move::Body }, tasks),
        Wish::Upgrade => Cursor::Closing { at: Move::Body },
        _ => Cursor::Opening { at: Move::Body },
    }
}

/// A job as it begins.
pub fn make_job(
    alloc: Global,
    table: &Table,
    setup: &Setup,
    wish: Wish,
    file: Option<Entry>,
    told: Option<u32>,
    number: u32,
) -> Result<Job, Memory>
    requires primary { 1 ≤ setup.now.l }
    requires some { 4 ≤ setup.now.n }
    requires few { setup.now.n ≤ 16 }
    requires file { option_map file_of_entry file ≡ file_named table.now wish }
    requires named { HasName wish }
    requires short { IsShort wish }
    requires known { (key : List ℕ)
        → IsTrue (nat_lt (chosen (with_master setup.now key) (profile_named wish)) all_profiles) }
    ensures made { (key : List ℕ) → IfOk result (λ job. IsMade table.now (with_master setup.now key) number
        wish job) }
    ensures kept { (key : List ℕ) → IfOk result (λ job. IsJobKept (with_master setup.now key) job) }
    ensures told { IfOk result (λ job. job.told ≡ told) }
{
    let due = table.due();
    let flagged = flags(&due, setup.tolerance);
    let pinned = pinned_for(alloc, table, &wish, file)?;
    let profile = profile_for(setup, &wish);
    let tasks = tasks_of(alloc, setup, &wish, profile, &pinned)?;
    let Some(left) = most_actions(&wish, &tasks, &flagged, setup.n) else {
        return Err(Memory);
    };
    let cursor = first_cursor(&wish, &tasks);
    Ok(Job {
        number,
        wish,
        profile,
        pinned,
        tasks,
        flagged,
        subject: subject(&wish, &due),
        older: None,
        cursor,
        appends: appends(&wish),
        place: 0,
        left,
        undecided: 0,
        counts: Counts {
            n: setup.n,
            by: [0; 16],
        },
        told,
    })
}
