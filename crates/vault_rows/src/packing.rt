ghost use Rattle.vault.specs.Packing.{IsPackOf};

use crate::deeds::Deed::{self, Begins, DiskHas, Holds, Packs, PacksOver, Reopens, Runs, Texts};
use crate::deeds::{FOUR, first_wrong};
use crate::job::Job;
use crate::store::{Seen, Text, opened_on};
use disk_model::{Disk, MemDisk};
use std::alloc::Global;
use vault::{BeginFault, PackAnswer, PackJob, PackTurn, Vault};

/// What a pack came to.
#[derive(Clone, Copy, PartialEq, Eq)]
pub enum SeenPack {
    Refused(BeginFault),
    More,
    /// It is packed: the lengths of the text before and after.
    Packed(u64, u64),
    Fault,
}

/// How a pack ended.
fn seen_pack(answer: &PackAnswer) -> SeenPack {
    match answer {
        PackAnswer::Packed { before, after } => SeenPack::Packed(*before, *after),
        PackAnswer::DiskFault | PackAnswer::Memory => SeenPack::Fault,
    }
}

/// Makes at most so many steps of a pack.
fn run_pack<D: Disk>(vault: &mut Vault, begun: PackJob, disk: &mut D, steps: u32) -> SeenPack
    requires { IsPackOf vault.old begun }
{
    let mut job = begun;
    for _ in 0..steps {
        match vault.step_pack(job, disk) {
            PackTurn::More(next) => job = next,
            PackTurn::Done(answer) => return seen_pack(&answer),
        }
    }
    SeenPack::More
}

/// Begins a pack, and makes at most so many steps of it.
pub fn pack_by<D: Disk>(vault: &mut Vault, disk: &mut D, steps: u32) -> SeenPack {
    if vault.next_job() == u32::MAX {
        return SeenPack::Refused(BeginFault::Memory);
    }
    match vault.begin_pack() {
        Ok(job) => run_pack(vault, job, disk, steps),
        Err(why) => SeenPack::Refused(why),
    }
}

/// What two packs come to, one behind the other.
fn two_packs<D: Disk>(vault: &mut Vault, disk: &mut D) -> (SeenPack, SeenPack) {
    let first = pack_by(vault, disk, 5);
    (first, pack_by(vault, disk, 5))
}

/// The same over a disk that reads these bytes and fails at a call.
pub fn packs_over(alloc: Global, bytes: &[u8], call: u64) -> Option<(SeenPack, SeenPack)> {
    let mut disk = MemDisk::new(alloc, bytes, &[call]).ok()?;
    let mut vault = opened_on(alloc, &mut disk)?;
    Some(two_packs(&mut vault, &mut disk))
}

/// Where the second area begins.
const SECOND: usize = 8_388_608;

/// A journal of 9 bytes, a setup of 42, a version of 3 and two puts of one name, of 27 each. Its pack has the
/// setup, the version, the next numbers of 18 and one file of 17: with a closed gate 81 bytes in the second
/// area, behind which a put goes on. The next pack goes back into the first, where 9 bytes are not records.
const PACKED: &[Deed] = &[
    Begins(Job::Upgrade, Ok(1)),
    Runs(1, 5, Seen::Upgraded),
    Begins(Job::Put(b"a", b"old"), Ok(2)),
    Runs(2, 13, Seen::Put),
    Begins(Job::Put(b"a", b"new"), Ok(3)),
    Runs(3, 17, Seen::Put),
    Texts(9 + 42 + 3 + 2 * 27),
    DiskHas(9 + 42 + 3 + 2 * 27),
    Packs(5, SeenPack::Packed(108, 81)),
    Texts(81),
    DiskHas(SECOND + 81),
    Begins(Job::Get(b"a"), Ok(5)),
    Runs(5, 6, Seen::Got(Text::New)),
    Begins(Job::Put(b"b", b"old"), Ok(6)),
    Runs(6, 13, Seen::Put),
    Texts(81 + 27),
    DiskHas(SECOND + 81 + 27),
    Reopens(&[]),
    Texts(81 + 27),
    Begins(Job::Get(b"a"), Ok(1)),
    Runs(1, 6, Seen::Got(Text::New)),
    Begins(Job::Get(b"b"), Ok(2)),
    Runs(2, 6, Seen::Got(Text::Old)),
    Packs(5, SeenPack::Packed(108, 9 + 42 + 3 + 18 + 2 * 17)),
    DiskHas(SECOND + 81 + 27),
    Reopens(&[]),
    Texts(9 + 42 + 3 + 18 + 2 * 17),
    Begins(Job::Get(b"b"), Ok(1)),
    Runs(1, 6, Seen::Got(Text::Old)),
];

#[test]
fn a_pack_goes_into_the_other_area_and_back(rt: HostRuntime) {
    assert_eq!(rt; first_wrong(rt.alloc(), &FOUR, PACKED), None);
}

/// A pack is refused before the second version, and beside a job; while it is under way nothing else begins.
/// Where the disk stops before its switch byte is written, the old text is the journal.
const HALF: &[Deed] = &[
    Packs(5, SeenPack::Refused(BeginFault::OldVersion)),
    Begins(Job::Upgrade, Ok(1)),
    Packs(5, SeenPack::Refused(BeginFault::Busy)),
    Runs(1, 5, Seen::Upgraded),
    Holds(Ok(2)),
    Packs(5, SeenPack::Refused(BeginFault::Busy)),
    Reopens(&[]),
    Packs(2, SeenPack::More),
    Packs(2, SeenPack::Refused(BeginFault::Busy)),
    Begins(Job::Put(b"a", b"old"), Err(BeginFault::Busy)),
    Holds(Err(BeginFault::Busy)),
    Reopens(&[]),
    Texts(9 + 42 + 3),
    Packs(4, SeenPack::More),
    Texts(42 + 3 + 18 + 1),
    Reopens(&[]),
    Texts(42 + 3 + 18 + 1),
    Begins(Job::Put(b"a", b"old"), Ok(1)),
    Runs(1, 13, Seen::Put),
];

#[test]
fn a_pack_runs_alone(rt: HostRuntime) {
    assert_eq!(rt; first_wrong(rt.alloc(), &FOUR, HALF), None);
}

/// A pack that is cut: before the switch byte is written the text stays where it was; then the byte is loose,
/// and the pick chooses the area; behind the fourth move it is firm.
const CUT: &[Deed] = &[
    Begins(Job::Upgrade, Ok(1)),
    Runs(1, 5, Seen::Upgraded),
    Packs(0, SeenPack::More),
    Reopens(&[]),
    Packs(1, SeenPack::More),
    Reopens(b"2222"),
    Packs(2, SeenPack::More),
    Reopens(b"2"),
    Texts(9 + 42 + 3),
    Packs(3, SeenPack::More),
    Reopens(b"1"),
    Texts(9 + 42 + 3),
    Packs(3, SeenPack::More),
    Reopens(b"2"),
    Texts(42 + 3 + 18 + 1),
    Packs(3, SeenPack::More),
    Reopens(b"2"),
    Texts(42 + 3 + 18 + 1),
    Packs(3, SeenPack::More),
    Reopens(&[0]),
    Texts(9 + 42 + 3 + 18),
    Packs(4, SeenPack::More),
    Reopens(b"1"),
    Texts(42 + 3 + 18 + 1),
];

#[test]
fn a_cut_pack_leaves_one_of_two_areas(rt: HostRuntime) {
    assert_eq!(rt; first_wrong(rt.alloc(), &FOUR, CUT), None);
}

/// Why a pack is refused behind a fault of the disk.
const REFUSED: SeenPack = SeenPack::Refused(BeginFault::MustReopen);

/// The calls of the disk are three of the opening and four of each pack.
const BARRED: &[Deed] = &[
    Begins(Job::Upgrade, Ok(1)),
    Runs(1, 5, Seen::Upgraded),
    PacksOver(3, SeenPack::Fault, REFUSED),
    PacksOver(4, SeenPack::Fault, REFUSED),
    PacksOver(5, SeenPack::Fault, REFUSED),
    PacksOver(6, SeenPack::Fault, REFUSED),
    PacksOver(7, SeenPack::Packed(54, 64), SeenPack::Fault),
    PacksOver(11, SeenPack::Packed(54, 64), SeenPack::Packed(64, 72)),
];

#[test]
fn a_pack_whose_disk_failed_bars_the_vault(rt: HostRuntime) {
    assert_eq!(rt; first_wrong(rt.alloc(), &FOUR, BARRED), None);
}
