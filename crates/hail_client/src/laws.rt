//! What holds of every client, and of the runs that its calls make.
ghost use Rattle.std.specs.Prelude.{◌≡◌, ◌≤◌, ℕ, List, [], ◌∷◌, Some, None, IsTrue, codes, length};
ghost use Rattle.device_defs.specs.Cells.{Cells};
ghost use Rattle.device_defs.specs.Images.{EachImage};
ghost use Rattle.record_codec.specs.Entries.{with_master};
ghost use Rattle.record_defs.specs.Records.{Record, is_master};
ghost use Rattle.record_defs.specs.Table.{File};
ghost use Rattle.record_defs.specs.Areas.{A, B, text_length};
ghost use Rattle.record_defs.specs.Packed.{packed};
ghost use Rattle.journal_pack.specs.Packs.{moves_of, WritesText};
ghost use Rattle.machine_defs.specs.Events.{Event, Init, BeginScrub, BeginPack, Begun, Outcome, IsSpelled};
ghost use Rattle.machine_defs.specs.Alone.{new_scrub};
ghost use Rattle.machine_defs.specs.Machine.{Happens};
ghost use Rattle.hail_scrub.specs.Stands.{ScrubStands};
ghost use Rattle.vault.specs.declared.packing.PackJob.{PackJob};
ghost use Rattle.vault.specs.declared.vault.Vault.{Vault};
ghost use Rattle.vault.specs.Packing.{pack_number, IsPackOf};
ghost use Rattle.vault.specs.Stands.{StandsBeside};
ghost use Rattle.machine_defs.specs.Runs.{Moment, now};
ghost use Rattle.machine_defs.specs.Halves.{AllTell};
ghost use Rattle.machine_defs.specs.Stands.{IsFresh, StandsForState};
ghost use Rattle.machine_defs.specs.States.{State, IsStart, AreFirst};
ghost use Rattle.machine_defs.specs.Survival.{IsKept};
ghost use Rattle.state_laws.specs.Sound.{IsSound};
ghost use Rattle.vault_open.specs.Devices.{Devices, devices, AreDevices};
ghost use Rattle.hail_client.specs.declared.alone.Alone.TheVariants as alone;
ghost use Rattle.hail_client.specs.declared.client.Client.{Client};
ghost use Rattle.hail_client.specs.Client.{client_next_job, uses};
ghost use Rattle.hail_client.specs.Examples.{closed_client, fresh, hidden, stored_devices, stored_state, stored_open, stored_scrub, scrubbed_state, notes, raised_records, raised_devices, raised_open, packing_state};
ghost use Rattle.hail_client.specs.Start.{start_of, TellAll};
ghost use Rattle.hail_client.specs.Stands.{ClientStands, MakesEvent, IsReached, ImageHasFile, moment_of};

use key_schedule::Master;
use record_codec::Setup;

/// The devices of a client are those of each state that it stands for, which is sound; no more providers are
/// used than are handed in, and the numbers of jobs are the same.
pub fn what_a_client_stands_for()
    ensures devices { (c : Client) (d : Devices) (w : State) → ClientStands c d w → AreDevices d w }
    ensures sound { (c : Client) (d : Devices) (w : State) → ClientStands c d w → IsSound 8 w }
    ensures enough { (c : Client) (d : Devices) (w : State) → ClientStands c d w
        → uses c ≤ length d.providers }
    ensures next_job { (c : Client) (d : Devices) (w : State) → ClientStands c d w
        → w.next_job ≡ client_next_job c }
{}

/// A key is one of the grammar.
fn key_is_spelled(key: &[u8])
    requires { length key.now ≡ 32 }
    ensures { IsTrue (is_master key.now) }
{}

/// The numbers of a setup and its key fit their types: an init with them is an event that a schedule can have.
pub fn setups_are_spelled(setup: Setup, master: &Master)
    ensures { IsSpelled (Init (with_master setup master.now.0)) }
{
    let Setup {
        n: _,
        l: _,
        b: _,
        profile: _,
        rounds: _,
        picks: _,
        tolerance: _,
    } = setup;
    key_is_spelled(&master.0);
}

/// Each image of the disk of a client stands for records that have every file which is kept: in effect, also
/// with the record in doubt added.
pub fn images_have_the_files()
    ensures { (c : Client) (d : Devices) (w : State) (name : List ℕ) (file : File) → ClientStands c d w
        → IsKept w name file →
        EachImage d.holds (ImageHasFile name file) }
{}

/// So does each image of devices that are those of a sound state, whoever called them.
pub fn images_of_devices()
    ensures { (d : Devices) (w : State) (name : List ℕ) (file : File) → AreDevices d w → IsSound 8 w
        → IsKept w name file → EachImage d.holds (ImageHasFile name file) }
{}

/// A disk before its first use stands for each state whose journal, in the first area, is of the records that
/// it reads.
pub fn fresh_disks_stand()
    ensures { (cells : Cells) (rs : List Record) (w : State) → IsFresh cells rs → w.journal ≡ rs
        → w.area ≡ A → StandsForState (Some cells) w }
{}

/// So there is a state before the first event for every disk that tells, before its first use, and for all
/// providers; for a disk that tells nothing there is one over each list of first records.
pub fn there_is_a_start()
    ensures start { (d : Devices) (cells : Cells) (rs : List Record) → d.holds ≡ Some cells
        → IsFresh cells rs → IsStart (start_of d rs) }
    ensures devices { (d : Devices) (cells : Cells) (rs : List Record) → d.holds ≡ Some cells
        → IsFresh cells rs → AreDevices d (start_of d rs) }
    ensures untold { (d : Devices) (rs : List Record) → d.holds ≡ None → AreFirst rs
        → IsStart (start_of d rs) × AreDevices d (start_of d rs) }
{}

/// A client that stands for a state has made the run of no event from there, and a run goes on by each call
/// that is an event.
pub fn runs_go_on()
    ensures starts { (start : State) (c : Client) (d : Devices) → ClientStands c d start
        → IsReached start [] c d }
    ensures goes_on { (start : State) (ms : List Moment) (c next : Client) (old new : Devices)
        (event : Event) (outcome : Outcome)
        → IsReached start ms c old → (m : MakesEvent (now start ms) (length ms) event outcome next new)
        → IsReached start (moment_of m ∷ ms) next new }
{}

/// Where every provider that is handed in tells what it holds, so does every provider of the state before the
/// first event.
pub fn told_providers_tell()
    ensures { (d : Devices) (rs : List Record) → TellAll d.providers → AllTell (start_of d rs) }
{}

/// A client with no vault open over a disk that reads nothing and four providers that hold nothing: there is
/// a start, all its providers tell, the client stands for it, and its list of files is a run of one moment.
/// The same over devices of no known state.
pub fn a_fresh_disk_has_a_start()
    ensures fresh { IsFresh [] [] × (fresh.holds ≡ Some []) }
    ensures start { IsStart (start_of fresh []) × AreDevices fresh (start_of fresh []) }
    ensures tell { TellAll fresh.providers × AllTell (start_of fresh []) }
    ensures stands { ClientStands closed_client fresh (start_of fresh []) }
    ensures run { (m : Moment) × IsReached (start_of fresh []) (m ∷ []) closed_client fresh }
    ensures hidden { IsStart (start_of hidden []) × AreDevices hidden (start_of hidden [])
        × ClientStands closed_client hidden (start_of hidden []) }
{}

/// A client with no vault open over a disk that reads a journal with one file stands for a state in which the
/// file is kept, so each image of the disk has it.
pub fn a_stored_file_is_kept()
    ensures stands { ClientStands closed_client stored_devices stored_state }
    ensures devices { AreDevices stored_devices stored_state × IsSound 8 stored_state }
    ensures kept { IsKept stored_state (codes "notes.txt") notes }
    ensures images { EachImage stored_devices.holds (ImageHasFile (codes "notes.txt") notes) }
{}

/// Over these devices a scrub of the file begins, and a client that has begun it stands for the machine's state
/// behind the begin: its vault is held under the number that was drawn, and stands for the open state.
pub fn a_scrub_of_a_stored_file_begins()
    ensures begins { Happens 8 0 stored_open BeginScrub (Begun 1) scrubbed_state }
    ensures scrub { ScrubStands stored_scrub stored_devices.providers scrubbed_state (new_scrub stored_open 0) }
    ensures stands { (c : Client) (v : Vault) → c.vault ≡ Some v
        → c.alone ≡ Some (alone.Scrub (record { number = 1; scrub = stored_scrub }))
        → StandsBeside v stored_devices (record stored_open { next_job = 2 }) 1
        → ClientStands c stored_devices scrubbed_state }
{}

/// Over a journal of the second version a pack begins, and a client that has begun it stands for the machine's
/// state behind the begin: its vault is held under the number that was drawn, and the pack, of which no move is
/// made, writes the packed records into the second area.
pub fn a_pack_begins()
    ensures begins { Happens 8 0 raised_open BeginPack (Begun 1) packing_state }
    ensures devices { AreDevices raised_devices packing_state × IsSound 8 packing_state }
    ensures stands { (c : Client) (v : Vault) (job : PackJob) → c.vault ≡ Some v
        → c.alone ≡ Some (alone.Pack job) → pack_number job ≡ 1
        → job.before ≡ text_length A raised_records → moves_of job.pack ≡ 0 → IsPackOf v job
        → WritesText B (packed raised_records) job.pack
        → StandsBeside v (devices None 0 raised_devices.providers) (record raised_open { next_job = 2 }) 1
        → ClientStands c raised_devices packing_state }
{}
