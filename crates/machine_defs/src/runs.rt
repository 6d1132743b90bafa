//! A whole run, given outright: it shows that the machine is not empty. And events that find no memory.
ghost use Rattle.std.specs.Prelude.{◌≡◌, List, [], ◌∷◌, ◌++◌, length, codes, Some};
ghost use Rattle.record_defs.specs.Examples.{four};
ghost use Rattle.machine_defs.specs.Jobs.{PutJob};
ghost use Rattle.machine_defs.specs.Answers.{Memory};
ghost use Rattle.machine_defs.specs.Events.{Init, Begin, Reopen, Step, Refused, Ended};
ghost use Rattle.machine_defs.specs.Refusals as refusal;
ghost use Rattle.machine_defs.specs.States.{file_in};
ghost use Rattle.machine_defs.specs.Runs.{Moment, IsRun, now};
ghost use Rattle.machine_defs.specs.Transcripts.{Once, RunJob, CarriesOut};
ghost use Rattle.machine_defs.specs.Machine.{Happens};
ghost use Rattle.machine_defs.specs.Examples.{set_up, putting};

/// A put of one byte over four providers is a run of 13 steps. Schedules have the newest command first.
pub fn put_is_stored()
    ensures { (ms : List Moment) × IsRun 1 set_up ms
        × CarriesOut (RunJob 1 ∷ Once (Begin (PutJob (codes "a") (111 ∷ []))) ∷ Once Reopen ∷ []) ms
        (((codes "opened" ++ 10 ∷ []) ++ (codes "job 1" ++ 10 ∷ [])) ++ (codes "put" ++ 10 ∷ []))
        × (length ms ≡ 15) × (file_in (now set_up ms) (codes "a")
        ≡ Some (record { name = codes "a"; id = 1; size = 1; profile = 0 })) }
{}

/// A put that finds no memory at its first move ends so, and leaves the vault as it was before it began, but for
/// the next job's number.
pub fn put_finds_no_memory()
    ensures { Happens 1 0 putting (Step 1) (Ended Memory) (record putting { jobs = [] }) }
{}

/// A reopening and an init that find no memory leave a closed vault as it was.
pub fn openings_find_no_memory()
    ensures reopening { Happens 1 0 set_up Reopen (Refused refusal.Memory) set_up }
    ensures init { Happens 1 0 set_up (Init four) (Refused refusal.Memory) set_up }
{}
