//! A whole run, given outright, with fetches and work.
ghost use Rattle.std.specs.Prelude.{◌≡◌, ℕ, ◌<◌, List, [], ◌∷◌, ◌++◌, length, codes};
ghost use Rattle.machine_defs.specs.Jobs.{PutJob, GetJob};
ghost use Rattle.machine_defs.specs.Events.{Init, Begin, Reopen, Ready};
ghost use Rattle.machine_defs.specs.States.{State, IsStart};
ghost use Rattle.record_defs.specs.Examples.{four};
ghost use Rattle.machine_defs.specs.Runs.{Moment, IsRun, now};
ghost use Rattle.machine_defs.specs.Transcripts.{Once, RunJob, CarriesOut};
ghost use Rattle.machine_defs.specs.Examples.{set_up};
ghost use Rattle.machine_defs.specs.Untouched.{NoneAsksOn};
ghost use Rattle.second_half_laws.specs.Told.{IsTold};

/// A put of one byte over four providers, and a get that fetches its four blocks, works on them and ends with
/// the byte. Schedules have the newest command first.
pub fn stored_byte_is_got()
    ensures { (ms : List Moment) × IsRun 1 set_up ms
        × CarriesOut (RunJob 2 ∷ Once (Begin (GetJob (codes "a"))) ∷ RunJob 1
        ∷ Once (Begin (PutJob (codes "a") (111 ∷ [])))
        ∷ Once Reopen ∷ []) ms
        (((((codes "opened" ++ 10 ∷ []) ++ (codes "job 1" ++ 10 ∷ [])) ++ (codes "put" ++ 10 ∷ []))
        ++ (codes "job 2" ++ 10 ∷ []))
        ++ (codes "got 6f" ++ 10 ∷ []))
        × (length ms ≡ 22) × ((j : ℕ) → j < 4 → ((now set_up ms).providers j).fetches ≡ 1) }
{}

/// The same put and get, told by events and outcomes alone, as the laws on these want them; and no command of
/// that schedule is the begin of a put or a drop of another name.
pub fn stored_byte_is_told()
    ensures told { (ms : List Moment) × (gaps : List Moment) × (c : Moment) × (g : Moment)
        × IsTold ms gaps c g }
    ensures others { NoneAsksOn (codes "b") (RunJob 2 ∷ Once (Begin (GetJob (codes "a"))) ∷ RunJob 1
        ∷ Once (Begin (PutJob (codes "a") (111 ∷ []))) ∷ Once Reopen ∷ []) }
{}

/// A store of four providers is set up.
pub fn a_store_is_set_up()
    ensures { (start : State) × (m : Moment) × IsStart start × IsRun 1 start (m ∷ [])
        × (m.event ≡ Init four) × (m.outcome ≡ Ready) }
{}
