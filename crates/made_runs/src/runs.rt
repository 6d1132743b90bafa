//! Runs, computed from their instructions.
ghost use Rattle.std.specs.Prelude.{◌≡◌, List, [], ◌∷◌, ◌++◌, length, codes, Some, None};
ghost use Rattle.made_runs.specs.Words.{PutDone, PutJob, GetJob, Begin, Stop, Reopen, Stopped, State, Doubt, file_in, Happens, Moment, IsRun, now, Once, RunJob, CarriesOut, set_up};

/// A put of no bytes, and a get of it.
pub fn stored_is_got()
    ensures { (ms : List Moment) × IsRun 1 set_up ms
        × CarriesOut (RunJob 2 ∷ Once (Begin (GetJob (codes "a"))) ∷ RunJob 1
        ∷ Once (Begin (PutJob (codes "a") [])) ∷ Once Reopen ∷ []) ms
        (((((codes "opened" ++ 10 ∷ []) ++ (codes "job 1" ++ 10 ∷ [])) ++ (codes "put" ++ 10 ∷ []))
        ++ (codes "job 2" ++ 10 ∷ []))
        ++ (codes "got -" ++ 10 ∷ [])) }
{}

/// A stop between the third and the fourth move of a put's last append settles its record either way.
pub fn stop_settles_either_way()
    ensures { (ms : List Moment) × IsRun 1 set_up ms
        × ((d : Doubt) × ((now set_up ms).doubt ≡ Some d) × (d.entry ≡ PutDone 1 0))
        × ((w : State) × Happens 1 (length ms) (now set_up ms) (Stop []) Stopped w
        × (file_in w (codes "a") ≡ Some (record { name = codes "a"; id = 1; size = 0; profile = 0 })))
        × ((w : State) × Happens 1 (length ms) (now set_up ms) (Stop []) Stopped w
        × (file_in w (codes "a") ≡ None)) }
{}
