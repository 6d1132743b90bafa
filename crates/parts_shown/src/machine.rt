ghost use Rattle.std.specs.Prelude.{◌≡◌, ℕ, List};
ghost use Rattle.machine_defs.specs.States.{State, IsStart};
ghost use Rattle.machine_defs.specs.Runs.{Moment, IsRun};
ghost use Rattle.machine_defs.specs.Deeds.{HasStored};

/// In a run of a client with one job at a time no two puts store under one number.
fn numbers_are_used_once()
    ensures { (start : State) (ms : List Moment) (begun other object : ℕ) → IsStart start
        → IsRun 1 start ms → HasStored start ms begun object → HasStored start ms other object
        → begun ≡ other }
{
    machine_defs::laws::stores_name_their_own_object();
}

#[test]
fn the_law_is_there(rt: HostRuntime) {
    numbers_are_used_once();
}
