//! What holds of every scrub.
ghost use Rattle.std.specs.Prelude.{◌≡◌, ◌≤◌, ◌+◌, ℕ, List, [], None, true};
ghost use Rattle.device_defs.specs.Providers.{Provider};
ghost use Rattle.file_layout.specs.declared.file.FileShape.{FileShape};
ghost use Rattle.machine_defs.specs.Alone.{alone_refusal, new_scrub, unalone};
ghost use Rattle.machine_defs.specs.Events.{BeginScrub, Begun};
ghost use Rattle.machine_defs.specs.Machine.{Happens};
ghost use Rattle.machine_defs.specs.States.{State, Scrub, setup_in};
ghost use Rattle.opening_defs.specs.Opened.{AreHanded};
ghost use Rattle.record_defs.specs.Table.{files_of};
ghost use Rattle.machine_defs.specs.Begins.{pin_all};
ghost use Rattle.hail_scrub.specs.declared.turn.ScrubTurn.{ScrubTurn};
ghost use Rattle.hail_scrub.specs.Begins.{AreFilesOf, IsNewScrub, held};
ghost use Rattle.hail_scrub.specs.Stands.{ScrubIs, ScrubStands, MakesScrubStep};
ghost use Rattle.hail_scrub.specs.Views.{ScrubView};

/// Where no job runs and nothing runs alone, a scrub begins. What `Scrub::new` makes of the files in effect
/// stands for it; beside it nothing but a number is drawn.
pub fn scrubs_begin()
    ensures happens { (w : State) (moment limit : ℕ) → w.is_open ≡ true → alone_refusal w [] ≡ None
        → Happens limit moment w BeginScrub (Begun w.next_job) (held w moment) }
    ensures begun { (w : State) (moment : ℕ) (master : List ℕ) (files : List FileShape) → (setup_in w).n ≤ 16
        → AreFilesOf (setup_in w) master files (pin_all w (files_of w.records))
        → IsNewScrub (setup_in w) master files (new_scrub w moment) }
    ensures stands { (w : State) (moment : ℕ) (v : ScrubView) (ps : List Provider) → AreHanded ps w
        → ScrubIs v (setup_in w) (new_scrub w moment) → ScrubStands v ps (held w moment) (new_scrub w moment) }
    ensures beside { (w : State) (moment : ℕ) → w.alone ≡ None
        → unalone (held w moment) ≡ record w { next_job = w.next_job + 1 } }
{}

/// Beside a scrub a step changes what providers hold and count, and nothing else.
pub fn steps_leave_the_rest()
    ensures { (w : State) (m : Scrub) (t : ScrubTurn) (v : ScrubView) (qs : List Provider)
        (made : MakesScrubStep w m t v qs)
        → unalone made.state ≡ record (unalone w) { providers = made.state.providers } }
{}
