//! Bodies of hail_scrub's public functions, for its must-fail edits to spoil.
ghost use Rattle.std.specs.Prelude.{◌≡◌, ◌<◌, ◌≤◌, Bool, IfOk, length, map};
ghost use Rattle.machine_defs.specs.States.{State, Scrub as MachineScrub};
ghost use Rattle.record_defs.specs.Records.{Setup, most_files};
ghost use Rattle.stripe_bench.specs.Calls.{sight};
ghost use Rattle.hail_scrub.specs.Views.{scrub_left};
ghost use Rattle.hail_scrub.specs.Begins.{HaveOneCount, AreApart, IsNewScrub};
ghost use Rattle.hail_scrub.specs.Stands.{ScrubIs, ScrubStands, MakesScrubStep};

use file_layout::FileShape;
use hail_field::Memory;
use hail_scrub::{Scrub, ScrubTurn};
use key_schedule::Master;
use provider_model::Provider;
use std::alloc::Global;

/// `Scrub::new`.
pub fn new(alloc: Global, master: &Master, files: Vec<FileShape>) -> Result<Scrub, Memory>
    requires few { length files.items ≤ most_files }
    requires one_count { HaveOneCount files.items }
    requires apart { AreApart files.items }
    ensures begun { (s : Setup) (m : MachineScrub) → IsNewScrub s master.now.0 files.items m
        → IfOk result (λ scrub. ScrubIs scrub s m) }
{
    Scrub::new(alloc, master, files)
}

/// `Scrub::step`.
pub fn step<P: Provider>(scrub: &mut Scrub, providers: &mut [P]) -> ScrubTurn
    requires going { 0 < scrub_left scrub.old }
    requires there { scrub.old.providers ≤ length providers.old }
    ensures machine { (w : State) (m : MachineScrub) (is_told : Bool)
        → ScrubStands scrub.old (map (sight is_told P.Provider) providers.old) w m
        → MakesScrubStep w m result scrub.new (map (sight is_told P.Provider) providers.new) }
{
    scrub.step(providers)
}

/// `Scrub::left`.
pub fn left(scrub: &Scrub) -> u64
    ensures { result ≡ scrub_left scrub.now }
{
    scrub.left()
}
