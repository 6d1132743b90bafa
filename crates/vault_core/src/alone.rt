//! What a core is told by what runs alone, a scrub or a pack.
ghost use Rattle.std.specs.Prelude.{◌≡◌, ◌<◌, ◌≤◌, ◌+◌, ◌-◌, ◌^◌, [], true, None};
ghost use Rattle.record_defs.specs.Records.{largest_journal};
ghost use Rattle.machine_defs.specs.States.{State};
ghost use Rattle.record_defs.specs.Table.{version_of};
ghost use Rattle.record_defs.specs.Packed.{packed};
ghost use Rattle.record_defs.specs.Areas.{other_area, end_in};
ghost use Rattle.machine_defs.specs.Alone.{switched};
ghost use Rattle.machine_defs.specs.Appends.{barred};
ghost use Rattle.state_laws.specs.Sound.{IsSound};
ghost use Rattle.vault_table.specs.Values.{forgotten};
ghost use Rattle.vault_core.specs.Carried.{CoreIs};

use crate::own::Core;

impl Core {
    /// Draws the number of what runs alone. Condition: one is left for it.
    pub fn draw(&mut self) -> u32
        requires { self.old.next_job < 2 ^ 32 - 1 }
        ensures number { result ≡ self.old.next_job }
        ensures drawn { self.new ≡ record self.old { next_job = self.old.next_job + 1 } }
    {
        let number = self.next_job;
        self.next_job += 1;
        number
    }

    /// A disk call outside the jobs failed: no job goes on.
    pub fn bar(&mut self)
        ensures barred { self.new ≡ record self.old { barred = true } }
        ensures stands { (w : State) → CoreIs self.old w → w.append ≡ None → IsSound 8 (barred w)
            → CoreIs self.new (barred w) }
    {
        self.barred = true;
    }

    /// The records were packed into a text of `end` bytes. Condition: no job runs, and `9 <= end <= 2^24`.
    pub fn moved(&mut self, end: u64)
        requires idle { self.old.jobs ≡ [] }
        requires least { 9 ≤ end }
        requires most { end ≤ largest_journal }
        ensures moved { self.new ≡ record self.old { table = forgotten self.old.table; end = end } }
        ensures stands { (w : State) → CoreIs self.old w → version_of w.records ≡ 2 → w.append ≡ None
            → end ≡ end_in (other_area w.area) (packed w.journal) → IsSound 8 (switched w)
            → CoreIs self.new (switched w) }
    {
        self.table.forget();
        self.end = end;
    }
}
