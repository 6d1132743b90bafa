//! What holds of every journal in two areas.
ghost use Rattle.std.specs.Prelude.{◌≡◌, ◌<◌, Bool, List, Option, Some, Result};
ghost use Rattle.stream_model.specs.declared.fault.WriteFault.{WriteFault};
ghost use Rattle.device_defs.specs.Cells.{Cells, firm};
ghost use Rattle.device_defs.specs.Images.{EachImage};
ghost use Rattle.record_defs.specs.Records.{Record, Setup};
ghost use Rattle.record_defs.specs.Journal.{text};
ghost use Rattle.record_defs.specs.Table.{setup_of, version_of};
ghost use Rattle.record_defs.specs.Acceptance.{AreAccepted};
ghost use Rattle.record_defs.specs.Packed.{packed};
ghost use Rattle.record_defs.specs.Areas.{Area, A, B};
ghost use Rattle.record_defs.specs.Examples.{four, raised};
ghost use Rattle.journal_core.specs.Texts.{MayStandIn};
ghost use Rattle.journal_pack.specs.Alike.{StandsAlike};
ghost use Rattle.journal_pack.specs.declared.pack.Pack.{Pack};
ghost use Rattle.journal_pack.specs.Packs.{moves_of, WritesText, Packs, TurnsPack, PacksDisk, KeepsJournal};

/// Each turn of a pack is atomic: behind it the disk stands, whatever a crash leaves, for the records in the old
/// area or for those in the other; and the pack goes on, is given up, or is done.
pub fn packs_are_atomic()
    ensures { (area : Area) (rs qs : List Record) (p q : Pack) (result : Result Bool WriteFault)
        (old new : Option Cells) → Packs area rs qs p old → moves_of p < 4 → TurnsPack p result q
        → PacksDisk p result old new → KeepsJournal area rs qs p result q new }
{}

/// What a pack of accepted records of the second version may leave stands, in each image, for accepted records
/// whose table is alike.
pub fn packs_keep_the_table()
    ensures { (area : Area) (rs : List Record) (s : Setup) (told : Option Cells) → AreAccepted rs
        → setup_of rs ≡ Some s → version_of rs ≡ 2 → MayStandIn area rs (packed rs) told
        → EachImage told (StandsAlike rs) }
{}

/// An instance: a disk with the firm text of a store with a file and a due repair, whose journal has its second
/// version, in the first area: before its pack, which `Pack::new` gives, and where that is given up.
pub fn a_raised_store_may_be_packed()
    ensures accepted { AreAccepted raised }
    ensures setup { setup_of raised ≡ Some four }
    ensures version { version_of raised ≡ 2 }
    ensures left { MayStandIn A raised (packed raised) (Some (firm (text raised))) }
    ensures packs { (p : Pack) → WritesText B (packed raised) p → moves_of p ≡ 0
        → Packs A raised (packed raised) p (Some (firm (text raised))) }
{}
