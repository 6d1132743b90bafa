//! A run, given outright.
ghost use Rattle.std.specs.Prelude.{◌≡◌, ◌≤◌, List, [], ◌∷◌};
ghost use Rattle.hail_field.specs.Shape.{IsShape};
ghost use Rattle.code_defs.specs.Profiles.{profile_of};
ghost use Rattle.headline.specs.Headline.{Headline};
ghost use Rattle.damage_run.specs.Words.{RepairDone, four, upto, OpensFile, block_at, object_of, Lost, Moment, IsRun, now, AsksDamageOf, FirstHalf, SecondHalf, set_up, IsCalmRun, count_of, IsRow, AreBytes, is_wrong_seen};
ghost use Rattle.damage_run.specs.Schedule.{byte, schedule, IsOutright};
ghost use Rattle.damage_run.specs.Points.{without_two, EndsBy, InDoubt, IsDamaged, HasPoints};
ghost use Rattle.damage_run.specs.SecondLoss.{IsReadOver, MovesMark};

/// A run of 57 events at limit 8, and both halves of it: a put; a get and an audit that run at once; a lost
/// block that the audit finds and a repair restores; another lost block, and a get over it. Two providers
/// were damaged in all, where one may be wrong.
#[tactic(auto, using(headline::proofs::Parts::headline, crate::proofs::CalmRun::outright))]
pub fn damage_is_found_and_repaired()
    ensures run { (ms : List Moment) × IsOutright ms }
    ensures halves { (ms : List Moment) → IsOutright ms
        → Headline set_up ms × FirstHalf set_up ms × SecondHalf set_up ms }
{}

/// The premises of the laws over runs are met: of the same moments, where a put, a get, an audit and a repair
/// run, end, are in doubt and take effect, where damage is, and which moment is the mark.
#[tactic(auto, using(crate::proofs::CalmRun::outright, crate::proofs::Points::points))]
pub fn premises_are_met()
    ensures { (ms : List Moment) × IsOutright ms × HasPoints ms }
{}

/// So are those of the laws on what blocks open to: of the file's four blocks one is absent, and the others
/// open to the file.
#[tactic(auto, using(crate::proofs::Values::opens_file, crate::proofs::Values::few_seen))]
pub fn blocks_with_one_absent_open()
    ensures opens { OpensFile (object_of four 1) 1 without_two byte }
    ensures few { count_of (λ j. is_wrong_seen (object_of four 1) byte j 0 (block_at (without_two 0) j))
        (upto 4) ≤ 1 }
    ensures shape { IsShape 4 1 1 }
    ensures profile { (object_of four 1).profile ≡ profile_of 0 }
    ensures row { IsRow (object_of four 1) byte 0 0 }
    ensures bytes { AreBytes byte }
{}

/// And so are those of the law on damage that is new while a repair's record is in doubt: up to there the
/// moments are those of the run, and then a block that the repair had stored is lost once more.
pub fn a_block_is_lost_while_a_repair_ends()
    ensures { (ms : List Moment) × IsCalmRun 8 set_up ms × InDoubt (now set_up ms) (RepairDone 1)
        × IsDamaged (now set_up ms) 2 }
{}

/// And so are those of the laws on gets that are lost: after the run a second block is lost, and a get over
/// the two that are left ends lost.
pub fn a_get_is_lost()
    ensures { (ms : List Moment) × IsRun 8 set_up ms × EndsBy ms 63 6 (Lost 0 0) }
{}

/// And so are those of the laws on events: up to the end of the first get, one provider alone was damaged;
/// and the whole schedule names two for damage.
#[tactic(auto, using(crate::proofs::SecondLoss::is_read))]
pub fn a_damaged_store_is_read()
    ensures read { (ms : List Moment) × (gaps : List Moment) × (c : Moment) × (g : Moment)
        × IsReadOver ms gaps c g }
    ensures asks { AsksDamageOf (0 ∷ 2 ∷ []) schedule }
{}

/// And so are those of the law on marks that move: at the repair's end the audit's begin is one, and then
/// another provider is damaged.
pub fn another_provider_is_damaged()
    ensures { (later : List Moment) × (recent : List Moment) × (older : List Moment)
        × MovesMark later recent older }
{}
