//! Puts that are given up behind their begins, given outright: how they end, and laws that have them as
//! instances.
ghost use Rattle.std.specs.Prelude.{◌≡◌, ◌⊎◌, ℕ, ◌+◌, ◌<◌, List, length, None};
ghost use Rattle.command_runs.specs.Words.{A, largest_file, AreBytes, PutUnder, Answers, after_begin, PartRuns, PartLeft, put_refusal, GivesUpPut, FaultsHaveCauses, IsSure, ends};
ghost use Rattle.command_runs.specs.Devices.{named, four_records};
ghost use Rattle.command_runs.specs.GivenUp.{sevens, long, first_stripe, to_put_source, put_given_up, put_too_long};

use command_laws::after::done_commands_leave_known_stores;
use command_laws::ends::{faults_have_causes, refusals_are_exact};
use command_laws::kept::cut_sources_leave;
use job_laws::alone::told_parts_leave;

/// A put of 40 bytes whose source fails behind its first stripe of 32: its job has run so far, and each
/// provider has its block of that stripe.
pub fn a_put_is_given_up()
    ensures answers { Answers (PutUnder named) (to_put_source long) put_given_up (ends 14) }
    ensures runs { PartRuns A four_records named first_stripe None (to_put_source long) put_given_up }
    ensures left { PartLeft A four_records named first_stripe None (to_put_source long) put_given_up }
{
    told_parts_leave();
}

/// Such a put has used its number, its store stays known, with the start of the put, and the source's count
/// of faults rose.
pub fn a_given_up_put_leaves_a_known_store()
    ensures left { GivesUpPut named None (to_put_source long) put_given_up (ends 14) }
    ensures known { IsSure put_given_up (after_begin four_records named) }
    ensures cause { FaultsHaveCauses (to_put_source long) put_given_up (ends 14) }
{
    a_put_is_given_up();
    cut_sources_leave();
    done_commands_leave_known_stores();
    faults_have_causes();
}

/// A put of a source with more bytes than a file may have, whatever they are, over a store that was just set
/// up: it ends with 16, has stored each stripe of the first 4,194,304 bytes on each provider, and its store
/// stays known, with the start of the put. There is such a source.
pub fn long_puts_are_given_up()
    ensures answers { (source : List ℕ) → AreBytes source → largest_file < length source
        → Answers (PutUnder named) (to_put_source source) (put_too_long source) (ends 16) }
    ensures left { (source : List ℕ) → AreBytes source → largest_file < length source
        → GivesUpPut named None (to_put_source source) (put_too_long source) (ends 16) }
    ensures known { (source : List ℕ) → AreBytes source → largest_file < length source
        → IsSure (put_too_long source) (after_begin four_records named) }
    ensures well { (source : List ℕ) → AreBytes source → largest_file < length source
        → ((ends 16).status ≡ 16) ⊎ ((ends 16).status ≡ 70) }
    ensures only { (source : List ℕ) → AreBytes source → largest_file < length source
        → (put_refusal A four_records named None ≡ None) × (largest_file < length source) }
    ensures there_is_one { AreBytes (sevens (largest_file + 1))
        × (largest_file < length (sevens (largest_file + 1))) }
{
    cut_sources_leave();
    done_commands_leave_known_stores();
    refusals_are_exact();
}
