// The six lines of a trial.
ghost use Rattle.std.specs.Prelude.{◌≡◌, ◌++◌, codes, IfOk, OnOk};
ghost use Rattle.std.specs.List.{flat_map};
ghost use Rattle.machine_defs.specs.Lines.{line, then_number};
ghost use Rattle.hail_replay.specs.Counts.{trial_lines};

use crate::tally::Tally;
use crate::text::push_list;
use command_lines::{push_counted, push_line};
use std::alloc::{AllocError, Global};
use stream_model::{Bytes, Memory};

/// Puts how many gets ended with bytes, and how many of them with the right ones, behind a text.
fn push_gets(alloc: Global, text: &mut Vec<u8>, gets: u64, right: u64) -> Result<(), AllocError>
    ensures { OnOk result (text.new.items ≡ text.old.items ++ line
        (codes "gets" ++ then_number gets ++ codes " right" ++ then_number right)) }
{
    push_counted(alloc, text, b"gets", gets)?;
    push_line(alloc, text, b" right", right)
}

/// Puts how many audits ended, and whom they flagged, behind a text.
fn push_audits(
    alloc: Global,
    text: &mut Vec<u8>,
    audits: u64,
    flagged: &[u32],
) -> Result<(), AllocError>
    ensures { OnOk result (text.new.items ≡ text.old.items ++ line
        (codes "audits" ++ then_number audits ++ codes " flagged" ++ flat_map then_number flagged.now)) }
{
    push_counted(alloc, text, b"audits", audits)?;
    push_list(alloc, text, b" flagged", flagged)
}

/// Puts how many repairs ended, and how many stops there were, behind a text.
fn push_ends(alloc: Global, text: &mut Vec<u8>, repairs: u64, stops: u64) -> Result<(), AllocError>
    ensures { OnOk result (text.new.items ≡ text.old.items ++ (line
        (codes "repairs" ++ then_number repairs) ++ line (codes "stops" ++ then_number stops))) }
{
    push_line(alloc, text, b"repairs", repairs)?;
    push_line(alloc, text, b"stops", stops)
}

impl Tally {
    /// Puts the six lines behind a text.
    fn push_lines(&self, alloc: Global, number: u64, text: &mut Vec<u8>) -> Result<(), AllocError>
        ensures { OnOk result (text.new.items ≡ text.old.items ++ trial_lines number self.now) }
    {
        push_line(alloc, text, b"trial", number)?;
        push_line(alloc, text, b"events", self.events)?;
        push_gets(alloc, text, self.gets, self.right)?;
        push_audits(alloc, text, self.audits, &self.flagged)?;
        push_ends(alloc, text, self.repairs, self.stops)
    }

    /// The six lines that tell the counts of the trial of a number. Want of memory is its one refusal.
    pub fn lines(&self, alloc: Global, number: u64) -> Result<Bytes, Memory>
        ensures { IfOk result (λ text. text ≡ trial_lines number self.now) }
    {
        let mut text = Vec::new(alloc);
        self.push_lines(alloc, number, &mut text)?;
        Ok(Bytes::from_vec(text))
    }
}
