ghost use Rattle.std.specs.Prelude.{◌≡◌, is_some};
ghost use Rattle.command_defs.specs.Forms.{Command as Spelled, IsForm};
ghost use Rattle.command_defs.specs.Seen.{NoCountFalls};
ghost use Rattle.command_defs.specs.Commands.{Answers};
ghost use Rattle.command_words.specs.Commands.{command_of};
ghost use Rattle.hail_top.specs.Answered.{AnswersWords};
ghost use Rattle.hail_top.specs.Carried.{AnswersForm};
ghost use Rattle.hail_top.specs.Endings.{seen_of, ending_of};
ghost use Rattle.hail_top.specs.InitRuns.{InitsOn};
ghost use Rattle.hail_top.specs.PackRuns.{PacksOn};
ghost use Rattle.hail_top.specs.Rows.{HasItsSymbols};

use crate::alone::alone;
use crate::carry::{do_trial, replay_source};
use crate::list::list;
use crate::pack::pack;
use crate::put::put;
use crate::report::Report;
use crate::row::answer_row;
use crate::scrub::scrub;
use crate::serve::serve_words;
use crate::set_up::set_up;
use command_jobs::Job;
use command_words::laws::words_spell_one_command;
use command_words::{Command, read_command};
use disk_model::Disk;
use exit_statuses::NO_MEMORY;
use hail_field::Memory;
use hail_replay::{Form, read_form};
use provider_model::Tamper;
use std::alloc::Global;
use stream_model::{Sink, Source};

/// Does what a command asks for. Condition: a row has as many symbols as it says.
fn answer<D: Disk, P: Tamper, S: Source, K: Sink>(
    alloc: Global,
    command: Command,
    disk: &mut D,
    providers: &mut [P],
    source: &mut S,
    sink: &mut K,
) -> Report
    requires { HasItsSymbols (command_of command) }
    ensures answers { Answers (command_of command.entry)
        (seen_of D.Disk P.Provider S.Source K.Sink disk.old providers.old source.old sink.old)
        (seen_of D.Disk P.Provider S.Source K.Sink disk.new providers.new source.new sink.new)
        (ending_of result) }
    ensures inits { InitsOn (command_of command.entry)
        (seen_of D.Disk P.Provider S.Source K.Sink disk.old providers.old source.old sink.old)
        (seen_of D.Disk P.Provider S.Source K.Sink disk.new providers.new source.new sink.new)
        (ending_of result) }
    ensures packs { PacksOn (command_of command.entry)
        (seen_of D.Disk P.Provider S.Source K.Sink disk.old providers.old source.old sink.old)
        (seen_of D.Disk P.Provider S.Source K.Sink disk.new providers.new source.new sink.new)
        (ending_of result) }
    ensures counts { NoCountFalls
        (seen_of D.Disk P.Provider S.Source K.Sink disk.old providers.old source.old sink.old)
        (seen_of D.Disk P.Provider S.Source K.Sink disk.new providers.new source.new sink.new) }
    ensures tells { is_some (D.holds disk.new) ≡ is_some (D.holds disk.old) }
{
    match command {
        Command::Row(row) => Report::of(answer_row(alloc, &row, sink)),
        Command::Init(numbers) => set_up(alloc, &numbers, providers.len(), disk, source, sink),
        Command::Put { name, profile } => {
            put(alloc, name, profile, disk, providers, source, sink)
        }
        Command::Get { name } => alone(alloc, Job::Get { name }, disk, providers, sink),
        Command::Drop { name } => alone(alloc, Job::Drop { name }, disk, providers, sink),
        Command::List => list(alloc, providers.len(), disk, sink),
        Command::Audit => alone(alloc, Job::Audit, disk, providers, sink),
        Command::Repair => alone(alloc, Job::Repair, disk, providers, sink),
        Command::Upgrade => alone(alloc, Job::Upgrade, disk, providers, sink),
        Command::Scrub => scrub(alloc, disk, providers, sink),
        Command::Pack => pack(alloc, providers.len(), disk, sink),
    }
}

/// Does what a form asks for.
fn carry<D: Disk, P: Tamper, S: Source, K: Sink>(
    alloc: Global,
    form: Form,
    disk: &mut D,
    providers: &mut [P],
    source: &mut S,
    sink: &mut K,
) -> Report
    ensures answers { AnswersForm form
        (seen_of D.Disk P.Provider S.Source K.Sink disk.old providers.old source.old sink.old)
        (seen_of D.Disk P.Provider S.Source K.Sink disk.new providers.new source.new sink.new)
        (ending_of result) }
    ensures counts { NoCountFalls
        (seen_of D.Disk P.Provider S.Source K.Sink disk.old providers.old source.old sink.old)
        (seen_of D.Disk P.Provider S.Source K.Sink disk.new providers.new source.new sink.new) }
    ensures tells { is_some (D.holds disk.new) ≡ is_some (D.holds disk.old) }
{
    match form {
        Form::Replay => replay_source(alloc, disk, providers, source, sink),
        Form::Trial(number) => do_trial(alloc, number, disk, providers, sink),
    }
}

/// Does what words ask for that spell no command: a replay, a trial, a server or nothing.
fn carry_words<D: Disk, P: Tamper, S: Source, K: Sink>(
    alloc: Global,
    words: &[String],
    disk: &mut D,
    providers: &mut [P],
    source: &mut S,
    sink: &mut K,
) -> Report
    requires none { (command : Spelled) → IsForm words.now command → ⊥ }
    ensures answered { AnswersWords words.now
        (seen_of D.Disk P.Provider S.Source K.Sink disk.old providers.old source.old sink.old)
        (seen_of D.Disk P.Provider S.Source K.Sink disk.new providers.new source.new sink.new)
        (ending_of result) }
    ensures tells { is_some (D.holds disk.new) ≡ is_some (D.holds disk.old) }
{
    match read_form(words) {
        Some(form) => carry(alloc, form, disk, providers, source, sink),
        None => serve_words(alloc, words, providers, source, sink),
    }
}

/// Does what words ask for, over a slice of providers.
fn answer_words<D: Disk, P: Tamper, S: Source, K: Sink>(
    alloc: Global,
    words: &[String],
    disk: &mut D,
    providers: &mut [P],
    source: &mut S,
    sink: &mut K,
) -> Report
    ensures answered { AnswersWords words.now
        (seen_of D.Disk P.Provider S.Source K.Sink disk.old providers.old source.old sink.old)
        (seen_of D.Disk P.Provider S.Source K.Sink disk.new providers.new source.new sink.new)
        (ending_of result) }
    ensures packs { (command : Spelled) → IsForm words.now command → PacksOn command
        (seen_of D.Disk P.Provider S.Source K.Sink disk.old providers.old source.old sink.old)
        (seen_of D.Disk P.Provider S.Source K.Sink disk.new providers.new source.new sink.new)
        (ending_of result) }
    ensures tells { is_some (D.holds disk.new) ≡ is_some (D.holds disk.old) }
{
    words_spell_one_command();
    match read_command(alloc, words) {
        Ok(Some(command)) => answer(alloc, command, disk, providers, source, sink),
        Ok(None) => carry_words(alloc, words, disk, providers, source, sink),
        Err(Memory) => Report::of(NO_MEMORY),
    }
}

/// Does what the words of the command line ask for. Want of memory, status 70, may come at any of them.
pub fn hail<D: Disk, P: Tamper, S: Source, K: Sink>(
    alloc: Global,
    words: &[String],
    disk: &mut D,
    providers: &mut Vec<P>,
    source: &mut S,
    sink: &mut K,
) -> Report
    ensures answered { AnswersWords words.now
        (seen_of D.Disk P.Provider S.Source K.Sink disk.old providers.old.items source.old sink.old)
        (seen_of D.Disk P.Provider S.Source K.Sink disk.new providers.new.items source.new sink.new)
        (ending_of result) }
    ensures packs { (command : Spelled) → IsForm words.now command → PacksOn command
        (seen_of D.Disk P.Provider S.Source K.Sink disk.old providers.old.items source.old sink.old)
        (seen_of D.Disk P.Provider S.Source K.Sink disk.new providers.new.items source.new sink.new)
        (ending_of result) }
    ensures tells { is_some (D.holds disk.new) ≡ is_some (D.holds disk.old) }
{
    answer_words(alloc, words, disk, providers, source, sink)
}
