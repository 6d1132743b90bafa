ghost use Rattle.std.specs.Prelude.{◌≡◌, ◌<◌, ◌≤◌, ◌^◌, ◌==◌, ℕ, Bool, Option, length, map, position, IfSome, Some};
ghost use Rattle.column_defs.specs.Challenges.{honest_answer};
ghost use Rattle.device_defs.specs.Cells.{Cells};
ghost use Rattle.device_defs.specs.Faults.{one_more};
ghost use Rattle.device_defs.specs.ProviderCalls.{Asks};
ghost use Rattle.machine_defs.specs.Actions.{Ask as AskAction};
ghost use Rattle.machine_defs.specs.States.{State};
ghost use Rattle.challenge.specs.Asked.{asked};
ghost use Rattle.provider_model.specs.Seen.{provider_seen};
ghost use Rattle.vault_core.specs.declared.pinned.Pinned.{Pinned as PinnedValue};
ghost use Rattle.vault_open.specs.Devices.{devices};
ghost use Rattle.vault.specs.Asking.{pin_among, pin_in, profile_or, IsQuestion, challenge_put, Asked, MayAsk, TellsAsk, IsAuditing, MayPut};
ghost use Rattle.stripe_bench.specs.Calls.{CallsOnly, sight};
ghost use Rattle.vault.specs.Desks.{DeskStands, IsAtWork, Comes, DeskMakesStep};
ghost use Rattle.vault.specs.Running.{RunsIn};
ghost use Rattle.vault.specs.Steps.{HasActed};
ghost use Rattle.vault.specs.declared.turn.Turn.TheVariants as turn;

use crate::desk::Desk;
use crate::heard::Ask;
use crate::question::Question;
use crate::tasks::{AuditTask, Task};
use crate::turn::Turn;
use audit_verdict::{judge_round, round_challenge};
use challenge::Challenge;
use code_points::profile_at;
use file_layout::FileShape;
use hail_field::Symbol;
use hail_field::laws::symbol_is_number;
use hail_poly::Work;
use key_schedule::Master;
use provider_model::Provider;
use vault_core::{Pinned, Reply};

/// The place of the file of an object number among these.
fn place_among(pinned: &[Pinned], object: u64) -> Option<usize>
    ensures { result ≡ position (λ (file : PinnedValue). file.id == object) pinned.now }
{
    pinned.iter().position(|file| file.id == object)
}

/// The file of an object number among these, if it is there.
fn pin_of(pinned: &[Pinned], object: u64) -> Option<Pinned>
    ensures { pin_among pinned.now object ≡ result }
{
    match place_among(pinned, object) {
        Some(place) => Some(pinned[place]),
        None => None,
    }
}

/// Asks a provider. One that fails gives no answer.
fn ask_provider<P: Provider>(from: &mut P, object: u64, challenge: &Challenge) -> Option<Symbol>
    ensures asked { Asks (honest_answer (asked challenge.now)) object (provider_seen P.Provider from.old)
        result (provider_seen P.Provider from.new) }
    ensures number { IfSome result (λ symbol. symbol < 2 ^ 128) }
    ensures called { P.calls from.new ≡ one_more (P.calls from.old) }
{
    let answer = from.ask(object, challenge);
    match answer {
        Ok(Some(symbol)) => {
            symbol_is_number(symbol);
            Some(symbol)
        }
        Ok(None) => None,
        Err(_) => None,
    }
}

impl AuditTask {
    ghost use Rattle.std.specs.Prelude.{◌≡◌, ◌≤◌, ℕ, Option};
    ghost use Rattle.column_defs.specs.Challenges.{honest_answer};
    ghost use Rattle.device_defs.specs.Faults.{one_more};
    ghost use Rattle.device_defs.specs.ProviderCalls.{Asks};
    ghost use Rattle.vault.specs.Asking.{challenge_put, HasHeard, HasJudged, TakesAsk, HasRoomForAsk, CanJudge, CanAsk};

    /// Asks a provider, and keeps its answer, for which there is room.
    fn hear<P: Provider>(
        &mut self,
        master: &Master,
        question: &Question,
        provider: u32,
        from: &mut P,
    )
        requires { HasRoomForAsk self.old.heard }
        ensures heard { (symbol : Option ℕ) × HasHeard question.now provider self.old self.new symbol
            × Asks (honest_answer (challenge_put master.now.0 question.now)) question.now.file.id
            (provider_seen P.Provider from.old)
            symbol (provider_seen P.Provider from.new) }
        ensures called { P.calls from.new ≡ one_more (P.calls from.old) }
    {
        let question = *question;
        let object = question.file.id;
        let round = question.round;
        let challenge = round_challenge(
            master,
            &question.file,
            question.number,
            round,
            question.picks,
        );
        let symbol = ask_provider(from, object, &challenge);
        self.heard.asks.push_reserved(Ask {
            provider,
            object,
            round,
        });
        self.heard.symbols.push_reserved(symbol);
    }

    /// Judges the round of the last answers, one of each provider.
    fn judge(&mut self, master: &Master, question: &Question, work: &mut Work)
        requires size { 16 ≤ work.old.size }
        requires there { CanJudge question.now.file.shape.n self.old }
        ensures judged { HasJudged master.now.0 question.now self.old self.new }
        ensures room { work.new.size ≡ work.old.size }
    {
        let question = *question;
        let start = self.heard.symbols.len() - usize::from(question.file.shape.n);
        let mut counts = self.counts;
        let mut undecided = self.undecided;
        judge_round(
            master,
            &question.file,
            question.number,
            question.round,
            question.picks,
            &self.heard.symbols[start..],
            &mut counts,
            &mut undecided,
            work,
        );
        self.counts = counts;
        self.undecided = undecided;
    }

    /// Asks a provider, and judges the round where it is the last one.
    fn ask<P: Provider>(
        &mut self,
        master: &Master,
        question: &Question,
        provider: u32,
        from: &mut P,
        work: &mut Work,
    )
        requires size { 16 ≤ work.old.size }
        requires there { CanAsk question.now.file.shape.n provider self.old }
        ensures asked { (symbol : Option ℕ)
            × TakesAsk master.now.0 question.now provider self.old self.new symbol
            × Asks (honest_answer (challenge_put master.now.0 question.now)) question.now.file.id
            (provider_seen P.Provider from.old)
            symbol (provider_seen P.Provider from.new) }
        ensures called { P.calls from.new ≡ one_more (P.calls from.old) }
        ensures room { work.new.size ≡ work.old.size }
    {
        self.hear(master, question, provider, from);
        if u64::from(provider) + 1 != u64::from(question.file.shape.n) {
            return;
        }
        self.judge(master, question, work);
    }
}

impl Task {
    /// Makes an ask of an audit.
    fn ask<P: Provider>(
        &mut self,
        master: &Master,
        question: &Question,
        provider: u32,
        from: &mut P,
        work: &mut Work,
    )
        requires size { 16 ≤ work.old.size }
        requires there { MayAsk question.now.file.shape.n provider self.old }
        ensures asked { (symbol : Option ℕ)
            × Asked master.now.0 question.now provider self.old self.new symbol
            × Asks (honest_answer (challenge_put master.now.0 question.now)) question.now.file.id
            (provider_seen P.Provider from.old)
            symbol (provider_seen P.Provider from.new) }
        ensures called { P.calls from.new ≡ one_more (P.calls from.old) }
        ensures room { work.new.size ≡ work.old.size }
    {
        match self {
            Task::Audit(audit) => audit.ask(master, question, provider, from, work),
            Task::Put(_)
            | Task::Stream(_)
            | Task::Get(_)
            | Task::Drop
            | Task::Repair(_)
            | Task::Upgrade => unreachable!(),
        }
    }

    /// The reply to an ask of an audit, which was the last one or not: to the last one its verdict.
    fn reply(&self, is_last: bool) -> Reply
        requires { IsAuditing self.now }
        ensures { TellsAsk is_last self.now result }
    {
        if !is_last {
            return Reply::Done;
        }
        match self {
            Task::Audit(audit) => Reply::Verdict {
                undecided: audit.undecided,
                counts: audit.counts,
            },
            Task::Put(_)
            | Task::Stream(_)
            | Task::Get(_)
            | Task::Drop
            | Task::Repair(_)
            | Task::Upgrade => unreachable!(),
        }
    }
}

impl Desk {
    /// The file of an object number among those that a running job works on, if it is there.
    fn pin_in(&self, job: u32, object: u64) -> Option<Pinned>
        ensures { pin_in self.now.core job object ≡ result }
    {
        match self.core.pinned(job) {
            Some(pinned) => pin_of(pinned, object),
            None => None,
        }
    }

    /// The profile of a file that a running job works on, by its object number; the setup's where there is
    /// none.
    pub(crate) fn profile_in(&self, job: u32, object: u64) -> u8
        ensures { result ≡ profile_or self.now.setup.profile (pin_in self.now.core job object) }
    {
        match self.pin_in(job, object) {
            Some(file) => file.profile,
            None => self.setup.profile,
        }
    }

    /// What an ask of a running audit is for.
    fn question(&self, job: u32, object: u64, round: u32) -> Question
        requires runs { RunsIn self.now.core job }
        requires there { ∥ MayPut self.now job object ∥₁ }
        ensures { IsQuestion self.now job object round result }
    {
        let Some(file) = self.pin_in(job, object) else {
            unreachable!()
        };
        let number = self.subject_of(job);
        let picks = u32::from(self.setup.picks);
        Question {
            file: FileShape {
                id: object,
                length: file.length,
                shape: self.shape,
                profile: profile_at(file.profile),
            },
            number,
            round,
            picks,
        }
    }

    /// Asks a provider for its answer in a round, and judges the round where it is the last one. A provider
    /// that fails gives none.
    pub fn ask<P: Provider>(
        &mut self,
        job: u32,
        provider: u32,
        object: u64,
        round: u32,
        providers: &mut [P],
    ) -> Turn
        requires next { Comes self.old.core job (AskAction provider object round) }
        requires there { provider < length providers.old }
        requires at_work { IsAtWork self.old }
        ensures machine { (w : State) (moment : ℕ) (holds : Option Cells) (faults : ℕ) (is_told : Bool)
            → DeskStands self.old (devices holds faults (map (sight is_told P.Provider) providers.old)) w
            → DeskMakesStep w moment job result self.new
            (devices holds faults (map (sight is_told P.Provider) providers.old))
            (devices holds faults (map (sight is_told P.Provider) providers.new)) }
        ensures calls { CallsOnly P.calls (Some provider) providers.old providers.new }
        ensures acted { HasActed self.old.core self.new.core job result }
        ensures more { result ≡ turn.More }
    {
        let question = self.question(job, object, round);
        let place = self.place_of(job);
        let index = provider as usize;
        let task = &mut self.jobs[place].task;
        task.ask(
            &self.master,
            &question,
            provider,
            &mut providers[index],
            &mut self.codec.work,
        );
        let is_last = self.core.is_last_ask(job);
        let reply = task.reply(is_last);
        self.core.feed(job, reply);
        Turn::More
    }
}
