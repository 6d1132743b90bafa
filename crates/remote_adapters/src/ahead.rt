// A link over which requests are sent before the answers to earlier ones are read.
ghost use Rattle.std.specs.Prelude.{◌≡◌, ◌≤◌, ◌<◌, ◌+◌, ◌↔◌, ℕ, true, false, length, IfOk, OnOk, OnErr, IsOk, IsErr, IsSome, IsTrue};
ghost use Rattle.device_defs.specs.Told.{Goes};
ghost use Rattle.wire_defs.specs.Links.{Sends};
ghost use Rattle.wire_defs.specs.Requests.{Request, SpellsRequest};
ghost use Rattle.remote_adapters.specs.BlocksAhead.{due_of, HasCome, IsAhead, IsAheadOf};
ghost use Rattle.remote_adapters.specs.Shapes.{HasShape};
ghost use Rattle.remote_adapters.specs.Waits.{due_beside, stores_due};
ghost use Rattle.remote_adapters.specs.Yes.{HearsEach};

use crate::answer::{Answer, DONE, receive_answer, receive_done};
use crate::blocks::{Blocks, FRAMES};
use crate::place::{ASK, FETCH, Place, REMOVE, STORE, object_of, place_of};
use provider_wire::Link;
use std::alloc::Global;
use stream_model::{Failed, Memory};

/// So many stores, or removals, have no answer yet at most: as their answers are bytes, all of these fit into
/// the smallest pipe, so that the far end always goes on to read what is sent.
const MOST_DUE: u32 = 1024;

/// The bytes of a question.
const QUESTION: usize = 51;

/// The bytes of a symbol.
const SYMBOL: usize = 16;

/// What the answers are to that are still due. All are of one kind: before a request of another kind is sent
/// they are read.
#[derive(Clone, Copy, PartialEq, Eq)]
pub enum Waiting {
    /// Nothing is due.
    Nothing,
    /// So many stores.
    Stores(u32),
    /// So many removals.
    Removals(u32),
    /// The blocks that are asked for.
    Blocks,
    /// A question.
    Question,
}

/// The answer that the caller is to get next.
#[derive(Clone, Copy, PartialEq, Eq)]
enum Wanted {
    /// It is there.
    Ready,
    /// That to the fetch of this stripe.
    Block(u64),
    /// That to a question.
    Question,
}

/// A link to a far end over which requests go out before the answers to earlier ones are read.
///
/// A store and a removal are answered here as done, at once. What the far end says of a store is read later,
/// at the latest by `settle`: where it is no yes, that call fails, and each one behind it. Behind a fetch the
/// next blocks of its object are asked for too. A block that came so is given to its fetch, unless a store or
/// a removal was made that may change it.
#[derive(Drop)]
pub struct AheadLink<L: Link + Drop> {
    link: L,
    waiting: Waiting,
    blocks: Blocks,
    question: [u8; 51],
    wanted: Wanted,
    answer: Answer,
    given: usize,
    broken: bool,
    ghost of_one_kind: { due_beside waiting blocks ≡ 0 },
}

/// Copies as many bytes from `at` on as fit or are there, and tells how many.
fn copy_from(bytes: &[u8], at: usize, out: &mut [u8]) -> usize
    ensures at_most { result ≤ length out.old }
    ensures there { at ≤ length bytes.now → at + result ≤ length bytes.now }
{
    if at >= bytes.len() {
        return 0;
    }
    let n = out.len().min(bytes.len() - at);
    out[..n].copy_from_slice(&bytes[at..at + n]);
    n
}

/// Receives so many answers of one byte.
fn receive_each<L: Link>(link: &mut L, due: u32, may_fail: bool) -> Result<(), Failed>
    ensures { may_fail ≡ false → OnOk result (HearsEach due (L.behind link.old) (L.behind link.new)) }
{
    let mut left = due;
    while left > 0 {
        left -= receive_done(link, left, may_fail)?;
    }
    Ok(())
}

/// Receives an answer that nobody wants.
fn receive_any<L: Link>(link: &mut L, tail: usize) -> Result<(), Failed>
    requires { tail ≤ 2048 }
{
    receive_answer(link, tail)?;
    Ok(())
}

/// Receives the answer that is due first.
fn receive_block<L: Link>(link: &mut L, blocks: &mut Blocks) -> Result<(), Failed>
    requires { 0 < due_of blocks.old }
    ensures { OnOk result (HasCome blocks.old blocks.new) }
{
    let answer = receive_answer(link, blocks.tail())?;
    blocks.take(answer).map_err(|_| Failed)
}

/// Receives the answers that are due of blocks that were asked for.
fn receive_blocks<L: Link>(link: &mut L, blocks: &mut Blocks) -> Result<(), Failed>
    ensures { OnOk result (due_of blocks.new ≡ 0) }
{
    while blocks.due() > 0 {
        receive_block(link, blocks)?;
    }
    Ok(())
}

/// The answer to the fetch of a stripe, where its object was asked for, by what came and what is due.
fn block_of<L: Link>(link: &mut L, blocks: &mut Blocks, wanted: u64) -> Result<Answer, Failed>
    ensures { due_of blocks.old ≡ 0 → due_of blocks.new ≡ 0 }
{
    loop {
        if let Some((stripe, answer)) = blocks.give() {
            if stripe == wanted {
                return Ok(answer);
            }
        } else {
            if blocks.due() == 0 {
                return Err(Failed);
            }
            receive_block(link, blocks)?;
        }
    }
}

impl<L: Link + Drop> AheadLink<L> {
    /// A link of which nothing is due. Want of memory is its one refusal.
    pub fn new(alloc: Global, link: L) -> Result<AheadLink<L>, Memory>
        ensures link { IfOk result (λ ahead. ahead.link ≡ link) }
        ensures waiting { IfOk result (λ ahead. ahead.waiting ≡ Waiting.Nothing) }
        ensures broken { IfOk result (λ ahead. ahead.broken ≡ false) }
    {
        Ok(AheadLink {
            link,
            waiting: Waiting::Nothing,
            blocks: Blocks::new(alloc)?,
            question: [0; QUESTION],
            wanted: Wanted::Ready,
            answer: Answer::of(DONE),
            given: 1,
            broken: false,
        })
    }

    /// No call failed.
    fn is_sound(&self) -> Result<(), Failed>
        ensures { IsErr result ↔ IsTrue self.now.broken }
    {
        if self.broken { Err(Failed) } else { Ok(()) }
    }

    /// Reads the answers that are due.
    fn read_due(&mut self) -> Result<(), Failed>
        ensures waiting { self.new.waiting ≡ self.old.waiting }
        ensures broken { self.new.broken ≡ self.old.broken }
        ensures none { OnOk result (due_of self.new.blocks ≡ 0) }
        ensures nothing { self.old.waiting ≡ Waiting.Nothing → IsOk result × (self.new.link ≡ self.old.link) }
        ensures yes { (n : ℕ) → self.old.waiting ≡ Waiting.Stores n
            → OnOk result (HearsEach n (L.behind self.old.link) (L.behind self.new.link)) }
    {
        match self.waiting {
            Waiting::Nothing => Ok(()),
            Waiting::Stores(due) => receive_each(&mut self.link, due, false),
            Waiting::Removals(due) => receive_each(&mut self.link, due, true),
            Waiting::Blocks => receive_blocks(&mut self.link, &mut self.blocks),
            Waiting::Question => receive_any(&mut self.link, SYMBOL),
        }
    }

    /// Reads the answers that are due. Where that fails they stay due.
    fn drain(&mut self) -> Result<(), Failed>
        ensures ok { OnOk result (self.new.waiting ≡ Waiting.Nothing) }
        ensures err { OnErr result (self.new.waiting ≡ self.old.waiting) }
        ensures broken { self.new.broken ≡ self.old.broken }
        ensures nothing { self.old.waiting ≡ Waiting.Nothing → IsOk result × (self.new.link ≡ self.old.link) }
        ensures yes { (n : ℕ) → self.old.waiting ≡ Waiting.Stores n
            → OnOk result (HearsEach n (L.behind self.old.link) (L.behind self.new.link)) }
    {
        self.read_due()?;
        self.waiting = Waiting::Nothing;
        Ok(())
    }

    /// Reads some answers to so many stores that are due, and tells how many are due then.
    fn read_some(&mut self, due: u32) -> Result<u32, Failed>
        requires some { 1 ≤ due }
        requires due { self.old.waiting ≡ Waiting.Stores due }
        ensures ok { IfOk result (λ left. (self.new.waiting ≡ Waiting.Stores left) × (left < due)) }
        ensures none { due_of self.new.blocks ≡ 0 }
        ensures broken { self.new.broken ≡ self.old.broken }
    {
        let left = due - receive_done(&mut self.link, due, false)?;
        self.waiting = Waiting::Stores(left);
        Ok(left)
    }

    /// Makes room for one more store, and tells how many are due.
    fn stores(&mut self) -> Result<u32, Failed>
        ensures due { IfOk result (λ due. stores_due self.new.waiting ≡ due) }
        ensures few { IfOk result (λ due. due < 1024) }
        ensures none { OnOk result (due_of self.new.blocks ≡ 0) }
        ensures broken { self.new.broken ≡ self.old.broken }
        ensures nothing { self.old.waiting ≡ Waiting.Nothing → IsOk result × (self.new.link ≡ self.old.link) }
    {
        match self.waiting {
            Waiting::Stores(due) if due < MOST_DUE => Ok(due),
            Waiting::Stores(due) if due == MOST_DUE => self.read_some(due),
            _ => {
                self.drain()?;
                Ok(0)
            }
        }
    }

    /// Makes room for one more removal, and tells how many are due.
    fn removals(&mut self) -> Result<u32, Failed>
        ensures few { IfOk result (λ due. due < 1024) }
        ensures stores { OnOk result (stores_due self.new.waiting ≡ 0) }
        ensures none { OnOk result (due_of self.new.blocks ≡ 0) }
        ensures broken { self.new.broken ≡ self.old.broken }
        ensures nothing { self.old.waiting ≡ Waiting.Nothing → IsOk result × (self.new.link ≡ self.old.link) }
    {
        match self.waiting {
            Waiting::Removals(due) if due < MOST_DUE => Ok(due),
            _ => {
                self.drain()?;
                Ok(0)
            }
        }
    }

    /// Sends a store, whose answer is due until `settle`. No block that was read ahead stands for it then.
    fn store(&mut self, place: Place, request: &[u8]) -> Result<(), Failed>
        ensures due { OnOk result (0 < stores_due self.new.waiting) }
        ensures few { OnOk result (stores_due self.new.waiting ≤ 1024) }
        ensures forgets { OnOk result ((size : ℕ) → IsAheadOf size place.object place.stripe self.new.blocks
            → ⊥) }
        ensures broken { self.new.broken ≡ self.old.broken }
        ensures sent { self.old.waiting ≡ Waiting.Nothing
            → OnOk result (Goes (Sends request.now) (L.behind self.old.link) (L.behind self.new.link)) }
        ensures sure { self.old.waiting ≡ Waiting.Nothing → IsSome (L.behind self.old.link) → IsOk result }
    {
        let due = self.stores()?;
        self.blocks.forget_block(place);
        self.link.send(request)?;
        self.waiting = Waiting::Stores(due + 1);
        Ok(())
    }

    /// Sends a removal. No block of its object that was read ahead is kept.
    fn remove(&mut self, object: u64, request: &[u8]) -> Result<(), Failed>
        ensures stores { OnOk result (stores_due self.new.waiting ≡ 0) }
        ensures forgets { OnOk result (IsAhead object self.new.blocks → ⊥) }
        ensures broken { self.new.broken ≡ self.old.broken }
        ensures sent { self.old.waiting ≡ Waiting.Nothing
            → OnOk result (Goes (Sends request.now) (L.behind self.old.link) (L.behind self.new.link)) }
        ensures sure { self.old.waiting ≡ Waiting.Nothing → IsSome (L.behind self.old.link) → IsOk result }
    {
        let due = self.removals()?;
        self.blocks.forget(object);
        self.link.send(request)?;
        self.waiting = Waiting::Removals(due + 1);
        Ok(())
    }

    /// Asks for the next blocks, where few are asked for. Nothing else is due.
    fn ask_ahead(&mut self) -> Result<(), Failed>
        ensures broken { self.new.broken ≡ self.old.broken }
        ensures sure { IsSome (L.behind self.old.link) → IsOk result }
    {
        if !self.blocks.is_low() {
            return Ok(());
        }
        let mut frames = [0; FRAMES];
        let len = self.blocks.put_fetches(&mut frames);
        self.waiting = Waiting::Blocks;
        self.link.send(&frames[..len])
    }

    /// Begins to ask for blocks, from this one on. Nothing is due.
    fn begin(&mut self, place: Place) -> Result<(), Failed>
        requires { place.size ≤ 128 }
        ensures broken { self.new.broken ≡ self.old.broken }
        ensures sure { self.old.waiting ≡ Waiting.Nothing → IsSome (L.behind self.old.link) → IsOk result }
    {
        self.drain()?;
        self.blocks.turn_to(place);
        self.ask_ahead()
    }

    /// Goes on asking for blocks, of which some are asked for, unless something else is due.
    fn go_on(&mut self) -> Result<(), Failed>
        ensures broken { self.new.broken ≡ self.old.broken }
        ensures sure { IsSome (L.behind self.old.link) → IsOk result }
    {
        match self.waiting {
            Waiting::Nothing | Waiting::Blocks => self.ask_ahead(),
            _ => Ok(()),
        }
    }

    /// Sends what is to be sent for a fetch, and tells whether its block was not asked for yet.
    fn fetch(&mut self, place: Place) -> Result<bool, Failed>
        requires { place.size ≤ 128 }
        ensures broken { self.new.broken ≡ self.old.broken }
        ensures sure { self.old.waiting ≡ Waiting.Nothing → IsSome (L.behind self.old.link) → IsOk result }
    {
        let is_new = !self.blocks.has(place);
        if is_new {
            self.begin(place)?;
        } else {
            self.go_on()?;
        }
        Ok(is_new)
    }

    /// Whether a question was sent, and its answer is due.
    fn is_asked(&self, request: &[u8]) -> bool
        ensures { self.now.waiting ≡ Waiting.Nothing → result ≡ false }
    {
        self.waiting == Waiting::Question && request == self.question.as_slice()
    }

    /// Sends a question of 51 bytes, unless it was sent, and tells whether it was not.
    fn ask(&mut self, request: &[u8]) -> Result<bool, Failed>
        ensures broken { self.new.broken ≡ self.old.broken }
        ensures sent { self.old.waiting ≡ Waiting.Nothing
            → OnOk result (Goes (Sends request.now) (L.behind self.old.link) (L.behind self.new.link)) }
        ensures sure { self.old.waiting ≡ Waiting.Nothing → IsSome (L.behind self.old.link) → length request.now ≡ 51
            → IsOk result }
    {
        if self.is_asked(request) {
            return Ok(false);
        }
        if request.len() != QUESTION {
            return Err(Failed);
        }
        self.drain()?;
        self.link.send(request)?;
        self.waiting = Waiting::Question;
        self.question.copy_from_slice(request);
        Ok(true)
    }

    /// Sends a request, and tells whether the same may be asked of others.
    fn send_one(&mut self, request: &[u8]) -> Result<bool, Failed>
        ensures broken { self.new.broken ≡ self.old.broken }
        ensures sure { self.old.waiting ≡ Waiting.Nothing → IsSome (L.behind self.old.link) → HasShape request.now
            → IsOk result }
    {
        match request {
            [STORE, ..] => {
                self.store(place_of(request).ok_or(Failed)?, request)?;
                Ok(false)
            }
            [REMOVE, ..] => {
                self.remove(object_of(request).ok_or(Failed)?, request)?;
                Ok(false)
            }
            [FETCH, ..] => match place_of(request) {
                Some(place) => self.fetch(place),
                None => Err(Failed),
            },
            [ASK, ..] => self.ask(request),
            _ => Err(Failed),
        }
    }

    /// Sends a request, unless a call failed, and tells whether the same may be asked of others.
    fn try_send(&mut self, request: &[u8]) -> Result<bool, Failed>
        ensures same { self.new.broken ≡ self.old.broken }
        ensures broken { IsTrue self.old.broken → IsErr result }
        ensures sure { self.old.broken ≡ false → self.old.waiting ≡ Waiting.Nothing → IsSome (L.behind self.old.link)
            → HasShape request.now → IsOk result }
    {
        self.is_sound()?;
        self.send_one(request)
    }

    /// What is wanted behind a request.
    fn want(&mut self, request: &[u8])
        ensures broken { self.new.broken ≡ self.old.broken }
    {
        self.given = 0;
        self.wanted = match request {
            [FETCH, ..] => match place_of(request) {
                Some(place) => Wanted::Block(u64::from(place.stripe)),
                None => Wanted::Ready,
            },
            [ASK, ..] => Wanted::Question,
            _ => {
                self.answer = Answer::of(DONE);
                Wanted::Ready
            }
        };
    }

    /// Marks the link as broken where a call failed.
    fn told<T>(&mut self, answer: Result<T, Failed>) -> Result<T, Failed>
        ensures same { result ≡ answer }
        ensures ok { OnOk result (self.new ≡ self.old) }
        ensures broken { OnErr result (IsTrue self.new.broken) }
        ensures waiting { self.new.waiting ≡ self.old.waiting }
    {
        if answer.is_err() {
            self.broken = true;
        }
        answer
    }

    /// Sends a request, whose answer `receive` gives then. Tells whether it is one that may be sent ahead to
    /// other far ends, since they are likely to be asked the same next.
    ///
    /// Over a link that tells what is behind it each request that is spelled is sent where nothing is due.
    pub fn send(&mut self, request: &[u8]) -> Result<bool, Failed>
        ensures was { IsTrue self.old.broken → IsErr result }
        ensures broken { OnErr result (IsTrue self.new.broken) }
        ensures sound { OnOk result (self.new.broken ≡ self.old.broken) }
        ensures sure { (r : Request) → SpellsRequest request.now r → self.old.broken ≡ false
            → self.old.waiting ≡ Waiting.Nothing → IsSome (L.behind self.old.link) → IsOk result }
    {
        let sent = self.try_send(request);
        self.want(request);
        self.told(sent)
    }

    /// Sends a request of which the answer is likely to be wanted next.
    pub fn send_ahead(&mut self, request: &[u8]) {
        let sent = self.try_send(request);
        let _ = self.told(sent);
    }

    /// The answer to a fetch of a stripe that is asked for.
    fn block(&mut self, wanted: u64) -> Result<Answer, Failed>
        ensures broken { self.new.broken ≡ self.old.broken }
        ensures waiting { self.new.waiting ≡ self.old.waiting }
    {
        block_of(&mut self.link, &mut self.blocks, wanted)
    }

    /// The answer to the question that was sent.
    fn answered(&mut self) -> Result<Answer, Failed>
        ensures { self.new.broken ≡ self.old.broken }
    {
        if self.waiting != Waiting::Question {
            return Err(Failed);
        }
        let answer = receive_answer(&mut self.link, SYMBOL)?;
        self.waiting = Waiting::Nothing;
        Ok(answer)
    }

    /// Reads the answer that is wanted.
    fn read_wanted(&mut self) -> Result<(), Failed>
        ensures same { self.new.broken ≡ self.old.broken }
        ensures broken { IsTrue self.old.broken → IsErr result }
    {
        self.is_sound()?;
        match self.wanted {
            Wanted::Ready => {}
            Wanted::Block(stripe) => self.answer = self.block(stripe)?,
            Wanted::Question => self.answer = self.answered()?,
        }
        self.wanted = Wanted::Ready;
        Ok(())
    }

    /// Gives some first bytes of the answer that are still to be given, and says how many.
    pub fn receive(&mut self, out: &mut [u8]) -> Result<usize, Failed>
        ensures at_most { IfOk result (λ n. n ≤ length out.old) }
        ensures was { IsTrue self.old.broken → IsErr result }
        ensures broken { OnErr result (IsTrue self.new.broken) }
    {
        let read = self.read_wanted();
        self.told(read)?;
        let count = copy_from(self.answer.as_slice(), self.given, out);
        self.given = self.given.saturating_add(count);
        Ok(count)
    }

    /// Reads all answers that are due, if no call failed.
    fn try_drain(&mut self) -> Result<(), Failed>
        ensures ok { OnOk result (self.new.waiting ≡ Waiting.Nothing) }
        ensures err { OnErr result (self.new.waiting ≡ self.old.waiting) }
        ensures same { self.new.broken ≡ self.old.broken }
        ensures broken { IsTrue self.old.broken → IsErr result }
        ensures yes { (n : ℕ) → self.old.waiting ≡ Waiting.Stores n
            → OnOk result (HearsEach n (L.behind self.old.link) (L.behind self.new.link)) }
    {
        self.is_sound()?;
        self.drain()
    }

    /// Reads the answers to all stores. It fails where one is missing, or is no yes, and then ever again.
    /// Over a link that tells what is behind it each was a yes.
    pub fn settle(&mut self) -> Result<(), Failed>
        ensures yes { (n : ℕ) → 0 < n → self.old.waiting ≡ Waiting.Stores n
            → OnOk result (HearsEach n (L.behind self.old.link) (L.behind self.new.link)) }
        ensures was { IsTrue self.old.broken → 0 < stores_due self.old.waiting → IsErr result }
        ensures ok { OnOk result (stores_due self.new.waiting ≡ 0) }
        ensures err { OnErr result (0 < stores_due self.new.waiting) }
        ensures broken { OnErr result (IsTrue self.new.broken) }
    {
        match self.waiting {
            Waiting::Stores(due) if due > 0 => {
                let settled = self.try_drain();
                self.told(settled)
            }
            _ => Ok(()),
        }
    }

    /// Reads all answers that are due, so that the far end finds a reader for each.
    pub fn finish(&mut self) {
        let read = self.try_drain();
        let _ = self.told(read);
    }
}
