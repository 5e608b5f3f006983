// The tick.
ghost use Rattle.std.specs.Prelude.{true, cond, ◌≡◌, length, Ok};
ghost use Rattle.master.specs.Fits.{is_sending, state_fits};
ghost use Rattle.master.specs.declared.state.Opened.TheVariants.{Request, Nothing};
ghost use Rattle.master.specs.Parts.{Judged};
ghost use Rattle.master.specs.Tick.{slot_opens, abandoned as abandonedOf, opens_or_silent, slot as slot_of, tick_verdict, tick_of};
ghost use Rattle.master.specs.Answers.{handed, tick_told};
ghost use Rattle.master.specs.Calls as call;
ghost use Rattle.master.specs.Run.{held};
ghost use Rattle.master.specs.Told.{call_told};

use crate::admit::refused;
use crate::closing::InTransfer;
use crate::pending::PendingList;
use crate::state::{Message, Opened, Plan, State};
use crate::transfer::{Known, Opening};
use cluster::entries::EntryKind;
use cluster::right::Right;
use cluster::{Limits, entries};
use refusal::Refusal;

// What a tick answers; opened tells the protected identifier.
#[derive(Clone, Copy)]
pub enum TickAnswer {
    Waiting,
    Idle,
    Silent,
    Opened(u8),
}

impl State {
    // One tick: the wait falls, or a slot starts. The state is handed back, as it was where the tick is refused.
    pub fn tick(self, t: &[u16], bytes: &[u8], lent: &[u8]) -> (State, Result<TickAnswer, Refusal>)
        ensures value { handed result.0 result.1 ≡ tick_of t.now bytes.now lent.now self }
        ensures told { tick_told result.1 ≡ call_told t.now (held self bytes.now) (call.tick lent.now) }
    {
        let t = match self.judge_tick(t, bytes.len(), lent.len()) {
            Ok(right) => right,
            Err(refusal) => return (self, Err(refusal)),
        };
        if self.plan.waits() {
            return (self.with_plan(self.plan.waited()), Ok(TickAnswer::Waiting));
        }
        let (next, answer) = self.slot(t, bytes, lent);
        (next, Ok(answer))
    }

    // Judges a tick, and hands the right table on.
    #[tactic(auto, using(crate::proofs::Judging::refused_before), unfolding(crate::specs::Tick::tick_verdict))]
    fn judge_tick(self, t: &[u16], size: usize, lent: usize) -> Result<Right, Refusal>
        ensures { Judged t.now (tick_verdict t.now size lent self) result }
    {
        let right = self.right_table(t, size)?;
        if !self.message.lent_fits(lent) {
            return refused(Refusal::STATE);
        }
        Ok(right)
    }

    // Starts a slot: an open transfer is closed as failed, and the entry due begins.
    fn slot<'a>(self, t: Right<'a>, bytes: &'a [u8], lent: &'a [u8]) -> (State, TickAnswer)
        requires { tick_verdict t.words.now (length bytes.now) (length lent.now) self ≡ Ok tt }
        ensures { handed result.0 (Ok result.1) ≡ slot_of t.entry.words.now bytes.now lent.now self }
    {
        let closed = self.abandoned(t);
        match self.plan.due(t.words) {
            None => (closed, TickAnswer::Idle),
            Some(e) => {
                let opened = slot_opens(t, closed.pending, closed.message, e);
                closed.with_plan(Plan::begun(t.words, e)).open(Opening {
                    known: Known { t, opened },
                    bytes,
                    lent,
                })
            }
        }
    }

    // Closes an open transfer as failed at a slot start.
    fn abandoned(self, t: Right) -> State
        requires { state_fits t.words.now self ≡ true }
        ensures { result ≡ abandonedOf t.entry.words.now self }
    {
        if self.transfer.opened.is_open() {
            return InTransfer { t, state: self }.failed(0 < self.transfer.count);
        }
        self
    }

    // Opens a transfer, or is silent.
    fn open(self, opening: Opening) -> (State, TickAnswer)
        ensures { handed result.0 (Ok result.1)
            ≡ opens_or_silent opening.entry.known.t.words.now opening.entry.bytes.now opening.entry.lent.now self opening.entry.known.opened }
    {
        if !opening.known.opened.is_open() {
            return (self, TickAnswer::Silent);
        }
        let next = self.with_transfer(opening.transfer(self.message));
        (next, TickAnswer::Opened(opening.known.protected()))
    }
}

// What a slot opens.
#[tactic(auto, unfolding(crate::specs::Tick::slot_opens))]
fn slot_opens(t: Right, pending: [bool; Limits::FRAMES], message: Message, e: u16) -> Opened
    ensures { result ≡ slot_opens t.entry.words.now pending message e }
{
    let target = entries::target(t.words, e);
    match entries::kind_of(t.words, e) {
        Some(EntryKind::Frame) => Opened::Frame(target),
        Some(EntryKind::List) => PendingList {
            t,
            pending,
            list: target,
        }
        .first(),
        Some(EntryKind::Request) => request_slot(message),
        _ => Opened::Response,
    }
}

// What a request slot opens.
fn request_slot(message: Message) -> Opened
    ensures { result ≡ cond (is_sending message) Request Nothing }
{
    if message.is_sending() {
        Opened::Request
    } else {
        Opened::Nothing
    }
}
