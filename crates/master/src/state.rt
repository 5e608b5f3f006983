// The master's state and its parts, the fresh state, and the state with one part replaced.
ghost use Rattle.std.specs.Prelude.{◌≡◌};
ghost use Rattle.master.specs.Fresh.{fresh as freshState, never_received, limits as limitsOf};
ghost use Rattle.master.specs.State.{with_pending, with_plan, with_transfer, with_message, with_status, with_received};

use cluster::Limits;
use transport::reassembly::Assembly;

// Where the schedule stands.
#[derive(Clone, Copy)]
pub struct Plan {
    // The ticks left in the current slot.
    pub wait: u16,
    // The number of the current entry in the table, if there is one.
    pub current: Option<u16>,
    // The schedule that begins at the next slot start, if one was asked for.
    pub requested: Option<u16>,
}

// What an open transfer is of: a frame by its number, the request (60) or the response (61).
#[derive(Clone, Copy)]
pub enum Opened {
    // Kept: `is_open` (specs/Transfers), `no_transfer` (Fresh), `opened_of` (desk, Taken) and the claim's `open_after ≡ Nothing` go by this case.
    Nothing,
    Frame(u16),
    Request,
    Response,
}

// The transfer record.
#[derive(Clone, Copy)]
pub struct Transfer {
    pub opened: Opened,
    // The response bytes that have passed.
    // Kept: `early`, `passed` (specs/Byte) and `count_fits` (Fits) go by this number; `opening` (Transfers) fills the nine bytes before any passes.
    pub count: u8,
    // Data and checksum: copied at the opening of a sent transfer, gathered in a received one; the unused ones are 255.
    pub bytes: [u8; 9],
    // A write to the frame came after the opening.
    pub written: bool,
}

// A message that is being sent: to which NAD, its length, and the number of its next frame, from 0.
#[derive(Clone, Copy)]
pub struct Sending {
    pub nad: u8,
    pub length: u16,
    pub next: u16,
}

// The diagnostic message.
#[derive(Clone, Copy)]
pub enum Message {
    // Kept: `told` (specs/Message), `is_sending` (Fits), and the replies' `message_after` and `message_reply` go by this case.
    None,
    Sending(Sending),
    Completed,
    Failed,
}

// Status in its parts.
#[derive(Clone, Copy)]
pub struct Status {
    pub error: bool,
    pub success: bool,
    pub overrun: bool,
    // The protected identifier of the last transfer counted.
    pub last: u8,
}

// What is kept of a signal's receptions: the placement that was received last, by its number in the table, if one was.
#[derive(Clone, Copy)]
pub struct Reception {
    pub last: Option<u16>,
}

// The whole state.
#[derive(Clone, Copy)]
pub struct State {
    pub pending: [bool; Limits::FRAMES],
    pub plan: Plan,
    pub transfer: Transfer,
    pub message: Message,
    pub status: Status,
    pub received: [Reception; Limits::SIGNALS],
}

impl Reception {
    // Before any reception.
    pub fn never() -> Reception
        ensures { result ≡ never_received }
    {
        Reception { last: None }
    }
}

impl State {
    // Nothing pending, no schedule, no transfer, no message, status 0, nothing received.
    #[tactic(auto, unfolding(crate::specs::Fresh::fresh))]
    pub fn fresh() -> State
        ensures { result ≡ freshState }
    {
        State {
            pending: [false; Limits::FRAMES],
            plan: Plan::none(),
            transfer: Transfer::none(),
            message: Message::None,
            status: Status::none(),
            received: [Reception::never(); Limits::SIGNALS],
        }
    }

    // The limits of document 01: frames, signals or entries, bytes of a message.
    pub fn limits() -> [u16; 3]
        ensures { result ≡ limitsOf }
    {
        [
            Limits::FRAMES as u16,
            Limits::SIGNALS as u16,
            Assembly::LONGEST,
        ]
    }

    // The state with other pending bits.
    pub(crate) fn with_pending(self, pending: [bool; Limits::FRAMES]) -> State
        ensures { result ≡ with_pending self pending }
    {
        State { pending, ..self }
    }

    // The state with another plan.
    pub(crate) fn with_plan(self, plan: Plan) -> State
        ensures { result ≡ with_plan self plan }
    {
        State { plan, ..self }
    }

    // The state with another transfer record.
    pub(crate) fn with_transfer(self, transfer: Transfer) -> State
        ensures { result ≡ with_transfer self transfer }
    {
        State { transfer, ..self }
    }

    // The state with another message.
    pub(crate) fn with_message(self, message: Message) -> State
        ensures { result ≡ with_message self message }
    {
        State { message, ..self }
    }

    // The state with another status.
    pub(crate) fn with_status(self, status: Status) -> State
        ensures { result ≡ with_status self status }
    {
        State { status, ..self }
    }

    // The state with other receptions.
    pub(crate) fn with_received(self, received: [Reception; Limits::SIGNALS]) -> State
        ensures { result ≡ with_received self received }
    {
        State { received, ..self }
    }
}
