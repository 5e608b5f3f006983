// The master's state on the desk.
ghost use Rattle.std.specs.Prelude.{◌≡◌};
ghost use Rattle.desk.specs.Taken.{pending_on, chosen_of, plan_on, opened_of, nine_on, transfer_on, message_on, status_on};
ghost use Rattle.desk.specs.Taken.{received_on, state_on};
ghost use Rattle.desk.specs.Put.{number, open_number};
ghost use Rattle.desk.specs.Put.{with_pending, with_plan, with_nine, with_transfer, with_sending, with_message, with_status, with_received, with_state};

use crate::{
    BYTES, COMPLETED, COUNT, Desk, ENTRY, ERROR, FAILED, FRAMES, LAST, LENGTH, MESSAGE, NAD, NEXT,
    NONE, OPEN, OPEN_REQUEST, OPEN_RESPONSE, OVERRUN, RECEIVED, REQUEST, SENDING, SIGNALS, SUCCESS,
    WAIT, WRITTEN, byte, word,
};
use master::state::{Message, Opened, Plan, Reception, Sending, State, Status, Transfer};

// Takes the state.
pub fn take(desk: &Desk) -> State
    ensures { result ≡ state_on desk.now }
{
    State {
        pending: pending(desk),
        plan: plan(desk),
        transfer: transfer(desk),
        message: message(desk),
        status: status(desk),
        received: received(desk),
    }
}

// The pending bits.
fn pending(desk: &Desk) -> [bool; FRAMES]
    ensures { result ≡ pending_on desk.now }
{
    let mut pending = [false; FRAMES];
    for (f, bit) in pending.iter_mut().enumerate() {
        *bit = desk[f] == 1;
    }
    pending
}

// The plan.
fn plan(desk: &Desk) -> Plan
    ensures { result ≡ plan_on desk.now }
{
    Plan {
        wait: word(desk[WAIT]),
        current: chosen(desk[ENTRY]),
        requested: chosen(desk[REQUEST]),
    }
}

// An entry, a schedule or a placement, if there is one.
// Kept: this and the three conversions below can't be a `From`, since neither type is this crate's.
fn chosen(n: u32) -> Option<u16>
    ensures { result ≡ chosen_of n }
{
    if n == NONE { None } else { Some(word(n)) }
}

// The transfer record.
fn transfer(desk: &Desk) -> Transfer
    ensures { result ≡ transfer_on desk.now }
{
    Transfer {
        opened: opened(desk[OPEN]),
        count: byte(desk[COUNT]),
        bytes: nine(desk),
        written: desk[WRITTEN] == 1,
    }
}

// What is open.
fn opened(n: u32) -> Opened
    ensures { result ≡ opened_of n }
{
    match n {
        NONE => Opened::Nothing,
        OPEN_REQUEST => Opened::Request,
        OPEN_RESPONSE => Opened::Response,
        _ => Opened::Frame(word(n)),
    }
}

// The nine bytes of the transfer.
fn nine(desk: &Desk) -> [u8; 9]
    ensures { result ≡ nine_on desk.now }
{
    let mut bytes = [0u8; 9];
    for (i, place) in bytes.iter_mut().enumerate() {
        *place = byte(desk[BYTES + i]);
    }
    bytes
}

// The diagnostic message.
fn message(desk: &Desk) -> Message
    ensures { result ≡ message_on desk.now }
{
    match desk[MESSAGE] {
        SENDING => Message::Sending(Sending {
            nad: byte(desk[NAD]),
            length: word(desk[LENGTH]),
            next: word(desk[NEXT]),
        }),
        COMPLETED => Message::Completed,
        FAILED => Message::Failed,
        _ => Message::None,
    }
}

// The status in its parts.
fn status(desk: &Desk) -> Status
    ensures { result ≡ status_on desk.now }
{
    Status {
        error: desk[ERROR] == 1,
        success: desk[SUCCESS] == 1,
        overrun: desk[OVERRUN] == 1,
        last: byte(desk[LAST]),
    }
}

// The placements received last.
fn received(desk: &Desk) -> [Reception; SIGNALS]
    ensures { result ≡ received_on desk.now }
{
    let mut received = [Reception::never(); SIGNALS];
    for (s, reception) in received.iter_mut().enumerate() {
        reception.last = chosen(desk[RECEIVED + s]);
    }
    received
}

// Puts a state.
pub fn put(desk: &mut Desk, state: State)
    ensures { desk.new ≡ with_state state desk.old }
{
    put_pending(desk, &state.pending);
    put_plan(desk, state.plan);
    put_transfer(desk, state.transfer);
    put_message(desk, state.message);
    put_status(desk, state.status);
    put_received(desk, &state.received);
}

// Puts the pending bits.
fn put_pending(desk: &mut Desk, pending: &[bool; FRAMES])
    ensures { desk.new ≡ with_pending pending.now desk.old }
{
    for (f, &bit) in pending.iter().enumerate() {
        desk[f] = u32::from(bit);
    }
}

// Puts the plan.
fn put_plan(desk: &mut Desk, plan: Plan)
    ensures { desk.new ≡ with_plan plan desk.old }
{
    desk[WAIT] = u32::from(plan.wait);
    desk[ENTRY] = number(plan.current);
    desk[REQUEST] = number(plan.requested);
}

// An entry, a schedule or a placement as a number.
fn number(chosen: Option<u16>) -> u32
    ensures { result ≡ number chosen }
{
    chosen.map_or(NONE, u32::from)
}

// Puts the transfer record.
fn put_transfer(desk: &mut Desk, transfer: Transfer)
    ensures { desk.new ≡ with_transfer transfer desk.old }
{
    desk[OPEN] = open_number(transfer.opened);
    desk[COUNT] = u32::from(transfer.count);
    desk[WRITTEN] = u32::from(transfer.written);
    put_nine(desk, &transfer.bytes);
}

// What is open as a number.
fn open_number(opened: Opened) -> u32
    ensures { result ≡ open_number opened }
{
    match opened {
        Opened::Nothing => NONE,
        Opened::Frame(f) => u32::from(f),
        Opened::Request => OPEN_REQUEST,
        Opened::Response => OPEN_RESPONSE,
    }
}

// Puts the nine bytes of the transfer.
fn put_nine(desk: &mut Desk, bytes: &[u8; 9])
    ensures { desk.new ≡ with_nine bytes.now desk.old }
{
    for (i, &byte) in bytes.iter().enumerate() {
        desk[BYTES + i] = u32::from(byte);
    }
}

// Puts the diagnostic message.
fn put_message(desk: &mut Desk, message: Message)
    ensures { desk.new ≡ with_message message desk.old }
{
    match message {
        Message::None => desk[MESSAGE] = 0,
        Message::Sending(sending) => put_sending(desk, sending),
        Message::Completed => desk[MESSAGE] = COMPLETED,
        Message::Failed => desk[MESSAGE] = FAILED,
    }
}

// Puts a message that is being sent.
fn put_sending(desk: &mut Desk, sending: Sending)
    ensures { desk.new ≡ with_sending sending desk.old }
{
    desk[MESSAGE] = SENDING;
    desk[NAD] = u32::from(sending.nad);
    desk[LENGTH] = u32::from(sending.length);
    desk[NEXT] = u32::from(sending.next);
}

// Puts the status.
fn put_status(desk: &mut Desk, status: Status)
    ensures { desk.new ≡ with_status status desk.old }
{
    desk[ERROR] = u32::from(status.error);
    desk[SUCCESS] = u32::from(status.success);
    desk[OVERRUN] = u32::from(status.overrun);
    desk[LAST] = u32::from(status.last);
}

// Puts the placements received last.
fn put_received(desk: &mut Desk, received: &[Reception; SIGNALS])
    ensures { desk.new ≡ with_received received.now desk.old }
{
    for (s, reception) in received.iter().enumerate() {
        desk[RECEIVED + s] = number(reception.last);
    }
}
