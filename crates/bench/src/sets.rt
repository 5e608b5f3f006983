// The lines that set a part of the state, whether it fits the table or not.
use crate::replies::Reply;
use crate::texts::Text;
use desk::*;

// A part of the state, and what it is set to.
#[derive(Clone, Copy)]
pub(crate) enum Part {
    Wait,
    Entry,
    NoEntry,
    Request,
    NoRequest,
    OpenNothing,
    OpenFrame,
    OpenRequest,
    OpenResponse,
    Count,
    Bytes,
    Written,
    NoMessage,
    Sending,
    Completed,
    Failed,
    Status,
    Pending,
    NoAssembly,
    Assembly,
    Received,
    NoneReceived,
}

// Sets what the line at hand says.
pub(crate) fn set(part: Part, desk: &mut Desk) -> Reply {
    let n = desk[NUMBERS];
    let value = desk[NUMBERS + 1];
    match part {
        Part::Wait => desk[WAIT] = n,
        Part::Entry => desk[ENTRY] = n,
        Part::NoEntry => desk[ENTRY] = NONE,
        Part::Request => desk[REQUEST] = n,
        Part::NoRequest => desk[REQUEST] = NONE,
        Part::OpenNothing => desk[OPEN] = NONE,
        Part::OpenFrame => desk[OPEN] = n,
        Part::OpenRequest => desk[OPEN] = OPEN_REQUEST,
        Part::OpenResponse => desk[OPEN] = OPEN_RESPONSE,
        Part::Count => desk[COUNT] = n,
        Part::Bytes => desk.copy_within(NUMBERS..NUMBERS + 9, BYTES),
        Part::Written => desk[WRITTEN] = n,
        Part::NoMessage => desk[MESSAGE] = 0,
        Part::Sending => {
            desk[MESSAGE] = SENDING;
            desk.copy_within(NUMBERS..NUMBERS + 3, NAD);
        }
        Part::Completed => desk[MESSAGE] = COMPLETED,
        Part::Failed => desk[MESSAGE] = FAILED,
        Part::Status => desk.copy_within(NUMBERS..NUMBERS + 4, ERROR),
        Part::Pending => put(desk, size(n), value),
        Part::NoAssembly => desk[ASSEMBLY] = 0,
        Part::Assembly => {
            desk[ASSEMBLY] = 1;
            desk.copy_within(NUMBERS..NUMBERS + 4, ASSEMBLY + 1);
        }
        Part::Received => put(desk, RECEIVED + size(n), value),
        Part::NoneReceived => put(desk, RECEIVED + size(n), NONE),
    }
    Reply::alone(Text::SET)
}

// Puts a number at a place.
fn put(desk: &mut Desk, place: usize, number: u32) {
    if let Some(slot) = desk.get_mut(place) {
        *slot = number;
    }
}
