// The calls: a master made ready, then for each letter a tick (T), a row (R), its single writes (W), or else a byte in.
use crate::row::Row;
use master::byte::ByteAnswer;
use master::state::{State, Transfer};
use master::tick::TickAnswer;
use refusal::Refusal;

// Starts, selects schedule 0, writes, makes the calls, and gives the digest of their answers and of what they left.
pub(crate) fn all(t: &[u16], bytes: &mut [u8], letters: &[u8]) -> u64 {
    let mut state = State::start(t, bytes).unwrap_or(State::fresh());
    let _ = state.select(t, 0);
    write_six(&mut state, t, bytes);
    let row = Row::of(t);
    let mut digest: u64 = 0;
    for &letter in letters {
        let code = call(&mut state, t, bytes, letter, &row);
        digest = folded(digest, code);
    }
    with_left(digest, &state, bytes)
}

// Six scalars are written, each in two frames, so that ten of the fifteen lists have a pending frame.
fn write_six(state: &mut State, t: &[u16], bytes: &mut [u8]) {
    for s in (14..60).step_by(8) {
        let _ = state.write(t, bytes, s, 42);
    }
}

// The call of a letter, and its answer as a number.
// Kept: state, table and bytes as three parameters; tried, a struct of them: a call on its two references at once is what the check says that its
// borrow checker does not cover yet.
// Kept: a match on the letter; a table of closures would lend the state and the bytes in each.
fn call(state: &mut State, t: &[u16], bytes: &mut [u8], letter: u8, row: &Row) -> u64 {
    match letter {
        b'T' => {
            let (next, answer) = state.tick(t, bytes, &[]);
            *state = next;
            tick_code(answer)
        }
        b'R' => row.write(state, t, bytes),
        b'W' => row.write_singly(state, t, bytes),
        _ => {
            let byte = due(state.transfer);
            let (next, answer) = state.byte_in(t, bytes, byte);
            *state = next;
            byte_code(answer)
        }
    }
}

// The byte that is due in the open copy.
fn due(transfer: Transfer) -> u8 {
    let i = usize::from(transfer.count);
    transfer.bytes.get(i).copied().unwrap_or(0)
}

// The number of an answer in the digest.
// Kept: numbers, since benchmarks/meter.c has the same ones in its digest.
fn tick_code(answer: Result<TickAnswer, Refusal>) -> u64 {
    match answer {
        Ok(TickAnswer::Waiting) => 0,
        Ok(TickAnswer::Idle) => 1,
        Ok(TickAnswer::Silent) => 2,
        Ok(TickAnswer::Opened(id)) => 256 + id as u64,
        Err(refusal) => refused(refusal),
    }
}

fn byte_code(answer: Result<ByteAnswer, Refusal>) -> u64 {
    match answer {
        Ok(ByteAnswer::More) => 3,
        Ok(ByteAnswer::Success) => 4,
        Ok(ByteAnswer::Failure) => 5,
        Ok(ByteAnswer::Response(_)) => 6,
        Err(refusal) => refused(refusal),
    }
}

pub(crate) fn refused(refusal: Refusal) -> u64 {
    512 + refusal.number as u64
}

// The digest with what the calls left: the last transfer counted, the frame bytes and the pending bits.
fn with_left(digest: u64, state: &State, bytes: &[u8]) -> u64 {
    let last = folded(digest, u64::from(state.status.last));
    with_pending(with_bytes(last, bytes), &state.pending)
}

// The digest with the frame bytes.
fn with_bytes(digest: u64, bytes: &[u8]) -> u64 {
    bytes
        .iter()
        .fold(digest, |next, &byte| folded(next, u64::from(byte)))
}

// The digest with the numbers of the pending frames.
fn with_pending(digest: u64, pending: &[bool]) -> u64 {
    let mut next = digest;
    for (f, &is_pending) in pending.iter().enumerate() {
        if is_pending {
            next = folded(next, f as u64);
        }
    }
    next
}

// The digest with one more number.
fn folded(digest: u64, code: u64) -> u64 {
    (31 * (digest % 65521) + code % 65521) % 65521
}
