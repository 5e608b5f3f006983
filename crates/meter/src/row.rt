// A row of twenty values: written as one, and by single writes.
ghost use Rattle.std.specs.Prelude.{◌≤◌};

use crate::calls::refused;
use cluster::{frames, signals};
use master::state::State;
use refusal::Refusal;

// The values of the row.
const VALUES: usize = 20;

// The signals of the row by their numbers, and a value for each.
// Kept: two arrays, since `State::write_row` takes the numbers and the values apart.
#[derive(Clone, Copy)]
pub(crate) struct Row {
    numbers: [u16; VALUES],
    values: [u32; VALUES],
}

impl Row {
    // Makes the row from the table, so that the compiler does not know it: every twelfth signal, which are scalars of six bits,
    // four in each of ten frames.
    pub(crate) fn of(t: &[u16]) -> Row {
        let mut numbers = [0; VALUES];
        let mut values = [0; VALUES];
        let step = frames::count(t) / 5;
        let mut s: u16 = 0;
        for (number, value) in numbers.iter_mut().zip(&mut values) {
            *number = s;
            *value = opposite(signals::start(t, s));
            s = (s % 256 + step) % 256;
        }
        Row { numbers, values }
    }

    // Writes the row.
    pub(crate) fn write(&self, state: &mut State, t: &[u16], bytes: &mut [u8]) -> u64 {
        let n = length(t, self.numbers.len());
        let m = length(t, self.values.len());
        code_of(state.write_row(t, bytes, &self.numbers[..n], &self.values[..m]))
    }

    // Writes the values of the row one by one; the code is the largest.
    pub(crate) fn write_singly(&self, state: &mut State, t: &[u16], bytes: &mut [u8]) -> u64 {
        let mut code: u64 = 0;
        for (&s, &v) in self.numbers.iter().zip(&self.values) {
            code = code.max(code_of(state.write(t, bytes, s, v)));
        }
        code
    }
}

// The value of six bits that has none of them in common with a start value.
fn opposite(start: u16) -> u32 {
    (63 - start % 64) as u32
}

// The length of the row, which the compiler does not know either: a third of the frames, and at most what there is.
fn length(t: &[u16], most: usize) -> usize
    ensures { result ≤ most }
{
    usize::from(frames::count(t) / 3).min(most)
}

fn code_of(answer: Result<(), Refusal>) -> u64 {
    match answer {
        Ok(()) => 7,
        Err(refusal) => refused(refusal),
    }
}
