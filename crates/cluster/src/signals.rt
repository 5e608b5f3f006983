// The signals of the table: their number, their fields, and the check of their records.
ghost use Rattle.std.specs.Prelude.{◌≡◌, true, ◌+◌, ◌<◌, ◌≤◌, length};
ghost use Rattle.cluster.specs.Check.{signal_faults};
ghost use Rattle.cluster.specs.Columns.{width_right, start_limit};
ghost use Rattle.cluster.specs.Fresh.{array_length};
ghost use Rattle.cluster.specs.Passed.{SignalsPassed};
ghost use Rattle.cluster.specs.Right.{signal_right};
ghost use Rattle.cluster.specs.Table.{signal_at, signal_count};
ghost use Rattle.cluster.specs.Table.{signal_kind, signal_width, signal_start, is_array};

use crate::fault;
use crate::section::{self, Section};
use crate::table::{Counted, Layout, record, signal_at, word};
use refusal::Refusal;

// How many signals there are.
#[tactic(auto, unfolding(crate::specs::Table::signal_count))]
pub fn count(t: &[u16]) -> u16
    ensures { result ≡ signal_count t.now }
{
    word(t, 1)
}

// The kind of a signal: 0 scalar, 1 array.
// Kept: the number that this public function promises; `is_array` stands beside it.
#[tactic(auto, unfolding(crate::specs::Table::signal_kind))]
pub fn kind(t: &[u16], s: u16) -> u16
    ensures { result ≡ signal_kind t.now s }
{
    word(t, signal_at(t, s))
}

// Whether a signal is a byte array.
// Kept: a bool, here and in what goes by it, as the definition `is_array` (specs/Table) is one.
#[tactic(auto, unfolding(crate::specs::Table::is_array))]
pub fn is_array(t: &[u16], s: u16) -> bool
    ensures { result ≡ is_array t.now s }
{
    kind(t, s) == 1
}

// The bits of a signal.
#[tactic(auto, unfolding(crate::specs::Table::signal_width))]
pub fn width(t: &[u16], s: u16) -> u16
    ensures { result ≡ signal_width t.now s }
{
    word(t, signal_at(t, s) + 1)
}

// The start value of a signal; of an array, of each byte.
#[tactic(auto, unfolding(crate::specs::Table::signal_start))]
pub fn start(t: &[u16], s: u16) -> u16
    ensures { result ≡ signal_start t.now s }
{
    word(t, signal_at(t, s) + 2)
}

// The bytes of an array, at most 8.
#[tactic(auto, unfolding(crate::specs::Fresh::array_length))]
pub fn array_length(t: &[u16], s: u16) -> usize
    ensures value { result ≡ array_length t.now s }
    ensures upper_bound { result ≤ 8 }
{
    ((width(t, s) / 8) as usize).min(8)
}

// What a signal says of its placements: whether it is an array, and how many bits it has.
#[derive(Clone, Copy)]
pub(crate) struct Shape {
    pub(crate) array: bool,
    pub(crate) width: u16,
}

// Reads that of a signal that is there.
pub(crate) fn shape_of(t: &[u16], s: usize) -> Shape
    requires { signal_at t.now s + 1 < length t.now }
    ensures { (result.array ≡ is_array t.now s) × (result.width ≡ signal_width t.now s) }
{
    let at = signal_at(t, 0) + Layout::SIGNAL * s;
    Shape {
        array: t[at] == 1,
        width: t[at + 1],
    }
}

// Checks the signals' records.
pub(crate) fn judge(table: Counted<'_>) -> Result<(), Refusal>
    ensures { result ≡ signal_faults table.entry.words.now }
{
    let t = table.words;
    let mut passed = Passed {
        first: signal_at(t, 0),
    };
    section::judge(t, count(t) as usize, &mut passed)
}

// The signals that passed the check: where the first one begins.
#[derive(Clone, Copy)]
struct Passed {
    first: usize,
}

impl Section for Passed {
    ghost count = { signal_count };

    ghost at = { signal_at };

    ghost right = { signal_right };

    ghost known = { SignalsPassed };

    fn pass(&mut self, t: &[u16], s: usize) -> Result<(), Refusal> {
        let at = self.first + Layout::SIGNAL * s;
        let [kind, width, start] = record::<{ Layout::SIGNAL }>(
            t,
            at,
            at + Layout::SIGNAL <= t.len(),
        );
        // Kept: a number; it is the word as `record` read it, a missing one as 65536, and its column's definition is `signal_kind_right`.
        let array = kind == 1;
        if 1 < kind {
            return fault(at);
        }
        if !width_right(array, width) {
            return fault(at + 1);
        }
        if start_limit(array, width) <= start {
            return fault(at + 2);
        }
        Ok(())
    }
}

// Whether a width is one of its kind.
fn width_right(array: bool, width: usize) -> bool
    ensures { result ≡ width_right array width }
{
    if array {
        whole_bytes(width)
    } else {
        1 <= width && width <= 16
    }
}

// Whether a width is that of 1 to 8 whole bytes.
fn whole_bytes(width: usize) -> bool
    ensures { result ≡ width_right true width }
{
    8 <= width && width <= 64 && width % 8 == 0
}

// The first number that is too large for a start value.
fn start_limit(array: bool, width: usize) -> usize
    requires { width_right array width ≡ true }
    ensures value { result ≡ start_limit array width }
    ensures upper_bound { result ≤ 65536 }
{
    if array { 256 } else { 1 << (width as u32) }
}
