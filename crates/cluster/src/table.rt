// The words of the table, where the records stand, and the header.
ghost use Rattle.std.specs.Prelude.{◌≡◌, ◌≤◌, ◌<◌, ◌+◌, ℕ, true, length, get_or};
ghost use Rattle.cluster.specs.Check.{header_faults, surplus as surplusOf};
ghost use Rattle.cluster.specs.Columns.{follows as followsOf};
ghost use Rattle.cluster.specs.Read.{InLimits, RecordsBefore, IsRecord, due as due_of};
ghost use Rattle.cluster.specs.Table.{word as word_of, frame_at, signal_at, placement_at, member_at, entry_at};

use crate::{Limits, fault};
use refusal::Refusal;

// The word at a position, and 0 where there is none.
// Kept: 0 for none, since the clause of every public field is its `word` (specs/Table).
pub(crate) fn word(t: &[u16], i: usize) -> u16
    ensures { result ≡ word_of t.now i }
{
    t.get(i).copied().unwrap_or(0)
}

// The word at a position; 65536 where there is none.
// Kept: a number for a missing word: each column's test refuses it by itself, so that no column asks whether its word is there.
pub(crate) fn due(t: &[u16], i: usize) -> usize
    ensures value { result ≡ due_of t.now i }
    ensures upper_bound { result ≤ 65536 }
{
    t.get(i).map_or(65536, |word| *word as usize)
}

// The words of a record from a position on; a missing one reads as 65536. Where the whole record is there, as is known of a section that is
// there in whole, no word is asked for.
pub(crate) fn record<const N: usize>(t: &[u16], at: usize, whole: bool) -> [usize; N]
    requires place { (N ≤ 8) × (at < 4000000) }
    requires there { whole ≡ true → at + N ≤ length t.now }
    ensures words { IsRecord t.now at N result }
    ensures upper_bound { (j : ℕ) → get_or result j 0 ≤ 65536 }
{
    let mut words = [0; N];
    for (j, word) in words.iter_mut().enumerate() {
        *word = if whole {
            t[at + j] as usize
        } else {
            due(t, at + j)
        };
    }
    words
}

// The words of the header and of each record.
#[derive(Clone, Copy)]
pub(crate) struct Layout;

impl Layout {
    pub(crate) const HEADER: usize = 5;

    pub(crate) const FRAME: usize = 3;

    pub(crate) const SIGNAL: usize = 3;

    pub(crate) const PLACEMENT: usize = 3;

    pub(crate) const MEMBER: usize = 2;

    pub(crate) const ENTRY: usize = 4;
}

// A lent table whose header the check accepts: no count in it is above its limit.
#[derive(Clone, Copy)]
pub(crate) struct Counted<'a> {
    pub(crate) words: &'a [u16],
    pub(crate) ghost limits: { InLimits words.now },
}

// One whose frames and signals it accepts too: what the records behind them go by.
#[derive(Clone, Copy)]
pub(crate) struct Described<'a> {
    pub(crate) words: &'a [u16],
    pub(crate) ghost limits: { InLimits words.now },
    pub(crate) ghost before: { RecordsBefore words.now },
}

// Where a frame's record begins.
pub(crate) fn frame_at(f: u16) -> usize
    ensures { result ≡ frame_at f }
{
    Layout::HEADER + Layout::FRAME * (f as usize)
}

// Where a signal's record begins.
#[tactic(auto, unfolding(crate::specs::Table::frame_count))]
pub(crate) fn signal_at(t: &[u16], s: u16) -> usize
    ensures value { result ≡ signal_at t.now s }
    ensures upper_bound { result < 1000000 }
{
    frame_at(word(t, 0)) + Layout::SIGNAL * (s as usize)
}

// Where a placement's record begins.
#[tactic(auto, unfolding(crate::specs::Table::signal_count))]
pub(crate) fn placement_at(t: &[u16], k: u16) -> usize
    ensures value { result ≡ placement_at t.now k }
    ensures upper_bound { result < 2000000 }
{
    signal_at(t, word(t, 1)) + Layout::PLACEMENT * (k as usize)
}

// Where a member's record begins.
#[tactic(auto, unfolding(crate::specs::Table::placement_count))]
pub(crate) fn member_at(t: &[u16], m: u16) -> usize
    ensures value { result ≡ member_at t.now m }
    ensures upper_bound { result < 3000000 }
{
    placement_at(t, word(t, 4)) + Layout::MEMBER * (m as usize)
}

// Where an entry's record begins.
#[tactic(auto, unfolding(crate::specs::Table::member_count))]
pub(crate) fn entry_at(t: &[u16], e: u16) -> usize
    ensures value { result ≡ entry_at t.now e }
    ensures upper_bound { result < 4000000 }
{
    member_at(t, word(t, 2)) + Layout::ENTRY * (e as usize)
}

// Checks the header.
pub(crate) fn judge(t: &[u16]) -> Result<(), Refusal>
    ensures { result ≡ header_faults t.now }
{
    let [frames, signals, members, entries, placements] = record::<{ Layout::HEADER }>(
        t,
        0,
        Layout::HEADER <= t.len(),
    );
    if Limits::FRAMES < frames {
        return fault(0);
    }
    if Limits::SIGNALS < signals {
        return fault(1);
    }
    if Limits::MEMBERS < members {
        return fault(2);
    }
    if Limits::ENTRIES < entries {
        return fault(3);
    }
    if Limits::PLACEMENTS < placements {
        return fault(4);
    }
    Ok(())
}

// A word behind the last record.
pub(crate) fn surplus(t: &[u16]) -> Result<(), Refusal>
    ensures { result ≡ surplusOf t.now }
{
    let end = entry_at(t, word(t, 3));
    if end < t.len() { fault(end) } else { Ok(()) }
}

// Whether a signal, list or schedule number may follow those before it; `count` is one more than the previous one.
pub(crate) fn follows(count: usize, number: usize) -> bool
    requires { number ≤ 65536 }
    ensures { result ≡ followsOf count number }
{
    number == count || number + 1 == count
}
