// The schedule entries of the table: their number, their fields, the schedules, and the check of their records.
ghost use Rattle.std.specs.Prelude.{◌≡◌, ◌+◌, ◌<◌, ◌≤◌, length};
ghost use Rattle.cluster.specs.Check.{entry_faults};
ghost use Rattle.cluster.specs.Columns.{target_right};
ghost use Rattle.cluster.specs.Kinds.{kind_of, KindSays};
ghost use Rattle.cluster.specs.Lists.{first_entry, next_entry};
ghost use Rattle.cluster.specs.Passed.{EntriesPassed};
ghost use Rattle.cluster.specs.Right.{entry_right};
ghost use Rattle.cluster.specs.Table.{entry_count, schedule_count};
ghost use Rattle.cluster.specs.Table.{entry_at, entry_schedule, entry_kind, entry_target, entry_delay};

use crate::section::{self, Section};
use crate::table::{Counted, Layout, entry_at, follows, record, word};
use crate::{fault, frames, members};
use refusal::Refusal;

// How many entries there are, in all schedules together.
#[tactic(auto, unfolding(crate::specs::Table::entry_count))]
pub fn count(t: &[u16]) -> u16
    ensures { result ≡ entry_count t.now }
{
    word(t, 3)
}

// The schedule number of an entry.
#[tactic(auto, unfolding(crate::specs::Table::entry_schedule))]
pub fn schedule(t: &[u16], e: u16) -> u16
    ensures { result ≡ entry_schedule t.now e }
{
    word(t, entry_at(t, e))
}

// The kind of an entry: 0 frame, 1 list, 2 request, 3 response.
// Kept: the number that this public function promises; `kind_of` stands beside it.
#[tactic(auto, unfolding(crate::specs::Table::entry_kind))]
pub fn kind(t: &[u16], e: u16) -> u16
    ensures { result ≡ entry_kind t.now e }
{
    word(t, entry_at(t, e) + 1)
}

// What an entry opens: its frame, the first pending member of its list, the diagnostic request or the diagnostic response.
#[derive(Clone, Copy, PartialEq, Eq)]
pub enum EntryKind {
    Frame,
    List,
    Request,
    Response,
}

impl EntryKind {
    // The kind that a word stands for; none where it stands for none.
    #[tactic(auto, unfolding(crate::specs::Kinds::kind_of))]
    pub fn of(word: u16) -> Option<EntryKind>
        ensures value { result ≡ kind_of word }
        ensures says { KindSays word result }
    {
        match word {
            0 => Some(EntryKind::Frame),
            1 => Some(EntryKind::List),
            2 => Some(EntryKind::Request),
            3 => Some(EntryKind::Response),
            _ => None,
        }
    }
}

// The kind of an entry by its name; none where the word is no kind, as in no right table.
pub fn kind_of(t: &[u16], e: u16) -> Option<EntryKind>
    ensures value { result ≡ kind_of (entry_kind t.now e) }
    ensures says { KindSays (entry_kind t.now e) result }
{
    EntryKind::of(kind(t, e))
}

// The target of an entry: a frame number, a list number, or 0.
#[tactic(auto, unfolding(crate::specs::Table::entry_target))]
pub fn target(t: &[u16], e: u16) -> u16
    ensures { result ≡ entry_target t.now e }
{
    word(t, entry_at(t, e) + 2)
}

// The delay of an entry in ticks.
#[tactic(auto, unfolding(crate::specs::Table::entry_delay))]
pub fn delay(t: &[u16], e: u16) -> u16
    ensures { result ≡ entry_delay t.now e }
{
    word(t, entry_at(t, e) + 3)
}

// How many schedules there are.
// Kept: a twin of `members::lists`, one chain each: a function for both would take the field as a closure, with a contract longer than both.
pub fn schedules(t: &[u16]) -> usize
    ensures value { result ≡ schedule_count t.now }
    ensures upper_bound { result ≤ 65536 }
{
    count(t)
        .checked_sub(1)
        .map_or(0, |last| schedule(t, last) as usize + 1)
}

// The first entry of a schedule; the number of entries where there is none.
// Kept: a number where there is none, since its clause `first_entry` has it so.
pub fn first(t: &[u16], n: u16) -> u16
    ensures { result ≡ first_entry t.now n }
{
    let end = count(t);
    (0..end).find(|&e| schedule(t, e) == n).unwrap_or(end)
}

// The entry that follows an entry in its schedule, cyclically.
pub fn next(t: &[u16], e: u16) -> u16
    ensures { result ≡ next_entry t.now e }
{
    let n = schedule(t, e);
    if e < count(t) && e + 1 < count(t) && schedule(t, e + 1) == n {
        return e + 1;
    }
    first(t, n)
}

// Checks the entries' records.
pub(crate) fn judge(table: Counted<'_>) -> Result<(), Refusal>
    ensures { result ≡ entry_faults table.entry.words.now }
{
    let t = table.words;
    let n = count(t) as usize;
    let first = entry_at(t, 0);
    let mut passed = Passed {
        first,
        whole: first + Layout::ENTRY * n <= t.len(),
        frames: frames::count(t) as usize,
        lists: members::lists(t),
        schedules: 0,
    };
    section::judge(t, n, &mut passed)
}

// The entries that passed the check: where the first one begins, whether all entries are there in whole, what may be their target, and how
// many schedules they are of.
#[derive(Clone, Copy)]
struct Passed {
    first: usize,
    whole: bool,
    frames: usize,
    lists: usize,
    schedules: usize,
}

impl Section for Passed {
    ghost count = { entry_count };

    ghost at = { entry_at };

    ghost right = { entry_right };

    ghost known = { EntriesPassed };

    fn pass(&mut self, t: &[u16], e: usize) -> Result<(), Refusal> {
        let at = self.first + Layout::ENTRY * e;
        let [schedule, kind, target, delay] = record::<{ Layout::ENTRY }>(t, at, self.whole);
        if !follows(self.schedules, schedule) {
            return fault(at);
        }
        // Kept: a number; it is the word as `record` read it, a missing one as 65536, and its column's definition is `entry_kind_right`.
        if 3 < kind {
            return fault(at + 1);
        }
        if !target_right(self.frames, self.lists, kind, target) {
            return fault(at + 2);
        }
        if delay < 1 || 65535 < delay {
            return fault(at + 3);
        }
        self.schedules = schedule + 1;
        Ok(())
    }
}

// Whether an entry of a kind may have a target.
// Kept: numbers for kinds; they are words as `record` read them, a missing one as 65536, by the column's definition `target_right`.
fn target_right(frames: usize, lists: usize, kind: usize, target: usize) -> bool
    ensures { result ≡ target_right frames lists kind target }
{
    match kind {
        0 => target < frames,
        1 => target < lists,
        _ => target == 0,
    }
}
