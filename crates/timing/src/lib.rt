// A judge of schedules (document 02, Req 02): whether every slot of a table holds its longest frame. It needs no master, since a schedule
// is judged before one runs.
#![tactic(auto)]

ghost use Rattle.std.specs.Prelude.{◌&&◌, ◌≡◌, ◌<◌, Ok, get_or};
ghost use Rattle.cluster.specs.Table.{entry_count, entry_kind, entry_target};
ghost use Rattle.timing.specs.FrameTime.{minimum_bits};
ghost use Rattle.timing.specs.Judge.{found_of, judge_of, judgement_told, judge_told};
ghost use Rattle.timing.specs.Parts.{Longest};
ghost use Rattle.timing.specs.Slots.{slot_holds, entry_bytes, first_short, time_right};

use cluster::entries::EntryKind;
use cluster::right::Right;
use cluster::{Limits, entries, frames, members};
use refusal::Refusal;

// Judges the schedules of a table, under a tick in microseconds and a bit time in tenths of a microsecond: the number in the table, from 0,
// of the first entry whose slot does not hold its longest frame, if there is one; or the refusal.
pub fn judge(t: &[u16], tick: u32, bit: u32) -> Result<Option<u16>, Refusal>
    ensures value { result ≡ judge_of t.now tick bit }
    ensures told { judgement_told result ≡ judge_told t.now tick bit }
{
    let right = Right::taken(t)?;
    let times = Times { tick, bit };
    if !times.are_right() {
        return Err(Refusal::of(Refusal::TIME));
    }
    Ok(times.first_short(right))
}

// The bit times that a frame of some data bytes takes at least.
pub fn minimum_bits(bytes: u16) -> u64
    ensures { result ≡ minimum_bits bytes }
{
    34 + 10 * (bytes as u64 + 1)
}

// A tick in microseconds and a bit time in tenths of a microsecond.
#[derive(Clone, Copy)]
struct Times {
    tick: u32,
    bit: u32,
}

impl Times {
    // Whether neither is refused.
    fn are_right(self) -> bool
        ensures { result ≡ (time_right self.tick && time_right self.bit) }
    {
        time_right(self.tick) && time_right(self.bit)
    }

    // The first entry whose slot is short.
    fn first_short(self, t: Right) -> Option<u16>
        ensures { Ok result ≡ found_of t.entry.words.now (first_short t.entry.words.now self.tick self.bit) }
    {
        let longest = longest_members(t);
        let entries = t.entries();
        // Kept: a `for`; tried, a `find` over the entries' numbers, whose closure is called for each: the judge's own work took twice as long.
        for e in 0..entries::count(t.words) {
            let entry = entries[e as usize];
            if !self.slot_holds(entry[3], entry_bytes(t, e, entry, &longest)) {
                return Some(e);
            }
        }
        None
    }

    // Whether a slot of some ticks holds a frame of some data bytes.
    fn slot_holds(self, delay: u16, bytes: u16) -> bool
        ensures { result ≡ slot_holds self.tick self.bit delay bytes }
    {
        14 * minimum_bits(bytes) * (self.bit as u64) <= 100 * (delay as u64) * (self.tick as u64)
    }
}

// Whether a time is neither 0 nor above 65,535.
fn time_right(x: u32) -> bool
    ensures { result ≡ time_right x }
{
    1 <= x && x <= 65535
}

// The data bytes of the longest member of each list.
fn longest_members(t: Right) -> [u16; Limits::MEMBERS]
    ensures { Longest t.entry.words.now result }
{
    let mut longest = [0u16; Limits::MEMBERS];
    for m in 0..members::count(t.words) {
        let l = members::list(t.words, m) as usize;
        let bytes = frames::length(t.words, members::frame(t.words, m));
        longest[l] = longest[l].max(bytes);
    }
    longest
}

// The data bytes of the longest frame of an entry, by its record and with the longest member of each list at hand.
#[tactic(auto, unfolding(crate::specs::Slots::entry_bytes))]
fn entry_bytes(t: Right, e: u16, entry: [u16; 4], longest: &[u16; Limits::MEMBERS]) -> u16
    requires there { (e < entry_count t.words.now) × Longest t.words.now longest.now }
    requires kind { get_or entry 1 0 ≡ entry_kind t.words.now e }
    requires target { get_or entry 2 0 ≡ entry_target t.words.now e }
    ensures { result ≡ entry_bytes t.entry.words.now e }
{
    let [_, kind, target, _] = entry;
    match EntryKind::of(kind) {
        Some(EntryKind::Frame) => frames::length(t.words, target),
        Some(EntryKind::List) => longest[target as usize],
        _ => 8,
    }
}
