// The placements of the signals: their number, their fields, and the check of their records.
ghost use Rattle.std.specs.Prelude.{◌≡◌, true, not, cond, ◌&&◌, ◌||◌, ◌+◌, ◌%◌, ◌<◌, ◌≤◌, ℕ, ltb, eqb, is_some, IfSome};
ghost use Rattle.wire.specs.Bits.{bit};
ghost use Rattle.signal.specs.Signal.{inside};
ghost use Rattle.std.specs.Bool.{beq};
ghost use Rattle.cluster.specs.Check.{placement_faults, unplaced, then};
ghost use Rattle.cluster.specs.Columns.{follows as followsOf, placement_frame_right, placement_offset_right};
ghost use Rattle.cluster.specs.Places.{place_of};
ghost use Rattle.cluster.specs.Passed.{PlacementsPassed, PlacedBefore, last_of, mixes};
ghost use Rattle.cluster.specs.Read.{RecordsBefore, hits};
ghost use Rattle.cluster.specs.Right.{placement_right};
ghost use Rattle.cluster.specs.Table.{placement_at, frame_count, signal_count};
ghost use Rattle.cluster.specs.Table.{placement_count, placement_signal, placement_frame, placement_offset, published};
ghost use Rattle.cluster.specs.Values.{first_placement};

use crate::frames::Room;
use crate::marks::with_bits;
use crate::section::{self, Section};
use crate::signals::Shape;
use crate::table::{Described, Layout, follows, placement_at, record, word};
use crate::{Limits, fault, frames, signals};
use refusal::Refusal;

// How many placements there are.
#[tactic(auto, unfolding(crate::specs::Table::placement_count))]
pub fn count(t: &[u16]) -> u16
    ensures { result ≡ placement_count t.now }
{
    word(t, 4)
}

// The signal of a placement.
#[tactic(auto, unfolding(crate::specs::Table::placement_signal))]
pub fn signal(t: &[u16], k: u16) -> u16
    ensures { result ≡ placement_signal t.now k }
{
    word(t, placement_at(t, k))
}

// The number of the frame that a placement stands in.
#[tactic(auto, unfolding(crate::specs::Table::placement_frame))]
pub fn frame(t: &[u16], k: u16) -> u16
    ensures { result ≡ placement_frame t.now k }
{
    word(t, placement_at(t, k) + 1)
}

// The first bit of a placement in its frame.
#[tactic(auto, unfolding(crate::specs::Table::placement_offset))]
pub fn offset(t: &[u16], k: u16) -> u16
    ensures { result ≡ placement_offset t.now k }
{
    word(t, placement_at(t, k) + 2)
}

// The first bit of a placement in the frame buffer.
#[tactic(auto, unfolding(crate::specs::Places::place_of))]
pub fn place(t: &[u16], k: u16) -> usize
    ensures { result ≡ place_of t.now k }
{
    64 * (frame(t, k) as usize) + (offset(t, k) as usize)
}

// The first placement of a signal; where there is none, the number of placements.
// Kept: a number where there is none, since its clause `first_placement` has it so.
pub fn first(t: &[u16], s: u16) -> u16
    ensures { result ≡ first_placement t.now s }
{
    let n = count(t);
    (0..n).find(|&k| signal(t, k) == s).unwrap_or(n)
}

// Checks the placements' records, and tells a signal that has none directly behind the last one.
pub(crate) fn judge(table: Described<'_>) -> Result<(), Refusal>
    ensures { result ≡ then (placement_faults table.entry.words.now) (unplaced table.entry.words.now) }
{
    let t = table.words;
    let n = count(t);
    let unmarked = Mark {
        occupied: 0,
        last: 0,
    };
    let mut passed = Passed {
        first: placement_at(t, 0),
        marks: [unmarked; Limits::FRAMES],
        placed: 0,
        frame: 0,
    };
    section::judge(t, n as usize, &mut passed)?;
    if passed.placed < signals::count(t) as usize {
        fault(placement_at(t, n))
    } else {
        Ok(())
    }
}

// What the placements that passed left in a frame: the bits that they occupy, and one more than the signal placed there last.
// Kept: `last` is 0 for none, as `last_in` (specs/Passed) has it, so that one test asks for both.
#[derive(Clone, Copy)]
struct Mark {
    occupied: u64,
    last: usize,
}

// The placements that passed the check: where the first one begins, what they left in each frame, how many signals they are of, and
// the frame of the last one.
#[derive(Clone, Copy)]
struct Passed {
    first: usize,
    marks: [Mark; Limits::FRAMES],
    placed: usize,
    frame: usize,
}

impl Section for Passed {
    ghost count = { placement_count };

    ghost at = { placement_at };

    ghost right = { placement_right };

    ghost known = { PlacementsPassed };

    fn pass(&mut self, t: &[u16], k: usize) -> Result<(), Refusal> {
        let at = self.first + Layout::PLACEMENT * k;
        let [signal, frame, offset] = record::<{ Layout::PLACEMENT }>(
            t,
            at,
            at + Layout::PLACEMENT <= t.len(),
        );
        if !follows(self.placed, signal) || !signal_there(t, self.placed, signal) {
            return fault(at);
        }
        if !self.frame_right(t, signal, frame) {
            return fault(at + 1);
        }
        let (shape, room) = (signals::shape_of(t, signal), frames::room_of(t, frame));
        let Some(occupied) = with_placement(shape, room, self.marks[frame].occupied, offset) else {
            return fault(at + 2);
        };
        self.marks[frame] = Mark {
            occupied,
            last: signal + 1,
        };
        self.placed = signal + 1;
        self.frame = frame;
        Ok(())
    }
}

// Whether the signal of a placement is there: the next one is asked for, and that of the placement before is.
fn signal_there(t: &[u16], placed: usize, s: usize) -> bool
    requires { (placed ≤ signal_count t.now) × (followsOf placed s ≡ true) }
    ensures { result ≡ ltb s (signal_count t.now) }
{
    s != placed || s < signals::count(t) as usize
}

impl Passed {
    // Whether a placement of a signal may be in a frame: it is there, and the placement is the signal's first, or joins those before.
    fn frame_right(&self, t: &[u16], s: usize, f: usize) -> bool
        requires records_before { RecordsBefore t.now × PlacedBefore t.now self.now }
        requires s_follows { followsOf self.now.placed s ≡ true }
        ensures { result ≡ placement_frame_right (frame_count t.now) (eqb (last_of self.now f) (s + 1)) (mixes t.now self.now s f) f }
    {
        f < frames::count(t) as usize && (s == self.placed || self.joins(t, f))
    }

    // Whether a placement may join those of the last signal: none of them is in its frame, and it has their publisher.
    fn joins(&self, t: &[u16], f: usize) -> bool
        requires records_before { RecordsBefore t.now × PlacedBefore t.now self.now }
        requires there { (0 < self.now.placed) × (f < frame_count t.now) }
        ensures { result ≡ not (eqb (last_of self.now f) self.now.placed) && beq (published t.now self.now.frame) (published t.now f) }
    {
        self.marks[f].last != self.placed
            && frames::room_of(t, self.frame).published == frames::room_of(t, f).published
    }
}

// The occupied bits of a frame with those of a placement, where its offset is right and its bits are inside the frame and free.
fn with_placement(shape: Shape, room: Room, occupied: u64, offset: usize) -> Option<u64>
    requires { (offset ≤ 65536) × (1 ≤ shape.width) × (room.bits ≤ 64) }
    ensures right { is_some result ≡ placement_offset_right shape.array room.bits (ltb room.bits (offset + shape.width)) (hits occupied offset shape.width) offset }
    ensures bits { IfSome result (λ r. (j : ℕ) → bit r j ≡ (bit occupied j || inside offset shape.width j)) }
{
    let width = shape.width as usize;
    if offset + width <= room.bits && on_border(shape.array, offset) {
        with_bits(occupied, offset, width)
    } else {
        None
    }
}

// Whether an offset is at a byte border, where it is that of an array.
fn on_border(array: bool, offset: usize) -> bool
    ensures { result ≡ cond array (eqb (offset % 8) 0) true }
{
    !array || offset % 8 == 0
}
