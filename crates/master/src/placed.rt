// The placements of a signal in a right table: they stand together, from the first one on.
ghost use Rattle.std.specs.Prelude.{◌≡◌};
ghost use Rattle.cluster.specs.Values.{first_placement, signal_published, touches as touchesOf, with_scalar, with_array};
ghost use Rattle.master.specs.Parts.{OfSignal};
ghost use Rattle.master.specs.Write.{marked_from};

use cluster::right::Right;
use cluster::{Limits, frames, placements, values};
use std::ops::Range;

// Kept: table and signal as two parameters, here and in the modules of the calls, as every reader of `cluster` takes a table and a number.

// Where the placements of a signal begin: the first placement that is not of a lower signal.
pub(crate) fn first(t: Right, s: u16) -> u16
    ensures { result ≡ first_placement t.entry.words.now s }
{
    t.placements().partition_point(|&[signal, _, _]| signal < s) as u16
}

// Whether the master publishes a signal.
#[tactic(auto, unfolding(cluster::specs::Values::signal_published))]
pub(crate) fn published(t: Right, s: u16) -> bool
    ensures { result ≡ signal_published t.entry.words.now s }
{
    frames::published(t.words, placements::frame(t.words, first(t, s)))
}

// The placements of a signal, by their numbers.
fn of_signal(t: Right, s: u16) -> Range<u16>
    ensures { OfSignal t.entry.words.now s result.start result.end }
{
    let from = first(t, s);
    let count = placements::count(t.words);
    let behind = (from..count).find(|&k| placements::signal(t.words, k) != s);
    from..behind.unwrap_or(count)
}

// Writes a scalar into each of its placements.
pub(crate) fn put_scalar(t: Right, bytes: &mut [u8], s: u16, v: u16)
    ensures { bytes.new ≡ with_scalar t.entry.words.now bytes.old s v }
{
    for k in of_signal(t, s) {
        values::put_scalar_at(t.words, bytes, s, k, v);
    }
}

// Writes an array into each of its placements.
pub(crate) fn put_array(t: Right, bytes: &mut [u8], s: u16, values: &[u8])
    ensures { bytes.new ≡ with_array t.entry.words.now bytes.old s values.now }
{
    for k in of_signal(t, s) {
        values::put_array_at(t.words, bytes, k, values);
    }
}

// Marks the frames that a signal touches as pending.
pub(crate) fn mark(t: Right, s: u16, pending: &mut [bool; Limits::FRAMES])
    ensures { pending.new ≡ marked_from t.entry.words.now s 0 pending.old }
{
    for k in of_signal(t, s) {
        pending[placements::frame(t.words, k) as usize] = true;
    }
}

// Whether a signal stands in a frame.
// Kept: tried, `any` over `of_signal`: of a range that is not written out the check could not look into what `any` ran.
pub(crate) fn touches(t: Right, s: u16, f: u16) -> bool
    ensures { result ≡ touchesOf t.entry.words.now s f }
{
    for k in of_signal(t, s) {
        if placements::frame(t.words, k) == f {
            return true;
        }
    }
    false
}
