// The bytes that a fresh call leaves in the frame buffer.
ghost use Rattle.std.specs.Prelude.{◌≡◌, length, replicate};
ghost use Rattle.cluster.specs.Fresh.{start_at, put_start, filled};
ghost use Rattle.cluster.specs.Table.{placement_count};

use crate::{placements, signals};

// Fills a buffer: 255 everywhere, then the start values. A fresh call lends 8 bytes a frame.
pub fn fill(t: &[u16], bytes: &mut [u8])
    ensures { bytes.new ≡ filled t.now (length bytes.old) (placement_count t.now) }
{
    bytes.fill(255);
    for k in 0..placements::count(t) {
        put_start(t, k, bytes);
    }
}

// Puts the start value of a placement's signal into the placement.
#[tactic(auto, unfolding(crate::specs::Fresh::put_start))]
fn put_start(t: &[u16], k: u16, bytes: &mut [u8])
    ensures { bytes.new ≡ put_start t.now k bytes.old }
{
    start_at(t, placements::signal(t, k), placements::place(t, k), bytes);
}

// Puts the start value of a signal at a place.
// Kept: of an array not by `values::start_array`, whose answer is made to be handed out, the unused bytes 255.
fn start_at(t: &[u16], s: u16, place: usize, bytes: &mut [u8])
    ensures { bytes.new ≡ start_at t.now s place bytes.old }
{
    if signals::is_array(t, s) {
        let values = [(signals::start(t, s) % 256) as u8; 8];
        let n = signals::array_length(t, s);
        signal::put_array(bytes, place, &values[..n]);
    } else {
        signal::put(
            bytes,
            place,
            signals::width(t, s) as usize,
            signals::start(t, s),
        );
    }
}
