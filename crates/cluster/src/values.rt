// The values of the signals in the frame buffer: what fits a signal, what a placement of it reads as, and what a put leaves there.
ghost use Rattle.std.specs.Prelude.{◌≡◌};
ghost use Rattle.cluster.specs.Values.{value_fits, array_fits, scalar_at, with_scalar_at, with_array_at, array_read, start_read};

use crate::{placements, signals};

// A byte array as it is handed out: eight bytes, the unused ones 255, and how many are used.
// Kept: `array_read` and `start_read` (specs/Values) say that the unused bytes are 255, which an `ArrayVec` would not hand out.
#[derive(Clone, Copy)]
pub struct Array {
    pub bytes: [u8; 8],
    pub count: usize,
}

// Whether a scalar can have a value: it is below 2^width.
pub fn scalar_fits(t: &[u16], s: u16, v: u32) -> bool
    ensures { result ≡ value_fits t.now s v }
{
    let width = signals::width(t, s);
    31 < width || v < 1 << (width as u32)
}

// Whether an array has as many bytes as are handed over for it.
#[tactic(auto, unfolding(crate::specs::Values::array_fits))]
pub fn array_fits(t: &[u16], s: u16, values: &[u8]) -> bool
    ensures { result ≡ array_fits t.now s values.now }
{
    values.len() == signals::array_length(t, s)
}

// The value of a scalar in one of its placements.
// Kept: table, buffer and placement apart, here and below, in public functions that docs/CALLS.md names.
#[tactic(auto, unfolding(crate::specs::Values::scalar_at))]
pub fn scalar_at(t: &[u16], bytes: &[u8], s: u16, k: u16) -> u16
    ensures { result ≡ scalar_at t.now bytes.now s k }
{
    signal::get(
        bytes,
        placements::place(t, k),
        signals::width(t, s) as usize,
    )
}

// Puts a scalar into one of its placements.
pub fn put_scalar_at(t: &[u16], bytes: &mut [u8], s: u16, k: u16, v: u16)
    ensures { bytes.new ≡ with_scalar_at t.now bytes.old s k v }
{
    let width = signals::width(t, s) as usize;
    signal::put(bytes, placements::place(t, k), width, v);
}

// The bytes of an array in one of its placements.
pub fn array_at(t: &[u16], bytes: &[u8], s: u16, k: u16) -> Array
    ensures { result ≡ array_read t.now bytes.now s k }
{
    let n = signals::array_length(t, s);
    let place = placements::place(t, k);
    let mut values = [255; 8];
    signal::get_array(bytes, place, &mut values[0..n]);
    Array {
        bytes: values,
        count: n,
    }
}

// The start value of an array, in each of its bytes.
pub fn start_array(t: &[u16], s: u16) -> Array
    ensures { result ≡ start_read t.now s }
{
    let n = signals::array_length(t, s);
    let start = (signals::start(t, s) % 256) as u8;
    let mut values = [255; 8];
    values[..n].fill(start);
    Array {
        bytes: values,
        count: n,
    }
}

// Puts an array into one of its placements.
pub fn put_array_at(t: &[u16], bytes: &mut [u8], k: u16, values: &[u8])
    ensures { bytes.new ≡ with_array_at t.now bytes.old k values.now }
{
    signal::put_array(bytes, placements::place(t, k), values);
}
