// A signal's bits in lent bytes: a frame's, or the whole buffer with the offset counted from its start (document 01,
// "Signals"). Every offset, width and length is accepted. Bits behind the last byte read as 0, and nothing is put there.
#![tactic(auto)]

ghost use Rattle.std.specs.Prelude.{◌≡◌, ◌+◌, ◌*◌, ◌/◌, ◌%◌, ◌^◌, ◌<◌, ◌≤◌, length, get_or, set};
ghost use Rattle.wire.specs.Bits.{bit};
ghost use Rattle.signal.specs.Signal.{number, bit_at, replaced, put_bits, scalar_width};
ghost use Rattle.signal.specs.Signal.{get_scalar, put_scalar, get_array, put_array};

// The scalar of 1 to 16 bits at a bit offset; a width above 16 counts as 16.
pub fn get(bytes: &[u8], offset: usize, width: usize) -> u16
    ensures { result ≡ get_scalar bytes.now offset width }
{
    Bits::scalar(offset, width).get(bytes)
}

// The scalar's bits become the value's low bits, and no other bit changes.
pub fn put(bytes: &mut [u8], offset: usize, width: usize, value: u16)
    ensures { bytes.new ≡ put_scalar bytes.old offset width value }
{
    Bits::scalar(offset, width).put(bytes, value);
}

// The byte array at a bit offset, as many bytes as are lent for it.
pub fn get_array(bytes: &[u8], offset: usize, values: &mut [u8])
    ensures { values.new ≡ get_array bytes.now offset (length values.old) }
{
    for (i, value) in values.iter_mut().enumerate() {
        *value = (Bits::byte(offset, i).get(bytes) % 256) as u8;
    }
}

// The array's bits become those of the values, and no other bit changes.
pub fn put_array(bytes: &mut [u8], offset: usize, values: &[u8])
    ensures { bytes.new ≡ put_array bytes.old offset values.now }
{
    for (i, value) in values.iter().enumerate() {
        Bits::byte(offset, i).put(bytes, *value as u16);
    }
}

// The bits from bit `shift` of byte `at` on, at most 16 of them.
#[derive(Clone, Copy)]
struct Bits {
    at: usize,
    shift: u32,
    width: u32,
    ghost in_range: { (at + 2 < 2 ^ 64) × (shift < 8) × (width ≤ 16) },
}

impl Bits {
    // A scalar's bits, at most 16.
    fn scalar(offset: usize, width: usize) -> Bits
        ensures place { 8 * result.at + result.shift ≡ offset }
        ensures width { result.width ≡ scalar_width width }
    {
        Bits {
            at: offset / 8,
            shift: (offset % 8) as u32,
            width: width.min(16) as u32,
        }
    }

    // The bits of byte i of an array.
    fn byte(offset: usize, i: usize) -> Bits
        requires { i < 2 ^ 63 }
        ensures place { 8 * result.at + result.shift ≡ offset + 8 * i }
        ensures width { result.width ≡ 8 }
    {
        Bits {
            at: offset / 8 + i,
            shift: (offset % 8) as u32,
            width: 8,
        }
    }

    // The number that the bits are.
    fn get(self, bytes: &[u8]) -> u16
        ensures { result ≡ number self.width (λ k. bit_at bytes.now (8 * self.at + self.shift + k)) }
    {
        (window(bytes, self.at) / power(self.shift) % power(self.width)) as u16
    }

    // The bits become the value's low bits.
    fn put(self, bytes: &mut [u8], value: u16)
        ensures { bytes.new ≡ put_bits bytes.old (8 * self.at + self.shift) self.width (bit value) }
    {
        let new = self.replaced(window(bytes, self.at), value as u32);
        set_byte(bytes, self.at, (new % 256) as u8);
        set_byte(bytes, self.at + 1, (new / 256 % 256) as u8);
        set_byte(bytes, self.at + 2, (new / 65536 % 256) as u8);
    }

    // The bits below the field, the value's low bits in its place, and the bits above it.
    fn replaced(self, old: u32, value: u32) -> u32
        requires { old < 2 ^ 24 }
        ensures { result ≡ number 24 (replaced (bit old) self.shift self.width (bit value)) }
    {
        let above = power(self.end());
        old % power(self.shift)
            + value % power(self.width) * power(self.shift)
            + old / above * above
    }

    // The first bit above the field.
    fn end(self) -> u32
        ensures { result ≡ self.shift + self.width }
    {
        self.shift + self.width
    }
}

// Three bytes from `at` on as one number, the first lowest.
fn window(bytes: &[u8], at: usize) -> u32
    requires { at + 2 < 2 ^ 64 }
    ensures { result ≡ number 24 (λ k. bit_at bytes.now (8 * at + k)) }
{
    byte(bytes, at) + 256 * byte(bytes, at + 1) + 65536 * byte(bytes, at + 2)
}

// Two to the power of n.
fn power(n: u32) -> u32
    requires { n < 32 }
    ensures value { result ≡ 2 ^ n }
    ensures result_nonzero { 0 < result }
{
    1 << n
}

// The byte at i, and 0 behind the last one.
fn byte(bytes: &[u8], i: usize) -> u32
    ensures value { result ≡ get_or bytes.now i 0 }
    ensures upper_bound { result < 256 }
{
    bytes.get(i).copied().unwrap_or(0) as u32
}

// The byte at i becomes v, and nothing changes behind the last one.
fn set_byte(bytes: &mut [u8], i: usize, v: u8)
    ensures { bytes.new ≡ set bytes.old i v }
{
    if i < bytes.len() {
        bytes[i] = v;
    }
}
