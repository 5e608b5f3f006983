// Bytes as upper-case hexadecimal pairs, and the bytes of a line: pairs with one space between.
ghost use Rattle.std.specs.Prelude.{◌≡◌, ◌<◌, SomeIff};
ghost use Rattle.buslog.specs.Pairs.{digit_of, byte_of, digit_character, pair_of};
ghost use Rattle.buslog.specs.Parts.{Reads, part_byte};

use arrayvec::ArrayVec;

// Reads the bytes of a line, one at least; none where it is text.
pub(crate) fn read(line: &[u8]) -> Option<ArrayVec<u8, 10>>
    ensures { Reads line.now result }
{
    if 29 < line.len() || line.len() % 3 != 2 {
        return None;
    }
    let mut bytes = ArrayVec::<u8, 10>::new();
    for part in line.chunks(3) {
        bytes.push(part_byte(part)?);
    }
    Some(bytes)
}

// The byte of a part of a line: a pair, with a space behind it where the line goes on.
#[tactic(auto, unfolding(crate::specs::Parts::part_byte))]
fn part_byte(part: &[u8]) -> Option<u8>
    ensures { result ≡ part_byte part.now }
{
    match part {
        [high, low] | [high, low, b' '] => byte(*high, *low),
        _ => None,
    }
}

// The byte that two characters are the pair of, if they are one.
// Kept: `u8::from_str_radix` reads lower-case digits and a sign too.
pub fn byte(high: u8, low: u8) -> Option<u8>
    ensures { result ≡ byte_of high low }
{
    let high = digit(high)?;
    let low = digit(low)?;
    Some(16 * high + low)
}

// The value of an upper-case hexadecimal digit.
fn digit(c: u8) -> Option<u8>
    ensures { SomeIff result (digit_of c < 16) (digit_of c) }
{
    match c {
        b'0'..=b'9' => Some(c - b'0'),
        b'A'..=b'F' => Some(c - b'A' + 10),
        _ => None,
    }
}

// The pair of a byte.
// Kept: by `{:02X}` a text would have to be written and its two bytes taken out of it.
pub fn pair(byte: u8) -> [u8; 2]
    ensures { result ≡ pair_of byte }
{
    [character(byte / 16), character(byte % 16)]
}

// The character of a hexadecimal digit.
fn character(digit: u8) -> u8
    requires { digit < 16 }
    ensures { result ≡ digit_character digit }
{
    match digit {
        0..=9 => b'0' + digit,
        _ => b'A' - 10 + digit,
    }
}
