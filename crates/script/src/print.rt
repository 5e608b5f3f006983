// The texts of answers: each is put at a place of a buffer, as far as there is room, and the place behind it is told.
ghost use Rattle.std.specs.Prelude.{◌≡◌, ◌∷◌, [], get_or, drop};
ghost use Rattle.buslog.specs.Pairs.{pair_of};
ghost use Rattle.buslog.specs.Row.{decimal_of};
ghost use Rattle.script.specs.Fields.{fields_of};
ghost use Rattle.script.specs.Print.{Puts, number_or_none, stands_for, left_behind, shown_by, text_by, spaced_pairs};

use buslog::pairs::pair;
use buslog::row;

// In the place of a number: none.
// Kept: `by_number` and `by_pattern` take plain numbers, of which this is one; an Option in the place of each would ask more of callers.
pub const NONE: u32 = 65536;

// Puts a text by one of some patterns, with the numbers from a place on; `|` stands between patterns. Nothing is put where there is no such
// pattern.
pub fn by_number(
    out: &mut [u8],
    at: usize,
    patterns: &[u8],
    k: usize,
    numbers: &[u32],
    from: usize,
) -> usize
    ensures { Puts (text_by (get_or (fields_of 124 patterns.now) k []) (drop from numbers.now)) out.old at result out.new }
{
    let Some(pattern) = patterns.split(|c| *c == b'|').nth(k) else {
        return at;
    };
    by_pattern(out, at, pattern, numbers, from)
}

// Puts a text by a pattern, with the numbers from a place on: `N` stands for the next number, `E` for the next number or `none`, `H` for
// the next as a byte, and any other character for itself.
// Kept: the place in `numbers` is counted, since only some characters take a number (`left_behind`, specs/Print).
// Kept: a formatter of its own, since patterns are data (a text by its number), and a format text of the standard library is a literal.
pub fn by_pattern(out: &mut [u8], at: usize, pattern: &[u8], numbers: &[u32], from: usize) -> usize
    ensures { Puts (text_by pattern.now (drop from numbers.now)) out.old at result out.new }
{
    let mut end = at;
    let mut place = from;
    for c in pattern {
        end = shown(out, end, *c, number(numbers, place));
        place = next(numbers, place, *c);
    }
    end
}

// Puts bytes as pairs, each behind a space.
pub fn pairs(out: &mut [u8], at: usize, bytes: &[u8]) -> usize
    ensures { Puts (spaced_pairs bytes.now) out.old at result out.new }
{
    let mut end = at;
    for byte in bytes {
        end = spaced(out, end, *byte);
    }
    end
}

// The number at a place, and 0 where there is none.
fn number(numbers: &[u32], place: usize) -> u32
    ensures { result ≡ get_or (drop place numbers.now) 0 0 }
{
    numbers.get(place).copied().unwrap_or(0)
}

// The place of the next number, behind a character of a pattern.
fn next(numbers: &[u32], place: usize, c: u8) -> usize
    ensures { drop result numbers.now ≡ left_behind c (drop place numbers.now) }
{
    if stands_for(c) && place < numbers.len() {
        place + 1
    } else {
        place
    }
}

// Whether a character of a pattern stands for a number.
fn stands_for(c: u8) -> bool
    ensures { result ≡ stands_for c }
{
    matches!(c, b'N' | b'E' | b'H')
}

// Puts what a character of a pattern stands for.
// Kept: buffer and place as two parameters, here and below, as the public functions take them and tell the place that comes next.
fn shown(out: &mut [u8], at: usize, c: u8, n: u32) -> usize
    ensures { Puts (shown_by c n) out.old at result out.new }
{
    match c {
        b'N' => decimal(out, at, n),
        b'E' => number_or_none(out, at, n),
        b'H' => text(out, at, &pair((n % 256) as u8)),
        _ => text(out, at, &[c]),
    }
}

// Puts a number in decimal, or that there is none.
fn number_or_none(out: &mut [u8], at: usize, n: u32) -> usize
    ensures { Puts (number_or_none n) out.old at result out.new }
{
    if n == NONE {
        return text(out, at, b"none");
    }
    decimal(out, at, n)
}

// Puts a number in decimal.
fn decimal(out: &mut [u8], at: usize, number: u32) -> usize
    ensures { Puts (decimal_of number) out.old at result out.new }
{
    let (digits, first) = row::decimal(number as u64);
    text(out, at, &digits[first..])
}

// Puts a space and a byte as a pair.
fn spaced(out: &mut [u8], at: usize, byte: u8) -> usize
    ensures { Puts (32 ∷ pair_of byte) out.old at result out.new }
{
    let [high, low] = pair(byte);
    text(out, at, &[b' ', high, low])
}

// Puts a text.
fn text(out: &mut [u8], at: usize, text: &[u8]) -> usize
    ensures { Puts text.now out.old at result out.new }
{
    if out.len() <= at {
        return at;
    }
    let n = (out.len() - at).min(text.len());
    at + scan::copy(&text[..n], &mut out[at..])
}
