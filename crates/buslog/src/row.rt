// One row of a report: the number of the line, the identifier and the verdict.
ghost use Rattle.std.specs.Prelude.{◌≡◌, ◌+◌, ◌≤◌, ◌∷◌, ◌++◌, ◌-◌, length, replicate};
ghost use Rattle.buslog.specs.Row.{row_of, decimal_of, longest_row};
ghost use Rattle.buslog.specs.Pairs.{pair_of};
ghost use Rattle.buslog.specs.Report.{Fronts};
ghost use Rattle.buslog.specs.Parts.{verdict_text};

use crate::judge::Verdict;
use crate::pairs::pair;

// Puts a row at the front of a buffer and tells its length.
pub(crate) fn put(out: &mut [u8], number: u64, verdict: Verdict) -> usize
    requires { longest_row ≤ length out.old }
    ensures { Fronts (row_of number verdict) out.old result out.new }
{
    let digits = put_decimal(out, number);
    digits + put_verdict(&mut out[digits..], verdict)
}

// Puts a number's decimal digits.
fn put_decimal(out: &mut [u8], number: u64) -> usize
    requires { 20 ≤ length out.old }
    ensures { Fronts (decimal_of number) out.old result out.new × (result ≤ 20) }
{
    let (digits, first) = decimal(number);
    scan::copy(&digits[first..], out)
}

// The decimal digits of a number at the end of an array, zeros before them, and where the digits begin.
// Kept: tried, `InlineText::<20>::of(number)`, which prints by `Display`: 227 instructions for six digits, and 46 here, so that a line of a
// log would be at 1.78 times plain C, and the bar is 1.25.
pub fn decimal(number: u64) -> ([u8; 20], usize)
    ensures digits { result.0 ≡ replicate (20 - length (decimal_of number)) 0 ++ decimal_of number }
    ensures first { result.1 ≡ 20 - length (decimal_of number) }
{
    let mut digits = [0; 20];
    let mut first: usize = 19;
    digits[19] = b'0' + (number % 10) as u8;
    let mut rest = number / 10;
    // Kept: a `for` over the places from the end on would need a break where nothing is left of the number.
    while 0 < rest {
        first -= 1;
        digits[first] = b'0' + (rest % 10) as u8;
        rest = rest / 10;
    }
    (digits, first)
}

// Puts a space, the identifier, a space, the verdict's word and a newline.
// Kept: as `decimal`, and no `Display`: a row is bytes at the front of a lent buffer.
fn put_verdict(out: &mut [u8], verdict: Verdict) -> usize
    requires { 13 ≤ length out.old }
    ensures { Fronts (verdict_text verdict) out.old result out.new }
{
    match verdict {
        Verdict::Text => scan::copy(b" -- text\n", out),
        Verdict::Parity => scan::copy(b" -- parity\n", out),
        Verdict::Unknown(id) => put_identified(out, id, b" unknown\n"),
        Verdict::Length(id) => put_identified(out, id, b" length\n"),
        Verdict::Checksum(id) => put_identified(out, id, b" checksum\n"),
        Verdict::Ok(id) => put_identified(out, id, b" ok\n"),
    }
}

// Puts a space, an identifier as a pair, and a text.
fn put_identified(out: &mut [u8], id: u8, text: &[u8]) -> usize
    requires { 3 + length text.now ≤ length out.old }
    ensures { Fronts (32 ∷ pair_of id ++ text.now) out.old result out.new }
{
    let [high, low] = pair(id);
    scan::copy(&[b' ', high, low], out);
    3 + scan::copy(text, &mut out[3..])
}
