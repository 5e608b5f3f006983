// The report of a log, a part at a time.
ghost use Rattle.std.specs.Prelude.{◌≡◌, Ok, ◌-◌, min, [], length};
ghost use Rattle.refusal.specs.Answers.{gives};
ghost use Rattle.cluster.specs.Check.{taken_of};
ghost use Rattle.cluster.specs.Answers.{behind_table};
ghost use Rattle.buslog.specs.Answers.{report_told};
ghost use Rattle.buslog.specs.Report.{reported, reporting, reported_lines, Leaves, Fronts, kept_of, kept_length};
ghost use Rattle.buslog.specs.Parts.{so_far};

use crate::judge::of_line;
use crate::row;
use cluster::right::Right;
use refusal::Refusal;

// How many lines were reported, how many characters of the text they have, and how many their rows have.
#[derive(Clone, Copy)]
pub struct Written {
    pub lines: usize,
    pub used: usize,
    pub put: usize,
}

// Reports the whole lines of a text, numbered from a number on, as long as there is room for their rows.
pub fn write(t: &[u16], number: u64, text: &[u8], out: &mut [u8]) -> Result<Written, Refusal>
    ensures leaves { Leaves (reported t.now number (length out.old) text.now) out.old result out.new }
    ensures told { report_told result ≡ behind_table (taken_of t.now) (gives []) }
{
    Ok(rows(Right::taken(t)?, number, text, out))
}

// Reports under an accepted table.
fn rows(t: Right, number: u64, text: &[u8], out: &mut [u8]) -> Written
    ensures { Leaves (reporting t.entry.words.now number (reported_lines t.entry.words.now number (length out.old) text.now))
        out.old (Ok result) out.new }
{
    let mut lines: usize = 0;
    let mut used: usize = 0;
    let mut put: usize = 0;
    // Kept: in a `for` over the parts of a split the last part, which is no whole line, would have to be told from the others, and each turn
    // would still ask for the room.
    while 33 <= out.len() - put {
        let end = scan::find(text, used, text.len(), b'\n');
        if end == text.len() {
            return reported_so_far(lines, used, put);
        }
        let verdict = of_line(t, &text[used..end]);
        let line = number.wrapping_add(lines as u64);
        put += row::put(&mut out[put..], line, verdict);
        lines += 1;
        used = end + 1;
    }
    reported_so_far(lines, used, put)
}

// The report of what was reported.
fn reported_so_far(lines: usize, used: usize, put: usize) -> Written
    ensures { result ≡ so_far lines used put }
{
    Written { lines, used, put }
}

// Moves what stands from a place on to the front of the text, cut to the length that shows a text, and tells how much that is.
pub fn keep(text: &mut [u8], from: usize) -> usize
    ensures { Fronts (kept_of text.old from) text.old result text.new }
{
    let n = kept_length(text.len(), from);
    if n == 0 {
        return 0;
    }
    text.copy_within(from..from + n, 0);
    n
}

// How much of a text of a length is kept from a place on.
fn kept_length(length: usize, from: usize) -> usize
    ensures { result ≡ min kept_length (length - from) }
{
    length.saturating_sub(from).min(30)
}
