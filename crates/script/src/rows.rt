// The two rows that end a line: numbers of 16 bits, a colon, and numbers of 32 bits, one space between all of them.
ghost use Rattle.std.specs.Prelude.{◌≡◌};
ghost use Rattle.script.specs.Fields.{fields_from};
ghost use Rattle.script.specs.Rows.{is_colon, ReadsFirst, ReadsRows};

use crate::lists;
use crate::lists::Element;

// The first of two rows: how many fields it has, and where the second row begins.
#[derive(Clone, Copy)]
pub(crate) struct Row {
    pub(crate) count: usize,
    pub(crate) next: usize,
}

// Reads two rows with a colon between them, numbers of 16 bits and numbers of 32 bits, and tells how many each has. The second row is read
// where the first is right.
// Kept: two slices: document 02 lends a row so (Req 01), and `State::write_row` takes it so.
pub fn read(
    line: &[u8],
    at: usize,
    words: &mut [u16],
    numbers: &mut [u32],
) -> Option<(usize, usize)>
    ensures { ReadsRows (fields_from 32 line.now at) words.old numbers.old result words.new numbers.new }
{
    let row = first_row(line, at, words)?;
    let count = lists::read(line, row.next, numbers)?;
    Some((row.count, count))
}

// Reads numbers of 16 bits up to a colon.
fn first_row(line: &[u8], at: usize, words: &mut [u16]) -> Option<Row>
    ensures { ReadsFirst line.now 0 (fields_from 32 line.now at) words.old result words.new }
{
    if line.len() < at {
        return None;
    }
    let mut next = at;
    for (count, field) in line[at..].split(|c| *c == b' ').enumerate() {
        next += field.len() + 1;
        if is_colon(field) {
            return Some(Row { count, next });
        }
        if words.len() <= count {
            return None;
        }
        words[count] = u16::read(field)?;
    }
    None
}

// Whether a field is a colon.
fn is_colon(field: &[u8]) -> bool
    ensures { result ≡ is_colon field.now }
{
    matches!(field, [b':'])
}
