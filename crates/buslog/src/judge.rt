// The verdict on a line.
ghost use Rattle.cluster.specs.Table.{frame_count};
ghost use Rattle.std.specs.Prelude.{SomeIff, ◌<◌, ◌≡◌, ◌≤◌, length};
ghost use Rattle.refusal.specs.Answers.{gives};
ghost use Rattle.cluster.specs.Check.{taken_of};
ghost use Rattle.cluster.specs.Answers.{behind_table};
ghost use Rattle.buslog.specs.Answers.{verdict_values, judged_told};
ghost use Rattle.buslog.specs.Verdict.{frame_with, known_verdict, identifier_verdict, bytes_verdict, line_verdict, judge_of};

use crate::pairs;
use cluster::frames;
use cluster::right::Right;
use refusal::Refusal;
use wire::checksum::Model;
use wire::{checksum, identifier};

// The verdicts in the order in which they apply, with the identifier where there is one.
// Kept: no Result, since document 01 lists six verdicts, of which `ok` is one, and `line_verdict` tells one of every line.
#[derive(Clone, Copy)]
pub enum Verdict {
    Text,
    Parity,
    Unknown(u8),
    Length(u8),
    Checksum(u8),
    Ok(u8),
}

// Judges a line, without its newline, under a table.
pub fn judge(t: &[u16], line: &[u8]) -> Result<Verdict, Refusal>
    ensures value { result ≡ judge_of t.now line.now }
    ensures told { judged_told result ≡ behind_table (taken_of t.now) (gives (verdict_values (line_verdict t.now line.now))) }
{
    Ok(of_line(Right::taken(t)?, line))
}

// The verdict on a line under an accepted table.
pub(crate) fn of_line(t: Right, line: &[u8]) -> Verdict
    ensures { result ≡ line_verdict t.entry.words.now line.now }
{
    let Some(read) = pairs::read(line) else {
        return Verdict::Text;
    };
    of_bytes(t, read.as_slice())
}

// The verdict on one byte or more: protected identifier, data, checksum.
fn of_bytes(t: Right, bytes: &[u8]) -> Verdict
    requires { 1 ≤ length bytes.now }
    ensures { result ≡ bytes_verdict t.entry.words.now bytes.now }
{
    match identifier::read(bytes[0]) {
        Err(_) => Verdict::Parity,
        Ok(id) => of_identifier(t, id, &bytes[1..]),
    }
}

// The verdict by the identifier, and by what stands behind it.
fn of_identifier(t: Right, id: u8, rest: &[u8]) -> Verdict
    requires { id ≤ 63 }
    ensures { result ≡ identifier_verdict t.entry.words.now id rest.now }
{
    if id == 60 || id == 61 {
        return of_known(id, 8, Model::Classic, rest);
    }
    match frame_with(t.words, id) {
        Some(f) => of_known(
            id,
            frames::length(t.words, f),
            frames::model(t.words, f),
            rest,
        ),
        None => Verdict::Unknown(id),
    }
}

// The verdict on the data and the checksum of a known identifier.
fn of_known(id: u8, length: u16, wish: Model, rest: &[u8]) -> Verdict
    requires { (id ≤ 63) × (1 ≤ length) × (length ≤ 8) }
    ensures { result ≡ known_verdict id length wish rest.now }
{
    let n = length as usize;
    if rest.len() != n + 1 {
        return Verdict::Length(id);
    }
    match checksum::of(id, wish, &rest[..n]) {
        Ok(sum) if rest[n] == sum => Verdict::Ok(id),
        _ => Verdict::Checksum(id),
    }
}

// The frame with an identifier.
fn frame_with(t: &[u16], id: u8) -> Option<u16>
    ensures { SomeIff result (frame_with t.now id < frame_count t.now) (frame_with t.now id) }
{
    (0..frames::count(t)).find(|f| frames::identifier(t, *f) == id as u16)
}
