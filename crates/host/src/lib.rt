// The entry points for a host written in C, on numbers and byte slices. c/linhost.h declares them.
//
// The calls of the wire answer one number: its low byte is the value, its next byte the refusal number of document 01, 0 for
// none. The table check and the judge answer one too: its low sixteen bits are the position, or the number of a short entry, the next
// byte is the refusal number, and the bit above that says that an entry is short.
#![tactic(auto)]

ghost use Rattle.std.specs.Prelude.{◌+◌, ◌*◌, ◌<◌, ◌≡◌};
ghost use Rattle.wire.specs.Checksum.{checksum_of};
ghost use Rattle.wire.specs.Identifier.{protected_of, read_of};
ghost use Rattle.cluster.specs.Check.{taken_of};
ghost use Rattle.timing.specs.Judge.{judge_of};
ghost use Rattle.host.specs.Coded.{coded as codedOf, table_coded, judge_coded, wish_of};

use refusal::Refusal;
use wire::checksum::Model;

// Builds the protected identifier of an identifier.
#[unsafe(no_mangle)]
pub extern "C" fn lin_build(id: u8) -> u16
    ensures { result ≡ codedOf (protected_of id) }
{
    coded(wire::identifier::build(id))
}

// Reads the identifier out of a protected identifier.
#[unsafe(no_mangle)]
pub extern "C" fn lin_read(protected: u8) -> u16
    ensures { result ≡ codedOf (read_of protected) }
{
    coded(wire::identifier::read(protected))
}

// The checksum of data bytes under an identifier; a model of 0 wishes for classic, any other for enhanced.
#[unsafe(no_mangle)]
pub extern "C" fn lin_checksum(id: u8, model: u8, data: &[u8]) -> u16
    ensures { result ≡ codedOf (checksum_of id (wish_of model) «data».now) }
{
    if model == 0 {
        coded(wire::checksum::of(id, Model::Classic, data))
    } else {
        coded(wire::checksum::of(id, Model::Enhanced, data))
    }
}

// Checks a cluster table: the refusal number and the position of the first word that is wrong, missing or surplus, or 0 where it is accepted.
#[unsafe(no_mangle)]
pub extern "C" fn lin_check(table: &[u16]) -> u32
    ensures { result ≡ table_coded (taken_of table.now) }
{
    match cluster::taken(table) {
        Ok(()) => 0,
        Err(refusal) => placed(refusal),
    }
}

// Judges the schedules of a table, under a tick in microseconds and a bit time in tenths of a microsecond: 0 where every slot holds its
// longest frame, the first short entry, or the refusal number and the position.
#[unsafe(no_mangle)]
pub extern "C" fn lin_judge(table: &[u16], tick: u32, bit: u32) -> u32
    ensures { result ≡ judge_coded (judge_of table.now tick bit) }
{
    match timing::judge(table, tick, bit) {
        Ok(None) => 0,
        Ok(Some(e)) => (e as u32) + 16777216,
        Err(refusal) => placed(refusal),
    }
}

// An answer as one number.
// Kept: the C interface.
fn coded(answer: Result<u8, Refusal>) -> u16
    ensures { result ≡ codedOf answer }
{
    match answer {
        Ok(byte) => byte as u16,
        Err(refusal) => 256 * (refusal.number as u16),
    }
}

// A refusal as one number: its position in the low sixteen bits, its number above them.
fn placed(refusal: Refusal) -> u32
    requires { refusal.place < 65536 }
    ensures { result ≡ refusal.place + 65536 * refusal.number }
{
    (refusal.place as u32) + 65536 * (refusal.number as u32)
}
