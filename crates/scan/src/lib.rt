// Two calls on bytes: the search for the first one of a value, and the copy to the front of a buffer.
#![tactic(auto)]

ghost use Rattle.std.specs.Prelude.{◌≡◌, ◌+◌, ◌<◌, ◌≤◌, ◌++◌, length, take, drop};
ghost use Rattle.scan.specs.Bytes.{index_of, slice};

// The place of the first byte of a value from one place up to another, or up to the end; where there is none, the place behind those that
// were looked at.
// Kept: it cannot fail, and its clauses `index` and `at_most` say so; an Option would be a failure.
pub fn find(bytes: &[u8], from: usize, to: usize, byte: u8) -> usize
    ensures index { result ≡ from + index_of byte (slice from to bytes.now) }
    ensures at_most { from ≤ to → result ≤ to }
{
    let end = to.min(bytes.len());
    if end <= from {
        return from;
    }
    from + index_of(&bytes[from..end], byte)
}

// The place of the first byte of a value, and the length where there is none.
fn index_of(bytes: &[u8], byte: u8) -> usize
    ensures { result ≡ index_of byte bytes.now }
{
    bytes.iter().position(|b| *b == byte).unwrap_or(bytes.len())
}

// Copies bytes to the front of a buffer that has room for them, and tells how many there are; to any other it copies nothing, and tells 0.
// Kept: it cannot fail, and its clause `no_room` says that 0 is told; an Option would be a failure.
pub fn copy(from: &[u8], to: &mut [u8]) -> usize
    ensures count { length from.now ≤ length to.old → result ≡ length from.now }
    ensures left { length from.now ≤ length to.old → to.new ≡ take (length from.now) from.now ++ drop (length from.now) to.old }
    ensures no_room { length to.old < length from.now → (result ≡ 0) × (to.new ≡ to.old) }
{
    let n = from.len();
    if to.len() < n {
        return 0;
    }
    to[..n].copy_from_slice(from);
    n
}
