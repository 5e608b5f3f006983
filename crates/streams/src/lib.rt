// What the programs read, write and tell, over the standard library's handles. Nothing is allocated, and no call of this crate can fail
// but by its answer.
#![tactic(auto)]

ghost use Rattle.std.specs.Prelude.{◌≤◌, ◌≡◌, length, min};
ghost use Rattle.streams.specs.Counts.{IsPrefixLen, Moved};

use std::env::FillError;
use std::fmt::InlineText;
use std::io::{Error, Read};
use std::rt::Env;

// Whether the program was started with an argument.
pub fn has_argument(rt: HostRuntime) -> bool {
    !matches!(rt.arg(1, &mut []), Err(FillError::NotPresent))
}

// Reads once from standard input, and tells how many bytes came to the front of a buffer, 0 at the end of the input. A failure is told
// on standard error behind some words, and no number is told then.
pub fn read(rt: HostRuntime, what: &str, bytes: &mut [u8]) -> Option<usize>
    ensures { Moved (length bytes.old) result }
{
    match rt.stdin().read(bytes) {
        Ok(n) => Some(n),
        Err(error) => {
            fail(rt, what, error);
            None
        }
    }
}

// The lesser of a number and how many elements there are.
pub fn within<T>(n: usize, items: &[T]) -> usize
    ensures in_bounds { IsPrefixLen result items.now }
    ensures value { result ≡ min n (length items.now) }
{
    n.min(items.len())
}

// Reads until a buffer is full, the input ends or a reading fails, and tells how many bytes stand at its front.
pub fn read_full(rt: HostRuntime, bytes: &mut [u8]) -> usize
    ensures { IsPrefixLen result bytes.new }
{
    let mut done: usize = 0;
    // Kept: where the next part begins is told by the reading before it, so that no iterator goes over the parts.
    while done < bytes.len() {
        match rt.stdin().read(&mut bytes[done..]) {
            Ok(0) | Err(_) => break,
            Ok(n) => done += n,
        }
    }
    done
}

// Writes bytes to standard output, and tells whether that went well; a failure is told on standard error behind some words.
// Kept: a bool; what failed is told here, so that an error would have nothing in it.
pub fn write_all(rt: HostRuntime, what: &str, bytes: &[u8]) -> bool {
    match rt.write_all(bytes) {
        Ok(()) => true,
        Err(error) => {
            fail(rt, what, error);
            false
        }
    }
}

// Writes a line to standard error: some words, a colon, and the system's words for an error.
fn fail(rt: HostRuntime, what: &str, error: Error) {
    let said = InlineText::<128>::of(error);
    let words = without_number(said.as_str());
    let _ = eprintln!(rt; "{what}: {words}");
}

// The system's words for an error, without the error's number behind them.
fn without_number(said: &str) -> &str {
    match said.split_once(" (os error ") {
        Some((words, _)) => words,
        None => said,
    }
}
