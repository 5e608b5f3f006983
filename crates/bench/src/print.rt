// Printing: the answers are collected in a buffer, and written out when the longest answer may have no room in it and before each reading.
// After a writing failed nothing more is written.
ghost use Rattle.std.specs.Prelude.{◌≤◌};
ghost use Rattle.bench.specs.declared.buffers.TheConstants.{OUTPUT_BYTES};

use crate::buffers::{LONGEST_ANSWER, OUTPUT_BYTES};
use crate::texts::Text;
use script::print;

// The answers that are not written out yet, at the front of a buffer.
#[derive(Drop)]
pub(crate) struct Printer {
    out: [u8; OUTPUT_BYTES],
    // Kept: `script::print` puts a text at a place of a lent buffer and tells where it ends, which this is.
    printed: usize,
    failed: bool,
    ghost in_buffer: { printed ≤ OUTPUT_BYTES },
}

impl Printer {
    // Nothing is printed yet.
    pub(crate) fn new() -> Printer {
        Printer {
            out: [0; OUTPUT_BYTES],
            printed: 0,
            failed: false,
        }
    }

    // Prints a text with numbers.
    pub(crate) fn put(&mut self, text: Text, numbers: &[u32]) {
        self.printed = print::by_number(&mut self.out, self.printed, text.0, 0, numbers, 0);
    }

    // Prints a text with bytes behind it as pairs, a space before each.
    pub(crate) fn put_bytes(&mut self, text: Text, bytes: &[u8]) {
        self.put(text, &[]);
        self.printed = print::pairs(&mut self.out, self.printed, bytes);
    }

    // Writes the answers out where there may be no room for one more.
    pub(crate) fn make_room(&mut self, rt: HostRuntime) {
        if OUTPUT_BYTES - LONGEST_ANSWER < self.printed {
            self.write_out(rt);
        }
    }

    // Writes the answers out, unless an earlier writing failed; a failure is told on standard error.
    pub(crate) fn write_out(&mut self, rt: HostRuntime) {
        if !self.failed {
            let answers = &self.out[..self.printed];
            self.failed = !streams::write_all(rt, "bench: standard output", answers);
        }
        self.printed = 0;
    }

    // Whether a writing failed.
    pub(crate) fn failed(&self) -> bool {
        self.failed
    }
}
