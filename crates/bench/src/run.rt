// Runs a script from standard input, a part at a time.
ghost use Rattle.std.specs.Prelude.{◌≤◌};
ghost use Rattle.bench.specs.declared.run.TheConstants.{MOST_KEPT};

use crate::buffers::{Bench, LONGEST_LINE, TEXT_BYTES};
use desk::state;
use master::state::State;

// The most characters that are kept of a line that is not whole yet: one more than a right line has.
const MOST_KEPT: usize = LONGEST_LINE + 1;

impl Bench {
    // Begins with the fresh state and runs the script to its end; nothing says that the input ends, and no run uses up so many turns. Each
    // reads once behind the characters that are kept; at the end of the input a newline is put there, which ends the last line.
    pub(crate) fn run(&mut self, rt: HostRuntime, text: &mut [u8; TEXT_BYTES]) {
        state::put(&mut self.desk, State::fresh());
        let mut kept: usize = 0;
        for _ in 0..u64::MAX {
            let Some(more) = streams::read(rt, "bench: standard input", &mut text[kept..]) else {
                return;
            };
            if more == 0 {
                text[kept] = b'\n';
            }
            kept = self.whole_lines(rt, &mut text[..kept + more.max(1)]);
            self.printer.write_out(rt);
            if more == 0 || self.printer.failed() {
                return;
            }
        }
    }

    // Answers the whole lines of a text, moves what is kept of the line that is left to the front, and tells how much that is.
    fn whole_lines(&mut self, rt: HostRuntime, text: &mut [u8]) -> usize
        ensures { result ≤ MOST_KEPT }
    {
        let left = match text.iter().rposition(|b| *b == b'\n') {
            Some(last) => {
                self.lines(rt, &text[..last]);
                last + 1
            }
            None => 0,
        };
        let n = (text.len() - left).min(MOST_KEPT);
        text.copy_within(left..left + n, 0);
        n
    }

    // Answers lines until a writing fails, and passes over those that ask for nothing.
    fn lines(&mut self, rt: HostRuntime, text: &[u8]) {
        for line in text.split(|b| *b == b'\n') {
            if is_passed_over(line) {
                continue;
            }
            self.printer.make_room(rt);
            self.line(line);
            if self.printer.failed() {
                return;
            }
        }
    }
}

// Whether a line is empty or a comment.
fn is_passed_over(line: &[u8]) -> bool {
    matches!(line, [] | [b'#', ..])
}
