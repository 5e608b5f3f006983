// The log program of document 01: judges the frames of a log on standard input, one a line, and prints a row for each.
#![tactic(auto)]

ghost use Rattle.std.specs.Prelude.{◌≡◌, ◌-◌, ◌<◌, ◌≤◌, false, length, take};
ghost use Rattle.buslog.specs.Row.{header};
ghost use Rattle.buslog.specs.Report.{built_in};
ghost use Rattle.streams.specs.Counts.{Moved};
ghost use Rattle.linlog.specs.Part.{started, Reports, Ends, Goes, Turns, Runs};

use buslog::report;

// The characters of the log that are read at once, with those kept before them.
const TEXT_BYTES: usize = 16384;

// The rows of so much text always fit: 33 characters for each of its characters.
const ROW_BYTES: usize = 33 * TEXT_BYTES;

// How far the log was reported.
#[derive(Clone, Copy)]
struct Log {
    // The number of the next line.
    number: u64,
    // The characters of a line that is not whole yet, at the front of the text.
    // Kept: that they are fewer than the text has stands in three contracts; as a ghost field it would be a field of `started` (specs/Part),
    // and `no_turn` (ReadingLaws) would ask for it.
    kept: usize,
    // Kept: `next_turn`, `no_turn` and `run_exactly` (ReadingLaws) speak of it, and of the number and what is kept of a log that ended too.
    goes_on: bool,
}

fn main(rt: HostRuntime) {
    if streams::has_argument(rt) {
        usage(rt);
        return;
    }
    let header = header();
    if !write_out(rt, &header) {
        return;
    }
    let mut text = [0u8; TEXT_BYTES];
    let mut out = [0u8; ROW_BYTES];
    run(rt, &mut text, &mut out);
}

// Says how the program is used, on standard error, where no row stands.
fn usage(rt: HostRuntime) {
    let _ = rt.eprint(
        "usage: linlog <LOG\n\
        Reads a bus log from standard input, one frame a line, and judges each: line number, identifier, verdict.\n\
        For example: printf '42 00 BD\\n42 00 BC\\n' | linlog\n",
    );
}

// Writes text out and tells whether that went well; a failure is told on standard error.
// Kept: as `streams::write_all`.
fn write_out(rt: HostRuntime, text: &[u8]) -> bool {
    streams::write_all(rt, "linlog: standard output", text)
}

// The first line of the report.
fn header() -> [u8; 16]
    ensures { result ≡ header }
{
    *b"line id verdict\n"
}

// The built-in table: one frame, identifier 2, length 1, enhanced.
fn table() -> [u16; 8]
    ensures { result ≡ built_in }
{
    [1, 0, 0, 0, 0, 2, 1, 0]
}

// The log before the first reading: the first line is line 1, and nothing was kept.
fn started() -> Log
    ensures { result ≡ started }
{
    Log {
        number: 1,
        kept: 0,
        goes_on: true,
    }
}

// Turn after turn, from line 1 on, until one ends the log; nothing says that the input ends, and no run uses up so many turns.
// Kept: text and rows as two parameters; as fields of a struct, what `self.text` is behind the loan of a part of it, in `whole_lines`, and
// its length after a turn, here, stayed open.
fn run(rt: HostRuntime, text: &mut [u8; TEXT_BYTES], out: &mut [u8; ROW_BYTES])
    ensures { Runs text.old out.old text.new out.new }
{
    let mut log = started();
    for turns in 0..u64::MAX {
        if !log.goes_on {
            return;
        }
        log = turn(rt, log, text, out);
    }
}

// Reads once behind what was kept, and does what the answer of that reading says; a failure is told on standard error.
fn turn(rt: HostRuntime, log: Log, text: &mut [u8; TEXT_BYTES], out: &mut [u8; ROW_BYTES]) -> Log
    requires { log.kept < length text.old }
    ensures { Turns log text.old out.old result text.new out.new }
{
    let got = streams::read(rt, "linlog: standard input", &mut text[log.kept..]);
    part(rt, log, text, got, out)
}

// What a reading brings about, by what it answered: no number is a failure, which was told on standard error, and nothing more
// is reported; 0 is the end, where the last line is reported; and n characters go behind what was kept, and their whole lines are.
fn part(
    rt: HostRuntime,
    log: Log,
    text: &mut [u8; TEXT_BYTES],
    got: Option<usize>,
    out: &mut [u8; ROW_BYTES],
) -> Log
    requires { (log.kept < length text.old) × Moved (length text.old - log.kept) got }
    ensures { Goes log got text.old out.old result text.new out.new }
{
    match got {
        None => ended(log),
        Some(0) => last(rt, log, text, out),
        Some(more) => whole_lines(rt, log, text, log.kept + more, out),
    }
}

// Reports a last line that lacks its newline, if there is one.
fn last(rt: HostRuntime, log: Log, text: &mut [u8; TEXT_BYTES], out: &mut [u8; ROW_BYTES]) -> Log
    requires { log.kept < length text.old }
    ensures { Ends log (take log.kept text.old) out.old result out.new }
{
    if log.kept == 0 {
        return ended(log);
    }
    text[log.kept] = b'\n';
    ended(whole_lines(rt, log, text, log.kept + 1, out))
}

// Reports the whole lines of the first n characters, writes their rows, and keeps what is left.
fn whole_lines(
    rt: HostRuntime,
    log: Log,
    text: &mut [u8; TEXT_BYTES],
    n: usize,
    out: &mut [u8; ROW_BYTES],
) -> Log
    requires { n ≤ length text.old }
    ensures { Reports log (take n text.old) out.old result text.new out.new }
{
    let table = table();
    let written = report::write(&table, log.number, &text[..n], out).unwrap();
    let goes_on = write_out(rt, &out[..written.put]);
    Log {
        number: log.number.wrapping_add(written.lines as u64),
        kept: report::keep(&mut text[..n], written.used),
        goes_on,
    }
}

// The log with nothing more to come.
fn ended(log: Log) -> Log
    ensures { (result.kept ≡ 0) × (result.goes_on ≡ false) }
{
    Log {
        kept: 0,
        goes_on: false,
        ..log
    }
}
