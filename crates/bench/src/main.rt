// A bench master: runs a script of calls from standard input, one a line, and prints the answer to each.
#![tactic(auto)]

mod answer;
mod buffers;
mod bus;
mod calls;
mod forms;
mod print;
mod replies;
mod run;
mod sets;
mod setup;
mod shows;
mod texts;

use buffers::{Bench, TEXT_BYTES};

// Lays out the buffers, and runs the script; with an argument, says how the program is used.
fn main(rt: HostRuntime) {
    if streams::has_argument(rt) {
        usage(rt);
        return;
    }
    let mut text = [0u8; TEXT_BYTES];
    Bench::new().run(rt, &mut text);
}

// Says how the program is used, on standard error, where no answer stands.
fn usage(rt: HostRuntime) {
    let _ = rt.eprint(
        "usage: bench <SCRIPT\n\
        Reads a script of calls from standard input, one a line, and answers each with a line.\n\
        docs/SCRIPT.md has all lines. For example: printf 'pid 2\\nid 43\\n' | bench\n",
    );
}
