// Runs the parts of the core that no line of a script reaches, where there is no bit, no record and no frame. The file stdout beside
// src/ has what the papers say.
#![tactic(auto)]

mod lengths;
mod readers;
mod show;
mod signals;

use refusal::Refusal;

fn main(rt: HostRuntime) {
    numbers(rt);
    signals::packings(rt);
    readers::all(rt);
    lengths::counts(rt);
}

// The refusal numbers, with a space before each.
fn numbers(rt: HostRuntime) {
    let _ = print!(rt; "refusal numbers, in the order of the papers:");
    for number in Refusal::numbers() {
        let _ = print!(rt; " {number}");
    }
    let _ = println!(rt;);
}
