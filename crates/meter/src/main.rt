// Makes calls on the largest table, one for each letter on standard input, and prints a digest of their answers and what is left.
// benchmarks/run counts its instructions beside those of benchmarks/meter.c, which prints the same.
#![tactic(auto)]

mod calls;
mod largest;
mod row;

fn main(rt: HostRuntime) {
    let mut letters = [0u8; 4096];
    let n = streams::read_full(rt, &mut letters);
    let mut t = [0u16; 3633];
    largest::build(&mut t);
    let mut bytes = [0u8; 480];
    let digest = calls::all(&t, &mut bytes, &letters[..n]);
    let _ = println!(rt; "{n} calls, digest {digest}");
}
