// Lengths of messages: how many frames they take, and what is refused.
use refusal::Refusal;
use transport::cutting;

// The numbers of frames.
pub(crate) fn counts(rt: HostRuntime) {
    let _ = println!(rt;
        "numbers of frames: of all lengths from 0 to 4096 together, a refused one counted as 0, and of lengths far above"
    );
    let _ = println!(rt; "lengths 0 to 4096: {} frames", all_frames());
    for n in [4097, 65543, 4294967303, 18446744073709551615] {
        length(rt, n);
    }
}

// The numbers of frames of the lengths 0 to 4096 together.
fn all_frames() -> u64 {
    let mut sum: u64 = 0;
    for n in 0..4097 {
        sum += u64::from(frames(n));
    }
    sum
}

// The number of frames, 0 where the length is refused.
fn frames(length: usize) -> u16 {
    cutting::count(length).unwrap_or(0)
}

// The number of frames of a length, or its refusal, with the place where that is not 0.
fn length(rt: HostRuntime, n: usize) {
    let _ = match cutting::count(n) {
        Ok(frames) => println!(rt; "length {n}: {frames} frames"),
        Err(Refusal { number, place: 0 }) => println!(rt; "length {n}: refused {number}"),
        Err(Refusal { number, place }) => println!(rt; "length {n}: refused {number} at {place}"),
    };
}
