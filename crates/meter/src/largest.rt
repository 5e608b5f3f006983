// The largest table: 60 published frames, 256 signals in two frames each, 15 lists of four members, and four schedules of
// 64 entries with delay 1.
// In each schedule twelve entries that open a frame or a list are followed by four of all kinds.

// Makes the table.
pub(crate) fn build(t: &mut [u16]) {
    for (i, place) in t.iter_mut().enumerate() {
        *place = word(i);
    }
}

// The word at a position.
fn word(i: usize) -> u16 {
    match i {
        0..5 => count(i),
        5..185 => frame((i - 5) / 3, (i - 5) % 3),
        185..953 => signal((i - 185) / 3, (i - 185) % 3),
        953..2489 => placement((i - 953) / 3, (i - 953) % 3),
        2489..2609 => member((i - 2489) / 2, (i - 2489) % 2),
        2609..3633 => entry((i - 2609) / 4, (i - 2609) % 4),
        _ => 0,
    }
}

// 60 frames, 256 signals, 60 members, 256 entries, 512 placements.
fn count(column: usize) -> u16 {
    match column {
        4 => 512,
        0 | 2 => 60,
        _ => 256,
    }
}

// Published frames of eight bytes, the classic ones by turns.
fn frame(f: usize, column: usize) -> u16 {
    match column {
        0 => (59 - f % 60) as u16,
        1 => 8,
        _ => (1 + 2 * (f % 2)) as u16,
    }
}

// Scalars of six bits and arrays of one byte by turns.
fn signal(s: usize, column: usize) -> u16 {
    match column {
        0 => (s % 2) as u16,
        1 => (6 + 2 * (s % 2)) as u16,
        _ => (s / 2 % 64) as u16,
    }
}

// Each signal in two frames, 31 apart; the arrays from the first byte of a frame on, the scalars from its last bits down.
fn placement(p: usize, column: usize) -> u16 {
    let s = p / 2;
    match column {
        0 => (s % 256) as u16,
        1 => ((s % 256 + 31 * (p % 2)) % 60) as u16,
        _ => offset(s % 2, s / 60),
    }
}

// The offset in a round of 60 signals.
fn offset(kind: usize, round: usize) -> u16 {
    if kind == 1 {
        (8 * (round % 8)) as u16
    } else {
        (58 - 6 * (round % 8)) as u16
    }
}

// Four members a list.
fn member(m: usize, column: usize) -> u16 {
    if column == 0 {
        (m / 4 % 15) as u16
    } else {
        (59 - m % 60) as u16
    }
}

// 64 entries a schedule.
fn entry(e: usize, column: usize) -> u16 {
    match column {
        0 => (e / 64 % 4) as u16,
        1 => kind(e),
        2 => target(e),
        _ => 1,
    }
}

// Frames and lists by turns, and then one of each kind.
fn kind(e: usize) -> u16 {
    if e % 16 < 12 {
        (e % 2) as u16
    } else {
        (e % 4) as u16
    }
}

// A frame or a list number for kinds 0 and 1, and 0 for the others.
fn target(e: usize) -> u16 {
    if kind(e) < 2 { (e % 15) as u16 } else { 0 }
}
