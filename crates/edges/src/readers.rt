// The readers of a cluster table where there is no word or no record.
use cluster::{entries, frames, members, placements, signals};

// A right table: 6 frames, 6 signals, each placed once, 4 members in 2 lists, 6 entries in 2 schedules.
const TABLE: [u16; 91] = [
    // counts
    6, 6, 4, 6, 6,
    // frame 0
    2, 2, 1,
    // frame 1
    17, 8, 3,
    // frame 2
    33, 8, 0,
    // frame 3
    40, 3, 1,
    // frame 4
    50, 1, 3,
    // frame 5
    51, 1, 1,
    // signal 0
    0, 3, 1,
    // signal 1
    0, 8, 200,
    // signal 2
    0, 12, 2748,
    // signal 3
    1, 8, 90,
    // signal 4
    1, 16, 165,
    // signal 5
    0, 16, 4660,
    // placement 0
    0, 1, 5,
    // placement 1
    1, 1, 8,
    // placement 2
    2, 0, 4,
    // placement 3
    3, 1, 32,
    // placement 4
    4, 2, 0,
    // placement 5
    5, 3, 4,
    // member 0
    0, 1,
    // member 1
    1, 0,
    // member 2
    1, 3,
    // member 3
    1, 4,
    // entry 0
    0, 0, 2, 10,
    // entry 1
    0, 1, 1, 5,
    // entry 2
    0, 2, 0, 20,
    // entry 3
    0, 3, 0, 30,
    // entry 4
    1, 0, 3, 1,
    // entry 5
    1, 1, 0, 65535,
];

// The table by name where there is no record, and what is left of it where words are missing.
pub(crate) fn all(rt: HostRuntime) {
    let t = TABLE;
    all_counts(rt, &t);
    all_frames(rt, &t);
    all_signals(rt, &t);
    all_placements(rt, &t);
    all_members(rt, &t);
    all_entries(rt, &t);
    all_schedules(rt, &t);
    all_lists(rt, &t);
}

// Kept: the table as a parameter, here and below, beside the token that whoever prints is handed.
fn all_counts(rt: HostRuntime, t: &[u16]) {
    let _ = println!(rt;
        "counts of frames, signals, members, entries, placements, lists and schedules: the table, its first 3 words, its first 0"
    );
    for n in [t.len(), 3, 0] {
        if let Some(t) = t.get(..n) {
            counts(rt, t);
        }
    }
}

fn counts(rt: HostRuntime, t: &[u16]) {
    let _ = println!(rt;
        "counts: {} {} {} {} {} {} {}",
        frames::count(t),
        signals::count(t),
        members::count(t),
        entries::count(t),
        placements::count(t),
        members::lists(t),
        entries::schedules(t)
    );
}

fn all_frames(rt: HostRuntime, t: &[u16]) {
    let _ = println!(rt; "frames: identifier, length, flags, published, classic");
    for f in [6, 65535] {
        let _ = println!(rt;
            "{f}: {} {} {} {} {}",
            frames::identifier(t, f),
            frames::length(t, f),
            frames::flags(t, f),
            u8::from(frames::published(t, f)),
            u8::from(frames::classic(t, f))
        );
    }
}

fn all_signals(rt: HostRuntime, t: &[u16]) {
    let _ = println!(rt; "signals: kind, width, start, bytes of an array");
    for s in [6, 65535] {
        let _ = print!(rt;
            "{s}: {} {} {}",
            signals::kind(t, s),
            signals::width(t, s),
            signals::start(t, s)
        );
        let _ = if signals::is_array(t, s) {
            println!(rt; " {}", signals::array_length(t, s))
        } else {
            println!(rt; " -")
        };
    }
}

fn all_placements(rt: HostRuntime, t: &[u16]) {
    let _ = println!(rt;
        "placements: signal, frame, offset, place in the buffer; the first placement of the signal of that number"
    );
    for p in [6, 65535] {
        let _ = println!(rt;
            "{p}: {} {} {} {} {}",
            placements::signal(t, p),
            placements::frame(t, p),
            placements::offset(t, p),
            placements::place(t, p),
            placements::first(t, p)
        );
    }
}

fn all_members(rt: HostRuntime, t: &[u16]) {
    let _ = println!(rt; "members: list, frame");
    for m in [4, 65535] {
        let _ = println!(rt; "{m}: {} {}", members::list(t, m), members::frame(t, m));
    }
}

fn all_entries(rt: HostRuntime, t: &[u16]) {
    let _ = println!(rt; "entries: schedule, kind, target, delay, the next entry");
    for e in [6, 65535] {
        let _ = println!(rt;
            "{e}: {} {} {} {} {}",
            entries::schedule(t, e),
            entries::kind(t, e),
            entries::target(t, e),
            entries::delay(t, e),
            entries::next(t, e)
        );
    }
}

fn all_schedules(rt: HostRuntime, t: &[u16]) {
    let _ = println!(rt; "the first entry of a schedule that is not there");
    for n in [2, 65535] {
        let _ = println!(rt; "{n}: {}", entries::first(t, n));
    }
}

fn all_lists(rt: HostRuntime, t: &[u16]) {
    let _ = println!(rt; "the next member of a list that is not there, from members 0 to 4 on");
    for l in [2, 65535] {
        list(rt, t, l);
    }
}

fn list(rt: HostRuntime, t: &[u16], l: u16) {
    let _ = print!(rt; "{l}:");
    for m in 0..5 {
        let _ = print!(rt; " {}", members::next(t, l, m));
    }
    let _ = println!(rt;);
}
