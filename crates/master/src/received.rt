// The receptions: whether they fit, what a successful one sets, and where a read takes its value.
ghost use Rattle.std.specs.Prelude.{◌≡◌, Some};
ghost use Rattle.cluster.specs.Table.{placement_count};
ghost use Rattle.master.specs.Received.{last_of, received_up_to, received_by, last_fits, received_fits, source_of};

use crate::placed;
use crate::state::{Opened, Reception, State};
use cluster::right::Right;
use cluster::{Limits, frames, placements, signals};

// Whether each reception is of a placement that can be received.
pub(crate) fn received_fits(t: &[u16], received: [Reception; Limits::SIGNALS]) -> bool
    ensures { result ≡ received_fits t.now 0 received }
{
    received
        .iter()
        .enumerate()
        .all(|(s, reception)| reception.fits(t, s as u16))
}

impl Reception {
    // Whether a reception may be one of a signal: never, or of one of its placements, in a frame that is not published.
    fn fits(self, t: &[u16], s: u16) -> bool
        ensures { result ≡ last_fits t.now s self.last }
    {
        match self.last {
            None => true,
            Some(k) => placed(t, s, k),
        }
    }
}

// Whether a placement is there, one of a signal of the table, and in a frame that is not published.
#[tactic(auto, unfolding(crate::specs::Received::last_fits))]
fn placed(t: &[u16], s: u16, k: u16) -> bool
    ensures { result ≡ last_fits t.now s (Some k) }
{
    s < signals::count(t)
        && k < placements::count(t)
        && placements::signal(t, k) == s
        && !frames::published(t, placements::frame(t, k))
}

impl Opened {
    // The receptions after a success: each placement in a received frame is the one received last of its signal.
    #[tactic(auto, unfolding(crate::specs::Received::received_by))]
    pub(crate) fn received_by(
        self,
        t: Right,
        received: [Reception; Limits::SIGNALS],
    ) -> [Reception; Limits::SIGNALS]
        ensures { result ≡ received_by t.entry.words.now self received }
    {
        match self {
            Opened::Frame(f) => received_in(t, f, received),
            _ => received,
        }
    }
}

// The receptions after a success of a frame.
fn received_in(
    t: Right,
    f: u16,
    received: [Reception; Limits::SIGNALS],
) -> [Reception; Limits::SIGNALS]
    ensures { result ≡ received_up_to t.entry.words.now f (placement_count t.entry.words.now) received }
{
    let n = placements::count(t.words);
    let mut next = received;
    for k in 0..n {
        if placements::frame(t.words, k) == f {
            let s = placements::signal(t.words, k) as usize;
            next[s] = Reception { last: Some(k) };
        }
    }
    next
}

impl State {
    // Where a read of a signal takes its value: of a published one the first placement, of a received one that received last.
    #[tactic(auto, unfolding(crate::specs::Received::source_of))]
    pub(crate) fn source(self, t: Right, s: u16) -> Option<u16>
        ensures { result ≡ source_of t.entry.words.now self.received s }
    {
        if placed::published(t, s) {
            return Some(placed::first(t, s));
        }
        last_of(self.received, s)
    }
}

// What is kept of a signal.
fn last_of(received: [Reception; Limits::SIGNALS], s: u16) -> Option<u16>
    ensures { result ≡ last_of received s }
{
    received.get(s as usize)?.last
}
