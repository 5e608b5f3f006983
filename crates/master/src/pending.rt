// The pending bits: whether they fit, what a success clears, and the pending members of a list.
ghost use Rattle.std.specs.Prelude.{true, false, ◌&&◌, ◌≡◌, ◌<◌, ◌≤◌, eqb, get_or};
ghost use Rattle.master.specs.Fits.{bit_fits, pending_fits};
ghost use Rattle.master.specs.Closing.{cleared_bit, pending_sent};
ghost use Rattle.cluster.specs.Table.{most_frames, member_count, member_list, member_frame};
ghost use Rattle.cluster.specs.Lists.{members_from, members as members_of};
ghost use Rattle.master.specs.Ahead.{pending_count};
ghost use Rattle.master.specs.Tick.{first_pending};

use crate::state::Opened;
use crate::transfer::Known;
use cluster::right::Right;
use cluster::{Limits, frames, members};

// Whether every pending bit is that of a published frame.
pub(crate) fn pending_fits(t: &[u16], pending: [bool; Limits::FRAMES]) -> bool
    ensures { result ≡ pending_fits t.now 0 pending }
{
    pending
        .iter()
        .enumerate()
        .all(|(f, &bit)| bit_fits(t, f as u16, bit))
}

// Whether a pending bit may stand at a frame: it is not set, or the frame is there and published.
#[tactic(auto, unfolding(crate::specs::Fits::bit_fits))]
fn bit_fits(t: &[u16], f: u16, bit: bool) -> bool
    ensures { result ≡ bit_fits t.now f bit }
{
    !bit || f < frames::count(t) && frames::published(t, f)
}

impl<'a> Known<'a> {
    // The pending bits after a success: a frame that was not written since is no longer pending.
    #[tactic(auto, unfolding(crate::specs::Closing::pending_sent))]
    pub(crate) fn sent_pending(
        self,
        written: bool,
        pending: [bool; Limits::FRAMES],
    ) -> [bool; Limits::FRAMES]
        ensures { result ≡ pending_sent self.entry.opened written pending }
    {
        match self.opened {
            Opened::Frame(f) => cleared(f, written, pending),
            _ => pending,
        }
    }
}

// The pending bits without that of a frame, unless it was written since.
#[tactic(auto, unfolding(crate::specs::Closing::cleared_bit))]
fn cleared(f: u16, written: bool, pending: [bool; Limits::FRAMES]) -> [bool; Limits::FRAMES]
    requires { f < most_frames }
    ensures { result ≡ cleared_bit f written pending }
{
    if written {
        return pending;
    }
    let mut next = pending;
    next[f as usize] = false;
    next
}

// A list of a right table, beside the pending bits.
#[derive(Clone, Copy)]
pub(crate) struct PendingList<'a> {
    pub(crate) t: Right<'a>,
    pub(crate) pending: [bool; Limits::FRAMES],
    pub(crate) list: u16,
}

impl<'a> PendingList<'a> {
    // Its first pending member.
    pub(crate) fn first(self) -> Opened
        ensures { result ≡ first_pending self.entry.pending (members_of self.entry.t.words.now self.entry.list) }
    {
        let n = members::count(self.t.words);
        match (0..n).find(|&m| self.has_pending(m)) {
            Some(m) => Opened::Frame(members::frame(self.t.words, m)),
            None => Opened::Nothing,
        }
    }

    // How many of its frames are pending, of those that the first members of the table name.
    pub(crate) fn count(self, end: u16) -> u16
        requires { end ≤ member_count self.t.words.now }
        ensures { result ≡ pending_count self.entry.pending (members_from self.entry.t.words.now self.entry.list 0 end) }
    {
        (0..end).filter(|&m| self.has_pending(m)).count() as u16
    }

    // Whether a member is of the list and its frame is pending.
    fn has_pending(self, m: u16) -> bool
        requires { m < member_count self.t.words.now }
        ensures { result ≡ (eqb (member_list self.entry.t.words.now m) self.entry.list
            && get_or self.entry.pending (member_frame self.entry.t.words.now m) false) }
    {
        let frame = members::frame(self.t.words, m);
        members::list(self.t.words, m) == self.list && self.pending[frame as usize]
    }
}
