// The list members of the table: their number, their fields, the lists, and the check of their records.
ghost use Rattle.std.specs.Prelude.{◌≡◌, ◌+◌, ◌<◌, ◌≤◌, length};
ghost use Rattle.cluster.specs.Check.{member_faults};
ghost use Rattle.cluster.specs.Lists.{members, next_member, is_one_of, member_of};
ghost use Rattle.cluster.specs.Passed.{MembersPassed};
ghost use Rattle.cluster.specs.Right.{member_right};
ghost use Rattle.cluster.specs.Table.{member_at, member_count};
ghost use Rattle.cluster.specs.Table.{member_list, member_frame, list_count};

use crate::section::{self, Section};
use crate::table::{Described, Layout, follows, member_at, record, word};
use crate::{Limits, fault, frames};
use refusal::Refusal;

// How many members there are, in all lists together.
#[tactic(auto, unfolding(crate::specs::Table::member_count))]
pub fn count(t: &[u16]) -> u16
    ensures { result ≡ member_count t.now }
{
    word(t, 2)
}

// The list number of a member.
#[tactic(auto, unfolding(crate::specs::Table::member_list))]
pub fn list(t: &[u16], m: u16) -> u16
    ensures { result ≡ member_list t.now m }
{
    word(t, member_at(t, m))
}

// The frame number of a member.
#[tactic(auto, unfolding(crate::specs::Table::member_frame))]
pub fn frame(t: &[u16], m: u16) -> u16
    ensures { result ≡ member_frame t.now m }
{
    word(t, member_at(t, m) + 1)
}

// How many lists there are.
pub fn lists(t: &[u16]) -> usize
    ensures value { result ≡ list_count t.now }
    ensures upper_bound { result ≤ 65536 }
{
    count(t)
        .checked_sub(1)
        .map_or(0, |last| list(t, last) as usize + 1)
}

// The first member of a list from member m on. Where there is none: the number of members, or m where that is more.
// Kept: a number where there is none, since its clause `next_member` has it so.
pub fn next(t: &[u16], l: u16, m: u16) -> u16
    ensures { result ≡ next_member t.now l m }
{
    let n = count(t);
    (m..n).find(|&k| list(t, k) == l).unwrap_or(m.max(n))
}

// Whether a frame is in a list.
pub fn has(t: &[u16], l: u16, f: u16) -> bool
    ensures { result ≡ is_one_of f (members t.now l) }
{
    (0..count(t)).any(|m| list(t, m) == l && frame(t, m) == f)
}

// The member that a frame is; the number of members where it is in no list.
// Kept: a number where there is none, since its clause `member_of` has it so.
pub fn of_frame(t: &[u16], f: u16) -> u16
    ensures { result ≡ member_of t.now f }
{
    let n = count(t);
    (0..n).find(|&m| frame(t, m) == f).unwrap_or(n)
}

// Checks the members' records.
pub(crate) fn judge(table: Described<'_>) -> Result<(), Refusal>
    ensures { result ≡ member_faults table.entry.words.now }
{
    let t = table.words;
    let mut passed = Passed {
        first: member_at(t, 0),
        listed: [false; Limits::FRAMES],
        lists: 0,
    };
    section::judge(t, count(t) as usize, &mut passed)
}

// The members that passed the check: where the first one begins, which frames they are, and how many lists they are of.
#[derive(Clone, Copy)]
struct Passed {
    first: usize,
    listed: [bool; Limits::FRAMES],
    lists: usize,
}

impl Section for Passed {
    ghost count = { member_count };

    ghost at = { member_at };

    ghost right = { member_right };

    ghost known = { MembersPassed };

    fn pass(&mut self, t: &[u16], m: usize) -> Result<(), Refusal> {
        let at = self.first + Layout::MEMBER * m;
        let [list, frame] = record::<{ Layout::MEMBER }>(t, at, at + Layout::MEMBER <= t.len());
        if !follows(self.lists, list) {
            return fault(at);
        }
        if frames::count(t) as usize <= frame
            || self.listed[frame]
            || !frames::room_of(t, frame).published
        {
            return fault(at + 1);
        }
        self.listed[frame] = true;
        self.lists = list + 1;
        Ok(())
    }
}
