// The frames of the table: their number, their fields, and the check of their records.
ghost use Rattle.std.specs.Prelude.{◌≡◌, ◌+◌, ◌*◌, ◌<◌, ◌≤◌, length};
ghost use Rattle.cluster.specs.Check.{frame_faults};
ghost use Rattle.cluster.specs.Passed.{FramesPassed};
ghost use Rattle.cluster.specs.Right.{frame_right};
ghost use Rattle.cluster.specs.Table.{frame_at, frame_count, identifier as identifierOf, frame_length, flags as flags_of};
ghost use Rattle.cluster.specs.Table.{published as publishedOf, classic as classicOf, frame_model};

use crate::section::{self, Section};
use crate::table::{Counted, Layout, frame_at, record, word};
use crate::{Limits, fault};
use refusal::Refusal;
use wire::checksum::Model;

// How many frames there are.
#[tactic(auto, unfolding(crate::specs::Table::frame_count))]
pub fn count(t: &[u16]) -> u16
    ensures { result ≡ frame_count t.now }
{
    word(t, 0)
}

// The identifier of a frame.
#[tactic(auto, unfolding(crate::specs::Table::identifier))]
pub fn identifier(t: &[u16], f: u16) -> u16
    ensures { result ≡ identifierOf t.now f }
{
    word(t, frame_at(f))
}

// The length of a frame in bytes.
#[tactic(auto, unfolding(crate::specs::Table::frame_length))]
pub fn length(t: &[u16], f: u16) -> u16
    ensures { result ≡ frame_length t.now f }
{
    word(t, frame_at(f) + 1)
}

// The flags of a frame.
#[tactic(auto, unfolding(crate::specs::Table::flags))]
pub fn flags(t: &[u16], f: u16) -> u16
    ensures { result ≡ flags_of t.now f }
{
    word(t, frame_at(f) + 2)
}

// Whether the master publishes a frame.
#[tactic(auto, unfolding(crate::specs::Table::published, wire::specs::Bits::bit))]
pub fn published(t: &[u16], f: u16) -> bool
    ensures { result ≡ publishedOf t.now f }
{
    flags(t, f) % 2 == 1
}

// Whether a frame has the classic checksum.
#[tactic(auto, unfolding(crate::specs::Table::classic, wire::specs::Bits::bit))]
pub fn classic(t: &[u16], f: u16) -> bool
    ensures { result ≡ classicOf t.now f }
{
    flags(t, f) / 2 % 2 == 1
}

// Which checksum a frame has.
pub fn model(t: &[u16], f: u16) -> Model
    ensures { result ≡ frame_model t.now f }
{
    if classic(t, f) {
        Model::Classic
    } else {
        Model::Enhanced
    }
}

// What a frame says to the records that name it: how many bits it has, and whether the master publishes it.
#[derive(Clone, Copy)]
pub(crate) struct Room {
    pub(crate) bits: usize,
    pub(crate) published: bool,
}

// Reads that of a frame that is there.
pub(crate) fn room_of(t: &[u16], f: usize) -> Room
    requires { frame_at f + 2 < length t.now }
    ensures { (result.bits ≡ 8 * frame_length t.now f) × (result.published ≡ publishedOf t.now f) }
{
    let at = Layout::HEADER + Layout::FRAME * f;
    Room {
        bits: 8 * (t[at + 1] as usize),
        published: t[at + 2] % 2 == 1,
    }
}

// Checks the frames' records.
pub(crate) fn judge(table: Counted<'_>) -> Result<(), Refusal>
    ensures { result ≡ frame_faults table.entry.words.now }
{
    let t = table.words;
    let n = count(t) as usize;
    let mut passed = Passed {
        whole: Layout::HEADER + Layout::FRAME * n <= t.len(),
        used: [false; Limits::IDENTIFIERS],
    };
    section::judge(t, n, &mut passed)
}

// The frames that passed the check: the identifiers that they have are marked; and whether all frames are there in whole.
#[derive(Clone, Copy)]
struct Passed {
    whole: bool,
    used: [bool; Limits::IDENTIFIERS],
}

impl Section for Passed {
    ghost count = { frame_count };

    ghost at = { λ t f. frame_at f };

    ghost right = { frame_right };

    ghost known = { FramesPassed };

    fn pass(&mut self, t: &[u16], f: usize) -> Result<(), Refusal> {
        let at = Layout::HEADER + Layout::FRAME * f;
        let [id, bytes, flags] = record::<{ Layout::FRAME }>(t, at, self.whole);
        if Limits::IDENTIFIERS <= id || self.used[id] {
            return fault(at);
        }
        if bytes < 1 || 8 < bytes {
            return fault(at + 1);
        }
        if 3 < flags {
            return fault(at + 2);
        }
        self.used[id] = true;
        Ok(())
    }
}
