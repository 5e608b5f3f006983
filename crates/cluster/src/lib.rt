// The cluster table of documents 01 and 02, a lent slice of 16-bit words: the check, the fields by name, and the bytes a fresh call
// leaves. Every call accepts every slice and every number. The crates above use these names and never the layout.
#![tactic(auto)]

use crate::table::{Counted, Described};
use refusal::Refusal;

pub mod entries;
pub mod frames;
pub mod fresh;
mod marks;
pub mod members;
pub mod placements;
pub mod right;
mod section;
pub mod signals;
mod table;
pub mod values;

ghost use Rattle.std.specs.Prelude.{◌≡◌};
ghost use Rattle.cluster.specs.Check.{fault as faultAt, judged, taken_of};
ghost use Rattle.cluster.specs.Answers.{verdict_told, check_told};

// The most that a table has of each, and how many identifiers there are for frames.
#[derive(Clone, Copy)]
pub struct Limits;

impl Limits {
    pub const FRAMES: usize = 60;

    pub const SIGNALS: usize = 256;

    pub const MEMBERS: usize = 60;

    pub const ENTRIES: usize = 256;

    pub const PLACEMENTS: usize = 512;

    pub const IDENTIFIERS: usize = 60;
}

// Checks a table, word by word, each word judged once: accepted, or refusal 1 with the position of the first word that is wrong, missing or surplus.
pub fn check(t: &[u16]) -> Result<(), Refusal>
    ensures value { result ≡ judged t.now }
    ensures told { verdict_told result ≡ check_told t.now }
{
    table::judge(t)?;
    let counted = Counted { words: t };
    frames::judge(counted)?;
    signals::judge(counted)?;
    let described = Described { words: t };
    placements::judge(described)?;
    members::judge(described)?;
    entries::judge(counted)?;
    table::surplus(t)
}

// Whether a call takes a table: what it asks before all else.
// Kept: today the check alone; what else a call asks of its table comes here, and not into the check.
#[tactic(auto, unfolding(crate::specs::Check::taken_of))]
pub fn taken(t: &[u16]) -> Result<(), Refusal>
    ensures value { result ≡ taken_of t.now }
    ensures told { verdict_told result ≡ check_told t.now }
{
    check(t)
}

// Refusal 1 with a position.
pub(crate) fn fault(at: usize) -> Result<(), Refusal>
    ensures { result ≡ faultAt at }
{
    Err(Refusal::at(Refusal::TABLE, at))
}
