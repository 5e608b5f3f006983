// A table that the check accepts.
ghost use Rattle.std.specs.Prelude.{◌≡◌, Ok, Err, IfOk, OnOk, IfErr};
ghost use Rattle.cluster.specs.Check.{RightTable, taken_of};
ghost use Rattle.cluster.specs.Records.{EntryRecords, PlacementRecords};

use crate::entries;
use crate::table::{entry_at, member_at, placement_at};
use refusal::Refusal;

// A lent table that the check accepts, for the calls that ask the check once.
#[derive(Clone, Copy)]
pub struct Right<'a> {
    pub words: &'a [u16],
    pub ghost right: { RightTable words.now },
}

impl<'a> Right<'a> {
    // Takes a table, or tells the fault that the check finds.
    pub fn taken(t: &'a [u16]) -> Result<Right<'a>, Refusal>
        ensures words { IfOk result (λ r. r.words.now ≡ t.now) }
        ensures right { OnOk result (taken_of t.now ≡ Ok tt) }
        ensures refused { IfErr result (λ e. taken_of t.now ≡ Err e) }
    {
        crate::taken(t)?;
        Ok(Right { words: t })
    }

    // The records of its placements, in order: signal, frame, offset.
    pub fn placements(self) -> &'a [[u16; 3]]
        ensures { PlacementRecords self.entry.words.now result.now }
    {
        let from = placement_at(self.words, 0);
        let end = member_at(self.words, 0);
        self.words[from..end].as_chunks().0
    }

    // The records of its entries, in order: schedule, kind, target, delay.
    pub fn entries(self) -> &'a [[u16; 4]]
        ensures { EntryRecords self.entry.words.now result.now }
    {
        let from = entry_at(self.words, 0);
        let end = entry_at(self.words, entries::count(self.words));
        self.words[from..end].as_chunks().0
    }
}
