// A row of values: they are written as one by one in row order, or none of them.
ghost use Rattle.std.specs.Prelude.{◌≡◌};
ghost use Rattle.master.specs.Admit.{Leaves};
ghost use Rattle.master.specs.Answers.{handed, write_told};
ghost use Rattle.master.specs.Parts.{Judged};
ghost use Rattle.master.specs.Put.{puts};
ghost use Rattle.master.specs.Run.{held};
ghost use Rattle.master.specs.Told.{row_told};
ghost use Rattle.master.specs.WriteRow.{first_bad, row_verdict, marked_bits, rewritten_by, with_row, marked_row as markedRowOf, row_of};

use crate::admit::refused;
use crate::placed;
use crate::state::{State, Transfer};
use crate::write::writable;
use cluster::right::Right;
use cluster::{Limits, values as values_of};
use refusal::Refusal;

// The signals of a row, and the value of each.
#[derive(Clone, Copy)]
struct Row<'a> {
    signals: &'a [u16],
    values: &'a [u32],
}

impl State {
    // Writes a row of scalars, each to its signal, and marks their frames as written.
    pub fn write_row(
        &mut self,
        t: &[u16],
        bytes: &mut [u8],
        signals: &[u16],
        values: &[u32],
    ) -> Result<(), Refusal>
        ensures leaves { Leaves (row_of t.now self.old bytes.old signals.now values.now) (handed self.new result) bytes.new }
        ensures told { write_told result ≡ row_told t.now (held self.old bytes.old) signals.now values.now }
    {
        let row = Row { signals, values };
        let t = self.judge_row(t, bytes.len(), row)?;
        row.put(t, bytes);
        *self = self.marked_row(t, signals);
        Ok(())
    }

    // Judges a row, and hands the right table on.
    #[tactic(auto, using(crate::proofs::Judging::refused_before), unfolding(crate::specs::WriteRow::row_verdict))]
    fn judge_row<'a>(self, t: &'a [u16], size: usize, row: Row) -> Result<Right<'a>, Refusal>
        ensures { Judged t.now (row_verdict t.now size self row.entry.signals.now row.entry.values.now) result }
    {
        let right = self.right_table(t, size)?;
        if row.signals.len() != row.values.len() {
            return refused(Refusal::ROWS);
        }
        row.first_bad(right)?;
        Ok(right)
    }

    // The frames of a row's signals are pending, and an open transfer of one of them was written since.
    #[tactic(auto, unfolding(crate::specs::WriteRow::marked_row))]
    fn marked_row(self, t: Right, signals: &[u16]) -> State
        ensures { result ≡ markedRowOf t.entry.words.now signals.now self }
    {
        let mut pending = self.pending;
        mark_row(t, signals, &mut pending);
        self.with_pending(pending)
            .with_transfer(self.transfer.rewritten_by(t, signals))
    }
}

impl Transfer {
    // Written since its opening, where a signal of a row touches its frame.
    fn rewritten_by(self, t: Right, signals: &[u16]) -> Transfer
        ensures { result ≡ rewritten_by t.entry.words.now signals.now self }
    {
        let mut next = self;
        for &s in signals {
            next = next.rewritten(t, s);
        }
        next
    }
}

impl<'a> Row<'a> {
    // Refusals 4 to 7 of a row: that of the first bad pair, with its place.
    fn first_bad(self, t: Right) -> Result<(), Refusal>
        ensures { result ≡ first_bad t.entry.words.now 0 (puts self.entry.signals.now self.entry.values.now) }
    {
        for (i, (&s, &v)) in self.signals.iter().zip(self.values).enumerate() {
            let fits = values_of::scalar_fits(t.words, s, v);
            if let Err(refusal) = writable(t, s, false, fits) {
                return Err(Refusal::at(refusal.number, i));
            }
        }
        Ok(())
    }

    // Puts the values of a row into their signals.
    fn put(self, t: Right, bytes: &mut [u8])
        requires { first_bad t.words.now 0 (puts self.signals.now self.values.now) ≡ Ok tt }
        ensures { bytes.new ≡ with_row t.entry.words.now bytes.old (puts self.entry.signals.now self.entry.values.now) }
    {
        for (&s, &v) in self.signals.iter().zip(self.values) {
            placed::put_scalar(t, bytes, s, v as u16);
        }
    }
}

// Marks the frames that a row's signals touch.
fn mark_row(t: Right, signals: &[u16], pending: &mut [bool; Limits::FRAMES])
    ensures { pending.new ≡ marked_bits t.entry.words.now signals.now pending.old }
{
    for &s in signals {
        placed::mark(t, s, pending);
    }
}
