// The two writes.
ghost use Rattle.std.specs.Prelude.{true, false, ◌≡◌};
ghost use Rattle.cluster.specs.Check.{then};
ghost use Rattle.master.specs.Admit.{Leaves, admitted};
ghost use Rattle.master.specs.Parts.{Judged};
ghost use Rattle.master.specs.Write.{writable as writableOf, marked as markedOf, write_of};
ghost use Rattle.master.specs.Put.{scalar, array, put};
ghost use Rattle.master.specs.Answers.{handed, write_told};
ghost use Rattle.master.specs.Calls as call;
ghost use Rattle.master.specs.Run.{held};
ghost use Rattle.master.specs.Told.{call_told};

use crate::admit::refused;
use crate::placed;
use crate::state::State;
use cluster::right::Right;
use cluster::{signals, values};
use refusal::Refusal;

impl State {
    // Writes a scalar and marks its frame as written.
    pub fn write(&mut self, t: &[u16], bytes: &mut [u8], s: u16, v: u32) -> Result<(), Refusal>
        ensures leaves { Leaves (write_of t.now self.old bytes.old (put s (scalar v))) (handed self.new result) bytes.new }
        ensures told { write_told result ≡ call_told t.now (held self.old bytes.old) (call.write (put s (scalar v))) }
    {
        let t = self.judge_write(t, bytes.len(), s, false, values::scalar_fits(t, s, v))?;
        placed::put_scalar(t, bytes, s, v as u16);
        *self = self.marked(t, s);
        Ok(())
    }

    // Writes an array and marks its frame as written.
    pub fn write_array(
        &mut self,
        t: &[u16],
        bytes: &mut [u8],
        s: u16,
        values: &[u8],
    ) -> Result<(), Refusal>
        ensures leaves { Leaves (write_of t.now self.old bytes.old (put s (array values.now))) (handed self.new result) bytes.new }
        ensures told { write_told result ≡ call_told t.now (held self.old bytes.old) (call.write (put s (array values.now))) }
    {
        let t = self.judge_write(t, bytes.len(), s, true, values::array_fits(t, s, values))?;
        placed::put_array(t, bytes, s, values);
        *self = self.marked(t, s);
        Ok(())
    }

    // Judges a write of a scalar or an array, which fits its signal or not, and hands the right table on.
    #[tactic(auto, using(crate::proofs::Judging::refused_before))]
    fn judge_write(
        self,
        t: &[u16],
        size: usize,
        s: u16,
        array: bool,
        fits: bool,
    ) -> Result<Right, Refusal>
        ensures { Judged t.now (then (admitted t.now size self) (writableOf t.now s array fits)) result }
    {
        let right = self.right_table(t, size)?;
        writable(right, s, array, fits)?;
        Ok(right)
    }

    // The frames of a signal are pending, and an open transfer of one of them was written since.
    #[tactic(auto, unfolding(crate::specs::Write::marked))]
    fn marked(self, t: Right, s: u16) -> State
        ensures { result ≡ markedOf t.entry.words.now s self }
    {
        let mut pending = self.pending;
        placed::mark(t, s, &mut pending);
        self.with_pending(pending)
            .with_transfer(self.transfer.rewritten(t, s))
    }
}

// Refusals 4 to 7 of a write.
#[tactic(auto, unfolding(crate::specs::Write::writable))]
pub(crate) fn writable(t: Right, s: u16, array: bool, fits: bool) -> Result<(), Refusal>
    ensures { result ≡ writableOf t.entry.words.now s array fits }
{
    if signals::count(t.words) <= s {
        return refused(Refusal::UNKNOWN);
    }
    if !placed::published(t, s) {
        return refused(Refusal::NOT_PUBLISHED);
    }
    if signals::is_array(t.words, s) != array {
        return refused(Refusal::KIND);
    }
    if !fits {
        return refused(Refusal::VALUE);
    }
    Ok(())
}
