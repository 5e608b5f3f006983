// Tests 1, 2 and 3, which stand at the head of the calls.
ghost use Rattle.std.specs.Prelude.{◌≡◌, Err};
ghost use Rattle.master.specs.Admit.{buffer_size, admitted};
ghost use Rattle.refusal.specs.Numbers.{refused as refused_with};
ghost use Rattle.master.specs.Fits.{base_fits, state_fits};
ghost use Rattle.master.specs.Parts.{Judged};
ghost use Rattle.cluster.specs.Answers.{verdict_told};
ghost use Rattle.master.specs.Told.{admit_told};

use crate::pending::pending_fits;
use crate::received::received_fits;
use crate::state::State;
use cluster::frames;
use cluster::right::Right;
use refusal::Refusal;

impl State {
    // Judges the table, the number of frame bytes, and the state; a call that is lent no frame bytes asks with the right number.
    pub fn admit(self, t: &[u16], size: usize) -> Result<(), Refusal>
        ensures value { result ≡ admitted t.now size self }
        ensures told { verdict_told result ≡ admit_told t.now size self }
    {
        self.right_table(t, size)?;
        Ok(())
    }

    // The same, and the right table is handed on.
    pub(crate) fn right_table(self, t: &[u16], size: usize) -> Result<Right, Refusal>
        ensures { Judged t.now (admitted t.now size self) result }
    {
        let right = Right::taken(t)?;
        if size != buffer_size(t) {
            return refused(Refusal::BUFFER);
        }
        if !self.fits(t) {
            return refused(Refusal::STATE);
        }
        Ok(right)
    }

    // Whether the state fits the table.
    #[tactic(auto, unfolding(crate::specs::Fits::state_fits))]
    pub fn fits(self, t: &[u16]) -> bool
        ensures { result ≡ state_fits t.now self }
    {
        self.base_fits(t) && received_fits(t, self.received)
    }

    // Whether all but the receptions fits.
    fn base_fits(self, t: &[u16]) -> bool
        ensures { result ≡ base_fits t.now self }
    {
        self.plan.is_there(t)
            && self.transfer.opened.is_there(t)
            && self.plan.wait_fits(t)
            && pending_fits(t, self.pending)
            && self.plan.can_open(t, self.message, self.transfer.opened)
            && self.transfer.count_fits(t)
            && self.message.fits()
    }
}

// The frame bytes that a table has.
#[tactic(auto, unfolding(crate::specs::Admit::buffer_size))]
pub fn buffer_size(t: &[u16]) -> usize
    ensures { result ≡ buffer_size t.now }
{
    8 * (frames::count(t) as usize)
}

// A refusal with a number.
pub(crate) fn refused<T>(number: u8) -> Result<T, Refusal>
    ensures { result ≡ Err (refused_with number) }
{
    Err(Refusal::of(number))
}
