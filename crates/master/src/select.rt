// The select call.
ghost use Rattle.std.specs.Prelude.{◌≡◌, []};
ghost use Rattle.master.specs.Select.{select_verdict, select_of};
ghost use Rattle.master.specs.Answers.{handed, select_told};
ghost use Rattle.master.specs.Calls as call;
ghost use Rattle.master.specs.Run.{held};
ghost use Rattle.master.specs.Told.{call_told};

use crate::admit::{buffer_size, refused};
use crate::state::State;
use cluster::entries;
use refusal::Refusal;

impl State {
    // Asks for a schedule, which begins at the next slot start.
    pub fn select(&mut self, t: &[u16], n: u16) -> Result<(), Refusal>
        ensures value { handed self.new result ≡ select_of t.now self.old n }
        ensures told { select_told result ≡ call_told t.now (held self.old []) (call.select n) }
    {
        self.judge_select(t, n)?;
        self.plan = self.plan.asking(n);
        Ok(())
    }

    // The verdict on a select.
    #[tactic(auto, using(refusal::proofs::PassedOn::passed_on), unfolding(crate::specs::Select::select_verdict))]
    fn judge_select(self, t: &[u16], n: u16) -> Result<(), Refusal>
        ensures { result ≡ select_verdict t.now self n }
    {
        self.admit(t, buffer_size(t))?;
        if entries::schedules(t) <= n as usize {
            return refused(Refusal::UNKNOWN);
        }
        Ok(())
    }
}
