// The number of pending members ahead of a frame in its list.
ghost use Rattle.std.specs.Prelude.{◌≡◌, []};
ghost use Rattle.master.specs.Parts.{Judged};
ghost use Rattle.master.specs.Ahead.{ahead_verdict, ahead_of};
ghost use Rattle.master.specs.Answers.{ahead_told};
ghost use Rattle.master.specs.Calls as call;
ghost use Rattle.master.specs.Run.{held};
ghost use Rattle.master.specs.Told.{call_told};

use crate::admit::{buffer_size, refused};
use crate::pending::PendingList;
use crate::state::State;
use cluster::members;
use cluster::right::Right;
use refusal::Refusal;

impl State {
    // Tells the number of pending members ahead of a frame in its list.
    pub fn number_ahead(self, t: &[u16], f: u16) -> Result<u16, Refusal>
        ensures value { result ≡ ahead_of t.now self f }
        ensures told { ahead_told result ≡ call_told t.now (held self []) (call.number_ahead f) }
    {
        let t = self.judge_ahead(t, f)?;
        let m = members::of_frame(t.words, f);
        let list = members::list(t.words, m);
        let pending = self.pending;
        Ok(PendingList { t, pending, list }.count(m))
    }

    // Judges number ahead, and hands the right table on.
    #[tactic(auto, using(crate::proofs::Judging::refused_before), unfolding(crate::specs::Ahead::ahead_verdict))]
    fn judge_ahead(self, t: &[u16], f: u16) -> Result<Right, Refusal>
        ensures { Judged t.now (ahead_verdict t.now self f) result }
    {
        let right = self.right_table(t, buffer_size(t))?;
        if members::count(t) <= members::of_frame(t, f) {
            return refused(Refusal::UNKNOWN);
        }
        Ok(right)
    }
}
