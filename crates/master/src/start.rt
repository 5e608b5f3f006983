// The fresh call.
ghost use Rattle.std.specs.Prelude.{◌≡◌, length};
ghost use Rattle.master.specs.Admit.{Leaves};
ghost use Rattle.master.specs.Start.{fresh_verdict, fresh_of, started};
ghost use Rattle.master.specs.Answers.{fresh_told};
ghost use Rattle.master.specs.Told.{fresh_call_told};

use crate::admit::{buffer_size, refused};
use crate::state::State;
use cluster::{fresh, taken};
use refusal::Refusal;

impl State {
    // Fills the frame bytes, 255 everywhere and then the start values, and gives the fresh state.
    pub fn start(t: &[u16], bytes: &mut [u8]) -> Result<State, Refusal>
        ensures leaves { Leaves (fresh_of t.now bytes.old) (started result) bytes.new }
        ensures told { fresh_told (started result).answer ≡ fresh_call_told t.now (length bytes.old) }
    {
        judge(t, bytes.len())?;
        fresh::fill(t, bytes);
        Ok(State::fresh())
    }
}

// Judges the table and the number of frame bytes.
#[tactic(auto, using(refusal::proofs::PassedOn::passed_on), unfolding(crate::specs::Start::fresh_verdict))]
fn judge(t: &[u16], size: usize) -> Result<(), Refusal>
    ensures { result ≡ fresh_verdict t.now size }
{
    taken(t)?;
    if size != buffer_size(t) {
        return refused(Refusal::BUFFER);
    }
    Ok(())
}
