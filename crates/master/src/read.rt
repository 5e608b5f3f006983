// The reads: of a scalar, of an array, and of status.
ghost use Rattle.std.specs.Prelude.{◌≡◌, []};
ghost use Rattle.master.specs.Parts.{Judged};
ghost use Rattle.master.specs.Read.{read_verdict, read_scalar_of, read_array_of};
ghost use Rattle.master.specs.Status.{status_of};
ghost use Rattle.master.specs.Answers.{handed, read_told, array_told, status_told};
ghost use Rattle.master.specs.Calls as call;
ghost use Rattle.master.specs.Run.{held};
ghost use Rattle.master.specs.Told.{call_told};

use crate::admit::{buffer_size, refused};
use crate::state::{State, Status};
use cluster::right::Right;
use cluster::values::Array;
use cluster::{signals, values};
use refusal::Refusal;

impl State {
    // Reads a scalar.
    pub fn read(self, t: &[u16], bytes: &[u8], s: u16) -> Result<u16, Refusal>
        ensures value { result ≡ read_scalar_of t.now self bytes.now s }
        ensures told { read_told result ≡ call_told t.now (held self bytes.now) (call.read s) }
    {
        let t = self.judge_read(t, bytes.len(), s, false)?;
        match self.source(t, s) {
            None => Ok(signals::start(t.words, s)),
            Some(k) => Ok(values::scalar_at(t.words, bytes, s, k)),
        }
    }

    // Reads an array; the bytes that it does not use are 255.
    pub fn read_array(self, t: &[u16], bytes: &[u8], s: u16) -> Result<Array, Refusal>
        ensures value { result ≡ read_array_of t.now self bytes.now s }
        ensures told { array_told result ≡ call_told t.now (held self bytes.now) (call.read_array s) }
    {
        let t = self.judge_read(t, bytes.len(), s, true)?;
        match self.source(t, s) {
            None => Ok(values::start_array(t.words, s)),
            Some(k) => Ok(values::array_at(t.words, bytes, s, k)),
        }
    }

    // Judges a read, and hands the right table on.
    #[tactic(auto, using(crate::proofs::Judging::refused_before), unfolding(crate::specs::Read::read_verdict))]
    fn judge_read(self, t: &[u16], size: usize, s: u16, array: bool) -> Result<Right, Refusal>
        ensures { Judged t.now (read_verdict t.now size self s array) result }
    {
        let right = self.right_table(t, size)?;
        if signals::count(t) <= s {
            return refused(Refusal::UNKNOWN);
        }
        if signals::is_array(t, s) != array {
            return refused(Refusal::KIND);
        }
        Ok(right)
    }

    // Reads the status and sets it to 0.
    pub fn read_status(&mut self, t: &[u16]) -> Result<u16, Refusal>
        ensures value { handed self.new result ≡ status_of t.now self.old }
        ensures told { status_told result ≡ call_told t.now (held self.old []) call.read_status }
    {
        self.admit(t, buffer_size(t))?;
        let word = self.status.word();
        self.status = Status::none();
        Ok(word)
    }
}
