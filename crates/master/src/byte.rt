// The byte in.
ghost use Rattle.std.specs.Prelude.{◌≡◌, length, take, Ok};
ghost use Rattle.master.specs.Admit.{buffer_size, Leaves};
ghost use Rattle.master.specs.Byte.{passed as passedOf, sent_byte, last_byte, with_byte};
ghost use Rattle.master.specs.Byte.{received_byte, byte_verdict, byte_of};
ghost use Rattle.master.specs.declared.byte.ByteAnswer.TheVariants.{Response};
ghost use Rattle.master.specs.Answers.{handed, byte_told};
ghost use Rattle.master.specs.Calls as call;
ghost use Rattle.master.specs.Parts.{Judged};
ghost use Rattle.master.specs.Run.{held};
ghost use Rattle.master.specs.Told.{call_told};

use crate::admit::refused;
use crate::closing::InTransfer;
use crate::state::{Opened, State, Transfer};
use crate::transfer::store;
use cluster::right::Right;
use refusal::Refusal;

// What a byte in answers; a successful response has its eight bytes.
#[derive(Clone, Copy)]
pub enum ByteAnswer {
    More,
    Success,
    Failure,
    Response([u8; 8]),
}

impl State {
    // One byte of the open transfer. The state is handed back, as it was where the byte is refused.
    pub fn byte_in(self, t: &[u16], bytes: &mut [u8], b: u8) -> (State, Result<ByteAnswer, Refusal>)
        ensures leaves { Leaves (byte_of t.now self bytes.old b) (handed result.0 result.1) bytes.new }
        ensures told { byte_told result.1 ≡ call_told t.now (held self bytes.old) (call.byte_in b) }
    {
        let t = match self.judge_byte(t, bytes.len()) {
            Ok(right) => right,
            Err(refusal) => return (self, Err(refusal)),
        };
        let open = InTransfer { t, state: self };
        let (next, answer) = if self.transfer.opened.sends(t.words) {
            open.sent_byte(b)
        } else {
            open.received_byte(bytes, b)
        };
        (next, Ok(answer))
    }

    // Judges a byte in, and hands the right table on.
    #[tactic(auto, using(crate::proofs::Judging::refused_before), unfolding(crate::specs::Byte::byte_verdict))]
    fn judge_byte(self, t: &[u16], size: usize) -> Result<Right, Refusal>
        ensures { Judged t.now (byte_verdict t.now size self) result }
    {
        let right = self.right_table(t, size)?;
        if !self.transfer.opened.is_open() {
            return refused(Refusal::NO_TRANSFER);
        }
        Ok(right)
    }
}

impl<'a> InTransfer<'a> {
    // A byte of a transfer that the master sends: it must equal the copied one.
    fn sent_byte(self, b: u8) -> (State, ByteAnswer)
        ensures { handed result.0 (Ok result.1) ≡ sent_byte self.entry.t.words.now self.entry.state b }
    {
        let transfer = self.state.transfer;
        if transfer.bytes[transfer.count as usize] != b {
            return (self.failed(true), ByteAnswer::Failure);
        }
        if transfer.early(self.t.words) {
            return (self.passed(transfer.bytes), ByteAnswer::More);
        }
        (self.sent(), ByteAnswer::Success)
    }

    // A byte of a transfer that the master receives: it is kept, and the last one is judged.
    fn received_byte(self, bytes: &mut [u8], b: u8) -> (State, ByteAnswer)
        requires { length bytes.old ≡ buffer_size self.t.words.now }
        ensures { Leaves (received_byte self.entry.t.words.now self.entry.state bytes.old b) (handed result.0 (Ok result.1)) bytes.new }
    {
        let nine = self.with_byte(b);
        if self.state.transfer.early(self.t.words) {
            return (self.passed(nine), ByteAnswer::More);
        }
        self.last_byte(bytes, nine)
    }

    // The last byte of a received transfer: a right checksum stores the data, a wrong one fails.
    fn last_byte(self, bytes: &mut [u8], nine: [u8; 9]) -> (State, ByteAnswer)
        requires { length bytes.old ≡ buffer_size self.t.words.now }
        ensures { Leaves (last_byte self.entry.t.words.now self.entry.state nine bytes.old) (handed result.0 (Ok result.1)) bytes.new }
    {
        let opened = self.state.transfer.opened;
        if !self.known().checksum_right(nine) {
            return (self.failed(true), ByteAnswer::Failure);
        }
        let next = self.received();
        match opened {
            Opened::Frame(f) => {
                store(bytes, f, opened.length(self.t.words), nine);
                (next, ByteAnswer::Success)
            }
            Opened::Response => (next, responding(nine)),
            _ => (next, ByteAnswer::Success),
        }
    }

    // The nine bytes with one more.
    fn with_byte(self, b: u8) -> [u8; 9]
        ensures { result ≡ with_byte self.entry.state.transfer b }
    {
        let mut nine = self.state.transfer.bytes;
        nine[self.state.transfer.count as usize] = b;
        nine
    }

    // One more byte has passed.
    #[tactic(auto, unfolding(crate::specs::Byte::passed))]
    fn passed(self, nine: [u8; 9]) -> State
        ensures { result ≡ passedOf self.entry.state nine }
    {
        let transfer = self.state.transfer;
        self.state.with_transfer(Transfer {
            count: transfer.count + 1,
            bytes: nine,
            ..transfer
        })
    }
}

// The answer of a successful response.
fn responding(nine: [u8; 9]) -> ByteAnswer
    ensures { result ≡ Response (take 8 nine) }
{
    let mut response = [255; 8];
    response.copy_from_slice(&nine[..8]);
    ByteAnswer::Response(response)
}
