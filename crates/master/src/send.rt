// The calls that begin a message and tell of it.
ghost use Rattle.std.specs.Prelude.{◌≡◌, []};
ghost use Rattle.master.specs.Message.{send_verdict, send_of, message_of};
ghost use Rattle.master.specs.Answers.{handed, send_told, message_told};
ghost use Rattle.master.specs.Calls as call;
ghost use Rattle.master.specs.Run.{held};
ghost use Rattle.master.specs.Told.{call_told};

use crate::admit::{buffer_size, refused};
use crate::state::{Message, Sending, State};
use refusal::Refusal;
use transport::reassembly::Assembly;

// What the message state is.
#[derive(Clone, Copy)]
pub enum MessageAnswer {
    None,
    Sending,
    Completed,
    Failed,
}

impl State {
    // Begins to send a message of a length to a NAD; its bytes are lent to the ticks.
    pub fn send(&mut self, t: &[u16], nad: u8, size: u32) -> Result<(), Refusal>
        ensures value { handed self.new result ≡ send_of t.now self.old nad size }
        ensures told { send_told result ≡ call_told t.now (held self.old []) (call.send nad size) }
    {
        self.judge_send(t, size)?;
        self.message = Message::Sending(Sending {
            nad,
            length: size as u16,
            next: 0,
        });
        Ok(())
    }

    // Tells none, sending, completed or failed.
    pub fn message_state(self, t: &[u16]) -> Result<MessageAnswer, Refusal>
        ensures value { result ≡ message_of t.now self }
        ensures told { message_told result ≡ call_told t.now (held self []) call.message_state }
    {
        self.admit(t, buffer_size(t))?;
        Ok(self.message.into())
    }

    // The verdict on a send.
    #[tactic(auto, using(refusal::proofs::PassedOn::passed_on), unfolding(crate::specs::Message::send_verdict))]
    fn judge_send(self, t: &[u16], size: u32) -> Result<(), Refusal>
        ensures { result ≡ send_verdict t.now self size }
    {
        self.admit(t, buffer_size(t))?;
        if size < 1 || (Assembly::LONGEST as u32) < size {
            return refused(Refusal::MESSAGE_LENGTH);
        }
        if self.message.is_sending() {
            return refused(Refusal::SENDING);
        }
        Ok(())
    }
}
