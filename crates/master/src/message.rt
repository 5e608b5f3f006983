// The message being sent: from its first frame to completed or failed.
ghost use Rattle.std.specs.Prelude.{true, ◌&&◌, ◌≡◌, ltb};
ghost use Rattle.master.specs.Fits.{message_fits, is_sending, lent_fits};
ghost use Rattle.transport.specs.Cutting.{is_length, message_frames};
ghost use Rattle.master.specs.Message.{moved as movedOn, message_sent, message_failed, sending_at, told as told_of};
ghost use Rattle.master.specs.declared.state.Message.TheVariants as variant;

use crate::send::MessageAnswer;
use crate::state::{Message, Opened, Sending};
use transport::cutting;

// The message state that is told of a message.
impl From<Message> for MessageAnswer {
    ghost from_gives = { λ message answer. answer ≡ told_of message };

    fn from(message: Message) -> MessageAnswer {
        match message {
            Message::None => MessageAnswer::None,
            Message::Sending(_) => MessageAnswer::Sending,
            Message::Completed => MessageAnswer::Completed,
            Message::Failed => MessageAnswer::Failed,
        }
    }
}

impl Message {
    // Whether a message is being sent.
    pub fn is_sending(self) -> bool
        ensures { result ≡ is_sending self }
    {
        matches!(self, Message::Sending(_))
    }

    // After a successful transfer: a request moves on to the next frame, or the message is completed.
    #[tactic(auto, unfolding(crate::specs::Message::moved))]
    pub(crate) fn sent(self, opened: Opened) -> Message
        requires { message_fits self ≡ true }
        ensures { result ≡ message_sent opened self }
    {
        match (opened, self) {
            (Opened::Request, Message::Sending(sending)) => sending.moved(),
            _ => self,
        }
    }

    // After a failed transfer: a request ends the message as failed.
    pub(crate) fn failed(self, opened: Opened) -> Message
        ensures { result ≡ message_failed opened self }
    {
        match opened {
            Opened::Request => Message::Failed,
            _ => self,
        }
    }

    // Whether a message being sent has a length, and a frame left to send.
    #[tactic(auto, unfolding(crate::specs::Fits::message_fits))]
    pub(crate) fn fits(self) -> bool
        ensures { result ≡ message_fits self }
    {
        match self {
            Message::Sending(sending) => sending.fits(),
            _ => true,
        }
    }

    // Whether a lent message has the length of the one being sent.
    pub fn lent_fits(self, size: usize) -> bool
        ensures { result ≡ lent_fits self size }
    {
        match self {
            Message::Sending(sending) => size == sending.length as usize,
            _ => true,
        }
    }
}

impl Sending {
    // One frame further, or completed.
    fn moved(self) -> Message
        requires { message_fits (variant.Sending self) ≡ true }
        ensures { result ≡ movedOn (variant.Sending self) }
    {
        let next = self.next + 1;
        match cutting::count(self.length as usize) {
            Ok(frames) => self.at(next, frames),
            Err(_) => Message::Completed,
        }
    }

    // At a frame of so many, or completed.
    fn at(self, next: u16, frames: u16) -> Message
        ensures { result ≡ sending_at self next frames }
    {
        if next < frames {
            Message::Sending(Sending { next, ..self })
        } else {
            Message::Completed
        }
    }

    // Whether the length is 1..4095 and a frame is left to send.
    pub(crate) fn fits(self) -> bool
        ensures { result ≡ (is_length self.length && ltb self.next (message_frames self.length)) }
    {
        matches!(cutting::count(self.length as usize), Ok(frames) if self.next < frames)
    }
}
