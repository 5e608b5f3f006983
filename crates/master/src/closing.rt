// Closing a transfer: as failed, sent with success, or received with success.
ghost use Rattle.std.specs.Prelude.{true, ◌≡◌};
ghost use Rattle.master.specs.Fits.{state_fits};
ghost use Rattle.master.specs.Transfers.{is_open};
ghost use Rattle.master.specs.Closing.{closed as closedOf, failed as failedOf, sent as sentOf, received as receivedOf};

use crate::state::{State, Transfer};
use crate::transfer::Known;
use cluster::right::Right;

// A state that fits a right table, with a transfer open.
#[derive(Clone, Copy)]
pub(crate) struct InTransfer<'a> {
    pub(crate) t: Right<'a>,
    pub(crate) state: State,
    pub(crate) ghost fits: { state_fits t.words.now state ≡ true },
    pub(crate) ghost opened: { is_open state.transfer.opened ≡ true },
}

impl<'a> InTransfer<'a> {
    // What the transfer is of, which the table has.
    pub(crate) fn known(self) -> Known<'a>
        ensures table { result.t.words.now ≡ self.entry.t.words.now }
        ensures opened { result.opened ≡ self.entry.state.transfer.opened }
    {
        Known {
            t: self.t,
            opened: self.state.transfer.opened,
        }
    }

    // The transfer is over; it counts for status, with its outcome, where it had a response byte.
    fn closed(self, counts: bool, success: bool) -> State
        ensures { result ≡ closedOf self.entry.t.words.now self.entry.state counts success }
    {
        let last = self.known().protected();
        self.state
            .with_transfer(Transfer::none())
            .with_status(self.state.status.after(counts, success, last))
    }

    // It failed.
    #[tactic(auto, unfolding(crate::specs::Closing::failed))]
    pub(crate) fn failed(self, counts: bool) -> State
        ensures { result ≡ failedOf self.entry.t.words.now self.entry.state counts }
    {
        let opened = self.state.transfer.opened;
        self.closed(counts, false)
            .with_message(self.state.message.failed(opened))
    }

    // The master sent it with success: its frame is no longer pending unless it was written since, or the message moves on.
    #[tactic(auto, unfolding(crate::specs::Closing::sent))]
    pub(crate) fn sent(self) -> State
        ensures { result ≡ sentOf self.entry.t.words.now self.entry.state }
    {
        let state = self.state;
        let cleared = self
            .known()
            .sent_pending(state.transfer.written, state.pending);
        self.closed(true, true)
            .with_message(state.message.sent(state.transfer.opened))
            .with_pending(cleared)
    }

    // The master received it with success: its placements are those received last.
    #[tactic(auto, unfolding(crate::specs::Closing::received))]
    pub(crate) fn received(self) -> State
        ensures { result ≡ receivedOf self.entry.t.words.now self.entry.state }
    {
        let opened = self.state.transfer.opened;
        let received = opened.received_by(self.t, self.state.received);
        self.closed(true, true).with_received(received)
    }
}
