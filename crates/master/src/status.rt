// Status in its parts: what a closed transfer does to them, and the word.
ghost use Rattle.std.specs.Prelude.{◌≡◌, ◌||◌};
ghost use Rattle.master.specs.Fresh.{no_status};
ghost use Rattle.master.specs.Status.{status_after, with_counted as countedOf, status_word};

use crate::state::Status;

impl Status {
    // Status 0.
    pub fn none() -> Status
        ensures { result ≡ no_status }
    {
        Status {
            error: false,
            success: false,
            overrun: false,
            last: 0,
        }
    }

    // The status after a transfer, whether it counts or not.
    pub(crate) fn after(self, counts: bool, success: bool, last: u8) -> Status
        ensures { result ≡ status_after self counts success last }
    {
        if counts {
            self.counted(success, last)
        } else {
            self
        }
    }

    // The status after a transfer that counts.
    #[tactic(auto, unfolding(crate::specs::Status::with_counted))]
    pub fn counted(self, success: bool, last: u8) -> Status
        ensures { result ≡ countedOf self success last }
    {
        Status {
            error: self.error || !success,
            success: self.success || success,
            overrun: self.overruns(),
            last,
        }
    }

    // Whether one more transfer is the second or a later one since the last reading.
    fn overruns(self) -> bool
        ensures { result ≡ (self.overrun || (self.error || self.success)) }
    {
        self.overrun || self.error || self.success
    }

    // The word: bits 0 to 2, and the protected identifier in bits 8 to 15.
    #[tactic(auto, unfolding(crate::specs::Status::status_word))]
    pub fn word(self) -> u16
        ensures { result ≡ status_word self }
    {
        self.error as u16
            + 2 * (self.success as u16)
            + 4 * (self.overrun as u16)
            + 256 * (self.last as u16)
    }
}
