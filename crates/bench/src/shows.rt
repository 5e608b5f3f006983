// What is shown and not called: the pending bits, the frame bytes, the bytes that the master sends, the rest of the state, the
// placements received last, and the reassembler.
use crate::buffers::{Bench, used};
use crate::forms::Shown;
use crate::texts::Text;
use cluster::frames::count;
use desk::{state, *};
use master::state::Opened;

impl Bench {
    // Shows what the line at hand asks for.
    pub(crate) fn show(&mut self, shown: Shown) {
        match shown {
            Shown::Pending => self.show_pending(),
            Shown::Frames => self.show_frames(),
            Shown::Out => self.show_sent(),
            Shown::State => self.show_state(),
            Shown::Taken => self.show_taken(),
            Shown::Assembly => self.show_assembly(),
            Shown::Received => self.show_received(),
        }
    }

    // Shows the frames whose pending bit is set.
    fn show_pending(&mut self) {
        let desk = &self.desk;
        let out = &mut self.printer;
        out.put(Text::PENDING, &[]);
        for (f, &bit) in desk[..FRAMES].iter().enumerate() {
            if bit == 1 {
                out.put(Text::PENDING_FRAME, &[f as u32]);
            }
        }
    }

    // Shows the frame bytes in use.
    fn show_frames(&mut self) {
        let frames = used(self.desk[FRAMES_USED], &self.frames);
        self.printer.put_bytes(Text::FRAMES, frames);
    }

    // Shows the bytes that the master sends in the open transfer, its checksum too.
    fn show_sent(&mut self) {
        let t = used(self.desk[WORDS_USED], &self.table);
        let transfer = state::take(&self.desk).transfer;
        let n = sent_count(transfer.opened, t);
        self.printer.put_bytes(Text::OUT, used(n, &transfer.bytes));
    }

    // Shows the whole state but the pending bits.
    fn show_state(&mut self) {
        let desk = &self.desk;
        let out = &mut self.printer;
        out.put(Text::STATE, &desk[WAIT..]);
        out.put(opened_text(desk[OPEN]), &desk[OPEN..]);
        out.put(Text::STATE_TRANSFER, &desk[COUNT..]);
        out.put(message_text(desk[MESSAGE]), &desk[NAD..]);
        out.put(Text::STATE_STATUS, &desk[ERROR..]);
    }

    // Shows the reassembler's buffer, as much as is in use.
    fn show_taken(&mut self) {
        let room = used(self.desk[ROOM_USED], &self.room);
        self.printer.put_bytes(Text::TAKEN, room);
    }

    // Shows what the reassembler has open: its NAD, its length, the bytes that are there and the counter due.
    fn show_assembly(&mut self) {
        let desk = &self.desk;
        let out = &mut self.printer;
        let text = if desk[ASSEMBLY] == 0 {
            Text::ASSEMBLY_NONE
        } else {
            Text::ASSEMBLY
        };
        out.put(text, &desk[ASSEMBLY + 1..]);
    }

    // Shows the signals of which a placement was received, each with the one received last.
    fn show_received(&mut self) {
        let desk = &self.desk;
        let out = &mut self.printer;
        out.put(Text::RECEIVED, &[]);
        for (s, &placement) in desk[RECEIVED..].iter().enumerate() {
            if placement != NONE {
                out.put(Text::RECEIVED_PLACEMENT, &[s as u32, placement]);
            }
        }
    }
}

// How many bytes the master sends; none for a frame that is not in the table.
fn sent_count(opened: Opened, t: &[u16]) -> u32 {
    match opened {
        Opened::Frame(f) if !is_there(t, f) => 0,
        _ if opened.sends(t) => u32::from(opened.length(t)) + 1,
        _ => 0,
    }
}

// Whether a frame is in the table; a table that is not taken has none.
fn is_there(t: &[u16], f: u16) -> bool {
    cluster::taken(t).is_ok() && f < count(t)
}

// The text of what is open.
fn opened_text(open: u32) -> Text {
    match open {
        NONE => Text::OPEN_NOTHING,
        OPEN_REQUEST => Text::OPEN_REQUEST,
        OPEN_RESPONSE => Text::OPEN_RESPONSE,
        _ => Text::OPEN_FRAME,
    }
}

// The text of the diagnostic message.
fn message_text(message: u32) -> Text {
    match message {
        SENDING => Text::MESSAGE_SENDING,
        COMPLETED => Text::MESSAGE_COMPLETED,
        FAILED => Text::MESSAGE_FAILED,
        _ => Text::MESSAGE_NONE,
    }
}
