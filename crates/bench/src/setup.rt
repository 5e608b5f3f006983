// The lines that lay out a buffer anew: the table, the frame bytes, the lent message, the reassembler's buffer.
use crate::buffers::{Bench, LINE_WORDS, MESSAGE_BYTES, read_list};
use crate::replies::Reply;
use crate::texts::Text;
use cluster::Limits;
use desk::{ASSEMBLY, FRAMES_USED, MESSAGE_USED, NUMBERS, ROOM_USED, WORDS_USED, state};
use master::state::State;

impl Bench {
    // Lays out a table, right or not, with frame bytes for its frames and a fresh state, and answers the table check.
    pub(crate) fn lay_table(&mut self, line: &[u8]) -> Reply {
        let mut words = [0u16; LINE_WORDS];
        let n = match read_list(line, &self.desk, &mut words) {
            Some(list) => list.len(),
            None => return Reply::malformed(),
        };
        self.table = words;
        self.frames.fill(0);
        self.lay(&words[..n])
    }

    // Lays out the state and the number of frame bytes for a table.
    fn lay(&mut self, t: &[u16]) -> Reply {
        state::put(&mut self.desk, State::fresh());
        self.desk[WORDS_USED] = (t.len() % 65536) as u32;
        self.desk[FRAMES_USED] = frame_bytes(t);
        Reply::check(cluster::taken(t))
    }

    // Lays out the message that later ticks are lent.
    pub(crate) fn lay_message(&mut self, line: &[u8]) -> Reply {
        let mut lent = [0u8; MESSAGE_BYTES];
        let n = match read_list(line, &self.desk, &mut lent) {
            Some(list) => list.len(),
            None => return Reply::malformed(),
        };
        self.message = lent;
        self.desk[MESSAGE_USED] = (n % 65536) as u32;
        Reply::of(Text::LENT, self.desk[MESSAGE_USED])
    }

    // Lays out so many frame bytes, all 0.
    pub(crate) fn lay_frames(&mut self) -> Reply {
        let n = self.desk[NUMBERS];
        self.frames.fill(0);
        self.desk[FRAMES_USED] = n;
        Reply::of(Text::BUFFER, n)
    }

    // Lays out so many bytes for the reassembler, all 0, with nothing open.
    pub(crate) fn lay_room(&mut self) -> Reply {
        let n = self.desk[NUMBERS];
        self.room.fill(0);
        self.desk[ROOM_USED] = n;
        self.desk[ASSEMBLY] = 0;
        Reply::of(Text::ROOM, n)
    }
}

// The frame bytes of a table: eight a frame, and none where the number of frames is missing or too large.
fn frame_bytes(t: &[u16]) -> u32 {
    match t.first() {
        Some(&frames) if frames <= Limits::FRAMES as u16 => 8 * u32::from(frames),
        _ => 0,
    }
}
