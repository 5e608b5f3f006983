// The calls of the master: the state is taken from the desk, the call is made on what is in use of each buffer, and the state that it
// leaves is put back.
use crate::buffers::{Bench, LINE_BYTES, LINE_WORDS, read_list, used, used_mut};
use crate::forms::Call;
use crate::replies::Reply;
use crate::texts::Text;
use desk::{
    ANSWER, Desk, FRAMES_USED, LIST, MESSAGE_USED, NUMBERS, WORDS_USED, byte, size, state, word,
};
use master::byte::ByteAnswer;
use master::state::State;
use script::rows;
use streams::within;

impl Bench {
    // Makes a call with the numbers of the line at hand.
    pub(crate) fn call(&mut self, call: Call) -> Reply {
        let t = used(self.desk[WORDS_USED], &self.table);
        let frames = used_mut(self.desk[FRAMES_USED], &mut self.frames);
        let lent = used(self.desk[MESSAGE_USED], &self.message);
        let n = self.desk[NUMBERS];
        let value = self.desk[NUMBERS + 1];
        let mut state = state::take(&self.desk);
        let reply = match call {
            Call::Tick => {
                let (next, answer) = state.tick(t, frames, lent);
                state = next;
                Reply::tick(answer)
            }
            Call::Byte => {
                let (next, answer) = state.byte_in(t, frames, byte(n));
                state = next;
                if let Ok(ByteAnswer::Response(bytes)) = answer {
                    put_answer(&mut self.desk, &bytes);
                }
                Reply::byte(answer)
            }
            Call::Write => Reply::done(Text::WRITTEN, state.write(t, frames, word(n), value)),
            Call::Read => Reply::number(Text::VALUE, state.read(t, frames, word(n))),
            Call::Reads => {
                let answer = state.read_array(t, frames, word(n));
                if let Ok(array) = answer {
                    put_answer(&mut self.desk, &array.bytes);
                }
                Reply::read_array(answer)
            }
            Call::Ahead => Reply::number(Text::AHEAD, state.number_ahead(t, word(n))),
            Call::Select => Reply::done(Text::SELECTED, state.select(t, word(n))),
            Call::Status => Reply::status(state.read_status(t)),
            Call::Send => Reply::done(Text::SENDING, state.send(t, byte(n), value)),
            Call::Message => Reply::message(state.message_state(t)),
        };
        state::put(&mut self.desk, state);
        reply
    }

    // Fills the frame bytes, and begins with the fresh state.
    pub(crate) fn fresh(&mut self) -> Reply {
        let t = used(self.desk[WORDS_USED], &self.table);
        let frames = used_mut(self.desk[FRAMES_USED], &mut self.frames);
        let answer = State::start(t, frames);
        if let Ok(fresh) = answer {
            state::put(&mut self.desk, fresh);
        }
        Reply::done(Text::FRESH, answer.map(|_| ()))
    }

    // Writes an array, the bytes that end the line.
    pub(crate) fn write_array(&mut self, line: &[u8]) -> Reply {
        let mut values = [0u8; LINE_BYTES];
        let Some(values) = read_list(line, &self.desk, &mut values) else {
            return Reply::malformed();
        };
        let t = used(self.desk[WORDS_USED], &self.table);
        let frames = used_mut(self.desk[FRAMES_USED], &mut self.frames);
        let mut state = state::take(&self.desk);
        let answer = state.write_array(t, frames, word(self.desk[NUMBERS]), values);
        state::put(&mut self.desk, state);
        Reply::done(Text::WRITTEN, answer)
    }

    // Writes a row, the signals and the values that end the line.
    pub(crate) fn write_row(&mut self, line: &[u8]) -> Reply {
        let mut signals = [0u16; LINE_WORDS];
        let mut values = [0u32; LINE_WORDS];
        let at = size(self.desk[LIST]);
        let Some((signals_read, values_read)) = rows::read(line, at, &mut signals, &mut values)
        else {
            return Reply::malformed();
        };
        let n = within(signals_read, &signals);
        let m = within(values_read, &values);
        let t = used(self.desk[WORDS_USED], &self.table);
        let frames = used_mut(self.desk[FRAMES_USED], &mut self.frames);
        let mut state = state::take(&self.desk);
        let answer = state.write_row(t, frames, &signals[..n], &values[..m]);
        state::put(&mut self.desk, state);
        Reply::row(answer)
    }
}

// Puts the bytes of an answer on the desk.
fn put_answer(desk: &mut Desk, bytes: &[u8; 8]) {
    for (place, &b) in desk[ANSWER..].iter_mut().zip(bytes) {
        *place = u32::from(b);
    }
}
