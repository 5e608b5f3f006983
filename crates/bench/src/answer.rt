// The answer to a line.
use crate::buffers::{Bench, used};
use crate::forms::Form;
use crate::replies::Reply;
use crate::texts::Text;
use crate::{bus, forms, sets};
use desk::{ANSWER, NUMBERS, WORDS_USED};

impl Bench {
    // Answers a line.
    pub(crate) fn line(&mut self, line: &[u8]) {
        match forms::take(line, &mut self.desk) {
            Some(form) => self.answer(form, line),
            None => self.print(Reply::malformed()),
        }
        self.printer.put(Text::END, &[]);
    }

    // Does what a line of a form says, and prints what is to be shown or the answer.
    fn answer(&mut self, form: Form, line: &[u8]) {
        let reply = match form {
            Form::Show(shown) => return self.show(shown),
            Form::Call(call) => self.call(call),
            Form::Writes => self.write_array(line),
            Form::Row => self.write_row(line),
            Form::Fresh => self.fresh(),
            Form::Table => self.lay_table(line),
            Form::Buffer => self.lay_frames(),
            Form::Lend => self.lay_message(line),
            Form::Room => self.lay_room(),
            Form::Take => self.take(line),
            Form::Judge => self.judge(),
            Form::Pid => bus::pid(&self.desk),
            Form::Id => bus::id(&self.desk),
            Form::Checksum(model) => bus::sum(model, line, &self.desk),
            Form::Set(part) => sets::set(part, &mut self.desk),
        };
        self.print(reply);
    }

    // Prints an answer; where it has bytes, they are on the desk.
    fn print(&mut self, reply: Reply) {
        let desk = &self.desk;
        let out = &mut self.printer;
        match reply.numbers {
            Some(numbers) => out.put(reply.text, &numbers),
            None => out.put(reply.text, &desk[ANSWER..]),
        }
    }

    // Judges the schedules of the table in use.
    fn judge(&self) -> Reply {
        let t = used(self.desk[WORDS_USED], &self.table);
        Reply::judge(timing::judge(t, self.desk[NUMBERS], self.desk[NUMBERS + 1]))
    }
}
