// Bytes on the bus: protected identifiers and checksums, and the frames that the reassembler takes.
use crate::buffers::{Bench, LINE_BYTES, read_list, used_mut};
use crate::replies::Reply;
use crate::texts::Text;
use desk::{Desk, NUMBERS, ROOM_USED, assembly, byte};
use wire::checksum::Model;
use wire::{checksum, identifier};

// Builds a protected identifier.
pub(crate) fn pid(desk: &Desk) -> Reply {
    Reply::number(Text::PID, identifier::build(byte(desk[NUMBERS])))
}

// Reads a protected identifier.
pub(crate) fn id(desk: &Desk) -> Reply {
    Reply::number(Text::ID, identifier::read(byte(desk[NUMBERS])))
}

// Makes the checksum of the bytes that end the line under an identifier.
pub(crate) fn sum(model: Model, line: &[u8], desk: &Desk) -> Reply {
    let mut data = [0u8; LINE_BYTES];
    let Some(data) = read_list(line, desk, &mut data) else {
        return Reply::malformed();
    };
    let id = byte(desk[NUMBERS]);
    Reply::number(Text::CHECKSUM, checksum::of(id, model, data))
}

impl Bench {
    // The reassembler takes a frame, the bytes that end the line.
    pub(crate) fn take(&mut self, line: &[u8]) -> Reply {
        let mut frame = [0u8; LINE_BYTES];
        match read_list(line, &self.desk, &mut frame) {
            Some(frame) => self.take_frame(frame),
            None => Reply::malformed(),
        }
    }

    // The reassembler takes a frame.
    fn take_frame(&mut self, frame: &[u8]) -> Reply {
        let room = used_mut(self.desk[ROOM_USED], &mut self.room);
        let mut reassembly = assembly::take(&self.desk);
        let answer = reassembly.take(frame, room);
        assembly::put(&mut self.desk, reassembly);
        Reply::take(answer)
    }
}
