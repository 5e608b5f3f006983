// The lines of a script by their forms, as `script::forms` reads them.
ghost use Rattle.std.specs.Prelude.{◌≡◌};
ghost use Rattle.bench.specs.Forms.{form_of};

use crate::buffers::LONGEST_LINE;
use crate::sets::Part;
use desk::{Desk, LIST, NUMBERS};
use script::forms;
use script::forms::{Line, MOST};
use wire::checksum::Model;

// What a line asks for.
#[derive(Clone, Copy)]
pub(crate) enum Form {
    Call(Call),
    Writes,
    Row,
    Fresh,
    Show(Shown),
    Table,
    Buffer,
    Lend,
    Room,
    Take,
    Judge,
    Pid,
    Id,
    Checksum(Model),
    Set(Part),
}

// A call of the master that is given numbers at most.
#[derive(Clone, Copy)]
pub(crate) enum Call {
    Tick,
    Byte,
    Write,
    Read,
    Reads,
    Ahead,
    Select,
    Status,
    Send,
    Message,
}

// What is shown.
#[derive(Clone, Copy)]
pub(crate) enum Shown {
    Pending,
    Frames,
    Out,
    State,
    Taken,
    Assembly,
    Received,
}

// Every form of a line, as it is written.
const FORMS: [(&[u8], Form); 52] = [
    (b"tick", Form::Call(Call::Tick)),
    (b"byte HH", Form::Call(Call::Byte)),
    (b"write 65535 4294967295", Form::Call(Call::Write)),
    (b"writes 65535 ..", Form::Writes),
    (b"row ..", Form::Row),
    (b"read 65535", Form::Call(Call::Read)),
    (b"reads 65535", Form::Call(Call::Reads)),
    (b"ahead 65535", Form::Call(Call::Ahead)),
    (b"select 65535", Form::Call(Call::Select)),
    (b"fresh", Form::Fresh),
    (b"status", Form::Call(Call::Status)),
    (b"send 255 4294967295", Form::Call(Call::Send)),
    (b"message", Form::Call(Call::Message)),
    (b"pending", Form::Show(Shown::Pending)),
    (b"frames", Form::Show(Shown::Frames)),
    (b"out", Form::Show(Shown::Out)),
    (b"state", Form::Show(Shown::State)),
    (b"taken", Form::Show(Shown::Taken)),
    (b"assembly", Form::Show(Shown::Assembly)),
    (b"received", Form::Show(Shown::Received)),
    (b"table ..", Form::Table),
    (b"buffer 512", Form::Buffer),
    (b"lend ..", Form::Lend),
    (b"room 4096", Form::Room),
    (b"take ..", Form::Take),
    (b"judge 4294967295 4294967295", Form::Judge),
    (b"pid 255", Form::Pid),
    (b"id HH", Form::Id),
    (b"checksum 255 classic ..", Form::Checksum(Model::Classic)),
    (b"checksum 255 enhanced ..", Form::Checksum(Model::Enhanced)),
    (b"set wait 65535", Form::Set(Part::Wait)),
    (b"set entry 65535", Form::Set(Part::Entry)),
    (b"set entry none", Form::Set(Part::NoEntry)),
    (b"set request 65535", Form::Set(Part::Request)),
    (b"set request none", Form::Set(Part::NoRequest)),
    (b"set open nothing", Form::Set(Part::OpenNothing)),
    (b"set open frame 65535", Form::Set(Part::OpenFrame)),
    (b"set open request", Form::Set(Part::OpenRequest)),
    (b"set open response", Form::Set(Part::OpenResponse)),
    (b"set count 255", Form::Set(Part::Count)),
    (
        b"set bytes HH HH HH HH HH HH HH HH HH",
        Form::Set(Part::Bytes),
    ),
    (b"set written 1", Form::Set(Part::Written)),
    (b"set message none", Form::Set(Part::NoMessage)),
    (
        b"set message sending 255 65535 65535",
        Form::Set(Part::Sending),
    ),
    (b"set message completed", Form::Set(Part::Completed)),
    (b"set message failed", Form::Set(Part::Failed)),
    (b"set status 1 1 1 HH", Form::Set(Part::Status)),
    (b"set pending 59 1", Form::Set(Part::Pending)),
    (b"set assembly none", Form::Set(Part::NoAssembly)),
    (
        b"set assembly 255 65535 65535 255",
        Form::Set(Part::Assembly),
    ),
    (b"set received 255 65535", Form::Set(Part::Received)),
    (b"set received 255 none", Form::Set(Part::NoneReceived)),
];

// Reads a line as the first form that it has, and puts the place of its list and its numbers on the desk; a line that is too long has
// no form.
pub(crate) fn take(line: &[u8], desk: &mut Desk) -> Option<Form>
    ensures { result ≡ form_of line.now }
{
    if LONGEST_LINE < line.len() {
        return None;
    }
    let (form, read) = forms::first(line, &FORMS)?;
    put_line(desk, read);
    Some(form)
}

// Puts the place of the list and the numbers of the line at hand.
fn put_line(desk: &mut Desk, line: Line) {
    desk[LIST] = (line.list % 65536) as u32;
    desk[NUMBERS..NUMBERS + MOST].copy_from_slice(&line.numbers);
}
