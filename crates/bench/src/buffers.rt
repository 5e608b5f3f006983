// The buffers, their sizes, and how much of one is in use.
ghost use Rattle.std.specs.Prelude.{◌≡◌, ◌≤◌, length, take, IfSome};

use crate::print::Printer;
use desk::{Desk, LIST, size};
use script::lists::{self, Element};
use streams::within;

// The longest line that can be right.
pub(crate) const LONGEST_LINE: usize = 20000;

// Room for the words of the longest line, also of each of its rows, and for the bytes of one.
pub(crate) const LINE_WORDS: usize = 10000;

pub(crate) const LINE_BYTES: usize = 6700;

// The most frame bytes, bytes of a lent message, and bytes for the reassembler.
pub(crate) const FRAME_BYTES: usize = 512;

pub(crate) const MESSAGE_BYTES: usize = 4096;

pub(crate) const ROOM_BYTES: usize = 4096;

// The characters of the script that are read at once, with those kept before them.
pub(crate) const TEXT_BYTES: usize = 65536;

// The answers that are not written out yet.
pub(crate) const OUTPUT_BYTES: usize = 65536;

// The longest answer, with its newline: `taken` and a pair behind a space for each byte of the reassembler's.
pub(crate) const LONGEST_ANSWER: usize = 6 + 3 * ROOM_BYTES;

pub(crate) type Table = [u16; LINE_WORDS];

pub(crate) type Frames = [u8; FRAME_BYTES];

pub(crate) type Message = [u8; MESSAGE_BYTES];

pub(crate) type Room = [u8; ROOM_BYTES];

// What a run works on: the desk, the buffers, and the answers.
// Kept: how much of each buffer is in use is a number of the desk; an `ArrayVec` would be filled again byte by byte where `fill(0)` does it.
#[derive(Drop)]
pub(crate) struct Bench {
    pub(crate) desk: Desk,
    pub(crate) table: Table,
    pub(crate) frames: Frames,
    pub(crate) message: Message,
    pub(crate) room: Room,
    pub(crate) printer: Printer,
}

impl Bench {
    // Buffers of which nothing is in use; `run` begins with the fresh state.
    // Kept: a literal and no more; what is built in a variable first is laid out twice on the stack.
    pub(crate) fn new() -> Bench {
        Bench {
            desk: [0; desk::SIZE],
            table: [0; LINE_WORDS],
            frames: [0; FRAME_BYTES],
            message: [0; MESSAGE_BYTES],
            room: [0; ROOM_BYTES],
            printer: Printer::new(),
        }
    }
}

// The list that ends the line at hand, read into a buffer; none where a field is malformed or there is no room for all.
pub(crate) fn read_list<'b, T: Element>(
    line: &[u8],
    desk: &Desk,
    room: &'b mut [T],
) -> Option<&'b [T]>
    ensures { IfSome result (λ list. length list.now ≤ length room.old) }
{
    let n = lists::read(line, size(desk[LIST]), room)?;
    Some(&room[..within(n, room)])
}

// What is in use of a buffer: so many elements at its front, at most all.
pub(crate) fn used<T>(count: u32, items: &[T]) -> &[T]
    ensures { result.now ≡ take count items.now }
{
    &items[..within(size(count), items)]
}

// The same of a buffer that is written to.
pub(crate) fn used_mut<T>(count: u32, items: &mut [T]) -> &mut [T] {
    let n = within(size(count), items);
    &mut items[..n]
}
