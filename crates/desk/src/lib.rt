// The desk of the bench master: the master's state, the reassembler's, how much of each buffer is in use, and the line at hand, as numbers
// by name. A call takes the state from here and puts the next one back.
#![tactic(auto)]

pub mod assembly;
pub mod state;

ghost use Rattle.std.specs.Prelude.{◌≡◌, ◌%◌};

use cluster::Limits;

pub const SIZE: usize = 384;

pub type Desk = [u32; SIZE];

// The pending bits, one a frame, stand first; then the plan.
pub const FRAMES: usize = Limits::FRAMES;

pub const WAIT: usize = 60;

pub const ENTRY: usize = 61;

pub const REQUEST: usize = 62;

// The transfer: what is open, the count, nine bytes, the mark.
pub const OPEN: usize = 63;

pub const COUNT: usize = 64;

pub const BYTES: usize = 65;

pub const WRITTEN: usize = 74;

// The message: its kind, then of one that is being sent the NAD, the length and the next frame.
pub const MESSAGE: usize = 75;

pub const NAD: usize = 76;

pub const LENGTH: usize = 77;

pub const NEXT: usize = 78;

// The status.
pub const ERROR: usize = 79;

pub const SUCCESS: usize = 80;

pub const OVERRUN: usize = 81;

pub const LAST: usize = 82;

// The reassembler: whether a message is open, and its NAD, length, count and counter.
pub const ASSEMBLY: usize = 83;

// How much is in use: the words of the table, the frame bytes, the message that ticks are lent, the reassembler's buffer.
pub const WORDS_USED: usize = 88;

pub const FRAMES_USED: usize = 89;

pub const MESSAGE_USED: usize = 90;

pub const ROOM_USED: usize = 91;

// The line at hand: where its list begins, and its numbers and bytes.
pub const LIST: usize = 97;

pub const NUMBERS: usize = 98;

// The numbers or bytes of an answer.
pub const ANSWER: usize = 110;

// The placements received last, behind all else, and how many there are: one a signal.
pub const RECEIVED: usize = 128;

pub const SIGNALS: usize = Limits::SIGNALS;

// In the place of an entry, a schedule or a placement: none; in that of a frame: nothing is open, or a transfer that is of no frame.
// Kept: the desk is an array of numbers, and `take` and `put` of `state` say of each case which one it is (`state_on`, `with_state`).
pub const NONE: u32 = 65536;

pub const OPEN_REQUEST: u32 = 65537;

pub const OPEN_RESPONSE: u32 = 65538;

// The kinds of a message.
// Kept: as `NONE`.
pub const SENDING: u32 = 1;

pub const COMPLETED: u32 = 2;

pub const FAILED: u32 = 3;

// A number of 16 bits.
// Kept: `n as u16` has to lose nothing, and `try_from` would need an answer for the rest.
pub fn word(n: u32) -> u16
    ensures { result ≡ n % 65536 }
{
    (n % 65536) as u16
}

// A number of 8 bits.
// Kept: as `word`.
pub fn byte(n: u32) -> u8
    ensures { result ≡ n % 256 }
{
    (n % 256) as u8
}

// A number as a size.
// Kept: there is no `From<u32>` for usize.
pub fn size(n: u32) -> usize
    ensures { result ≡ n }
{
    n as usize
}
