// The transfer: what it is of, the nine bytes at its opening, and which entries can open it.
ghost use Rattle.std.specs.Prelude.{true, cond, ◌≡◌, ◌+◌, ◌*◌, ◌≤◌, length, replicate, take};
ghost use Rattle.cluster.specs.Table.{published};
ghost use Rattle.master.specs.Admit.{buffer_size};
ghost use Rattle.master.specs.Fits.{frame_there, entry_opens, count_fits};
ghost use Rattle.master.specs.declared.state.Opened.TheVariants.{Frame, Request, Response};
ghost use Rattle.master.specs.Transfers.{format_of, is_open, open_length, sends as sendsOf, open_protected};
ghost use Rattle.master.specs.Transfers.{open_checksum, frame_data, request_data, copied, opening};
ghost use Rattle.master.specs.Fresh.{no_transfer};
ghost use Rattle.master.specs.Write.{touches_open, rewritten as rewrittenOf};
ghost use Rattle.master.specs.declared.state.Message.TheVariants.{None};
ghost use Rattle.transport.specs.Reassembly.{written};
ghost use Rattle.master.specs.Byte.{early as earlyOf, checksum_right};

use crate::placed;
use crate::state::{Message, Opened, Transfer};
use cluster::entries::EntryKind;
use cluster::right::Right;
use cluster::{entries, frames, members};
use transport::cutting;
use wire::checksum::Model;
use wire::{checksum, identifier};

// What is known of a transfer.
#[derive(Clone, Copy)]
pub struct Format {
    pub identifier: u16,
    // The data bytes.
    pub length: u16,
    pub model: Model,
    // The master sends the response.
    pub sends: bool,
}

// What a transfer is of, where its right table has it.
#[derive(Clone, Copy)]
pub(crate) struct Known<'a> {
    pub(crate) t: Right<'a>,
    pub(crate) opened: Opened,
    pub(crate) ghost there: { frame_there t.words.now opened ≡ true },
}

// What a slot opens, with the frame bytes and the message that are lent to the tick.
#[derive(Clone, Copy)]
pub(crate) struct Opening<'a> {
    pub(crate) known: Known<'a>,
    pub(crate) bytes: &'a [u8],
    pub(crate) lent: &'a [u8],
    pub(crate) ghost size: { length bytes.now ≡ buffer_size known.t.words.now },
}

impl Opened {
    // Whether a transfer is open.
    pub fn is_open(self) -> bool
        ensures { result ≡ is_open self }
    {
        !matches!(self, Opened::Nothing)
    }

    // Its format.
    #[tactic(auto, unfolding(crate::specs::Transfers::format_of))]
    pub fn format(self, t: &[u16]) -> Format
        ensures { result ≡ format_of t.now self }
    {
        match self {
            Opened::Nothing => Format::of(0, 0, Model::Classic, false),
            Opened::Frame(f) => Format::of(
                frames::identifier(t, f),
                frames::length(t, f),
                frames::model(t, f),
                frames::published(t, f),
            ),
            Opened::Request => Format::of(60, 8, Model::Classic, true),
            Opened::Response => Format::of(61, 8, Model::Classic, false),
        }
    }

    // Its data bytes.
    pub fn length(self, t: &[u16]) -> u16
        ensures { result ≡ open_length t.now self }
    {
        self.format(t).length
    }

    // Whether the master sends its response.
    pub fn sends(self, t: &[u16]) -> bool
        ensures { result ≡ sendsOf t.now self }
    {
        self.format(t).sends
    }

    // Whether a signal touches the frame of the transfer.
    fn touched(self, t: Right, s: u16) -> bool
        ensures { result ≡ touches_open t.entry.words.now s self }
    {
        match self {
            Opened::Frame(f) => placed::touches(t, s, f),
            _ => false,
        }
    }

    // Whether the table has the frame.
    pub(crate) fn is_there(self, t: &[u16]) -> bool
        ensures { result ≡ frame_there t.now self }
    {
        match self {
            Opened::Frame(f) => f < frames::count(t),
            _ => true,
        }
    }

    // Whether an entry can have opened it.
    #[tactic(auto, unfolding(crate::specs::Fits::entry_opens))]
    pub(crate) fn of_entry(self, t: &[u16], message: Message, e: u16) -> bool
        ensures { result ≡ entry_opens t.now message e self }
    {
        match self {
            Opened::Nothing => true,
            Opened::Frame(f) => opens_frame(t, e, f),
            Opened::Request => opens_request(t, message, e),
            Opened::Response => opens_response(t, e),
        }
    }
}

impl<'a> Known<'a> {
    // Its protected identifier.
    #[tactic(auto, unfolding(crate::specs::Transfers::open_protected))]
    pub(crate) fn protected(self) -> u8
        ensures { result ≡ open_protected self.entry.t.words.now self.entry.opened }
    {
        // Kept: 0 is never told, as the table has the frame; the core has no `unwrap`, which could panic.
        let format = self.opened.format(self.t.words);
        identifier::build(format.identifier as u8).unwrap_or(0)
    }

    // Its checksum over some data.
    #[tactic(auto, unfolding(crate::specs::Transfers::open_checksum))]
    fn checksum(self, bytes: &[u8]) -> u8
        requires { (1 ≤ length bytes.now) × (length bytes.now ≤ 8) }
        ensures { result ≡ open_checksum self.entry.t.words.now self.entry.opened bytes.now }
    {
        let format = self.opened.format(self.t.words);
        checksum::of(format.identifier as u8, format.model, bytes).unwrap_or(0)
    }

    // Data and checksum, the unused ones of the nine bytes 255.
    #[tactic(auto, unfolding(crate::specs::Transfers::copied))]
    fn copied(self, bytes: &[u8]) -> [u8; 9]
        requires { (1 ≤ length bytes.now) × (length bytes.now ≤ 8) }
        ensures { result ≡ copied self.entry.t.words.now self.entry.opened bytes.now }
    {
        let mut nine = [255; 9];
        let n = bytes.len();
        nine[..n].copy_from_slice(bytes);
        nine[n] = self.checksum(bytes);
        nine
    }

    // Whether the byte behind the data is their checksum.
    #[tactic(auto, unfolding(crate::specs::Byte::checksum_right))]
    pub(crate) fn checksum_right(self, nine: [u8; 9]) -> bool
        requires { is_open self.opened ≡ true }
        ensures { result ≡ checksum_right self.entry.t.words.now self.entry.opened nine }
    {
        let n = self.opened.length(self.t.words) as usize;
        nine[n] == self.checksum(&nine[..n])
    }
}

impl<'a> Opening<'a> {
    // The transfer record at the opening.
    #[tactic(auto, unfolding(crate::specs::Transfers::opening))]
    pub(crate) fn transfer(self, message: Message) -> Transfer
        ensures { result ≡ opening self.entry.known.t.words.now self.entry.bytes.now message self.entry.lent.now self.entry.known.opened }
    {
        Transfer {
            opened: self.known.opened,
            count: 0,
            bytes: self.first_bytes(message),
            written: false,
        }
    }

    // The nine bytes at the opening: a copy where the master sends, and 255 where it receives.
    #[tactic(auto, unfolding(crate::specs::Transfers::opening, crate::specs::Transfers::sent_data, crate::specs::Transfers::format_of))]
    fn first_bytes(self, message: Message) -> [u8; 9]
        ensures { result ≡ (opening self.entry.known.t.words.now self.entry.bytes.now message self.entry.lent.now self.entry.known.opened).bytes }
    {
        match self.known.opened {
            Opened::Frame(f) => self.frame_copy(f),
            Opened::Request => self.request_copy(message),
            _ => [255; 9],
        }
    }

    // The nine bytes at the opening of a frame.
    fn frame_copy(self, f: u16) -> [u8; 9]
        requires { self.known.opened ≡ Frame f }
        ensures { result ≡ cond (published self.entry.known.t.words.now f)
            (copied self.entry.known.t.words.now (Frame f) (frame_data self.entry.known.t.words.now self.entry.bytes.now f)) (replicate 9 255) }
    {
        let t = self.known.t.words;
        if !frames::published(t, f) {
            return [255; 9];
        }
        let at = 8 * (f as usize);
        let end = at + frames::length(t, f) as usize;
        self.known.copied(&self.bytes[at..end])
    }

    // The nine bytes at the opening of a request: the frame cut from the bytes lent now.
    fn request_copy(self, message: Message) -> [u8; 9]
        requires { self.known.opened ≡ Request }
        ensures { result ≡ copied self.entry.known.t.words.now Request (request_data message self.entry.lent.now) }
    {
        self.known.copied(&request_data(message, self.lent))
    }
}

impl Format {
    // A format of its parts.
    fn of(identifier: u16, length: u16, model: Model, sends: bool) -> Format
        ensures { result ≡ record { identifier = identifier; length = length; model = model; sends = sends } }
    {
        Format {
            identifier,
            length,
            model,
            sends,
        }
    }
}

impl Transfer {
    // No transfer.
    pub fn none() -> Transfer
        ensures { result ≡ no_transfer }
    {
        Transfer {
            opened: Opened::Nothing,
            count: 0,
            bytes: [255; 9],
            written: false,
        }
    }

    // Whether the byte that comes now is not the last one.
    pub(crate) fn early(self, t: &[u16]) -> bool
        ensures { result ≡ earlyOf t.now self }
    {
        (self.count as u16) < self.opened.length(t)
    }

    // Written since its opening, where a signal touches its frame; where it was written before, that is not asked.
    #[tactic(auto, unfolding(crate::specs::Write::rewritten))]
    pub(crate) fn rewritten(self, t: Right, s: u16) -> Transfer
        ensures { result ≡ rewrittenOf t.entry.words.now s self }
    {
        if self.written || !self.opened.touched(t, s) {
            return self;
        }
        Transfer {
            written: true,
            ..self
        }
    }

    // Whether an open transfer has fewer bytes than close it.
    #[tactic(auto, unfolding(crate::specs::Fits::count_fits))]
    pub(crate) fn count_fits(self, t: &[u16]) -> bool
        ensures { result ≡ count_fits t.now self }
    {
        !self.opened.is_open() || self.count as u16 <= self.opened.length(t)
    }
}

// The eight data bytes of a request.
fn request_data(message: Message, lent: &[u8]) -> [u8; 8]
    ensures { result ≡ request_data message lent.now }
{
    let Message::Sending(sending) = message else {
        return [255; 8];
    };
    match cutting::frame(sending.nad, lent, sending.next) {
        Ok(Some(bytes)) => bytes,
        _ => [255; 8],
    }
}

// Stores the data of a frame in its eight bytes of the buffer.
pub(crate) fn store(bytes: &mut [u8], f: u16, n: u16, nine: [u8; 9])
    requires { (8 * f + 8 ≤ length bytes.old) × (n ≤ 8) }
    ensures { bytes.new ≡ written bytes.old (8 * f) (take n nine) }
{
    let at = 8 * (f as usize);
    let end = at + n as usize;
    bytes[at..end].copy_from_slice(&nine[..n as usize]);
}

// Whether an entry can open a frame: its own, or a member of its list.
#[tactic(auto, unfolding(crate::specs::Fits::entry_opens))]
fn opens_frame(t: &[u16], e: u16, f: u16) -> bool
    ensures { result ≡ entry_opens t.now None e (Frame f) }
{
    let target = entries::target(t, e);
    match entries::kind_of(t, e) {
        Some(EntryKind::Frame) => target == f,
        Some(EntryKind::List) => members::has(t, target, f),
        _ => false,
    }
}

// Whether an entry can open the request.
#[tactic(auto, unfolding(crate::specs::Fits::entry_opens))]
fn opens_request(t: &[u16], message: Message, e: u16) -> bool
    ensures { result ≡ entry_opens t.now message e Request }
{
    matches!(entries::kind_of(t, e), Some(EntryKind::Request)) && message.is_sending()
}

// Whether an entry can open a response.
#[tactic(auto, unfolding(crate::specs::Fits::entry_opens))]
fn opens_response(t: &[u16], e: u16) -> bool
    ensures { result ≡ entry_opens t.now None e Response }
{
    matches!(entries::kind_of(t, e), Some(EntryKind::Response))
}
