// The reassembler: a state that takes a frame, and puts the bytes delivered into a lent buffer.
ghost use Rattle.std.specs.Prelude.{true, ◌≡◌, ◌+◌, ◌≤◌, length, Ok};
ghost use Rattle.transport.specs.Parts.{kind_outcome, next_outcome};
ghost use Rattle.transport.specs.Answers.{take_told};
ghost use Rattle.refusal.specs.Answers.{first_failing};
ghost use Rattle.transport.specs.Reassembly.{Leaves, written, step, fits, assembly_fits, listens, take_tests, take_values};
ghost use Rattle.transport.specs.Reassembly.{frame_nad, frame_pci, bytes_due, reached, single, first};

use refusal::Refusal;

// An open message: its NAD, its length, the bytes that are there, and the counter due.
#[derive(Clone, Copy, PartialEq, Eq, Debug)]
pub struct Assembly {
    pub nad: u8,
    pub length: u16,
    pub count: u16,
    pub counter: u8,
}

// The state from frame to frame: the open message, if there is one.
#[derive(Clone, Copy, PartialEq, Eq, Debug)]
pub struct Reassembly {
    pub message: Option<Assembly>,
}

// What is answered for a frame that is not refused; done tells the length.
#[derive(Clone, Copy, PartialEq, Eq, Debug)]
pub enum Answer {
    Ignored,
    Started,
    More,
    Done(u16),
    Broken,
}

impl Assembly {
    // The length of the longest message.
    pub const LONGEST: u16 = 4095;

    // A message that a reassembly can have open, with the counter due.
    fn fits(self) -> bool
        ensures { result ≡ assembly_fits self }
    {
        self.nad != 0
            && 7 <= self.length
            && self.length <= Assembly::LONGEST
            && self.count % 6 == 5
            && self.count < self.length
            && self.counter as u16 == (1 + self.count / 6) % 16
    }

    // The bytes that a next frame brings: six, or the rest where fewer are left.
    fn bytes_due(self) -> u16
        ensures value { result ≡ bytes_due self }
        ensures few { result ≤ 6 }
    {
        self.length.saturating_sub(self.count).min(6)
    }
}

impl Reassembly {
    // Takes a frame: the bytes that it delivers go into the buffer, directly behind those before them.
    pub fn take(&mut self, frame: &[u8], buffer: &mut [u8]) -> Result<Answer, Refusal>
        ensures leaves { Leaves (step self.old.message frame.now buffer.old) buffer.old
            (record { state = self.new.message; answer = result }) buffer.new }
        ensures told { take_told result
            ≡ first_failing (take_tests self.old.message frame.now buffer.old) (take_values self.old.message frame.now buffer.old) }
    {
        if !self.fits() {
            return Err(Refusal::of(Refusal::STATE));
        }
        let Ok(frame) = <&[u8; 8]>::try_from(frame) else {
            return Err(Refusal::of(Refusal::FRAME));
        };
        if self.listens(frame[0]) {
            self.by_kind(frame, buffer)
        } else {
            Ok(Answer::Ignored)
        }
    }

    // Takes a frame of a NAD that is not ignored, by its kind.
    // Kept: a frame and a buffer in five, since `take` is lent the two and its clause `leaves` goes by them; no struct of both outlives one call.
    #[tactic(auto, using(crate::proofs::Steps::no_kinds))]
    fn by_kind(&mut self, frame: &[u8; 8], buffer: &mut [u8]) -> Result<Answer, Refusal>
        requires { (fits self.old.message ≡ true) × (listens self.old.message (frame_nad frame.now) ≡ true) }
        ensures { Leaves (step self.old.message frame.now buffer.old) buffer.old
            (record { state = self.new.message; answer = result }) buffer.new }
    {
        match frame[1] {
            1..=6 => Ok(self.single(frame, buffer)),
            16..=31 => Ok(self.first(frame, buffer)),
            32..=47 => self.next(frame, buffer),
            _ => Ok(Answer::Ignored),
        }
    }

    // A state that is not refused.
    fn fits(self) -> bool
        ensures { result ≡ fits self.message }
    {
        self.message.is_none_or(|message| message.fits())
    }

    // A frame with this NAD is not ignored for its NAD.
    fn listens(self, nad: u8) -> bool
        ensures { result ≡ listens self.message nad }
    {
        self.message.is_none_or(|message| nad == message.nad) && nad != 0
    }

    // Takes a single frame.
    fn single(&mut self, frame: &[u8; 8], buffer: &mut [u8]) -> Answer
        requires { frame_pci frame.now ≤ 6 }
        ensures { Leaves (kind_outcome single self.old.message frame.now buffer.old) buffer.old
            (record { state = self.new.message; answer = Ok result }) buffer.new }
    {
        let n = frame[1] as usize;
        if buffer.len() < n {
            return Answer::Ignored;
        }
        deliver(&frame[2..2 + n], buffer, 0);
        self.closed(Answer::Done(n as u16))
    }

    // Takes a first frame.
    fn first(&mut self, frame: &[u8; 8], buffer: &mut [u8]) -> Answer
        requires { (16 ≤ frame_pci frame.now) × (frame_pci frame.now ≤ 31) }
        ensures { Leaves (kind_outcome first self.old.message frame.now buffer.old) buffer.old
            (record { state = self.new.message; answer = Ok result }) buffer.new }
    {
        let length = 256 * (frame[1] as u16 - 16) + frame[2] as u16;
        if length < 7 || buffer.len() < length as usize {
            return Answer::Ignored;
        }
        deliver(&frame[3..8], buffer, 0);
        self.message = Some(Assembly {
            nad: frame[0],
            length,
            count: 5,
            counter: 1,
        });
        Answer::Started
    }

    // Takes a next frame of the open NAD.
    fn next(&mut self, frame: &[u8; 8], buffer: &mut [u8]) -> Result<Answer, Refusal>
        requires { fits self.old.message ≡ true }
        ensures { Leaves (next_outcome self.old.message frame.now buffer.old) buffer.old
            (record { state = self.new.message; answer = result }) buffer.new }
    {
        let Some(message) = self.message else {
            return Ok(Answer::Ignored);
        };
        if frame[1] != 32 + message.counter {
            return Ok(self.closed(Answer::Broken));
        }
        if buffer.len() < message.length as usize {
            return Err(Refusal::of(Refusal::BUFFER));
        }
        let n = message.bytes_due();
        deliver(&frame[2..2 + n as usize], buffer, message.count);
        Ok(self.reached(message, message.count + n))
    }

    // The state and the answer once n bytes of a message are there.
    fn reached(&mut self, message: Assembly, n: u16) -> Answer
        ensures { record { state = self.new.message; answer = Ok result } ≡ reached message n }
    {
        if n < message.length {
            self.message = Some(Assembly {
                count: n,
                counter: message.counter.wrapping_add(1) % 16,
                ..message
            });
            Answer::More
        } else {
            self.closed(Answer::Done(message.length))
        }
    }

    // Nothing is open any more, beside an answer.
    fn closed(&mut self, answer: Answer) -> Answer
        ensures state { self.new.message ≡ None }
        ensures same { result ≡ answer }
    {
        self.message = None;
        answer
    }
}

// Delivers bytes to a place of the buffer.
fn deliver(bytes: &[u8], buffer: &mut [u8], place: u16)
    requires { place + length bytes.now ≤ length buffer.old }
    ensures { buffer.new ≡ written buffer.old place bytes.now }
{
    let at = place as usize;
    buffer[at..at + bytes.len()].copy_from_slice(bytes);
}
