// The refusal numbers of documents 01 and 02 by name, and the refusal that every refusing answer carries.
#![tactic(auto)]

ghost use Rattle.std.specs.Prelude.{◌≡◌};
ghost use Rattle.refusal.specs.Numbers.{numbers, refused, refused_at, tells_place};

// The number says which row of the papers' tables applies. The place is the one that the paper gives with it, and 0 where
// it gives none.
// Kept: the numbers are those of the documents, the script and C, and `of` and `at` take every number; an enum in their place would ask more of
// callers, and beside them each refusal would stand twice. A place of 0 is none by `refused` and `refused_at` (specs/Numbers).
#[derive(Clone, Copy)]
pub struct Refusal {
    pub number: u8,
    pub place: usize,
}

impl Refusal {
    // The table check finds a fault.
    pub const TABLE: u8 = 1;
    // The frame buffer is not 8F bytes, or a message buffer is shorter than its open message.
    pub const BUFFER: u8 = 2;
    // The state does not fit the table.
    pub const STATE: u8 = 3;
    // No such signal, schedule, or frame in a list.
    pub const UNKNOWN: u8 = 4;
    // A write to a signal that the master does not publish.
    pub const NOT_PUBLISHED: u8 = 5;
    // A scalar call on an array, or the reverse.
    pub const KIND: u8 = 6;
    // A value of 2^width or more, or an array of another length.
    pub const VALUE: u8 = 7;
    // A byte in with no transfer open.
    pub const NO_TRANSFER: u8 = 8;
    // A message length of 0 or above 4,095.
    pub const MESSAGE_LENGTH: u8 = 9;
    // A send while a message is being sent.
    pub const SENDING: u8 = 10;
    // An identifier above 63, wrong parity, or a number of bytes that no frame has.
    pub const FRAME: u8 = 11;
    // Rows of unequal length.
    pub const ROWS: u8 = 12;
    // A tick or a bit time of 0 or above 65,535.
    pub const TIME: u8 = 13;

    // A refusal with no place.
    pub fn of(number: u8) -> Refusal
        ensures { result ≡ refused number }
    {
        Refusal { number, place: 0 }
    }

    // A refusal at a place.
    pub fn at(number: u8, place: usize) -> Refusal
        ensures { result ≡ refused_at number place }
    {
        Refusal { number, place }
    }

    // Whether the place is told with the number, by a row of values or by any other call.
    pub fn tells_place(self, row: bool) -> bool
        ensures { result ≡ tells_place row self.number }
    {
        match self.number {
            Refusal::TABLE => true,
            Refusal::UNKNOWN..=Refusal::VALUE => row,
            _ => false,
        }
    }

    // All numbers, in the order of the papers.
    pub fn numbers() -> [u8; 13]
        ensures { result ≡ numbers }
    {
        [
            Refusal::TABLE,
            Refusal::BUFFER,
            Refusal::STATE,
            Refusal::UNKNOWN,
            Refusal::NOT_PUBLISHED,
            Refusal::KIND,
            Refusal::VALUE,
            Refusal::NO_TRANSFER,
            Refusal::MESSAGE_LENGTH,
            Refusal::SENDING,
            Refusal::FRAME,
            Refusal::ROWS,
            Refusal::TIME,
        ]
    }
}
