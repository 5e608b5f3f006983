// The answers before they are printed: a text, and the numbers that stand in it.
use crate::texts::Text;
use cluster::values::Array;
use master::byte::ByteAnswer;
use master::send::MessageAnswer;
use master::tick::TickAnswer;
use refusal::Refusal;
use transport::reassembly::Answer;

// An answer before it is printed: its text, and the numbers that stand in it; the bytes of one that has bytes are on the desk.
#[derive(Clone, Copy)]
pub(crate) struct Reply {
    pub(crate) text: Text,
    pub(crate) numbers: Option<[u32; 2]>,
}

impl Reply {
    // A text alone, or with the bytes that are on the desk.
    pub(crate) fn alone(text: Text) -> Reply {
        Reply {
            text,
            numbers: None,
        }
    }

    // A text with a number.
    pub(crate) fn of(text: Text, n: u32) -> Reply {
        Reply::two(text, n, 0)
    }

    // A text with two numbers.
    fn two(text: Text, n: u32, second: u32) -> Reply {
        Reply {
            text,
            numbers: Some([n, second]),
        }
    }

    // A refusal of any call but a row of values.
    fn refused(refusal: Refusal) -> Reply {
        Reply::refused_by(refusal, refusal.tells_place(false))
    }

    // A refusal: its number, and its place where that is told.
    fn refused_by(refusal: Refusal, tells_place: bool) -> Reply {
        let n = refusal.number as u32;
        if tells_place {
            return Reply::two(Text::REFUSED_AT, n, (refusal.place % 65536) as u32);
        }
        Reply::of(Text::REFUSED, n)
    }

    // The line is none of the script's.
    pub(crate) fn malformed() -> Reply {
        Reply::alone(Text::MALFORMED)
    }

    // Kept: a match on the answer in each of these; by `map_or_else` it would stand in a closure.

    // The table check.
    pub(crate) fn check(answer: Result<(), Refusal>) -> Reply {
        Reply::done(Text::ACCEPTED, answer)
    }

    // A call that gives nothing: its text, or the refusal.
    pub(crate) fn done(text: Text, answer: Result<(), Refusal>) -> Reply {
        match answer {
            Ok(()) => Reply::alone(text),
            Err(refusal) => Reply::refused(refusal),
        }
    }

    // A row of values.
    // Kept: beside `done`, since of a refused row the place is told.
    pub(crate) fn row(answer: Result<(), Refusal>) -> Reply {
        match answer {
            Ok(()) => Reply::alone(Text::WRITTEN),
            Err(refusal) => Reply::refused_by(refusal, refusal.tells_place(true)),
        }
    }

    // A call that gives a number: its text with the number, or the refusal.
    pub(crate) fn number<N: Into<u32>>(text: Text, answer: Result<N, Refusal>) -> Reply {
        match answer {
            Ok(n) => Reply::of(text, n.into()),
            Err(refusal) => Reply::refused(refusal),
        }
    }

    // An array read.
    pub(crate) fn read_array(answer: Result<Array, Refusal>) -> Reply {
        match answer {
            Ok(array) => Reply::alone(Text::BYTES[array.count % 9]),
            Err(refusal) => Reply::refused(refusal),
        }
    }

    // A tick.
    pub(crate) fn tick(answer: Result<TickAnswer, Refusal>) -> Reply {
        match answer {
            Ok(TickAnswer::Waiting) => Reply::alone(Text::WAITING),
            Ok(TickAnswer::Idle) => Reply::alone(Text::IDLE),
            Ok(TickAnswer::Silent) => Reply::alone(Text::SILENT),
            Ok(TickAnswer::Opened(protected)) => Reply::of(Text::OPEN, protected as u32),
            Err(refusal) => Reply::refused(refusal),
        }
    }

    // A byte in.
    pub(crate) fn byte(answer: Result<ByteAnswer, Refusal>) -> Reply {
        match answer {
            Ok(ByteAnswer::More) => Reply::alone(Text::MORE),
            Ok(ByteAnswer::Success) => Reply::alone(Text::SUCCESS),
            Ok(ByteAnswer::Failure) => Reply::alone(Text::FAILURE),
            Ok(ByteAnswer::Response(_)) => Reply::alone(Text::RESPONSE),
            Err(refusal) => Reply::refused(refusal),
        }
    }

    // A status reading.
    pub(crate) fn status(answer: Result<u16, Refusal>) -> Reply {
        match answer {
            Ok(word) => Reply::two(Text::STATUS, word as u32 / 256, word as u32),
            Err(refusal) => Reply::refused(refusal),
        }
    }

    // The message state.
    pub(crate) fn message(answer: Result<MessageAnswer, Refusal>) -> Reply {
        match answer {
            Ok(MessageAnswer::None) => Reply::alone(Text::NONE),
            Ok(MessageAnswer::Sending) => Reply::alone(Text::SENDING),
            Ok(MessageAnswer::Completed) => Reply::alone(Text::COMPLETED),
            Ok(MessageAnswer::Failed) => Reply::alone(Text::FAILED),
            Err(refusal) => Reply::refused(refusal),
        }
    }

    // A frame taken by the reassembler.
    pub(crate) fn take(answer: Result<Answer, Refusal>) -> Reply {
        match answer {
            Ok(Answer::Ignored) => Reply::alone(Text::IGNORED),
            Ok(Answer::Started) => Reply::alone(Text::STARTED),
            Ok(Answer::More) => Reply::alone(Text::MORE),
            Ok(Answer::Done(length)) => Reply::of(Text::DONE, length as u32),
            Ok(Answer::Broken) => Reply::alone(Text::BROKEN),
            Err(refusal) => Reply::refused(refusal),
        }
    }

    // A judgement of the schedules.
    pub(crate) fn judge(answer: Result<Option<u16>, Refusal>) -> Reply {
        match answer {
            Ok(None) => Reply::alone(Text::HOLDS),
            Ok(Some(e)) => Reply::of(Text::SHORT, e as u32),
            Err(refusal) => Reply::refused(refusal),
        }
    }
}
