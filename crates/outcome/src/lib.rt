// Why an entry refuses a call, and the numbers that say so to programs in other languages.
#![tactic(auto)]

ghost use Rattle.std.specs.Prelude.{not, ◌≡◌, eqb, take, drop, IfOk};
ghost use Rattle.outcome.specs.Bytes.{bytes_refusal};
ghost use Rattle.outcome.specs.Refusal.{refusal_of, refusal_from, refusal_in, is_refused, in_numbers};

use std::fmt;

// EmptyReply to UnexpectedCodePoint are the Rust's refusals; the others are the project's own limits.
#[derive(Clone, Copy, Debug, PartialEq, Eq)]
pub enum Refusal {
    EmptyReply,
    // The reply ends early.
    BufferTooShort { expected: usize, actual: usize },
    InvalidSqlcard,
    // The code point that the reply came with.
    UnexpectedCodePoint(u16),
    ReplyTooLong,
    // What was lent is too short: how many elements are needed.
    RoomTooShort { needed: usize },
    OutsideReply,
    // A row without a widest: the number of its first Blob, Clob, DbClob or Xml column.
    LargeObject { number: u16 },
}

// A longer reply is `ReplyTooLong`.
pub const MOST_BYTES: usize = 65_536;

// The `length` bytes of a reply from `place` on, for the entries that are given a part of a reply that was read before.
#[tactic(auto, unfolding(crate::specs::Bytes::bytes_refusal))]
#[inline(always)]
pub fn part_of(reply: &[u8], place: usize, length: usize) -> Result<&[u8], Refusal>
    ensures refuses { refusal_in result ≡ bytes_refusal reply.now place length }
    ensures gives { IfOk result (λ part. part.now ≡ take length (drop place reply.now)) }
{
    if reply.len() > MOST_BYTES {
        return Err(Refusal::ReplyTooLong);
    }
    reply
        .get(place..)
        .and_then(|rest| rest.get(..length))
        .ok_or(Refusal::OutsideReply)
}

// A refusal's number and its values in document 01's order: `count` of them, the others 0. Number 0 is none. C has no enum with values, so a number
// stands for one, and a count beside them.
#[repr(C)]
#[derive(Clone, Copy, Debug, PartialEq, Eq)]
pub struct RefusalNumbers {
    pub number: u8,
    pub count: u8,
    pub first: usize,
    pub second: usize,
}

impl RefusalNumbers {
    // A number that comes with no values: 0 where nothing is refused.
    pub fn alone(number: u8) -> Self
        ensures { result ≡ refusal_from number 0 0 0 }
    {
        Self::with(number, 0, 0, 0)
    }

    fn with(number: u8, count: u8, first: usize, second: usize) -> Self
        ensures { result ≡ refusal_from number count first second }
    {
        RefusalNumbers {
            number,
            count,
            first,
            second,
        }
    }

    pub fn is_refused(self) -> bool
        ensures { result ≡ not (eqb self.number 0) }
    {
        self.number != 0
    }
}

impl From<Refusal> for RefusalNumbers {
    ghost from_gives = { λ refusal numbers. numbers ≡ in_numbers (refusal_of refusal) };

    fn from(refusal: Refusal) -> Self {
        match refusal {
            Refusal::EmptyReply => Self::alone(1),
            Refusal::BufferTooShort { expected, actual } => Self::with(2, 2, expected, actual),
            Refusal::InvalidSqlcard => Self::alone(3),
            Refusal::UnexpectedCodePoint(point) => Self::with(4, 1, point as usize, 0),
            Refusal::ReplyTooLong => Self::alone(5),
            Refusal::RoomTooShort { needed } => Self::with(6, 1, needed, 0),
            Refusal::OutsideReply => Self::alone(7),
            Refusal::LargeObject { number } => Self::with(8, 1, number as usize, 0),
        }
    }
}

// The numbers of what an entry answers: number 0 where it gives something.
pub fn refusal_of<T>(answer: &Result<T, Refusal>) -> RefusalNumbers
    ensures { result ≡ in_numbers (refusal_in answer.now) }
{
    match answer {
        Ok(_) => RefusalNumbers::alone(0),
        Err(refusal) => RefusalNumbers::from(*refusal),
    }
}

pub fn is_refused<T>(answer: &Result<T, Refusal>) -> bool
    ensures { result ≡ is_refused (refusal_in answer.now) }
{
    refusal_of(answer).is_refused()
}

// `E` and the number, then its values, a blank before each.
impl fmt::Display for RefusalNumbers {
    fn fmt<W: fmt::Write>(&self, f: &mut fmt::Formatter<W>) -> fmt::Result {
        let number = self.number;
        let first = self.first;
        let second = self.second;
        match self.count {
            0 => write!(f, "E{number}"),
            1 => write!(f, "E{number} {first}"),
            _ => write!(f, "E{number} {first} {second}"),
        }
    }
}
