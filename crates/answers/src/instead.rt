// What a line has instead of an answer: every entry tells it before it writes anything.
use outcome::RefusalNumbers;
use std::io::Write;
use std::{fmt, io};

#[derive(Debug, Drop)]
pub(crate) enum Instead {
    // The case is malformed; its line is the last one.
    Bad,
    Refusal(RefusalNumbers),
    // More was written to what was lent than the answer says.
    Touched,
    // A read or a write failed, which ends the program.
    Error(io::Error),
}

impl From<io::Error> for Instead {
    fn from(error: io::Error) -> Self {
        Instead::Error(error)
    }
}

pub(crate) fn accepted(refusal: RefusalNumbers) -> Result<(), Instead> {
    if refusal.is_refused() {
        Err(Instead::Refusal(refusal))
    } else {
        Ok(())
    }
}

// `OK` and the answer, where nothing is refused.
pub(crate) fn put_ok(
    out: &mut impl Write,
    refusal: RefusalNumbers,
    answer: impl fmt::Display + Copy,
) -> Result<(), Instead> {
    accepted(refusal)?;
    write!(out, "OK {answer}")?;
    Ok(())
}
