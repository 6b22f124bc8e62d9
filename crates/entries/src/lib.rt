// The entries for programs in other languages: the functions of the static library. Numbers, slices of numbers and structs with C's layout
// cross the boundary; no function asks anything of its caller. Each has the name of what it hands on to: these are document 01's entries.
#![tactic(auto)]

pub mod description;
pub mod lists;
pub mod name_scan;
pub mod status;
pub mod texts;

ghost use Rattle.std.specs.Prelude.{[], ◌∷◌, ◌≡◌, false, None, unwrap_or, MatchResult};
ghost use Rattle.std.specs.Result.{result_unwrap_or};
ghost use Rattle.outcome.specs.Refusal.{accepted, in_numbers, refusal_in, refusal_of};
ghost use Rattle.sqlcard.specs.Card.{success_card};
ghost use Rattle.entries.specs.Refused.{no_group};

use outcome::{Refusal, RefusalNumbers};
use plan::Sqldard;
use sqlcard::{Group, SqlCard, StatusRead};

// The answers as C, which has no `Result`, takes them: a refusal is numbers, and beside it stands what is given, or what counts as nothing.

// How many columns were written, 22 words each. Where the refusal's number is not 0, it is 0, and the card is that for success.
#[repr(C)]
#[derive(Clone, Copy, Debug, PartialEq, Eq)]
pub struct SqldardResult {
    pub refusal: RefusalNumbers,
    pub card: SqlCard,
    pub count: usize,
}

// Where a call is refused, the card is that for success.
#[repr(C)]
#[derive(Clone, Copy, Debug, PartialEq, Eq)]
pub struct SqlcardResult {
    pub refusal: RefusalNumbers,
    pub card: SqlCard,
}

// The length is how many bytes the group takes, 0 where it is refused.
#[repr(C)]
#[derive(Clone, Copy, Debug, PartialEq, Eq)]
pub struct GroupResult {
    pub refusal: RefusalNumbers,
    pub card: SqlCard,
    pub length: usize,
}

// How many elements were written, or the sum that is the widest row; 0 where the call is refused.
#[repr(C)]
#[derive(Clone, Copy, Debug, PartialEq, Eq)]
pub struct CountResult {
    pub refusal: RefusalNumbers,
    pub count: usize,
}

// Whether rows are cut alike; no where the call is refused.
#[repr(C)]
#[derive(Clone, Copy, Debug, PartialEq, Eq)]
pub struct CutResult {
    pub refusal: RefusalNumbers,
    pub same: bool,
}

// A part of the reply; 0 and 0 where it has no bytes, and where it is refused.
#[repr(C)]
#[derive(Clone, Copy, Debug, PartialEq, Eq)]
pub struct PartResult {
    pub refusal: RefusalNumbers,
    pub place: usize,
    pub length: usize,
}

// What an answer says of a refusal: number 0 where there is none.
fn refusal_numbers<T>(answer: &Result<T, Refusal>) -> RefusalNumbers
    ensures { result ≡ in_numbers (refusal_in answer.now) }
{
    match answer {
        Ok(_) => RefusalNumbers::alone(0),
        Err(refusal) => RefusalNumbers::from(*refusal),
    }
}

impl From<Result<Sqldard, Refusal>> for SqldardResult {
    ghost from_gives = { λ answer result. MatchResult answer
        (λ given. result ≡ record { refusal = in_numbers accepted; card = given.card; count = given.count })
        (λ refusal. result ≡ record { refusal = in_numbers (refusal_of refusal); card = success_card; count = 0 }) };

    // A `match`, as below, where it is said why.
    fn from(answer: Result<Sqldard, Refusal>) -> Self {
        match answer {
            Ok(given) => SqldardResult {
                refusal: RefusalNumbers::alone(0),
                card: given.card,
                count: given.count,
            },
            Err(refusal) => SqldardResult {
                refusal: refusal.into(),
                card: SqlCard::success(),
                count: 0,
            },
        }
    }
}

// The card for success, a quick path: inlined, its stores are joined with another arm's and read back in other widths, 6 ns of a null status.
#[inline(never)]
fn success() -> SqlCard
    ensures { result ≡ success_card }
{
    SqlCard::success()
}

impl<'a> From<Result<Option<StatusRead<'a>>, Refusal>> for SqlcardResult {
    ghost from_gives = { λ answer result. (result.refusal ≡ in_numbers (refusal_in answer)) × (result.card ≡ unwrap_or (result_unwrap_or answer None) success_card) };

    // A quick path: each arm makes its card where it is answered. From a Result of cards any status took 16 ns more.
    fn from(answer: Result<Option<StatusRead<'a>>, Refusal>) -> Self {
        match answer {
            Ok(Some(status)) => SqlcardResult {
                refusal: RefusalNumbers::alone(0),
                card: status.card(),
            },
            Ok(None) => SqlcardResult {
                refusal: RefusalNumbers::alone(0),
                card: success(),
            },
            Err(refusal) => SqlcardResult {
                refusal: RefusalNumbers::from(refusal),
                card: success(),
            },
        }
    }
}

impl From<Result<Group, Refusal>> for GroupResult {
    ghost from_gives = { λ answer result. (result.refusal ≡ in_numbers (refusal_in answer)) × (result.card ≡ (result_unwrap_or answer no_group).card) × (result.length ≡ (result_unwrap_or answer no_group).length) };

    // With `unwrap_or` the card for success is made first, and then copied or not: 38 instructions more of a null group.
    fn from(answer: Result<Group, Refusal>) -> Self {
        match answer {
            Ok(Group { card, length }) => GroupResult {
                refusal: RefusalNumbers::alone(0),
                card,
                length,
            },
            Err(refusal) => GroupResult {
                refusal: RefusalNumbers::from(refusal),
                card: SqlCard::success(),
                length: 0,
            },
        }
    }
}

impl From<Result<usize, Refusal>> for CountResult {
    ghost from_gives = { λ answer result. (result.refusal ≡ in_numbers (refusal_in answer)) × (result.count ≡ result_unwrap_or answer 0) };

    fn from(answer: Result<usize, Refusal>) -> Self {
        CountResult {
            refusal: refusal_numbers(&answer),
            count: answer.unwrap_or(0),
        }
    }
}

// Of one shape with the last one; but C has other names for what they hold, so they are two structs, and one `impl` would need a trait that fills them.
impl From<Result<bool, Refusal>> for CutResult {
    ghost from_gives = { λ answer result. (result.refusal ≡ in_numbers (refusal_in answer)) × (result.same ≡ result_unwrap_or answer false) };

    fn from(answer: Result<bool, Refusal>) -> Self {
        CutResult {
            refusal: refusal_numbers(&answer),
            same: answer.unwrap_or(false),
        }
    }
}
