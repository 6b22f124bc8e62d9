// Strings at a position of a reply. They have a 16-bit big-endian length, whatever the byte order of numbers.
// Where the reply ends early, the error is how many bytes were expected: a number, as the definitions have it. Of a pair it is what there is of the
// pair, whose `next` is that number.
#![tactic(auto)]

ghost use Rattle.std.specs.Prelude.{◌≡◌, ◌≤◌, IfOk};
ghost use Rattle.strings.specs.Strings.{IsRead, IsReadOrCut, IsStringAt, no_string, strings_end, chosen, pair_at};

use field::ByteOrder;

// A string's bytes lie at `place`, `length` of them, and `next` is past it. No slice in it: answers give places.
#[derive(Clone, Copy, Debug, PartialEq, Eq)]
pub struct StringRead {
    pub place: usize,
    pub length: usize,
    pub next: usize,
}

// A walker holds a reply and a position in it, as document 01 asks. Its one method takes it apart and calls a function of slice and number. The
// readers below take both one by one: each goes on where another ended.
#[derive(Clone, Copy, Debug, PartialEq, Eq)]
pub struct Walker<'a> {
    pub reply: &'a [u8],
    pub offset: usize,
}

impl<'a> Walker<'a> {
    pub fn new(reply: &'a [u8], offset: usize) -> Walker<'a>
        ensures { (result.reply ≡ reply.entry) × (result.offset ≡ offset) }
    {
        Walker { reply, offset }
    }

    pub fn string(self) -> Result<StringRead, usize>
        ensures at { IsStringAt self.entry.reply.now self.entry.offset result }
        ensures short { IfOk result (λ string. string.length ≤ 65535) }
    {
        string_at(self.reply, self.offset)
    }
}

// None, where a group is not there: such a string stands in replies too, so it is no Option; and no `Default`, as what is past it is given.
pub fn no_string(next: usize) -> StringRead
    ensures { result ≡ no_string next }
{
    StringRead {
        place: 0,
        length: 0,
        next,
    }
}

#[tactic(auto, unfolding(crate::specs::Strings::string_at, crate::specs::Strings::string_end))]
fn string_at(reply: &[u8], offset: usize) -> Result<StringRead, usize>
    ensures at { IsStringAt reply.now offset result }
    ensures short { IfOk result (λ string. string.length ≤ 65535) }
{
    let end = reply.len();
    // One test where strings follow one another: two take 1.03 times the instructions of a name scan.
    if end < 2 || end - 2 < offset {
        return Err(if end < offset { offset } else { offset + 2 });
    }
    let length = field::u16_at(reply, offset, ByteOrder::BigEndian) as usize;
    let place = offset + 2;
    let next = place + length;
    if end < next {
        return Err(next);
    }
    Ok(StringRead {
        place,
        length,
        next,
    })
}

// The string at a position: what every group of strings is read by.
pub fn read_string(reply: &[u8], offset: usize) -> Result<StringRead, usize>
    ensures at { IsStringAt reply.now offset result }
    ensures short { IfOk result (λ string. string.length ≤ 65535) }
{
    Walker::new(reply, offset).string()
}

// Past `count` strings. Inlined, as `read_pair`: descriptors with an extension take 0.94 times the instructions. A `for`, which says no more than
// `try_fold` would.
#[tactic(auto, using(crate::proofs::Strings::strings_stay, crate::proofs::Strings::strings_more, crate::proofs::Strings::strings_early, crate::proofs::Strings::strings_done, crate::proofs::Strings::string_next))]
#[inline(always)]
pub fn skip_strings(reply: &[u8], offset: usize, count: usize) -> Result<usize, usize>
    ensures { IsRead reply.now (strings_end count reply.now offset) (λ next. next ≡ strings_end count reply.now offset) result }
{
    if reply.len() < offset {
        return Err(offset);
    }
    let mut next = offset;
    for _ in 0..count {
        next = read_string(reply, next)?.next;
    }
    Ok(next)
}

// Of two strings, m and s, the first that has bytes; `next` is past both.
#[tactic(auto, using(crate::proofs::Strings::chosen_first, crate::proofs::Strings::chosen_second))]
pub fn choose(m: StringRead, s: StringRead) -> StringRead
    ensures { result ≡ chosen m s }
{
    if m.length == 0 {
        s
    } else {
        StringRead { next: s.next, ..m }
    }
}

// The pair of strings at a position; as an error the first of them where it has bytes and the second is cut off, else none, and in `next` how many
// bytes were expected.
#[tactic(auto, using(crate::proofs::Strings::pair_is, crate::proofs::Strings::pair_early, crate::proofs::Strings::pair_last, crate::proofs::Strings::pair_unread, crate::proofs::Strings::string_unread))]
#[inline(always)]
pub fn read_pair(reply: &[u8], offset: usize) -> Result<StringRead, StringRead>
    ensures { IsReadOrCut reply.now (strings_end 2 reply.now offset) (pair_at reply.now offset) result }
{
    let m = match read_string(reply, offset) {
        Ok(m) => m,
        Err(expected) => return Err(no_string(expected)),
    };
    match read_string(reply, m.next) {
        Ok(s) => Ok(choose(m, s)),
        Err(expected) => Err(choose(m, no_string(expected))),
    }
}
