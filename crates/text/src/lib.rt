// Texts of a reply: where they lie, and in which alphabet.
#![tactic(auto)]

ghost use Rattle.std.specs.Prelude.{◌&&◌, ◌≡◌, ◌+◌, ◌/◌, ◌%◌, ◌^◌, ◌<◌, ◌≤◌, ltb, eqb};
ghost use lib.ListN.{length};
ghost use Rattle.search.specs.Search.{each};
ghost use Rattle.codepage.specs.Page.{page037};
ghost use Rattle.codepage.specs.Blank.{is_blank};
ghost use Rattle.text.specs.Alphabet.{alphabet_number, alphabet_of};
ghost use Rattle.text.specs.Chars.{char_of, is_ascii, is_name_char, is_digit_of, is_name_of, is_blank_of};
ghost use Rattle.text.specs.Text.{empty_text, leading, kept, text_of};

// What characters bytes stand for: in ASCII themselves, also above 7F.
// A `match` at each method: two answers, and the alphabet is known at run time only.
#[derive(Clone, Copy, Debug, PartialEq, Eq)]
pub enum Alphabet {
    Ascii,
    Page037,
}

impl Alphabet {
    #[tactic(auto, unfolding(crate::specs::Chars::char_of))]
    pub fn character(self, byte: u8) -> u8
        ensures { result ≡ char_of page037 (alphabet_number self) byte }
    {
        match self {
            Alphabet::Ascii => byte,
            Alphabet::Page037 => codepage::ebcdic037_to_unicode(byte),
        }
    }

    fn is_name_char(self, byte: u8) -> bool
        ensures { result ≡ is_name_of page037 (alphabet_number self) byte }
    {
        is_name_char(self.character(byte))
    }

    #[tactic(auto, unfolding(crate::specs::Chars::char_of, codepage::specs::Blank::is_blank_in))]
    fn is_blank(self, byte: u8) -> bool
        ensures { result ≡ is_blank_of page037 (alphabet_number self) byte }
    {
        match self {
            Alphabet::Ascii => is_blank(byte),
            Alphabet::Page037 => codepage::is_blank_byte(byte),
        }
    }

    // By the byte, as `is_blank`: by its character, over many digits, it was measured twice as slow.
    #[tactic(auto, using(crate::proofs::Generated::digit_037), unfolding(crate::specs::Chars::char_of))]
    pub fn is_digit(self, byte: u8) -> bool
        ensures { result ≡ is_digit_of page037 (alphabet_number self) byte }
    {
        match self {
            Alphabet::Ascii => byte.is_ascii_digit(),
            Alphabet::Page037 => matches!(byte, 0xF0..=0xF9),
        }
    }
}

// From a text's number: the bytes of any alphabet but page 037 stand for themselves. Their characters are those of the number (proved:
// `same_characters`).
impl From<u8> for Alphabet {
    ghost from_gives = { λ number alphabet. alphabet ≡ alphabet_of number };

    fn from(number: u8) -> Self {
        if number == 2 {
            Alphabet::Page037
        } else {
            Alphabet::Ascii
        }
    }
}

impl From<Alphabet> for u8 {
    ghost from_gives = { λ alphabet number. number ≡ alphabet_number alphabet };

    fn from(alphabet: Alphabet) -> Self {
        match alphabet {
            Alphabet::Ascii => 1,
            Alphabet::Page037 => 2,
        }
    }
}

// Place and length of what trimming leaves; alphabet 0 is a generated name, 1 ASCII, 2 page 037. A number and no `Alphabet`: the words of a
// column may hold any byte there, which name text refuses above 2 and same cut takes.
#[derive(Clone, Copy, Debug, PartialEq, Eq)]
pub struct Text {
    pub place: usize,
    pub length: usize,
    pub alphabet: u8,
}

impl Text {
    // No `Default`, which would not say that it is the text of no bytes.
    pub fn empty() -> Self
        ensures { result ≡ empty_text }
    {
        Text {
            place: 0,
            length: 0,
            alphabet: u8::from(Alphabet::Ascii),
        }
    }
}

// A bit for each character, 64 to a number: whether it is a name character.
static NAME_CHARS: [u64; 4] = [0x03FF_0018_0000_0000, 0x07FF_FFFE_87FF_FFFF, 0, 0];

// By bits: in a loop over a name, a chain of tests would branch in ways that are hard to predict.
fn is_name_char(character: u8) -> bool
    ensures { result ≡ is_name_char character }
{
    (NAME_CHARS[(character / 64) as usize] >> (character % 64) as u64) % 2 == 1
}

// 1 for each character that trimming drops, else 0.
static BLANKS: [u8; 256] = [
    0x00, 0x00, 0x00, 0x00, 0x00, 0x00, 0x00, 0x00, 0x00, 0x01, 0x01, 0x01, 0x01, 0x01, 0x00, 0x00,
    0x00, 0x00, 0x00, 0x00, 0x00, 0x00, 0x00, 0x00, 0x00, 0x00, 0x00, 0x00, 0x00, 0x00, 0x00, 0x00,
    0x01, 0x00, 0x00, 0x00, 0x00, 0x00, 0x00, 0x00, 0x00, 0x00, 0x00, 0x00, 0x00, 0x00, 0x00, 0x00,
    0x00, 0x00, 0x00, 0x00, 0x00, 0x00, 0x00, 0x00, 0x00, 0x00, 0x00, 0x00, 0x00, 0x00, 0x00, 0x00,
    0x00, 0x00, 0x00, 0x00, 0x00, 0x00, 0x00, 0x00, 0x00, 0x00, 0x00, 0x00, 0x00, 0x00, 0x00, 0x00,
    0x00, 0x00, 0x00, 0x00, 0x00, 0x00, 0x00, 0x00, 0x00, 0x00, 0x00, 0x00, 0x00, 0x00, 0x00, 0x00,
    0x00, 0x00, 0x00, 0x00, 0x00, 0x00, 0x00, 0x00, 0x00, 0x00, 0x00, 0x00, 0x00, 0x00, 0x00, 0x00,
    0x00, 0x00, 0x00, 0x00, 0x00, 0x00, 0x00, 0x00, 0x00, 0x00, 0x00, 0x00, 0x00, 0x00, 0x00, 0x00,
    0x00, 0x00, 0x00, 0x00, 0x00, 0x01, 0x00, 0x00, 0x00, 0x00, 0x00, 0x00, 0x00, 0x00, 0x00, 0x00,
    0x00, 0x00, 0x00, 0x00, 0x00, 0x00, 0x00, 0x00, 0x00, 0x00, 0x00, 0x00, 0x00, 0x00, 0x00, 0x00,
    0x01, 0x00, 0x00, 0x00, 0x00, 0x00, 0x00, 0x00, 0x00, 0x00, 0x00, 0x00, 0x00, 0x00, 0x00, 0x00,
    0x00, 0x00, 0x00, 0x00, 0x00, 0x00, 0x00, 0x00, 0x00, 0x00, 0x00, 0x00, 0x00, 0x00, 0x00, 0x00,
    0x00, 0x00, 0x00, 0x00, 0x00, 0x00, 0x00, 0x00, 0x00, 0x00, 0x00, 0x00, 0x00, 0x00, 0x00, 0x00,
    0x00, 0x00, 0x00, 0x00, 0x00, 0x00, 0x00, 0x00, 0x00, 0x00, 0x00, 0x00, 0x00, 0x00, 0x00, 0x00,
    0x00, 0x00, 0x00, 0x00, 0x00, 0x00, 0x00, 0x00, 0x00, 0x00, 0x00, 0x00, 0x00, 0x00, 0x00, 0x00,
    0x00, 0x00, 0x00, 0x00, 0x00, 0x00, 0x00, 0x00, 0x00, 0x00, 0x00, 0x00, 0x00, 0x00, 0x00, 0x00,
];

// By the table, at every blank the same few steps: by comparisons or as a `matches!`, some of the eight were measured up to twice as slow.
fn is_blank(character: u8) -> bool
    ensures { result ≡ is_blank character }
{
    BLANKS[character as usize] == 1
}

// Bytes and alphabet stay apart, here and in generated, identifier and column_name: as one struct the name scan took up to 5 % more instructions,
// 9 % where the struct was no reference, or its functions were inlined; and an `impl Model` is refused where it is `Copy` and has a lifetime.
// One line over `all`, as generated's and sqlca's: the function that serves any test is std's.
pub fn all_name_chars(bytes: &[u8], alphabet: Alphabet) -> bool
    ensures { result ≡ each (is_name_of page037 (alphabet_number alphabet)) bytes.now }
{
    bytes.iter().all(|byte| alphabet.is_name_char(*byte))
}

#[tactic(auto, unfolding(crate::specs::Chars::is_ascii))]
pub fn is_ascii(bytes: &[u8]) -> bool
    ensures { result ≡ is_ascii bytes.now }
{
    bytes.iter().all(u8::is_ascii)
}

#[tactic(auto, unfolding(crate::specs::Text::leading))]
pub fn leading_blanks(bytes: &[u8], alphabet: Alphabet) -> usize
    ensures { result ≡ leading (is_blank_of page037 (alphabet_number alphabet)) bytes.now }
{
    let blanks = bytes.iter().take_while(|byte| alphabet.is_blank(**byte));
    blanks.count()
}

// By `position`, though its proof needs an answer: by `take_while` and `count` the description took 5 % more instructions in page 037.
pub fn kept_bytes(bytes: &[u8], alphabet: Alphabet) -> usize
    ensures { result ≡ kept (is_blank_of page037 (alphabet_number alphabet)) bytes.now }
{
    let mut from_end = bytes.iter().rev();
    match from_end.position(|byte| !alphabet.is_blank(*byte)) {
        Some(blanks) => bytes.len() - blanks,
        None => 0,
    }
}

// The text of the `length` bytes from `start` on: by their place, also where they are trimmed, since a text is a place in the reply. One that is
// not ASCII has a byte above 7F, which trimming keeps: it is never empty.
#[tactic(auto, using(crate::proofs::Bytes::leading_same, crate::proofs::Bytes::kept_same, crate::proofs::Decode::decode_none, crate::proofs::Decode::decode_ascii, crate::proofs::Decode::decode_page, codepage::proofs::Pages::rearranged_037, codepage::proofs::Pages::blanks_037))]
pub fn decode_text(reply: &[u8], start: usize, length: usize) -> Text
    requires { start + length ≤ lib.ListN.length reply.now }
    ensures { result ≡ text_of page037 reply.now start length }
{
    if length == 0 {
        return Text::empty();
    }
    let bytes = &reply[start..start + length];
    if is_ascii(bytes) {
        return Text {
            place: start,
            length,
            alphabet: Alphabet::Ascii.into(),
        };
    }
    let first = leading_blanks(bytes, Alphabet::Page037);
    let end = kept_bytes(bytes, Alphabet::Page037);
    Text {
        place: start + first,
        length: end - first,
        alphabet: Alphabet::Page037.into(),
    }
}
