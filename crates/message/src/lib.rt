// Messages of a status record: which alphabet they are in, and whether they have a text.
#![tactic(auto)]

ghost use Rattle.std.specs.Prelude.{Bool, not, ◌≡◌, ◌≤◌, ℕ, length, ltb};
ghost use Rattle.search.specs.Search.{count};
ghost use Rattle.codepage.specs.Page.{page037};
ghost use Rattle.codepage.specs.Blank.{is_blank};
ghost use Rattle.message.specs.Squeezed.{after, is_gap};
ghost use Rattle.message.specs.Message.{is_printable, is_separator, others, is_ascii_message, is_ascii, message_char, has_text};

use text::Alphabet;

// How many bytes are looked at together.
const BLOCK: usize = 128;

// By its range, as the definition: `is_ascii_graphic` leaves the blank out.
pub fn is_printable(byte: u8) -> bool
    ensures { result ≡ is_printable byte }
{
    matches!(byte, 0x20..=0x7E)
}

pub fn is_separator(byte: u8) -> bool
    ensures { result ≡ is_separator byte }
{
    matches!(byte, 0x00 | 0xFF)
}

// How many bytes of a block pass a test: so few that they fit 8 bits, and that many bytes are counted at once. `filter` and `count`, which
// counts in 64 bits, take ten times the instructions.
fn count_in<F: Fn(u8) -> bool>(block: &[u8], test: F) -> u8
    requires block_len_bound { length block.now ≤ 128 }
    requires callable { F.IsAlwaysCallable test }
    ensures { (p : ℕ → Bool) → ((byte : ℕ) (passed : Bool) → F.post test byte passed → passed ≡ p byte) → result ≡ count p block.now }
{
    let mut passed = 0;
    for byte in block {
        passed += u8::from(test(*byte));
    }
    passed
}

// Both counts of a block, in one pass: with a pass for each (`count_in`) a block took 18 instructions more. By a `for`: that the counts fit 8 bits
// is its invariant, for which a `fold` has no place.
#[derive(Clone, Copy)]
struct Counted {
    printables: u8,
    others: u8,
}

fn count_block(block: &[u8]) -> Counted
    requires block_len_bound { length block.now ≤ 128 }
    ensures { (result.printables ≡ count is_printable block.now) × (result.others ≡ others block.now) }
{
    let mut printables = 0;
    let mut others = 0;
    for byte in block {
        printables += u8::from(is_printable(*byte));
        others += u8::from(!is_separator(*byte));
    }
    Counted { printables, others }
}

#[tactic(auto, unfolding(crate::specs::Message::is_ascii_message), using(crate::proofs::Blocks::count_split, crate::proofs::Blocks::count_most, crate::proofs::Blocks::count_none))]
pub fn is_ascii_message(bytes: &[u8]) -> bool
    requires { length bytes.now ≤ 65536 }
    ensures { result ≡ is_ascii_message bytes.now }
{
    let mut printables = 0;
    let mut others = 0;
    for block in bytes.chunks(BLOCK) {
        let counted = count_block(block);
        printables += usize::from(counted.printables);
        others += usize::from(counted.others);
    }
    others > 0 && printables * 100 / others >= 80
}

// The bytes of a message, and their alphabet.
#[derive(Clone, Copy, Debug, PartialEq, Eq)]
pub struct Message<'a> {
    pub bytes: &'a [u8],
    pub alphabet: Alphabet,
    pub ghost bounded: { length bytes.now ≤ 65536 },
    pub ghost decided: { is_ascii alphabet ≡ is_ascii_message bytes.now },
}

impl<'a> Message<'a> {
    // The bound is asked here, and the type has it from then on: a string has it by its length, an entry tests it.
    pub fn new(bytes: &'a [u8]) -> Message<'a>
        requires { length bytes.now ≤ 65536 }
        ensures { result.bytes ≡ bytes.entry }
    {
        let alphabet = if is_ascii_message(bytes) {
            Alphabet::Ascii
        } else {
            Alphabet::Page037
        };
        Message { bytes, alphabet }
    }

    // The character of a byte of it.
    #[tactic(auto, unfolding(crate::specs::Message::message_char))]
    pub fn character(self, byte: u8) -> u8
        ensures { result ≡ message_char page037 (is_ascii self.entry.alphabet) byte }
    {
        match self.alphabet {
            Alphabet::Ascii if is_printable(byte) => byte,
            Alphabet::Page037 if !is_separator(byte) => codepage::ebcdic037_to_unicode(byte),
            _ => 0x20,
        }
    }

    // Whether that character is a blank. By bytes: no table is asked for.
    #[tactic(auto, using(crate::proofs::Ascii::blank_ascii, crate::proofs::Ascii::blank_page))]
    pub fn is_blank(self, byte: u8) -> bool
        ensures { result ≡ is_blank (message_char page037 (is_ascii self.entry.alphabet) byte) }
    {
        match self.alphabet {
            Alphabet::Ascii => (byte == 0x20) | !is_printable(byte),
            Alphabet::Page037 => is_separator(byte) | codepage::is_blank_byte(byte),
        }
    }

    // Whether a block has a character that is no blank. Its length is asked here and of both counts: a type for what `chunks` gives would be made anew
    // for each block.
    fn has_character(self, block: &[u8]) -> bool
        requires block_len_bound { length block.now ≤ 128 }
        ensures { result ≡ ltb 0 (count (λ byte. not (is_blank (message_char page037 (is_ascii self.entry.alphabet) byte))) block.now) }
    {
        count_in(block, |byte| !self.is_blank(byte)) > 0
    }

    // Whether its text is not empty: stops at the first block with a character.
    pub fn has_text(self) -> bool
        ensures { result ≡ has_text page037 self.entry.bytes.now }
    {
        self.bytes
            .chunks(BLOCK)
            .any(|block| self.has_character(block))
    }
}

// Where a character of a text stands: behind none yet, right behind another, or behind blanks that follow one.
// `Nothing` is one of three states, and not none of something: so no `Option`.
#[derive(Clone, Copy, Debug, PartialEq, Eq)]
pub enum Behind {
    Nothing,
    Character,
    Blanks,
}

impl Behind {
    // Where the next character stands. Blanks at the front are no run: none of them is written.
    pub fn after(self, blank: bool) -> Self
        ensures { result ≡ after blank self }
    {
        match self {
            _ if !blank => Behind::Character,
            Behind::Nothing => Behind::Nothing,
            Behind::Character | Behind::Blanks => Behind::Blanks,
        }
    }

    // Whether blanks stand between a character and the one before it.
    pub fn is_gap(self) -> bool
        ensures { result ≡ is_gap self }
    {
        matches!(self, Behind::Blanks)
    }
}
