// Candidates for names: strings of the reply by their 16-bit length, whatever they stand in. They are found one at a time, with five in view.
#![tactic(auto)]

ghost use Rattle.std.specs.Prelude.{ℕ, Some, None, false, ◌≡◌, ◌+◌, ◌≤◌, ◌<◌, length, get_or};
ghost use Rattle.std.specs.Option.{ForSome};
ghost use Rattle.std.specs.Iterator.{item_count};
ghost use Rattle.text.specs.Text.{bytes_of};
ghost use Rattle.candidates.specs.Candidates.{same_text, repeats, is_candidate, is_near_repeat, kept_at, candidates};

use field::ByteOrder;
use text::{Alphabet, Text};

// A text's bytes, those of them that lie in the reply.
#[inline(always)]
fn bytes_of(reply: &[u8], text: Text) -> &[u8]
    ensures { result.now ≡ bytes_of reply.now text }
{
    let rest = reply.get(text.place..).unwrap_or(&[]);
    rest.get(..text.length).unwrap_or(rest)
}

// Whether two texts of ASCII are equal. Here and in the next two the reply stands beside its texts: a text is a place in it, and who compares
// holds both.
#[tactic(auto, unfolding(crate::specs::Candidates::same_text))]
#[inline(always)]
pub fn same_text(reply: &[u8], a: Text, b: Text) -> bool
    ensures { result ≡ same_text reply.now a b }
{
    bytes_of(reply, a) == bytes_of(reply, b)
}

// Whether a text is equal to another, if there is one.
#[inline(always)]
pub fn repeats(reply: &[u8], text: Text, other: Option<Text>) -> bool
    ensures { result ≡ repeats reply.now text other }
{
    other.is_some_and(|other| same_text(reply, text, other))
}

// Whether a candidate repeats the last one kept, less than 8 bytes on.
fn is_near_repeat(reply: &[u8], last: Option<Text>, text: Text) -> bool
    ensures { result ≡ is_near_repeat reply.now last text }
{
    last.is_some_and(|last| {
        text.place.saturating_sub(last.place) < 8 && same_text(reply, text, last)
    })
}

// The candidate whose length stands at `offset`, if it is one and is kept. The offset moves at each call: a struct of it and the reply, which could
// hold that two bytes stand there, would be made anew for each.
#[tactic(auto, unfolding(crate::specs::Candidates::kept_at, crate::specs::Candidates::is_kept, crate::specs::Candidates::is_candidate), using(std::proofs::Common::tests))]
fn kept_at(reply: &[u8], last: Option<Text>, offset: usize) -> Option<Text>
    requires { offset + 2 ≤ length reply.now }
    ensures { result ≡ kept_at reply.now last offset }
{
    let place = offset + 2;
    let length = field::u16_at(reply, offset, ByteOrder::BigEndian) as usize;
    let text = Text {
        place,
        length,
        alphabet: Alphabet::Ascii.into(),
    };
    let is_candidate = 2 <= length
        && length <= reply.len() - place
        && identifier::is_identifier(&reply[place..place + length]);
    if is_candidate && !is_near_repeat(reply, last, text) {
        Some(text)
    } else {
        None
    }
}

// Whether a length of 2 to 128 stands at `offset`. Where not, there is no candidate, and nothing else is read. By the two bytes: this is asked
// at every byte of a reply. name_run's function of this name has only the shape in common: it asks of another layout.
#[tactic(auto, unfolding(crate::specs::Candidates::is_candidate, identifier::specs::Identifier::is_identifier), using(crate::proofs::Steps::length_at, std::proofs::Common::tests, std::proofs::lemmas::Grind::common_steps))]
fn may_start(reply: &[u8], offset: usize) -> bool
    requires { offset + 2 ≤ length reply.now }
    ensures { result ≡ false → is_candidate reply.now offset ≡ false }
{
    reply[offset] == 0 && matches!(reply[offset + 1], 2..=128)
}

// The candidates of a reply, in order: where the search goes on, and the last one kept.
#[derive(Clone, Copy, Debug, PartialEq, Eq)]
pub struct Candidates<'a> {
    reply: &'a [u8],
    last: Option<Text>,
    next: usize,
    ghost in_reply: { next ≤ length reply.now },
}

impl<'a> Candidates<'a> {
    ghost use Rattle.candidates.specs.View.{left};

    #[tactic(auto, unfolding(crate::specs::Candidates::candidates))]
    pub fn of(reply: &'a [u8]) -> Self
        ensures left { left result ≡ candidates reply.now }
        ensures same_reply { result.reply.now ≡ reply.now }
    {
        Candidates {
            reply,
            last: None,
            next: 0,
        }
    }
}

impl<'a> Iterator for Candidates<'a> {
    ghost use Rattle.candidates.specs.View.{left, YieldsCandidate};

    type Item = Text;

    ghost next_gives = { YieldsCandidate };

    ghost remaining = { item_count left };

    #[tactic(auto, using(crate::proofs::Steps::none_at, crate::proofs::Steps::none_kept, crate::proofs::Steps::one_kept, crate::proofs::Steps::none_left, crate::proofs::Steps::next_none_at, crate::proofs::Steps::next_none_kept, crate::proofs::Steps::next_none_left))]
    fn next(&mut self) -> Option<Text> {
        let reply = self.reply;
        let end = reply.len();
        // No `find_map`: it was tried, and is longer. Its closure needs a requires and an ensures, and the range would have to tell its position.
        for offset in self.next..end.saturating_sub(1) {
            if may_start(reply, offset) {
                if let Some(text) = kept_at(reply, self.last, offset) {
                    self.last = Some(text);
                    self.next = offset + 1;
                    return Some(text);
                }
            }
        }
        self.next = end;
        None
    }
}

// Five candidates that follow each other, and those after them. Where there is none, there is none after it. All lie in the reply.
// What works on them is inlined, here and in `listing`: called, the search for 1323 names takes 1.11 times the instructions.
#[derive(Clone, Copy, Debug, PartialEq, Eq)]
pub struct View<'a> {
    pub texts: [Option<Text>; 5],
    rest: Candidates<'a>,
    pub ghost within: { (k : ℕ) → ForSome (get_or texts k None) (λ text. text.place + text.length ≤ length rest.reply.now) },
    pub ghost kept: { ForSome (get_or texts 4 None) (λ text. rest.last ≡ Some text) },
}

impl<'a> View<'a> {
    ghost use Rattle.candidates.specs.View.{next_candidate, text_at, reply_of, behind, in_view};

    // The view of a reply's first candidates.
    #[tactic(auto, using(crate::proofs::Steps::left_next), unfolding(crate::specs::View::in_view, crate::specs::View::behind))]
    pub fn of(reply: &'a [u8]) -> Self
        ensures in_view { in_view result ≡ candidates reply.now }
        ensures same_reply { reply_of result ≡ reply.now }
    {
        let mut rest = Candidates::of(reply);
        // No `array::from_fn`: std's tells what each call gave, but not where the last one left `rest`, and what follows the five stays unproved.
        let texts = [
            rest.next(),
            rest.next(),
            rest.next(),
            rest.next(),
            rest.next(),
        ];
        View { texts, rest }
    }

    #[inline(always)]
    pub fn reply(&self) -> &'a [u8]
        ensures { result.now ≡ reply_of self.now }
    {
        self.rest.reply
    }

    // The first candidate in view.
    #[inline(always)]
    pub fn first(&self) -> Option<Text>
        ensures { result ≡ text_at self.now 0 }
    {
        self.texts[0]
    }

    // One candidate on.
    #[tactic(auto, using(crate::proofs::Steps::left_next), unfolding(crate::specs::View::in_view, crate::specs::View::behind))]
    #[inline(always)]
    pub fn shift(&mut self)
        ensures in_view { in_view self.new ≡ behind self.old }
        ensures moves { (k : ℕ) → k < 4 → text_at self.new k ≡ text_at self.old (k + 1) }
        ensures finds { next_candidate (reply_of self.old) self.old.rest.last self.old.rest.next ≡ record { text = text_at self.new 4; next = self.new.rest.next } }
        ensures same_reply { reply_of self.new ≡ reply_of self.old }
    {
        // Looked for first: the others need not wait in memory until it is found.
        let found = self.rest.next();
        let [_, second, third, fourth, fifth] = self.texts;
        self.texts = [second, third, fourth, fifth, found];
    }
}
