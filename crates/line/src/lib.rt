// A line that is put together text by text: lent, with how much of it is used, or with room of its own for `N` bytes. What finds no room is cut
// off, so no caller has to know beforehand that its text fits. An array with what is used of it, as a `Vec` or a `String` is on the heap; and no
// Display: of a `String` alone does `write!` promise what it prints.
#![tactic(auto)]

ghost use Rattle.std.specs.Prelude.{◌≡◌, ◌-◌, [], length};
ghost use Rattle.decimal.specs.Decimal.{decimal_of};
ghost use Rattle.line.specs.Line.{with_text, Appended, gap, blanks};

use std::marker::Model;

// Puts a text behind the first `used` bytes of a lent line, and says how many are written then. A `used` past the line's end is the line's end.
pub fn append(line: &mut [u8], used: usize, bytes: &[u8]) -> usize
    ensures { Appended line.old used bytes.now line.new result }
{
    let start = used.min(line.len());
    let count = bytes.len().min(line.len() - start);
    let end = start + count;
    line[start..end].copy_from_slice(&bytes[..count]);
    end
}

pub fn append_decimal(line: &mut [u8], used: usize, number: u64) -> usize
    ensures { Appended line.old used (decimal_of number) line.new result }
{
    append(line, used, decimal::digits_of(number).as_bytes())
}

fn append_blanks(line: &mut [u8], used: usize, count: usize) -> usize
    ensures { Appended line.old used (blanks count) line.new result }
{
    let start = used.min(line.len());
    let end = start + count.min(line.len() - start);
    line[start..end].fill(b' ');
    end
}

// Ends a cell whose text was written from `start` on: blanks up to the column's width, and two more.
pub fn append_padded(line: &mut [u8], used: usize, start: usize, width: usize) -> usize
    ensures { Appended line.old used (gap width (used - start)) line.new result }
{
    let missing = width.saturating_sub(used.saturating_sub(start));
    let next = append_blanks(line, used, 2);
    append_blanks(line, next, missing)
}

// The first `used` bytes are written. Both are public, to be lent to `append` and what other crates put on top of it.
#[derive(Debug, Drop)]
pub struct Line<const N: usize> {
    pub bytes: [u8; N],
    pub used: usize,
}

// Clauses see the bytes that are written.
impl<const N: usize> Model for Line<N> {
    ghost use Rattle.std.specs.Prelude.{ℕ, List, ◌≤◌, take};

    ghost Value = { List ℕ };

    ghost view = { λ line. take line.used line.bytes };

    ghost invariant = { λ line. line.used ≤ N };
}

impl<const N: usize> Line<N> {
    pub fn new() -> Self
        ensures { result ≡ [] }
    {
        Line {
            bytes: [0; N],
            used: 0,
        }
    }

    pub fn len(&self) -> usize
        ensures { result ≡ length self.now }
    {
        self.as_bytes().len()
    }

    pub fn as_bytes(&self) -> &[u8]
        ensures { result.now ≡ self.now }
    {
        &self.bytes[..self.used]
    }

    pub fn append(&mut self, text: &[u8])
        ensures { self.new ≡ with_text N self.old text.now }
    {
        self.used = append(&mut self.bytes, self.used, text);
    }

    pub fn append_decimal(&mut self, number: u64)
        ensures { self.new ≡ with_text N self.old (decimal_of number) }
    {
        self.used = append_decimal(&mut self.bytes, self.used, number);
    }

    // Ends a cell whose text was written from `start` on: blanks up to the column's width, and two more.
    pub fn pad(&mut self, start: usize, width: usize)
        ensures { self.new ≡ with_text N self.old (gap width (length self.old - start)) }
    {
        self.used = append_padded(&mut self.bytes, self.used, start, width);
    }
}
