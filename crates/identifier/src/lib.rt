// Texts that may be the name of a column: what the name scan takes.
#![tactic(auto)]

ghost use Rattle.std.specs.Prelude.{◌≡◌};
ghost use lib.ListN.{length};
ghost use Rattle.codepage.specs.Page.{page037};
ghost use Rattle.codepage.specs.Blank.{is_blank};
ghost use Rattle.text.specs.Alphabet.{alphabet_number};
ghost use Rattle.text.specs.Chars.{chars};
ghost use Rattle.text.specs.Text.{trimmed_of};
ghost use Rattle.identifier.specs.Identifier.{is_identifier, is_identifier_at};

use text::Alphabet;

// Bytes and alphabet stay apart: see text's `all_name_chars`.
// The length is tested first: a long string is left before its characters are looked at.
#[tactic(auto, using(crate::proofs::Identifiers::identifier_is))]
fn is_identifier_in(bytes: &[u8], alphabet: Alphabet) -> bool
    ensures { result ≡ is_identifier (chars page037 (alphabet_number alphabet) bytes.now) }
{
    if bytes.is_empty() || 128 < bytes.len() {
        return false;
    }
    text::all_name_chars(bytes, alphabet) && !generated::is_generated(bytes, alphabet)
}

// Of characters that stand for themselves.
#[tactic(auto, using(crate::proofs::Identifiers::identifier_same))]
pub fn is_identifier(bytes: &[u8]) -> bool
    ensures { result ≡ is_identifier bytes.now }
{
    is_identifier_in(bytes, Alphabet::Ascii)
}

// Only the blanks at the ends and what is between are looked at. No `trimmed` in text: it would serve here alone, as `decode_text` needs the
// place, and generated tests the first byte before it looks for the end.
#[tactic(auto, using(crate::proofs::Identifiers::end_inside, crate::proofs::Identifiers::trimmed_blank, crate::proofs::Identifiers::trimmed_none, crate::proofs::Identifiers::trimmed_some))]
fn is_identifier_trimmed(bytes: &[u8], alphabet: Alphabet) -> bool
    ensures { result ≡ is_identifier (trimmed_of is_blank (chars page037 (alphabet_number alphabet) bytes.now)) }
{
    let first = text::leading_blanks(bytes, alphabet);
    if bytes.len() <= first {
        return false;
    }
    let end = text::kept_bytes(bytes, alphabet);
    if end <= first {
        return false;
    }
    is_identifier_in(&bytes[first..end], alphabet)
}

// What follows the blocks of spaces in front: in ASCII, trimming drops them anyhow. By blocks and no `trim_ascii_start`, as the
// compiler compares many bytes of a block at once.
#[tactic(auto, using(crate::proofs::Spaces::spaces_less))]
fn after_spaces(bytes: &[u8]) -> &[u8]
    ensures { trimmed_of is_blank (chars page037 1 result.now) ≡ trimmed_of is_blank (chars page037 1 bytes.now) }
{
    let mut left = bytes;
    while let Some(rest) = left.strip_prefix(&[b' '; 64]) {
        left = rest;
    }
    left
}

// Whether the text of a string may be a name, by its bytes. It is tested in both alphabets, and only where the two answers differ is it asked whether
// all bytes are ASCII.
#[tactic(auto, using(crate::proofs::Identifiers::at_first, crate::proofs::Identifiers::at_second, crate::proofs::Identifiers::at_both))]
pub fn is_identifier_string(bytes: &[u8]) -> bool
    ensures { result ≡ is_identifier_at page037 bytes.now 0 (length bytes.now) }
{
    let in_ascii = is_identifier_trimmed(after_spaces(bytes), Alphabet::Ascii);
    let in_page = is_identifier_trimmed(bytes, Alphabet::Page037);
    if in_ascii == in_page {
        return in_page;
    }
    if text::is_ascii(bytes) {
        in_ascii
    } else {
        in_page
    }
}
