// Generated names: COL and digits, as the reader itself names a column without a name.
#![tactic(auto)]

ghost use Rattle.std.specs.Prelude.{◌≡◌};
ghost use Rattle.search.specs.Search.{each};
ghost use Rattle.codepage.specs.Page.{page037};
ghost use Rattle.text.specs.Alphabet.{alphabet_number};
ghost use Rattle.text.specs.Chars.{chars, is_digit_of};
ghost use Rattle.text.specs.Text.{trimmed};
ghost use Rattle.text.specs.Generated.{is_generated, decoded};

use text::Alphabet;

// One line over `all`, as text's `all_name_chars`: the function that serves any test is std's.
fn all_digits(bytes: &[u8], alphabet: Alphabet) -> bool
    ensures { result ≡ each (is_digit_of page037 (alphabet_number alphabet)) bytes.now }
{
    bytes.iter().all(|byte| alphabet.is_digit(*byte))
}

// Whether a text's characters are COL and one or more digits, as the reader itself names a column without a name. Bytes and alphabet
// stay apart: see text's `all_name_chars`.
#[tactic(auto, using(text::proofs::Generated::generated_is))]
pub fn is_generated(bytes: &[u8], alphabet: Alphabet) -> bool
    ensures { result ≡ is_generated (chars page037 (alphabet_number alphabet) bytes.now) }
{
    let [c, o, l, digits @ ..] = bytes else {
        return false;
    };
    alphabet.character(*c) == b'C'
        && alphabet.character(*o) == b'O'
        && alphabet.character(*l) == b'L'
        && !digits.is_empty()
        && all_digits(digits, alphabet)
}

// The same of bytes of page 037, trimmed: here, as most names end at the first test, and blanks at the end are looked for only after a C.
#[tactic(auto, using(text::proofs::Bytes::leading_same, text::proofs::Bytes::kept_same, crate::proofs::Quick::leading_inside, crate::proofs::Quick::trimmed_short, crate::proofs::Quick::trimmed_other, crate::proofs::Quick::trimmed_bounds, crate::proofs::Quick::trimmed_text))]
fn is_generated_trimmed(bytes: &[u8]) -> bool
    ensures { result ≡ is_generated (chars page037 2 (trimmed page037 bytes.now)) }
{
    let first = text::leading_blanks(bytes, Alphabet::Page037);
    if bytes.len() - first <= 3 {
        return false;
    }
    if Alphabet::Page037.character(bytes[first]) != b'C' {
        return false;
    }
    let end = text::kept_bytes(bytes, Alphabet::Page037);
    is_generated(&bytes[first..end], Alphabet::Page037)
}

// The same of the text of a string, by its bytes. It need not be decoded: COL and digits of ASCII are all ASCII, and a C of page 037 is not.
pub fn is_generated_string(bytes: &[u8]) -> bool
    ensures { result ≡ is_generated (decoded page037 bytes.now) }
{
    is_generated(bytes, Alphabet::Ascii) || is_generated_trimmed(bytes)
}
