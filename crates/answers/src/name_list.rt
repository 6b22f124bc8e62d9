// The entries that scan for names: N and n.
use crate::cases::Print;
use crate::instead::{Instead, accepted};
use crate::lent::{Lent, MARKED_WORD, marked, untouched};
use crate::texts::{self, Place};
use std::io::Write;
use text::Text;

// The words of the 8,192 texts that are lent.
const WORDS: usize = 24_576;

// The text of three words, if its alphabet is a byte.
fn text_of(words: &[u64; 3]) -> Option<Text> {
    let [place, length, alphabet] = *words;
    Some(Text {
        place: place as usize,
        length: length as usize,
        alphabet: u8::try_from(alphabet).ok()?,
    })
}

// N: the names. n: where they stand in the reply. Which of the two, is the case's letter, and the reply its payload.
pub(crate) fn put_names(
    out: &mut impl Write,
    print: Print,
    reply: &[u8],
    lent: &mut Lent,
) -> Result<(), Instead> {
    let words = marked(&mut lent.words, WORDS, MARKED_WORD)?;
    let answer = entries::name_scan::scan_column_names(reply, words);
    let count = answer.count;
    let used = count.checked_mul(3).ok_or(Instead::Touched)?;
    untouched(words, used, MARKED_WORD)?;
    accepted(answer.refusal)?;
    write!(out, "OK n={count}")?;
    let (names, _) = words.as_chunks::<3>();
    for name in names.iter().take(count).filter_map(text_of) {
        match print {
            Print::Places => write!(out, " {}", Place(name))?,
            Print::Characters => {
                write!(
                    out,
                    " {}",
                    texts::characters(reply, 0, name, &mut lent.text)
                )?;
            }
        }
    }
    Ok(())
}
