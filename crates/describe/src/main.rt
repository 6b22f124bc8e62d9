// Describes a reply: reads it from standard input, and writes its status and a table of its columns, or why it is refused.
#![tactic(auto)]

mod status;
mod table;
mod texts;

use column_words::WORDS_PER_COLUMN;
use std::io;
use std::io::{BufWriter, Write};
use texts::Texts;

// All that is written of a reply. It has at most 4,095 columns (`reading_few`), so the list is never too short.
fn put_description(out: &mut impl Write, texts: &mut Texts, words: &mut [u64]) -> io::Result<()> {
    let answer = match sqldard_words::parse_sqldard_data(texts.reply, words) {
        Ok(answer) => answer,
        Err(refusal) => return writeln!(out, "{}", status::Refused(refusal)),
    };
    status::put_status(out, texts, answer.card)?;
    let (columns, _) = words.as_chunks::<WORDS_PER_COLUMN>();
    table::put_table(out, texts, columns.get(..answer.count).unwrap_or(&[]))
}

fn main(rt: HostRuntime) -> io::Result<()> {
    let alloc = rt.alloc();
    // Room for a reply, and one byte more, so that a longer one is told.
    let mut room = vec![in alloc; 0u8; 65_537]?;
    let mut words = vec![in alloc; 0u64; 4096 * WORDS_PER_COLUMN]?;
    let Ok(reply) = input::fill(&mut rt.reader(), &mut room) else {
        // Nothing goes to standard output then: what came is not the reply.
        return eprintln!(rt; "describe: a read of the reply failed");
    };
    let mut out = BufWriter::new(alloc, io::writer(&rt))?;
    put_description(&mut out, &mut Texts::new(alloc, reply)?, &mut words)?;
    out.flush()
}
