// Answers cases: reads them from standard input and writes a line for each, as docs/ANSWERS.md says. The entries are those that
// other programs link: what is tested here is the library.
#![tactic(auto)]

mod cards;
mod cases;
mod column_list;
mod descriptions;
mod instead;
mod lent;
mod lists;
mod name_list;
mod payload;
mod records;
mod texts;
mod type_values;

use cases::{Case, Entry};
use instead::Instead;
use lent::Lent;
use lists::{Records, Replies};
use std::io;
use std::io::{BufReader, BufWriter, Read, Write};

// Answers a case: an entry is a function and an arm. No table of functions: they take other arguments, and `out` of any type. Writer, payload and what
// is lent are three things that nothing keeps together.
fn put_answer(out: &mut impl Write, case: Case, lent: &mut Lent) -> Result<(), Instead> {
    let payload = case.payload;
    match case.entry {
        Entry::Description(print) => descriptions::put_description(out, print, payload, lent),
        Entry::ShortList => descriptions::put_short_list(out, payload, lent),
        Entry::CodePoint => descriptions::put_with_code_point(out, payload, lent),
        Entry::Status => cards::put_status_alone(out, payload, lent),
        Entry::MessagePlace => cards::put_message_place(out, payload),
        Entry::Group => cards::put_group(out, payload, lent),
        Entry::Names(print) => name_list::put_names(out, print, payload, lent),
        Entry::MessageText => texts::put_message_text(out, payload, lent),
        Entry::NameText => texts::put_name_text(out, payload, lent),
        Entry::NamePart => texts::put_name_part(out, payload),
        Entry::SameCut => lists::put_same_cut::<Replies>(out, payload, lent),
        Entry::WidestRow => lists::put_widest_row::<Replies>(out, payload, lent),
        Entry::RecordsCut => lists::put_same_cut::<Records>(out, payload, lent),
        Entry::RecordsRow => lists::put_widest_row::<Records>(out, payload, lent),
    }
}

// The next case, read and answered; whether there was one: nothing of it is left to give.
fn put_next(
    input: &mut impl Read,
    out: &mut impl Write,
    room: &mut [u8],
    lent: &mut Lent,
) -> Result<bool, Instead> {
    let Some(case) = cases::next_case(input, room)? else {
        return Ok(false);
    };
    put_answer(out, case, lent)?;
    Ok(true)
}

// The rest of the line of a case. No other follows where the input ends, and after BAD: false.
fn end_line(out: &mut impl Write, answered: Result<bool, Instead>) -> io::Result<bool> {
    match answered {
        Ok(false) => return Ok(false),
        Ok(true) => writeln!(out)?,
        Err(Instead::Refusal(refusal)) => writeln!(out, "{refusal}")?,
        Err(Instead::Touched) => writeln!(out, "TOUCHED")?,
        Err(Instead::Bad) => {
            writeln!(out, "BAD")?;
            return Ok(false);
        }
        Err(Instead::Error(error)) => return Err(error),
    }
    Ok(true)
}

// Each case's line is out before the next case is read. With a bound, as std's readers have one: a loop is proved to end, and an input that is not
// known may never end.
fn put_all(
    input: &mut impl Read,
    out: &mut impl Write,
    room: &mut [u8],
    lent: &mut Lent,
) -> io::Result<()> {
    for _ in 0..u64::MAX {
        let answered = put_next(input, out, room, lent);
        let goes_on = end_line(out, answered)?;
        out.flush()?;
        if !goes_on {
            break;
        }
    }
    Ok(())
}

fn main(rt: HostRuntime) -> io::Result<()> {
    let alloc = rt.alloc();
    let mut input = BufReader::new(alloc, rt.reader())?;
    let mut out = BufWriter::new(alloc, io::writer(&rt))?;
    let mut room = vec![in alloc; 0u8; cases::LONGEST]?;
    let mut lent = Lent::new(alloc)?;
    put_all(&mut input, &mut out, &mut room, &mut lent)
}
