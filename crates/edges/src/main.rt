// Runs the cases of document 01 that have no letter, and a reply for each of its wrong turns: a line for each. The gate compares this with
// the file stdout, which has what document 01 says. The replies are in the file stdin, which tests/replies/make makes: for each, what it
// shows and its bytes, with a byte for the length in front of both.
#![tactic(auto)]

ghost use Rattle.std.specs.Prelude.{◌<◌, length, IfSome};

use line::Line;
use outcome::RefusalNumbers;
use output::Characters;
use std::io;
use std::io::{BufWriter, Write};
use types::ColumnMetadata;

// A column's name between quotes, so that its blanks are seen, and its type.
fn put_column(out: &mut impl Write, reply: &[u8], column: ColumnMetadata) -> io::Result<()> {
    let mut buffer = [0u8; 64];
    let count = column_name::name_text(reply, column, &mut buffer).unwrap_or(0);
    let name = Characters(buffer.get(..count).unwrap_or(b"?"));
    let mut line = Line::<32>::new();
    let type_name = output::type_name(column.db2_type);
    cells::append_type(&mut line, type_name.as_bytes(), column.db2_type);
    let db2_type = Characters(line.as_bytes());
    write!(out, "\"{name}\" {db2_type}")
}

// The columns of a reply, a comma between; or that there are none, or why.
fn put_reply(out: &mut impl Write, reply: &[u8]) -> io::Result<()> {
    let mut columns = [column::blank_column(); 16];
    let answer = match sqldard::parse_sqldard_data(reply, &mut columns) {
        Ok(answer) => answer,
        Err(refusal) => return write!(out, "{}", RefusalNumbers::from(refusal)),
    };
    if answer.count == 0 {
        return write!(out, "no columns");
    }
    for column in columns.iter().take(answer.count) {
        if 0 < column.number {
            write!(out, ", ")?;
        }
        put_column(out, reply, *column)?;
    }
    Ok(())
}

// The two scores that document 01 gives.
fn put_scores(out: &mut impl Write) -> io::Result<()> {
    let of_three = scan::exact_score(1, 3, 2);
    let of_four = scan::exact_score(1, 4, 3);
    writeln!(out, "score of one named, two generated: {of_three}")?;
    writeln!(out, "score of one named, three generated: {of_four}")
}

// As many bytes as the first says, and those behind them; none where there are fewer.
fn counted(bytes: &[u8]) -> Option<(&[u8], &[u8])>
    ensures { IfSome result (λ parts. length parts.1.now < length bytes.now) }
{
    let (count, rest) = bytes.split_first()?;
    rest.split_at_checked(usize::from(*count))
}

// What a case shows is written as it stands there.
fn put_cases(out: &mut impl Write, cases: &[u8]) -> io::Result<()> {
    let mut cases = cases;
    while let Some((shows, rest)) = counted(cases) {
        let Some((reply, rest)) = counted(rest) else {
            break;
        };
        out.write_all(shows)?;
        write!(out, ": ")?;
        put_reply(out, reply)?;
        writeln!(out)?;
        cases = rest;
    }
    Ok(())
}

fn main(rt: HostRuntime) -> io::Result<()> {
    let mut buffer = [0u8; 4096];
    let cases = input::fill(&mut rt.reader(), &mut buffer)?;
    let mut out = BufWriter::new(rt.alloc(), io::writer(&rt))?;
    put_scores(&mut out)?;
    put_cases(&mut out, cases)?;
    out.flush()
}
