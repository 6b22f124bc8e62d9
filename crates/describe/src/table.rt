// The table of columns: a line of heads, and a line for each column, in cells as wide as what stands in them.
// A name of Db2 has at most 128 bytes. A longer text is put whole, and moves the rest of its own line only.
use crate::texts::Texts;
use column_words::ColumnWords;
use line::Line;
use output::Characters;
use std::io;
use std::io::Write;
use text::Text;
use types::ColumnMetadata;

const WIDEST: usize = 128;

// The cells of numbers in a row: a type has at most 17 characters, and is at most 128 wide.
const LINE: usize = 192;

// How wide the cells are that hold texts and types. The others are as wide as their heads, the last needs no width.
#[derive(Clone, Copy)]
struct Widths {
    name: usize,
    db2_type: usize,
    label: usize,
    schema: usize,
}

// How many characters a column's text has, one a byte; `-` stands for none. A generated name is counted, and written later: a width is asked before.
fn text_width(column: ColumnMetadata, text: Text) -> usize {
    if text.alphabet == 0 {
        let digits = decimal::digits_of(u64::from(column.number) + 1);
        return 3 + digits.as_bytes().len();
    }
    text.length.max(1)
}

fn type_width(column: ColumnMetadata) -> usize {
    let mut line = Line::<LINE>::new();
    let name = output::type_name(column.db2_type);
    cells::append_type(&mut line, name.as_bytes(), column.db2_type);
    line.len()
}

fn wider(width: usize, other: usize) -> usize {
    width.max(other.min(WIDEST))
}

impl Widths {
    // The widths with one column more: none falls.
    fn with(self, column: ColumnMetadata) -> Self {
        Widths {
            name: wider(self.name, text_width(column, column.name)),
            db2_type: wider(self.db2_type, type_width(column)),
            label: wider(self.label, text_width(column, column.label)),
            schema: wider(self.schema, text_width(column, column.schema_name)),
        }
    }

    // Of a list of columns; no cell is less wide than its head.
    fn of(columns: &[ColumnWords]) -> Self {
        let heads = Widths {
            name: 4,
            db2_type: 4,
            label: 5,
            schema: 6,
        };
        columns.iter().fold(heads, |widths, words| {
            widths.with(column_words::column_or_blank(words))
        })
    }
}

fn put_heads(out: &mut impl Write, widths: Widths) -> io::Result<()> {
    let Widths {
        name,
        db2_type,
        label,
        schema,
    } = widths;
    write!(out, "number  {:<name$}  {:<db2_type$}  ", "name", "type")?;
    writeln!(
        out,
        "length  nullable  CCSID  {:<label$}  {:<schema$}  table",
        "label", "schema"
    )
}

// A text and the gap behind it, two blanks at least.
fn put_text_cell(
    out: &mut impl Write,
    texts: &mut Texts,
    column: ColumnMetadata,
    text: Text,
    width: usize,
) -> io::Result<()> {
    let gap = width.saturating_sub(text_width(column, text));
    write!(out, "{}{:gap$}  ", texts.of_column(column.number, text), "")
}

// From its type to its CCSID.
fn put_cells(out: &mut impl Write, column: ColumnMetadata, width: usize) -> io::Result<()> {
    let mut line = Line::<LINE>::new();
    let name = output::type_name(column.db2_type);
    cells::append_cells(&mut line, name.as_bytes(), column, width);
    write!(out, "{}", Characters(line.as_bytes()))
}

// Its number as `cells` lays it out, whose promise no format string has.
fn put_number(out: &mut impl Write, column: ColumnMetadata) -> io::Result<()> {
    let mut line = Line::<LINE>::new();
    cells::append_number(&mut line, column);
    write!(out, "{}", Characters(line.as_bytes()))
}

fn put_row(
    out: &mut impl Write,
    texts: &mut Texts,
    column: ColumnMetadata,
    widths: Widths,
) -> io::Result<()> {
    put_number(out, column)?;
    put_text_cell(out, texts, column, column.name, widths.name)?;
    put_cells(out, column, widths.db2_type)?;
    put_text_cell(out, texts, column, column.label, widths.label)?;
    put_text_cell(out, texts, column, column.schema_name, widths.schema)?;
    writeln!(
        out,
        "{}",
        texts.of_column(column.number, column.base_table_name)
    )
}

// The size, and the table of the columns of a list; none where there are none.
pub(crate) fn put_table(
    out: &mut impl Write,
    texts: &mut Texts,
    columns: &[ColumnWords],
) -> io::Result<()> {
    crate::status::put_size(out, columns.len(), texts.reply.len())?;
    if columns.is_empty() {
        return Ok(());
    }
    let widths = Widths::of(columns);
    put_heads(out, widths)?;
    for words in columns {
        put_row(out, texts, column_words::column_or_blank(words), widths)?;
    }
    Ok(())
}
