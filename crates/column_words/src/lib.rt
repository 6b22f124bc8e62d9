// A column's record in 22 words of 64 bits, for programs that cannot lend a list of records.
#![tactic(auto)]

ghost use Rattle.std.specs.Prelude.{◌≡◌, true, ◌≤◌, length};
ghost use Rattle.search.specs.Search.{over};
ghost use Rattle.column_words.specs.Words.{words_of};
ghost use Rattle.column_words.specs.Place.{column_get, column_at_place};
ghost use Rattle.column_words.specs.Columns.{numbers_fit, alphabets_fit, is_column, column_in, are_columns};

use types::ColumnMetadata;

pub const WORDS_PER_COLUMN: usize = 22;

// A column's words: number, type code and value, drda_type, length, nullable, precision, scale, CCSID, byte order; then name, label, base table
// and schema, each as place, length and alphabet.
pub type ColumnWords = [u64; WORDS_PER_COLUMN];

// A function, and no `From`: the record and the array are other crates' types, and `as_chunks` gives arrays, and no type of our own round one.
#[tactic(auto, unfolding(crate::specs::Words::words_of))]
#[inline(always)]
pub fn words_of(column: &ColumnMetadata) -> ColumnWords
    ensures { result ≡ words_of column.now }
{
    let ColumnMetadata {
        name,
        label,
        base_table_name,
        schema_name,
        ..
    } = *column;
    [
        column.number as u64,
        sqlda::type_code(column.db2_type) as u64,
        sqlda::type_value(column.db2_type),
        column.drda_type as u64,
        column.length as u64,
        u64::from(column.nullable),
        column.precision as u64,
        column.scale as u64,
        column.ccsid as u64,
        column::order_number(column.byte_order),
        name.place as u64,
        name.length as u64,
        name.alphabet as u64,
        label.place as u64,
        label.length as u64,
        label.alphabet as u64,
        base_table_name.place as u64,
        base_table_name.length as u64,
        base_table_name.alphabet as u64,
        schema_name.place as u64,
        schema_name.length as u64,
        schema_name.alphabet as u64,
    ]
}

// Writes a column's words at the front. No `From`: it writes over what is lent.
pub fn put_column_words(column: ColumnMetadata, words: &mut [u64])
    requires { 22 ≤ length words.old }
    ensures { words.new ≡ over (words_of column) words.old }
{
    column::put_values(&words_of(&column), words);
}

// No `TryFrom`: a list is tested once, and its columns are then read by place.
fn numbers_fit(words: &ColumnWords) -> bool
    ensures { result ≡ numbers_fit words.now 0 }
{
    (words[0] < 65536)
        & sqlda::is_type(words[1], words[2])
        & (words[3] < 256)
        & (words[4] < 65536)
        & (words[5] < 2)
        & (words[6] < 256)
        & (words[7] < 256)
        & (words[8] < 65536)
        & (words[9] < 2)
}

fn alphabets_fit(words: &ColumnWords) -> bool
    ensures { result ≡ alphabets_fit words.now 0 }
{
    (words[12] < 256) & (words[15] < 256) & (words[18] < 256) & (words[21] < 256)
}

// Whether words are those of a column.
#[tactic(auto, unfolding(crate::specs::Columns::is_column))]
pub fn is_column(words: &ColumnWords) -> bool
    ensures { result ≡ is_column words.now 0 }
{
    numbers_fit(words) & alphabets_fit(words)
}

// Whether words are those of columns and nothing else.
#[tactic(auto, using(crate::proofs::Chunks::words_left))]
pub fn are_columns(words: &[u64]) -> bool
    ensures { result ≡ are_columns words.now }
{
    let (columns, rest) = words.as_chunks::<WORDS_PER_COLUMN>();
    rest.is_empty() && columns.iter().all(|column| is_column(column))
}

// The column whose words they are.
#[tactic(auto, using(crate::proofs::Columns::fits_at), unfolding(crate::specs::Columns::column_in))]
pub fn column_at(words: &ColumnWords) -> ColumnMetadata
    requires { is_column words.now 0 ≡ true }
    ensures { result ≡ column_in words.now 0 }
{
    ColumnMetadata {
        number: words[0] as u16,
        db2_type: sqlda::type_with(words[1], words[2] as u16),
        drda_type: words[3] as u8,
        length: words[4] as u16,
        nullable: words[5] == 1,
        precision: words[6] as u8,
        scale: words[7] as u8,
        ccsid: words[8] as u16,
        byte_order: column::order_of(words[9]),
        name: column::text_from(words, 10),
        label: column::text_from(words, 13),
        base_table_name: column::text_from(words, 16),
        schema_name: column::text_from(words, 19),
    }
}

// The same, and a blank column where the words are no column's, as `column_in`: programs print what they were given, and have nothing to print for none.
#[tactic(auto, unfolding(crate::specs::Place::column_at_place))]
pub fn column_or_blank(words: &ColumnWords) -> ColumnMetadata
    ensures { result ≡ column_at_place words.now 0 }
{
    if is_column(words) {
        column_at(words)
    } else {
        column::blank_column()
    }
}

// The column at place `i`, if the words have one there.
pub fn column_get(words: &[u64], i: usize) -> Option<ColumnMetadata>
    ensures { result ≡ column_get words.now i }
{
    let (columns, _) = words.as_chunks::<WORDS_PER_COLUMN>();
    match columns.get(i) {
        Some(column) if is_column(column) => Some(column_at(column)),
        _ => None,
    }
}

// The same, and a blank column where there is none: a public function that could not fail still can't.
#[tactic(auto, unfolding(crate::specs::Place::column_at_place, crate::specs::Place::column_get))]
pub fn column_in(words: &[u64], i: usize) -> ColumnMetadata
    ensures { result ≡ column_at_place words.now i }
{
    column_get(words, i).unwrap_or_else(column::blank_column)
}
