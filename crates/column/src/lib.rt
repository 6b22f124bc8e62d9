// A column as its descriptor gives it, in numbers, and the record that these numbers stand for.
#![tactic(auto)]

ghost use Rattle.std.specs.Prelude.{◌≡◌, not, ◌&&◌, ◌++◌, ◌+◌, ◌<◌, ◌≤◌, eqb, length, get_or, drop};
ghost use Rattle.search.specs.Search.{pick};
ghost use Rattle.codepage.specs.Page.{page037};
ghost use Rattle.text.specs.Generated.{is_generated, decoded, is_generated_text};
ghost use Rattle.column.specs.Column.{string_text, name_text, StringsInside, blank_column};
ghost use Rattle.column.specs.Sqldagrp.{sqldagrp_at};
ghost use Rattle.column.specs.Numbers.{order_number, order_of, text_from, numbers_of, Fits, column_of};

use field::ByteOrder;
use strings::StringRead;
use text::Text;
use types::{ColumnMetadata, Db2Type};

// The numbers of SQLDAGRP; of precision and scale the low 8 bits.
#[derive(Clone, Copy, Debug, PartialEq, Eq)]
pub struct Sqldagrp {
    pub precision: u8,
    pub scale: u8,
    pub raw_length: u64,
    pub sql_type: u16,
    pub ccsid: u16,
}

// One reader for both kinds of descriptor.
pub fn read_sqldagrp(reply: &[u8], offset: usize, order: ByteOrder) -> Sqldagrp
    requires { offset + 16 ≤ length reply.now }
    ensures { result ≡ sqldagrp_at order reply.now offset }
{
    let precision = field::u16_at(reply, offset, order);
    let scale = field::u16_at(reply, offset + 2, order);
    Sqldagrp {
        precision: (precision % 256) as u8,
        scale: (scale % 256) as u8,
        raw_length: field::u64_at(reply, offset + 4, order),
        sql_type: field::u16_at(reply, offset + 12, order),
        ccsid: field::u16_at(reply, offset + 14, order),
    }
}

// What a descriptor says: its numbers as they stand in the reply, where its strings lie, and what is past it. Length 0
// where there is no string, and no `Option`: such a string stands in replies too.
#[derive(Clone, Copy, Debug, PartialEq, Eq)]
pub struct Described {
    pub sql_type: u16,
    pub raw_length: u64,
    pub precision: u8,
    pub scale: u8,
    pub ccsid: u16,
    pub byte_order: ByteOrder,
    pub name: StringRead,
    pub label: StringRead,
    pub base_table_name: StringRead,
    pub schema_name: StringRead,
    pub next: usize,
}

// How many columns a run of descriptors has, and how many of them have names that are not generated. compact_table's
// `Table` and others are two numbers too, of other meanings.
#[derive(Clone, Copy, Debug, PartialEq, Eq)]
pub struct Run {
    pub count: usize,
    pub named: usize,
}

// Whether the bytes of a name say that the column has one of its own: they are there, and do not read like those that the reader itself gives.
pub fn is_named(name: &[u8]) -> bool
    ensures { result ≡ (not (eqb (length name.now) 0) && not (is_generated (decoded page037 name.now))) }
{
    !name.is_empty() && !generated::is_generated_string(name)
}

// The same of a name in the reply: runs of descriptors hold its place.
#[tactic(auto, using(crate::proofs::Names::named_at))]
pub fn is_named_at(reply: &[u8], name: StringRead) -> bool
    requires { name.place + name.length ≤ length reply.now }
    ensures { result ≡ not (is_generated_text page037 reply.now (name_text page037 reply.now name)) }
{
    is_named(&reply[name.place..name.place + name.length])
}

// By its place, here and for names: a text is a place in the reply.
#[tactic(auto, unfolding(crate::specs::Column::string_text))]
fn string_text(reply: &[u8], string: StringRead) -> Text
    requires { string.place + string.length ≤ length reply.now }
    ensures { result ≡ string_text page037 reply.now string }
{
    text::decode_text(reply, string.place, string.length)
}

// The text of a column's name; alphabet 0, which is no `Alphabet`, says that it is generated from the column's number.
#[tactic(auto, unfolding(crate::specs::Column::name_text))]
fn name_text(reply: &[u8], name: StringRead) -> Text
    requires { name.place + name.length ≤ length reply.now }
    ensures { result ≡ name_text page037 reply.now name }
{
    if name.length == 0 {
        return Text {
            place: 0,
            length: 0,
            alphabet: 0,
        };
    }
    string_text(reply, name)
}

// No From: it would stand beside ByteOrder, in field, and its definition with it, which is of a column's numbers.
pub fn order_number(order: ByteOrder) -> u64
    ensures { result ≡ order_number order }
{
    order as u64
}

// No From or TryFrom: ByteOrder is another crate's, and there is an order for every number.
pub fn order_of(number: u64) -> ByteOrder
    ensures { result ≡ order_of number }
{
    if number == 0 {
        ByteOrder::BigEndian
    } else {
        ByteOrder::LittleEndian
    }
}

// Values at the front of what is lent: the core writes numbers so, and the words of a column are written so.
pub fn put_values(values: &[u64], numbers: &mut [u64])
    requires { length values.now ≤ length numbers.old }
    ensures { numbers.new ≡ values.now ++ drop (length values.now) numbers.old }
{
    // One by one, which the compiler turns into plain stores where the length is known; copy_from_slice is a call, and tests for overlap. Another loop
    // than codepage's `write_chars`, which maps each byte.
    for (i, value) in values.iter().enumerate() {
        numbers[i] = *value;
    }
}

// A column in numbers: those of its descriptor, and place, length and alphabet of its four texts. Numbers, and not the record at once, since the
// project wants a thin filler over a core that writes numbers.
#[tactic(auto, unfolding(crate::specs::Numbers::numbers_of))]
pub fn put_column(reply: &[u8], number: u16, described: Described, numbers: &mut [u64])
    requires in_bounds { 19 ≤ length numbers.old }
    requires strings_inside { StringsInside reply.now described }
    ensures numbers_after { numbers.new ≡ numbers_of page037 reply.now number described ++ drop 19 numbers.old }
    ensures fits { Fits numbers.new }
{
    let name = name_text(reply, described.name);
    let label = string_text(reply, described.label);
    let base = string_text(reply, described.base_table_name);
    let schema = string_text(reply, described.schema_name);
    let order = described.byte_order;
    let values = [
        number as u64,
        described.sql_type as u64,
        described.raw_length,
        described.precision as u64,
        described.scale as u64,
        described.ccsid as u64,
        order_number(order),
        name.place as u64,
        name.length as u64,
        name.alphabet as u64,
        label.place as u64,
        label.length as u64,
        label.alphabet as u64,
        base.place as u64,
        base.length as u64,
        base.alphabet as u64,
        schema.place as u64,
        schema.length as u64,
        schema.alphabet as u64,
    ];
    put_values(&values, numbers);
}

// The text whose three numbers stand from `at` on. No TryFrom: that they fit is a clause, and nothing is tested for it.
pub fn text_from(numbers: &[u64], at: usize) -> Text
    requires at_in_bounds { at + 2 < length numbers.now }
    requires at_bound { get_or numbers.now (at + 2) 0 < 256 }
    ensures { result ≡ text_from numbers.now at (at + 1) (at + 2) }
{
    Text {
        place: numbers[at] as usize,
        length: numbers[at + 1] as usize,
        alphabet: numbers[at + 2] as u8,
    }
}

// The record that a column's numbers stand for: what a filler over the core stores.
#[tactic(auto, unfolding(crate::specs::Numbers::column_of))]
pub fn column_of(numbers: &[u64]) -> ColumnMetadata
    requires in_bounds { 19 ≤ length numbers.now }
    requires fits { Fits numbers.now }
    ensures { result ≡ column_of numbers.now }
{
    let sql_type = numbers[1] as u16;
    let precision = numbers[3] as u8;
    let scale = numbers[4] as u8;
    let ccsid = numbers[5] as u16;
    let described = sqlda::sqlda_type(sql_type, numbers[2], precision, scale, ccsid);
    let db2_type = described.db2_type;
    ColumnMetadata {
        number: numbers[0] as u16,
        db2_type,
        drda_type: described.drda_type,
        length: described.length,
        nullable: described.nullable,
        precision,
        scale,
        ccsid,
        byte_order: order_of(numbers[6]),
        name: text_from(numbers, 7),
        label: text_from(numbers, 10),
        base_table_name: text_from(numbers, 13),
        schema_name: text_from(numbers, 16),
    }
}

// What a lent list of columns holds before they are filled in. No `Default`: it only fills a list, and is no column's default.
#[tactic(auto, unfolding(crate::specs::Column::blank_column))]
pub fn blank_column() -> ColumnMetadata
    ensures { result ≡ blank_column }
{
    let empty = Text::empty();
    ColumnMetadata {
        number: 0,
        db2_type: Db2Type::SmallInt,
        drda_type: 0,
        length: 0,
        nullable: false,
        precision: 0,
        scale: 0,
        ccsid: 0,
        byte_order: ByteOrder::BigEndian,
        name: empty,
        label: empty,
        base_table_name: empty,
        schema_name: empty,
    }
}
