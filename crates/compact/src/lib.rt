// Descriptors of the compact reading and of the last reader: 16 bytes of little-endian numbers, and a name somewhere after them.
#![tactic(auto)]

ghost use Rattle.std.specs.Prelude.{◌≡◌, ◌+◌, ◌<◌, ◌≤◌, IfSome};
ghost use lib.ListN.{length};
ghost use Rattle.codepage.specs.Page.{page037};
ghost use Rattle.field.specs.declared.ByteOrder.TheVariants.{BigEndian, LittleEndian};
ghost use Rattle.field.specs.Numbers.{number};
ghost use Rattle.text.specs.Chars.{is_name_char};
ghost use Rattle.column.specs.Column.{StringsInside};
ghost use Rattle.walks.specs.Steps.{Takes, named_walk};
ghost use Rattle.compact.specs.Compact.{ccsid_of, name_here, Stops, compact_name, compact_at, compact_end, ffs_here, last_end, end_by, compact_walk, compact_run};

use column::{Described, Run};
use field::ByteOrder;
use strings::StringRead;
use walks::Made;

// Where a descriptor ends: before the next compact one, or past FF FF FF as for the last reader. An enum and no trait, as it is a value in the
// definitions of the two walks and in who plans them: a type parameter would only turn up again there.
#[derive(Clone, Copy, Debug, PartialEq, Eq)]
pub enum Ends {
    Compact,
    Last,
}

// The functions of a descriptor ask for its bytes one by one: a type for a place that has them would be made for each call by those above, which
// keep a place and no such type.

// Big-endian, unless only the little-endian number is at most 10,000. The Rust's test for 0 changes nothing: both are 0 or neither is.
#[tactic(auto, unfolding(crate::specs::Compact::ccsid_of))]
fn decode_ccsid(reply: &[u8], offset: usize) -> u16
    requires { offset + 2 ≤ length reply.now }
    ensures { result ≡ ccsid_of (number BigEndian 2 reply.now offset) (number LittleEndian 2 reply.now offset) }
{
    let be = field::u16_at(reply, offset, ByteOrder::BigEndian);
    let le = field::u16_at(reply, offset, ByteOrder::LittleEndian);
    if (10000 < be) & (le <= 10000) { le } else { be }
}

// As text's own test of ASCII characters, but all at once: `matches!` tests one after the other, and takes 1.4 times the instructions for a name. The
// compiler tests letters first, which stand last here: most characters of names are letters. By `is_ascii_alphanumeric` for the last three, compact
// tables take up to 1.014 times the instructions.
fn is_name_char(character: u8) -> bool
    ensures { result ≡ is_name_char character }
{
    (character == b'@')
        | (character == b'#')
        | (character == b'$')
        | (character == b'_')
        | (character >= b'0') & (character <= b'9')
        | (character >= b'a') & (character <= b'z')
        | (character >= b'A') & (character <= b'Z')
}

// Whether a name's length byte stands at a position of the descriptor that ends at `end`. Name characters stand up to `stop` where it is past
// the position: they were tested behind an earlier one and are not tested again. It is lent: a struct of it and of the answer would be made for
// each byte.
#[tactic(auto, using(crate::proofs::Laws::name_size, crate::proofs::Laws::name_over, crate::proofs::Stops::stops_later, crate::proofs::Stops::name_known))]
fn name_here(reply: &[u8], end: usize, offset: usize, stop: &mut usize) -> bool
    requires in_range { (offset < end) × (end ≤ length reply.now) }
    requires stops { Stops reply.now end offset stop.old }
    ensures finds { result ≡ name_here reply.now end offset }
    ensures ends { Stops reply.now end (offset + 1) stop.new }
{
    let length = reply[offset] as usize;
    if !(1..=64).contains(&length) {
        return false;
    }
    let start = offset + 1;
    if end < start + length {
        return false;
    }
    if offset < *stop {
        return start + length <= *stop;
    }
    match compact_table::first_byte(reply, start, start + length, |byte| !is_name_char(byte)) {
        Some(other) => {
            *stop = other;
            false
        }
        None => true,
    }
}

// A `for`, and no `find`: `stop` goes on with the place, and what one turn found out spares the next the test. Reply and end are two: each
// descriptor has another end, and a struct of both would be made for each.
#[tactic(auto, using(crate::proofs::Stops::stops_first, crate::proofs::Laws::name_found, crate::proofs::Laws::name_none, search::proofs::Index::first_more, search::proofs::Index::first_found, search::proofs::Index::first_done), unfolding(crate::specs::Compact::name_at))]
fn extract_column_name(reply: &[u8], offset: usize, end: usize) -> StringRead
    requires { (offset + 16 ≤ end) × (end ≤ length reply.now) }
    ensures { result ≡ compact_name reply.now offset end }
{
    let mut stop = offset + 16;
    for place in offset + 16..end {
        if name_here(reply, end, place, &mut stop) {
            return StringRead {
                place: place + 1,
                length: reply[place] as usize,
                next: end,
            };
        }
    }
    strings::no_string(end)
}

// The descriptor from `offset` to `end`. Its strings lie in the reply, as those who decode them ask.
#[tactic(auto, using(crate::proofs::Names::name_inside, crate::proofs::Names::none_inside), unfolding(crate::specs::Compact::compact_at))]
pub fn read_compact(reply: &[u8], offset: usize, end: usize) -> Described
    requires { (offset + 16 ≤ end) × (end ≤ length reply.now) }
    ensures value { result ≡ compact_at reply.now offset end }
    ensures strings_inside { StringsInside reply.now result }
{
    let numbers = column::read_sqldagrp(reply, offset, ByteOrder::LittleEndian);
    let ccsid = decode_ccsid(reply, offset + 14);
    let name = extract_column_name(reply, offset, end);
    let none = strings::no_string(0);
    // Field by field, as in descriptor: a method of the numbers that gives all but the strings is as fast, but takes 10 lines more and a definition.
    Described {
        sql_type: numbers.sql_type,
        raw_length: numbers.raw_length,
        precision: numbers.precision,
        scale: numbers.scale,
        ccsid,
        byte_order: ByteOrder::LittleEndian,
        name,
        label: none,
        base_table_name: none,
        schema_name: none,
        next: end,
    }
}

#[tactic(auto, using(crate::proofs::Laws::compact_last, crate::proofs::Laws::compact_by_next))]
fn compact_descriptor_end(left: usize, reply: &[u8], offset: usize) -> usize
    requires { offset + 16 ≤ length reply.now }
    ensures { (result ≡ compact_end left reply.now offset) × (result ≤ length reply.now) }
{
    if left == 0 {
        return reply.len();
    }
    compact_table::next_compact_descriptor_offset(reply, offset).unwrap_or(reply.len())
}

#[tactic(auto, using(crate::proofs::Laws::ffs_is))]
fn ffs_here(reply: &[u8], offset: usize) -> bool
    requires { offset + 3 ≤ length reply.now }
    ensures { result ≡ ffs_here reply.now offset }
{
    reply[offset..].starts_with(&[0xFF; 3])
}

#[tactic(auto, using(crate::proofs::Laws::no_ffs, compact_table::proofs::Skips::found_some, compact_table::proofs::Skips::by_ff_more, compact_table::proofs::Skips::ff_is))]
fn last_descriptor_end(reply: &[u8], offset: usize) -> usize
    requires { offset + 16 ≤ length reply.now }
    ensures { (result ≡ last_end reply.now offset) × (result ≤ length reply.now) }
{
    let end = reply.len() - 2;
    let mut from = offset;
    while let Some(ff) = compact_table::next_ff(reply, from, end) {
        if ffs_here(reply, ff) {
            return ff + 3;
        }
        from = ff + 1;
    }
    reply.len()
}

// Where the descriptor at a position ends, if `left` more are to come.
#[tactic(auto, unfolding(crate::specs::Compact::end_by))]
pub fn compact_end(ends: Ends, left: usize, reply: &[u8], offset: usize) -> usize
    requires { offset + 16 ≤ length reply.now }
    ensures value { result ≡ end_by ends left reply.now offset }
    ensures upper_bound { result ≤ length reply.now }
{
    match ends {
        Ends::Compact => compact_descriptor_end(left, reply, offset),
        Ends::Last => last_descriptor_end(reply, offset),
    }
}

// A step of a run: the descriptor at a position, with `left` more to come. None where fewer than 16 bytes are left, or are its own.
#[tactic(auto, using(crate::proofs::Names::name_inside, crate::proofs::Runs::step_short, crate::proofs::Runs::step_some))]
#[inline(always)]
fn compact_step(ends: Ends, left: usize, reply: &[u8], offset: usize) -> Option<Made>
    requires { offset ≤ length reply.now }
    ensures at { Takes (named_walk page037 reply.now (compact_walk page037 ends reply.now)) left offset result }
    ensures inside { IfSome result (λ made. made.next ≤ length reply.now) }
{
    if reply.len() - offset < 16 {
        return None;
    }
    let end = compact_end(ends, left, reply, offset);
    if end < offset + 16 {
        return None;
    }
    let name = extract_column_name(reply, offset, end);
    Some(Made {
        named: column::is_named_at(reply, name),
        next: end,
    })
}

// At most `count` descriptors from a position on: how many there are, and how many have names.
pub fn compact_run(ends: Ends, reply: &[u8], count: usize, offset: usize) -> Run
    requires { offset ≤ length reply.now }
    ensures value { result ≡ compact_run page037 ends reply.now count offset }
    ensures named_le_count { (result.named ≤ result.count) × (result.count ≤ count) }
{
    walks::count_steps(
        count,
        offset,
        |left, start| compact_step(ends, left, reply, start),
    )
}
