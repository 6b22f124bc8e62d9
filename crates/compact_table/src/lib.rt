// The table of compact descriptors, which is found by how its first descriptors look. All its numbers are little-endian. A place in the reply moves
// at each call, so each function asks anew for the bytes behind it: a type of reply and place would be made for one call.
#![tactic(auto)]

ghost use Rattle.std.specs.Prelude.{◌≡◌, ℕ, Bool, ◌+◌, ◌<◌, ◌≤◌, leb, length, IfSome, unwrap_or};
ghost use Rattle.compact_table.specs.Bytes.{Computes, at_byte, in_eight, found_before};
ghost use Rattle.search.specs.Walks.{first};
ghost use Rattle.compact_table.specs.Table.{in_bounds, ff_at, looks_compact, next_compact, is_count, table_from, no_table, table_of, Ended};

use column::Sqldagrp;
use field::ByteOrder;

// Where the first descriptor stands, and how many the table declares. name_run's `NameRun` has two such numbers too, but counts what was found.
#[derive(Clone, Copy, Debug, PartialEq, Eq)]
pub struct Table {
    pub start: usize,
    pub count: usize,
}

// Large objects by the numbers of their base types: which they are, is asked before the type is searched for.
fn in_bounds(numbers: Sqldagrp) -> bool
    ensures { result ≡ in_bounds numbers.sql_type numbers.precision numbers.scale numbers.raw_length }
{
    let sql_type = numbers.sql_type;
    let raw_length = numbers.raw_length;
    let lob = matches!(sql_type - sql_type % 2, 404 | 408 | 412 | 988);
    (numbers.precision <= 63)
        & ((numbers.scale <= 63) & ((raw_length <= 65536) | (lob & (raw_length <= 0x7FFF_FFFF))))
}

// The tests that most positions fail come first; the search for the type comes last. The reader is inlined, and only the type is read before the
// first test: the compiled code is the same as where each number is read by hand.
#[tactic(auto, unfolding(crate::specs::Table::looks_compact))]
fn looks_like_start_within(reply: &[u8], offset: usize) -> bool
    requires { offset + 16 ≤ length reply.now }
    ensures { result ≡ looks_compact reply.now offset }
{
    let numbers = column::read_sqldagrp(reply, offset, ByteOrder::LittleEndian);
    if !(384..=2437).contains(&numbers.sql_type) {
        return false;
    }
    in_bounds(numbers) && sqlda::is_known_sql_type(numbers.sql_type)
}

#[tactic(auto, unfolding(crate::specs::Table::looks_compact))]
pub fn looks_like_compact_descriptor_start(reply: &[u8], offset: usize) -> bool
    ensures { result ≡ looks_compact reply.now offset }
{
    if reply.len().saturating_sub(offset) < 16 {
        return false;
    }
    looks_like_start_within(reply, offset)
}

// What is asked of the test stands at each function that takes one: no bound says what a closure computes.
fn any_in_eight<F: Fn(u8) -> bool>(reply: &[u8], offset: usize, passes: &F) -> bool
    requires in_range { offset + 8 ≤ length reply.now }
    requires callable { F.IsAlwaysCallable passes.now }
    ensures { (test : ℕ → Bool) → Computes (F.post passes.now) test → result ≡ in_eight (at_byte test reply.now) offset }
{
    passes(reply[offset])
        | passes(reply[offset + 1])
        | passes(reply[offset + 2])
        | passes(reply[offset + 3])
        | passes(reply[offset + 4])
        | passes(reply[offset + 5])
        | passes(reply[offset + 6])
        | passes(reply[offset + 7])
}

// Eight bytes are tested at once: one loop turn passes over them where none of them passes. A `while`, as the step is not 1: by `as_chunks` and
// `position` it is proved too, and takes up to 1.05 times the instructions, in replies with many FFs.
fn skip_eights<F: Fn(u8) -> bool>(reply: &[u8], offset: usize, end: usize, passes: &F) -> usize
    requires in_range { (offset ≤ end) × (end ≤ length reply.now) }
    requires callable { F.IsAlwaysCallable passes.now }
    ensures bound { result ≤ end }
    ensures skips { (test : ℕ → Bool) → Computes (F.post passes.now) test → first (at_byte test reply.now) offset end ≡ first (at_byte test reply.now) result end }
{
    let mut i = offset;
    while 8 <= end - i {
        if any_in_eight(reply, i, passes) {
            return i;
        }
        i += 8;
    }
    i
}

// Where the first byte from a position on and before `end` stands that passes a test. Positions in the reply, as in the definitions, and no part of
// it, from whose front each answer would be counted.
#[tactic(auto, using(crate::proofs::Skips::found, crate::proofs::Skips::not_found, search::proofs::Index::first_more, search::proofs::Index::first_found, search::proofs::Index::first_done))]
pub fn first_byte<F: Fn(u8) -> bool>(
    reply: &[u8],
    offset: usize,
    end: usize,
    passes: F,
) -> Option<usize>
    requires in_range { (offset ≤ end) × (end ≤ length reply.now) }
    requires callable { F.IsAlwaysCallable passes }
    ensures { (test : ℕ → Bool) → Computes (F.post passes) test → result ≡ found_before end (first (at_byte test reply.now) offset end) }
{
    // By `position` over what is left, 1.05 times the instructions where many bytes pass.
    for place in skip_eights(reply, offset, end, &passes)..end {
        if passes(reply[place]) {
            return Some(place);
        }
    }
    None
}

// The first FF from a position on and before `end`.
pub fn next_ff(reply: &[u8], offset: usize, end: usize) -> Option<usize>
    requires { (offset ≤ end) × (end ≤ length reply.now) }
    ensures { result ≡ found_before end (ff_at reply.now offset end) }
{
    first_byte(reply, offset, end, |byte| byte == 0xFF)
}

// Another than compact's search for FF FF FF: of one shape, but a function over the test would need its clauses again at each.
// None where the descriptor has no next.
#[tactic(auto, using(crate::proofs::Laws::next_at, crate::proofs::Laws::next_is, crate::proofs::Skips::found, crate::proofs::Skips::not_found, crate::proofs::Skips::found_some, crate::proofs::Skips::found_none, crate::proofs::Skips::by_ff_found, crate::proofs::Skips::by_ff_more, crate::proofs::Skips::by_ff_none, crate::proofs::Skips::ff_is, crate::proofs::Skips::no_next))]
pub fn next_compact_descriptor_offset(reply: &[u8], offset: usize) -> Option<usize>
    requires { offset + 16 ≤ length reply.now }
    ensures { result ≡ found_before (length reply.now + 1) (next_compact reply.now offset) }
{
    let mut from = offset + 16;
    while let Some(ff) = next_ff(reply, from, reply.len()) {
        if looks_like_compact_descriptor_start(reply, ff + 1) {
            return Some(ff + 1);
        }
        from = ff + 1;
    }
    None
}

fn is_count(count: u16) -> bool
    ensures { result ≡ is_count count }
{
    (1..=512).contains(&count)
}

// Whether the descriptor has a next. Where the search for one has failed once, it fails at every later position: `more` spares it there. It is
// lent: what it says is of an offset, which a type would hold beside the reply and move at each turn.
fn has_next(reply: &[u8], offset: usize, more: &mut bool) -> bool
    requires in_range { offset + 16 ≤ length reply.now }
    requires ended { Ended reply.now offset more.old }
    ensures finds { result ≡ leb (next_compact reply.now offset) (length reply.now) }
    ensures ends { Ended reply.now offset more.new }
{
    if *more {
        *more = next_compact_descriptor_offset(reply, offset).is_some();
    }
    *more
}

// The table whose count stands at a position.
#[tactic(auto, unfolding(crate::specs::Table::table_here))]
fn table_here(reply: &[u8], offset: usize, more: &mut bool) -> Option<Table>
    requires in_range { offset + 18 ≤ length reply.now }
    requires ended { Ended reply.now (offset + 2) more.old }
    ensures finds { result ≡ table_from reply.now offset }
    ensures ends { Ended reply.now (offset + 2) more.new }
{
    let count = field::u16_at(reply, offset, ByteOrder::LittleEndian);
    if !is_count(count) {
        return None;
    }
    let start = offset + 2;
    if !looks_like_start_within(reply, start) {
        return None;
    }
    if count == 1 || has_next(reply, start, more) {
        return Some(Table {
            start,
            count: count as usize,
        });
    }
    None
}

// The first table of the reply.
#[tactic(auto, unfolding(crate::specs::Table::table_at), using(crate::proofs::Laws::ended_first, crate::proofs::Laws::ended_later, crate::proofs::Laws::table_none, crate::proofs::Laws::stands_is, crate::proofs::Laws::table_stands, crate::proofs::Laws::table_missing, search::proofs::Index::first_more, search::proofs::Index::first_found, search::proofs::Index::first_done))]
pub fn find_compact_descriptor_table(reply: &[u8]) -> Option<Table>
    ensures value { unwrap_or result no_table ≡ table_of reply.now }
    ensures bounds { IfSome result (λ table. (table.start ≤ length reply.now) × ((1 ≤ table.count) × (table.count ≤ 512))) }
{
    let mut more = true;
    // No `find_map`: its closure would need four clauses, as `more` speaks of the offset that comes next, and laws about the calls before it.
    for offset in 0..reply.len().saturating_sub(17) {
        if let Some(table) = table_here(reply, offset, &mut more) {
            return Some(table);
        }
    }
    None
}
