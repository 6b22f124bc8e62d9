// Standard descriptors (SQLDAROW): one at a position of a reply, where their count stands, and runs of them. Only places are read here, no text
// is decoded.
// A descriptor's flags may be missing where the reply ends. Where a part of it cannot be read, the error is how many bytes were expected: a
// number, as in strings.
// Readers ask for a reply and a position in it: each goes on where another ended, and a type of both would be made for each call. A struct for
// each group, though some have the same types: the names of their fields are those of the document.
#![tactic(auto)]

ghost use Rattle.std.specs.Prelude.{◌≡◌, ℕ, true, not, ◌+◌, ◌≤◌, ◌<◌, length, MatchResult, IfSome};
ghost use Rattle.codepage.specs.Page.{page037};
ghost use Rattle.search.specs.Search.{pick};
ghost use Rattle.column.specs.Column.{name_text, StringsInside};
ghost use Rattle.text.specs.Generated.{is_generated_text};
ghost use Rattle.descriptor.specs.Nullable.{lenient, nullable_end, group_start};
ghost use Rattle.descriptor.specs.Descriptor.{udt_end, dx_end, opt_end, descriptor_end, described_at};
ghost use Rattle.descriptor.specs.Groups.{with_names, sqldxgrp_at, sqldoptgrp_at, step_of, step_at, AllEmpty, LabelAt, NamesAt};
ghost use Rattle.descriptor.specs.Reading.{count_at};
ghost use Rattle.descriptor.specs.Run.{standard_walk, standard_run};
ghost use Rattle.walks.specs.Steps.{Takes, named_walk};
ghost use Rattle.strings.specs.Strings.{IsRead, IsReadOrCut, strings_end};

use column::{Described, Run};
use field::ByteOrder;
use strings::StringRead;
use walks::Made;

// Where what a nullable group holds starts, behind its flag. As an error what is past the group, if its flag is FF, or is missing at the reply's end:
// so the definition tells the two apart.
#[tactic(auto, unfolding(crate::specs::Nullable::group_start))]
#[inline(always)]
fn group_start(reply: &[u8], offset: usize) -> Result<usize, usize>
    ensures { result ≡ group_start reply.now offset }
{
    match reply.get(offset) {
        None => Err(offset),
        Some(0xFF) => Err(offset + 1),
        Some(_) => Ok(offset + 1),
    }
}

// What is past a group that is not there, where the reply goes as far.
#[inline(always)]
fn within(reply: &[u8], next: usize) -> Result<usize, usize>
    ensures { IsRead reply.now next (λ past. past ≡ next) result }
{
    if reply.len() < next {
        return Err(next);
    }
    Ok(next)
}

// Past SQLUDTGRP: nothing of it is kept. Inlined, as the readers of the other groups are: 0.96 times the instructions of a name scan.
#[tactic(auto, using(crate::proofs::Flags::start_room, crate::proofs::Flags::end_held, crate::proofs::Flags::end_gone), unfolding(crate::specs::Descriptor::udt_end))]
#[inline(always)]
pub fn skip_sqludtgrp(reply: &[u8], offset: usize) -> Result<usize, usize>
    ensures { IsRead reply.now (nullable_end lenient udt_end reply.now offset) (λ next. next ≡ nullable_end lenient udt_end reply.now offset) result }
{
    match group_start(reply, offset) {
        Ok(start) => strings::skip_strings(reply, start + 4, 5),
        Err(next) => within(reply, next),
    }
}

// The names in SQLDXGRP, the extension.
#[derive(Clone, Copy, Debug, PartialEq, Eq)]
pub struct Sqldxgrp {
    pub base_table_name: StringRead,
    pub schema_name: StringRead,
    pub name: StringRead,
    pub next: usize,
}

// The group with these names, behind which it ends.
#[inline(always)]
fn with_names(base_table_name: StringRead, schema_name: StringRead, name: StringRead) -> Sqldxgrp
    ensures { result ≡ with_names base_table_name schema_name name }
{
    Sqldxgrp {
        base_table_name,
        schema_name,
        name,
        next: name.next,
    }
}

// As an error the names that were read before the reply ended, and in `next` how many bytes were expected.
#[tactic(auto, using(crate::proofs::Flags::start_room, crate::proofs::Flags::end_gone, crate::proofs::Groups::dx_gone))]
#[inline(always)]
pub fn read_sqldxgrp(reply: &[u8], offset: usize) -> Result<Sqldxgrp, Sqldxgrp>
    ensures { IsReadOrCut reply.now (nullable_end lenient dx_end reply.now offset) (sqldxgrp_at reply.now offset) result }
{
    match group_start(reply, offset) {
        Ok(start) => {
            let names = match strings::skip_strings(reply, start + 8, 3) {
                Ok(names) => names,
                Err(expected) => {
                    let none = strings::no_string(expected);
                    return Err(with_names(none, none, none));
                }
            };
            let base_table_name = match strings::read_pair(reply, names) {
                Ok(base_table_name) => base_table_name,
                Err(base_table_name) => {
                    let none = strings::no_string(base_table_name.next);
                    return Err(with_names(base_table_name, none, none));
                }
            };
            let schema_name = match strings::read_pair(reply, base_table_name.next) {
                Ok(schema_name) => schema_name,
                Err(schema_name) => {
                    let none = strings::no_string(schema_name.next);
                    return Err(with_names(base_table_name, schema_name, none));
                }
            };
            match strings::read_pair(reply, schema_name.next) {
                Ok(name) => Ok(with_names(base_table_name, schema_name, name)),
                Err(name) => Err(with_names(base_table_name, schema_name, name)),
            }
        }
        Err(next) => {
            let none = strings::no_string(0);
            let group = Sqldxgrp {
                next,
                ..with_names(none, none, none)
            };
            match within(reply, next) {
                Ok(_) => Ok(group),
                Err(_) => Err(group),
            }
        }
    }
}

// The names in SQLDOPTGRP and in its extension.
#[derive(Clone, Copy, Debug, PartialEq, Eq)]
pub struct Sqldoptgrp {
    pub name: StringRead,
    pub label: StringRead,
    pub base_table_name: StringRead,
    pub schema_name: StringRead,
    pub next: usize,
}

// Whether so many empty strings stand at a position. Each is looked at where it is due, and no length has to be known before the next. By `all`
// over their bytes, descriptions take up to 1.07 times the instructions; by equality with an array, up to 1.29 times.
#[tactic(auto, using(crate::proofs::NameStrings::empty_more, crate::proofs::NameStrings::empty_none))]
fn are_empty(reply: &[u8], offset: usize, count: usize) -> bool
    ensures { result ≡ true → AllEmpty count reply.now offset }
{
    let end = reply.len();
    if end < offset || (end - offset) / 2 < count {
        return false;
    }
    for i in 0..count {
        if field::u16_at(reply, offset + 2 * i, ByteOrder::BigEndian) != 0 {
            return false;
        }
    }
    true
}

// Whether a string has bytes, and so many behind it have none.
fn is_alone(reply: &[u8], string: StringRead, count: usize) -> bool
    ensures { result ≡ true → (string.length ≡ 0 → ⊥) × AllEmpty count reply.now string.next }
{
    string.length != 0 && are_empty(reply, string.next, count)
}

// SQLLABEL of a SQLDOPTGRP, and what is past SQLCOMMENTS, which is not kept. No StringRead alone: the label's own `next` is before the comments.
#[derive(Clone, Copy, Debug, PartialEq, Eq)]
pub struct Label {
    pub label: StringRead,
    pub next: usize,
}

// Of most pairs only m has bytes, and most columns have no comment.
#[tactic(auto, using(crate::proofs::NameStrings::label_cut, crate::proofs::NameStrings::s_cut, crate::proofs::NameStrings::comment_cut, crate::proofs::NameStrings::label_read))]
fn read_label(reply: &[u8], offset: usize) -> Result<Label, usize>
    ensures { IsRead reply.now (strings_end 4 reply.now offset) (LabelAt reply.now offset) result }
{
    let m = strings::read_string(reply, offset)?;
    if is_alone(reply, m, 3) {
        return Ok(Label {
            label: StringRead {
                next: m.next + 2,
                ..m
            },
            next: m.next + 6,
        });
    }
    let label = strings::choose(m, strings::read_string(reply, m.next)?);
    Ok(Label {
        label,
        next: strings::skip_strings(reply, label.next, 2)?,
    })
}

// SQLNAME besides: the six strings of names.
#[derive(Clone, Copy, Debug, PartialEq, Eq)]
pub struct Names {
    pub name: StringRead,
    pub label: StringRead,
    pub next: usize,
}

// Many columns have a name and no label either.
#[tactic(auto, using(crate::proofs::NameStrings::names_cut, crate::proofs::NameStrings::s_cut, crate::proofs::NameStrings::label_behind, crate::proofs::NameStrings::names_read))]
fn read_names(reply: &[u8], offset: usize) -> Result<Names, usize>
    ensures { IsRead reply.now (strings_end 6 reply.now offset) (NamesAt reply.now offset) result }
{
    let m = strings::read_string(reply, offset)?;
    if is_alone(reply, m, 5) {
        let end = m.next;
        return Ok(Names {
            name: StringRead { next: end + 2, ..m },
            label: StringRead {
                place: end + 6,
                length: 0,
                next: end + 6,
            },
            next: end + 10,
        });
    }
    let name = strings::choose(m, strings::read_string(reply, m.next)?);
    let Label { label, next } = read_label(reply, name.next)?;
    Ok(Names { name, label, next })
}

#[tactic(auto, using(crate::proofs::Flags::start_room, crate::proofs::Groups::opt_names_cut, crate::proofs::Groups::udt_cut, crate::proofs::Groups::dx_last, crate::proofs::Groups::opt_held, crate::proofs::Groups::opt_gone))]
#[inline(always)]
fn read_sqldoptgrp(reply: &[u8], offset: usize) -> Result<Sqldoptgrp, usize>
    requires { offset ≤ length reply.now }
    ensures { IsRead reply.now (nullable_end lenient (opt_end lenient) reply.now offset) (λ options. options ≡ sqldoptgrp_at reply.now offset) result }
{
    match group_start(reply, offset) {
        Ok(start) => {
            let names = read_names(reply, start + 2)?;
            let extension = read_sqldxgrp(reply, skip_sqludtgrp(reply, names.next)?).map_err(
                |cut| cut.next,
            )?;
            // The extension's name counts last.
            Ok(Sqldoptgrp {
                name: strings::choose(names.name, extension.name),
                label: names.label,
                base_table_name: extension.base_table_name,
                schema_name: extension.schema_name,
                next: extension.next,
            })
        }
        Err(next) => {
            let none = strings::no_string(0);
            Ok(Sqldoptgrp {
                name: none,
                label: none,
                base_table_name: none,
                schema_name: none,
                next,
            })
        }
    }
}

// What counting a run asks of a descriptor that can be read: its name, and what is past it, where the name's own `next` is not.
#[derive(Clone, Copy, Debug, PartialEq, Eq)]
pub struct Step {
    pub name: StringRead,
    pub next: usize,
}

// The error is a position past the reply's end, too, where the type is not known: so in the definition, and so no `Option`. A scan asks at every
// byte of a reply: room and SQLTYPE are tested before any string is walked over.
#[tactic(auto, using(crate::proofs::Steps::step_short, crate::proofs::Steps::step_unknown, crate::proofs::Steps::step_cut, std::proofs::lemmas::Result::err_from_is_err_and))]
pub fn descriptor_step(reply: &[u8], offset: usize, order: ByteOrder) -> Result<Step, usize>
    requires { offset ≤ length reply.now }
    ensures at { step_of result ≡ step_at order reply.now offset }
    ensures room { offset + 16 ≤ (step_of result).next }
    ensures inside { MatchResult result
        (λ step. (step.next ≤ length reply.now) × (step.name.place + step.name.length ≤ length reply.now))
        (λ expected. length reply.now < expected) }
{
    let end = reply.len();
    if end - offset < 16 {
        return Err(offset + 16);
    }
    if !sqlda::is_known_sql_type(field::u16_at(reply, offset + 12, order)) {
        return Err(end + 1);
    }
    let options = read_sqldoptgrp(reply, offset + 16)?;
    Ok(Step {
        name: options.name,
        next: options.next,
    })
}

// A descriptor that can be read: past it lies within the reply, as descriptor_step tells.
#[tactic(auto, using(crate::proofs::Steps::descriptor_room, crate::proofs::Steps::options_read, strings::proofs::Strings::read_ok))]
pub fn read_descriptor(reply: &[u8], offset: usize, order: ByteOrder) -> Described
    requires { descriptor_end lenient order reply.now offset ≤ length reply.now }
    ensures { (result ≡ described_at order reply.now offset) × StringsInside reply.now result }
{
    let numbers = column::read_sqldagrp(reply, offset, order);
    let options = read_sqldoptgrp(reply, offset + 16).unwrap();
    // Field by field, as in compact: a method of the numbers that gives all but the strings is as fast, but takes 10 lines more and a definition.
    Described {
        sql_type: numbers.sql_type,
        raw_length: numbers.raw_length,
        precision: numbers.precision,
        scale: numbers.scale,
        ccsid: numbers.ccsid,
        byte_order: order,
        name: options.name,
        label: options.label,
        base_table_name: options.base_table_name,
        schema_name: options.schema_name,
        next: options.next,
    }
}

// Where the count of columns is due: past the SQLCA group and SQLDHGRP.
#[tactic(auto, using(crate::proofs::Front::count_at_end, crate::proofs::Front::count_at_past))]
pub fn count_offset(reply: &[u8]) -> Result<usize, usize>
    ensures { IsRead reply.now (count_at reply.now) (λ offset. offset ≡ count_at reply.now) result }
{
    let flag = sqlcard::sqlca_end(reply)?;
    if reply.len() <= flag {
        return Ok(flag);
    }
    sqlcard::skip_sqldhgrp(reply, flag)
}

// As column's, without its call where the name has no bytes: a run of columns without names takes 0.82 times the instructions.
#[tactic(auto, using(crate::proofs::Runs::unnamed))]
#[inline(always)]
fn is_named(reply: &[u8], name: StringRead) -> bool
    requires { name.place + name.length ≤ length reply.now }
    ensures { result ≡ not (is_generated_text page037 reply.now (name_text page037 reply.now name)) }
{
    if name.length == 0 {
        return false;
    }
    column::is_named_at(reply, name)
}

// A step of a run.
#[tactic(auto, using(crate::proofs::Runs::step_none, crate::proofs::Runs::step_end, crate::proofs::Runs::step_named))]
#[inline(always)]
fn standard_step(reply: &[u8], order: ByteOrder, offset: usize) -> Option<Made>
    requires { offset ≤ length reply.now }
    ensures at { (left : ℕ) → Takes (named_walk page037 reply.now (standard_walk page037 order reply.now)) left offset result }
    ensures inside { IfSome result (λ made. made.next ≤ length reply.now) }
{
    let Ok(step) = descriptor_step(reply, offset, order) else {
        return None;
    };
    Some(Made {
        named: is_named(reply, step.name),
        next: step.next,
    })
}

// At most `limit` descriptors from `start` on, as many as can be read, by their places alone.
pub fn standard_run(reply: &[u8], order: ByteOrder, limit: usize, start: usize) -> Run
    requires { start ≤ length reply.now }
    ensures { (result ≡ standard_run page037 order reply.now limit start) × ((result.named ≤ result.count) × (result.count ≤ limit)) }
{
    walks::count_steps(
        limit,
        start,
        |_left, offset| standard_step(reply, order, offset),
    )
}
