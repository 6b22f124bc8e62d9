// Names by runs of standard layouts of any type: only their strings are asked, so that an unknown SQLTYPE hides no name.
#![tactic(auto)]

ghost use Rattle.std.specs.Prelude.{◌≡◌, ℕ, true, false, Some, None, All, IfSome, MatchOption, find, ◌+◌, ◌≤◌, length};
ghost use Rattle.std.specs.Iterator.{YieldsFirst, item_count};
ghost use Rattle.search.specs.Walks.{keep, tested};
ghost use Rattle.walks.specs.Steps.{Takes};
ghost use Rattle.codepage.specs.Page.{page037};
ghost use Rattle.name_run.specs.Layout.{Inside, is_name_string, scanned_name_at};
ghost use Rattle.name_run.specs.Run.{name_walk, name_run_from, longer, longest_name_run, names_of_run, names_left};

use field::ByteOrder;
use strings::StringRead;
use text::Text;
use walks::Made;

// The name in a layout, and what is past the layout. `descriptor::Step` has these fields too: the layout is of a known type there, and its name may
// be any.
#[derive(Clone, Copy, Debug, PartialEq, Eq)]
pub struct ScannedName {
    pub name: StringRead,
    pub next: usize,
}

// By its place, and no `get`: that it lies in the reply is what those who read it promise, as `strings::read_string`.
#[tactic(auto, using(identifier::proofs::Identifiers::identifier_at, text::proofs::Decode::lent))]
fn is_name_string(reply: &[u8], string: StringRead) -> bool
    requires { Inside reply.now string }
    ensures { result ≡ is_name_string page037 reply.now string }
{
    identifier::is_identifier_string(&reply[string.place..string.place + string.length])
}

// Each is tested, in their order. Called, so that no other answer than its own goes through memory: where the next layout starts has to be known
// at once, or a run of layouts takes half as long again.
#[inline(never)]
fn first_name(reply: &[u8], strings: &[StringRead]) -> Option<StringRead>
    requires { All (Inside reply.now) strings.now }
    ensures { result ≡ find (is_name_string page037 reply.now) strings.now }
{
    strings
        .iter()
        .copied()
        .find(|string| is_name_string(reply, *string))
}

// The answer of a layout that can be read, by its strings.
#[inline(always)]
fn scanned_name(reply: &[u8], strings: &[StringRead], next: usize) -> Option<ScannedName>
    requires { All (Inside reply.now) strings.now }
    ensures { MatchOption result (find (is_name_string page037 reply.now) strings.now ≡ None) (λ scanned. (find (is_name_string page037 reply.now) strings.now ≡ Some scanned.name) × (scanned.next ≡ next)) }
{
    let name = first_name(reply, strings)?;
    Some(ScannedName { name, next })
}

// The layout's name, if it has one and can be read. The scan asks at every byte of a reply: names are tested only where the whole layout can be
// read, and of the extension's pair the one that has bytes.
#[tactic(auto, using(crate::proofs::Layouts::cut_m, crate::proofs::Layouts::cut_s, crate::proofs::Layouts::cut_comments, crate::proofs::Layouts::cut_udt, crate::proofs::Layouts::cut_extension))]
pub fn scan_descriptor_name(reply: &[u8], offset: usize) -> Option<ScannedName>
    ensures scanned { result ≡ scanned_name_at page037 reply.now offset }
    ensures inside { IfSome result (λ scanned. Inside reply.now scanned.name) }
{
    if reply.len().saturating_sub(offset) < 17 {
        return None;
    }
    if reply[offset + 16] == 0xFF {
        return None;
    }
    let m = strings::read_string(reply, offset + 19).ok()?;
    let s = strings::read_string(reply, m.next).ok()?;
    let comments_end = strings::skip_strings(reply, s.next, 4).ok()?;
    let udt_end = descriptor::skip_sqludtgrp(reply, comments_end).ok()?;
    let extension = descriptor::read_sqldxgrp(reply, udt_end).ok()?;
    scanned_name(reply, &[m, s, extension.name], extension.next)
}

// Where a run of layouts with names starts, and how many they are. A run of none is one like any other: nobody asks whether there is a run.
// Column's `Run` and others are two numbers too, with other meanings.
#[derive(Clone, Copy, Debug, PartialEq, Eq)]
pub struct NameRun {
    pub start: usize,
    pub count: usize,
}

// A step of a run: each has a name.
#[tactic(auto, using(crate::proofs::Runs::step_none))]
#[inline(always)]
fn name_step(reply: &[u8], offset: usize) -> Option<Made>
    ensures { (left : ℕ) → Takes (tested (λ _. true) (name_walk page037 reply.now)) left offset result }
{
    let Some(scanned) = scan_descriptor_name(reply, offset) else {
        return None;
    };
    Some(Made {
        named: true,
        next: scanned.next,
    })
}

fn name_run_from(reply: &[u8], start: usize) -> NameRun
    ensures { result ≡ name_run_from page037 reply.now start }
{
    let run = walks::count_steps(512, start, |_left, offset| name_step(reply, offset));
    NameRun {
        start,
        count: run.count,
    }
}

// Only a longer run replaces. A line with a promise of its own, called once, and no `Ord` on runs: by counts alone, runs that start elsewhere would
// be equal.
#[tactic(auto, unfolding(search::specs::Walks::keep))]
fn longer_of(best: NameRun, run: NameRun) -> NameRun
    ensures { result ≡ keep longer best run }
{
    if best.count < run.count { run } else { best }
}

// Whether a layout with a name may start here: its option flag is not FF, and its first string lies in the reply. Where not, there is no run, and
// nothing else is read. `candidates`' function of this name has only the shape in common: it asks of
// another layout.
#[tactic(auto, using(crate::proofs::Runs::run_null, crate::proofs::Runs::run_outside))]
fn may_start(reply: &[u8], start: usize) -> bool
    requires { start + 21 ≤ length reply.now }
    ensures { result ≡ false → (name_run_from page037 reply.now start).count ≡ 0 }
{
    if reply[start + 16] == 0xFF {
        return false;
    }
    let length = field::u16_at(reply, start + 19, ByteOrder::BigEndian) as usize;
    length <= reply.len() - (start + 21)
}

// The first longest run.
#[tactic(auto, using(crate::proofs::Runs::longest_next, crate::proofs::Runs::longest_over, crate::proofs::Runs::keep_empty), unfolding(crate::specs::Run::longest_name_run))]
pub fn longest_name_run(reply: &[u8]) -> NameRun
    ensures { result ≡ longest_name_run page037 reply.now }
{
    let mut best = NameRun { start: 0, count: 0 };
    // No `fold`: it was tried, and is longer. Its closure needs a requires and an ensures, and what is asked at a start is no test to filter by.
    for start in 0..reply.len().saturating_sub(20) {
        if may_start(reply, start) {
            best = longer_of(best, name_run_from(reply, start));
        }
    }
    best
}

// The names of a run, read again from its start: for who writes them down. Counted here too, not by the plan alone: layouts that have names may
// stand behind a run of 512, and they are none of its names.
#[derive(Clone, Copy, Debug, PartialEq, Eq)]
pub struct RunNames<'a> {
    reply: &'a [u8],
    offset: usize,
    left: usize,
}

impl<'a> RunNames<'a> {
    #[tactic(auto, using(crate::proofs::Layouts::names_again))]
    pub fn of(reply: &'a [u8], run: NameRun) -> Self
        ensures { run.count ≡ length (names_of_run page037 reply.now run) → names_left result ≡ names_of_run page037 reply.now run }
    {
        RunNames {
            reply,
            offset: run.start,
            left: run.count,
        }
    }
}

impl<'a> Iterator for RunNames<'a> {
    type Item = Text;

    ghost next_gives = { YieldsFirst names_left };

    ghost remaining = { item_count names_left };

    #[tactic(auto, using(crate::proofs::Layouts::names_none, crate::proofs::Layouts::names_over, crate::proofs::Layouts::names_more))]
    fn next(&mut self) -> Option<Text> {
        self.left = self.left.checked_sub(1)?;
        let scanned = scan_descriptor_name(self.reply, self.offset)?;
        self.offset = scanned.next;
        let name = scanned.name;
        Some(text::decode_text(self.reply, name.place, name.length))
    }
}
