// A plan, made before anything is written, and its columns one by one: what a descriptor says, the numbers that it is written in, and the record.
#![tactic(auto)]

ghost use Rattle.std.specs.Prelude.{◌++◌, ◌≡◌, ◌↔◌, IsTrue, true, ◌+◌, ◌-◌, ◌<◌, ◌≤◌, length, drop};
ghost use Rattle.codepage.specs.Page.{page037};
ghost use Rattle.column.specs.Column.{StringsInside};
ghost use Rattle.column.specs.Numbers.{numbers_of, Fits};
ghost use Rattle.compact.specs.Compact.{compact_at, end_by};
ghost use Rattle.planned.specs.Planned.{walk_of, described_by, Reads};

use column::{Described, Run};
use compact::Ends;
use field::ByteOrder;

mod reading;

pub use reading::Columns;

// How the descriptors lie: standard ones in either byte order, or compact ones, which the two readers of them end differently.
#[derive(Clone, Copy, Debug, PartialEq, Eq)]
pub enum Layout {
    Standard(ByteOrder),
    Compact(Ends),
}

// The descriptors start at `start`, and at most `limit` are read: `run` says how many can be, and how many of those have names that are not
// generated. `alone`: the status is read alone on the whole reply, else as the group. A bool, as in the definition of a reading.
#[derive(Clone, Copy, Debug, PartialEq, Eq)]
pub struct Plan {
    pub layout: Layout,
    pub alone: bool,
    pub start: usize,
    pub limit: u16,
    pub run: Run,
}

impl Plan {
    pub fn has_columns(&self) -> bool
        ensures { IsTrue result ↔ (1 ≤ self.now.run.count) }
    {
        self.run.count != 0
    }

    pub fn has_names(&self) -> bool
        ensures { IsTrue result ↔ (1 ≤ self.now.run.named) }
    {
        self.run.named != 0
    }
}

// The descriptor at `offset`, with `left` more to come after it. A plan is kept and its layout known only at run time: so a match, and no closure.
#[tactic(auto, using(crate::proofs::Laws::standard_room, crate::proofs::Laws::compact_room))]
fn described_by(reply: &[u8], plan: Plan, left: usize, offset: usize) -> Described
    requires { Reads page037 reply.now plan left offset }
    ensures { (result ≡ described_by plan.layout left reply.now offset) × StringsInside reply.now result }
{
    match plan.layout {
        Layout::Standard(order) => descriptor::read_descriptor(reply, offset, order),
        Layout::Compact(ends) => {
            let end = compact::compact_end(ends, left, reply, offset);
            compact::read_compact(reply, offset, end)
        }
    }
}

// The core: one column's numbers, and where the next descriptor starts.
#[tactic(auto, using(crate::proofs::Laws::next_is))]
pub fn column_numbers(
    reply: &[u8],
    plan: Plan,
    offset: usize,
    index: u16,
    numbers: &mut [u64],
) -> usize
    requires index_lt_limit { index < plan.limit }
    requires reads { Reads page037 reply.now plan (plan.limit - (index + 1)) offset }
    requires in_bounds { 19 ≤ length numbers.old }
    ensures ends { result ≡ (walk_of page037 reply.now plan).end (plan.limit - (index + 1)) offset }
    ensures writes { numbers.new ≡ numbers_of page037 reply.now index (described_by plan.layout (plan.limit - (index + 1)) reply.now offset) ++ drop 19 numbers.old }
    ensures fits { Fits numbers.new }
{
    let left = plan.limit - (index + 1);
    let described = described_by(reply, plan, left as usize, offset);
    column::put_column(reply, index, described, numbers);
    described.next
}
