// A plan's columns as an iterator.
ghost use Rattle.std.specs.Prelude.{◌≡◌, ◌+◌, ◌-◌, length};
ghost use Rattle.search.specs.Walks.{chain};
ghost use Rattle.codepage.specs.Page.{page037};
ghost use Rattle.planned.specs.Planned.{walk_of, columns_of};

use crate::Plan;
use types::ColumnMetadata;

// Those from number `index` on. The descriptor of the next one starts at `offset`: each is read from where the one before ends.
#[derive(Clone, Copy, Debug, PartialEq, Eq)]
pub struct Columns<'a> {
    reply: &'a [u8],
    plan: Plan,
    index: u16,
    offset: usize,
    ghost counted: { plan.run.count ≡ index + length (chain (walk_of page037 reply.now plan) (plan.limit - index) index offset) },
}

impl<'a> Columns<'a> {
    ghost use Rattle.planned.specs.Columns.{columns_left};

    #[tactic(auto, unfolding(crate::specs::Planned::columns_of, crate::specs::Columns::columns_left))]
    pub fn new(reply: &'a [u8], plan: Plan) -> Self
        requires { plan.run.count ≡ length (columns_of page037 reply.now plan) }
        ensures { columns_left result ≡ columns_of page037 reply.now plan }
    {
        Columns {
            reply,
            plan,
            index: 0,
            offset: plan.start,
        }
    }
}

impl Iterator for Columns<'_> {
    ghost use Rattle.std.specs.Iterator.{YieldsFirst, item_count};
    ghost use Rattle.planned.specs.Columns.{columns_left};

    type Item = ColumnMetadata;

    ghost next_gives = { YieldsFirst columns_left };

    ghost remaining = { item_count columns_left };

    #[inline(always)]
    #[tactic(auto, using(crate::proofs::Steps::next_below, crate::proofs::Steps::next_reads, crate::proofs::Steps::next_left, crate::proofs::Steps::none_left, crate::proofs::Laws::column_view), unfolding(crate::specs::Columns::columns_left))]
    fn next(&mut self) -> Option<ColumnMetadata> {
        let plan = self.plan;
        let index = self.index;
        if index as usize == plan.run.count {
            return None;
        }
        let mut numbers = [0u64; 19];
        self.offset = crate::column_numbers(self.reply, plan, self.offset, index, &mut numbers);
        self.index = index + 1;
        Some(column::column_of(&numbers))
    }
}
