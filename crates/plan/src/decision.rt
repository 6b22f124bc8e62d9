// What is decided before anything is written.
ghost use Rattle.std.specs.Prelude.{◌≡◌, length};
ghost use Rattle.codepage.specs.Page.{page037};
ghost use Rattle.planned.specs.Planned.{columns_of};

use planned::{Columns, Plan};
use sqlcard::SqlCard;

// The status to answer, and the plan of the columns to write, which says how many they are. It holds no iterator: with one in it a filler keeps the
// number of a column beside its own, 2 to 5 instructions a column more (tried).
#[derive(Clone, Copy, Debug, PartialEq, Eq)]
pub struct Decision<'a> {
    pub card: SqlCard,
    pub reply: &'a [u8],
    pub plan: Plan,
    ghost counted: { plan.run.count ≡ length (columns_of page037 reply.now plan) },
}

impl<'a> Decision<'a> {
    ghost use Rattle.planned.specs.Columns.{columns_left};
    ghost use Rattle.plan.specs.Decision.{columns_decided};

    pub fn columns(self) -> Columns<'a>
        ensures { columns_left result ≡ columns_decided self.entry }
    {
        Columns::new(self.reply, self.plan)
    }

    pub fn count(self) -> usize
        ensures { result ≡ length (columns_decided self.entry) }
    {
        self.plan.run.count
    }
}
