// What is answered to a reply: which reading wins, from where, and how many columns it has; or a refusal. All of it is decided before anything is
// written.
#![tactic(auto)]

ghost use Rattle.std.specs.Prelude.{◌≡◌, IfOk, ◌+◌, ◌≤◌, length};
ghost use Rattle.codepage.specs.Page.{page037};
ghost use Rattle.std.proofs.Props.{props};
ghost use Rattle.strings.specs.Strings.{IsRead};
ghost use Rattle.descriptor.specs.Reading.{count_at};
ghost use Rattle.plan.specs.Choice.{last_count_at};
ghost use Rattle.plan.specs.Decision.{Decides};
ghost use Rattle.plan.specs.Description.{status_of, description, with_code_point};
ghost use Rattle.plan.specs.Plan.{with_columns, standard_plan, compact_plan, scan_plan, tried, last_plan, plan_of, Counted};

use column::Run;
use compact::Ends;
use field::ByteOrder;
use outcome::Refusal;
use planned::{Layout, Plan};
use sqlcard::SqlCard;

mod decision;

pub use decision::Decision;

const SQLDARD: u16 = 0x2411;

// What an entry answers once the columns are written: the status record, and how many they are. No `sqlcard::Group`, whose number is a length.
#[derive(Clone, Copy, Debug, PartialEq, Eq)]
pub struct Sqldard {
    pub card: SqlCard,
    pub count: usize,
}

// The readings that are tried before the last reader. Each is a function with arguments of its own, so a list of closures would need `dyn`.
#[derive(Clone, Copy)]
enum Attempt {
    Standard(ByteOrder),
    Compact,
    Scan,
}

// In document 01's order.
const ATTEMPTS: [Attempt; 4] = [
    Attempt::Standard(ByteOrder::BigEndian),
    Attempt::Compact,
    Attempt::Standard(ByteOrder::LittleEndian),
    Attempt::Scan,
];

impl Attempt {
    // The plan of its columns, if it has any.
    fn plan(self, reply: Reply<'_>) -> Option<Plan>
        ensures { result ≡ with_columns (tried page037 reply.entry.bytes.now self) }
    {
        match self {
            Attempt::Standard(order) => reply.standard_plan(order),
            Attempt::Compact => compact_plan(reply.bytes),
            Attempt::Scan => scan_plan(reply.bytes),
        }
    }
}

// A reply, and where the count of its columns stands, or how long the reply should be: for the readings that begin there. No `strings::Walker`, whose
// place moves.
#[derive(Clone, Copy)]
struct Reply<'a> {
    bytes: &'a [u8],
    count_offset: Result<usize, usize>,
    ghost counted: { IsRead bytes.now (count_at bytes.now) (λ offset. offset ≡ count_at bytes.now) count_offset } by { Prim.hlevel props },
}

impl Reply<'_> {
    // All descriptors that the count announces, or nothing.
    #[tactic(auto, using(crate::proofs::Plans::standard_none, crate::proofs::Plans::standard_few, crate::proofs::Plans::standard_cut, crate::proofs::Plans::standard_is))]
    fn standard_plan(self, order: ByteOrder) -> Option<Plan>
        ensures { result ≡ with_columns (standard_plan page037 order self.entry.bytes.now) }
    {
        let bytes = self.bytes;
        let offset = self.count_offset.ok()?;
        if bytes.len() - offset < 2 {
            return None;
        }
        let limit = field::u16_at(bytes, offset, order);
        if limit == 0 || limit > 512 {
            return None;
        }
        let start = offset + 2;
        let run = descriptor::standard_run(bytes, order, limit as usize, start);
        if run.count != limit as usize {
            return None;
        }
        Some(Plan {
            layout: Layout::Standard(order),
            alone: false,
            start,
            limit,
            run,
        })
    }

    // The only reading that may be refused: it is asked where the four before gave no column. It has no column where the count is missing.
    #[tactic(auto, using(crate::proofs::Plans::last_empty, crate::proofs::Plans::last_early, crate::proofs::Plans::last_none, crate::proofs::Plans::last_is))]
    fn last_plan(self) -> Result<Plan, Refusal>
        ensures { result ≡ last_plan page037 self.entry.bytes.now }
    {
        let bytes = self.bytes;
        let size = bytes.len();
        if size == 0 {
            return Err(Refusal::EmptyReply);
        }
        let offset = self
            .count_offset
            .map_err(|expected| Refusal::BufferTooShort {
                expected,
                actual: size,
            })?;
        let layout = Layout::Compact(Ends::Last);
        if size - offset < 2 {
            return Ok(Plan {
                layout,
                alone: false,
                start: 0,
                limit: 0,
                run: Run { count: 0, named: 0 },
            });
        }
        let offset = last_count_offset(bytes, offset);
        let limit = field::u16_at(bytes, offset, ByteOrder::LittleEndian);
        let start = offset + 2;
        let run = compact::compact_run(Ends::Last, bytes, limit as usize, start);
        Ok(Plan {
            layout,
            alone: false,
            start,
            limit,
            run,
        })
    }
}

// A byte FF that was not counted with the groups before stands before the last reader's count.
#[tactic(auto, unfolding(crate::specs::Choice::last_count_at))]
fn last_count_offset(reply: &[u8], offset: usize) -> usize
    requires { offset + 2 ≤ length reply.now }
    ensures { (offset ≡ count_at reply.now → result ≡ last_count_at reply.now) × (result + 2 ≤ length reply.now) }
{
    let count = field::u16_at(reply, offset, ByteOrder::LittleEndian);
    if count > 256 && reply.len() - offset >= 3 && reply[offset] == 0xFF {
        return offset + 1;
    }
    offset
}

#[tactic(auto, using(crate::proofs::Plans::some_columns, crate::proofs::Plans::no_columns, crate::proofs::Plans::compact_none, crate::proofs::Plans::compact_is))]
fn compact_plan(reply: &[u8]) -> Option<Plan>
    ensures { result ≡ with_columns (compact_plan page037 reply.now) }
{
    let table = compact_table::find_compact_descriptor_table(reply)?;
    let run = compact::compact_run(Ends::Compact, reply, table.count, table.start);
    if run.count == 0 {
        return None;
    }
    Some(Plan {
        layout: Layout::Compact(Ends::Compact),
        alone: true,
        start: table.start,
        limit: table.count as u16,
        run,
    })
}

#[tactic(auto, using(crate::proofs::Plans::scan_none, crate::proofs::Plans::scan_some))]
fn scan_plan(reply: &[u8]) -> Option<Plan>
    ensures { result ≡ with_columns (scan_plan page037 reply.now) }
{
    let best = scan::scan_standard_sqldagroups(reply)?;
    Some(Plan {
        layout: Layout::Standard(best.order),
        alone: true,
        start: best.start,
        limit: 512,
        run: best.run,
    })
}

// The first reading with a name that is not generated, else the first that has columns, else the last reader's. In one loop: a `find` for each would
// read a reply twice. The bound on the reply's length is asked here, where a plan begins, and nowhere behind.
#[tactic(auto, using(crate::proofs::Choices::undecided_start, crate::proofs::Choices::last_wins, crate::proofs::Choices::result_counted))]
pub fn plan_reply(reply: &[u8]) -> Result<Plan, Refusal>
    requires { length reply.now ≤ 65536 }
    ensures plans { result ≡ plan_of page037 reply.now }
    ensures counts { IfOk result (Counted page037 reply.now) }
{
    let counted = Reply {
        bytes: reply,
        count_offset: descriptor::count_offset(reply),
    };
    let mut unnamed = None;
    for attempt in ATTEMPTS {
        if let Some(plan) = attempt.plan(counted) {
            if plan.has_names() {
                return Ok(plan);
            }
            unnamed = unnamed.or(Some(plan));
        }
    }
    match unnamed {
        Some(plan) => Ok(plan),
        None => counted.last_plan(),
    }
}

// Compact and scan read the status alone on the whole reply, the others take the group's. A status that is refused is that for success.
// By the plan's flag, a Bool in the definition `Reading` too.
#[tactic(auto, using(crate::proofs::Statuses::alone_status))]
fn card_by(reply: &[u8], alone: bool) -> SqlCard
    ensures { result ≡ status_of page037 reply.now alone }
{
    let success = SqlCard::success();
    if alone {
        match sqlcard::read_sqlcard_data(reply).unwrap_or(None) {
            Some(status) => status.card(),
            None => success,
        }
    } else {
        sqlcard::consume_sqlca_group(reply).map_or(success, |group| group.card)
    }
}

// Every refusal is decided here, before the list is written.
#[tactic(auto, using(crate::proofs::Deciding::too_long, crate::proofs::Deciding::not_read, crate::proofs::Deciding::too_short))]
pub fn decide(reply: &[u8], room: usize) -> Result<Decision<'_>, Refusal>
    ensures of_reply { IfOk result (λ decision. decision.reply ≡ reply.entry) }
    ensures decides { Decides room result (description page037 room reply.now) }
{
    if reply.len() > outcome::MOST_BYTES {
        return Err(Refusal::ReplyTooLong);
    }
    let plan = plan_reply(reply)?;
    let needed = plan.run.count;
    if room < needed {
        return Err(Refusal::RoomTooShort { needed });
    }
    let card = card_by(reply, plan.alone);
    Ok(Decision { card, reply, plan })
}

#[tactic(auto, using(crate::proofs::Deciding::other_point, crate::proofs::Deciding::decides_own))]
pub fn decide_at(code_point: u16, reply: &[u8], room: usize) -> Result<Decision<'_>, Refusal>
    ensures of_reply { IfOk result (λ decision. decision.reply ≡ reply.entry) }
    ensures decides { Decides room result (with_code_point page037 room code_point reply.now) }
{
    if code_point != SQLDARD {
        return Err(Refusal::UnexpectedCodePoint(code_point));
    }
    decide(reply, room)
}
