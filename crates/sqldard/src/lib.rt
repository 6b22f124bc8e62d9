// The description of a reply: its status, and its columns, which are written into a list that the caller lends.
#![tactic(auto)]

ghost use Rattle.std.specs.Prelude.{◌≡◌, [], ◌++◌, ◌≤◌, length, drop, IfOk};
ghost use Rattle.std.specs.Result.{OnErr};
ghost use Rattle.search.specs.Search.{over};
ghost use Rattle.codepage.specs.Page.{page037};
ghost use Rattle.outcome.specs.Refusal.{refusal_in};
ghost use Rattle.sqlcard.specs.Card.{success_card};
ghost use Rattle.plan.specs.Decision.{columns_decided};
ghost use Rattle.plan.specs.Description.{description, with_code_point};

use outcome::Refusal;
use plan::{Decision, Sqldard};
use types::ColumnMetadata;

// Writes a decision's columns, and answers their status and count. sqldard_words writes blocks of words, by another filler.
fn fill_columns(decision: Decision<'_>, columns: &mut [ColumnMetadata]) -> Sqldard
    requires { length (columns_decided decision) ≤ length columns.old }
    ensures gives { result.card ≡ decision.entry.card }
    ensures counts { result.count ≡ length (columns_decided decision.entry) }
    ensures fills { columns.new ≡ columns_decided decision.entry ++ drop (length (columns_decided decision.entry)) columns.old }
{
    filling::fill(decision.columns(), columns);
    Sqldard {
        card: decision.card,
        count: decision.count(),
    }
}

// The entry description. Nothing is written where it refuses.
pub fn parse_sqldard_data(reply: &[u8], columns: &mut [ColumnMetadata]) -> Result<Sqldard, Refusal>
    ensures refuses { refusal_in result ≡ (description page037 (length columns.old) reply.now).refusal }
    ensures gives { IfOk result (λ answer. answer.card ≡ (description page037 (length columns.old) reply.now).card) }
    ensures counts { IfOk result (λ answer. answer.count ≡ length (description page037 (length columns.old) reply.now).columns) }
    ensures refused { OnErr result (((description page037 (length columns.old) reply.now).card ≡ success_card) × ((description page037 (length columns.old) reply.now).columns ≡ [])) }
    ensures fills { columns.new ≡ over (description page037 (length columns.old) reply.now).columns columns.old }
{
    let decision = plan::decide(reply, columns.len())?;
    Ok(fill_columns(decision, columns))
}

// The same with the reply's code point, which must be SQLDARD's: an entry of its own in document 01.
pub fn parse_sqldard(
    code_point: u16,
    reply: &[u8],
    columns: &mut [ColumnMetadata],
) -> Result<Sqldard, Refusal>
    ensures refuses { refusal_in result ≡ (with_code_point page037 (length columns.old) code_point reply.now).refusal }
    ensures gives { IfOk result (λ answer. answer.card ≡ (with_code_point page037 (length columns.old) code_point reply.now).card) }
    ensures counts { IfOk result (λ answer. answer.count ≡ length (with_code_point page037 (length columns.old) code_point reply.now).columns) }
    ensures refused { OnErr result (((with_code_point page037 (length columns.old) code_point reply.now).card ≡ success_card) × ((with_code_point page037 (length columns.old) code_point reply.now).columns ≡ [])) }
    ensures fills { columns.new ≡ over (with_code_point page037 (length columns.old) code_point reply.now).columns columns.old }
{
    let decision = plan::decide_at(code_point, reply, columns.len())?;
    Ok(fill_columns(decision, columns))
}
