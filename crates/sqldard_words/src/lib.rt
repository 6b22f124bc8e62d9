// The description entries for programs that cannot lend a list of records: each column in 22 words of 64 bits.
#![tactic(auto)]

ghost use Rattle.std.specs.Prelude.{◌≡◌, ◌≤◌, ◌*◌, ◌/◌, length};
ghost use Rattle.search.specs.Search.{over};
ghost use Rattle.codepage.specs.Page.{page037};
ghost use Rattle.column_words.specs.Words.{all_words};
ghost use Rattle.plan.specs.Decision.{columns_decided, Decides};
ghost use Rattle.plan.specs.Description.{Description, description, with_code_point};
ghost use Rattle.sqldard_words.specs.Given.{Gives};

use column_words::WORDS_PER_COLUMN;
use outcome::Refusal;
use plan::{Decision, Sqldard};

// Writes a decision's columns as words. sqldard writes records, by another filler.
fn fill_words(decision: Decision<'_>, words: &mut [u64]) -> Sqldard
    requires { length (columns_decided decision) * 22 ≤ length words.old }
    ensures gives { result.card ≡ decision.entry.card }
    ensures counts { result.count ≡ length (columns_decided decision.entry) }
    ensures fills { words.new ≡ over (all_words (columns_decided decision.entry)) words.old }
{
    filling::fill_blocks(
        decision.columns(),
        WORDS_PER_COLUMN,
        words,
        column_words::put_column_words,
    );
    Sqldard {
        card: decision.card,
        count: decision.count(),
    }
}

// Writes and answers what was decided, whichever description that carries out.
fn written(decision: Result<Decision<'_>, Refusal>, words: &mut [u64]) -> Result<Sqldard, Refusal>
    requires { (wanted : Description) × Decides (length words.old / 22) decision wanted }
    ensures gives { (wanted : Description) → Decides (length words.old / 22) decision.entry wanted → Gives result wanted }
    ensures fills { (wanted : Description) → Decides (length words.old / 22) decision.entry wanted → words.new ≡ over (all_words wanted.columns) words.old }
{
    let decision = decision?;
    Ok(fill_words(decision, words))
}

// The entry description, with room for a column in each 22 words. Nothing is written where it refuses.
pub fn parse_sqldard_data(reply: &[u8], columns: &mut [u64]) -> Result<Sqldard, Refusal>
    ensures gives { Gives result (description page037 (length columns.old / 22) reply.now) }
    ensures fills { columns.new ≡ over (all_words (description page037 (length columns.old / 22) reply.now).columns) columns.old }
{
    written(
        plan::decide(reply, columns.len() / WORDS_PER_COLUMN),
        columns,
    )
}

// The same with the reply's code point, which must be SQLDARD's: an entry of its own of document 01, a line over `written`.
pub fn parse_sqldard(code_point: u16, reply: &[u8], columns: &mut [u64]) -> Result<Sqldard, Refusal>
    ensures gives { Gives result (with_code_point page037 (length columns.old / 22) code_point reply.now) }
    ensures fills { columns.new ≡ over (all_words (with_code_point page037 (length columns.old / 22) code_point reply.now).columns) columns.old }
{
    written(
        plan::decide_at(code_point, reply, columns.len() / WORDS_PER_COLUMN),
        columns,
    )
}
