// The description entries, which write columns as words.
ghost use Rattle.std.specs.Prelude.{◌≡◌, ◌/◌, length};
ghost use Rattle.search.specs.Search.{over};
ghost use Rattle.codepage.specs.Page.{page037};
ghost use Rattle.outcome.specs.Refusal.{in_numbers};
ghost use Rattle.column_words.specs.Words.{all_words};
ghost use Rattle.plan.specs.Description.{description, with_code_point};

use crate::SqldardResult;

// The entry description, with room for a column in each 22 words. Nothing is written where it refuses.
pub fn parse_sqldard_data(reply: &[u8], columns: &mut [u64]) -> SqldardResult
    ensures refuses { result.refusal ≡ in_numbers (description page037 (length columns.old / 22) reply.now).refusal }
    ensures gives { result.card ≡ (description page037 (length columns.old / 22) reply.now).card }
    ensures counts { result.count ≡ length (description page037 (length columns.old / 22) reply.now).columns }
    ensures fills { columns.new ≡ over (all_words (description page037 (length columns.old / 22) reply.now).columns) columns.old }
{
    SqldardResult::from(sqldard_words::parse_sqldard_data(reply, columns))
}

// The same with the reply's code point, which must be SQLDARD's: an entry of its own in document 01.
pub fn parse_sqldard(code_point: u16, reply: &[u8], columns: &mut [u64]) -> SqldardResult
    ensures refuses { result.refusal ≡ in_numbers (with_code_point page037 (length columns.old / 22) code_point reply.now).refusal }
    ensures gives { result.card ≡ (with_code_point page037 (length columns.old / 22) code_point reply.now).card }
    ensures counts { result.count ≡ length (with_code_point page037 (length columns.old / 22) code_point reply.now).columns }
    ensures fills { columns.new ≡ over (all_words (with_code_point page037 (length columns.old / 22) code_point reply.now).columns) columns.old }
{
    SqldardResult::from(sqldard_words::parse_sqldard(code_point, reply, columns))
}
