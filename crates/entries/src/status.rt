// The status record, read alone or as the group at the reply's start.
ghost use Rattle.std.specs.Prelude.{◌≡◌};
ghost use Rattle.codepage.specs.Page.{page037};
ghost use Rattle.outcome.specs.Refusal.{in_numbers};
ghost use Rattle.sqlcard.specs.Alone.{alone_refusal, alone_card};
ghost use Rattle.sqlcard.specs.Group.{group_refusal, group_card, group_length};

use crate::{GroupResult, SqlcardResult};

// The entry status alone.
#[tactic(auto, using(crate::proofs::Answers::alone_given))]
pub fn parse_sqlcard_data(reply: &[u8]) -> SqlcardResult
    ensures refuses { result.refusal ≡ in_numbers (alone_refusal reply.now) }
    ensures gives { result.card ≡ alone_card page037 reply.now }
{
    SqlcardResult::from(sqlcard::read_sqlcard_data(reply))
}

// The entry SQLCA group.
#[tactic(auto, using(crate::proofs::Answers::group_given, crate::proofs::Answers::group_taken))]
pub fn consume_sqlca_group(reply: &[u8]) -> GroupResult
    ensures refuses { result.refusal ≡ in_numbers (group_refusal reply.now) }
    ensures gives { result.card ≡ group_card page037 reply.now }
    ensures takes { result.length ≡ group_length reply.now }
{
    GroupResult::from(sqlcard::consume_sqlca_group(reply))
}
