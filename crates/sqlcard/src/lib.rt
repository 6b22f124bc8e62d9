// The status record of a reply, read alone or as the group at the reply's start.
#![tactic(auto)]

ghost use Rattle.std.specs.Prelude.{◌≡◌, ◌<◌, ◌≤◌, length, IfOk, unwrap_or};
ghost use Rattle.std.specs.Result.{OnErr};
ghost use Rattle.codepage.specs.Page.{page037};
ghost use Rattle.outcome.specs.Refusal.{refusal_in};
ghost use Rattle.sqlcard.specs.declared.SqlCard.{SqlCard};
ghost use Rattle.sqlcard.specs.Card.{success_card, card_with};
ghost use Rattle.sqlcard.specs.Alone.{starts_null, alone_message, alone_refusal, alone_card};
ghost use Rattle.sqlcard.specs.Group.{group_end, group_message, group_refusal, group_card, group_length};
ghost use Rattle.sqlcard.specs.Sqldhgrp.{sqldhgrp_end};
ghost use Rattle.strings.specs.Strings.{IsRead};

use outcome::Refusal;
use sqlca::{Extension, Sqlca};
use std::marker::Model;
use strings::StringRead;

// A message is its raw string's place and length in the reply, 0 and 0 where there is none: C reads these fields, and has no `Option`.
#[repr(C)]
#[derive(Clone, Copy, Debug, PartialEq, Eq)]
pub struct SqlCard {
    // A flag of its own, since C has no `Option`: the other fields are those of success then.
    pub is_null: bool,
    pub sqlcode: i32,
    pub sqlstate: [u8; 5],
    pub sqlerrproc: [u8; 8],
    // 8, or 0 in the status for success, whose proc is empty.
    pub sqlerrproc_length: u8,
    pub sqlerrd: [i32; 6],
    pub rows_fetched: u64,
    pub rows_updated: u32,
    pub sqlwarn: [u8; 11],
    pub message_place: usize,
    pub message_length: usize,
}

impl SqlCard {
    // No `Default`, which would not say that it is the status for success.
    pub fn success() -> Self
        ensures { result ≡ success_card }
    {
        SqlCard {
            is_null: true,
            sqlcode: 0,
            sqlstate: [0x30; 5],
            sqlerrproc: [0; 8],
            sqlerrproc_length: 0,
            sqlerrd: [0; 6],
            rows_fetched: 0,
            rows_updated: 0,
            sqlwarn: [0; 11],
            message_place: 0,
            message_length: 0,
        }
    }

    #[tactic(auto, unfolding(crate::specs::Card::card_with))]
    fn with_message(sqlca: Sqlca, message: StringRead) -> Self
        ensures { result ≡ card_with page037 sqlca.entry.reply.now message }
    {
        let sqlstate = sqlca.sqlstate();
        let sqlerrproc = sqlca.sqlerrproc();
        let Extension {
            sqlerrd,
            rows_updated,
            sqlwarn,
        } = sqlca.read_extension();
        SqlCard {
            is_null: false,
            sqlcode: sqlca.sqlcode(),
            sqlstate,
            sqlerrproc,
            sqlerrproc_length: 8,
            sqlerrd,
            rows_fetched: 0,
            rows_updated,
            sqlwarn,
            message_place: message.place,
            message_length: message.length,
        }
    }
}

// A status that is not null, its card not made yet. A quick path: it is answered in registers, and a card, 88 bytes, through memory that is copied.
#[derive(Drop)]
pub struct StatusRead<'a> {
    sqlca: Sqlca<'a>,
    message: StringRead,
}

impl<'a> Model for StatusRead<'a> {
    ghost Value = { SqlCard };

    ghost view = { λ status. card_with page037 status.sqlca.reply.now status.message };
}

impl<'a> StatusRead<'a> {
    pub fn card(self) -> SqlCard
        ensures { result ≡ self.entry }
    {
        SqlCard::with_message(self.sqlca, self.message)
    }
}

fn starts_null(reply: &[u8]) -> bool
    ensures { result ≡ starts_null reply.now }
{
    matches!(reply, [0xFF, ..])
}

// The message of a status that is read alone; `next` is past the status. The error is a number here and below, as in strings.
#[tactic(auto, unfolding(crate::specs::Alone::alone_message), using(sqlca::proofs::Messages::message_next))]
fn alone_message(sqlca: Sqlca) -> Result<StringRead, usize>
    ensures { IsRead sqlca.entry.reply.now (alone_message page037 sqlca.entry.reply.now).next (λ message. message ≡ alone_message page037 sqlca.entry.reply.now) result }
{
    if !sqlca.is_extended() {
        return Ok(strings::no_string(19));
    }
    let start = if sqlca.reply.len() >= 54 { 54 } else { 43 };
    sqlca.message_at(start)
}

// The message of the group; an extension that is due is asked for at its first string.
#[tactic(auto, unfolding(crate::specs::Group::group_message), using(sqlca::proofs::Messages::message_next))]
fn group_message(sqlca: Sqlca) -> Result<StringRead, usize>
    ensures { IsRead sqlca.entry.reply.now (group_message page037 sqlca.entry.reply.now).next (λ message. message ≡ group_message page037 sqlca.entry.reply.now) result }
{
    if !sqlca.has_extension() {
        return Ok(strings::no_string(19));
    }
    if sqlca.reply.len() < 56 {
        return Err(56);
    }
    sqlca.message_at(54)
}

// The entry status alone, its card not made yet; None for success, where the status is null or the reply empty. An extension counts as far as it is there.
#[tactic(auto, unfolding(crate::specs::Alone::alone_refusal, crate::specs::Alone::alone_card), using(crate::proofs::Alones::alone_next))]
#[inline(always)]
pub fn read_sqlcard_data<'a>(reply: &'a [u8]) -> Result<Option<StatusRead<'a>>, Refusal>
    ensures refuses { refusal_in result ≡ alone_refusal reply.now }
    ensures gives { IfOk result (λ card. unwrap_or card success_card ≡ alone_card page037 reply.now) }
    ensures refused { OnErr result (alone_card page037 reply.now ≡ success_card) }
{
    let actual = reply.len();
    if actual > outcome::MOST_BYTES {
        return Err(Refusal::ReplyTooLong);
    }
    if reply.is_empty() || starts_null(reply) {
        return Ok(None);
    }
    let Some(sqlca) = Sqlca::new(reply) else {
        return Err(Refusal::InvalidSqlcard);
    };
    let message = alone_message(sqlca).map_err(|expected| Refusal::BufferTooShort {
        expected,
        actual,
    })?;
    Ok(Some(StatusRead { sqlca, message }))
}

// The entry status alone.
pub fn parse_sqlcard_data(reply: &[u8]) -> Result<SqlCard, Refusal>
    ensures refuses { refusal_in result ≡ alone_refusal reply.now }
    ensures gives { IfOk result (λ card. card ≡ alone_card page037 reply.now) }
    ensures refused { OnErr result (alone_card page037 reply.now ≡ success_card) }
{
    match read_sqlcard_data(reply) {
        Ok(Some(status)) => Ok(status.card()),
        Ok(None) => Ok(SqlCard::success()),
        Err(refusal) => Err(refusal),
    }
}

// A status record, and how many bytes of the reply its group takes. A struct, and no pair, which would name neither.
#[derive(Clone, Copy, Debug, PartialEq, Eq)]
pub struct Group {
    pub card: SqlCard,
    pub length: usize,
}

// The entry SQLCA group: an extension that is due must be there in full. Inlined as the status is: 34 instructions less.
#[tactic(auto, unfolding(crate::specs::Group::group_refusal, crate::specs::Group::group_card, crate::specs::Group::group_length, crate::specs::Group::group_end), using(crate::proofs::Groups::group_next, crate::proofs::Groups::group_null, crate::proofs::Groups::group_read))]
#[inline(always)]
pub fn consume_sqlca_group(reply: &[u8]) -> Result<Group, Refusal>
    ensures refuses { refusal_in result ≡ group_refusal reply.now }
    ensures gives { IfOk result (λ group. group.card ≡ group_card page037 reply.now) }
    ensures takes { IfOk result (λ group. group.length ≡ group_length reply.now) }
    ensures refused { OnErr result ((group_card page037 reply.now ≡ success_card) × (group_length reply.now ≡ 0)) }
{
    let actual = reply.len();
    if actual > outcome::MOST_BYTES {
        return Err(Refusal::ReplyTooLong);
    }
    if starts_null(reply) {
        return Ok(Group {
            card: SqlCard::success(),
            length: 1,
        });
    }
    let Some(sqlca) = Sqlca::new(reply) else {
        return Err(Refusal::BufferTooShort {
            expected: 19,
            actual,
        });
    };
    let message = group_message(sqlca).map_err(|expected| Refusal::BufferTooShort {
        expected,
        actual,
    })?;
    Ok(Group {
        card: SqlCard::with_message(sqlca, message),
        length: message.next,
    })
}

// Past the group, its status left unread: for the readings that start behind it.
#[tactic(auto, unfolding(crate::specs::Group::group_end))]
pub fn sqlca_end(reply: &[u8]) -> Result<usize, usize>
    ensures { IsRead reply.now (group_end reply.now) (λ end. end ≡ group_end reply.now) result }
{
    if starts_null(reply) {
        return Ok(1);
    }
    match reply.get(18) {
        None => Err(19),
        Some(0xFF) => Ok(19),
        Some(_) if reply.len() < 56 => Err(56),
        Some(_) => strings::skip_strings(reply, 54, 3),
    }
}

// Past the group between the SQLCA and the columns, whose flag stands at `offset`.
#[tactic(auto, unfolding(crate::specs::Sqldhgrp::sqldhgrp_end))]
pub fn skip_sqldhgrp(reply: &[u8], offset: usize) -> Result<usize, usize>
    requires { offset < length reply.now }
    ensures { IsRead reply.now (sqldhgrp_end reply.now offset) (λ next. next ≡ sqldhgrp_end reply.now offset) result }
{
    if reply[offset] == 0xFF {
        return Ok(offset + 1);
    }
    strings::skip_strings(reply, offset + 13, 3)
}
