// The static library for programs in other languages. Each function hands on to the entry of its name, and promises what that does; so programs
// in Rattle can call the entries too, as none can depend on a static library.
#![tactic(auto)]

ghost use Rattle.codepage.specs.Page.{page037};
ghost use Rattle.column_name.specs.Name.{name_length, name_refusal, name_written};
ghost use Rattle.column_name.specs.Part.{part_refusal, part_of};
ghost use Rattle.column_words.specs.Words.{all_words};
ghost use Rattle.entries.specs.Lists.{words_cut_answer, words_cut_refusal, words_row_answer, words_row_refusal};
ghost use Rattle.entries.specs.Named.{named_column};
ghost use Rattle.entries.specs.Part.{part_length, part_place};
ghost use Rattle.message_text.specs.Answer.{message_length, message_refusal, message_written};
ghost use Rattle.name_words.specs.Texts.{text_words};
ghost use Rattle.names.specs.Names.{name_scan};
ghost use Rattle.outcome.specs.Refusal.{in_numbers};
ghost use Rattle.plan.specs.Description.{description, with_code_point};
ghost use Rattle.search.specs.Search.{over};
ghost use Rattle.sqlcard.specs.Alone.{alone_card, alone_refusal};
ghost use Rattle.sqlcard.specs.Group.{group_card, group_length, group_refusal};
ghost use Rattle.std.specs.Prelude.{length, ◌/◌, ◌≡◌};
ghost use Rattle.text.specs.Text.{text_is};
ghost use lib.ListN.{drop, take};

use entries::{CountResult, CutResult, GroupResult, PartResult, SqlcardResult, SqldardResult};

// The entry description, with room for a column in each 22 words. Nothing is written where it refuses.
#[unsafe(no_mangle)]
pub extern "C" fn jigshard_parse_sqldard_data(reply: &[u8], columns: &mut [u64]) -> SqldardResult
    ensures refuses { result.refusal ≡ in_numbers (description page037 (length columns.old / 22) reply.now).refusal }
    ensures gives { result.card ≡ (description page037 (length columns.old / 22) reply.now).card }
    ensures counts { result.count ≡ length (description page037 (length columns.old / 22) reply.now).columns }
    ensures fills { columns.new ≡ over (all_words (description page037 (length columns.old / 22) reply.now).columns) columns.old }
{
    entries::description::parse_sqldard_data(reply, columns)
}

// The same with the reply's code point, which must be SQLDARD's.
#[unsafe(no_mangle)]
pub extern "C" fn jigshard_parse_sqldard(
    code_point: u16,
    reply: &[u8],
    columns: &mut [u64],
) -> SqldardResult
    ensures refuses { result.refusal ≡ in_numbers (with_code_point page037 (length columns.old / 22) code_point reply.now).refusal }
    ensures gives { result.card ≡ (with_code_point page037 (length columns.old / 22) code_point reply.now).card }
    ensures counts { result.count ≡ length (with_code_point page037 (length columns.old / 22) code_point reply.now).columns }
    ensures fills { columns.new ≡ over (all_words (with_code_point page037 (length columns.old / 22) code_point reply.now).columns) columns.old }
{
    entries::description::parse_sqldard(code_point, reply, columns)
}

// The entry status alone.
#[unsafe(no_mangle)]
pub extern "C" fn jigshard_parse_sqlcard_data(reply: &[u8]) -> SqlcardResult
    ensures refuses { result.refusal ≡ in_numbers (alone_refusal reply.now) }
    ensures gives { result.card ≡ alone_card page037 reply.now }
{
    entries::status::parse_sqlcard_data(reply)
}

// The entry SQLCA group.
#[unsafe(no_mangle)]
pub extern "C" fn jigshard_consume_sqlca_group(reply: &[u8]) -> GroupResult
    ensures refuses { result.refusal ≡ in_numbers (group_refusal reply.now) }
    ensures gives { result.card ≡ group_card page037 reply.now }
    ensures takes { result.length ≡ group_length reply.now }
{
    entries::status::consume_sqlca_group(reply)
}

// The entry name scan, with room for a text in each 3 words. Nothing is written where it refuses.
#[unsafe(no_mangle)]
pub extern "C" fn jigshard_scan_column_names(reply: &[u8], names: &mut [u64]) -> CountResult
    ensures refuses { result.refusal ≡ in_numbers (name_scan page037 (length names.old / 3) reply.now).refusal }
    ensures counts { result.count ≡ length (name_scan page037 (length names.old / 3) reply.now).names }
    ensures fills { names.new ≡ over (text_words (name_scan page037 (length names.old / 3) reply.now).names) names.old }
{
    entries::name_scan::scan_column_names(reply, names)
}

// The entry name part: where the part lies in the reply. A part without bytes lies at 0.
#[unsafe(no_mangle)]
pub extern "C" fn jigshard_name_part(
    reply: &[u8],
    place: usize,
    length: usize,
    alphabet: u8,
) -> PartResult
    ensures refuses { result.refusal ≡ in_numbers (part_refusal reply.now (text_is place length alphabet)) }
    ensures places { result.place ≡ part_place reply.now (text_is place length alphabet) }
    ensures counts { result.length ≡ part_length reply.now (text_is place length alphabet) }
    ensures gives { take result.length (drop result.place reply.now) ≡ part_of reply.now (text_is place length alphabet) }
{
    entries::texts::name_part(reply, place, length, alphabet)
}

// The entry name text.
#[unsafe(no_mangle)]
pub extern "C" fn jigshard_name_text(
    reply: &[u8],
    number: u16,
    place: usize,
    length: usize,
    alphabet: u8,
    buffer: &mut [u8],
) -> CountResult
    ensures refuses { result.refusal ≡ in_numbers (name_refusal page037 reply.now (named_column number place length alphabet) (lib.ListN.length buffer.old)) }
    ensures counts { result.count ≡ name_length page037 reply.now (named_column number place length alphabet) (lib.ListN.length buffer.old) }
    ensures leaves { buffer.new ≡ name_written page037 reply.now (named_column number place length alphabet) buffer.old }
{
    entries::texts::name_text(reply, number, place, length, alphabet, buffer)
}

// The entry message text.
#[unsafe(no_mangle)]
pub extern "C" fn jigshard_message_text(
    reply: &[u8],
    place: usize,
    length: usize,
    buffer: &mut [u8],
) -> CountResult
    ensures refuses { result.refusal ≡ in_numbers (message_refusal page037 reply.now place length (lib.ListN.length buffer.old)) }
    ensures counts { result.count ≡ message_length page037 reply.now place length (lib.ListN.length buffer.old) }
    ensures leaves { buffer.new ≡ message_written page037 reply.now place length buffer.old }
{
    entries::texts::message_text(reply, place, length, buffer)
}

// The entry same cut: `first` and `second` are lists of columns, 22 words each.
#[unsafe(no_mangle)]
pub extern "C" fn jigshard_same_cut(first: &[u64], second: &[u64]) -> CutResult
    ensures refuses { result.refusal ≡ in_numbers (words_cut_refusal first.now second.now) }
    ensures gives { result.same ≡ words_cut_answer first.now second.now }
{
    entries::lists::same_cut(first, second)
}

// The entry widest row: `columns` is a list of columns, 22 words each.
#[unsafe(no_mangle)]
pub extern "C" fn jigshard_widest_row(columns: &[u64]) -> CountResult
    ensures refuses { result.refusal ≡ in_numbers (words_row_refusal columns.now) }
    ensures gives { result.count ≡ words_row_answer columns.now }
{
    entries::lists::widest_row(columns)
}
