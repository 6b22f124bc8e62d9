// The fields of a SQLCA: SQLCODE and its byte order, state and proc, numbers and warnings, the message.
#![tactic(auto)]

ghost use Rattle.std.specs.Prelude.{◌≡◌, ◌+◌, ◌<◌, ◌≤◌, true, false, not, eqb, length, get_or, MatchOption};
ghost use Rattle.search.specs.Search.{each};
ghost use Rattle.codepage.specs.Page.{page037};
ghost use Rattle.field.specs.Numbers.{number, signed};
ghost use Rattle.message.specs.Message.{is_printable, has_text};
ghost use Rattle.sqlca.specs.Code.{is_near, code_bits, code_order, code_of, state_bytes, proc_bytes, numbers_order, fixed_chars};
ghost use Rattle.sqlca.specs.Extension.{is_extended, numbers_from, rows_of, warnings_of, extension_in, extension_of};
ghost use Rattle.sqlca.specs.Message.{bytes_of, message_at};
ghost use Rattle.strings.specs.Strings.{IsRead, IsReadOrCut, strings_end};

use field::ByteOrder;
use message::Message;
use std::array;
use strings::StringRead;

// Within 100,000 of 0 as a signed number.
#[tactic(auto, unfolding(crate::specs::Code::is_near))]
fn is_near(bits: u32) -> bool
    ensures { result ≡ is_near bits }
{
    field::to_signed(bits).unsigned_abs() <= 100_000
}

// One line over `all`, as text's `all_name_chars`: the function that serves any test is std's.
fn all_printable(bytes: &[u8]) -> bool
    ensures { result ≡ each is_printable bytes.now }
{
    bytes.iter().all(|byte| message::is_printable(*byte))
}

// The characters of state or proc, untrimmed.
#[tactic(auto, unfolding(crate::specs::Code::fixed_chars), using(search::proofs::Over::over_whole))]
#[inline(always)]
pub fn fixed_chars(bytes: &[u8], characters: &mut [u8])
    requires { length bytes.now ≡ length characters.old }
    ensures { characters.new ≡ fixed_chars page037 bytes.now }
{
    if all_printable(bytes) {
        characters.copy_from_slice(bytes);
    } else {
        codepage::write_chars(bytes, characters);
    }
}

// The same as an array. Of a slice with a clause, and of no array: a part of the reply is a slice, whose callers would unwrap it.
fn fixed_array<const N: usize>(bytes: &[u8]) -> [u8; N]
    requires { length bytes.now ≡ N }
    ensures { result ≡ fixed_chars page037 bytes.now }
{
    let mut characters = [0; N];
    fixed_chars(bytes, &mut characters);
    characters
}

// By its place: the message is answered as a place in the reply.
fn string_has_text(reply: &[u8], string: StringRead) -> bool
    requires inside { string.place + string.length ≤ length reply.now }
    requires short { string.length ≤ 65535 }
    ensures { result ≡ has_text page037 (bytes_of reply.now string) }
{
    Message::new(&reply[string.place..string.place + string.length]).has_text()
}

// The message of the three strings at `offset`; `next` is past them. As an error m, where it is a text and s is cut off, else none, and in `next`
// how many bytes were expected.
#[tactic(auto, unfolding(crate::specs::Message::message_at, crate::specs::Message::first_text, strings::specs::Strings::strings_end), using(strings::proofs::Strings::string_inside, strings::proofs::Strings::string_next, strings::proofs::Strings::string_stays, strings::proofs::Strings::string_unread, crate::proofs::Messages::rdb_cut, crate::proofs::Messages::m_cut, crate::proofs::Messages::s_cut))]
pub fn message_at(reply: &[u8], offset: usize) -> Result<StringRead, StringRead>
    ensures { IsReadOrCut reply.now (strings_end 3 reply.now offset) (message_at page037 reply.now offset) result }
{
    let rdb = match strings::read_string(reply, offset) {
        Ok(rdb) => rdb,
        Err(expected) => return Err(strings::no_string(expected)),
    };
    let m = match strings::read_string(reply, rdb.next) {
        Ok(m) => m,
        Err(expected) => return Err(strings::no_string(expected)),
    };
    match strings::read_string(reply, m.next) {
        Ok(s) => {
            if string_has_text(reply, m) {
                return Ok(StringRead { next: s.next, ..m });
            }
            if string_has_text(reply, s) {
                return Ok(s);
            }
            Ok(strings::no_string(s.next))
        }
        Err(expected) => {
            if string_has_text(reply, m) {
                return Err(StringRead {
                    next: expected,
                    ..m
                });
            }
            Err(strings::no_string(expected))
        }
    }
}

// The numbers, rows updated and warnings of an extension.
#[derive(Clone, Copy, Debug, Default, PartialEq, Eq)]
pub struct Extension {
    pub sqlerrd: [i32; 6],
    pub rows_updated: u32,
    pub sqlwarn: [u8; 11],
}

// A reply with the 19 bytes of a SQLCA before its extension, which is there as far as the reply goes.
#[derive(Clone, Copy, Debug, PartialEq, Eq)]
pub struct Sqlca<'a> {
    pub reply: &'a [u8],
    ghost whole: { 19 ≤ length reply.now },
}

impl<'a> Sqlca<'a> {
    // None where the reply ends within the 19 bytes before the extension.
    pub fn new(reply: &'a [u8]) -> Option<Sqlca<'a>>
        ensures { MatchOption result (length reply.now < 19) (λ sqlca. sqlca.reply ≡ reply.entry) }
    {
        if reply.len() < 19 {
            return None;
        }
        Some(Sqlca { reply })
    }

    fn code_bits(self, order: ByteOrder) -> u32
        ensures { result ≡ code_bits order self.entry.reply.now }
    {
        field::u32_at(self.reply, 1, order)
    }

    #[tactic(auto, unfolding(crate::specs::Code::code_order))]
    fn sqlcode_order(self) -> ByteOrder
        ensures { result ≡ code_order self.entry.reply.now }
    {
        let big = is_near(self.code_bits(ByteOrder::BigEndian));
        let little = is_near(self.code_bits(ByteOrder::LittleEndian));
        if big && !little {
            ByteOrder::BigEndian
        } else {
            ByteOrder::LittleEndian
        }
    }

    #[tactic(auto, unfolding(crate::specs::Code::code_of))]
    pub fn sqlcode(self) -> i32
        ensures { result ≡ code_of self.entry.reply.now }
    {
        field::to_signed(self.code_bits(self.sqlcode_order()))
    }

    pub fn sqlstate(self) -> [u8; 5]
        ensures { result ≡ fixed_chars page037 (state_bytes self.entry.reply.now) }
    {
        fixed_array(&self.reply[5..10])
    }

    pub fn sqlerrproc(self) -> [u8; 8]
        ensures { result ≡ fixed_chars page037 (proc_bytes self.entry.reply.now) }
    {
        fixed_array(&self.reply[10..18])
    }

    #[tactic(auto, unfolding(crate::specs::Code::numbers_order))]
    fn sqlerrd_order(self) -> ByteOrder
        ensures { result ≡ numbers_order self.entry.reply.now }
    {
        if self.code_bits(ByteOrder::BigEndian) != self.code_bits(ByteOrder::LittleEndian) {
            return self.sqlcode_order();
        }
        if text::is_ascii(&self.reply[5..10]) {
            ByteOrder::LittleEndian
        } else {
            ByteOrder::BigEndian
        }
    }

    // The flag of an extension, which may be due and not there.
    pub fn has_extension(self) -> bool
        ensures { result ≡ not (eqb (get_or self.entry.reply.now 18 0) 0xFF) }
    {
        self.reply[18] != 0xFF
    }

    // Whether a status that is read alone has an extension: its flag says so, and its numbers are there.
    #[tactic(auto, unfolding(crate::specs::Extension::is_extended))]
    pub fn is_extended(self) -> bool
        ensures { result ≡ is_extended self.entry.reply.now }
    {
        self.has_extension() && self.reply.len() >= 43
    }

    fn sqlerrd(self) -> [i32; 6]
        requires { 43 ≤ length self.reply.now }
        ensures { result ≡ numbers_from 6 (numbers_order self.entry.reply.now) self.entry.reply.now 19 }
    {
        let order = self.sqlerrd_order();
        array::from_fn(|i| field::to_signed(field::u32_at(self.reply, 19 + 4 * i, order)))
    }

    fn sqlwarn(self) -> [u8; 11]
        ensures { result ≡ warnings_of self.entry.reply.now }
    {
        let mut sqlwarn = [0; 11];
        if let Some(bytes) = self.reply.get(43..54) {
            sqlwarn.copy_from_slice(bytes);
        }
        sqlwarn
    }

    // What is there of the extension, where it counts as present.
    #[tactic(auto, using(crate::proofs::Extended::extended_room))]
    pub fn extension(self) -> Option<Extension>
        ensures { MatchOption result (is_extended self.entry.reply.now ≡ false) (λ extension. (is_extended self.entry.reply.now ≡ true) × (extension ≡ extension_in (numbers_order self.entry.reply.now) self.entry.reply.now)) }
    {
        if !self.is_extended() {
            return None;
        }
        let sqlerrd = self.sqlerrd();
        Some(Extension {
            sqlerrd,
            rows_updated: u32::try_from(sqlerrd[2]).unwrap_or(0),
            sqlwarn: self.sqlwarn(),
        })
    }

    // The same, all 0 where it counts as absent.
    #[tactic(auto, unfolding(crate::specs::Extension::extension_of))]
    #[inline(always)]
    pub fn read_extension(self) -> Extension
        ensures { result ≡ extension_of self.entry.reply.now }
    {
        self.extension().unwrap_or_default()
    }

    // The same of this reply, its error a number, as in strings. By itself: where the reply ends early, no text is asked for, which a reply of random
    // bytes took 100,000 instructions for; and a status takes 50 less.
    #[tactic(auto, unfolding(crate::specs::Message::message_at, crate::specs::Message::first_text, strings::specs::Strings::strings_end), using(strings::proofs::Strings::string_inside, strings::proofs::Strings::string_next, strings::proofs::Strings::string_stays))]
    pub fn message_at(self, offset: usize) -> Result<StringRead, usize>
        ensures { IsRead self.entry.reply.now (strings_end 3 self.entry.reply.now offset) (λ message. message ≡ message_at page037 self.entry.reply.now offset) result }
    {
        let rdb = strings::read_string(self.reply, offset)?;
        let m = strings::read_string(self.reply, rdb.next)?;
        let s = strings::read_string(self.reply, m.next)?;
        if string_has_text(self.reply, m) {
            return Ok(StringRead { next: s.next, ..m });
        }
        if string_has_text(self.reply, s) {
            return Ok(s);
        }
        Ok(strings::no_string(s.next))
    }
}
