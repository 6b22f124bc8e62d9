// Records in a payload, 50 bytes each, as docs/ANSWERS.md lays them out: their 22 fields are the 22 words of a column
// that no reply needs to hold.
use crate::instead::Instead;
use crate::payload::Payload;
use column_words::WORDS_PER_COLUMN;

// The bytes of a record.
const RECORD: usize = 50;

// What the type with this code takes of a value: nothing where it has none, the low 8 bits for DecFloat.
fn value_taken(code: u8, value: u16) -> u64 {
    sqlda::type_value(sqlda::type_with(u64::from(code), value))
}

// The three words of a text.
fn text_words(record: &mut Payload) -> Result<[u64; 3], Instead> {
    let place = record.u32()?;
    let length = record.u32()?;
    let alphabet = record.u8()?;
    Ok([u64::from(place), u64::from(length), u64::from(alphabet)])
}

// The words of the fields in front of the texts.
fn number_words(record: &mut Payload) -> Result<[u64; 10], Instead> {
    let number = record.u16()?;
    let code = record.u8()?;
    let value = record.u16()?;
    Ok([
        u64::from(number),
        u64::from(code),
        value_taken(code, value),
        u64::from(record.u8()?),
        u64::from(record.u16()?),
        u64::from(record.u8()?),
        u64::from(record.u8()?),
        u64::from(record.u8()?),
        u64::from(record.u16()?),
        u64::from(record.u8()?),
    ])
}

// One record's words. Whether they are a column's is seen afterwards.
fn fill_record(record: &[u8], words: &mut [u64]) -> Result<(), Instead> {
    let mut record = Payload::new(record);
    let (numbers, texts) = words.split_at_mut_checked(10).ok_or(Instead::Bad)?;
    numbers.copy_from_slice(&number_words(&mut record)?);
    for words in texts.chunks_exact_mut(3) {
        let text = text_words(&mut record)?;
        words.copy_from_slice(&text);
    }
    Ok(())
}

// Bytes and words one by one: what is read and what is written, and nothing keeps both.
// The records' words at the front of `words`, and the words behind them, where the bytes are those of records.
pub(crate) fn fill_records<'a>(
    bytes: &[u8],
    words: &'a mut [u64],
) -> Result<(&'a [u64], &'a mut [u64]), Instead> {
    if bytes.len() % RECORD != 0 {
        return Err(Instead::Bad);
    }
    let end = bytes.len() / RECORD * WORDS_PER_COLUMN;
    let (columns, rest) = words.split_at_mut_checked(end).ok_or(Instead::Bad)?;
    for (record, column) in bytes
        .chunks_exact(RECORD)
        .zip(columns.chunks_exact_mut(WORDS_PER_COLUMN))
    {
        fill_record(record, column)?;
    }
    if column_words::are_columns(columns) {
        Ok((columns, rest))
    } else {
        Err(Instead::Bad)
    }
}
