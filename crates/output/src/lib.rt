// How programs print what is not printed by std.
#![tactic(auto)]

mod type_names;

ghost use Rattle.std.specs.Prelude.{Some};
ghost use Rattle.std.specs.Fmt.{signed_decimal};

use std::fmt;
pub use type_names::type_name;

// Characters, each of a byte, as status records and texts have them; `.` stands for a control.
#[derive(Clone, Copy, Debug)]
pub struct Characters<'a>(pub &'a [u8]);

fn printed(character: u8) -> char {
    let character = char::from(character);
    if character.is_control() {
        '.'
    } else {
        character
    }
}

impl fmt::Display for Characters<'_> {
    fn fmt<W: fmt::Write>(&self, f: &mut fmt::Formatter<W>) -> fmt::Result {
        let characters = self.0;
        // A quick path: those of ASCII are written at once.
        if characters.iter().all(|character| character.is_ascii()
            && !character.is_ascii_control())
        {
            if let Ok(text) = std::str::from_utf8(characters) {
                return f.write_str(text);
            }
        }
        for character in characters {
            f.write_char(printed(*character))?;
        }
        Ok(())
    }
}

// Two lower-case digits for each byte, `-` where there is none.
#[derive(Clone, Copy, Debug)]
pub struct Hex<'a>(pub &'a [u8]);

impl fmt::Display for Hex<'_> {
    fn fmt<W: fmt::Write>(&self, f: &mut fmt::Formatter<W>) -> fmt::Result {
        let bytes = self.0;
        if bytes.is_empty() {
            return f.write_str("-");
        }
        for byte in bytes {
            write!(f, "{byte:02x}")?;
        }
        Ok(())
    }
}

// A code of a status record, with its sign. std promises the same of an `i32`: this type has the promise in the repository, where the programs that
// print a code have none.
#[derive(Clone, Copy, Debug)]
pub struct Sqlcode(pub i32);

impl fmt::Display for Sqlcode {
    ghost output = { λ code. Some (signed_decimal code.0) };

    fn fmt<W: fmt::Write>(&self, f: &mut fmt::Formatter<W>) -> fmt::Result {
        let code = self.0;
        write!(f, "{code}")
    }
}

// Characters without the blanks at their end.
pub fn without_blanks(characters: &[u8]) -> &[u8] {
    match characters.iter().rposition(|character| *character != b' ') {
        Some(last) => &characters[..=last],
        None => &[],
    }
}
