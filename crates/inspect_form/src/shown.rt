// Bytes, and codes with their names, as they are shown.
use std::fmt;

// As text, with a point for each byte that is not printable.
#[derive(Clone, Copy)]
pub struct Text<'a>(pub &'a [u8]);

// As what was typed at a keypad: a printable character as it is; in angle brackets, clear and enter by name and every other byte in hex. An
// opening bracket that was typed is shown in hex too, so that what stands in brackets is never taken for typed characters.
#[derive(Clone, Copy)]
pub struct Keys<'a>(pub &'a [u8]);

// As two hex digits each, after a space.
#[derive(Clone, Copy)]
pub struct Hex<'a>(pub &'a [u8]);

// As a digit each, 0 or 1.
#[derive(Clone, Copy)]
pub struct Bits<'a>(pub &'a [u8]);

// A code's number and, if it has one, its name.
#[derive(Clone, Copy)]
pub struct Coded {
    pub number: u64,
    pub name: Option<&'static str>,
}

impl fmt::Display for Text<'_> {
    fn fmt<W: fmt::Write>(&self, f: &mut fmt::Formatter<W>) -> fmt::Result {
        for b in self.0 {
            match *b {
                b' '..=b'~' => f.write_char(char::from(*b))?,
                _ => f.write_char('.')?,
            }
        }
        Ok(())
    }
}

impl fmt::Display for Keys<'_> {
    fn fmt<W: fmt::Write>(&self, f: &mut fmt::Formatter<W>) -> fmt::Result {
        for b in self.0 {
            match *b {
                0x7F => f.write_str("<clear>")?,
                0x0D => f.write_str("<enter>")?,
                b' '..=b';' | b'='..=b'~' => f.write_char(char::from(*b))?,
                _ => write!(f, "<{b:02X}>")?,
            }
        }
        Ok(())
    }
}

impl fmt::Display for Hex<'_> {
    fn fmt<W: fmt::Write>(&self, f: &mut fmt::Formatter<W>) -> fmt::Result {
        for b in self.0 {
            write!(f, " {b:02X}")?;
        }
        Ok(())
    }
}

impl fmt::Display for Bits<'_> {
    fn fmt<W: fmt::Write>(&self, f: &mut fmt::Formatter<W>) -> fmt::Result {
        for b in self.0 {
            f.write_char(if *b % 2 == 0 { '0' } else { '1' })?;
        }
        Ok(())
    }
}

impl fmt::Display for Coded {
    fn fmt<W: fmt::Write>(&self, f: &mut fmt::Formatter<W>) -> fmt::Result {
        let number = self.number;
        match self.name {
            Some(name) => write!(f, "{number} {name}"),
            None => write!(f, "{number}"),
        }
    }
}
