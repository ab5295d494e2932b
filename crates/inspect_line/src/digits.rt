// Bytes in hex that go on over lines, taken character by character: any blanks between two bytes, and comments after a `#`.
use crate::{Fault, digit, is_blank};

// What the next character belongs to.
#[derive(Clone, Copy, Debug, PartialEq, Eq)]
enum Next {
    First,
    // the second digit of a byte, after this one
    Second(u8),
    // a comment, or what is after a fault
    Rest,
}

#[derive(Clone, Copy)]
pub struct Digits {
    // both count from 1; the column is that of the last character
    pub line: u64,
    pub column: u64,
    next: Next,
}

impl Digits {
    pub fn new() -> Digits {
        Digits {
            line: 1,
            column: 0,
            next: Next::First,
        }
    }

    // Goes on to the next line.
    pub fn restart(&mut self) {
        self.line = self.line.saturating_add(1);
        self.column = 0;
        self.next = Next::First;
    }

    fn second(&mut self, high: u8, b: u8) -> Result<Option<u8>, Fault> {
        if is_blank(b) {
            return Err(Fault::Odd);
        }
        let low = digit(b, Fault::Digit)?;
        self.next = Next::First;
        Ok(Some(high << 4 | low))
    }

    fn first(&mut self, b: u8) -> Result<Option<u8>, Fault> {
        if is_blank(b) {
            return Ok(None);
        }
        self.next = match b {
            b'#' => Next::Rest,
            _ => Next::Second(digit(b, Fault::Digit)?),
        };
        Ok(None)
    }

    // What one more character gives, which does not end the line: a byte, nothing yet, or what is wrong. The rest of a wrong line is passed over.
    pub fn take(&mut self, b: u8) -> Result<Option<u8>, Fault> {
        self.column = self.column.saturating_add(1);
        let taken = match self.next {
            Next::First => self.first(b),
            Next::Second(high) => self.second(high, b),
            Next::Rest => Ok(None),
        };
        if taken.is_err() {
            self.next = Next::Rest;
        }
        taken
    }

    // Ends a line, where a blank completes what it ends in.
    pub fn end(&mut self) -> Result<(), Fault> {
        self.take(b' ').map(|_| ())
    }
}
