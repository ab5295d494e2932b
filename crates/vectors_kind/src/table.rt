// Class 0: the code tables. The argument is the table, the input the byte to look up, the output the byte of its code.
use crate::names;
use biometric::{BioFormat, BioType};
use codes::{CommandCode, ReplyCode};
use led::LedColor;
use nak::NakErrorCode;
use output::OutputControlCode;
use payload_util::Refusal;
use text::TextCommand;
use vectors_case::Case;

pub fn run(c: Case) -> bool {
    let [b] = c.input else {
        return false;
    };
    match look_up(c.argument, *b) {
        Some(Ok(bytes)) => c.wanted.is_ok() && c.want.len() == 1 && bytes == [c.want[0]; 2],
        Some(Err(e)) => c.refuses(e),
        None => false,
    }
}

// The byte of the code that b names: as the library gives it, and by the code's name. None if there is no such table.
fn look_up(table: usize, b: u8) -> Option<Result<[u8; 2], Refusal>> {
    let found = match table {
        0 => CommandCode::from_byte(b).map(|code| [code.as_byte(), names::command(code)]),
        1 => ReplyCode::from_byte(b).map(|code| [code.as_byte(), names::reply(code)]),
        2 => {
            let code = LedColor::from_byte(b);
            Ok([code.as_byte(), names::color(code)])
        }
        3 => {
            let code = BioType::from_byte(b);
            Ok([code.as_byte(), names::bio_type(code)])
        }
        4 => {
            let code = BioFormat::from_byte(b);
            Ok([code.as_byte(), names::bio_format(code)])
        }
        5 => OutputControlCode::from_byte(b).map(|code| [code.as_byte(), names::output(code)]),
        6 => TextCommand::from_byte(b).map(|code| [code.as_byte(), names::text(code)]),
        7 => NakErrorCode::from_byte(b).map(|code| [code.as_byte(), names::nak(code)]),
        _ => return None,
    };
    Some(found)
}
