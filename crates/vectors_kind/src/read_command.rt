// The readers of TEXT, FILETRANSFER and MFG.
use crate::names;
use file_transfer::FileTransfer;
use mfg::Mfg;
use payload_util::Record;
use text::Text;
use vectors_case::{Case, u32_bytes};

// Where the text and the fragment begin in the wanted bytes: after the fixed fields and the length.
const TEXT_AT: usize = 6;

const FRAGMENT_AT: usize = 11;

pub(crate) fn text(c: Case) -> bool {
    let fixed = Text::decode(c.input).map(text_fields);
    crate::reads(c, fixed, Text::text(c.input), TEXT_AT)
}

fn text_fields(r: Text) -> [u8; 5] {
    [
        r.reader,
        names::text(r.command),
        r.temp_time_s,
        r.row,
        r.column,
    ]
}

pub(crate) fn file_transfer(c: Case) -> bool {
    let fixed = FileTransfer::decode(c.input).map(file_fields);
    crate::reads(c, fixed, FileTransfer::fragment(c.input), FRAGMENT_AT)
}

fn file_fields(r: FileTransfer) -> [u8; 9] {
    let total = u32_bytes(r.total_size);
    let offset = u32_bytes(r.offset);
    [
        r.file_type,
        total[0],
        total[1],
        total[2],
        total[3],
        offset[0],
        offset[1],
        offset[2],
        offset[3],
    ]
}

pub(crate) fn mfg(c: Case) -> bool {
    let fixed = Mfg::decode(c.input).map(|r| [r.oui_0, r.oui_1, r.oui_2]);
    crate::reads(c, fixed, Mfg::payload(c.input), 3)
}
