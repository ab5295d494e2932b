// The kinds' own checks and normalisers, which have no limit on the payload's length: for classes 5 and 6 of crates/vectors. None for a code byte
// that no kind has. Each has a `match` of its own, since the way from code byte to kind in osdp is what is tested.
#![tactic(auto)]

use bio::{BioMatchR, BioReadR};
use biometric::{BioMatch, BioRead};
use file_transfer::FileTransfer;
use keypad::Keypad;
use led::LedRecord;
use mfg::Mfg;
use nak::Nak;
use output::OutputRecord;
use payload_util::{Payload, Refusal};
use plain::acu_rx_size::AcuRxSize;
use plain::com::Com;
use plain::comset::ComSet;
use plain::keep_active::KeepActive;
use plain::lstat::LStatR;
use plain::pdid::PdId;
use raw_card::{Fmt, Raw};
use text::Text;
use vectors_case::{
    ACURXSIZE, BIOMATCH, BIOMATCHR, BIOREAD, BIOREADR, COM, COMSET, FILETRANSFER, FMT, KEEPACTIVE,
    KEYPAD, LED, LSTATR, MFG, NAK, OUT, PDID, RAW, TEXT, XRD,
};
use xrd::Xrd;

pub fn check(code: u8, p: &[u8]) -> Option<Result<(), Refusal>> {
    let answer = match code {
        LED => LedRecord::check(p),
        OUT => OutputRecord::check(p),
        TEXT => Text::check(p),
        BIOREAD => BioRead::check(p),
        BIOMATCH => BioMatch::check(p),
        FILETRANSFER => FileTransfer::check(p),
        MFG => Mfg::check(p),
        RAW => Raw::check(p),
        FMT => Fmt::check(p),
        BIOREADR => BioReadR::check(p),
        BIOMATCHR => BioMatchR::check(p),
        NAK => Nak::check(p),
        XRD => Xrd::check(p),
        KEYPAD => Keypad::check(p),
        COMSET => ComSet::check(p),
        COM => Com::check(p),
        PDID => PdId::check(p),
        LSTATR => LStatR::check(p),
        ACURXSIZE => AcuRxSize::check(p),
        KEEPACTIVE => KeepActive::check(p),
        _ => return None,
    };
    Some(answer)
}

pub fn normalise(code: u8, p: &[u8], out: &mut [u8]) -> Option<Result<usize, Refusal>> {
    let answer = match code {
        LED => LedRecord::normalise(p, out),
        OUT => OutputRecord::normalise(p, out),
        TEXT => Text::normalise(p, out),
        BIOREAD => BioRead::normalise(p, out),
        BIOMATCH => BioMatch::normalise(p, out),
        FILETRANSFER => FileTransfer::normalise(p, out),
        MFG => Mfg::normalise(p, out),
        RAW => Raw::normalise(p, out),
        FMT => Fmt::normalise(p, out),
        BIOREADR => BioReadR::normalise(p, out),
        BIOMATCHR => BioMatchR::normalise(p, out),
        NAK => Nak::normalise(p, out),
        XRD => Xrd::normalise(p, out),
        KEYPAD => Keypad::normalise(p, out),
        COMSET => ComSet::normalise(p, out),
        COM => Com::normalise(p, out),
        PDID => PdId::normalise(p, out),
        LSTATR => LStatR::normalise(p, out),
        ACURXSIZE => AcuRxSize::normalise(p, out),
        KEEPACTIVE => KeepActive::normalise(p, out),
        _ => return None,
    };
    Some(answer)
}
