// Records made by hand from the bytes of their fixed fields. A byte that no code has becomes the first code.
use bio::{BioMatchR, BioReadR};
use biometric::{BioFormat, BioHead, BioMatch, BioRead, BioType};
use file_transfer::FileTransfer;
use keypad::Keypad;
use led::{LedColor, LedPermanent, LedRecord, LedTemporary};
use mfg::Mfg;
use nak::{Nak, NakErrorCode};
use output::{OutputControlCode, OutputRecord};
use plain::acu_rx_size::AcuRxSize;
use plain::com::AddressAndBaud;
use plain::keep_active::KeepActive;
use plain::lstat::LStatR;
use plain::pdid::PdId;
use raw_card::{Fmt, Raw};
use text::{Text, TextCommand};
use vectors_case::{byte, u16_at, u32_at};
use xrd::Xrd;

pub(crate) fn led(f: &[u8]) -> LedRecord {
    let temporary = LedTemporary::new(
        byte(f, 2),
        byte(f, 3),
        byte(f, 4),
        color(f, 5),
        color(f, 6),
        u16_at(f, 7),
    );
    let permanent = LedPermanent::new(
        byte(f, 9),
        byte(f, 10),
        byte(f, 11),
        color(f, 12),
        color(f, 13),
    );
    LedRecord {
        reader: byte(f, 0),
        led: byte(f, 1),
        temporary,
        permanent,
    }
}

fn color(f: &[u8], at: usize) -> LedColor {
    LedColor::from_byte(byte(f, at))
}

pub(crate) fn output(f: &[u8]) -> OutputRecord {
    let code = OutputControlCode::from_byte(byte(f, 1)).unwrap_or(OutputControlCode::Nop);
    OutputRecord {
        output: byte(f, 0),
        code,
        timer: u16_at(f, 2),
    }
}

pub(crate) fn text(f: &[u8]) -> Text {
    let command = TextCommand::from_byte(byte(f, 1)).unwrap_or(TextCommand::PermanentNoWrap);
    Text {
        reader: byte(f, 0),
        command,
        temp_time_s: byte(f, 2),
        row: byte(f, 3),
        column: byte(f, 4),
    }
}

pub(crate) fn bio_read(f: &[u8]) -> BioRead {
    BioRead { head: head(f) }
}

pub(crate) fn bio_match(f: &[u8]) -> BioMatch {
    BioMatch { head: head(f) }
}

pub(crate) fn bio_read_r(f: &[u8]) -> BioReadR {
    BioReadR { head: head(f) }
}

fn head(f: &[u8]) -> BioHead {
    let bio_type = BioType::from_byte(byte(f, 1));
    let bio_format = BioFormat::from_byte(byte(f, 2));
    BioHead::new(byte(f, 0), bio_type, bio_format, byte(f, 3))
}

pub(crate) fn file_transfer(f: &[u8]) -> FileTransfer {
    FileTransfer {
        file_type: byte(f, 0),
        total_size: u32_at(f, 1),
        offset: u32_at(f, 5),
    }
}

pub(crate) fn mfg(f: &[u8]) -> Mfg {
    Mfg {
        oui_0: byte(f, 0),
        oui_1: byte(f, 1),
        oui_2: byte(f, 2),
    }
}

pub(crate) fn raw(f: &[u8]) -> Raw {
    Raw {
        reader: byte(f, 0),
        format_code: byte(f, 1),
        bit_count: u16_at(f, 2),
    }
}

pub(crate) fn fmt(f: &[u8]) -> Fmt {
    Fmt {
        reader: byte(f, 0),
        direction: byte(f, 1),
        char_count: byte(f, 2),
    }
}

pub(crate) fn bio_match_r(f: &[u8]) -> BioMatchR {
    BioMatchR {
        reader: byte(f, 0),
        result: byte(f, 1),
        score: byte(f, 2),
    }
}

pub(crate) fn nak(f: &[u8]) -> Nak {
    Nak::simple(NakErrorCode::from_byte(byte(f, 0)).unwrap_or(NakErrorCode::NoError))
}

pub(crate) fn xrd(f: &[u8]) -> Xrd {
    Xrd { mode: byte(f, 0) }
}

pub(crate) fn keypad(f: &[u8]) -> Keypad {
    Keypad {
        reader: byte(f, 0),
        digit_count: byte(f, 1),
    }
}

pub(crate) fn address_and_baud<const CODE: u8>(f: &[u8]) -> AddressAndBaud<CODE> {
    AddressAndBaud {
        address: byte(f, 0),
        baud: u32_at(f, 1),
    }
}

pub(crate) fn pd_id(f: &[u8]) -> PdId {
    PdId {
        oui_0: byte(f, 0),
        oui_1: byte(f, 1),
        oui_2: byte(f, 2),
        model: byte(f, 3),
        version: byte(f, 4),
        serial: u32_at(f, 5),
        firmware_major: byte(f, 9),
        firmware_minor: byte(f, 10),
        firmware_build: byte(f, 11),
    }
}

pub(crate) fn l_stat_r(f: &[u8]) -> LStatR {
    LStatR {
        tamper: byte(f, 0),
        power: byte(f, 1),
    }
}

pub(crate) fn acu_rx_size(f: &[u8]) -> AcuRxSize {
    AcuRxSize {
        max_size: u16_at(f, 0),
    }
}

pub(crate) fn keep_active(f: &[u8]) -> KeepActive {
    KeepActive {
        duration_ms: u16_at(f, 0),
    }
}
