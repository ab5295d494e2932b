// Classes 7, 8 and 9: the writers of records made by hand, and RAW's bits.
ghost use Rattle.std.specs.Prelude.{◌≡◌, true, ℕ};
ghost use Rattle.payload_util.specs.Refusals.{Outcome};
ghost use Rattle.vectors_case.specs.Case.{Tried};

use crate::{lend, record};
use payload_util::Refusal;
use raw_card::Raw;
use vectors_case::{
    ACURXSIZE, BIOMATCH, BIOMATCHR, BIOREAD, BIOREADR, COM, COMSET, Case, FILETRANSFER, FMT,
    KEEPACTIVE, KEYPAD, LED, LSTATR, MFG, NAK, OUT, PDID, RAW, TEXT, XRD,
};

pub fn command(c: Case, out: &mut [u8]) -> bool
    ensures { (result ≡ true) → (written : Outcome ℕ) × Tried c.entry written out.new }
{
    let Some((fixed, tail)) = split(c) else {
        return false;
    };
    c.writes_wanted(out, |room| write_command(c.code, fixed, tail, room))
}

pub fn reply(c: Case, out: &mut [u8]) -> bool
    ensures { (result ≡ true) → (written : Outcome ℕ) × Tried c.entry written out.new }
{
    let Some((fixed, tail)) = split(c) else {
        return false;
    };
    c.writes_wanted(out, |room| write_reply(c.code, fixed, tail, room))
}

pub fn bits(c: Case, out: &mut [u8]) -> bool
    ensures { (result ≡ true) → (written : Outcome ℕ) × Tried c.entry written out.new }
{
    c.writes_wanted(out, |room| write_bits(c.argument, c.input, room))
}

// The record's fixed fields are before an index, and its tail is from there on. None if the input ends before it.
fn split(c: Case) -> Option<(&[u8], &[u8])> {
    c.input.split_at_checked(c.argument)
}

fn write_command(
    code: u8,
    f: &[u8],
    tail: &[u8],
    out: &mut [u8],
) -> Option<Result<usize, Refusal>> {
    let written = match code {
        LED => return lend::leds(f, out),
        OUT => return lend::outputs(f, out),
        TEXT => record::text(f).encode(tail, out),
        BIOREAD => record::bio_read(f).encode(out),
        BIOMATCH => record::bio_match(f).encode(tail, out),
        FILETRANSFER => record::file_transfer(f).encode(tail, out),
        MFG => record::mfg(f).encode(tail, out),
        COMSET => record::address_and_baud::<COMSET>(f).encode(out),
        ACURXSIZE => record::acu_rx_size(f).encode(out),
        KEEPACTIVE => record::keep_active(f).encode(out),
        _ => return None,
    };
    Some(written)
}

fn write_reply(code: u8, f: &[u8], tail: &[u8], out: &mut [u8]) -> Option<Result<usize, Refusal>> {
    let written = match code {
        RAW => record::raw(f).encode(tail, out),
        FMT => record::fmt(f).encode(tail, out),
        BIOREADR => record::bio_read_r(f).encode(tail, out),
        BIOMATCHR => record::bio_match_r(f).encode(out),
        NAK => record::nak(f).encode(tail, out),
        XRD => record::xrd(f).encode(tail, out),
        KEYPAD => record::keypad(f).encode(tail, out),
        COM => record::address_and_baud::<COM>(f).encode(out),
        PDID => record::pd_id(f).encode(out),
        LSTATR => record::l_stat_r(f).encode(out),
        _ => return None,
    };
    Some(written)
}

fn write_bits(count: usize, bytes: &[u8], out: &mut [u8]) -> Option<Result<usize, Refusal>> {
    let raw = Raw {
        reader: 0,
        format_code: 0,
        bit_count: u16::try_from(count).ok()?,
    };
    Some(raw.iter_bits(bytes, out))
}
