// What is shown of each kind: the fixed fields of its record as numbers, in their order, and its tail.
#![tactic(auto)]

ghost use Rattle.std.specs.Prelude.{◌≡◌, ◌≤◌, length};
ghost use Rattle.inspect_fields.specs.Fields.{padded, placed, led_fields, out_fields, text_fields, head_fields, file_transfer_fields, mfg_fields, raw_fields, fmt_fields, bio_match_r_fields, nak_fields, xrd_fields, keypad_fields, address_and_baud_fields, pd_id_fields, l_stat_r_fields, acu_rx_size_fields, keep_active_fields, fields_of};

use bio::{BioMatchR, BioReadR};
use biometric::{BioHead, BioMatch, BioRead};
use file_transfer::FileTransfer;
use keypad::Keypad;
use led::LedRecord;
use lists::ListRecord;
use mfg::Mfg;
use nak::Nak;
use osdp::Kind;
use output::OutputRecord;
use payload_util::Record;
use plain::acu_rx_size::AcuRxSize;
use plain::com::{AddressAndBaud, Com};
use plain::comset::ComSet;
use plain::keep_active::KeepActive;
use plain::lstat::LStatR;
use plain::pdid::PdId;
use raw_card::{Fmt, Raw};
use text::Text;
use xrd::Xrd;

// The fields of a payload that has no record.
const NONE: [u64; 15] = [0; 15];

// Up to 15 values, and zeros: LED has most.
fn padded(values: &[u64]) -> [u64; 15]
    requires { length values.now ≤ 15 }
    ensures { result ≡ padded values.now }
{
    let mut all = NONE;
    all[..values.len()].copy_from_slice(values);
    all
}

// A record of a list: its number, its offset and the fields.
fn led(r: LedRecord, offset: usize) -> [u64; 15]
    ensures { result ≡ padded (placed 14 offset (led_fields r)) }
{
    let t = r.temporary;
    let u = r.permanent;
    [
        (offset / LedRecord::WIRE_LEN) as u64,
        offset as u64,
        r.reader as u64,
        r.led as u64,
        t.control as u64,
        t.on_time as u64,
        t.off_time as u64,
        t.on_color.as_byte() as u64,
        t.off_color.as_byte() as u64,
        t.timer as u64,
        u.control as u64,
        u.on_time as u64,
        u.off_time as u64,
        u.on_color.as_byte() as u64,
        u.off_color.as_byte() as u64,
    ]
}

fn output(r: OutputRecord, offset: usize) -> [u64; 15]
    ensures { result ≡ padded (placed 4 offset (out_fields r)) }
{
    padded(&[
        (offset / OutputRecord::WIRE_LEN) as u64,
        offset as u64,
        r.output as u64,
        r.code.as_byte() as u64,
        r.timer as u64,
    ])
}

fn text(t: Text) -> [u64; 15]
    ensures { result ≡ padded (text_fields t) }
{
    padded(&[
        t.reader as u64,
        t.command.as_byte() as u64,
        t.temp_time_s as u64,
        t.row as u64,
        t.column as u64,
    ])
}

fn bio_head(h: BioHead) -> [u64; 15]
    ensures { result ≡ padded (head_fields h) }
{
    padded(&[
        h.reader as u64,
        h.bio_type.as_byte() as u64,
        h.bio_format.as_byte() as u64,
        h.quality as u64,
    ])
}

fn file_transfer(r: FileTransfer) -> [u64; 15]
    ensures { result ≡ padded (file_transfer_fields r) }
{
    padded(&[r.file_type as u64, r.total_size as u64, r.offset as u64])
}

fn mfg(r: Mfg) -> [u64; 15]
    ensures { result ≡ padded (mfg_fields r) }
{
    padded(&[r.oui_0 as u64, r.oui_1 as u64, r.oui_2 as u64])
}

fn raw(r: Raw) -> [u64; 15]
    ensures { result ≡ padded (raw_fields r) }
{
    padded(&[r.reader as u64, r.format_code as u64, r.bit_count as u64])
}

fn fmt(r: Fmt) -> [u64; 15]
    ensures { result ≡ padded (fmt_fields r) }
{
    padded(&[r.reader as u64, r.direction as u64, r.char_count as u64])
}

fn bio_match_r(r: BioMatchR) -> [u64; 15]
    ensures { result ≡ padded (bio_match_r_fields r) }
{
    padded(&[r.reader as u64, r.result as u64, r.score as u64])
}

fn nak(r: Nak) -> [u64; 15]
    ensures { result ≡ padded (nak_fields r) }
{
    padded(&[r.error.as_byte() as u64])
}

fn xrd(r: Xrd) -> [u64; 15]
    ensures { result ≡ padded (xrd_fields r) }
{
    padded(&[r.mode as u64])
}

fn keypad(r: Keypad) -> [u64; 15]
    ensures { result ≡ padded (keypad_fields r) }
{
    padded(&[r.reader as u64, r.digit_count as u64])
}

fn address_and_baud<const CODE: u8>(r: AddressAndBaud<CODE>) -> [u64; 15]
    ensures { result ≡ padded (address_and_baud_fields r.entry) }
{
    padded(&[r.address as u64, r.baud as u64])
}

fn pd_id(r: PdId) -> [u64; 15]
    ensures { result ≡ padded (pd_id_fields r) }
{
    padded(&[
        r.oui_0 as u64,
        r.oui_1 as u64,
        r.oui_2 as u64,
        r.model as u64,
        r.version as u64,
        r.serial as u64,
        r.firmware_major as u64,
        r.firmware_minor as u64,
        r.firmware_build as u64,
    ])
}

fn l_stat_r(r: LStatR) -> [u64; 15]
    ensures { result ≡ padded (l_stat_r_fields r) }
{
    padded(&[r.tamper as u64, r.power as u64])
}

fn acu_rx_size(r: AcuRxSize) -> [u64; 15]
    ensures { result ≡ padded (acu_rx_size_fields r) }
{
    padded(&[r.max_size as u64])
}

fn keep_active(r: KeepActive) -> [u64; 15]
    ensures { result ≡ padded (keep_active_fields r) }
{
    padded(&[r.duration_ms as u64])
}

// The fields of a payload's record, or zeros where it has none. Of LED and OUT that is the record at the offset, after its number and the
// offset; of the others the offset says nothing.
pub fn of(kind: Kind, p: &[u8], offset: usize) -> [u64; 15]
    ensures { result ≡ padded (fields_of kind p.now offset) }
{
    match kind {
        Kind::Led => match LedRecord::decode_at(p, offset) {
            Some(r) => led(r, offset),
            None => NONE,
        },
        Kind::Out => match OutputRecord::decode_at(p, offset) {
            Ok(r) => output(r, offset),
            Err(_) => NONE,
        },
        Kind::Text => Text::decode(p).map_or(NONE, text),
        Kind::BioRead => BioRead::decode(p).map(|r| r.head).map_or(NONE, bio_head),
        Kind::BioMatch => BioMatch::decode(p).map(|r| r.head).map_or(NONE, bio_head),
        Kind::FileTransfer => FileTransfer::decode(p).map_or(NONE, file_transfer),
        Kind::Mfg => Mfg::decode(p).map_or(NONE, mfg),
        Kind::Raw => Raw::decode(p).map_or(NONE, raw),
        Kind::Fmt => Fmt::decode(p).map_or(NONE, fmt),
        Kind::BioReadR => BioReadR::decode(p).map(|r| r.head).map_or(NONE, bio_head),
        Kind::BioMatchR => BioMatchR::decode(p).map_or(NONE, bio_match_r),
        Kind::Nak => Nak::decode(p).map_or(NONE, nak),
        Kind::Xrd => Xrd::decode(p).map_or(NONE, xrd),
        Kind::Keypad => Keypad::decode(p).map_or(NONE, keypad),
        Kind::ComSet => ComSet::decode(p).map_or(NONE, address_and_baud),
        Kind::Com => Com::decode(p).map_or(NONE, address_and_baud),
        Kind::PdId => PdId::decode(p).map_or(NONE, pd_id),
        Kind::LStatR => LStatR::decode(p).map_or(NONE, l_stat_r),
        Kind::AcuRxSize => AcuRxSize::decode(p).map_or(NONE, acu_rx_size),
        Kind::KeepActive => KeepActive::decode(p).map_or(NONE, keep_active),
    }
}

// Puts RAW's bits, a byte each, at the start of the space, and answers how many there are.
fn spread(p: &[u8], space: &mut [u8]) -> usize
    ensures { result ≤ length space.new }
{
    let Ok(r) = Raw::decode(p) else {
        return 0;
    };
    let n = r.iter_bits(Raw::bits(p), &mut *space).unwrap_or(0);
    n.min(space.len())
}

fn bits<'a>(p: &[u8], space: &'a mut [u8]) -> &'a [u8] {
    let n = spread(p, &mut *space);
    &space[..n]
}

// What a payload has after its fixed fields; of RAW the bits, a byte each, which are put into the space.
pub fn tail<'a>(kind: Kind, p: &'a [u8], space: &'a mut [u8]) -> &'a [u8] {
    match kind {
        Kind::Text => Text::text(p),
        Kind::BioMatch => BioMatch::template(p),
        Kind::FileTransfer => FileTransfer::fragment(p),
        Kind::Mfg => Mfg::payload(p),
        Kind::Raw => bits(p, space),
        Kind::Fmt => Fmt::chars(p),
        Kind::BioReadR => BioReadR::data(p),
        Kind::Nak => Nak::completion_codes(p),
        Kind::Xrd => Xrd::payload(p),
        Kind::Keypad => Keypad::digits(p),
        Kind::Led | Kind::Out | Kind::BioRead | Kind::BioMatchR => p,
        Kind::ComSet | Kind::Com | Kind::PdId => p,
        Kind::LStatR | Kind::AcuRxSize | Kind::KeepActive => p,
    }
}
