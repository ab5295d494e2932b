// The readers, for tools/bench to time: a call for each kind, and one for frames, reads a record and its tail, and answers with a number that each
// field, the tail's length and its last byte change, or with the refusal's number negated. The contracts say when it is which, and not which number
// it is. Of the writer of frames and of the CRC they say everything.
#![tactic(auto)]

use crate::number::{answered, sum, tailed};
use bio::{BioMatchR, BioReadR};
use biometric::{BioHead, BioMatch, BioRead};
use file_transfer::FileTransfer;
use keypad::Keypad;
use mfg::Mfg;
use nak::Nak;
use payload_util::Record;
use raw_card::{Fmt, Raw};
use text::Text;
use xrd::Xrd;

mod exact;
mod frames;
mod list;
mod number;

ghost use Rattle.payload_util.specs.Prelude.{check};
ghost use Rattle.text.specs.Text.{text_kind};
ghost use Rattle.biometric.specs.Biometric.{bio_read, bio_match};
ghost use Rattle.file_transfer.specs.FileTransfer.{file_transfer};
ghost use Rattle.mfg.specs.Mfg.{mfg};
ghost use Rattle.raw_card.specs.Raw.{raw};
ghost use Rattle.raw_card.specs.Fmt.{fmt};
ghost use Rattle.bio.specs.Bio.{bio_read_r, bio_match_r};
ghost use Rattle.nak.specs.Nak.{nak};
ghost use Rattle.xrd.specs.Xrd.{xrd};
ghost use Rattle.keypad.specs.Keypad.{keypad};
ghost use Rattle.bench_read.specs.Answer.{Answers};

fn head(h: BioHead) -> u64 {
    sum(&[
        h.reader,
        h.bio_type.as_byte(),
        h.bio_format.as_byte(),
        h.quality,
    ])
}

fn file(f: FileTransfer) -> u64 {
    f.file_type as u64 + f.total_size as u64 + f.offset as u64
}

fn text(t: Text) -> u64 {
    sum(&[
        t.reader,
        t.command.as_byte(),
        t.temp_time_s,
        t.row,
        t.column,
    ])
}

fn raw(r: Raw) -> u64 {
    sum(&[r.reader, r.format_code]).wrapping_add(r.bit_count as u64)
}

#[unsafe(no_mangle)]
pub extern "C" fn bench_read_text(p: &[u8]) -> i32
    ensures { Answers (check text_kind p.now) result }
{
    answered(Text::decode(p), |t| tailed(text(t), Text::text(p)))
}

#[unsafe(no_mangle)]
pub extern "C" fn bench_read_bioread(p: &[u8]) -> i32
    ensures { Answers (check bio_read p.now) result }
{
    answered(BioRead::decode(p), |b| head(b.head))
}

#[unsafe(no_mangle)]
pub extern "C" fn bench_read_biomatch(p: &[u8]) -> i32
    ensures { Answers (check bio_match p.now) result }
{
    answered(
        BioMatch::decode(p),
        |b| tailed(head(b.head), BioMatch::template(p)),
    )
}

#[unsafe(no_mangle)]
pub extern "C" fn bench_read_filetransfer(p: &[u8]) -> i32
    ensures { Answers (check file_transfer p.now) result }
{
    answered(
        FileTransfer::decode(p),
        |f| tailed(file(f), FileTransfer::fragment(p)),
    )
}

#[unsafe(no_mangle)]
pub extern "C" fn bench_read_mfg(p: &[u8]) -> i32
    ensures { Answers (check mfg p.now) result }
{
    answered(
        Mfg::decode(p),
        |m| tailed(sum(&[m.oui_0, m.oui_1, m.oui_2]), Mfg::payload(p)),
    )
}

#[unsafe(no_mangle)]
pub extern "C" fn bench_read_raw(p: &[u8]) -> i32
    ensures { Answers (check raw p.now) result }
{
    answered(Raw::decode(p), |r| tailed(raw(r), Raw::bits(p)))
}

#[unsafe(no_mangle)]
pub extern "C" fn bench_read_fmt(p: &[u8]) -> i32
    ensures { Answers (check fmt p.now) result }
{
    answered(
        Fmt::decode(p),
        |f| tailed(sum(&[f.reader, f.direction, f.char_count]), Fmt::chars(p)),
    )
}

#[unsafe(no_mangle)]
pub extern "C" fn bench_read_bioreadr(p: &[u8]) -> i32
    ensures { Answers (check bio_read_r p.now) result }
{
    answered(
        BioReadR::decode(p),
        |b| tailed(head(b.head), BioReadR::data(p)),
    )
}

#[unsafe(no_mangle)]
pub extern "C" fn bench_read_biomatchr(p: &[u8]) -> i32
    ensures { Answers (check bio_match_r p.now) result }
{
    answered(
        BioMatchR::decode(p),
        |b| sum(&[b.reader, b.result, b.score]),
    )
}

#[unsafe(no_mangle)]
pub extern "C" fn bench_read_nak(p: &[u8]) -> i32
    ensures { Answers (check nak p.now) result }
{
    answered(
        Nak::decode(p),
        |n| tailed(n.error.as_byte() as u64, Nak::completion_codes(p)),
    )
}

#[unsafe(no_mangle)]
pub extern "C" fn bench_read_xrd(p: &[u8]) -> i32
    ensures { Answers (check xrd p.now) result }
{
    answered(Xrd::decode(p), |x| tailed(x.mode as u64, Xrd::payload(p)))
}

#[unsafe(no_mangle)]
pub extern "C" fn bench_read_keypad(p: &[u8]) -> i32
    ensures { Answers (check keypad p.now) result }
{
    answered(
        Keypad::decode(p),
        |k| tailed(sum(&[k.reader, k.digit_count]), Keypad::digits(p)),
    )
}
