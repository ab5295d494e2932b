// Classes 5 and 6: a payload, read, checked and written again, by its code byte and by its kind.
ghost use Rattle.std.specs.Prelude.{◌≡◌, ◌⊎◌, true};
ghost use Rattle.led.specs.declared.Generation.TheVariants.{First, Second};
ghost use Rattle.osdp.specs.ByCode.{strict};
ghost use Rattle.vectors_case.specs.Case.{wanted_of_first};

use led::Generation;
use osdp::{Kind, Side};
use payload_util::{Refusal, Row};
use vectors_case::{
    ACURXSIZE, BIOMATCH, BIOMATCHR, BIOREAD, BIOREADR, COM, COMSET, Case, FILETRANSFER, FMT,
    KEEPACTIVE, KEYPAD, LED, LSTATR, MFG, NAK, OUT, PDID, RAW, TEXT, XRD,
};
use vectors_kind::reader;

// Arguments: the calls that are asked for. Any other number asks for all.
const BY_CODE: usize = 1;

const OF_KIND: usize = 2;

pub fn run(side: Side, c: Case, out: &mut [u8]) -> bool
    ensures second { (result ≡ true) → (c.entry.argument ≡ 2) ⊎ (strict side c.entry.code c.entry.input.now Second ≡ c.entry.wanted) }
    ensures first { (result ≡ true) → (c.entry.argument ≡ 2) ⊎ (strict side c.entry.code c.entry.input.now First ≡ wanted_of_first c.entry) }
{
    by_code(side, c, &mut *out) && of_kind(side, c, out)
}

fn by_code(side: Side, c: Case, out: &mut [u8]) -> bool
    ensures second { (result ≡ true) → (c.entry.argument ≡ 2) ⊎ (strict side c.entry.code c.entry.input.now Second ≡ c.entry.wanted) }
    ensures first { (result ≡ true) → (c.entry.argument ≡ 2) ⊎ (strict side c.entry.code c.entry.input.now First ≡ wanted_of_first c.entry) }
{
    if c.argument == OF_KIND {
        return true;
    }
    let (code, p) = (c.code, c.input);
    let read = reading(c);
    finds(c, osdp::kind_of(side, code))
        && c.guards(osdp::strict(side, code, p, Generation::Second))
        && osdp::strict(side, code, p, Generation::First) == c.wanted_of_first()
        && read.guards(osdp::check(side, code, p))
        && read.writes_wanted(out, |room| Some(osdp::normalise(side, code, p, room)))
}

// False if no kind has the code byte.
fn of_kind(side: Side, c: Case, out: &mut [u8]) -> bool {
    if c.argument == BY_CODE {
        return true;
    }
    let (code, p) = (c.code, c.input);
    let read = reading(c);
    reads(side, read)
        && vectors_own::check(code, p).is_some_and(|g| read.guards(g))
        && read.writes_wanted(out, |room| vectors_own::normalise(code, p, room))
}

// Whether what a code byte was found to be is what the case says.
fn finds(c: Case, found: Result<Kind, Refusal>) -> bool {
    match found {
        Ok(kind) => code_of(kind) == c.code && !is_of_code(c),
        Err(e) => c.refuses(e),
    }
}

// Whether the wanted refusal is one of a code byte, whatever the payload.
fn is_of_code(c: Case) -> bool {
    c.wanted.is_err_and(|e| {
        matches!(
            e.row,
            Row::UnknownCommand | Row::UnknownReply | Row::NotCarried
        )
    })
}

// The code byte of a kind, by docs/REQUIREMENTS.md.
fn code_of(kind: Kind) -> u8 {
    match kind {
        Kind::Led => LED,
        Kind::Out => OUT,
        Kind::Text => TEXT,
        Kind::BioRead => BIOREAD,
        Kind::BioMatch => BIOMATCH,
        Kind::FileTransfer => FILETRANSFER,
        Kind::Mfg => MFG,
        Kind::Raw => RAW,
        Kind::Fmt => FMT,
        Kind::BioReadR => BIOREADR,
        Kind::BioMatchR => BIOMATCHR,
        Kind::Nak => NAK,
        Kind::Xrd => XRD,
        Kind::Keypad => KEYPAD,
        Kind::ComSet => COMSET,
        Kind::Com => COM,
        Kind::PdId => PDID,
        Kind::LStatR => LSTATR,
        Kind::AcuRxSize => ACURXSIZE,
        Kind::KeepActive => KEEPACTIVE,
    }
}

// Whether the kind's reader gives the wanted fields and the wanted tail. False if no kind has the code byte.
fn reads(side: Side, c: Case) -> bool {
    match side {
        Side::Command => reader::command(c),
        Side::Reply => reader::reply(c),
    }
}

// What reading has to answer: only the strict check gives row 17.
fn reading(c: Case) -> Case {
    match c.wanted {
        Err(e) if e.row == Row::Folded => Case {
            wanted: Ok(()),
            ..c
        },
        _ => c,
    }
}
