// What the library says of a payload, in words.
use crate::record::record;
use inspect_fields::{of, tail};
use inspect_form::names;
use inspect_form::sentences::sentence;
use inspect_form::shown::Hex;
use inspect_line::Head;
use led::{Generation, LedRecord};
use lists::ListRecord;
use osdp::{Kind, Side};
use output::OutputRecord;
use payload_util::Refusal;
use std::io;
use std::io::Write;

// What stands before a payload, and how long it is.
fn heading<W: Write>(head: Head, len: usize, out: &mut W) -> io::Result<()> {
    let code = head.code;
    let (side, name) = match head.side {
        Side::Command => ("command", names::command(code)),
        Side::Reply => ("reply", names::reply(code)),
    };
    write!(out, "{side} {code:02X}")?;
    if let Some(name) = name {
        write!(out, " {name}")?;
    }
    writeln!(out, ", length {len}")
}

// A refusal: its row's number, its two numbers, and what it means.
pub fn refusal<W: Write>(e: Refusal, out: &mut W) -> io::Result<()> {
    writeln!(
        out,
        "refused, row {} ({}, {}): {}",
        e.row.number(),
        e.first,
        e.second,
        sentence(e.row)
    )
}

// The records, one after another; only LED and OUT have more than one. By offset, since that is shown too.
fn records<W: Write>(kind: Kind, p: &[u8], tail: &[u8], out: &mut W) -> io::Result<()> {
    let width = match kind {
        Kind::Led => LedRecord::WIRE_LEN,
        Kind::Out => OutputRecord::WIRE_LEN,
        _ => return record(kind, &of(kind, p, 0), tail, out),
    };
    for offset in (0..p.len()).step_by(width) {
        record(kind, &of(kind, p, offset), tail, out)?;
    }
    Ok(())
}

// The strict check's first complaint, under a heading.
fn complaint<W: Write>(heading: &str, checked: Result<(), Refusal>, out: &mut W) -> io::Result<()> {
    match checked {
        Ok(()) => Ok(()),
        Err(e) => {
            write!(out, "  {heading}: ")?;
            refusal(e, out)
        }
    }
}

// What the strict check says for the second generation, and for the first where that is something else.
fn strict<W: Write>(head: Head, p: &[u8], out: &mut W) -> io::Result<()> {
    let second = osdp::strict(head.side, head.code, p, Generation::Second);
    let first = osdp::strict(head.side, head.code, p, Generation::First);
    complaint("strict", second, &mut *out)?;
    if first == second {
        return Ok(());
    }
    complaint("strict, first generation", first, out)
}

// The normalised bytes, where they are not the payload's.
fn normalised<W: Write>(head: Head, p: &[u8], space: &mut [u8], out: &mut W) -> io::Result<()> {
    let Ok(n) = osdp::normalise(head.side, head.code, p, &mut *space) else {
        return Ok(());
    };
    match space.get(..n) {
        Some(bytes) if bytes != p => writeln!(out, "  normalised:{}", Hex(bytes)),
        _ => Ok(()),
    }
}

// A payload that was not refused. The space is for RAW's bits and for the normalised bytes.
fn accepted<W: Write>(head: Head, p: &[u8], space: &mut [u8], out: &mut W) -> io::Result<()> {
    let Ok(kind) = osdp::kind_of(head.side, head.code) else {
        return Ok(());
    };
    records(kind, p, tail(kind, p, &mut *space), out)?;
    strict(head, p, out)?;
    normalised(head, p, space, out)
}

// A payload under its heading, or its refusal; and which of the two it was.
pub(crate) fn payload<W: Write>(
    head: Head,
    p: &[u8],
    space: &mut [u8],
    out: &mut W,
) -> io::Result<bool> {
    heading(head, p.len(), &mut *out)?;
    match osdp::check(head.side, head.code, p) {
        Ok(()) => {
            accepted(head, p, space, out)?;
            Ok(true)
        }
        Err(e) => {
            write!(out, "  ")?;
            refusal(e, out)?;
            Ok(false)
        }
    }
}
