// What the library says of a frame, in words.
use crate::answer::{payload, refusal};
use frame::Frame;
use inspect_line::Head;
use osdp::Side;
use std::io;
use std::io::Write;

// What a frame says beside its payload, and the payload; and whether this was accepted.
pub fn parts<W: Write>(
    frame: Frame,
    bytes: &[u8],
    space: &mut [u8],
    out: &mut W,
) -> io::Result<bool> {
    let (side, way) = if frame.reply {
        (Side::Reply, "from")
    } else {
        (Side::Command, "to")
    };
    let check = if frame.crc { "CRC" } else { "sum" };
    let [address, sequence] = [frame.address, frame.sequence];
    writeln!(
        out,
        "  {way} address {address}, sequence {sequence}, {check}"
    )?;
    write!(out, "  ")?;
    let head = Head {
        side,
        code: frame.code,
    };
    payload(head, frame.payload_in(bytes), space, out)
}

// A frame, or its refusal; and whether it and its payload were accepted.
pub(crate) fn whole<W: Write>(bytes: &[u8], space: &mut [u8], out: &mut W) -> io::Result<bool> {
    writeln!(out, "frame, length {}", bytes.len())?;
    match Frame::decode(bytes) {
        Ok(frame) => parts(frame, bytes, space, out),
        Err(e) => {
            write!(out, "  ")?;
            refusal(e, out)?;
            Ok(false)
        }
    }
}
