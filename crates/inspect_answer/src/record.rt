// The records of the kinds, each field under the Rust's name.
use inspect_form::names;
use inspect_form::shown::{Bits, Hex, Keys, Text};
use osdp::Kind;
use std::io;
use std::io::Write;

// A tail in hex, under its name.
fn hex<W: Write>(name: &str, tail: &[u8], out: &mut W) -> io::Result<()> {
    writeln!(out, "  {name}:{}", Hex(tail))
}

fn led<W: Write>(fields: &[u64; 15], out: &mut W) -> io::Result<()> {
    let [
        record,
        offset,
        reader,
        led,
        control,
        on_time,
        off_time,
        on,
        off,
        timer,
        ..
    ] = *fields;
    writeln!(
        out,
        "  record {record} at offset {offset}: reader {reader}, led {led}"
    )?;
    writeln!(
        out,
        "    temporary: control {control}, on_time {on_time}, off_time {off_time}, on_color {}, off_color {}, timer {timer}",
        names::color(on),
        names::color(off)
    )?;
    let [.., control, on_time, off_time, on, off] = *fields;
    writeln!(
        out,
        "    permanent: control {control}, on_time {on_time}, off_time {off_time}, on_color {}, off_color {}",
        names::color(on),
        names::color(off)
    )
}

fn output<W: Write>(fields: &[u64; 15], out: &mut W) -> io::Result<()> {
    let [record, offset, output, code, timer, ..] = *fields;
    writeln!(
        out,
        "  record {record} at offset {offset}: output {output}, code {}, timer {timer}",
        names::output_code(code)
    )
}

fn text<W: Write>(fields: &[u64; 15], tail: &[u8], out: &mut W) -> io::Result<()> {
    let [reader, command, temp_time_s, row, column, ..] = *fields;
    writeln!(
        out,
        "  reader {reader}, command {}, temp_time_s {temp_time_s}, row {row}, column {column}",
        names::text_command(command)
    )?;
    writeln!(out, "  text: {}", Text(tail))
}

fn bio_head<W: Write>(fields: &[u64; 15], out: &mut W) -> io::Result<()> {
    let [reader, bio_type, bio_format, quality, ..] = *fields;
    writeln!(
        out,
        "  reader {reader}, bio_type {}, bio_format {}, quality {quality}",
        names::bio_type(bio_type),
        names::bio_format(bio_format)
    )
}

fn file_transfer<W: Write>(fields: &[u64; 15], tail: &[u8], out: &mut W) -> io::Result<()> {
    let [file_type, total_size, offset, ..] = *fields;
    writeln!(
        out,
        "  file_type {file_type}, total_size {total_size}, offset {offset}"
    )?;
    hex("fragment", tail, out)
}

fn mfg<W: Write>(fields: &[u64; 15], tail: &[u8], out: &mut W) -> io::Result<()> {
    let [oui_0, oui_1, oui_2, ..] = *fields;
    writeln!(out, "  oui {oui_0:02X} {oui_1:02X} {oui_2:02X}")?;
    hex("payload", tail, out)
}

fn raw<W: Write>(fields: &[u64; 15], tail: &[u8], out: &mut W) -> io::Result<()> {
    let [reader, format_code, bit_count, ..] = *fields;
    writeln!(
        out,
        "  reader {reader}, format_code {format_code}, bit_count {bit_count}"
    )?;
    writeln!(out, "  bits: {}", Bits(tail))
}

fn fmt<W: Write>(fields: &[u64; 15], tail: &[u8], out: &mut W) -> io::Result<()> {
    let [reader, direction, char_count, ..] = *fields;
    writeln!(
        out,
        "  reader {reader}, direction {direction}, char_count {char_count}"
    )?;
    hex("chars", tail, out)?;
    writeln!(out, "  as text: {}", Text(tail))
}

fn bio_match_r<W: Write>(fields: &[u64; 15], out: &mut W) -> io::Result<()> {
    let [reader, outcome, score, ..] = *fields;
    writeln!(out, "  reader {reader}, result {outcome}, score {score}")
}

fn nak<W: Write>(fields: &[u64; 15], tail: &[u8], out: &mut W) -> io::Result<()> {
    let [error, ..] = *fields;
    writeln!(out, "  error {}", names::nak_error(error))?;
    hex("completion_codes", tail, out)
}

fn xrd<W: Write>(fields: &[u64; 15], tail: &[u8], out: &mut W) -> io::Result<()> {
    let [mode, ..] = *fields;
    writeln!(out, "  mode {mode}")?;
    hex("payload", tail, out)
}

fn keypad<W: Write>(fields: &[u64; 15], tail: &[u8], out: &mut W) -> io::Result<()> {
    let [reader, digit_count, ..] = *fields;
    writeln!(out, "  reader {reader}, digit_count {digit_count}")?;
    hex("digits", tail, out)?;
    writeln!(out, "  as text: {}", Keys(tail))
}

// COMSET and COM.
fn address<W: Write>(fields: &[u64; 15], out: &mut W) -> io::Result<()> {
    let [address, baud, ..] = *fields;
    writeln!(out, "  address {address}, baud {baud}")
}

fn pd_id<W: Write>(fields: &[u64; 15], out: &mut W) -> io::Result<()> {
    let [
        oui_0,
        oui_1,
        oui_2,
        model,
        version,
        serial,
        major,
        minor,
        build,
        ..
    ] = *fields;
    write!(out, "  oui {oui_0:02X} {oui_1:02X} {oui_2:02X}, ")?;
    write!(out, "model {model}, version {version}, serial {serial} ")?;
    writeln!(out, "(0x{serial:08X}), firmware {major}.{minor}.{build}")
}

fn l_stat_r<W: Write>(fields: &[u64; 15], out: &mut W) -> io::Result<()> {
    let [tamper, power, ..] = *fields;
    writeln!(
        out,
        "  tamper {}, power {}",
        names::tamper(tamper),
        names::power(power)
    )
}

fn acu_rx_size<W: Write>(fields: &[u64; 15], out: &mut W) -> io::Result<()> {
    let [max_size, ..] = *fields;
    writeln!(out, "  max_size {max_size} bytes")
}

fn keep_active<W: Write>(fields: &[u64; 15], out: &mut W) -> io::Result<()> {
    let [duration_ms, ..] = *fields;
    writeln!(out, "  duration_ms {duration_ms}")
}

// A record, by the fields that inspect_fields gives, and what is after them.
pub(crate) fn record<W: Write>(
    kind: Kind,
    fields: &[u64; 15],
    tail: &[u8],
    out: &mut W,
) -> io::Result<()> {
    match kind {
        Kind::Led => led(fields, out),
        Kind::Out => output(fields, out),
        Kind::Text => text(fields, tail, out),
        Kind::BioRead => bio_head(fields, out),
        Kind::BioMatch => {
            bio_head(fields, out)?;
            hex("template", tail, out)
        }
        Kind::FileTransfer => file_transfer(fields, tail, out),
        Kind::Mfg => mfg(fields, tail, out),
        Kind::Raw => raw(fields, tail, out),
        Kind::Fmt => fmt(fields, tail, out),
        Kind::BioReadR => {
            bio_head(fields, out)?;
            hex("data", tail, out)
        }
        Kind::BioMatchR => bio_match_r(fields, out),
        Kind::Nak => nak(fields, tail, out),
        Kind::Xrd => xrd(fields, tail, out),
        Kind::Keypad => keypad(fields, tail, out),
        Kind::ComSet | Kind::Com => address(fields, out),
        Kind::PdId => pd_id(fields, out),
        Kind::LStatR => l_stat_r(fields, out),
        Kind::AcuRxSize => acu_rx_size(fields, out),
        Kind::KeepActive => keep_active(fields, out),
    }
}
