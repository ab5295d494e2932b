// What the rows of the refusal table mean.
ghost use Rattle.std.specs.Prelude.{◌<◌, length};

use payload_util::Row;

// What a row refuses, and in brackets what its two numbers are if it has them.
pub fn sentence(row: Row) -> &'static str
    ensures { 0 < length result.now }
{
    match row {
        Row::UnknownCommand => "command byte in no table",
        Row::UnknownReply => "reply byte in no table",
        Row::PayloadLength => "not the exact length (expected, got)",
        Row::PayloadTooShort => "below the least length (least, got)",
        Row::PayloadNotMultiple => {
            "empty or not a multiple of the record length (record length, got)"
        }
        Row::DeclaredLength => "declared length or count is not the payload's (asked for, got)",
        Row::UnknownOutputCode => "output code above 6",
        Row::UnprintableText => "text byte not printable",
        Row::UnknownTextCommand => "TEXT command not 1 to 4",
        Row::UnknownNakError => "NAK error above 9",
        Row::EmptyList => "list without records",
        Row::TailTooLong => "tail too long",
        Row::TailLength => "count is not the tail's",
        Row::NotCarried => "code known, payload not carried",
        Row::BufferTooShort => "output buffer too short (needed, given)",
        Row::NoSuchRecord => "no such record (record, how many)",
        Row::Folded => "byte that reading would fold (offset, byte)",
        Row::SecondGenerationColor =>
            "colour that the first generation does not know (offset, byte)",
        Row::NotAFrame => "not a frame's first byte, control byte, address or sequence",
        Row::WrongCheck => "wrong check of a frame",
        Row::FrameTooLong => "above the house limit",
        Row::PayloadTooLong => "payload too long (longest, got)",
    }
}
