// The names of codes, which are the Rust's; those of command and reply bytes in capitals.
ghost use Rattle.std.specs.Prelude.{◌≡◌, ◌&&◌, ltb, length, is_some, is_ok};
ghost use Rattle.codes.specs.CommandCode.{read_command};
ghost use Rattle.codes.specs.ReplyCode.{read_reply};

use crate::shown::Coded;
use codes::{CommandCode, ReplyCode};

// A name for each byte of the code table, and for no other.
pub fn command(code: u8) -> Option<&'static str>
    ensures { is_some result ≡ is_ok (read_command code) }
{
    Some(match CommandCode::from_byte(code).ok()? {
        CommandCode::Poll => "POLL",
        CommandCode::Id => "ID",
        CommandCode::Cap => "CAP",
        CommandCode::LStat => "LSTAT",
        CommandCode::IStat => "ISTAT",
        CommandCode::OStat => "OSTAT",
        CommandCode::RStat => "RSTAT",
        CommandCode::Out => "OUT",
        CommandCode::Led => "LED",
        CommandCode::Buz => "BUZ",
        CommandCode::Text => "TEXT",
        CommandCode::ComSet => "COMSET",
        CommandCode::BioRead => "BIOREAD",
        CommandCode::BioMatch => "BIOMATCH",
        CommandCode::KeySet => "KEYSET",
        CommandCode::Chlng => "CHLNG",
        CommandCode::SCrypt => "SCRYPT",
        CommandCode::AcuRxSize => "ACURXSIZE",
        CommandCode::FileTransfer => "FILETRANSFER",
        CommandCode::Mfg => "MFG",
        CommandCode::XWrite => "XWRITE",
        CommandCode::Abort => "ABORT",
        CommandCode::PivData => "PIVDATA",
        CommandCode::GenAuth => "GENAUTH",
        CommandCode::CrAuth => "CRAUTH",
        CommandCode::KeepActive => "KEEPACTIVE",
    })
}

pub fn reply(code: u8) -> Option<&'static str>
    ensures { is_some result ≡ is_ok (read_reply code) }
{
    Some(match ReplyCode::from_byte(code).ok()? {
        ReplyCode::Ack => "ACK",
        ReplyCode::Nak => "NAK",
        ReplyCode::PdId => "PDID",
        ReplyCode::PdCap => "PDCAP",
        ReplyCode::LStatR => "LSTATR",
        ReplyCode::IStatR => "ISTATR",
        ReplyCode::OStatR => "OSTATR",
        ReplyCode::RStatR => "RSTATR",
        ReplyCode::Raw => "RAW",
        ReplyCode::Fmt => "FMT",
        ReplyCode::Keypad => "KEYPAD",
        ReplyCode::Com => "COM",
        ReplyCode::BioReadR => "BIOREADR",
        ReplyCode::BioMatchR => "BIOMATCHR",
        ReplyCode::CCrypt => "CCRYPT",
        ReplyCode::RMacI => "RMACI",
        ReplyCode::Busy => "BUSY",
        ReplyCode::FtStat => "FTSTAT",
        ReplyCode::PivDataR => "PIVDATAR",
        ReplyCode::GenAuthR => "GENAUTHR",
        ReplyCode::CrAuthR => "CRAUTHR",
        ReplyCode::MfgStatR => "MFGSTATR",
        ReplyCode::MfgErrR => "MFGERRR",
        ReplyCode::MfgRep => "MFGREP",
        ReplyCode::Xrd => "XRD",
    })
}

// A code whose names are counted from 0.
fn coded(number: u64, names: &[&'static str]) -> Coded
    ensures number { result.number ≡ number }
    ensures named { is_some result.name ≡ ltb number (length names.now) }
{
    Coded {
        number,
        name: names.get(number as usize).copied(),
    }
}

pub fn color(number: u64) -> Coded
    ensures number { result.number ≡ number }
    ensures named { is_some result.name ≡ ltb number 8 }
{
    coded(
        number,
        &[
            "Black", "Red", "Green", "Amber", "Blue", "Magenta", "Cyan", "White",
        ],
    )
}

pub fn output_code(number: u64) -> Coded
    ensures number { result.number ≡ number }
    ensures named { is_some result.name ≡ ltb number 7 }
{
    coded(
        number,
        &[
            "Nop",
            "PermanentOffAbortTimed",
            "PermanentOnAbortTimed",
            "PermanentOffAllowTimed",
            "PermanentOnAllowTimed",
            "TemporaryOnResume",
            "TemporaryOffResume",
        ],
    )
}

// Its numbers begin with 1.
pub fn text_command(number: u64) -> Coded
    ensures number { result.number ≡ number }
    ensures named { is_some result.name ≡ (ltb 0 number && ltb number 5) }
{
    let name = match number {
        1 => Some("PermanentNoWrap"),
        2 => Some("PermanentWrap"),
        3 => Some("TemporaryNoWrap"),
        4 => Some("TemporaryWrap"),
        _ => None,
    };
    Coded { number, name }
}

pub fn bio_type(number: u64) -> Coded
    ensures number { result.number ≡ number }
    ensures named { is_some result.name ≡ ltb number 18 }
{
    coded(
        number,
        &[
            "NotSpecified",
            "RightThumb",
            "RightIndex",
            "RightMiddle",
            "RightRing",
            "RightLittle",
            "LeftThumb",
            "LeftIndex",
            "LeftMiddle",
            "LeftRing",
            "LeftLittle",
            "RightIris",
            "RightRetina",
            "LeftIris",
            "LeftRetina",
            "Face",
            "RightHandGeometry",
            "LeftHandGeometry",
        ],
    )
}

pub fn bio_format(number: u64) -> Coded
    ensures number { result.number ≡ number }
    ensures named { is_some result.name ≡ ltb number 3 }
{
    coded(
        number,
        &["NotSpecified", "FingerprintRawPgm", "FingerprintAnsi378"],
    )
}

pub fn nak_error(number: u64) -> Coded
    ensures number { result.number ≡ number }
    ensures named { is_some result.name ≡ ltb number 10 }
{
    coded(
        number,
        &[
            "NoError",
            "BadCrcOrChecksum",
            "CommandLengthError",
            "UnknownCommandCode",
            "UnexpectedSequenceNumber",
            "SecurityBlockTypeNotSupported",
            "EncryptedCommunicationRequired",
            "BioTypeNotSupported",
            "BioFormatNotSupported",
            "UnableToProcessCommandRecord",
        ],
    )
}

pub fn tamper(number: u64) -> Coded
    ensures number { result.number ≡ number }
    ensures named { is_some result.name ≡ ltb number 2 }
{
    coded(number, &["normal", "tamper"])
}

pub fn power(number: u64) -> Coded
    ensures number { result.number ≡ number }
    ensures named { is_some result.name ≡ ltb number 2 }
{
    coded(number, &["normal", "power failure"])
}
