// The byte of each code by its name, by docs/REQUIREMENTS.md (R3, R4). The library's as_byte is not used, since it is what is
// tested, and a from_byte that is wrong in the same way would hide it.
use biometric::{BioFormat, BioType};
use codes::{CommandCode, ReplyCode};
use led::LedColor;
use nak::NakErrorCode;
use output::OutputControlCode;
use text::TextCommand;

pub(crate) fn command(code: CommandCode) -> u8 {
    match code {
        CommandCode::Poll => 0x60,
        CommandCode::Id => 0x61,
        CommandCode::Cap => 0x62,
        CommandCode::LStat => 0x64,
        CommandCode::IStat => 0x65,
        CommandCode::OStat => 0x66,
        CommandCode::RStat => 0x67,
        CommandCode::Out => 0x68,
        CommandCode::Led => 0x69,
        CommandCode::Buz => 0x6A,
        CommandCode::Text => 0x6B,
        CommandCode::ComSet => 0x6E,
        CommandCode::BioRead => 0x73,
        CommandCode::BioMatch => 0x74,
        CommandCode::KeySet => 0x75,
        CommandCode::Chlng => 0x76,
        CommandCode::SCrypt => 0x77,
        CommandCode::AcuRxSize => 0x7B,
        CommandCode::FileTransfer => 0x7C,
        CommandCode::Mfg => 0x80,
        CommandCode::XWrite => 0xA1,
        CommandCode::Abort => 0xA2,
        CommandCode::PivData => 0xA3,
        CommandCode::GenAuth => 0xA4,
        CommandCode::CrAuth => 0xA5,
        CommandCode::KeepActive => 0xA7,
    }
}

pub(crate) fn reply(code: ReplyCode) -> u8 {
    match code {
        ReplyCode::Ack => 0x40,
        ReplyCode::Nak => 0x41,
        ReplyCode::PdId => 0x45,
        ReplyCode::PdCap => 0x46,
        ReplyCode::LStatR => 0x48,
        ReplyCode::IStatR => 0x49,
        ReplyCode::OStatR => 0x4A,
        ReplyCode::RStatR => 0x4B,
        ReplyCode::Raw => 0x50,
        ReplyCode::Fmt => 0x51,
        ReplyCode::Keypad => 0x53,
        ReplyCode::Com => 0x54,
        ReplyCode::BioReadR => 0x57,
        ReplyCode::BioMatchR => 0x58,
        ReplyCode::CCrypt => 0x76,
        ReplyCode::RMacI => 0x78,
        ReplyCode::Busy => 0x79,
        ReplyCode::FtStat => 0x7A,
        ReplyCode::PivDataR => 0x80,
        ReplyCode::GenAuthR => 0x81,
        ReplyCode::CrAuthR => 0x82,
        ReplyCode::MfgStatR => 0x83,
        ReplyCode::MfgErrR => 0x84,
        ReplyCode::MfgRep => 0x90,
        ReplyCode::Xrd => 0xB1,
    }
}

pub(crate) fn color(code: LedColor) -> u8 {
    match code {
        LedColor::Black => 0,
        LedColor::Red => 1,
        LedColor::Green => 2,
        LedColor::Amber => 3,
        LedColor::Blue => 4,
        LedColor::Magenta => 5,
        LedColor::Cyan => 6,
        LedColor::White => 7,
    }
}

pub(crate) fn bio_type(code: BioType) -> u8 {
    match code {
        BioType::NotSpecified => 0x00,
        BioType::RightThumb => 0x01,
        BioType::RightIndex => 0x02,
        BioType::RightMiddle => 0x03,
        BioType::RightRing => 0x04,
        BioType::RightLittle => 0x05,
        BioType::LeftThumb => 0x06,
        BioType::LeftIndex => 0x07,
        BioType::LeftMiddle => 0x08,
        BioType::LeftRing => 0x09,
        BioType::LeftLittle => 0x0A,
        BioType::RightIris => 0x0B,
        BioType::RightRetina => 0x0C,
        BioType::LeftIris => 0x0D,
        BioType::LeftRetina => 0x0E,
        BioType::Face => 0x0F,
        BioType::RightHandGeometry => 0x10,
        BioType::LeftHandGeometry => 0x11,
    }
}

pub(crate) fn bio_format(code: BioFormat) -> u8 {
    match code {
        BioFormat::NotSpecified => 0,
        BioFormat::FingerprintRawPgm => 1,
        BioFormat::FingerprintAnsi378 => 2,
    }
}

pub(crate) fn output(code: OutputControlCode) -> u8 {
    match code {
        OutputControlCode::Nop => 0,
        OutputControlCode::PermanentOffAbortTimed => 1,
        OutputControlCode::PermanentOnAbortTimed => 2,
        OutputControlCode::PermanentOffAllowTimed => 3,
        OutputControlCode::PermanentOnAllowTimed => 4,
        OutputControlCode::TemporaryOnResume => 5,
        OutputControlCode::TemporaryOffResume => 6,
    }
}

pub(crate) fn text(code: TextCommand) -> u8 {
    match code {
        TextCommand::PermanentNoWrap => 1,
        TextCommand::PermanentWrap => 2,
        TextCommand::TemporaryNoWrap => 3,
        TextCommand::TemporaryWrap => 4,
    }
}

pub(crate) fn nak(code: NakErrorCode) -> u8 {
    match code {
        NakErrorCode::NoError => 0,
        NakErrorCode::BadCrcOrChecksum => 1,
        NakErrorCode::CommandLengthError => 2,
        NakErrorCode::UnknownCommandCode => 3,
        NakErrorCode::UnexpectedSequenceNumber => 4,
        NakErrorCode::SecurityBlockTypeNotSupported => 5,
        NakErrorCode::EncryptedCommunicationRequired => 6,
        NakErrorCode::BioTypeNotSupported => 7,
        NakErrorCode::BioFormatNotSupported => 8,
        NakErrorCode::UnableToProcessCommandRecord => 9,
    }
}
