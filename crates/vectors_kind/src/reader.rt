// Reads a payload by its kind's own reader.
use crate::{list, read_bio, read_command, read_plain, read_reply};
use vectors_case::{
    ACURXSIZE, BIOMATCH, BIOMATCHR, BIOREAD, BIOREADR, COM, COMSET, Case, FILETRANSFER, FMT,
    KEEPACTIVE, KEYPAD, LED, LED_BYTES, LSTATR, MFG, NAK, OUT, OUT_BYTES, PDID, RAW, TEXT, XRD,
};

// Whether the reader gives the wanted fields and the wanted tail. False if no command, or no reply, has the code byte.
pub fn command(c: Case) -> bool {
    match c.code {
        LED => list::records(c, LED_BYTES),
        OUT => list::records(c, OUT_BYTES),
        TEXT => read_command::text(c),
        BIOREAD => read_bio::bio_read(c),
        BIOMATCH => read_bio::bio_match(c),
        FILETRANSFER => read_command::file_transfer(c),
        MFG => read_command::mfg(c),
        COMSET => read_plain::address_and_baud::<COMSET>(c),
        ACURXSIZE => read_plain::acu_rx_size(c),
        KEEPACTIVE => read_plain::keep_active(c),
        _ => false,
    }
}

pub fn reply(c: Case) -> bool {
    match c.code {
        RAW => read_reply::raw(c),
        FMT => read_reply::fmt(c),
        BIOREADR => read_bio::bio_read_r(c),
        BIOMATCHR => read_bio::bio_match_r(c),
        NAK => read_reply::nak(c),
        XRD => read_reply::xrd(c),
        KEYPAD => read_reply::keypad(c),
        COM => read_plain::address_and_baud::<COM>(c),
        PDID => read_plain::pd_id(c),
        LSTATR => read_plain::l_stat_r(c),
        _ => false,
    }
}
