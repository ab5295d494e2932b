// The readers of the kinds of one exact length whose fields take every value.
use payload_util::Record;
use plain::acu_rx_size::AcuRxSize;
use plain::com::AddressAndBaud;
use plain::keep_active::KeepActive;
use plain::lstat::LStatR;
use plain::pdid::PdId;
use vectors_case::{Case, u16_bytes, u32_bytes};

// COM and COMSET.
pub(crate) fn address_and_baud<const CODE: u8>(c: Case) -> bool {
    let fixed = AddressAndBaud::<CODE>::decode(c.input).map(|r| {
        let rate = u32_bytes(r.baud);
        [r.address, rate[0], rate[1], rate[2], rate[3]]
    });
    crate::reads(c, fixed, &[], 5)
}

pub(crate) fn pd_id(c: Case) -> bool {
    crate::reads(c, PdId::decode(c.input).map(identity), &[], 12)
}

fn identity(r: PdId) -> [u8; 12] {
    let serial = u32_bytes(r.serial);
    [
        r.oui_0,
        r.oui_1,
        r.oui_2,
        r.model,
        r.version,
        serial[0],
        serial[1],
        serial[2],
        serial[3],
        r.firmware_major,
        r.firmware_minor,
        r.firmware_build,
    ]
}

pub(crate) fn l_stat_r(c: Case) -> bool {
    let fixed = LStatR::decode(c.input).map(|r| [r.tamper, r.power]);
    crate::reads(c, fixed, &[], 2)
}

pub(crate) fn acu_rx_size(c: Case) -> bool {
    let fixed = AcuRxSize::decode(c.input).map(|r| u16_bytes(r.max_size));
    crate::reads(c, fixed, &[], 2)
}

pub(crate) fn keep_active(c: Case) -> bool {
    let fixed = KeepActive::decode(c.input).map(|r| u16_bytes(r.duration_ms));
    crate::reads(c, fixed, &[], 2)
}
