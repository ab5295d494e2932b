// The kinds of crate plain, which have one exact length and no tail.
ghost use Rattle.payload_util.specs.Prelude.{check};
ghost use Rattle.plain.specs.Com.{com_set, com_reply};
ghost use Rattle.plain.specs.PdId.{pd_id};
ghost use Rattle.plain.specs.LStat.{l_stat_r};
ghost use Rattle.plain.specs.Number.{acu_rx_size, keep_active};
ghost use Rattle.bench_read.specs.Answer.{Answers};

use crate::number::{answered, sum};
use payload_util::Record;
use plain::acu_rx_size::AcuRxSize;
use plain::com::{AddressAndBaud, Com};
use plain::comset::ComSet;
use plain::keep_active::KeepActive;
use plain::lstat::LStatR;
use plain::pdid::PdId;

fn identity(d: PdId) -> u64 {
    let bytes = sum(&[
        d.oui_0,
        d.oui_1,
        d.oui_2,
        d.model,
        d.version,
        d.firmware_major,
        d.firmware_minor,
        d.firmware_build,
    ]);
    bytes.wrapping_add(d.serial as u64)
}

fn address_and_baud<const CODE: u8>(c: AddressAndBaud<CODE>) -> u64 {
    c.address as u64 + c.baud as u64
}

#[unsafe(no_mangle)]
pub extern "C" fn bench_read_comset(p: &[u8]) -> i32
    ensures { Answers (check com_set p.now) result }
{
    answered(ComSet::decode(p), address_and_baud)
}

#[unsafe(no_mangle)]
pub extern "C" fn bench_read_com(p: &[u8]) -> i32
    ensures { Answers (check com_reply p.now) result }
{
    answered(Com::decode(p), address_and_baud)
}

#[unsafe(no_mangle)]
pub extern "C" fn bench_read_pdid(p: &[u8]) -> i32
    ensures { Answers (check pd_id p.now) result }
{
    answered(PdId::decode(p), identity)
}

#[unsafe(no_mangle)]
pub extern "C" fn bench_read_lstatr(p: &[u8]) -> i32
    ensures { Answers (check l_stat_r p.now) result }
{
    answered(LStatR::decode(p), |l| sum(&[l.tamper, l.power]))
}

#[unsafe(no_mangle)]
pub extern "C" fn bench_read_acurxsize(p: &[u8]) -> i32
    ensures { Answers (check acu_rx_size p.now) result }
{
    answered(AcuRxSize::decode(p), |a| a.max_size as u64)
}

#[unsafe(no_mangle)]
pub extern "C" fn bench_read_keepactive(p: &[u8]) -> i32
    ensures { Answers (check keep_active p.now) result }
{
    answered(KeepActive::decode(p), |k| k.duration_ms as u64)
}
