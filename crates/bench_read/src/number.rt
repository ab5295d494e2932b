// What was read, as one number: the sum of all fields, of the tail's length and of its last byte.
ghost use Rattle.std.specs.Prelude.{◌≡◌};
ghost use Rattle.payload_util.specs.Prelude.{guard_of};
ghost use Rattle.bench_read.specs.Answer.{Answers, NotNegative, minus_row};

use payload_util::Refusal;

// The answers are below this one.
const LIMIT: u64 = 0x8000_0000;

pub(crate) fn sum(fields: &[u8]) -> u64 {
    fields.iter().fold(0, |n, b| n.wrapping_add(*b as u64))
}

// The number in 31 bits, which its lowest 62 bits decide.
#[tactic(auto, using(crate::proofs::Answered::not_negative))]
fn answer(n: u64) -> i32
    ensures { NotNegative result }
{
    (n.wrapping_add(n / LIMIT) % LIMIT) as i32
}

// A number with a tail. The byte of an empty tail is 0.
pub(crate) fn tailed(n: u64, tail: &[u8]) -> u64 {
    let last = tail.last().copied().unwrap_or(0);
    n.wrapping_add(tail.len() as u64).wrapping_add(last as u64)
}

pub(crate) fn refused(e: Refusal) -> i32
    ensures { result ≡ minus_row e }
{
    -(e.row.number() as i32)
}

// What a call answers; `number` sums what was read.
pub(crate) fn answered<R, F: FnOnce(R) -> u64>(read: Result<R, Refusal>, number: F) -> i32
    requires { F.IsAlwaysCallable number }
    ensures { Answers (guard_of read) result }
{
    match read {
        Ok(r) => answer(number(r)),
        Err(e) => refused(e),
    }
}
