// Classes 11 and 12: one LED walker, stepped to its end and past it.
use led_walker::LedWalker;
use vectors_case::{Case, LED_BYTES};
use vectors_kind::list;

// How many times a walker is stepped after its last record.
const MORE: usize = 3;

// A walker that is started is at place 0, and holds the whole payload.
pub fn start(c: Case) -> bool {
    match LedWalker::start(c.input) {
        Ok(walker) => {
            c.wanted.is_ok()
                && walker.payload == c.input
                && walker.offset == 0
                && walks(walker, c.want)
        }
        Err(e) => c.refuses(e) && c.want.is_empty(),
    }
}

// A walker made at a place.
pub fn run(c: Case) -> bool {
    let walker = LedWalker {
        payload: c.input,
        offset: c.argument,
    };
    c.wanted.is_ok() && walks(walker, c.want)
}

// Whether a walker hands out the wanted records and then none, and is after each step at the right offset: past its record, or if there is
// none, past the last.
fn walks(mut walker: LedWalker, want: &[u8]) -> bool {
    let mut offset = walker.offset;
    for bytes in want.chunks_exact(LED_BYTES) {
        offset = offset.wrapping_add(LED_BYTES);
        let is_wanted = walker
            .next()
            .is_some_and(|r| list::led_bytes(r).as_slice() == bytes);
        if !is_wanted || walker.offset != offset {
            return false;
        }
    }
    for _ in 0..MORE {
        if walker.next().is_some() || walker.offset != offset {
            return false;
        }
    }
    want.len() % LED_BYTES == 0
}
