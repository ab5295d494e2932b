// The readers of the biometric payloads.
use crate::names;
use bio::{BioMatchR, BioReadR};
use biometric::{BioHead, BioMatch, BioRead};
use payload_util::Record;
use vectors_case::Case;

// Where a template begins in the wanted bytes: after the head and the length.
const TEMPLATE_AT: usize = 6;

fn head(h: BioHead) -> [u8; 4] {
    [
        h.reader,
        names::bio_type(h.bio_type),
        names::bio_format(h.bio_format),
        h.quality,
    ]
}

pub(crate) fn bio_read(c: Case) -> bool {
    crate::reads(c, BioRead::decode(c.input).map(|r| head(r.head)), &[], 4)
}

pub(crate) fn bio_match(c: Case) -> bool {
    let fixed = BioMatch::decode(c.input).map(|r| head(r.head));
    crate::reads(c, fixed, BioMatch::template(c.input), TEMPLATE_AT)
}

pub(crate) fn bio_read_r(c: Case) -> bool {
    let fixed = BioReadR::decode(c.input).map(|r| head(r.head));
    crate::reads(c, fixed, BioReadR::data(c.input), TEMPLATE_AT)
}

pub(crate) fn bio_match_r(c: Case) -> bool {
    let fixed = BioMatchR::decode(c.input).map(|r| [r.reader, r.result, r.score]);
    crate::reads(c, fixed, &[], 3)
}
