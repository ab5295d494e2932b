// osdp_PDID (0x45): who made a reader, which one it is, and its firmware.
ghost use Rattle.std.specs.Prelude.{◌≡◌};
ghost use Rattle.payload_util.specs.Prelude.{fields, write};
ghost use Rattle.plain.specs.PdId.{pd_id};

use payload_util::{
    Payload, Record, Refusal, byte_at, put_payload, require_exact_len, u32_at, u32_bytes,
};

#[derive(Clone, Copy, Debug, PartialEq, Eq)]
pub struct PdId {
    pub oui_0: u8,
    pub oui_1: u8,
    pub oui_2: u8,
    pub model: u8,
    pub version: u8,
    pub serial: u32,
    pub firmware_major: u8,
    pub firmware_minor: u8,
    pub firmware_build: u8,
}

impl Payload for PdId {
    const CODE: u8 = 0x45;

    ghost form = { pd_id };

    fn check(p: &[u8]) -> Result<(), Refusal> {
        require_exact_len(p, Self::WIRE_LEN, Self::CODE)
    }

    fn put_kept(p: &[u8], out: &mut [u8]) -> Result<usize, Refusal> {
        put_payload(p, Self::CODE, out)
    }

    #[tactic(auto, using(crate::proofs::Laws::pd_id_law))]
    fn keeps_law() {}
}

impl Record for PdId {
    ghost fields = { fields pd_id };

    fn fields(p: &[u8]) -> PdId {
        PdId {
            oui_0: byte_at(p, 0),
            oui_1: byte_at(p, 1),
            oui_2: byte_at(p, 2),
            model: byte_at(p, 3),
            version: byte_at(p, 4),
            serial: u32_at(p, 5),
            firmware_major: byte_at(p, 9),
            firmware_minor: byte_at(p, 10),
            firmware_build: byte_at(p, 11),
        }
    }
}

impl PdId {
    pub const WIRE_LEN: usize = 12;

    pub fn encode(self, out: &mut [u8]) -> Result<usize, Refusal>
        ensures { (result, out.new) ≡ write pd_id self out.old }
    {
        let serial = u32_bytes(self.serial);
        let head = [
            self.oui_0,
            self.oui_1,
            self.oui_2,
            self.model,
            self.version,
            serial[0],
            serial[1],
            serial[2],
            serial[3],
            self.firmware_major,
            self.firmware_minor,
            self.firmware_build,
        ];
        put_payload(&head, Self::CODE, out)
    }
}
