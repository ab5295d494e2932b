// osdp_FILETRANSFER (0x7C): a file for the PD, a fragment at a time.
#![tactic(auto)]

ghost use Rattle.std.specs.Prelude.{◌≡◌};
ghost use Rattle.payload_util.specs.Prelude.{fields, tail, write};
ghost use Rattle.file_transfer.specs.FileTransfer.{file_transfer};

use payload_util::{
    Payload, Record, Refusal, byte_at, put_bytes, put_payload, require_at_most,
    require_head_and_tail, tail_where, u16_at, u16_bytes, u32_at, u32_bytes,
};

// The fixed fields; the fragment is the tail, and its length is not a field.
#[derive(Clone, Copy, Debug, PartialEq, Eq)]
pub struct FileTransfer {
    pub file_type: u8,
    pub total_size: u32,
    pub offset: u32,
}

impl Payload for FileTransfer {
    const CODE: u8 = 0x7C;

    ghost form = { file_transfer };

    fn check(p: &[u8]) -> Result<(), Refusal> {
        require_head_and_tail(p, Self::WIRE_LEN, u16_at(p, 9), Self::CODE)
    }

    fn put_kept(p: &[u8], out: &mut [u8]) -> Result<usize, Refusal> {
        put_payload(p, Self::CODE, out)
    }

    #[tactic(auto, using(crate::proofs::Laws::file_transfer_law))]
    fn keeps_law() {}
}

impl Record for FileTransfer {
    ghost fields = { fields file_transfer };

    fn fields(p: &[u8]) -> FileTransfer {
        FileTransfer {
            file_type: byte_at(p, 0),
            total_size: u32_at(p, 1),
            offset: u32_at(p, 5),
        }
    }
}

impl FileTransfer {
    pub const WIRE_LEN: usize = 11;

    // The fragment; empty if reading refuses.
    pub fn fragment(p: &[u8]) -> &[u8]
        ensures { result.now ≡ tail file_transfer p.now }
    {
        tail_where(Self::check(p), p, Self::WIRE_LEN)
    }

    #[tactic(auto, using(payload_util::proofs::Guards::most_pass))]
    pub fn encode(self, fragment: &[u8], out: &mut [u8]) -> Result<usize, Refusal>
        ensures { (result, out.new) ≡ write file_transfer self fragment.now out.old }
    {
        require_at_most(fragment, 65535, Self::CODE)?;
        let total = u32_bytes(self.total_size);
        let offset = u32_bytes(self.offset);
        let len = u16_bytes(fragment.len() as u16);
        let head = [
            self.file_type,
            total[0],
            total[1],
            total[2],
            total[3],
            offset[0],
            offset[1],
            offset[2],
            offset[3],
            len[0],
            len[1],
        ];
        put_bytes(&head, fragment, Self::CODE, out)
    }
}
