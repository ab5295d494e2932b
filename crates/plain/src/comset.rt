// osdp_COMSET (0x6E): the address and the baud rate that a reader is to take. The layout is that of COM.
use crate::com::AddressAndBaud;

// Any address is taken, also above 0x7E, which is the highest that a reader can have.
pub type ComSet = AddressAndBaud<0x6E>;

impl ComSet {
    pub const CODE: u8 = 0x6E;

    pub const WIRE_LEN: usize = 5;
}
