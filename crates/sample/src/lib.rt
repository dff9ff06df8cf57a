// The sample device (01, "Sample device"), for the programs that run it.
#![tactic(auto)]

pub const ADDRESS: u32 = 9;

pub const STORE: usize = 67;

pub const WORK: usize = join::AREA;

pub const OUT: usize = guest::LEAST_OUT;

// Records of eight bytes: object, ID, access, length, offset and descriptor.
pub const TABLE: [u8; 32] = *b"\
    \x02\x12\x05\x01\x00\x00\x00\x01\
    \x02\x38\x07\x20\x01\x00\x3F\x07\
    \x03\x0A\x03\x02\x21\x00\x00\x00\
    \x03\x38\x07\x20\x23\x00\x3F\x07";
