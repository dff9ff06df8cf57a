// The header of any record: the one place that knows where the bits of a header are.
ghost use Rattle.std.specs.Prelude.{◌≡◌};
ghost use Rattle.codec.specs.Fields.{header_of, can_of, can_bytes};

use crate::{Can, Header};
use octets::byte_at;

// The fields of the first four bytes. A byte that the record lacks counts as 0.
#[tactic(auto, unfolding(crate::specs::Fields::header_of))]
pub fn header_of(frame: &[u8]) -> Header
    ensures { result ≡ header_of frame.now }
{
    let b0 = byte_at(frame, 0);
    let b1 = byte_at(frame, 1);
    let b2 = byte_at(frame, 2);
    let b3 = byte_at(frame, 3);
    Header {
        dir: b0 / 128 % 2,
        address: b0 % 128,
        service: b1 / 32 % 8,
        rtr: b1 / 16 % 2,
        dlc: b1 % 16,
        response: b2 / 64 % 4,
        flag: b2 / 32 % 2,
        object: b2 % 32,
        id: b3,
    }
}

// The CAN header in the first two bytes. A byte that the record lacks counts as 0.
#[tactic(auto, unfolding(crate::specs::Fields::header_of, crate::specs::Fields::can_of))]
pub fn can_of(frame: &[u8]) -> Can
    ensures { result ≡ can_of frame.now }
{
    let b0 = byte_at(frame, 0);
    let b1 = byte_at(frame, 1);
    Can {
        identifier: b0 as u16 * 8 + (b1 / 32 % 8) as u16,
        rtr: b1 / 16 % 2,
        dlc: b1 % 16,
    }
}

// The first two bytes of the record with this CAN header, each field cut to its bits.
#[tactic(auto, unfolding(crate::specs::Fields::can_bytes))]
pub fn can_bytes(can: Can) -> [u8; 2]
    ensures { result ≡ can_bytes can }
{
    [
        (can.identifier / 8 % 256) as u8,
        (can.identifier % 8) as u8 * 32 + can.rtr % 2 * 16 + can.dlc % 16,
    ]
}
