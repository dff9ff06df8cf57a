// Bytes as values: the byte of a place, up to six of them with their count, and copying.
#![tactic(auto)]

ghost use Rattle.std.specs.Prelude.{◌≡◌, length};

mod bodies;
mod copying;
mod places;

pub use bodies::{data_from, is_tidy, no_data, places_of};
pub use copying::copy;
pub use places::{byte_at, zeros};

// The most bytes that data has places for.
pub const MOST: u8 = 6;

// len data bytes, at most six. A place that is not used holds 0.
#[derive(Clone, Copy)]
pub struct Data {
    pub len: u8,
    pub places: [u8; 6],
    // An array has its length; this says so to theorems, where it is a list.
    ghost six: { length places ≡ 6 },
}
