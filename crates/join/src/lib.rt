// Joining the fragments of a message in a work record (01, "Object table, store, work area"), over the bytes per fragment, with a key of one byte
// or of two.
#![tactic(auto)]

mod joining;
mod keeping;
mod order;
mod place;

pub use joining::join_into;
pub use keeping::{clear, finish, keep};
pub use order::{is_astray, is_filling, is_last, is_shaped};
pub use place::{AREA, RECORD, RECORDS, data_place, place_of};

// A fragment of a message: which message it is of, by a key of K bytes, its number there, and its data. The area, a record's place there and the bytes per
// fragment stand beside it in each function, and in no struct: whoever joins lends the area to others between two calls.
#[derive(Clone, Copy)]
pub struct Piece<'a, const K: usize> {
    pub key: [u8; K],
    pub total: u8,
    pub number: u8,
    pub body: &'a [u8],
}
