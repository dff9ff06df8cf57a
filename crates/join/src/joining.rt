// The joined bytes of a message, once its last fragment has come.
ghost use Rattle.std.specs.Prelude.{◌≡◌, cond, length};
ghost use Rattle.join.specs.Code.{join_fits, joined_from};

use crate::Piece;
use crate::place::{HEAD, record_at, start_of};

// Puts the joined bytes, those held before the fragment's place and its own, into a part of that very length.
// Where the area holds too few, or the part has another length, the part stays.
pub fn join_into<const K: usize>(
    work: &[u8],
    at: usize,
    width: u8,
    piece: &Piece<K>,
    part: &mut [u8],
)
    ensures { part.new
        ≡ cond (join_fits (length work.now) at width piece.now.number (length piece.now.body.now) (length part.old))
        (joined_from work.now at width piece.now.number piece.now.body.now)
        part.old }
{
    let held = start_of(width, piece.number);
    let Some(front) = record_at(work, at).get(HEAD..HEAD + held) else {
        return;
    };
    if part.len() == held + piece.body.len() {
        octets::copy(front, part);
        octets::copy(piece.body, &mut part[held..]);
    }
}
