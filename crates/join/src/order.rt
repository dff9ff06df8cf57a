// Whether a fragment has its shape, whether it follows what its record holds, and whether it is its message's last.
ghost use Rattle.std.specs.Prelude.{◌≡◌, ◌∷◌, [], take};
ghost use Rattle.laws.specs.Bytes.{byte_at};
ghost use Rattle.join.specs.Work.{second_key, collecting, load, same_key, shaped_by, filling, astray, last};
ghost use Rattle.join.specs.Code.{keyed_by, fragment};

use crate::Piece;
use crate::place::{KEY, SECOND, record_at, start_of};
use octets::byte_at;

// Check 12: whether a fragment's place is inside the total, and its data as long as that place asks. It asks for their length and not for a Piece, which
// who judges has not made yet.
pub fn is_shaped(width: u8, total: u8, number: u8, len: u8) -> bool
    ensures { result ≡ shaped_by width total number len }
{
    let start = start_of(width, number);
    let end = total as usize;
    start < end && (len as usize) == (width as usize).min(end - start)
}

// Whether the key of a record, whose bytes these are, is this one.
fn has_key<const K: usize>(bytes: &[u8], key: &[u8; K]) -> bool
    ensures { result ≡ same_key (take K (byte_at bytes.now 1 ∷ byte_at bytes.now second_key ∷ [])) key.now }
{
    match &key[..] {
        [] => true,
        [id] => byte_at(bytes, KEY) == *id,
        [id, second] => byte_at(bytes, KEY) == *id && byte_at(bytes, SECOND) == *second,
        _ => false,
    }
}

// Whether the record at a place is filling.
pub fn is_filling(work: &[u8], at: usize, width: u8) -> bool
    ensures { result ≡ filling (collecting width) (load (collecting width) at work.now) }
{
    let [status, _, total, next, ..] = record_at(work, at) else {
        return false;
    };
    *status == 1 && *next != 0 && start_of(width, *next) < (*total as usize)
}

// Check 14. Where the area lacks the next number no fragment but number 0 follows.
pub fn is_astray<const K: usize>(work: &[u8], at: usize, width: u8, piece: &Piece<K>) -> bool
    ensures { result ≡ astray (keyed_by K width) (load (keyed_by K width) at work.now) (fragment piece.now) }
{
    if piece.number == 0 {
        return false;
    }
    let bytes = record_at(work, at);
    let [status, _, total, next, ..] = bytes else {
        return true;
    };
    if *status != 1
        || *next != piece.number
        || *total != piece.total
        || !has_key(bytes, &piece.key)
    {
        return true;
    }
    // The record agrees, so what is left of "filling" is that the place of k, which is n's, is inside the total.
    piece.total as usize <= start_of(width, piece.number)
}

// Whether a fragment is its message's last: another one's place is not inside the total.
pub fn is_last<const K: usize>(width: u8, piece: &Piece<K>) -> bool
    ensures { result ≡ last (keyed_by K width) (fragment piece.now) }
{
    (piece.total as usize) <= start_of(width, piece.number) + (width as usize)
}
