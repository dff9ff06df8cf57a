// What a fragment leaves in its record, and how a record is dropped.
ghost use Rattle.std.specs.Prelude.{◌≡◌, cond, ◌∷◌, [], ◌+◌, ◌*◌, ◌≤◌, ◌<◌, ltb, length};
ghost use Rattle.laws.specs.Put.{put};
ghost use Rattle.join.specs.Work.{dropped, head_size, collecting, kept, done, with_data, area_after};
ghost use Rattle.join.specs.Code.{keep_fits, record_fits, key_fits, keyed_by, fragment};

use crate::Piece;
use crate::place::{DATA, HEAD, KEY, NEXT, RECORD, SECOND, TOTAL, start_of};

// Puts a fragment's data at their place of the record.
fn put_data<const K: usize>(work: &mut [u8], at: usize, width: u8, piece: &Piece<K>)
    requires { at + head_size + width * piece.now.number + length piece.now.body.now ≤ length work.old }
    ensures { work.new ≡ with_data (keyed_by K width) at (fragment piece.now) work.old }
{
    let start = at + HEAD + start_of(width, piece.number);
    let end = start + piece.body.len();
    octets::copy(piece.body, &mut work[start..end]);
}

// Sets what stands before a record's data: status 1, key, total and next number.
fn mark(work: &mut [u8], at: usize, key: u8, total: u8, next: u8)
    requires { at + head_size ≤ length work.old }
    ensures { work.new ≡ put work.old at (1 ∷ key ∷ total ∷ next ∷ []) }
{
    work[at] = 1;
    work[at + KEY] = key;
    work[at + TOTAL] = total;
    work[at + NEXT] = next;
}

// Puts a fragment's data, and what stands before a record's data.
fn put_piece<const K: usize>(work: &mut [u8], at: usize, width: u8, id: u8, piece: &Piece<K>)
    requires next_is_a_byte { piece.now.number < 255 }
    requires room { at + head_size + width * piece.now.number + length piece.now.body.now ≤ length work.old }
    ensures { work.new
        ≡ put (with_data (keyed_by K width) at (fragment piece.now) work.old) at
        (1 ∷ id ∷ piece.now.total ∷ (piece.now.number + 1) ∷ []) }
{
    put_data(work, at, width, piece);
    mark(work, at, id, piece.total, piece.number + 1);
}

// Whether a fragment's data end inside an area of a size, and its next number is a byte.
fn fits_area<const K: usize>(size: usize, at: usize, width: u8, piece: &Piece<K>) -> bool
    ensures { result ≡ keep_fits size at width piece.now.number (length piece.now.body.now) }
{
    piece.number != 255
        && HEAD + start_of(width, piece.number) + piece.body.len() <= size.saturating_sub(at)
}

// Whether the whole record is inside the area, a fragment's data end inside the record's, and its next number is a byte.
fn fits_record<const K: usize>(size: usize, at: usize, width: u8, piece: &Piece<K>) -> bool
    ensures { result ≡ record_fits size at width piece.now.number (length piece.now.body.now) }
{
    if size.saturating_sub(at) < RECORD || piece.number == 255 {
        return false;
    }
    start_of(width, piece.number) + piece.body.len() <= DATA
}

// Keeps a fragment that is not its message's last: status 1, key, total, next number, and its data at their place of the record. The second byte of a key
// stands behind the data. Where the fragment does not fit, the area stays.
pub fn keep<const K: usize>(work: &mut [u8], at: usize, width: u8, piece: &Piece<K>)
    ensures { work.new
        ≡ cond (key_fits K (length work.old) at width piece.now.number (length piece.now.body.now))
        (area_after (keyed_by K width) at (fragment piece.now) kept work.old)
        work.old }
{
    match &piece.key[..] {
        [id] => {
            if fits_area(work.len(), at, width, piece) {
                put_piece(work, at, width, *id, piece);
            }
        }
        [id, second] => {
            if fits_record(work.len(), at, width, piece) {
                put_piece(work, at, width, *id, piece);
                work[at + SECOND] = *second;
            }
        }
        _ => {}
    }
}

// Stores a message's last fragment and drops the record, whose data are the joined bytes then. Where it does not fit, the area stays.
pub fn finish<const K: usize>(work: &mut [u8], at: usize, width: u8, piece: &Piece<K>)
    ensures { work.new
        ≡ cond (record_fits (length work.old) at width piece.now.number (length piece.now.body.now))
        (area_after (collecting width) at (fragment piece.now) (done []) work.old)
        work.old }
{
    if fits_record(work.len(), at, width, piece) {
        put_data(work, at, width, piece);
        clear(work, at);
    }
}

// Drops what the record at a place holds: its status becomes 0.
pub fn clear(work: &mut [u8], at: usize)
    ensures { work.new
        ≡ cond (ltb at (length work.old)) (dropped at work.old) work.old }
{
    if at < work.len() {
        work[at] = 0;
    }
}
