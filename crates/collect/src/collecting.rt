// One frame: the refusals in 02's order, a whole answer handed over, a fragment joined.
ghost use Rattle.std.specs.Prelude.{◌≡◌, ◌&&◌, List, ℕ, ◌-◌, None, false, eqb, length};
ghost use Rattle.codec.specs.Reading.{subject_of};
ghost use Rattle.join.specs.Code.{fragment as piece_in};
ghost use Rattle.join.specs.Work.{load, filling};
ghost use Rattle.collect.specs.Checks.{answers_read, joiner};
ghost use Rattle.collect.specs.Step.{gives, piece, answer_to, work_after, answer_of, work_of};
ghost use Rattle.collect.specs.Code.{whole_judged, payload_judged, Placed, Numbered, Ready, taken_value, taken_work, refusal_number, number_of, value_of, answered};

use crate::{AREA, Collected, Place, Refusal, Value};
use codec::{Header, MOST_FRAGMENT_DATA};
use join::Piece;

// Refused, and nothing is handed over.
fn refused(why: Refusal, dropped: bool) -> Collected
    ensures { answered result ≡ gives (refusal_number why) None dropped }
{
    Collected {
        outcome: Err(why),
        dropped,
    }
}

// Whether a long message is a guest's Successful response to a Read.
fn answers_read(h: Header) -> bool
    ensures { result ≡ answers_read (subject_of h) }
{
    h.dir == 1 && h.service == codec::READ_SERVICE && h.response == codec::SUCCESSFUL
}

// 5 of an answer in one frame, which else is handed over at once.
fn whole(h: Header) -> Result<Option<Value>, Refusal>
    ensures { (work : List ℕ)
        → gives (number_of result) (value_of result) false ≡ answer_to (whole_judged (subject_of h) (h.dlc - 2)) work }
{
    if h.dlc <= 2 {
        return Err(Refusal::BadShape);
    }
    Ok(Some(Value {
        guest: h.address,
        object: h.object,
        id: h.id,
        len: h.dlc - 2,
        place: Place::Frame,
    }))
}

// A fragment that is in order: the last one completes its message, any other is kept.
fn take_piece(h: Header, part: &Piece<2>, work: &mut [u8]) -> Option<Value>
    requires { Ready (length work.old) (subject_of h) (piece_in part.now) }
    ensures { (result ≡ taken_value (subject_of h) (piece_in part.now))
        × (work.new ≡ taken_work (subject_of h) (piece_in part.now) work.old) }
{
    let at = join::place_of(h.address);
    if join::is_last(MOST_FRAGMENT_DATA, part) {
        join::finish(work, at, MOST_FRAGMENT_DATA, part);
        return Some(Value {
            guest: h.address,
            object: h.object,
            id: h.id,
            len: part.total,
            place: Place::Work,
        });
    }
    join::keep(work, at, MOST_FRAGMENT_DATA, part);
    None
}

// Whether a fragment that is in order begins anew over a filling record, which is lost to it. None but a number 0 does.
fn begins_over(work: &[u8], at: usize, number: u8) -> bool
    ensures { result ≡ (filling joiner (load joiner at work.now) && eqb number 0) }
{
    number == 0 && join::is_filling(work, at, MOST_FRAGMENT_DATA)
}

// A fragment that has passed 1 to 5: out of order, to which a filling record is lost too, or taken.
fn join_piece(h: Header, part: &Piece<2>, work: &mut [u8]) -> Collected
    requires { Ready (length work.old) (subject_of h) (piece_in part.now) }
    ensures { (answered result ≡ answer_to (piece (subject_of h) (piece_in part.now)) work.old)
        × (work.new ≡ work_after (piece (subject_of h) (piece_in part.now)) work.old) }
{
    let at = join::place_of(h.address);
    if join::is_astray(work, at, MOST_FRAGMENT_DATA, part) {
        let filled = join::is_filling(work, at, MOST_FRAGMENT_DATA);
        join::clear(work, at);
        return refused(Refusal::OutOfOrder, filled);
    }
    let dropped = begins_over(work, at, part.number);
    let value = take_piece(h, part, work);
    Collected {
        outcome: Ok(value),
        dropped,
    }
}

// 4 to 6 of a fragment, of what stands behind its ID.
fn fragment(h: Header, payload: &[u8], work: &mut [u8]) -> Collected
    requires { Placed (length work.old) h.address × Numbered (length payload.now) }
    ensures { (answered result ≡ answer_to (payload_judged (subject_of h) payload.now) work.old)
        × (work.new ≡ work_after (payload_judged (subject_of h) payload.now) work.old) }
{
    let number = payload[0];
    let total = payload[1];
    if total == 0 {
        return refused(Refusal::NoTotal, false);
    }
    // at most four bytes, which a compiler cannot know else
    let len = (payload.len() - 2).min(MOST_FRAGMENT_DATA as usize);
    if !join::is_shaped(MOST_FRAGMENT_DATA, total, number, len as u8) {
        return refused(Refusal::BadShape, false);
    }
    let part = Piece {
        key: [h.id, h.object],
        total,
        number,
        body: &payload[2..2 + len],
    };
    join_piece(h, &part, work)
}

// What 02 says of one frame, for every frame and work area of any length and content.
pub fn collect(frame: &[u8], work: &mut [u8]) -> Collected
    ensures { (answered result ≡ answer_of frame.now work.old) × (work.new ≡ work_of frame.now work.old) }
{
    if work.len() != AREA {
        return refused(Refusal::Size, false);
    }
    if codec::readable(frame).is_err() {
        return refused(Refusal::Malformed, false);
    }
    let h = codec::header_of(frame);
    if h.dlc == 0 || !answers_read(h) {
        return refused(Refusal::NoAnswer, false);
    }
    if h.flag != 1 {
        return Collected {
            outcome: whole(h),
            dropped: false,
        };
    }
    fragment(h, codec::payload_in(h.dlc, frame), work)
}
