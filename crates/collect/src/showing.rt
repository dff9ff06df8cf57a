// The bytes that are handed over: a part of one of the two lent areas.
ghost use Rattle.std.specs.Prelude.{◌≡◌};
ghost use Rattle.collect.specs.Step.{cut, part_of};

use crate::{Place, Value};

// n bytes from a place on, or none where they would run past the end.
fn cut<'a>(at: usize, n: usize, area: &'a [u8]) -> &'a [u8]
    ensures { result.now ≡ cut at n area.now }
{
    let rest = area.get(at..).unwrap_or(&[]);
    rest.get(..n).unwrap_or(&[])
}

// The bytes of a value, of the frame and the work area that it is of.
pub fn part_of<'a>(value: Option<Value>, frame: &'a [u8], work: &'a [u8]) -> &'a [u8]
    ensures { result.now ≡ part_of value frame.now work.now }
{
    let Some(it) = value else {
        return &[];
    };
    match it.place {
        Place::Frame => cut(codec::PAYLOAD_PLACE, it.len as usize, frame),
        Place::Work => cut(join::data_place(it.guest), it.len as usize, work),
    }
}
