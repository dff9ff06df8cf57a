// Reading: a record to its message, or the reason of the refusal.
ghost use Rattle.std.specs.Prelude.{◌≡◌, true, cond, [], leb, length};
ghost use Rattle.laws.specs.Checks.{first_of};
ghost use Rattle.octets.specs.Data.{most_data, data_of, tidy, bytes_of};
ghost use Rattle.codec.specs.Names.{frame_size, most_dlc};
ghost use Rattle.codec.specs.Reading.{header_checks, read_checks, subject_of, payload_to, long_of, read_of, number_of, numbered};
ghost use Rattle.codec.specs.Code.{payload_data, payload_in, unprefixed};

use crate::heading::header_of;
use crate::{
    FRAME_SIZE, Header, LOWEST_LONG, MOST_ADDRESS, MOST_DLC, Message, PAYLOAD_PLACE, ReadError,
    Subject,
};
use octets::{Data, data_from};

// Whether a record of ten bytes with this header is read, or why not. The order is 01's.
fn served(h: Header) -> Result<(), ReadError>
    ensures { number_of (numbered result) ≡ first_of (header_checks h) }
{
    if h.rtr == 1 || MOST_DLC < h.dlc || MOST_ADDRESS < h.address {
        return Err(ReadError::Barred);
    }
    if h.dlc == 0 {
        return Ok(());
    }
    if h.dlc == 1 || h.service < LOWEST_LONG {
        return Err(ReadError::Unserved);
    }
    if h.flag == 1 && h.dlc < 4 {
        return Err(ReadError::Cramped);
    }
    Ok(())
}

// What stands behind the ID, up to this DLC, as a part of the record. Nothing of a record that is not ten bytes long, or for a DLC over 8.
#[tactic(auto, unfolding(crate::specs::Code::payload_in))]
pub fn payload_in<'a>(dlc: u8, frame: &'a [u8]) -> &'a [u8]
    ensures { result.now ≡ payload_in dlc frame.now }
{
    if frame.len() != FRAME_SIZE {
        return &[];
    }
    let end = dlc as usize + 2;
    frame.get(PAYLOAD_PLACE..end).unwrap_or(&[])
}

// What stands behind the ID, up to the DLC. Nothing of a record that is not ten bytes long, or whose DLC is over 8.
#[tactic(auto, unfolding(crate::specs::Code::payload_in, crate::specs::Code::payload_data))]
pub fn payload_of(frame: &[u8]) -> Data
    ensures { result ≡ payload_data frame.now }
{
    data_from(payload_in(header_of(frame).dlc, frame))
}

// What stands behind a fragment's number and total: the way back from `prefixed`.
#[tactic(auto, unfolding(crate::specs::Code::unprefixed))]
pub fn unprefixed(p: Data) -> Data
    ensures { result ≡ unprefixed p }
{
    let [_, _, b2, b3, b4, b5] = p.places;
    Data {
        len: p.len.saturating_sub(2),
        places: [b2, b3, b4, b5, 0, 0],
    }
}

// A long message, of what stands behind its ID. With the flag set the first two bytes are no data.
#[tactic(auto, using(crate::proofs::Images::data_unprefixed, octets::proofs::Datas::data_bytes, octets::proofs::Datas::byte_place), unfolding(crate::specs::Reading::long_of))]
fn long_of(about: Subject, flag: u8, payload: Data) -> Message
    requires { tidy most_data payload ≡ true }
    ensures { result ≡ long_of about flag (bytes_of payload) }
{
    if flag == 1 {
        Message::Fragment {
            about,
            number: payload.places[0],
            total: payload.places[1],
            body: unprefixed(payload),
        }
    } else {
        Message::Plain {
            about,
            body: payload,
        }
    }
}

// Whether a record is read, or why not: the first error that applies.
pub fn readable(frame: &[u8]) -> Result<(), ReadError>
    ensures { number_of (numbered result) ≡ first_of (read_checks frame.now) }
{
    if frame.len() != FRAME_SIZE {
        return Err(ReadError::Size);
    }
    served(header_of(frame))
}

// The message of a record, or why it is refused.
#[inline(always)]
pub fn read(frame: &[u8]) -> Result<Message, ReadError>
    ensures { numbered result ≡ read_of frame.now }
{
    readable(frame)?;
    let h = header_of(frame);
    if h.dlc == 0 {
        return Ok(Message::Short {
            dir: h.dir,
            address: h.address,
            service: h.service,
        });
    }
    Ok(long_of(h.subject(), h.flag, payload_of(frame)))
}
