// Writing: a message to the ten bytes of a record that carries it.
ghost use Rattle.std.specs.Prelude.{◌≡◌, ◌<◌, ◌%◌, ◌&&◌, ◌∷◌, leb};
ghost use Rattle.octets.specs.Data.{places_of, tidy};
ghost use Rattle.codec.specs.Names.{lowest_long};
ghost use Rattle.codec.specs.Writing.{subject_fits, short_fits, can_header, write_number, written_number, written_of};
ghost use Rattle.codec.specs.Code.{prefixed, put_ten, put_long, put_short};

use crate::{
    FRAME_SIZE, LOWEST_LONG, MOST_ADDRESS, MOST_FRAGMENT_DATA, Message, PAYLOAD_PLACE, Subject,
    WriteError,
};
use octets::{Data, is_tidy, no_data};

// Whether a service has a long form that is read (000, 3.2.2.2).
fn is_long(service: u8) -> bool
    ensures { result ≡ (leb lowest_long service && leb service 7) }
{
    LOWEST_LONG <= service && service <= 7
}

#[tactic(auto, unfolding(crate::specs::Writing::subject_fits))]
fn subject_fits(u: Subject) -> bool
    ensures { result ≡ subject_fits u }
{
    u.dir <= 1
        && u.address <= MOST_ADDRESS
        && is_long(u.service)
        && u.response <= 3
        && u.object <= 31
}

#[inline(always)]
fn long_fits(u: Subject, most: u8, d: Data) -> bool
    ensures { result ≡ subject_fits u && tidy most d }
{
    subject_fits(u) && is_tidy(most, d)
}

#[tactic(auto, unfolding(crate::specs::Writing::short_fits))]
fn short_fits(dir: u8, address: u8, service: u8) -> bool
    ensures { result ≡ short_fits dir address service }
{
    dir <= 1 && address <= MOST_ADDRESS && service <= 7
}

// What stands behind a fragment's ID: its number, the total byte count, then the data.
#[tactic(auto, unfolding(crate::specs::Code::prefixed))]
pub fn prefixed(number: u8, total: u8, d: Data) -> Data
    ensures { result ≡ prefixed number total d }
{
    let [b0, b1, b2, b3, _, _] = d.places;
    Data {
        len: d.len % 8 + 2,
        places: [number, total, b0, b1, b2, b3],
    }
}

// The CAN header of a frame, each field cut to its bits.
fn can_header(dir: u8, address: u8, service: u8, dlc: u8) -> [u8; 2]
    requires { dlc < 32 }
    ensures { result ≡ can_header (dir % 2) (address % 128) (service % 8) dlc }
{
    [dir % 2 * 128 + address % 128, service % 8 * 32 + dlc]
}

// Puts ten bytes into a record of ten, the last six of them the places of data. One of another length stays.
fn put_ten(b0: u8, b1: u8, b2: u8, b3: u8, behind: Data, frame: &mut [u8])
    ensures { frame.new ≡ put_ten (b0 ∷ b1 ∷ b2 ∷ b3 ∷ places_of behind) frame.old }
{
    if frame.len() != FRAME_SIZE {
        return;
    }
    octets::copy(&[b0, b1, b2, b3], frame);
    octets::copy(&behind.places, &mut frame[PAYLOAD_PLACE..]);
}

// Puts a long form into a record of ten bytes, of its flag and what stands behind its ID. Nothing is tested: each field is cut to its bits.
#[tactic(auto, unfolding(crate::specs::Code::put_long, crate::specs::Code::long_places))]
pub fn put_long(u: Subject, flag: u8, payload: Data, frame: &mut [u8])
    ensures { frame.new ≡ put_long u flag payload frame.old }
{
    let [b0, b1] = can_header(u.dir, u.address, u.service, payload.len % 8 + 2);
    let b2 = u.response % 4 * 64 + flag % 2 * 32 + u.object % 32;
    put_ten(b0, b1, b2, u.id, payload, frame);
}

// Puts a short form into a record of ten bytes. Nothing is tested: each field is cut to its bits.
#[tactic(auto, unfolding(crate::specs::Code::put_short, crate::specs::Code::short_places, octets::specs::Data::data_of))]
pub fn put_short(dir: u8, address: u8, service: u8, frame: &mut [u8])
    ensures { frame.new ≡ put_short dir address service frame.old }
{
    let [b0, b1] = can_header(dir, address, service, 0);
    put_ten(b0, b1, 0, 0, no_data(), frame);
}

// Writes the record that carries a message, or says why not, and the record stays.
#[inline(always)]
#[tactic(auto, using(crate::proofs::Images::short_put, crate::proofs::Images::plain_put, crate::proofs::Images::fragment_put), unfolding(crate::specs::Writing::write_number, crate::specs::Writing::written_of, crate::specs::Writing::carried))]
pub fn write(m: Message, frame: &mut [u8]) -> Result<(), WriteError>
    ensures { (written_number result ≡ write_number m frame.old) × (frame.new ≡ written_of m frame.old) }
{
    if frame.len() != FRAME_SIZE {
        return Err(WriteError::Size);
    }
    match m {
        Message::Short {
            dir,
            address,
            service,
        } if short_fits(dir, address, service) => put_short(dir, address, service, frame),
        Message::Plain { about, body } if long_fits(about, octets::MOST, body) => {
            put_long(about, 0, body, frame)
        }
        Message::Fragment {
            about,
            number,
            total,
            body,
        } if long_fits(about, MOST_FRAGMENT_DATA, body) => {
            put_long(about, 1, prefixed(number, total, body), frame)
        }
        _ => return Err(WriteError::Unfit),
    }
    Ok(())
}
