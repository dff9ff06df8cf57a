// A line of a log to the record of its frame.
ghost use Rattle.std.specs.Prelude.{◌≡◌, ◌++◌, length};
ghost use Rattle.codec.specs.Names.{most_dlc};
ghost use Rattle.codec.specs.Fields.{can_bytes};
ghost use Rattle.candump.specs.Text.{all_are};
ghost use Rattle.candump.specs.Text.Kind.{Decimal};
ghost use Rattle.candump.specs.Importing.{is_time, is_interface, data_imported, frame_imported, import_of};
ghost use Rattle.candump.specs.Refusals.{import_answer};
ghost use Rattle.candump.specs.Code.{identifier_said, bytes_said, dlc_said};

use crate::text::{hex_value, place_of};
use crate::{ImportError, MOST_LINE};
use codec::{Can, FRAME_SIZE};

// The most bytes of an interface's name.
const MOST_INTERFACE: usize = 15;

// The digits of the microseconds.
const MICRO_DIGITS: usize = 6;

// The highest identifier.
const MOST_IDENTIFIER: u16 = 0x7FF;

// The most data bytes.
const MOST_BYTES: usize = codec::MOST_DLC as usize;

fn are_digits(text: &[u8]) -> bool
    ensures { result ≡ all_are Decimal text.now }
{
    text.iter().all(|c| c.is_ascii_digit())
}

// A bracket, at least one digit, a point, six digits and a bracket.
#[tactic(auto, using(crate::proofs::Places::time_placed, crate::proofs::Places::placed_time, crate::proofs::Places::refuted, crate::proofs::Places::same_test))]
fn is_time(text: &[u8]) -> bool
    ensures { result ≡ is_time text.now }
{
    let n = text.len();
    if n < MICRO_DIGITS + 4 {
        return false;
    }
    let point = n - (MICRO_DIGITS + 2);
    let closing = n - 1;
    text[0] == b'('
        && text[point] == b'.'
        && text[closing] == b')'
        && are_digits(&text[1..point])
        && are_digits(&text[point + 1..closing])
}

#[tactic(auto, using(crate::proofs::Cuts::all_visible), unfolding(crate::specs::Importing::is_interface))]
fn is_interface(text: &[u8]) -> bool
    ensures { result ≡ is_interface text.now }
{
    !text.is_empty() && text.len() <= MOST_INTERFACE && text.iter().all(|c| c.is_ascii_graphic())
}

// The number that three hex digits say, up to the highest one.
#[tactic(auto, unfolding(crate::specs::Code::identifier_said, crate::specs::Text::digit_of, crate::specs::Text::is_a))]
fn identifier_of(a: u8, b: u8, c: u8) -> Option<u16>
    ensures { result ≡ identifier_said a b c }
{
    let high = hex_value(a)? as u16;
    let middle = hex_value(b)? as u16;
    let low = hex_value(c)? as u16;
    let identifier = high * 256 + middle * 16 + low;
    if MOST_IDENTIFIER < identifier {
        return None;
    }
    Some(identifier)
}

// The DLC of an R alone, which is 0, or with a digit up to 8.
#[tactic(auto, unfolding(crate::specs::Code::dlc_said, crate::specs::Importing::is_remote))]
fn remote_dlc(body: &[u8]) -> Option<u8>
    ensures { result ≡ dlc_said body.now }
{
    match body {
        [b'R'] => Some(0),
        [b'R', digit @ b'0'..=b'8'] => Some(*digit - b'0'),
        _ => None,
    }
}

// The bytes that pairs of digits say, with zeros behind them, if there are up to eight and each digit is one.
fn bytes_of(body: &[u8]) -> Option<[u8; MOST_BYTES]>
    ensures { result ≡ bytes_said body.now }
{
    if body.len() % 2 != 0 || 2 * MOST_BYTES < body.len() {
        return None;
    }
    let mut bytes = [0; MOST_BYTES];
    // written by index: of bytes that `iter_mut` lends a proof knows their count alone
    for (i, pair) in body.chunks_exact(2).enumerate() {
        bytes[i] = hex_value(pair[0])? * 16 + hex_value(pair[1])?;
    }
    Some(bytes)
}

// The record with this CAN header and these data bytes.
fn record_of(can: Can, bytes: [u8; MOST_BYTES]) -> [u8; FRAME_SIZE]
    requires { length bytes ≡ most_dlc }
    ensures { result ≡ can_bytes can ++ bytes }
{
    let mut frame = [0; FRAME_SIZE];
    let header = codec::can_bytes(can);
    frame[..2].copy_from_slice(&header);
    frame[2..].copy_from_slice(&bytes);
    frame
}

// What stands behind the # of a frame with this identifier.
fn import_data(identifier: u16, body: &[u8]) -> Result<[u8; FRAME_SIZE], ImportError>
    ensures { import_answer result ≡ data_imported identifier body.now }
{
    if let Some(dlc) = remote_dlc(body) {
        let can = Can {
            identifier,
            rtr: 1,
            dlc,
        };
        return Ok(record_of(can, [0; MOST_BYTES]));
    }
    let bytes = bytes_of(body).ok_or(ImportError::Data)?;
    let can = Can {
        identifier,
        rtr: 0,
        dlc: (body.len() / 2) as u8,
    };
    Ok(record_of(can, bytes))
}

// The frame of a line, ID#data.
fn import_frame(frame: &[u8]) -> Result<[u8; FRAME_SIZE], ImportError>
    ensures { import_answer result ≡ frame_imported frame.now }
{
    let [a, b, c, b'#', body @ ..] = frame else {
        return Err(ImportError::Identifier);
    };
    let identifier = identifier_of(*a, *b, *c).ok_or(ImportError::Identifier)?;
    import_data(identifier, body)
}

// The record of a line's frame. Refused are a line over 128 bytes, its time or interface, its identifier and its data, the first that applies.
#[tactic(auto, using(crate::proofs::Cuts::index_most))]
pub fn import_line(line: &[u8]) -> Result<[u8; FRAME_SIZE], ImportError>
    ensures { import_answer result ≡ import_of line.now }
{
    if MOST_LINE < line.len() {
        return Err(ImportError::TooLong);
    }
    let (time, from) = line.split_at(place_of(b' ', line));
    if !is_time(time) {
        return Err(ImportError::Front);
    }
    let [_, rest @ ..] = from else {
        return Err(ImportError::Front);
    };
    let (interface, from) = rest.split_at(place_of(b' ', rest));
    if !is_interface(interface) {
        return Err(ImportError::Front);
    }
    let [_, frame @ ..] = from else {
        return Err(ImportError::Identifier);
    };
    import_frame(frame)
}
