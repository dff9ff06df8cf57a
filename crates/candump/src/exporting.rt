// A record to the line of its frame.
ghost use Rattle.std.specs.Prelude.{◌≡◌, ◌∷◌, ◌++◌, ◌+◌, ◌*◌, ◌<◌, ◌≤◌, length, take, drop};
ghost use Rattle.codec.specs.Names.{most_dlc};
ghost use Rattle.candump.specs.Frame.{hex_of, identifier_digits, data_text, text};
ghost use Rattle.candump.specs.Text.{mark, hex_digit};
ghost use Rattle.candump.specs.Exporting.{export_of, put_of, put_left};
ghost use Rattle.candump.specs.Refusals.{export_answer, put_answer};

use crate::{ExportError, LINE_ROOM};
use codec::Can;

// Time and interface.
const FRONT: [u8; 16] = *b"(0.000000) can0 ";

// The digits by their values. A table that is read where it stands takes fewer instructions than a test for each digit.
static DIGITS: [u8; 16] = *b"0123456789ABCDEF";

// Where the text of the frame stands in a line.
const TEXT: usize = 16;

// A line without its end, with zeros behind it. It has no heap, so that it stands in fixed memory.
#[derive(Clone, Copy)]
pub struct Line {
    pub len: usize,
    pub bytes: [u8; LINE_ROOM],
}

impl Line {
    // Its bytes.
    pub fn text(&self) -> &[u8]
        ensures { result.now ≡ take self.now.len self.now.bytes }
    {
        let n = self.len.min(LINE_ROOM);
        &self.bytes[..n]
    }
}

// The digit of a value, in capitals.
fn digit(value: u8) -> u8
    requires { value < 16 }
    ensures { result ≡ hex_digit value }
{
    DIGITS[value as usize]
}

// Puts two digits for each byte to the front.
#[tactic(auto, using(crate::proofs::Stores::digits_stored, crate::proofs::Stores::digits_kept), unfolding(crate::specs::Frame::hex_of))]
fn put_digits(bytes: &[u8], places: &mut [u8])
    requires room { 2 * length bytes.now ≤ length places.old }
    ensures { places.new ≡ hex_of bytes.now ++ drop (2 * length bytes.now) places.old }
{
    // written by index: of bytes that `chunks_exact_mut` lends a proof knows their count alone
    for (i, byte) in bytes.iter().enumerate() {
        places[2 * i] = digit(byte / 16);
        places[2 * i + 1] = digit(byte % 16);
    }
}

// Puts the digits of an identifier and the # behind them to the front.
#[tactic(auto, unfolding(crate::specs::Frame::identifier_digits))]
fn put_identifier(identifier: u16, places: &mut [u8])
    requires room { 4 ≤ length places.old }
    ensures { places.new ≡ identifier_digits identifier ++ mark ∷ drop 4 places.old }
{
    places[0] = digit((identifier / 256 % 16) as u8);
    places[1] = digit((identifier / 16 % 16) as u8);
    places[2] = digit((identifier % 16) as u8);
    places[3] = b'#';
}

// Puts what stands behind the # to the front, of a frame with these data bytes and more behind them, and gives its length.
#[tactic(auto, using(crate::proofs::Stores::digits_count), unfolding(crate::specs::Frame::data_text))]
fn put_data(can: Can, body: &[u8], places: &mut [u8]) -> usize
    requires dlc_allowed { can.dlc ≤ most_dlc }
    requires data_there { most_dlc ≤ length body.now }
    requires room { 2 * most_dlc ≤ length places.old }
    ensures count { result ≡ length (data_text can body.now) }
    ensures front { places.new ≡ data_text can body.now ++ drop (length (data_text can body.now)) places.old }
{
    if can.rtr == 1 {
        places[0] = b'R';
        places[1] = b'0' + can.dlc;
        return 2;
    }
    let data = &body[..can.dlc as usize];
    put_digits(data, places);
    2 * data.len()
}

// Puts the text of a frame to the front, and gives its length.
#[tactic(auto, using(crate::proofs::Texts::text_put, crate::proofs::Texts::text_length, crate::proofs::Texts::data_most))]
fn put_text(can: Can, body: &[u8], places: &mut [u8]) -> usize
    requires dlc_allowed { can.dlc ≤ most_dlc }
    requires data_there { most_dlc ≤ length body.now }
    requires room { 4 + 2 * most_dlc ≤ length places.old }
    ensures count { result ≡ length (text can body.now) }
    ensures front { places.new ≡ text can body.now ++ drop (length (text can body.now)) places.old }
{
    put_identifier(can.identifier, places);
    4 + put_data(can, body, &mut places[4..])
}

// Puts the line of a record to the front of a buffer, and gives its length. Refused are a record that is not of ten bytes, a DLC over 8 and then a buffer
// without room for the longest line.
pub fn put_line(frame: &[u8], line: &mut [u8]) -> Result<usize, ExportError>
    ensures { (put_answer result ≡ put_of frame.now line.old) × (line.new ≡ put_left frame.now line.old) }
{
    if frame.len() != codec::FRAME_SIZE {
        return Err(ExportError::NotTen);
    }
    let can = codec::can_of(frame);
    if codec::MOST_DLC < can.dlc {
        return Err(ExportError::Dlc);
    }
    if line.len() < LINE_ROOM {
        return Err(ExportError::Room);
    }
    let front = FRONT;
    octets::copy(&front, line);
    Ok(TEXT + put_text(can, &frame[2..], &mut line[TEXT..]))
}

// The line of a record, by value. Refused are the first two, as above.
pub fn export_record(frame: &[u8]) -> Result<Line, ExportError>
    ensures { export_answer result ≡ export_of frame.now }
{
    let mut bytes = [0; LINE_ROOM];
    let len = put_line(frame, &mut bytes)?;
    Ok(Line { len, bytes })
}
