// A message as the 16 bytes that C lends.
ghost use Rattle.std.specs.Prelude.{◌≡◌, ◌&&◌, eqb, length, drop, if◌then◌else◌, Some, None};
ghost use Rattle.codec.specs.declared.Message.TheVariants.{Short};
ghost use Rattle.codec.specs.Names.{frame_size};
ghost use Rattle.laws.specs.Bytes.{byte_at, zeros};
ghost use Rattle.codec.specs.Reading.{number_of, numbered};
ghost use Rattle.codec.specs.Writing.{written_number};
ghost use Rattle.sds.specs.Border.{message_size, long_bytes, short_subject, message_bytes, subject_at, data_at, message_in, put_message, border_read_number, border_read, border_write_number, border_write};

use codec::{FRAME_SIZE, Message, ReadError, Subject, WriteError};
use octets::{Data, byte_at, zeros};

// The bytes of a message.
const MESSAGE: usize = 16;

// The subject of a short message, which has no response, object and ID.
fn short_subject(dir: u8, address: u8, service: u8) -> Subject
    ensures { result ≡ short_subject dir address service }
{
    Subject {
        dir,
        address,
        service,
        response: 0,
        object: 0,
        id: 0,
    }
}

// Puts the 16 bytes of a message, of its kind's number in C. A buffer of another length stays.
fn put_places(kind: u8, u: Subject, number: u8, total: u8, b: Data, message: &mut [u8])
    ensures { message.new ≡ put_message (long_bytes kind u number total b) message.old }
{
    if message.len() != MESSAGE {
        return;
    }
    message[0] = kind;
    message[1] = u.dir;
    message[2] = u.address;
    message[3] = u.service;
    message[4] = u.response;
    message[5] = u.object;
    message[6] = u.id;
    message[7] = number;
    message[8] = total;
    message[9] = b.len;
    message[10] = b.places[0];
    message[11] = b.places[1];
    message[12] = b.places[2];
    message[13] = b.places[3];
    message[14] = b.places[4];
    message[15] = b.places[5];
}

// Puts the 16 bytes of a message. A buffer of another length stays.
#[tactic(auto, unfolding(crate::specs::Border::message_bytes))]
fn put_message(m: Message, message: &mut [u8])
    ensures { message.new ≡ put_message (message_bytes m) message.old }
{
    match m {
        Message::Short {
            dir,
            address,
            service,
        } => {
            let about = short_subject(dir, address, service);
            put_places(0, about, 0, 0, octets::no_data(), message)
        }
        Message::Plain { about, body } => put_places(1, about, 0, 0, body, message),
        Message::Fragment {
            about,
            number,
            total,
            body,
        } => put_places(2, about, number, total, body, message),
    }
}

#[tactic(auto, unfolding(crate::specs::Border::subject_at))]
fn subject_at(message: &[u8]) -> Subject
    ensures { result ≡ subject_at message.now }
{
    Subject {
        dir: byte_at(message, 1),
        address: byte_at(message, 2),
        service: byte_at(message, 3),
        response: byte_at(message, 4),
        object: byte_at(message, 5),
        id: byte_at(message, 6),
    }
}

#[tactic(auto, unfolding(crate::specs::Border::data_at))]
fn data_at(message: &[u8]) -> Data
    ensures { result ≡ data_at message.now }
{
    Data {
        len: byte_at(message, 9),
        places: [
            byte_at(message, 10),
            byte_at(message, 11),
            byte_at(message, 12),
            byte_at(message, 13),
            byte_at(message, 14),
            byte_at(message, 15),
        ],
    }
}

// Whether a message has nothing behind its service.
fn only_short(message: &[u8]) -> bool
    ensures { result ≡ zeros (drop 4 message.now) }
{
    zeros(message.get(4..).unwrap_or(&[]))
}

// The short message of 16 bytes of that kind. There is none where a place behind its service is not 0.
fn short_at(message: &[u8]) -> Option<Message>
    ensures { result ≡ if zeros (drop 4 message.now) then Some (Short (byte_at message.now 1) (byte_at message.now 2) (byte_at message.now 3)) else None }
{
    only_short(message).then_some(Message::Short {
        dir: byte_at(message, 1),
        address: byte_at(message, 2),
        service: byte_at(message, 3),
    })
}

// Whether a message has neither fragment number nor total.
fn unnumbered(message: &[u8]) -> bool
    ensures { result ≡ (eqb (byte_at message.now 7) 0 && eqb (byte_at message.now 8) 0) }
{
    byte_at(message, 7) == 0 && byte_at(message, 8) == 0
}

// The message of 16 bytes, by the number of their kind. There is none of another kind, or where a place that its kind does not use is not 0.
#[tactic(auto, unfolding(crate::specs::Border::message_at, crate::specs::Border::bordered))]
fn message_at(message: &[u8]) -> Option<Message>
    ensures { result ≡ message_in message.now }
{
    match byte_at(message, 0) {
        0 => short_at(message),
        1 if unnumbered(message) => Some(Message::Plain {
            about: subject_at(message),
            body: data_at(message),
        }),
        2 => Some(Message::Fragment {
            about: subject_at(message),
            number: byte_at(message, 7),
            total: byte_at(message, 8),
            body: data_at(message),
        }),
        _ => None,
    }
}

// Reads a record into the bytes of a message, which stay where it is refused.
#[tactic(auto, unfolding(crate::specs::Border::border_read_number, crate::specs::Border::border_read))]
pub(crate) fn read_into(frame: &[u8], message: &mut [u8]) -> Result<(), ReadError>
    ensures { (number_of (numbered result) ≡ border_read_number frame.now message.old) × (message.new ≡ border_read frame.now message.old) }
{
    if message.len() != MESSAGE {
        return Err(ReadError::Size);
    }
    let m = codec::read(frame)?;
    put_message(m, message);
    Ok(())
}

// C's number of what writing answers.
fn number(written: Result<(), WriteError>) -> u32
    ensures { result ≡ written_number written }
{
    match written {
        Ok(()) => 0,
        Err(e) => e.number() as u32,
    }
}

// Writes the record that carries the message of 16 bytes, which stays where it is refused. Out of line, and by its number: else a short form saves the registers
// of a long one, and `sds_write` of it is above the limit of speed.
#[inline(never)]
#[tactic(auto, unfolding(crate::specs::Border::border_write_number, crate::specs::Border::border_write, codec::specs::Writing::write_number, codec::specs::Writing::written_of))]
fn write_sized(message: &[u8; MESSAGE], frame: &mut [u8]) -> u32
    ensures { (result ≡ border_write_number message.now frame.old) × (frame.new ≡ border_write message.now frame.old) }
{
    match message_at(message) {
        Some(m) => number(codec::write(m, frame)),
        None if frame.len() != FRAME_SIZE => number(Err(WriteError::Size)),
        None => number(Err(WriteError::Unfit)),
    }
}

// Writes the record that carries a message, which stays where it is refused.
#[tactic(auto, unfolding(crate::specs::Border::message_at, crate::specs::Border::bordered, crate::specs::Border::border_write_number, crate::specs::Border::border_write, codec::specs::Writing::write_number, codec::specs::Writing::written_of))]
pub(crate) fn write_from(message: &[u8], frame: &mut [u8]) -> u32
    ensures { (result ≡ border_write_number message.now frame.old) × (frame.new ≡ border_write message.now frame.old) }
{
    let Some(message) = message.as_array() else {
        return number(Err(WriteError::Size));
    };
    if frame.len() != FRAME_SIZE {
        return number(Err(WriteError::Size));
    }
    match byte_at(message, 0) {
        0 => {}
        1 | 2 => return write_sized(message, frame),
        _ => return number(Err(WriteError::Unfit)),
    }
    let Some(m) = short_at(message) else {
        return number(Err(WriteError::Unfit));
    };
    number(codec::write(m, frame))
}
