// The codec: frame records of ten bytes to messages and back (01, "Frame record"; 000, 3.2).
#![tactic(auto)]

ghost use Rattle.std.specs.Prelude.{◌≡◌};
ghost use Rattle.codec.specs.Reading.{subject_of, read_error_number};
ghost use Rattle.codec.specs.Writing.{write_error_number};

mod heading;
mod reading;
mod writing;

pub use heading::{can_bytes, can_of, header_of};
pub use reading::{payload_in, payload_of, read, readable, unprefixed};
pub use writing::{prefixed, put_long, put_short, write};

// The bytes of a record.
pub const FRAME_SIZE: usize = 10;

// Where what stands behind the ID begins in a record.
pub const PAYLOAD_PLACE: usize = 4;

// The highest logical address (000, 3.2.1.2).
pub const MOST_ADDRESS: u8 = 125;

// The highest data length code (000, figure 3.7).
pub const MOST_DLC: u8 = 8;

// The most data bytes of a fragment: its number and total take two of the six (000, figure 3.14).
pub const MOST_FRAGMENT_DATA: u8 = octets::MOST - 2;

// The lowest service type of a long form that the codec reads (01, "Frame record").
pub const LOWEST_LONG: u8 = 4;

// Kinds of services and responses are numbers and no enum: a field of a header, whose any value is kept (`header_of`), is compared with one of them or
// told in words, and an enum would be turned back to its number at each place.
// Short form service types (000, figure 3.4).
pub const CHANGE_OFF: u8 = 0;

pub const CHANGE_ON: u8 = 1;

pub const CHANGE_OFF_ACK: u8 = 2;

pub const CHANGE_ON_ACK: u8 = 3;

pub const WRITE_OFF: u8 = 4;

pub const WRITE_ON: u8 = 5;

pub const WRITE_OFF_ACK: u8 = 6;

pub const WRITE_ON_ACK: u8 = 7;

// Long form service types (000, figure 3.6).
pub const WRITE_SERVICE: u8 = 4;

pub const READ_SERVICE: u8 = 5;

// Request/Response (000, figure 3.8).
pub const REQUEST: u8 = 0;

pub const SUCCESSFUL: u8 = 1;

pub const ERRONEOUS: u8 = 2;

// The fields of a record's first four bytes, as they stand there, whether or not the record is readable.
#[derive(Clone, Copy)]
pub struct Header {
    pub dir: u8,
    pub address: u8,
    pub service: u8,
    pub rtr: u8,
    pub dlc: u8,
    pub response: u8,
    pub flag: u8,
    pub object: u8,
    pub id: u8,
}

impl Header {
    // What a long message with this header says of itself.
    pub fn subject(self) -> Subject
        ensures { result ≡ subject_of self }
    {
        Subject {
            dir: self.dir,
            address: self.address,
            service: self.service,
            response: self.response,
            object: self.object,
            id: self.id,
        }
    }
}

// The CAN header of a record: the identifier of 11 bits, RTR and the data length code (000, figure 3.2).
#[derive(Clone, Copy)]
pub struct Can {
    pub identifier: u16,
    pub rtr: u8,
    pub dlc: u8,
}

// What each long message says of itself: from or to whom, which service, request or response, of what. A field may be any byte, since `write` takes any
// message: it refuses with `Unfit` what no frame carries (`write_refuses_exactly`), which a type that holds less would ask of its callers.
#[derive(Clone, Copy)]
pub struct Subject {
    pub dir: u8,
    pub address: u8,
    pub service: u8,
    pub response: u8,
    pub object: u8,
    pub id: u8,
}

#[derive(Clone, Copy)]
pub enum Message {
    // DLC 0: Dir/Pri, address and service type are the whole message.
    Short {
        dir: u8,
        address: u8,
        service: u8,
    },
    // The flag is clear: up to six data bytes.
    Plain {
        about: Subject,
        body: octets::Data,
    },
    // The flag is set: the fragment's number, the total byte count, and up to four data bytes.
    Fragment {
        about: Subject,
        number: u8,
        total: u8,
        body: octets::Data,
    },
}

// Why reading refuses a record, by 01's numbers ("Frame record").
#[derive(Clone, Copy, PartialEq, Eq)]
pub enum ReadError {
    // The record is not ten bytes long.
    Size = 1,
    // RTR is 1, the DLC over 8, or the address over 125.
    Barred = 3,
    // The DLC is 1, or it is a long form of a service below 4.
    Unserved = 5,
    // A fragment without room for its number and total.
    Cramped = 8,
}

impl ReadError {
    pub fn number(self) -> u8
        ensures { result ≡ read_error_number self }
    {
        self as u8
    }
}

// Why writing refuses a message, by 01's numbers.
#[derive(Clone, Copy, PartialEq, Eq)]
pub enum WriteError {
    // The record is not ten bytes long.
    Size = 1,
    // No readable frame carries the message.
    Unfit = 3,
}

impl WriteError {
    pub fn number(self) -> u8
        ensures { result ≡ write_error_number self }
    {
        self as u8
    }
}
