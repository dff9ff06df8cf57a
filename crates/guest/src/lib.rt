// What a guest does with one frame (01, "One frame, one reply"): its meaning, in specs/, and the laws about it. No function but what a refusal says of itself:
// the code stands in judge, answers, writes and device, over these types.
#![tactic(auto)]

ghost use Rattle.std.specs.Prelude.{◌≡◌};
ghost use Rattle.guest.specs.Checks.{number_of, refusal_of, frames_of};

// The data bytes of every fragment but the last (01, "Served Read" and "Served fragment").
pub const FRAGMENT_BYTES: u8 = 4;

// The most frames of a reply, and the least bytes of an output that has room for them (01, check 1 and "0..64").
pub const MOST_FRAMES: usize = 64;

pub const LEAST_OUT: usize = MOST_FRAMES * codec::FRAME_SIZE;

// 000's error codes (figure 3.48) that name a fault of a frame that is refused with 7 to 12 (02, 2026-06). Of 14 it names none.
pub const ILLEGAL_SERVICE_PARAMETERS: u8 = 1;

pub const READ_ONLY_VARIABLE: u8 = 2;

pub const ILLEGAL_DLC: u8 = 9;

// The thirteen refusals, each named after its check (specs/Checks.antt) and with its number. "The number 13 is not used again" (02, 2026-05).
#[derive(Clone, Copy, PartialEq, Eq)]
pub enum Refusal {
    Misfit = 1,
    IllFormed = 2,
    Barred = 3,
    NotForUs = 4,
    NoService = 5,
    NotRequest = 6,
    ActionOrEvent = 7,
    BadShape = 8,
    Unknown = 9,
    NoAccess = 10,
    WrongLength = 11,
    WrongPiece = 12,
    OutOfOrder = 14,
}

impl Refusal {
    // The number of the reply.
    pub fn number(self) -> u8
        ensures { result ≡ number_of self }
    {
        self as u8
    }

    // The refusal of a number, if one has it: C asks by the number. It is 32 bits wide, so that 263 is not taken for 7. The numbers stand here again, since a
    // match is one look-up, and a search through the names is not.
    #[tactic(auto, unfolding(crate::specs::Checks::refusal_of))]
    pub fn of_number(number: u32) -> Option<Refusal>
        ensures { result ≡ refusal_of number }
    {
        match number {
            1 => Some(Refusal::Misfit),
            2 => Some(Refusal::IllFormed),
            3 => Some(Refusal::Barred),
            4 => Some(Refusal::NotForUs),
            5 => Some(Refusal::NoService),
            6 => Some(Refusal::NotRequest),
            7 => Some(Refusal::ActionOrEvent),
            8 => Some(Refusal::BadShape),
            9 => Some(Refusal::Unknown),
            10 => Some(Refusal::NoAccess),
            11 => Some(Refusal::WrongLength),
            12 => Some(Refusal::WrongPiece),
            14 => Some(Refusal::OutOfOrder),
            _ => None,
        }
    }

    // How many frames are put: 1 to 6 put none, the others one error frame.
    pub fn frames(self) -> u8
        ensures { result ≡ frames_of self }
    {
        if self.number() <= 6 { 0 } else { 1 }
    }
}

// What a frame in long form that checks 1 to 12 let pass asks for. No state decides it.
#[derive(Clone, Copy)]
pub enum Plan {
    Read(table::Attribute),
    Write {
        to: table::Attribute,
        body: octets::Data,
    },
    // A fragment of a Write.
    Join {
        to: table::Attribute,
        number: u8,
        total: u8,
        body: octets::Data,
    },
}
