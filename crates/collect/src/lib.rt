// The host's side of a long Read (02, 2026-07): what guests answer, frame by frame, becomes whole values. Nothing is known here of tables and stores.
#![tactic(auto)]

ghost use Rattle.std.specs.Prelude.{◌≡◌};
ghost use Rattle.collect.specs.Code.{refusal_number};

mod collecting;
mod counting;
mod showing;

pub use collecting::collect;
pub use counting::{counted, tallied};
pub use showing::part_of;

// "One 260-byte work record per guest, 126 of them".
pub const GUESTS: usize = codec::MOST_ADDRESS as usize + 1;

pub const AREA: usize = GUESTS * join::RECORD;

// Which of the two lent areas the bytes of a value are a part of.
#[derive(Clone, Copy, PartialEq, Eq)]
pub enum Place {
    Frame,
    Work,
}

// What is handed over, and whose it is: part_of gives its bytes.
#[derive(Clone, Copy)]
pub struct Value {
    pub guest: u8,
    pub object: u8,
    pub id: u8,
    pub len: u8,
    pub place: Place,
}

// Why a frame is refused, by 02's numbers.
#[derive(Clone, Copy, PartialEq, Eq)]
pub enum Refusal {
    // A lent area has another length.
    Size = 1,
    // The codec refuses the frame.
    Malformed = 2,
    // It is no answer to a Read.
    NoAnswer = 3,
    // A fragment of a message with total 0.
    NoTotal = 4,
    // A fragment whose place or length is not its number's, or a whole answer without data.
    BadShape = 5,
    // A fragment that does not follow what its guest's record holds.
    OutOfOrder = 6,
}

impl Refusal {
    pub fn number(self) -> u8
        ensures { result ≡ refusal_number self }
    {
        self as u8
    }
}

// What a frame brings: what is handed over, if anything, or why it is refused; and whether a half-joined message was lost.
#[derive(Clone, Copy)]
pub struct Collected {
    pub outcome: Result<Option<Value>, Refusal>,
    pub dropped: bool,
}

// What came up so far, as C has it too.
#[repr(C)]
#[derive(Clone, Copy)]
pub struct Tally {
    pub seen: u32,
    pub finished: u32,
    pub dropped: u32,
}
