// Places: of a record in the work area, and of a fragment's data among the joined bytes.
ghost use Rattle.std.specs.Prelude.{◌≡◌, ◌+◌, drop};
ghost use Rattle.join.specs.Code.{Start};
ghost use Rattle.join.specs.Work.{base, head_size};

// "32 records of 260 bytes, one per object".
pub const RECORD: usize = 260;

pub const RECORDS: usize = 32;

pub const AREA: usize = RECORDS * RECORD;

// Where things stand in a record: "Byte 0 status, 1 attribute ID, 2 total, 3 next number k, 4..258 data".
pub(crate) const KEY: usize = 1;

pub(crate) const TOTAL: usize = 2;

pub(crate) const NEXT: usize = 3;

pub(crate) const HEAD: usize = 4;

pub(crate) const DATA: usize = 255;

// "byte 259 now holds the object" (02, 2026-07).
pub(crate) const SECOND: usize = HEAD + DATA;

// The place of an object's record: 4 and 256 times the object, by shifts, for a part without a multiplier (02, 2026-03). The larger summand has 16 bits,
// because of two that are as wide as their sum an optimizer makes one product again (docs/DECISIONS.md).
pub fn place_of(object: u8) -> usize
    ensures { result ≡ base object }
{
    ((object as usize) << 2) + (((object as u16) << 8) as usize)
}

// Where a fragment's data begin among the joined bytes. It takes more than eight bits.
pub(crate) fn start_of(width: u8, number: u8) -> usize
    ensures { Start width number result }
{
    (width as usize) * (number as usize)
}

// The bytes of an area from a record's place on: none where the place is behind its end.
pub(crate) fn record_at(work: &[u8], at: usize) -> &[u8]
    ensures { result.now ≡ drop at work.now }
{
    work.get(at..).unwrap_or(&[])
}

// The place of the data in an object's record.
pub fn data_place(object: u8) -> usize
    ensures { result ≡ base object + head_size }
{
    place_of(object) + HEAD
}
