// The line that tells what was refused.
ghost use Rattle.std.specs.Prelude.{◌≡◌, decimal, OnOk, IfSome};
ghost use Rattle.std.specs.Io.KnownBytes.{Appends};
ghost use Rattle.pipes.specs.Buffers.{complaint_text, complaint_of};

use crate::Buffer;
use std::fmt::{Display, Write as _};
use std::io;
use std::io::{Stderr, Write};

// The bytes of the longest complaint.
pub const COMPLAINT_ROOM: usize = 128;

// A line that tells what was refused, with zeros behind it.
pub type Complaint = Buffer<COMPLAINT_ROOM>;

// The line that tells what was refused: `line 7: 3 no # behind the interface`, say, and its end. Cut where it is longer than its room.
pub fn complaint_of(kind: &[u8], place: &[u8], number: u8, rule: &[u8]) -> Complaint
    ensures { result ≡ complaint_of kind.now place.now number rule.now }
{
    let mut text = Buffer::new();
    text.append(kind);
    text.append(b" ");
    text.append(place);
    text.append(&[b':', b' ', b'0' + number % 10, b' ']);
    text.append(rule);
    text.append(b"\n");
    text
}

// Writes the line that tells what was refused, with the place in digits.
fn write_complaint<W: Write>(
    to: &mut W,
    kind: &[u8],
    place: u64,
    number: u8,
    rule: &[u8],
) -> io::Result<()>
    ensures { OnOk result (Appends (W.contents to.old) (W.contents to.new) (complaint_text kind.now (decimal place) number rule.now)) }
{
    let mut digits = itoa::Buffer::new();
    let line = complaint_of(kind, digits.format(place).as_bytes(), number, rule);
    to.write_all(line.held())
}

// The same, with the rule as it is displayed.
fn write_displayed<W: Write, R: Display>(
    to: &mut W,
    kind: &[u8],
    place: u64,
    number: u8,
    rule: &R,
) -> io::Result<()>
    ensures { IfSome (R.output rule.now) (λ words. OnOk result (Appends (W.contents to.old) (W.contents to.new) (complaint_text kind.now (decimal place) number words))) }
{
    let mut words = Complaint::new();
    if write!(words, "{rule}").is_err() {
        return Err(io::Error::from(io::ErrorKind::Other));
    }
    write_complaint(to, kind, place, number, words.held())
}

// Tells on standard error what was refused. Where that cannot be written nobody is told.
pub fn tell(to: Stderr, kind: &[u8], place: u64, number: u8, rule: &[u8]) {
    let mut errors = to;
    let _ = write_complaint(&mut errors, kind, place, number, rule);
}

// The same, with the rule as it is displayed.
pub fn tell_displayed(to: Stderr, kind: &[u8], place: u64, number: u8, rule: &impl Display) {
    let mut errors = to;
    let _ = write_displayed(&mut errors, kind, place, number, rule);
}
