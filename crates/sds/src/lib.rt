// The library's border to C: byte slices and numbers. A slice is a pointer and then a length of 64 bits; each answer is 32 bits wide, since a
// narrower one is not widened on every target. Nothing is asked of a caller.
#![tactic(auto)]

mod messages;

ghost use Rattle.std.specs.Prelude.{◌≡◌, ◌+◌, ◌*◌};
ghost use Rattle.laws.specs.Checks.{first_of};
ghost use Rattle.sds.specs.Border.{border_read_number, border_read, border_write_number, border_write, border_size, table_checks, stepped, border_step};
ghost use Rattle.guest.specs.Errors.{code_of};
ghost use Rattle.guest.specs.Step.{areas, call, step_of, number_in, count_in};

use guest::Refusal;
use messages::{read_into, write_from};

// The number of a reply and the count of its frames, in one number.
fn packed(reply: Result<u8, Refusal>) -> u32
    ensures { result ≡ number_in reply + 256 * count_in reply }
{
    match reply {
        Ok(count) => 256 * (count as u32),
        Err(refusal) => (refusal.number() as u32) + 256 * (refusal.frames() as u32),
    }
}

// One frame: what the device answers, number + 256 * count. Its frames stand at the front of the output.
pub fn sds_step(
    frame: &[u8],
    own: u32,
    table: &[u8],
    store: &mut [u8],
    work: &mut [u8],
    out: &mut [u8],
) -> u32
    ensures { stepped result (areas store.new work.new) out.new
        ≡ border_step (step_of (call frame.now own table.now (areas store.old work.old) out.old)) }
{
    packed(device::step(frame, own, table, store, work, out))
}

// Reads a record into the 16 bytes of a message. Refused are 1 (not 16 bytes, or not ten), 3, 5 and 8, and the message buffer stays.
pub fn sds_read(frame: &[u8], message: &mut [u8]) -> u32
    ensures { (result ≡ border_read_number frame.now message.old) × (message.new ≡ border_read frame.now message.old) }
{
    match read_into(frame, message) {
        Ok(()) => 0,
        Err(e) => e.number() as u32,
    }
}

// Writes the record that carries a message. Refused are 1 (not 16 bytes, or not ten) and then 3 (no readable frame carries it), and the record stays.
pub fn sds_write(message: &[u8], frame: &mut [u8]) -> u32
    ensures { (result ≡ border_write_number message.now frame.old) × (frame.new ≡ border_write message.now frame.old) }
{
    write_from(message, frame)
}

// The size of what a data descriptor describes; 0 where it is refused. It is 32 bits wide so that one above 16 bits is refused and not cut.
pub fn sds_descriptor_size(descriptor: u32) -> u32
    ensures { result ≡ border_size descriptor }
{
    if 65535 < descriptor {
        return 0;
    }
    table::descriptor_size(descriptor as u16).unwrap_or(0) as u32
}

// What a step says of a table and a store of this length, whatever the frame: 1 (their lengths), 2 (not well formed), or nothing, 0.
pub fn sds_table_check(table: &[u8], store_len: u64) -> u32
    ensures { result ≡ first_of (table_checks table.now store_len) }
{
    if !table::lengths_fit(table.len(), store_len as usize) {
        return Refusal::Misfit.number() as u32;
    }
    if !table::well_formed(&table[..], store_len as usize) {
        return Refusal::IllFormed.number() as u32;
    }
    0
}

// The code that the error frame of a refusal carries; 0 where no error frame is put with this number.
pub fn sds_error_code(number: u32) -> u32
    ensures { result ≡ code_of number }
{
    answers::code_of(number) as u32
}
