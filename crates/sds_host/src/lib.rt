// The border to C of what a host uses beside the device: byte slices and numbers, as in sds, and a tally. Nothing is asked of a caller.
#![tactic(auto)]

ghost use Rattle.std.specs.Prelude.{◌≡◌, length};
ghost use Rattle.candump.specs.Exporting.{put_left};
ghost use Rattle.sds_host.specs.Border.{border_import_number, border_import, border_export_answer, value_size, value_at, value_bytes, BorderCollected};

use collect::{Collected, Place, Refusal, Tally, Value};

// The bytes of a value.
pub const VALUE: usize = 8;

// The record of a line of a can-utils log. Refused are 5 (not ten bytes), before the others; then 1 to 4, as import_line has them; and the record stays.
pub fn sds_import_line(line: &[u8], frame: &mut [u8]) -> u32
    ensures { (result ≡ border_import_number line.now frame.old) × (frame.new ≡ border_import line.now frame.old) }
{
    if frame.len() != codec::FRAME_SIZE {
        return 5;
    }
    match candump::import_line(line) {
        Ok(record) => {
            octets::copy(&record, frame);
            0
        }
        Err(refusal) => refusal.number() as u32,
    }
}

// The line of a record, at the front of its buffer: number + 256 * length. Refused are 1, 2 and 3, as put_line has them, and the buffer stays.
pub fn sds_export_record(frame: &[u8], line: &mut [u8]) -> u32
    ensures { (result ≡ border_export_answer frame.now line.old) × (line.new ≡ put_left frame.now line.old) }
{
    match candump::put_line(frame, line) {
        Ok(len) => 256 * len as u32,
        Err(refusal) => refusal.number() as u32,
    }
}

// Puts the bytes of a value at a place: kind, guest, object, ID, length, 0, and the place, its low byte first.
fn put_value(kind: u8, it: Value, place: usize, value: &mut [u8])
    requires { length value.old ≡ value_size }
    ensures { value.new ≡ value_at kind it.guest it.object it.id it.len place }
{
    let low = (place % 256) as u8;
    let high = (place / 256 % 256) as u8;
    let bytes = [kind, it.guest, it.object, it.id, it.len, 0, low, high];
    octets::copy(&bytes, value);
}

// Shows what is handed over; all bytes are 0 where nothing is. Each arm puts its own: bytes made by value and put once are chosen by arithmetic.
fn show(what: Option<Value>, value: &mut [u8])
    requires { length value.old ≡ value_size }
    ensures { value.new ≡ value_bytes what }
{
    let Some(it) = what else {
        octets::copy(&[0; VALUE], value);
        return;
    };
    match it.place {
        Place::Frame => put_value(1, it, codec::PAYLOAD_PLACE, value),
        Place::Work => put_value(2, it, join::data_place(it.guest), value),
    }
}

// What a call leaves besides the lent bytes.
#[derive(Clone, Copy)]
pub struct Outcome {
    pub number: u32,
    pub tally: Tally,
}

// One frame into the collector, and the tally after it: all that sds_collect does but to read and write the tally where it stands.
pub fn collected(frame: &[u8], work: &mut [u8], value: &mut [u8], t: Tally) -> Outcome
    ensures { BorderCollected frame.now work.old value.old t result.number work.new value.new result.tally }
{
    if value.len() != VALUE {
        let why = Refusal::Size;
        let c = Collected {
            outcome: Err(why),
            dropped: false,
        };
        return Outcome {
            number: u32::from(why.number()),
            tally: collect::tallied(t, c),
        };
    }
    let c = collect::collect(frame, work);
    match c.outcome {
        Err(why) => {
            let number = u32::from(why.number());
            let tally = collect::tallied(t, c);
            Outcome { number, tally }
        }
        Ok(what) => {
            show(what, value);
            let tally = collect::tallied(t, c);
            Outcome { number: 0, tally }
        }
    }
}

// One frame into the collector (02, 2026-07). The number of the refusal or 0; the value's bytes are set where it is 0; every call alters the tally.
pub fn sds_collect(frame: &[u8], work: &mut [u8], value: &mut [u8], tally: &mut Tally) -> u32
    ensures { BorderCollected frame.now work.old value.old tally.old result work.new value.new tally.new }
{
    let o = collected(frame, work, value, *tally);
    *tally = o.tally;
    o.number
}
