// Plays a capture, records of ten bytes from standard input, into the sample device of 01 and prints each reply: its number, a blank and the count
// of frames. Store and work area are zero at first, and keep what the records make of them. A record is answered once it has arrived, so that on a live
// pipe none waits for those behind it.
#![tactic(auto)]

ghost use Rattle.std.specs.Prelude.{◌≤◌};
ghost use Rattle.codec.specs.Names.{frame_size};

use std::io;
use std::io::{Read, Stdin};

const RECORD: usize = codec::FRAME_SIZE;

// How many bytes of the next record came, and stand at the front: all of them unless the input ends before. A read that fails counts as the input's end.
// Where the input ends before the record does, std's `read_exact` does not say how many came, and the device is to answer them.
fn read_record(from: Stdin, record: &mut [u8; RECORD]) -> usize
    ensures { result ≤ frame_size }
{
    let mut input = from;
    let mut have = 0;
    while have < RECORD {
        let n = input.read(&mut record[have..]).unwrap_or(0);
        if n == 0 {
            break;
        }
        have += n;
    }
    have
}

// Waits for the next record and answers it. Where the input ends before it is whole, what there is of it is answered: a record of another length is the
// device's to refuse. Whether the input may go on.
fn play_next(from: Stdin, to: &impl Print, store: &mut [u8], work: &mut [u8]) -> io::Result<bool> {
    let mut record = [0; RECORD];
    let n = read_record(from, &mut record);
    if n == 0 {
        return Ok(false);
    }
    let table = sample::TABLE;
    let mut out = [0; sample::OUT];
    let (number, count) = match device::step(
        &record[..n],
        sample::ADDRESS,
        &table,
        store,
        work,
        &mut out,
    ) {
        Ok(count) => (0, count),
        Err(refusal) => (refusal.number(), refusal.frames()),
    };
    println!(to; "{number} {count}")?;
    Ok(n == RECORD)
}

fn main(rt: HostRuntime) -> io::Result<()> {
    let mut store = [0; sample::STORE];
    let mut work = [0; sample::WORK];
    // A proved loop has to end, and nothing says that an input does: no input uses up so many turns.
    for _ in 0..u64::MAX {
        if !play_next(rt.stdin(), &rt, &mut store, &mut work)? {
            break;
        }
    }
    Ok(())
}
