// Records of ten bytes from standard input, as a log of can-utils to standard output. A record that is refused writes nothing there and one line to
// standard error: its number from 1, the number of the refusal and the rule. What has come is answered before more is waited for, so that on a live pipe no
// whole record waits for those behind it.
#![tactic(auto)]

ghost use Rattle.std.specs.Prelude.{◌≡◌, ◌<◌};
ghost use Rattle.codec.specs.Names.{frame_size};

use pipes::{Buffer, Output, Work};
use std::io::Stderr;
use std::mem;

const RECORD: usize = codec::FRAME_SIZE;

// How far an export has come: the bytes that are held of a record, and the records that are done.
#[derive(Drop)]
struct Export {
    errors: Stderr,
    held: Buffer<RECORD>,
    records: u64,
}

impl Export {
    // One that has not begun.
    fn new(errors: Stderr) -> Export
        ensures { result.held.used ≡ 0 }
    {
        Export {
            errors,
            held: Buffer::new(),
            records: 0,
        }
    }

    // A record is whole, or the input has ended: sends its line, or tells why it is refused.
    fn finish_record(&mut self, record: &[u8], out: &mut Output)
        ensures { self.new.held ≡ self.old.held }
    {
        self.records = pipes::next(self.records);
        match candump::export_record(record) {
            Ok(line) => {
                out.send(line.text());
                out.send(b"\n");
            }
            Err(refusal) => pipes::tell_displayed(
                self.errors,
                b"record",
                self.records,
                refusal.number(),
                &refusal,
            ),
        }
    }

    // What is held is finished, and nothing is held then.
    fn finish_held(&mut self, out: &mut Output)
        ensures { self.new.held.used ≡ 0 }
    {
        let held = mem::replace(&mut self.held, Buffer::new());
        self.finish_record(held.held(), out);
    }
}

impl Work for Export {
    // Each record that ends in these bytes is finished, and the front of the last one is held.
    #[tactic(auto, unfolding(pipes::specs::Buffers::appended_count))]
    fn take(&mut self, block: &[u8], out: &mut Output)
        ensures { self.new.held.used < frame_size }
    {
        prove!(self.held.bytes.len() == RECORD);
        let missing = RECORD.saturating_sub(self.held.used);
        let Some((first, rest)) = block.split_at_checked(missing) else {
            self.held.append(block);
            return;
        };
        self.held.append(first);
        self.finish_held(out);
        let records = rest.chunks_exact(RECORD);
        let behind = records.remainder();
        for record in records {
            self.finish_record(record, out);
        }
        self.held.append(behind);
    }

    // What is left of a record.
    fn end(&mut self, out: &mut Output)
        ensures { self.new.held.used ≡ 0 }
    {
        if self.held.used > 0 {
            self.finish_held(out);
        }
    }
}

fn main(rt: HostRuntime) {
    let export = Export::new(rt.stderr());
    pipes::run(rt.stdin(), rt.stdout(), export);
}
