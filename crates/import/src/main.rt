// A log of can-utils from standard input, as records of ten bytes to standard output. A line that is refused writes nothing there and one line to standard
// error: its number from 1, the number of the refusal and the rule. What has come is answered before more is waited for, so that on a live pipe no whole
// line waits for those behind it.
#![tactic(auto)]

use pipes::{Buffer, Output, Work};
use std::io::Stderr;

// What is held of a line that is not whole yet. One byte more than the longest line that is imported tells that it is too long, so no more is held.
const HELD: usize = candump::MOST_LINE + 1;

// How far an import has come: the bytes that are held of a line, and the lines that are done.
#[derive(Drop)]
struct Import {
    errors: Stderr,
    held: Buffer<HELD>,
    lines: u64,
}

impl Import {
    // A line is whole: sends its record, or tells why it is refused.
    fn finish_line(&mut self, out: &mut Output) {
        self.lines = pipes::next(self.lines);
        match candump::import_line(self.held.held()) {
            Ok(record) => out.send(&record),
            Err(refusal) => pipes::tell_displayed(
                self.errors,
                b"line",
                self.lines,
                refusal.number(),
                &refusal,
            ),
        }
        self.held.used = 0;
    }
}

impl Work for Import {
    // Each line that ends in these bytes is finished, and the front of the last one is held.
    #[tactic(auto, using(candump::proofs::Cuts::index_most))]
    fn take(&mut self, block: &[u8], out: &mut Output) {
        let mut rest = block;
        while !rest.is_empty() {
            let (line, from) = rest.split_at(candump::place_of(candump::LINE_FEED, rest));
            self.held.append(line);
            let Some((_, behind)) = from.split_first() else {
                return;
            };
            self.finish_line(out);
            rest = behind;
        }
    }

    // A last line without its end.
    fn end(&mut self, out: &mut Output) {
        if self.held.used > 0 {
            self.finish_line(out);
        }
    }
}

fn main(rt: HostRuntime) {
    let import = Import {
        errors: rt.stderr(),
        held: Buffer::new(),
        lines: 0,
    };
    pipes::run(rt.stdin(), rt.stdout(), import);
}
