// A program's loop: what has come is answered before more is waited for.
ghost use Rattle.std.specs.Prelude.{◌≡◌};
ghost use Rattle.pipes.specs.Buffers.{appended, appended_count, sent_from, next_of};

use crate::Buffer;
use crate::buffer::{append, front, lacks_room};
use std::io;
use std::io::{Read, Stdin, Stdout, Write};

// The bytes that a program reads at a time, and those that wait to be written, at most.
pub const BLOCK: usize = 65536;

// Puts bytes behind those that wait for standard output, which are written first where there is no room for more. That they could not be written shows
// where the next are.
pub fn send(to: Stdout, part: &[u8], used: usize, buffer: &mut [u8]) -> usize
    ensures { (result ≡ appended_count part.now (sent_from part.now used buffer.old) buffer.old)
        × (buffer.new ≡ appended part.now (sent_from part.now used buffer.old) buffer.old) }
{
    if lacks_room(part, used, buffer) {
        let mut output = to;
        let _ = output.write_all(front(used, buffer));
        return append(part, 0, buffer);
    }
    append(part, used, buffer)
}

// Standard output, and the bytes that wait for it.
#[derive(Drop)]
pub struct Output {
    pub to: Stdout,
    pub waiting: Buffer<BLOCK>,
}

impl Output {
    // Puts bytes behind those that wait, as `send` does.
    pub fn send(&mut self, part: &[u8])
        ensures { (self.new.waiting.used ≡ appended_count part.now (sent_from part.now self.old.waiting.used self.old.waiting.bytes) self.old.waiting.bytes)
            × (self.new.waiting.bytes ≡ appended part.now (sent_from part.now self.old.waiting.used self.old.waiting.bytes) self.old.waiting.bytes)
            × (self.new.to ≡ self.old.to) }
    {
        self.waiting.used = send(self.to, part, self.waiting.used, &mut self.waiting.bytes);
    }

    // Writes what waits.
    fn flush(&mut self) -> io::Result<()>
        ensures { (self.new.waiting.used ≡ 0) × (self.new.waiting.bytes ≡ self.old.waiting.bytes) × (self.new.to ≡ self.old.to) }
    {
        let mut output = self.to;
        let done = output.write_all(self.waiting.held());
        self.waiting.used = 0;
        done
    }
}

// What a program does with its input.
pub trait Work {
    // Answers what is whole with these next bytes, and holds the rest.
    fn take(&mut self, block: &[u8], out: &mut Output);

    // Answers what is held, where the input has ended.
    fn end(&mut self, out: &mut Output);
}

// Does a program's work, to the end of the input or until nothing can be written any more. A read that fails counts as the input's end. It keeps what it is
// given, since nothing says what is read.
pub fn run(from: Stdin, to: Stdout, mut work: impl Work + Drop) {
    let mut input = from;
    let mut block = [0; BLOCK];
    let mut out = Output {
        to,
        waiting: Buffer::new(),
    };
    // A proved loop has to end, and nothing says that an input does: no input uses up so many turns.
    for _ in 0..u64::MAX {
        let n = input.read(&mut block).unwrap_or(0);
        if n == 0 {
            break;
        }
        work.take(&block[..n], &mut out);
        if out.flush().is_err() {
            return;
        }
    }
    work.end(&mut out);
    let _ = out.flush();
}

// One more, up to the largest number.
pub fn next(n: u64) -> u64
    ensures { result ≡ next_of n }
{
    n.saturating_add(1)
}
