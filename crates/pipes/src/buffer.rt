// Buffers that are filled from the front.
ghost use Rattle.std.specs.Prelude.{◌≡◌, take, replicate, Ok, IsOk};
ghost use Rattle.pipes.specs.Buffers.{appended, appended_count, lacks_room, Added};

use std::fmt;

// The bytes that a buffer holds.
pub fn front(used: usize, buffer: &[u8]) -> &[u8]
    ensures { result.now ≡ take used buffer.now }
{
    &buffer[..used.min(buffer.len())]
}

// Whether a buffer has no room for these bytes behind those that it holds.
pub(crate) fn lacks_room(part: &[u8], used: usize, buffer: &[u8]) -> bool
    ensures { result ≡ lacks_room part.now used buffer.now }
{
    used <= buffer.len() && buffer.len() - used < part.len()
}

// Puts bytes behind those that a buffer holds, as many as it has room for, and gives how many it then holds.
pub fn append(part: &[u8], used: usize, buffer: &mut [u8]) -> usize
    ensures { (result ≡ appended_count part.now used buffer.old) × (buffer.new ≡ appended part.now used buffer.old) }
{
    if buffer.len() <= used {
        return used;
    }
    let n = part.len().min(buffer.len() - used);
    let end = used + n;
    buffer[used..end].copy_from_slice(&part[..n]);
    end
}

// N bytes, and how many of them at its front it holds. It is an array and no heap, so that a program's memory stays what it is at its start.
#[derive(Clone, Copy)]
pub struct Buffer<const N: usize> {
    pub bytes: [u8; N],
    pub used: usize,
}

impl<const N: usize> Buffer<N> {
    // An empty one.
    pub fn new() -> Buffer<N>
        ensures { (result.used ≡ 0) × (result.bytes ≡ replicate N 0) }
    {
        Buffer {
            bytes: [0; N],
            used: 0,
        }
    }

    // The bytes that it holds.
    pub fn held(&self) -> &[u8]
        ensures { result.now ≡ take self.now.used self.now.bytes }
    {
        front(self.used, &self.bytes)
    }

    // Puts bytes behind those that it holds, as many as it has room for.
    pub fn append(&mut self, part: &[u8])
        ensures { Added self.old part.now self.new }
    {
        self.used = append(part, self.used, &mut self.bytes);
    }
}

// What has no room is cut off.
impl<const N: usize> fmt::Write for Buffer<N> {
    ghost write_str_gives = { Added };

    fn write_str(&mut self, s: &str) -> fmt::Result
        ensures ok { IsOk result → Added self.old s.now self.new }
        ensures always { (result ≡ Ok tt) × Added self.old s.now self.new }
    {
        self.append(s.as_bytes());
        Ok(())
    }
}
