// Bytes of one slice put over those of another. It is a loop and not the library's method, so that an archive asks a linker for `memcpy` alone.
ghost use Rattle.std.specs.Prelude.{◌≡◌, ◌++◌, take, drop, length};

// As many bytes as both have, from the front of one to the front of the other. The rest of the other stays.
pub fn copy(from: &[u8], to: &mut [u8])
    ensures { to.new ≡ take (length to.old) from.now ++ drop (length from.now) to.old }
{
    // by index: what `to.iter_mut().zip(from)` writes was tried, and is not proved
    for i in 0..from.len().min(to.len()) {
        to[i] = from[i];
    }
}
