// Bytes of text: hex digits, and where a part of a text ends.
ghost use Rattle.std.specs.Prelude.{◌≡◌};
ghost use Rattle.candump.specs.Text.{index_of, digit_of};

// The place of the first such byte; the length where there is none. So a line is what stands before the place of the next line feed.

pub fn place_of(byte: u8, text: &[u8]) -> usize
    ensures { result ≡ index_of byte text.now }
{
    text.iter().position(|c| *c == byte).unwrap_or(text.len())
}

// The value of a hex digit of either case.
#[tactic(auto, unfolding(crate::specs::Text::hex_value, crate::specs::Text::digit_of))]
pub(crate) fn hex_value(c: u8) -> Option<u8>
    ensures { result ≡ digit_of c }
{
    if c.is_ascii_digit() {
        Some(c - b'0')
    } else if (b'A'..=b'F').contains(&c) {
        Some(c - b'A' + 10)
    } else if (b'a'..=b'f').contains(&c) {
        Some(c - b'a' + 10)
    } else {
        None
    }
}
