// The size of what a data descriptor describes (01, "Descriptor sizes"; 001, section 5).
ghost use Rattle.std.specs.Prelude.{◌≡◌, ◌≤◌, eqb};
ghost use Rattle.table.specs.Descriptor.{boolean_type, unreserved, type_of, size_bytes, boolean_size, real_size, size_by, descriptor_size};
ghost use Rattle.table.specs.Code.{kind_of, number_of, sized};

// The types that are served (001, figure 11; 01 for Signed).
#[derive(Clone, Copy)]
enum Kind {
    Signed,
    Boolean,
    Unsigned,
    Extended,
    Real,
    Character,
}

// The type of a number.
fn kind_of(number: u16) -> Option<Kind>
    ensures { result ≡ kind_of number }
{
    match number {
        0 => Some(Kind::Signed),
        1 => Some(Kind::Boolean),
        4 => Some(Kind::Unsigned),
        5 => Some(Kind::Extended),
        6 => Some(Kind::Real),
        7 => Some(Kind::Character),
        _ => None,
    }
}

// The number in the size bits that names a long.
const LONG: u16 = 3;

// The bytes that the size bits name: byte, word or long.
fn size_bytes(size: u16) -> Option<u8>
    ensures { result ≡ sized (size_bytes size) }
{
    match size {
        1 => Some(1),
        2 => Some(2),
        LONG => Some(4),
        _ => None,
    }
}

// Points: where no size is given, in as few bytes as hold them (001, 5.1.2.5); else as sized if they fit in its bits.
fn boolean_size(size: u16, elements: u8) -> Option<u8>
    requires some { 1 ≤ elements }
    requires most { elements ≤ 32 }
    ensures { result ≡ sized (boolean_size size elements) }
{
    if size == 0 {
        return Some(elements.div_ceil(8));
    }
    let bytes = size_bytes(size)?;
    (elements <= 8 * bytes).then_some(bytes)
}

// A number of single precision: long, or refused.
fn real_size(size: u16) -> Option<u8>
    ensures { result ≡ sized (real_size size) }
{
    (size == LONG).then_some(4)
}

// By type, size bits and the number of elements.
#[tactic(auto, unfolding(crate::specs::Descriptor::size_by))]
fn size_by(kind: Kind, size: u16, elements: u8) -> Option<u8>
    requires some { 1 ≤ elements }
    requires most { elements ≤ 32 }
    ensures { result ≡ sized (size_by (number_of kind) size elements) }
{
    match kind {
        Kind::Boolean => boolean_size(size, elements),
        Kind::Signed | Kind::Unsigned => size_bytes(size),
        Kind::Real => real_size(size),
        Kind::Character => Some(elements),
        Kind::Extended => Some(2 * elements),
    }
}

// The type that a descriptor names.
fn type_of(descriptor: u16) -> Option<Kind>
    ensures { result ≡ kind_of (type_of descriptor) }
{
    kind_of(descriptor / 256 % 16)
}

// Whether it describes points.
pub(crate) fn is_boolean(descriptor: u16) -> bool
    ensures { result ≡ eqb (type_of descriptor) boolean_type }
{
    matches!(type_of(descriptor), Some(Kind::Boolean))
}

// Whether its reserved bits are 0.
fn is_unreserved(descriptor: u16) -> bool
    ensures { result ≡ unreserved descriptor }
{
    descriptor / 4096 % 4 == 0 && descriptor / 128 % 2 == 0
}

// The size of what a descriptor describes, in bytes; none where it is refused.
#[tactic(auto, using(crate::proofs::Served::described_by), unfolding(crate::specs::Descriptor::descriptor_size))]
pub fn descriptor_size(descriptor: u16) -> Option<u8>
    ensures { result ≡ sized (descriptor_size descriptor) }
{
    if !is_unreserved(descriptor) {
        return None;
    }
    let kind = type_of(descriptor)?;
    size_by(kind, descriptor / 32 % 4, (descriptor % 32) as u8 + 1)
}
