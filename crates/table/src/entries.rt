// The records of a table: what one holds, whether it fits by itself, and whether all of them are well formed.
ghost use Rattle.std.specs.Prelude.{◌≡◌};
ghost use Rattle.table.specs.Code.{records};
ghost use Rattle.table.specs.Table.{attribute_of, readable, writable, network, described, entry_fits, single_boolean, pair_of, end_of, follows, well_formed};

use crate::Attribute;
use crate::descriptor::{descriptor_size, is_boolean};
use crate::sizes::ENTRY;

// The records of a table; bytes behind the last whole one are none.
pub(crate) fn records(table: &[u8]) -> &[[u8; ENTRY]]
    ensures { result.now ≡ records table.now }
{
    table.as_chunks().0
}

// What a record says.
#[tactic(auto, unfolding(crate::specs::Table::attribute_of))]
pub(crate) fn attribute_of(entry: &[u8; ENTRY]) -> Attribute
    ensures { result ≡ attribute_of entry.now }
{
    Attribute {
        object: entry[0],
        id: entry[1],
        access: entry[2],
        len: entry[3],
        offset: u16::from_le_bytes([entry[4], entry[5]]),
        descriptor: u16::from_le_bytes([entry[6], entry[7]]),
    }
}

// Whether the access byte lets it be read, and written.
pub fn may_read(a: Attribute) -> bool
    ensures { result ≡ readable a }
{
    a.access % 2 == 1
}

pub fn may_write(a: Attribute) -> bool
    ensures { result ≡ writable a }
{
    a.access / 2 % 2 == 1
}

// Whether it is network data.
pub(crate) fn is_network(a: &Attribute) -> bool
    ensures { result ≡ network a.now }
{
    a.access / 4 % 2 == 1
}

// Whether it is one point in one byte: a Boolean of undefined size, or sized as a byte (02, 2026-01).
#[tactic(auto, using(crate::proofs::Descriptors::one_element), unfolding(crate::specs::Table::single_boolean))]
pub fn single_boolean(a: Attribute) -> bool
    ensures { result ≡ single_boolean a }
{
    is_boolean(a.descriptor) && a.descriptor % 32 == 0 && a.len == 1
}

// Whether a network record has the size of its descriptor, where a refused one has 0, and another record no descriptor.
#[tactic(auto, using(crate::proofs::Served::size_back))]
fn is_described(a: &Attribute) -> bool
    ensures { result ≡ described a.now }
{
    if is_network(a) {
        a.len == descriptor_size(a.descriptor).unwrap_or(0)
    } else {
        a.descriptor == 0
    }
}

// Whether a record by itself is as 01's table says.
#[tactic(auto, unfolding(crate::specs::Table::entry_fits))]
fn entry_fits(a: &Attribute) -> bool
    ensures { result ≡ entry_fits a.now }
{
    // the length last: before the descriptor it was tried, and then a call saves registers for an empty table too
    a.object <= 31 && a.access <= 7 && is_described(a) && 1 <= a.len
}

// Object and ID as one number, which a well-formed table has rise.
fn pair_of(a: &Attribute) -> usize
    ensures { result ≡ pair_of a.now }
{
    256 * (a.object as usize) + (a.id as usize)
}

// Where an attribute's bytes end, beyond 16 bits: 65,535 + 255 does not wrap.
pub(crate) fn end_of(a: &Attribute) -> usize
    ensures { result ≡ end_of a.now }
{
    (a.offset as usize) + (a.len as usize)
}

// Whether a record fits and follows those before it: its pair is at least the least that may come, its offset is their end.
fn follows(least: usize, end: usize, a: &Attribute) -> bool
    ensures { result ≡ follows least end a.now }
{
    least <= pair_of(a) && a.offset as usize == end && entry_fits(a)
}

// One pass over the table.
#[inline(never)]
fn walked(table: &[u8], store_len: usize) -> bool
    ensures { result ≡ well_formed table.now store_len }
{
    let mut least = 0;
    let mut end = 0;
    let records = records(table);
    for entry in records {
        let a = attribute_of(entry);
        if !follows(least, end, &a) {
            return false;
        }
        least = pair_of(&a) + 1;
        end = end_of(&a);
    }
    end <= store_len
}

// Check 2. A table without records needs no pass, and its call saves no registers for one.
#[inline(always)]
#[tactic(auto, using(crate::proofs::Records::none_well))]
pub fn well_formed(table: &[u8], store_len: usize) -> bool
    ensures { result ≡ well_formed table.now store_len }
{
    table.len() < ENTRY || walked(table, store_len)
}
