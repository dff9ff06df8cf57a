// Finding an attribute, by its object and ID or as the first network record of an object, and its part of the store.
ghost use Rattle.std.specs.Prelude.{◌≡◌};
ghost use Rattle.std.specs.Fn.{FnReturnsAt};
ghost use Rattle.table.specs.Table.{searched, first_network, part_of};
ghost use Rattle.table.specs.Code.{IsFirst};

use crate::Attribute;
use crate::entries::{attribute_of, end_of, is_network, records};

// The first attribute that a test takes, in any table, well formed or not: one walk.
fn first<F: Fn(&Attribute) -> bool>(table: &[u8], test: F) -> Option<Attribute>
    requires { F.IsAlwaysCallable test }
    ensures { IsFirst (FnReturnsAt F.Fn test) table.now result }
{
    records(table).iter().map(attribute_of).find(test)
}

// The record of (object, ID).
#[tactic(auto, unfolding(crate::specs::Table::find))]
pub fn find(table: &[u8], object: u8, id: u8) -> Option<Attribute>
    ensures { result ≡ searched table.now object id }
{
    first(table, |a| a.object == object && a.id == id)
}

// The first network record of an object, in table order (02, 2026-01).
#[tactic(auto, unfolding(crate::specs::Table::first_network))]
pub fn first_network(table: &[u8], object: u8) -> Option<Attribute>
    ensures { result ≡ first_network table.now object }
{
    first(table, |a| is_network(a) && a.object == object)
}

// An attribute's part of the lent store, "which the lookup hands back as a part of the caller's store"; empty where it would run past its end.
#[tactic(auto, unfolding(crate::specs::Table::part_of))]
pub fn part<'a>(a: Attribute, store: &'a [u8]) -> &'a [u8]
    ensures { result.now ≡ part_of a store.now }
{
    store.get(a.offset as usize..end_of(&a)).unwrap_or(&[])
}
