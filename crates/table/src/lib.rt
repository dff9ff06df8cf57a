// The object table: which attributes a device has, and where their bytes stand in its store (01, "Object table, store, work area").
#![tactic(auto)]

mod descriptor;
mod entries;
mod finding;
mod sizes;

pub use descriptor::descriptor_size;
pub use entries::{may_read, may_write, single_boolean, well_formed};
pub use finding::{find, first_network, part};
pub use sizes::lengths_fit;

// A record of the table: eight bytes.
#[derive(Clone, Copy)]
pub struct Attribute {
    pub object: u8,
    pub id: u8,
    pub access: u8,
    pub len: u8,
    pub offset: u16,
    pub descriptor: u16,
}
