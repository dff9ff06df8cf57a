// A Write's data, put where they belong. What does not fit alters nothing, and neither does data that counts more bytes than it has places for.
// Parts of the store are cut by a test and a range: of what is written through `get_mut` the prover knows nothing.
ghost use Rattle.std.specs.Prelude.{◌≡◌};
ghost use Rattle.writes.specs.Code.{stored_data, stored_state, stored_joined, kept_piece};

use join::Piece;
use octets::Data;
use table::Attribute;

// A whole Write: the store's middle part at offset and length is lent to the copying routine.
pub fn store_data(to: Attribute, body: Data, store: &mut [u8])
    ensures { store.new ≡ stored_data to body store.old }
{
    let places = octets::places_of(body);
    let Some(bytes) = places.get(..body.len as usize) else {
        return;
    };
    let at = to.offset as usize;
    let end = at + bytes.len();
    if store.len() < end {
        return;
    }
    octets::copy(bytes, &mut store[at..end]);
}

// A short Write: the state is the attribute's one byte.
pub fn store_state(to: Attribute, state: u8, store: &mut [u8])
    ensures { store.new ≡ stored_state to state store.old }
{
    let place = to.offset as usize;
    if place < store.len() {
        store[place] = state;
    }
}

// The last fragment: the joined bytes are written into the attribute's part of the store.
pub fn store_joined(to: Attribute, number: u8, body: Data, work: &[u8], store: &mut [u8])
    ensures { store.new ≡ stored_joined to number body work.now store.old }
{
    let places = octets::places_of(body);
    let Some(bytes) = places.get(..body.len as usize) else {
        return;
    };
    let start = to.offset as usize;
    let end = start + to.len as usize;
    if store.len() < end {
        return;
    }
    // what is joined does not depend on the key
    let piece = Piece {
        key: [],
        total: to.len,
        number,
        body: bytes,
    };
    join::join_into(
        work,
        join::place_of(to.object),
        guest::FRAGMENT_BYTES,
        &piece,
        &mut store[start..end],
    );
}

// A fragment before the last: it is kept in the object's record.
pub fn keep_piece(to: Attribute, number: u8, total: u8, body: Data, work: &mut [u8])
    ensures { work.new ≡ kept_piece to number total body work.old }
{
    let places = octets::places_of(body);
    let Some(bytes) = places.get(..body.len as usize) else {
        return;
    };
    let piece = Piece {
        key: [to.id],
        total,
        number,
        body: bytes,
    };
    join::keep(
        work,
        join::place_of(to.object),
        guest::FRAGMENT_BYTES,
        &piece,
    );
}
