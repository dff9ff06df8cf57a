// The sizes of a table and of a store, and whether two lengths keep to them.
ghost use Rattle.std.specs.Prelude.{◌≡◌};
ghost use Rattle.table.specs.Table.{lengths_fit};

// The bytes of a record, the most records of a table and the most bytes of a store.
pub(crate) const ENTRY: usize = 8;

const MOST_ENTRIES: usize = 1024;

const MOST_STORE: usize = 32768;

// What check 1 asks of the lengths of a table and of a store.
#[tactic(auto, unfolding(crate::specs::Table::lengths_fit))]
pub fn lengths_fit(table_len: usize, store_len: usize) -> bool
    ensures { result ≡ lengths_fit table_len store_len }
{
    table_len % ENTRY == 0 && table_len <= MOST_ENTRIES * ENTRY && store_len <= MOST_STORE
}
