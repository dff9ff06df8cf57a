// What a Write does to the store and the work area (01, "Served unfragmented Write" and "Served fragment"; 02, 2026-01).
#![tactic(auto)]

mod writing;

pub use writing::{keep_piece, store_data, store_joined, store_state};
