// Lines of can-utils logs to frame records and back (02, 2026-02). It knows text and frames, and nothing of a device.
#![tactic(auto)]

mod errors;
mod exporting;
mod importing;
mod text;

pub use errors::{ExportError, ImportError};
pub use exporting::{Line, export_record, put_line};
pub use importing::import_line;
pub use text::place_of;

// The most bytes of a line that is imported.
pub const MOST_LINE: usize = 128;

// The bytes of the longest line that is exported.
pub const LINE_ROOM: usize = 36;

// What ends a line.
pub const LINE_FEED: u8 = b'\n';
