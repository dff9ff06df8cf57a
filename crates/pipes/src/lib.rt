// What the programs on pipes share: the loop that answers what has come before it waits for more, what waits to be written, and the line that tells what was
// refused.
#![tactic(auto)]

mod buffer;
mod complaint;
mod running;

pub use buffer::{Buffer, append, front};
pub use complaint::{COMPLAINT_ROOM, Complaint, complaint_of, tell, tell_displayed};
pub use running::{BLOCK, Output, Work, next, run, send};
