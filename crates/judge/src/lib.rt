// Judging: what a frame asks for, by checks 1 and 3 to 12 (01, "One frame, one reply"). No state is looked at and nothing is altered.
#![tactic(auto)]

mod frame_checks;
mod judging;
mod switching;

pub use frame_checks::{misfit, route};
pub use judging::request_plan;
pub use switching::{point_for, state_of};
