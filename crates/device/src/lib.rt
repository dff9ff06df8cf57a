// The device: one frame, one reply (01, "One frame, one reply").
#![tactic(auto)]

mod applying;
mod stepping;
mod switching;

pub use stepping::step;
