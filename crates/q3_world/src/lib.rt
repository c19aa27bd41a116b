//! Both ends over a schedule, and what they print.
#![tactic(auto)]

mod ends;
pub mod later;
pub mod laws;
mod made;
mod places;
pub mod told;
pub mod world;

pub use later::Later;
pub use told::StepError;
pub use world::World;
