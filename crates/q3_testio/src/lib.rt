//! Files, a sink, a wire and a clock in memory, for tests: they tell all that they hold, and fail where a test wants it.
//! All their memory is taken when they are made, so no call fails for want of it.
#![tactic(auto)]

mod by_name;
mod calls;
pub mod clock;
pub mod files;
mod numbers;
mod parcels;
pub mod sink;
mod store;
mod texts;
pub mod wire;

pub use clock::MemClock;
pub use files::MemFiles;
pub use sink::MemSink;
pub use wire::MemWire;
