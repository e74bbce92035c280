//! Where bytes come from and go to, and where a worker may be held up.
//!
//! `source` and `sink` are the traits, with what a call that fails leaves. `standard` puts them over the readers and writers of std,
//! `mem_source` and `mem_sink` are in memory and fail as they are told, `sure` never fails. `gate` is what a worker passes before each
//! job; `meet_gate` and `order_gate` are for tests. Read `specs/Memory`.
#![tactic(auto)]

mod gate;
mod meet_gate;
mod mem_sink;
mod mem_source;
mod order_gate;
mod sink;
mod source;
mod standard;
mod sure;

pub use gate::{Gate, OpenGate};
pub use meet_gate::MeetGate;
pub use mem_sink::MemSink;
pub use mem_source::MemSource;
pub use order_gate::OrderGate;
pub use sink::Sink;
pub use source::{Failed, Source};
pub use standard::{StdSink, StdSource};
pub use sure::{SureSink, SureSource};
