//! A circuit, or a line, that worker threads settle together: each holds it for one event at a time, and works outside its turns.
//!
//! `machine` says what workers settle together, a trait that a circuit (`circuits`) and a line (`lines`) meet: it has what it is over,
//! entries and a state (`stand`), gives jobs, and does one event a call. `beginning` is what one worker does alone, `handed` a machine as
//! a value that is handed on, `shared` one visit to it (take, one step, give back), `driving` a worker (`drive`) and several (`fan_out`,
//! by halves), `settling` the whole for a circuit: begin, fan out, close, and settle alone what is left. Read `specs/Alone` (what the
//! beginning leaves), `Seen` (what a seat knows of the machine), `Visit` (what one visit does) and `Driven` (what stands when workers have
//! ended). For a line `line_settling` is the whole, `line_beginning` hands on what is final after each job of worker 0 alone, `giving` the
//! effects up to a segment, and `OnFinal` is who takes them (`specs/Given`). `line_driving` is several workers at a line (`fan_line`): the
//! first one hands on what is final between its jobs, by looks at the line in a turn without an event, and the others are as at a circuit.
//! A seat keeps what it has seen to be past, as no later event changes that.
//!
//! Which worker takes what is in no clause. Worker 0 begins alone on the circuit itself, without a turn, in the order of the walk. Each
//! leaf that it ran tells how dear it was (`LeafWork::weight`, for a program how much its senses keep). Where leaves are dear in the mean
//! and enough of them is left (`pace`), the next leaf's job goes back, so that all inner jobs are done, and the others are called, no more
//! than there are leaves. A leaf is *free* where no program before it in the batch writes a relation that it reads: what it does on the
//! snapshot is final. Two leaves that aren't free are looked at first, whether the senses of most of their run cover what their corrections
//! mark (`LeafWork::is_tied`): where both are tied, free leaves alone are worth a call.
//!
//! Then who asks is given what is *due* (`due` in `lt_circuit`): the job at the *front*, the first on the walk that is Pending or held, whose
//! inputs are final; else the lowest free leaf that never ran; else the lowest leaf that never ran among the next ones, twice as many as
//! workers, and before it the inner jobs that bring its correction. A leaf that ran is given again as the front's alone. So none is run more
//! than twice: once ahead, on what stands then, and once on what is final. Where nothing is due for a worker it waits for an entry of
//! another. Leaves that aren't free run ahead at a risk: once two more of them were run again in vain than were kept, counted for all workers
//! together (`Luck`), none is any more. Then the others than worker 0 do what is free, give back the next inner job that they are given, and
//! go. At a gate that waits (`Gate::waits`) all workers are there from the start, and take what is Pending, due or not.
#![tactic(auto)]

mod basis;
mod beginning;
mod circuits;
mod driving;
mod giving;
mod handed;
mod line_beginning;
mod line_driving;
mod line_settling;
mod lines;
mod machine;
mod on_final;
mod pace;
mod settling;
mod shared;

pub use basis::{Basis, LineBasis};
pub use driving::Ended;
pub use handed::Handed;
pub use line_settling::settle_line;
pub use machine::Machine;
pub use on_final::OnFinal;
pub use settling::settle;
pub use shared::Shared;
