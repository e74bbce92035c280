//! What a file beside its report can't say of scripts: reads and writes that fail in mid-stream, sinks without room, workers that meet at
//! a gate, scripts piece by piece; and each public call below the top once. The scripts with their reports are in `scripts`, at the top.
//!
//! `words` is the command line; `items`, `feeds` and `checks` go from bytes to items and codes; `running` has the one call of
//! `repair_main`, and `failing`, `rooms` and `meeting` make it; `benches` is the script and the summary of a bench.
#![tactic(auto)]

#[cfg(test)]
mod agree;
#[cfg(test)]
mod benches;
#[cfg(test)]
mod checks;
#[cfg(test)]
mod failing;
#[cfg(test)]
mod feeds;
#[cfg(test)]
mod items;
#[cfg(test)]
mod meeting;
#[cfg(test)]
mod rooms;
#[cfg(test)]
mod running;
#[cfg(test)]
mod words;
