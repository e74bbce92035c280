//! Joins, programs, circuits and batches, run as the database runs them, by hand, and by plain loops.
//!
//! `texts` has programs as text and their databases, `sampled` draws them, `serial` runs them by plain loops, `comparing` and `agree`
//! compare. `floor` has two workers at a circuit, `sample` leaves for it. `batches` are the large tests, `backwards` those in which each
//! program runs before those that it reads from. `hanging` puts rows in and takes them out that an evaluation doesn't hang on, `meeting`
//! shows workers that work at the same time, `boards` readers.
#![tactic(auto)]

#[cfg(test)]
mod agree;
#[cfg(test)]
mod agreeing;
#[cfg(test)]
mod backwards;
#[cfg(test)]
mod batches;
#[cfg(test)]
mod boards;
#[cfg(test)]
mod by_key;
#[cfg(test)]
mod circuits;
#[cfg(test)]
mod comparing;
#[cfg(test)]
mod finals;
#[cfg(test)]
mod floor;
#[cfg(test)]
mod free;
#[cfg(test)]
mod hanging;
#[cfg(test)]
mod joins;
#[cfg(test)]
mod meeting;
#[cfg(test)]
mod parts;
#[cfg(test)]
mod refusing;
#[cfg(test)]
mod restatement;
#[cfg(test)]
mod restating;
#[cfg(test)]
mod sample;
#[cfg(test)]
mod sampled;
#[cfg(test)]
mod schedules;
#[cfg(test)]
mod serial;
#[cfg(test)]
mod splitting;
#[cfg(test)]
mod texts;
