//! What no picture is drawn of.
use std::fmt;

/// What is wrong with a line of a trace.
#[derive(Clone, Copy)]
pub enum Flaw {
    /// A trace has to begin here, and this isn't the first line of one.
    NoHeader,
    /// It isn't the trace of the batch behind the one before.
    OtherBatch,
    /// No batch has so many programs.
    ManyPrograms,
    /// The line is no entry.
    NoEntry,
    /// No worker has this number.
    NoWorker,
    /// No job of the batch has this code.
    NoJob,
    /// The worker claims a job while it has one.
    Busy,
    /// Another worker has the job.
    Taken,
    /// The worker ends a claim that it hasn't.
    NoClaim,
    /// The trace ends here, and a claim still stands.
    Unended,
}

impl Flaw {
    /// What is said of it.
    fn text(self) -> &'static str {
        match self {
            Flaw::NoHeader => "this is no line `trace K n e`",
            Flaw::OtherBatch => "this isn't the batch behind the one before",
            Flaw::ManyPrograms => "a batch has no more than 256 programs",
            Flaw::NoEntry => "this is no entry `w c`",
            Flaw::NoWorker => "a worker's number is below 16",
            Flaw::NoJob => "the batch has no such job",
            Flaw::Busy => "the worker has a claim already",
            Flaw::Taken => "another worker has this job",
            Flaw::NoClaim => "the worker has no claim of this job",
            Flaw::Unended => "the trace ends, and a claim still stands",
        }
    }
}

/// Why an input is refused.
#[derive(Clone, Copy)]
pub enum Refusal {
    /// A line, by its number from 1, has a flaw.
    Line(u64, Flaw),
    /// The last line has no line feed.
    CutLine,
    /// The last trace lacks entries.
    CutTrace,
    /// There is no trace.
    NoTrace,
    /// It isn't text.
    NoText,
}

impl fmt::Display for Refusal {
    fn fmt<W: fmt::Write>(&self, f: &mut fmt::Formatter<W>) -> fmt::Result {
        match *self {
            Refusal::Line(number, flaw) => {
                let text = flaw.text();
                write!(f, "line {number}: {text}")
            }
            Refusal::CutLine => write!(f, "the last line has no line feed"),
            Refusal::CutTrace => write!(f, "the last trace has fewer entries than it says"),
            Refusal::NoTrace => write!(f, "there is no trace in the input"),
            Refusal::NoText => write!(f, "the input isn't text"),
        }
    }
}
