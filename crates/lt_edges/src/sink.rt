//! Sinks of bytes.
ghost use Rattle.std.specs.Prelude.{ℕ, ◌<◌, ◌^◌, List};
ghost use Rattle.std.specs.declared.option.Option.{Option};
ghost use Rattle.std.specs.Io.KnownBytes.{Keeps, WriteAppends};
ghost use Rattle.lt_edges.specs.Causes.{HasCause, Takes};

use crate::source::Failed;

/// Where bytes go to.
pub trait Sink {
    /// The bytes taken so far, where they are known.
    ghost holds: { Self → Option (List ℕ) };

    /// How often it has failed, up to 2^64 - 1.
    ghost faults: { Self → ℕ };

    /// Takes bytes from the front of the piece and gives their number: at least one of a piece that isn't empty. Where
    /// it fails it takes none.
    fn write(&mut self, piece: &[u8]) -> Result<usize, Failed>
        ensures takes { Takes result piece.now }
        ensures bytes { WriteAppends (holds self.old) (holds self.new) result piece.now }
        ensures cause { HasCause (faults self.old) (faults self.new) result }
        ensures few { faults self.new < 2 ^ 64 };

    /// Passes on what it has taken.
    fn flush(&mut self) -> Result<(), Failed>
        ensures bytes { Keeps (holds self.old) (holds self.new) }
        ensures cause { HasCause (faults self.old) (faults self.new) result }
        ensures few { faults self.new < 2 ^ 64 };
}
