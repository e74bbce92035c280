//! Laws of runs.
ghost use Rattle.lt_program.specs.Keyed.{RunsStayKeyed, SerialStaysKeyed};

/// Where each relation of a state has one row for a key at most, so it has after a program that inserts by the relations' keys, and after such programs one after another.
pub fn runs_keep_keys()
    ensures one { RunsStayKeyed }
    ensures all { SerialStaysKeyed }
{}
