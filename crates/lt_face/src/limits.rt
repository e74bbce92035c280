//! How much there may be. The specs have the same numbers, in `Limits`.

/// Columns of a relation, arguments of an atom, printed terms.
pub const MOST_COLUMNS: usize = 8;

/// Different variables of a statement.
pub const MOST_VARIABLES: usize = 16;

/// Literals of a body.
pub const MOST_LITERALS: usize = 16;

/// Relations of a schema.
pub const MOST_RELATIONS: usize = 64;

/// Statements of a program.
pub const MOST_STATEMENTS: usize = 64;

/// Programs of a batch, and so leaves of a circuit.
pub const MOST_PROGRAMS: usize = 256;

/// Workers of a run.
pub const MOST_WORKERS: usize = 16;
