//! What layers above rest on: cells compare as the values that they stand for.
ghost use Rattle.lt_values.specs.Laws.{IntsAscend, SymbolsAscend, SymbolsReturn};

/// The cells of ints are in the order of the ints.
pub fn ints_ascend()
    ensures { IntsAscend }
{}

/// The cells of symbols are in the order of their bytes, a prefix first.
pub fn symbols_ascend()
    ensures { SymbolsAscend }
{}

/// The text of a symbol's cell is the symbol.
pub fn symbols_return()
    ensures { SymbolsReturn }
{}
