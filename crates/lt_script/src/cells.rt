//! The cells of numbers and symbols, as they are written.
ghost use Rattle.std.specs.Prelude.{◌≡◌, ◌<◌};
ghost use Rattle.lt_model.specs.Cells.{sym_cell};
ghost use Rattle.lt_model.specs.Grammar.{signed_cell};
ghost use Rattle.lt_grammar.specs.Grammar.{past};

use crate::label::Label;
use lt_face::key::Key;
use lt_values::{cell_of_int, cell_of_sym};

/// The cell of an int, by its sign and the number behind it.
pub fn int_cell(minus: bool, number: u64) -> Key
    requires { number < past minus }
    ensures { result ≡ signed_cell minus number }
{
    let value = i128::from(number);
    let value = if minus { -value } else { value };
    cell_of_int(value as i64)
}

/// The cell of a symbol.
pub fn symbol_cell(label: &Label) -> Key
    ensures { result ≡ sym_cell label.now.bytes.now }
{
    cell_of_sym(label.bytes).unwrap()
}
