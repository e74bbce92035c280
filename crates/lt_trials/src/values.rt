//! The cells of ints and symbols; and the laws that are functions.
use crate::agree::same;
use lt_model::theorems;
use lt_values::{
    Key, cell_of_int, cell_of_sym, int_of, ints_ascend, symbols_ascend, symbols_return,
};

#[test]
fn gives_ints_their_cells(rt: HostRuntime) {
    for (n, cell) in [
        (i64::MIN, 1),
        (0, 9_223_372_036_854_775_809),
        (i64::MAX, 18_446_744_073_709_551_616),
    ] {
        same(&rt, (n, cell_of_int(n)), (n, cell));
        same(&rt, (cell, int_of(cell)), (cell, n));
    }
}

#[test]
fn gives_symbols_their_cells(rt: HostRuntime) {
    let symbols: [(&[u8], Option<Key>); 7] = [
        (b"a", Some(503_652_795_277_878_279_967_458_143_934_349_312)),
        (
            b"abcdefghijklmno",
            Some(505_648_346_078_211_134_673_565_112_542_785_135),
        ),
        (b"", None),
        (b"abcdefghijklmnop", None),
        (b"a b", None),
        (b"Ab", None),
        (b"a{", None),
    ];
    for (text, cell) in symbols {
        same(&rt, (text, cell_of_sym(text)), (text, cell));
    }
}

#[test]
fn states_the_theorems() {
    ints_ascend();
    symbols_ascend();
    symbols_return();
    theorems::readings();
    theorems::faults();
    theorems::kinds();
    theorems::serial();
}
