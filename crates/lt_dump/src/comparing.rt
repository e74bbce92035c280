//! Whether what two worlds have is the same: their declarations, and their rows.
ghost use Rattle.std.specs.Prelude.{◌≡◌, true};
ghost use Rattle.lt_base.specs.Tables.{state_of};

use lt_base::{Database, Rows};
use lt_face::row::Row;
use lt_face::row_set::RowReads;
use lt_face::walk::RowWalk;
use lt_model::kind::{Kind, KindList};
use lt_model::name::Name;
use std::alloc::Global;

fn is_same_name(one: &Name, other: &Name) -> bool
    ensures { result ≡ true → one.now ≡ other.now }
{
    one.as_bytes() == other.as_bytes()
}

fn is_same_kind(one: &Kind, other: &Kind) -> bool
    ensures { result ≡ true → one.now ≡ other.now }
{
    match *one {
        Kind::Int => match *other {
            Kind::Int => true,
            Kind::Sym => false,
        },
        Kind::Sym => match *other {
            Kind::Int => false,
            Kind::Sym => true,
        },
    }
}

fn are_same_in_order(one: &[Kind], other: &[Kind]) -> bool
    ensures { result ≡ true → one.now ≡ other.now }
{
    if one.len() != other.len() {
        return false;
    }
    'kinds: for number in 0..one.len() {
        if !is_same_kind(&one[number], &other[number]) {
            return false;
        }
    }
    true
}

fn are_same_kinds(one: &KindList, other: &KindList) -> bool
    ensures { result ≡ true → one.now ≡ other.now }
{
    are_same_in_order(one.as_slice(), other.as_slice())
}

fn is_same_number(one: u32, other: u32) -> bool
    ensures { result ≡ true → one ≡ other }
{
    one == other
}

// Whether two relations are declared in the same way.
fn is_same_heading(one: &(Name, KindList, u32), other: &(Name, KindList, u32)) -> bool
    ensures { result ≡ true → one.now ≡ other.now }
{
    if !is_same_name(&one.0, &other.0) {
        return false;
    }
    if !are_same_kinds(&one.1, &other.1) {
        return false;
    }
    if !is_same_number(one.2, other.2) {
        return false;
    }
    true
}

/// Whether the same relations are declared, in the same order.
pub fn are_same_headings(one: &[(Name, KindList, u32)], other: &[(Name, KindList, u32)]) -> bool
    ensures { result ≡ true → one.now ≡ other.now }
{
    if one.len() != other.len() {
        return false;
    }
    'headings: for number in 0..one.len() {
        if !is_same_heading(&one[number], &other[number]) {
            return false;
        }
    }
    true
}

// Whether two rows have the same cells.
fn is_same_row(one: &Row, other: &Row) -> bool
    ensures { result ≡ true → one.now ≡ other.now }
{
    one.cells() == other.cells()
}

// Whether two relations have the same rows, which are as wide.
fn is_same_relation(alloc: Global, one: &Rows, other: &Rows) -> bool
    ensures { result ≡ true → one.now ≡ other.now }
{
    if one.width() != other.width() {
        return false;
    }
    let mut left = RowWalk::over(alloc, one);
    let mut right = RowWalk::over(alloc, other);
    'rows: for _ in 0..one.len() {
        let Some(row) = left.next_row() else {
            return false;
        };
        let Some(found) = right.next_row() else {
            return false;
        };
        if !is_same_row(row, found) {
            return false;
        }
    }
    left.next_row().is_none() && right.next_row().is_none()
}

/// Whether two databases have the same relations, with the same rows.
pub fn is_same_state(alloc: Global, one: &Database, other: &Database) -> bool
    ensures { result ≡ true → state_of one.now ≡ state_of other.now }
{
    let Ok(count) = u32::try_from(one.count()) else {
        return false;
    };
    if one.count() != other.count() {
        return false;
    }
    'relations: for number in 0..count {
        let Some(rows) = one.rows(number) else {
            return false;
        };
        let Some(found) = other.rows(number) else {
            return false;
        };
        if !is_same_relation(alloc, rows, found) {
            return false;
        }
    }
    true
}
