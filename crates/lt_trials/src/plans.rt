//! The plan of a body by hand.
ghost use Rattle.std.specs.Prelude.{length, IfOk};
ghost use Rattle.lt_query.specs.Runnable.{IsWidth, HasWidths};

use crate::agree::same;
use lt_face::{Items, Key, NoMemory};
use lt_model::syntax::Op;
use lt_query::{Atom, Body, Guide, Level, Plan, Term, Test, plan};
use std::alloc::Global;
use std::process::Abort;

const X: Term = Term::Var(0);

const Y: Term = Term::Var(1);

fn atom(alloc: Global, relation: u32, terms: &[Term]) -> Result<Atom, NoMemory>
    requires { IsWidth (length terms.now) }
    ensures { IfOk result (λ atom. IsWidth (length atom.terms)) }
{
    let terms = Items::from_vec(Vec::from_slice(alloc, terms)?);
    Ok(Atom { relation, terms })
}

fn equal(left: Term, right: Term) -> Test {
    Test::Cmp {
        left,
        op: Op::Eq,
        right,
    }
}

/// `e(x, y), f(5, y, x, y), y = 3, y = 4`
fn mixed(alloc: Global) -> Result<Body, NoMemory>
    ensures { IfOk result (λ body. HasWidths body) }
{
    let e = atom(alloc, 0, &[X, Y])?;
    let f = atom(alloc, 1, &[Term::Cell(5), Y, X, Y])?;
    let atoms = Items::from_vec(vec![in alloc; e, f]?);
    let tests = [equal(Y, Term::Cell(3)), equal(Y, Term::Cell(4))];
    let tests = Items::from_vec(Vec::from_slice(alloc, &tests)?);
    Ok(Body {
        atoms,
        absents: Items::new(alloc),
        tests,
        vars: 2,
    })
}

/// The plan of a body.
fn planned(body: Body) -> Result<Plan, NoMemory>
    requires { HasWidths body }
{
    plan(&body)
}

/// Compares levels with a table of terms, pins and ties.
fn same_levels(rt: &impl Abort, levels: &[Level], expected: &[(Term, &[Key], &[usize])]) {
    same(rt, levels.len(), expected.len());
    for (level, (term, pins, ties)) in levels.iter().zip(expected) {
        same(rt, level.term, *term);
        same(
            rt,
            (level.pins.as_slice(), level.ties.as_slice()),
            (*pins, *ties),
        );
    }
}

/// Compares guides with a table of relations, places and columns.
fn same_guides(rt: &impl Abort, guides: &[Guide], expected: &[(u32, &[usize], &[u32])]) {
    same(rt, guides.len(), expected.len());
    for (guide, (relation, places, columns)) in guides.iter().zip(expected) {
        same(rt, guide.relation, *relation);
        same(
            rt,
            (guide.places.as_slice(), guide.columns.as_slice()),
            (*places, *columns),
        );
    }
}

#[test]
fn pinned_ones_first_and_tied_ones_behind_their_originals(rt: HostRuntime) -> Result<(), NoMemory> {
    let plan = planned(mixed(rt.alloc())?)?;
    let levels: [(Term, &[Key], &[usize]); 4] = [
        (Y, &[3, 4], &[]),
        (Y, &[], &[0]),
        (Term::Cell(5), &[5], &[]),
        (X, &[], &[]),
    ];
    same_levels(&rt, plan.levels.as_slice(), &levels);
    let guides: [(u32, &[usize], &[u32]); 2] = [
        (0, &[3, 0], &[1, 0]),
        (1, &[2, 0, 3, 1], &[1, 3, 0, 2]),
    ];
    same_guides(&rt, plan.guides.as_slice(), &guides);
    let holders: [&[usize]; 5] = [&[0, 1], &[1], &[1], &[0, 1], &[]];
    for level in 0..holders.len() {
        same(&rt, plan.guides.at_level(level), holders[level]);
    }
    Ok(())
}
