//! A body and a plan with one condition more: the first level's term is a key.
ghost use Rattle.std.specs.Prelude.{◌≡◌, ◌∷◌, [], ◌==◌, if◌then◌else◌, IfOk};
ghost use Rattle.lt_join.specs.MendedPlan.{pinned_levels, pinned_plan};
ghost use Rattle.lt_join.specs.Sliced.{pinned};

use lt_face::items::Items;
use lt_face::key::Key;
use lt_face::memory::NoMemory;
use lt_model::syntax::Op;
use lt_query::{Atom, Body, Level, Pins, Plan, Term, Test};
use std::alloc::Global;

/// Equal atoms.
fn copy_atoms(alloc: Global, atoms: &[Atom]) -> Result<Items<Atom>, NoMemory>
    ensures { IfOk result (λ copy. copy ≡ atoms.now) }
{
    let mut copy = Items::new(alloc);
    for atom in atoms {
        let terms = atom.terms.copy()?;
        copy.push(Atom {
            relation: atom.relation,
            terms,
        })?;
    }
    Ok(copy)
}

/// The test, and the tests behind it.
fn with_test(alloc: Global, test: Test, tests: &[Test]) -> Result<Items<Test>, NoMemory>
    ensures { IfOk result (λ all. all ≡ test ∷ tests.now) }
{
    let mut all = Items::new(alloc);
    all.push(test)?;
    for other in tests {
        all.push(*other)?;
    }
    Ok(all)
}

/// The body where the term has to be the key.
pub(crate) fn pin_body(alloc: Global, body: &Body, term: Term, key: Key) -> Result<Body, NoMemory>
    ensures { IfOk result (λ copy. copy ≡ pinned term key body.now) }
{
    let test = Test::Cmp {
        left: term,
        op: Op::Eq,
        right: Term::Cell(key),
    };
    let tests = with_test(alloc, test, body.tests.as_slice())?;
    let atoms = copy_atoms(alloc, body.atoms.as_slice())?;
    let absents = copy_atoms(alloc, body.absents.as_slice())?;
    Ok(Body {
        atoms,
        absents,
        tests,
        vars: body.vars,
    })
}

/// The pins of the level of this number: of the first the key alone.
fn pins_at(alloc: Global, number: usize, level: &Level, key: Key) -> Result<Pins, NoMemory>
    ensures { IfOk result (λ pins. pins ≡ (if number == 0 then key ∷ [] else level.now.pins)) }
{
    if number == 0 {
        let mut pins = Pins::new(alloc);
        pins.push(key)?;
        return Ok(pins);
    }
    let pins = level.pins.copy()?;
    Ok(pins)
}

/// Equal levels, but that the first has the key as its one pin.
fn pin_levels(alloc: Global, levels: &[Level], key: Key) -> Result<Items<Level>, NoMemory>
    ensures { IfOk result (λ copy. copy ≡ pinned_levels key levels.now) }
{
    let mut copy = Items::new(alloc);
    for i in 0..levels.len() {
        let level = &levels[i];
        let pins = pins_at(alloc, i, level, key)?;
        let ties = level.ties.copy()?;
        copy.push(Level {
            term: level.term,
            pins,
            ties,
        })?;
    }
    Ok(copy)
}

/// The plan whose first level has the key as its one pin.
pub(crate) fn pin_plan(alloc: Global, plan: &Plan, key: Key) -> Result<Plan, NoMemory>
    ensures { IfOk result (λ copy. copy ≡ pinned_plan key plan.now) }
{
    let levels = pin_levels(alloc, plan.levels.as_slice(), key)?;
    let guides = plan.guides.share()?;
    Ok(Plan { levels, guides })
}
