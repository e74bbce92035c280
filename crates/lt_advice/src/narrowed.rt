//! Which comparisons narrow the search to a range of one variable: those of a variable with what has a value before it.
use lt_face::NoMemory;
use lt_model::syntax::Op;
use lt_query::{Term, Test};
use std::alloc::Global;

/// Which of its variables a test narrows.
#[derive(Clone, Copy)]
pub enum Narrowed {
    No,
    /// That on the left, or the sum.
    Left,
    Right,
}

/// Behind how many levels of a plan each variable has its value. One that stands in no atom has it by a literal with `=`.
#[derive(Drop)]
pub struct Settled<'a> {
    levels: &'a [Term],
    given: Vec<(u32, usize)>,
}

// The greater one, where there are both.
fn later(a: Option<usize>, b: Option<usize>) -> Option<usize> {
    match (a, b) {
        (Some(a), Some(b)) => Some(a.max(b)),
        _ => None,
    }
}

impl<'a> Settled<'a> {
    /// Those of a plan with these terms at its levels.
    pub fn by(alloc: Global, levels: &'a [Term], tests: &[Test]) -> Result<Settled<'a>, NoMemory> {
        let mut settled = Settled {
            levels,
            given: Vec::new(alloc),
        };
        for test in tests {
            settled.give(*test)?;
        }
        Ok(settled)
    }

    // Behind how many levels the variable of one has its value.
    fn own(&self, v: u32) -> Option<usize> {
        let place = self.levels.iter().position(|term| *term == Term::Var(v));
        match place {
            Some(place) => Some(place.saturating_add(1)),
            None => None,
        }
    }

    // Behind how many levels a term has its value.
    fn of(&self, term: Term) -> Option<usize> {
        let v = match term {
            Term::Cell(_) => return Some(0),
            Term::Var(v) => v,
        };
        if let Some(count) = self.own(v) {
            return Some(count);
        }
        for (given, count) in &self.given {
            if *given == v {
                return Some(*count);
            }
        }
        None
    }

    // The variable on the left of a literal with `=` has its value once the right side has.
    fn give(&mut self, test: Test) -> Result<(), NoMemory> {
        let (v, count) = match test {
            Test::Cmp {
                left: Term::Var(v),
                op: Op::Eq,
                right,
            } => (v, self.of(right)),
            Test::Sum { var, a, b, .. } => (var, later(self.of(a), self.of(b))),
            Test::Cmp { .. } => return Ok(()),
        };
        if let Some(count) = count {
            self.given.push((v, count))?;
        }
        Ok(())
    }

    // Whether a term is the variable of a level that is behind the values of so many.
    fn is_behind(&self, term: Term, count: Option<usize>) -> bool {
        let Term::Var(v) = term else {
            return false;
        };
        match (self.own(v), count) {
            (Some(own), Some(count)) => count < own,
            _ => false,
        }
    }

    /// Which variable a test narrows. One that is compared with a constant by `=` on its right is fixed.
    pub fn narrowed(&self, test: Test) -> Narrowed {
        match test {
            Test::Cmp {
                left: Term::Var(_),
                op: Op::Eq,
                right: Term::Cell(_),
            } => Narrowed::No,
            Test::Cmp { op: Op::Ne, .. } => Narrowed::No,
            Test::Cmp { left, right, .. } => {
                if self.is_behind(left, self.of(right)) {
                    return Narrowed::Left;
                }
                if self.is_behind(right, self.of(left)) {
                    return Narrowed::Right;
                }
                Narrowed::No
            }
            Test::Sum { var, a, b, .. } => {
                let count = later(self.of(a), self.of(b));
                if self.is_behind(Term::Var(var), count) {
                    return Narrowed::Left;
                }
                Narrowed::No
            }
        }
    }
}
