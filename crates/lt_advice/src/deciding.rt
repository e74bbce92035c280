//! Which variables of a body are decided, once some are: what stands behind a key by the key, and what a sum or an `=` leaves open
//! by the rest of it.
use lt_check::schema::Schema;
use lt_face::NoMemory;
use lt_model::name::Name;
use lt_model::syntax::{Head, Literal, Op, Term};
use std::alloc::Global;

/// The variables that are decided.
#[derive(Drop)]
pub struct Decided<'a> {
    names: Vec<&'a Name>,
}

impl<'a> Decided<'a> {
    /// Those among these terms.
    pub fn by(alloc: Global, terms: &'a [Term]) -> Result<Decided<'a>, NoMemory> {
        let mut decided = Decided {
            names: Vec::new(alloc),
        };
        for term in terms {
            decided.take(term)?;
        }
        Ok(decided)
    }

    /// Whether this variable is.
    pub fn has_name(&self, name: &Name) -> bool {
        for other in self.names.as_slice() {
            if other.as_bytes() == name.as_bytes() {
                return true;
            }
        }
        false
    }

    fn has(&self, term: &Term) -> bool {
        match term {
            Term::Name(name) => self.has_name(name),
            Term::Cell(..) => true,
        }
    }

    fn take_name(&mut self, name: &'a Name) -> Result<(), NoMemory> {
        if !self.has_name(name) {
            self.names.push(name)?;
        }
        Ok(())
    }

    fn take(&mut self, term: &'a Term) -> Result<(), NoMemory> {
        match term {
            Term::Name(name) => self.take_name(name),
            Term::Cell(..) => Ok(()),
        }
    }

    // A row of a relation with keys is decided by its key.
    fn close_over_row(&mut self, schema: &Schema, head: &'a Head) -> Result<(), NoMemory> {
        let terms = head.terms.as_slice();
        let keys = schema.keys(&head.relation) as usize;
        let (key, values) = terms.split_at(keys.min(terms.len()));
        for term in key {
            if !self.has(term) {
                return Ok(());
            }
        }
        self.take_all(values)
    }

    fn take_all(&mut self, terms: &'a [Term]) -> Result<(), NoMemory> {
        for term in terms {
            self.take(term)?;
        }
        Ok(())
    }

    // Of a sum each of the three is decided by the other two.
    fn close_over_sum(&mut self, var: &'a Name, a: &'a Term, b: &'a Term) -> Result<(), NoMemory> {
        match (self.has_name(var), self.has(a), self.has(b)) {
            (_, true, true) => self.take_name(var),
            (true, true, false) => self.take(b),
            (true, false, true) => self.take(a),
            _ => Ok(()),
        }
    }

    fn close_over(&mut self, schema: &Schema, literal: &'a Literal) -> Result<(), NoMemory> {
        match literal {
            Literal::Atom(head) => self.close_over_row(schema, head),
            Literal::Cmp {
                left,
                op: Op::Eq,
                right,
            } => match (self.has(left), self.has(right)) {
                (true, false) => self.take(right),
                (false, true) => self.take(left),
                _ => Ok(()),
            },
            Literal::Sum { var, a, b, .. } => self.close_over_sum(var, a, b),
            _ => Ok(()),
        }
    }

    fn close_once(&mut self, schema: &Schema, body: &'a [Literal]) -> Result<(), NoMemory> {
        for literal in body {
            self.close_over(schema, literal)?;
        }
        Ok(())
    }

    /// And those that a body decides by them.
    pub fn close(&mut self, schema: &Schema, body: &'a [Literal]) -> Result<(), NoMemory> {
        for _ in 0..body.len() {
            let before = self.names.len();
            self.close_once(schema, body)?;
            if self.names.len() == before {
                break;
            }
        }
        Ok(())
    }
}
