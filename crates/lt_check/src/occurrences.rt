//! The atoms of a statement, in text order.
ghost use Rattle.std.specs.Prelude.{◌≡◌, ◌++◌, IfOk, filter_map};
ghost use Rattle.lt_model.specs.Variables as model;
ghost use Rattle.lt_check.specs.Seen.{seen};

use lt_face::memory::NoMemory;
use lt_model::syntax::{Head, Literal, Statement};

/// The literals of a statement's body.
pub fn body_of(statement: &Statement) -> &[Literal]
    ensures { result.now ≡ model.body_of statement.now }
{
    match statement {
        Statement::Insert { body, .. } => body.as_slice(),
        Statement::Delete { body, .. } => body.as_slice(),
        Statement::Replace { body, .. } => body.as_slice(),
        Statement::Require { body, .. } => body.as_slice(),
        Statement::Print { body, .. } => body.as_slice(),
    }
}

fn push_atoms<'a>(atoms: &mut Vec<&'a Head>, literals: &'a [Literal]) -> Result<(), NoMemory>
    ensures { IfOk result (λ _. seen atoms.new.items ≡ seen atoms.old.items ++ filter_map model.named_of literals.now) }
{
    for literal in literals {
        match literal {
            Literal::Atom(head) => atoms.push(head)?,
            Literal::Absent(head) => atoms.push(head)?,
            Literal::Cmp { .. } => {}
            Literal::Sum { .. } => {}
        }
    }
    Ok(())
}

/// Lists a statement's heads, and the atoms of its body, negated or not.
pub fn list_atoms<'a>(atoms: &mut Vec<&'a Head>, statement: &'a Statement) -> Result<(), NoMemory>
    ensures { IfOk result (λ _. seen atoms.new.items ≡ model.atoms_of statement.now) }
{
    atoms.clear();
    match statement {
        Statement::Insert { head, .. } => atoms.push(head)?,
        Statement::Delete { head, .. } => atoms.push(head)?,
        Statement::Replace { gone, come, .. } => {
            atoms.push(gone)?;
            atoms.push(come)?;
        }
        Statement::Require { .. } => {}
        Statement::Print { .. } => {}
    }
    push_atoms(atoms, body_of(statement))
}
