//! The columns of a statement's atoms. Each relation is looked up once.
ghost use Rattle.std.specs.Prelude.{◌≡◌, ◌==◌, not, length, true, IfOk};
ghost use Rattle.std.specs.List.{list_any};
ghost use Rattle.lt_model.specs.Check.{is_unknown, is_misfit};
ghost use Rattle.lt_check.specs.Seen.{seen, HasColumns};

use crate::schema::Schema;
use lt_face::memory::NoMemory;
use lt_model::kind::Kind;
use lt_model::syntax::Head;

/// Lists the kinds of the columns of each atom's relation, and says whether each relation is there.
pub fn list_columns<'a>(
    columns: &mut Vec<&'a [Kind]>,
    schema: &'a Schema,
    atoms: &[&Head],
) -> Result<bool, NoMemory>
    ensures unknown { IfOk result (λ known. not known ≡ list_any (is_unknown schema.now) (seen atoms.now)) }
    ensures columns { IfOk result (λ known. known ≡ true → HasColumns schema.now (seen atoms.now) (seen columns.new.items)) }
{
    columns.clear();
    for atom in atoms {
        let Some(kinds) = schema.known_columns(&atom.relation) else {
            return Ok(false);
        };
        columns.push(kinds)?;
    }
    Ok(true)
}

// Whether the atom has another number of arguments than these columns.
fn is_other_length(atom: &Head, columns: &[Kind]) -> bool
    ensures { result ≡ not (length atom.now.terms == length columns.now) }
{
    atom.terms.len() != columns.len()
}

/// Whether an atom has another number of arguments than its relation has columns.
pub fn has_misfit(schema: &Schema, atoms: &[&Head], columns: &[&[Kind]]) -> bool
    requires { HasColumns schema.now (seen atoms.now) (seen columns.now) }
    ensures { result ≡ list_any (is_misfit schema.now) (seen atoms.now) }
{
    for i in 0..atoms.len() {
        if is_other_length(atoms[i], columns[i]) {
            return true;
        }
    }
    false
}
