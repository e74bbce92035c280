//! How many levels of a plan decide the cells of some terms.
ghost use Rattle.std.specs.Prelude.{◌≡◌, ◌≤◌, ◌⊎◌, ◌∷◌, [], length};
ghost use Rattle.lt_join.specs.Way.{AreDecidedBy};

use crate::narrowing::is_var;
use lt_model::normal::Term;
use lt_query::Level;

/// How many levels there are up to the first of a term, it with them: none for a constant, all where no level has it.
fn levels_up_to(levels: &[Level], term: Term) -> usize
    ensures within { result ≤ length levels.now }
    ensures decided { (result ≡ length levels.now) ⊎ AreDecidedBy levels.now result (term ∷ []) }
{
    let Term::Var(v) = term else {
        return 0;
    };
    for l in 0..levels.len() {
        if is_var(levels[l].term, v) {
            return l + 1;
        }
    }
    levels.len()
}

/// The least number of levels whose keys decide the cells of the terms: all, where a term has no level.
pub(crate) fn wanted_by(levels: &[Level], terms: &[Term]) -> usize
    ensures within { result ≤ length levels.now }
    ensures decided { (result ≡ length levels.now) ⊎ AreDecidedBy levels.now result terms.now }
{
    let mut wanted = 0;
    for term in terms {
        let count = levels_up_to(levels, *term);
        if wanted < count {
            wanted = count;
        }
    }
    wanted
}
