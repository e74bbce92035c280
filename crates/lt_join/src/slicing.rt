//! The answers of a body, key by key of its first variable.
ghost use Rattle.std.specs.Prelude.{◌≡◌, ◌≤◌, ◌<◌, ◌+◌, ◌-◌, ◌^◌, ◌∷◌, ◌++◌, [], ℕ, List, true, false, length, slice_get, drop, Some, IfOk, OnOk, IsTrue};
ghost use Rattle.std.specs.List.{AllByRecursion};
ghost use Rattle.lt_face.specs.Keys.{end_key};
ghost use Rattle.lt_face.specs.Lists.{IsIn};
ghost use Rattle.lt_face.specs.State.{State};
ghost use Rattle.lt_model.specs.declared.normal.Term.{Term as TermView};
ghost use Rattle.lt_model.specs.declared.normal.Body.{Body as BodyView};
ghost use Rattle.lt_model.specs.Answers.{answers as answers_of, ascending as ascending_rows, terms_of};
ghost use Rattle.lt_model.specs.Bound.{are_bound};
ghost use Rattle.lt_model.specs.Cells.{is_cell};
ghost use Rattle.lt_query.specs.Answering.{AreTestsBound};
ghost use Rattle.lt_query.specs.Lists.{IsRising};
ghost use Rattle.lt_query.specs.Plan.{term_at};
ghost use Rattle.lt_query.specs.declared.plans.Plan.{Plan as PlanView};
ghost use Rattle.lt_sense.specs.Kept.{Sense as SenseView};
ghost use Rattle.lt_sense.specs.Sense.{IsTight};
ghost use Rattle.lt_join.specs.Asked.{CanJoin, AreAnswerable};
ghost use Rattle.lt_join.specs.Certify.{Certifies};
ghost use Rattle.lt_join.specs.Cost.{bound, cost_from};
ghost use Rattle.lt_join.specs.Explored.{Fits};
ghost use Rattle.lt_join.specs.Holders.{atoms_at};
ghost use Rattle.lt_join.specs.Level.{AreAtomsAt};
ghost use Rattle.lt_query.specs.declared.plans.Level.{Level as LevelView};
ghost use Rattle.lt_join.specs.Walked.{at};
ghost use Rattle.lt_join.specs.Slices.{AreKeyed, Slice as SliceView, sense_keys, slices_of};
ghost use Rattle.lt_join.specs.Mended.{AreSlicesOn};
ghost use Rattle.lt_join.specs.Parts.{IsAtMost, IsJoinable, AreSlicesWithin};
ghost use Rattle.lt_join.specs.Sliced.{pinned, slice_keys, united, sliced_rows, CertifiesBut, IsSliceOf, AreRooted, AreRootGaps, AreFoundKeys};

use crate::Found;
use crate::atom_iter::AtomIter;
use crate::key_rows::{KeyRows, add_key};
use crate::level::{next_key, open};
use crate::noting::{Noted, hand_over};
use crate::path::Path;
use crate::sliced::{Gathered, Slices};
use crate::values::Values;
use crate::walk::{Walk, explore_key};
use crate::way::Way;
use lt_answers::ascending::ascending;
use lt_face::indexes::Indexes;
use lt_face::items::RowList;
use lt_face::key::{END, Key};
use lt_face::memory::NoMemory;
use lt_face::moves::Moves;
use lt_query::{Body, Plan, TermList};
use lt_sense::{Gathering, GatheringByKey, Sensed};
use std::alloc::Global;

/// Where a sense certifies a body but for some keys of a term of its atoms, it and slices for these keys certify the whole
/// body; they are tight together, and the body's answers are those of the slices.
pub fn slices_make_the_whole()
    ensures certified { (root : SenseView) (slices : List SliceView) (term : TermView) (body : BodyView) (state : State) → CertifiesBut (slice_keys slices) term root body state → AllByRecursion (λ slice. Certifies slice.sense (pinned term slice.key body) state) slices → Certifies (united root slices) body state }
    ensures tight { (root : SenseView) (slices : List SliceView) (state : State) → IsTight root state → AllByRecursion (λ slice. IsTight slice.sense state) slices → IsTight (united root slices) state }
    ensures answers { (root : SenseView) (slices : List SliceView) (terms : List TermView) (term : TermView) (body : BodyView) (state : State) → AreTestsBound body → are_bound body terms ≡ true → IsIn term (terms_of body.atoms) → CertifiesBut (slice_keys slices) term root body state → AllByRecursion (IsSliceOf terms body term state) slices → answers_of terms body state ≡ ascending_rows (sliced_rows slices) }
{}

/// The slice of the key at which the first level stands: its rows, and what they were sensitive to.
pub(crate) fn slice_at<'a, I: Indexes, L>(
    way: &Way<'a, I>,
    iters: &mut [AtomIter<'a, I::Rows>],
    keys: &mut Path,
    key: Key,
    moves: &mut Moves<L>,
) -> Result<(RowList, Gathering), NoMemory>
    requires at_root { keys.old ≡ [] }
    requires all { way.now.first ≡ false }
    requires whole { length way.now.plan.levels ≤ way.now.wanted }
    requires has_levels { 0 < length way.now.plan.levels }
    requires tests { AreTestsBound way.now.body }
    requires heads { IsTrue (are_bound way.now.body way.now.terms) }
    requires iters { AreAtomsAt way.now.plan way.now.state (key ∷ []) iters.old }
    requires cell { is_cell key ≡ true }
    requires fits { (level : LevelView) → slice_get way.now.plan.levels 0 ≡ Some level → Fits level (at []) key }
    // also where memory is refused
    ensures cost { moves.new ≤ moves.old + cost_from (length way.now.body.absents) way.now.state way.now.plan.guides (drop 1 way.now.plan.levels) 1 (at (key ∷ [])) }
    ensures moves { moves.old ≤ moves.new }
    ensures back { IfOk result (λ _. keys.new ≡ []) }
    ensures iters { IfOk result (λ _. iters.new ≡ iters.old) }
    ensures slice { IfOk result (λ found. IsSliceOf way.now.terms way.now.body (term_at way.now.plan.levels 0) way.now.state (record { key = key; rows = found.0; sense = found.1 })) }
    ensures gaps { IfOk result (λ found. length found.1.gaps + moves.old ≤ moves.new) }
    ensures hits { IfOk result (λ found. length found.1.hits + moves.old ≤ moves.new + length (atoms_at way.now.plan.guides 0)) }
{
    let mut walk: Walk<Gathering> = Walk::new(way.alloc);
    explore_key(way, iters, keys, key, &mut walk, moves)?;
    let Found { sense, rows } = walk.found;
    let rows = ascending(rows.into_vec())?;
    Ok((rows, sense.into_senses()))
}

/// Adds the slice of a key above all others.
fn add_slice(
    alloc: Global,
    sense: &mut GatheringByKey,
    rows: &mut Vec<KeyRows>,
    key: Key,
    found: RowList,
    part: Gathering,
) -> Result<(), NoMemory>
    requires keyed { AreKeyed sense.old.slices rows.old.items }
    requires above { AllByRecursion (λ k. k < key) (sense_keys sense.old.slices) }
    ensures keyed { OnOk result (AreKeyed sense.new.slices rows.new.items) }
    ensures slices { OnOk result (slices_of rows.new.items sense.new.slices ≡ slices_of rows.old.items sense.old.slices ++ record { key = key; rows = found; sense = part } ∷ []) }
    ensures root { OnOk result (sense.new.root ≡ sense.old.root) }
{
    sense.add_slice(key, part)?;
    add_key(alloc, rows, key, found)?;
    Ok(())
}

/// Gathers the slices of the keys from `lo` to below `hi`, by a way.
fn gather_keys<'a, I: Indexes, L>(
    way: &Way<'a, I>,
    iters: &mut [AtomIter<'a, I::Rows>],
    lo: Key,
    hi: Key,
    moves: &mut Moves<L>,
) -> Result<Gathered, NoMemory>
    requires iters { AreAtomsAt way.now.plan way.now.state [] iters.old }
    requires all { way.now.first ≡ false }
    requires whole { length way.now.plan.levels ≤ way.now.wanted }
    requires has_levels { 0 < length way.now.plan.levels }
    requires tests { AreTestsBound way.now.body }
    requires heads { IsTrue (are_bound way.now.body way.now.terms) }
    requires bound { lo ≤ 2 ^ 120 }
    ensures slices { IfOk result (λ found. AreSlicesWithin way.now.terms way.now.body way.now.plan way.now.state lo hi found.sense.root (slices_of found.rows.items found.sense.slices)) }
    ensures few { IfOk result (λ found. IsAtMost (united found.sense.root (slices_of found.rows.items found.sense.slices)) (moves.new - moves.old)) }
    ensures keyed { IfOk result (λ found. AreKeyed found.sense.slices found.rows.items) }
    // also where memory is refused
    ensures cost { moves.new ≤ moves.old + bound way.now.body way.now.plan way.now.state }
    ensures moves { moves.old ≤ moves.new }
{
    let mut sense = GatheringByKey::new(way.alloc);
    let mut rows = Vec::new(way.alloc);
    let mut noted: Sensed<Noted> = Sensed::none(way.alloc);
    let mut keys = Path::root();
    let values = Values::none();
    let range = way.range_below(&keys, &values);
    let mut met = open(way, iters, &keys, lo, range, &values, &mut noted, moves)?;
    noted = hand_over(noted, &mut sense)?;
    while met.key < hi {
        let (found, part) = slice_at(way, iters, &mut keys, met.key, moves)?;
        add_slice(way.alloc, &mut sense, &mut rows, met.key, found, part)?;
        met = next_key(way, iters, &keys, met, range, &mut noted, moves)?;
        noted = hand_over(noted, &mut sense)?;
    }
    Ok(Gathered { sense, rows })
}

/// Gathers the slices of the keys from `lo` to below `hi`.
pub(crate) fn gather_range<I: Indexes, L>(
    alloc: Global,
    body: &Body,
    plan: &Plan,
    terms: &TermList,
    indexes: &I,
    lo: Key,
    hi: Key,
    moves: &mut Moves<L>,
) -> Result<Gathered, NoMemory>
    requires ready { IsJoinable (I.state indexes.now) (I.has_index indexes.now) body.now plan.now terms.now }
    requires bound { lo ≤ 2 ^ 120 }
    ensures slices { IfOk result (λ found. AreSlicesWithin terms.now body.now plan.now (I.state indexes.now) lo hi found.sense.root (slices_of found.rows.items found.sense.slices)) }
    ensures few { IfOk result (λ found. IsAtMost (united found.sense.root (slices_of found.rows.items found.sense.slices)) (moves.new - moves.old)) }
    ensures keyed { IfOk result (λ found. AreKeyed found.sense.slices found.rows.items) }
    // also where memory is refused
    ensures cost { moves.new ≤ moves.old + bound body.now plan.now (I.state indexes.now) }
    ensures moves { moves.old ≤ moves.new }
{
    let wanted = plan.levels.len();
    let way = Way::new(alloc, indexes, body, plan, terms.as_slice(), false, wanted)?;
    let mut iters = way.iters()?;
    gather_keys(&way, &mut iters, lo, hi, moves)
}

/// The slices of a range that all keys are in, and its root gaps.
pub(crate) fn whole_of(found: Gathered) -> Result<Slices, NoMemory>
    requires keyed { AreKeyed found.sense.slices found.rows.items }
    requires root_gaps { AreRootGaps found.sense.root }
    ensures slices { IfOk result (λ whole. (terms : List TermView) (body : BodyView) (plan : PlanView) (state : State) → AreSlicesWithin terms body plan state 0 end_key found.sense.root (slices_of found.rows.items found.sense.slices) → AreSlicesOn terms body plan state whole.root whole.slices × AreFoundKeys plan state (slice_keys whole.slices)) }
    ensures few { IfOk result (λ whole. (n : ℕ) → IsAtMost (united found.sense.root (slices_of found.rows.items found.sense.slices)) n → IsAtMost (united whole.root whole.slices) n) }
{
    Slices::of(found)
}

/// The body's answers and what they were sensitive to, key by key of its first variable: the root gaps, which are those of
/// that variable's level, and a slice for each key that was found there. The body has an atom; else it is as in `answers`.
pub fn slices<I: Indexes, L>(
    alloc: Global,
    body: &Body,
    plan: &Plan,
    terms: &TermList,
    indexes: &I,
    moves: &mut Moves<L>,
) -> Result<Slices, NoMemory>
    requires can_join { CanJoin (I.state indexes.now) (I.has_index indexes.now) body.now plan.now }
    requires answerable { AreAnswerable body.now terms.now }
    requires has_levels { 0 < length plan.now.levels }
    ensures ascending { IfOk result (λ found. IsRising (slice_keys found.slices)) }
    ensures slices { IfOk result (λ found. AllByRecursion (IsSliceOf terms.now body.now (term_at plan.now.levels 0) (I.state indexes.now)) found.slices) }
    ensures found { IfOk result (λ found. AreFoundKeys plan.now (I.state indexes.now) (slice_keys found.slices)) }
    ensures rooted { IfOk result (λ found. AreRooted body.now plan.now found.root (slice_keys found.slices)) }
    ensures root_gaps { IfOk result (λ found. AreRootGaps found.root) }
    ensures root_hits { IfOk result (λ found. found.root.hits ≡ []) }
    ensures rows { IfOk result (λ found. ascending_rows (sliced_rows found.slices) ≡ answers_of terms.now body.now (I.state indexes.now)) }
    ensures certified { IfOk result (λ found. Certifies (united found.root found.slices) body.now (I.state indexes.now)) }
    ensures tight { IfOk result (λ found. IsTight (united found.root found.slices) (I.state indexes.now)) }
    ensures gaps { IfOk result (λ found. moves.old + length (united found.root found.slices).gaps ≤ moves.new) }
    ensures hits { IfOk result (λ found. moves.old + length (united found.root found.slices).hits ≤ moves.new) }
    // also where memory is refused
    ensures cost { moves.new ≤ moves.old + bound body.now plan.now (I.state indexes.now) }
    ensures moves { moves.old ≤ moves.new }
{
    let found = gather_range(alloc, body, plan, terms, indexes, 0, END, moves)?;
    let whole = whole_of(found)?;
    Ok(whole)
}
