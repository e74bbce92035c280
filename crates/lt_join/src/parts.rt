//! A body joined by ranges of the keys of its first level, by halves and in threads.
ghost use Rattle.std.specs.Prelude.{◌≡◌, ◌≤◌, ◌<◌, ◌-◌, ◌+◌, ◌*◌, ◌^◌, ℕ, List, length, IfOk};
ghost use Rattle.std.specs.Thread.{IsSync};
ghost use Rattle.lt_face.specs.Keys.{end_key};
ghost use Rattle.lt_face.specs.State.{State};
ghost use Rattle.lt_model.specs.declared.normal.Term.{Term as TermView};
ghost use Rattle.lt_model.specs.declared.normal.Body.{Body as BodyView};
ghost use Rattle.lt_query.specs.declared.plans.Plan.{Plan as PlanView};
ghost use Rattle.lt_join.specs.Cost.{bound};
ghost use Rattle.lt_join.specs.Parts.{AreBounds, IsJoinable, bound_at, most_parts};

use crate::bounds::bounds_of;
use lt_edges::Gate;
use lt_face::indexes::Indexes;
use lt_face::key::Key;
use lt_face::memory::NoMemory;
use lt_face::moves::Moves;
use lt_query::{Body, Plan, TermList};
use std::alloc::Global;
use std::sync::Wait;
use std::thread::{Threads, join};

/// A way to find something of a range of keys by a join.
pub(crate) trait Ranged<F: Drop> {
    /// What was found is that of the range from one key to below another.
    ghost is_found: { Self → List TermView → BodyView → PlanView → State → ℕ → ℕ → F → Type 0 };

    /// What was found is no more than so many moves pay.
    ghost is_paid: { F → ℕ → Type 0 };

    /// Joins for the keys from `lo` to below `hi`.
    fn find<I: Indexes, L>(
        &self,
        alloc: Global,
        body: &Body,
        plan: &Plan,
        terms: &TermList,
        indexes: &I,
        lo: Key,
        hi: Key,
        moves: &mut Moves<L>,
    ) -> Result<F, NoMemory>
        requires ready { IsJoinable (I.state indexes.now) (I.has_index indexes.now) body.now plan.now terms.now }
        requires bound { lo ≤ 2 ^ 120 }
        ensures found { IfOk result (is_found self.now terms.now body.now plan.now (I.state indexes.now) lo hi) }
        ensures paid { IfOk result (λ part. is_paid part (moves.new - moves.old)) }
        // also where memory is refused
        ensures cost { moves.new ≤ moves.old + bound body.now plan.now (I.state indexes.now) }
        ensures moves { moves.old ≤ moves.new };

    /// What was found of a range and of the next as that of both.
    fn unite(&self, one: F, next: F) -> Result<F, NoMemory>
        ensures found { IfOk result (λ both. (terms : List TermView) (body : BodyView) (plan : PlanView) (state : State) (lo mid hi : ℕ) → lo ≤ mid → mid ≤ hi → is_found self.now terms body plan state lo mid one → is_found self.now terms body plan state mid hi next → is_found self.now terms body plan state lo hi both) }
        ensures paid { IfOk result (λ both. (m n : ℕ) → is_paid one m → is_paid next n → is_paid both (m + n)) };
}

/// What was found of a range, and the moves that this took.
#[derive(Drop)]
pub(crate) struct Part<F, L> {
    pub(crate) found: Result<F, NoMemory>,
    pub(crate) moves: Moves<L>,
}

/// Joins for one range, whose number it passes the gate with.
fn find_part<R: Wait, I: Indexes, W: Ranged<F>, F: Drop, G: Gate, L>(
    rt: &R,
    way: &W,
    alloc: Global,
    body: &Body,
    plan: &Plan,
    terms: &TermList,
    indexes: &I,
    bounds: &[Key],
    number: usize,
    gate: &G,
) -> Part<F, L>
    requires ready { IsJoinable (I.state indexes.now) (I.has_index indexes.now) body.now plan.now terms.now }
    requires bounds { AreBounds bounds.now }
    requires within { number + 1 < length bounds.now }
    requires few { length bounds.now ≤ most_parts + 1 }
    ensures found { IfOk result.found (W.is_found way.now terms.now body.now plan.now (I.state indexes.now) (bound_at bounds.now number) (bound_at bounds.now (number + 1))) }
    ensures paid { IfOk result.found (λ found. W.is_paid found result.moves) }
    ensures cost { result.moves ≤ bound body.now plan.now (I.state indexes.now) }
{
    gate.pass(rt, number as u32, number as u32);
    let mut moves: Moves<L> = Moves::new();
    let found = way.find(
        alloc,
        body,
        plan,
        terms,
        indexes,
        bounds[number],
        bounds[number + 1],
        &mut moves,
    );
    Part { found, moves }
}

/// What was found of two ranges as that of both, where both were.
fn both<W: Ranged<F>, F: Drop>(
    way: &W,
    one: Result<F, NoMemory>,
    next: Result<F, NoMemory>,
) -> Result<F, NoMemory>
    ensures found { (terms : List TermView) (body : BodyView) (plan : PlanView) (state : State) (lo mid hi : ℕ) → lo ≤ mid → mid ≤ hi → IfOk one (W.is_found way.now terms body plan state lo mid) → IfOk next (W.is_found way.now terms body plan state mid hi) → IfOk result (W.is_found way.now terms body plan state lo hi) }
    ensures paid { (m n : ℕ) → IfOk one (λ found. W.is_paid found m) → IfOk next (λ found. W.is_paid found n) → IfOk result (λ found. W.is_paid found (m + n)) }
{
    let one = one?;
    let next = next?;
    way.unite(one, next)
}

/// What two parts found, and their moves, together.
fn united<W: Ranged<F>, F: Drop, L>(way: &W, one: Part<F, L>, next: Part<F, L>) -> Part<F, L>
    ensures found { (terms : List TermView) (body : BodyView) (plan : PlanView) (state : State) (lo mid hi : ℕ) → lo ≤ mid → mid ≤ hi → IfOk one.found (W.is_found way.now terms body plan state lo mid) → IfOk next.found (W.is_found way.now terms body plan state mid hi) → IfOk result.found (W.is_found way.now terms body plan state lo hi) }
    ensures paid { IfOk one.found (λ found. W.is_paid found one.moves) → IfOk next.found (λ found. W.is_paid found next.moves) → IfOk result.found (λ found. W.is_paid found result.moves) }
    ensures moves { result.moves ≡ one.moves + next.moves }
{
    let Part { found, mut moves } = one;
    moves.add(next.moves);
    Part {
        found: both(way, found, next.found),
        moves,
    }
}

/// Joins for the ranges from one number to below another, by halves, each in a thread of its own where there can be one.
#[cycle(halves)]
pub(crate) fn find_parts<
    R: Threads + Wait + Sync,
    L: Send,
    I: Indexes + Sync,
    W: Ranged<F> + Sync,
    F: Send + Drop,
    G: Gate,
>(
    rt: &R,
    way: &W,
    alloc: Global,
    body: &Body,
    plan: &Plan,
    terms: &TermList,
    indexes: &I,
    bounds: &[Key],
    first: usize,
    end: usize,
    gate: &G,
) -> Part<F, L>
where
    I::Rows: Sync,
    requires ready { IsJoinable (I.state indexes.now) (I.has_index indexes.now) body.now plan.now terms.now }
    requires bounds { AreBounds bounds.now }
    requires few { length bounds.now ≤ most_parts + 1 }
    requires some { first < end }
    requires within { end < length bounds.now }
    ensures found { IfOk result.found (W.is_found way.now terms.now body.now plan.now (I.state indexes.now) (bound_at bounds.now first) (bound_at bounds.now end)) }
    ensures paid { IfOk result.found (λ found. W.is_paid found result.moves) }
    ensures cost { result.moves ≤ (end - first) * bound body.now plan.now (I.state indexes.now) }
{
    if end - first < 2 {
        return find_part::<R, I, W, F, G, L>(
            rt, way, alloc, body, plan, terms, indexes, bounds, first, gate,
        );
    }
    let middle = first + (end - first) / 2;
    let (one, next) = join(
        rt,
        || -> Part<F, L>
            requires { IsSync R.row × IsSync I.row × IsSync W.row × IsJoinable (I.state indexes.now) (I.has_index indexes.now) body.now plan.now terms.now × AreBounds bounds.now × (length bounds.now ≤ most_parts + 1) × (first < middle) × (middle < length bounds.now) }
            ensures { IfOk result.found (W.is_found way.entry.now terms.entry.now body.entry.now plan.entry.now (I.state indexes.entry.now) (bound_at bounds.entry.now first) (bound_at bounds.entry.now middle)) × IfOk result.found (λ found. W.is_paid found result.moves) × (result.moves ≤ (middle - first) * bound body.entry.now plan.entry.now (I.state indexes.entry.now)) }
        {
            find_parts::<R, L, I, W, F, G>(
                rt, way, alloc, body, plan, terms, indexes, bounds, first, middle, gate,
            )
        },
        || -> Part<F, L>
            requires { IsSync R.row × IsSync I.row × IsSync W.row × IsJoinable (I.state indexes.now) (I.has_index indexes.now) body.now plan.now terms.now × AreBounds bounds.now × (length bounds.now ≤ most_parts + 1) × (middle < end) × (end < length bounds.now) }
            ensures { IfOk result.found (W.is_found way.entry.now terms.entry.now body.entry.now plan.entry.now (I.state indexes.entry.now) (bound_at bounds.entry.now middle) (bound_at bounds.entry.now end)) × IfOk result.found (λ found. W.is_paid found result.moves) × (result.moves ≤ (end - middle) * bound body.entry.now plan.entry.now (I.state indexes.entry.now)) }
        {
            find_parts::<R, L, I, W, F, G>(
                rt, way, alloc, body, plan, terms, indexes, bounds, middle, end, gate,
            )
        },
    );
    united(way, one, next)
}

/// Joins for all keys of the first level, by at most so many ranges of them.
pub(crate) fn find_whole<
    R: Threads + Wait + Sync,
    L: Send,
    I: Indexes + Sync,
    W: Ranged<F> + Sync,
    F: Send + Drop,
    G: Gate,
>(
    rt: &R,
    way: &W,
    alloc: Global,
    body: &Body,
    plan: &Plan,
    terms: &TermList,
    indexes: &I,
    parts: u32,
    gate: &G,
    moves: &mut Moves<L>,
) -> Result<F, NoMemory>
where
    I::Rows: Sync,
    requires ready { IsJoinable (I.state indexes.now) (I.has_index indexes.now) body.now plan.now terms.now }
    requires some { 0 < parts }
    requires few { parts ≤ most_parts }
    ensures found { IfOk result (W.is_found way.now terms.now body.now plan.now (I.state indexes.now) 0 end_key) }
    ensures paid { IfOk result (λ found. W.is_paid found (moves.new - moves.old)) }
    // also where memory is refused
    ensures cost { moves.new ≤ moves.old + parts * bound body.now plan.now (I.state indexes.now) }
    ensures moves { moves.old ≤ moves.new }
{
    let bounds = bounds_of(alloc, plan, indexes, parts)?;
    let last = bounds.len() - 1;
    let part = find_parts::<R, L, I, W, F, G>(
        rt, way, alloc, body, plan, terms, indexes, &bounds, 0, last, gate,
    );
    moves.add(part.moves);
    part.found
}
