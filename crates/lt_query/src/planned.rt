//! Programs with the plans of their statements' bodies. In a list of programs what a shape decides of its plan is found once.
ghost use Rattle.std.specs.Prelude.{◌≡◌, ◌↔◌, ◌<◌, [], map, set, length, slice_get, Some, IfOk, OnOk, IfSome, IsTrue, IsFalse};
ghost use Rattle.lt_model.specs.Forms.{filled_stmt};
ghost use Rattle.lt_model.specs.declared.normal.Stmt.{Stmt as StmtType};
ghost use Rattle.std.specs.Arc.{arc_value};
ghost use Rattle.std.specs.List.{AllByRecursion};
ghost use Rattle.lt_face.specs.Lists.{IsIn};
ghost use Rattle.lt_query.specs.declared.plans.IndexName.{IndexName as IndexNameType};
ghost use Rattle.lt_query.specs.Lists.{IsDistinct};
ghost use Rattle.lt_query.specs.Needs.{body_of as body_in, IsNeeded, HaveNames, HaveFirsts, with_names, firsts_of};
ghost use Rattle.lt_query.specs.Planned.{route_of, routes_of, plans_of, HaveWidths};
ghost use Rattle.lt_query.specs.Runnable.{HasWidths};
ghost use Rattle.lt_query.specs.Stated.{stated_plan};

use crate::filling::{refill, taken};
use crate::indexes::{add_firsts, add_names, body_of};
use crate::plan_filling::refill_plan_at;
use crate::planning::{plan_by, route};
use crate::shape::same_shape;
use crate::{Body, Perms, Plan, Prog, Route, Stmt};
use lt_face::items::Items;
use lt_face::key::Key;
use lt_face::memory::NoMemory;
use std::alloc::Global;
use std::marker::Model;
use std::sync::Arc;

/// How many shapes are looked through at most.
const MOST_SHAPES: usize = 16;

/// A program with the route and the plan of each of its statements.
#[derive(Drop)]
pub struct Planned {
    prog: Arc<Prog>,
    routes: Items<Arc<Route>>,
    plans: Items<Plan>,
}

impl Model for Planned {
    ghost use Rattle.std.specs.Prelude.{◌≡◌, List, map};
    ghost use Rattle.std.specs.Arc.{arc_value};
    ghost use Rattle.lt_model.specs.declared.normal.Stmt.{Stmt};
    ghost use Rattle.lt_query.specs.Planned.{routes_of, plans_of, HaveWidths};

    ghost Value = { List Stmt };

    ghost view = { λ p. arc_value p.prog };

    ghost invariant = { λ p. (map arc_value p.routes ≡ routes_of (arc_value p.prog)) × (p.plans ≡ plans_of (arc_value p.prog)) × HaveWidths (arc_value p.prog) };
}

impl Planned {
    /// The program with the plans of its statements. Each atom has 1 to 8 terms.
    pub fn new(alloc: Global, prog: &Arc<Prog>) -> Result<Planned, NoMemory>
        requires widths { HaveWidths (arc_value prog.now) }
        ensures { IfOk result (λ planned. planned ≡ arc_value prog.now) }
    {
        let shapes = Shapes::none(alloc);
        let made = shapes.with_routes(alloc, prog)?;
        let (planned, _) = made;
        Ok(planned)
    }

    /// The program of these statements, with the plans of their bodies by their routes. Each atom has 1 to 8 terms.
    pub fn of(alloc: Global, prog: Prog, routes: Items<Arc<Route>>) -> Result<Planned, NoMemory>
        requires routes { map arc_value routes ≡ routes_of prog }
        requires widths { HaveWidths prog }
        ensures { IfOk result (λ planned. planned ≡ prog) }
    {
        let plans = plans_by(alloc, prog.as_slice(), routes.as_slice())?;
        let prog = Arc::new(alloc, prog)?;
        Ok(Planned {
            prog,
            routes,
            plans,
        })
    }

    /// Makes the statement at a place that of a form of its route, with these constants, and its plan that of the form with them.
    /// It takes no memory. False where it isn't possible; then no statement is left, or the program is as it was, where it has
    /// other owners.
    pub fn refill_at(&mut self, place: usize, of_form: &Stmt, of_plan: &Plan, cells: &[Key]) -> bool
        requires route { (stmt : StmtType) → slice_get self.old place ≡ Some stmt → route_of (body_in of_form.now) ≡ route_of (body_in stmt) }
        requires plan { of_plan.now ≡ stated_plan (body_in of_form.now) }
        requires widths { HasWidths (body_in of_form.now) }
        ensures { IsTrue result → self.new ≡ set self.old place (filled_stmt of_form.now cells.now) }
    {
        refill_in(
            &mut self.prog,
            &mut self.routes,
            &mut self.plans,
            place,
            of_form,
            of_plan,
            cells,
        )
    }

    /// The statements.
    pub fn statements(&self) -> &[Stmt]
        ensures { result.now ≡ self.now }
    {
        self.prog.as_slice()
    }

    /// The route of each statement's body.
    pub fn routes(&self) -> &[Arc<Route>]
        ensures { map arc_value result.now ≡ routes_of self.now }
    {
        self.routes.as_slice()
    }

    /// The plan of each statement's body.
    pub fn plans(&self) -> &[Plan]
        ensures { result.now ≡ plans_of self.now }
    {
        self.plans.as_slice()
    }

    /// What the program takes its memory from.
    pub fn allocator(&self) -> Global {
        self.prog.allocator()
    }

    /// The indexes that the plans go through, and the first ones of negated atoms, each once: of each, the relation and the
    /// order of its columns.
    pub fn needs(&self) -> Result<Perms, NoMemory>
        ensures once { IfOk result (λ names. IsDistinct names) }
        ensures needed { IfOk result (λ names. (name : IndexNameType) → IsIn name names ↔ IsNeeded self.now name) }
        ensures each { IfOk result (λ names. HaveNames names self.now) }
        ensures firsts { IfOk result (λ names. AllByRecursion (λ stmt. HaveFirsts names (body_in stmt)) self.now) }
    {
        let mut names = Items::new(self.allocator());
        for route in self.routes() {
            add_names(&mut names, route.guides.as_slice())?;
        }
        self.add_firsts(&mut names)?;
        Ok(names)
    }

    /// Adds the first indexes of negated atoms.
    fn add_firsts(&self, names: &mut Perms) -> Result<(), NoMemory>
        ensures { OnOk result (names.new ≡ with_names names.old (firsts_of self.now)) }
    {
        add_firsts(self.prog.allocator(), names, self.prog.as_slice())?;
        Ok(())
    }
}

/// Makes a statement that of a form with these constants. False where there is none at the place, or it is another's.
fn refill_one(stmts: &mut Prog, place: usize, of_form: &Stmt, cells: &[Key]) -> bool
    ensures within { IsTrue result → place < length stmts.old }
    ensures filled { IsTrue result → stmts.new ≡ set stmts.old place (filled_stmt of_form.now cells.now) }
    ensures none { IsFalse result → stmts.new ≡ [] }
{
    let mut list = taken(stmts);
    if place >= list.len() {
        return false;
    }
    if !refill(&mut list[place], of_form, cells) {
        return false;
    }
    *stmts = Items::from_vec(list);
    true
}

/// The same in a program that has one owner; the routes and the plans go with the statements.
fn refill_in(
    prog: &mut Arc<Prog>,
    routes: &mut Items<Arc<Route>>,
    plans: &mut Items<Plan>,
    place: usize,
    of_form: &Stmt,
    of_plan: &Plan,
    cells: &[Key],
) -> bool
    requires routes { map arc_value routes.old ≡ routes_of (arc_value prog.old) }
    requires plans { plans.old ≡ plans_of (arc_value prog.old) }
    requires widths { HaveWidths (arc_value prog.old) }
    requires route { (stmt : StmtType) → slice_get (arc_value prog.old) place ≡ Some stmt → route_of (body_in of_form.now) ≡ route_of (body_in stmt) }
    requires plan { of_plan.now ≡ stated_plan (body_in of_form.now) }
    requires wide { HasWidths (body_in of_form.now) }
    ensures filled { IsTrue result → arc_value prog.new ≡ set (arc_value prog.old) place (filled_stmt of_form.now cells.now) }
    ensures routes { map arc_value routes.new ≡ routes_of (arc_value prog.new) }
    ensures plans { plans.new ≡ plans_of (arc_value prog.new) }
    ensures widths { HaveWidths (arc_value prog.new) }
{
    match Arc::get_mut(prog) {
        Some(stmts) => {
            if !refill_plan_at(plans, place, of_plan, cells) {
                let _stmts = taken(stmts);
                let _routes = taken(routes);
                return false;
            }
            if refill_one(stmts, place, of_form, cells) {
                return true;
            }
            let _routes = taken(routes);
            let _plans = taken(plans);
            false
        }
        None => false,
    }
}

/// The plans of the statements' bodies, by their routes.
fn plans_by(alloc: Global, stmts: &[Stmt], routes: &[Arc<Route>]) -> Result<Items<Plan>, NoMemory>
    requires routes { map arc_value routes.now ≡ routes_of stmts.now }
    requires widths { HaveWidths stmts.now }
    ensures { IfOk result (λ plans. plans ≡ plans_of stmts.now) }
{
    let mut plans = Items::from_vec(Vec::with_capacity(alloc, stmts.len())?);
    for i in 0..stmts.len() {
        let stmt = &stmts[i];
        let route = &routes[i];
        let plan = plan_by(route, body_of(stmt))?;
        plans.push(plan)?;
    }
    Ok(plans)
}

/// Where a body stands: its program's place, and its statement's place there.
#[derive(Clone, Copy)]
struct Spot {
    prog: usize,
    stmt: usize,
}

/// The route of a body that stands there, if it has the shape of this one.
fn route_at<'a>(planned: &'a [Arc<Planned>], spot: Spot, body: &Body) -> Option<&'a Arc<Route>>
    ensures { IfSome result (λ route. arc_value route.now ≡ route_of body.now) }
{
    if spot.prog >= planned.len() {
        return None;
    }
    let prog: &'a Planned = &planned[spot.prog];
    let place = spot.stmt;
    let stmts = prog.statements();
    if place >= stmts.len() {
        return None;
    }
    let all = prog.routes();
    if place >= all.len() {
        return None;
    }
    let stmt = &stmts[place];
    let route = &all[place];
    if same_shape(body_of(stmt), body) {
        return Some(route);
    }
    None
}

/// The route of the body's shape, if one of these has it.
fn known<'a>(planned: &'a [Arc<Planned>], spots: &[Spot], body: &Body) -> Option<&'a Arc<Route>>
    ensures { IfSome result (λ route. arc_value route.now ≡ route_of body.now) }
{
    for spot in spots {
        if let Some(route) = route_at(planned, *spot, body) {
            return Some(route);
        }
    }
    None
}

/// Shapes of bodies that were planned: where they stand in programs. At most so many are looked through, and then all are forgotten.
#[derive(Drop)]
pub struct Shapes {
    seen: Vec<Arc<Planned>>,
    spots: Vec<Spot>,
}

impl Shapes {
    /// None.
    pub fn none(alloc: Global) -> Shapes {
        Shapes {
            seen: Vec::new(alloc),
            spots: Vec::new(alloc),
        }
    }

    /// The route of the body's shape, if it is known.
    pub fn find_route(&self, body: &Body) -> Option<&Arc<Route>>
        ensures { IfSome result (λ route. arc_value route.now ≡ route_of body.now) }
    {
        known(self.seen.as_slice(), self.spots.as_slice(), body)
    }

    /// The route of a body, and whether its shape is new. Each atom has 1 to 8 terms.
    pub fn route_of(&self, alloc: Global, body: &Body) -> Result<(Arc<Route>, bool), NoMemory>
        requires widths { HasWidths body.now }
        ensures { IfOk result (λ found. arc_value found.0 ≡ route_of body.now) }
    {
        match self.find_route(body) {
            Some(old) => {
                let same = old.clone()?;
                Ok((same, false))
            }
            None => {
                let made = route(body)?;
                let made = Arc::new(alloc, made)?;
                Ok((made, true))
            }
        }
    }

    /// The program with the routes of its statements, and whether a shape is new.
    fn with_routes(&self, alloc: Global, prog: &Arc<Prog>) -> Result<(Planned, bool), NoMemory>
        requires widths { HaveWidths (arc_value prog.now) }
        ensures { IfOk result (λ with. with.0 ≡ arc_value prog.now) }
    {
        let mut routes = Items::from_vec(Vec::with_capacity(alloc, prog.len())?);
        let mut news = false;
        for stmt in prog.as_slice() {
            let found = self.route_of(alloc, body_of(stmt))?;
            let (route, is_new) = found;
            routes.push(route)?;
            news |= is_new;
        }
        let plans = plans_by(alloc, prog.as_slice(), routes.as_slice())?;
        let prog = prog.clone()?;
        Ok((
            Planned {
                prog,
                routes,
                plans,
            },
            news,
        ))
    }

    /// Notes where the bodies of the program stand whose shapes aren't known.
    pub fn note(&mut self, planned: &Arc<Planned>) -> Result<(), NoMemory> {
        if self.spots.len() >= MOST_SHAPES {
            self.seen.clear();
            self.spots.clear();
        }
        let prog = self.seen.len();
        let same = planned.clone()?;
        self.seen.push(same)?;
        let stmts = planned.statements();
        for stmt in 0..stmts.len() {
            if self.spots.len() < MOST_SHAPES
                && known(
                    self.seen.as_slice(),
                    self.spots.as_slice(),
                    body_of(&stmts[stmt]),
                )
                .is_none()
            {
                self.spots.push(Spot { prog, stmt })?;
            }
        }
        Ok(())
    }

    /// The program with the plans of its statements. What a known shape decides isn't found again. Each atom has 1 to 8 terms.
    pub fn plan(&mut self, alloc: Global, prog: &Arc<Prog>) -> Result<Arc<Planned>, NoMemory>
        requires widths { HaveWidths (arc_value prog.now) }
        ensures { IfOk result (λ planned. arc_value planned ≡ arc_value prog.now) }
    {
        let made = self.with_routes(alloc, prog)?;
        let (planned, news) = made;
        let planned = Arc::new(alloc, planned)?;
        if news {
            self.note(&planned)?;
        }
        Ok(planned)
    }
}

/// The programs, each with the plans of its statements; each shape is looked at once, where they have few. Each atom has 1 to
/// 8 terms.
pub fn plan_all(alloc: Global, progs: &[Arc<Prog>]) -> Result<Vec<Arc<Planned>>, NoMemory>
    requires widths { AllByRecursion HaveWidths (map arc_value progs.now) }
    ensures { IfOk result (λ planned. map arc_value planned.items ≡ map arc_value progs.now) }
{
    let mut planned = Vec::with_capacity(alloc, progs.len())?;
    let mut shapes = Shapes::none(alloc);
    for prog in progs {
        let with = shapes.plan(alloc, prog)?;
        planned.push(with)?;
    }
    Ok(planned)
}
