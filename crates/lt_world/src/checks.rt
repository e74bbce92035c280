//! What was checked by a schema: forms of statements, each at its place, and programs that were run.
ghost use Rattle.std.specs.Prelude.{◌≡◌, IfSome, None};
ghost use Rattle.std.specs.Arc.{arc_value};
ghost use Rattle.std.specs.List.{AllByRecursion};
ghost use Rattle.lt_model.specs.Check.{code_of, normal};
ghost use Rattle.lt_model.specs.Schema.{Schema as ModelSchema};
ghost use Rattle.lt_query.specs.Needs.{body_of as body_in};
ghost use Rattle.lt_query.specs.Planned.{route_of};
ghost use Rattle.lt_query.specs.Runnable.{HasWidths};
ghost use Rattle.lt_world.specs.Prepared.{AreChecked, form_of, IsChecked, IsKnown};

use lt_face::NoMemory;
use lt_model::form::Form;
use lt_model::normal::Stmt;
use lt_model::syntax::Program;
use lt_query::{Plan, Planned, Route, Shapes, body_of, plan_by};
use std::alloc::Global;
use std::sync::Arc;

// How many forms are kept at most.
const MOST_FORMS: usize = 256;

/// A form that has no code, its normal form, which has the same numbers for constants, and the route and the plan of its body.
#[derive(Drop)]
pub struct CheckedForm {
    pub form: Arc<Form>,
    pub stmt: Stmt,
    pub route: Arc<Route>,
    pub plan: Plan,
}

/// A program that was run, and its normal form. The lists of the one serve the next program whose statements have the same forms.
#[derive(Drop)]
pub struct Old {
    pub program: Program,
    pub planned: Arc<Planned>,
}

/// Forms that were checked, each at its place, programs that were run, and shapes of bodies that were planned.
#[derive(Drop)]
pub struct Table {
    pub forms: Vec<Option<CheckedForm>>,
    pub runs: Vec<Old>,
    /// No clause speaks of them.
    pub shapes: Shapes,
}

// Makes room for a form at this place.
fn make_room(forms: &mut Vec<Option<CheckedForm>>, place: usize) -> Result<(), NoMemory>
    ensures { (schema : ModelSchema) → AllByRecursion (IsKnown schema) forms.old.items → AllByRecursion (IsKnown schema) forms.new.items }
{
    for _ in forms.len()..=place {
        forms.push(None)?;
    }
    Ok(())
}

// Puts a form at its place.
fn put(
    forms: &mut Vec<Option<CheckedForm>>,
    place: usize,
    checked: CheckedForm,
) -> Result<(), NoMemory>
    ensures { (schema : ModelSchema) → IsChecked schema checked → AllByRecursion (IsKnown schema) forms.old.items → AllByRecursion (IsKnown schema) forms.new.items }
{
    make_room(forms, place)?;
    if place < forms.len() {
        forms[place] = Some(checked);
    }
    Ok(())
}

impl Table {
    /// Nothing was checked.
    pub fn new(alloc: Global) -> Table
        ensures { (schema : ModelSchema) → AreChecked schema result }
    {
        Table {
            forms: Vec::new(alloc),
            runs: Vec::new(alloc),
            shapes: Shapes::none(alloc),
        }
    }

    /// Forgets what was checked. Shapes stay, as they hang on no schema.
    pub fn clear(&mut self)
        ensures { (schema : ModelSchema) → AreChecked schema self.new }
    {
        self.forms.clear();
        self.runs.clear();
    }

    /// What was checked of a form, if it was.
    pub fn find(&self, form: &Form) -> Option<&CheckedForm>
        ensures form { IfSome result (λ c. form_of c.now ≡ form.now.1) }
        ensures checked { IfSome result (λ c. (schema : ModelSchema) → AreChecked schema self.now → IsChecked schema c.now) }
    {
        let Some(Some(checked)) = self.forms.get(form.place()) else {
            return None;
        };
        if form.is_same(&checked.form) {
            return Some(checked);
        }
        None
    }

    /// Keeps what the check of a form gave, at its place, and what its body's plan is.
    pub fn keep(&mut self, form: &Arc<Form>, stmt: Stmt, route: Arc<Route>) -> Result<(), NoMemory>
        requires widths { HasWidths (body_in stmt) }
        requires route { arc_value route ≡ route_of (body_in stmt) }
        ensures { (schema : ModelSchema) → code_of schema (arc_value form.now).1 ≡ None → stmt ≡ normal schema (arc_value form.now).1 → AreChecked schema self.old → AreChecked schema self.new }
    {
        let place = form.place();
        if place >= MOST_FORMS {
            return Ok(());
        }
        let plan = plan_by(&route, body_of(&stmt))?;
        let form = form.clone()?;
        let checked = CheckedForm {
            form,
            stmt,
            route,
            plan,
        };
        put(&mut self.forms, place, checked)
    }
}
