//! Programs in the making: what has a form that was checked is filled, and all else is checked.
ghost use Rattle.std.specs.Prelude.{◌≡◌, ◌++◌, ◌∷◌, [], None, IfOk, IfErr, OnOk};
ghost use Rattle.std.specs.Arc.{arc_value};
ghost use Rattle.lt_model.specs.Check.{checked, code_of, Good as GoodProg, normal};
ghost use Rattle.lt_model.specs.Forms.{filled as filled_form, filled_stmt};
ghost use Rattle.lt_model.specs.Limits.{IsProgramWithin};
ghost use Rattle.lt_model.specs.Within.{IsStatementWithin};
ghost use Rattle.lt_check.specs.Outcome.{IsCode, IsFault};
ghost use Rattle.lt_query.specs.Needs.{body_of as body_in};
ghost use Rattle.lt_query.specs.Planned.{route_of};
ghost use Rattle.lt_query.specs.Runnable.{HasWidths};
ghost use Rattle.lt_world.specs.Prepared.{AreChecked, IsMade};

use crate::checks::Table;
use lt_check::Desk;
use lt_check::check::CheckFault;
use lt_check::schema::Schema;
use lt_check::statement::check_statement;
use lt_face::NoMemory;
use lt_face::items::Items;
use lt_face::key::Key;
use lt_model::form::{Form, Kept, Wording};
use lt_model::normal::{Prog, Stmt};
use lt_model::syntax::{Program, Statement};
use lt_model::theorems::forms;
use lt_query::laws::plans_of_forms;
use lt_query::{Planned, Route, Shapes, body_of, filled};
use std::alloc::Global;
use std::sync::Arc;

/// The statements of a program that were taken, with the routes of their bodies, and whether one has a shape that is new.
#[derive(Drop)]
pub struct Making {
    pub prog: Prog,
    pub routes: Items<Arc<Route>>,
    pub news: bool,
}

impl Making {
    // Room for so many statements.
    fn start(alloc: Global, count: usize) -> Result<Making, NoMemory>
        ensures none { IfOk result (λ making. making.prog ≡ []) }
        ensures made { IfOk result (λ making. IsMade making) }
    {
        let prog = Vec::with_capacity(alloc, count)?;
        let routes = Vec::with_capacity(alloc, count)?;
        Ok(Making {
            prog: Prog::from_vec(prog),
            routes: Items::from_vec(routes),
            news: false,
        })
    }

    // Adds a statement, with the route of its body.
    fn add(&mut self, stmt: Stmt, route: Arc<Route>) -> Result<(), NoMemory>
        requires made { IsMade self.old }
        requires widths { HasWidths (body_in stmt) }
        requires route { arc_value route ≡ route_of (body_in stmt) }
        ensures more { OnOk result (self.new.prog ≡ self.old.prog ++ stmt ∷ []) }
        ensures made { OnOk result (IsMade self.new) }
    {
        self.prog.push(stmt)?;
        self.routes.push(route)?;
        Ok(())
    }

    // Adds a form's statement with these constants. The route is that of the form.
    fn add_filled(
        &mut self,
        of_form: &Stmt,
        cells: &[Key],
        route: &Arc<Route>,
    ) -> Result<(), NoMemory>
        requires made { IsMade self.old }
        requires widths { HasWidths (body_in of_form.now) }
        requires route { arc_value route.now ≡ route_of (body_in of_form.now) }
        ensures more { OnOk result (self.new.prog ≡ self.old.prog ++ filled_stmt of_form.now cells.now ∷ []) }
        ensures made { OnOk result (IsMade self.new) }
    {
        plans_of_forms();
        let stmt = filled(of_form, cells)?;
        let same = route.clone()?;
        self.add(stmt, same)
    }

    // Adds the statement of a form that is checked now. What the check gives is kept.
    fn add_new<'a>(
        &mut self,
        alloc: Global,
        form: &'a Arc<Form>,
        cells: &[Key],
        number: u32,
        schema: &'a Schema,
        desk: &mut Desk<'a>,
        table: &mut Table,
    ) -> Result<(), CheckFault>
        requires made { IsMade self.old }
        requires table { AreChecked schema.now table.old }
        ensures code { OnOk result (code_of schema.now (filled_form (arc_value form.now).1 cells.now) ≡ None) }
        ensures more { OnOk result (self.new.prog ≡ self.old.prog ++ normal schema.now (filled_form (arc_value form.now).1 cells.now) ∷ []) }
        ensures made { OnOk result (IsMade self.new) }
        ensures bad { IfErr result (λ fault. IsCode (code_of schema.now (filled_form (arc_value form.now).1 cells.now)) number fault) }
        ensures table { AreChecked schema.now table.new }
    {
        forms();
        let stmt = check_statement(alloc, schema, form.statement(), number, desk)?;
        let found = table.shapes.route_of(alloc, body_of(&stmt))?;
        let (route, is_new) = found;
        self.news |= is_new;
        self.add_filled(&stmt, cells, &route)?;
        table.keep(form, stmt, route)?;
        Ok(())
    }

    // Adds the statement of a form with these constants. The form is checked only where it is new.
    fn add_by_form<'a>(
        &mut self,
        alloc: Global,
        form: &'a Arc<Form>,
        cells: &[Key],
        number: u32,
        schema: &'a Schema,
        desk: &mut Desk<'a>,
        table: &mut Table,
    ) -> Result<(), CheckFault>
        requires made { IsMade self.old }
        requires table { AreChecked schema.now table.old }
        ensures code { OnOk result (code_of schema.now (filled_form (arc_value form.now).1 cells.now) ≡ None) }
        ensures more { OnOk result (self.new.prog ≡ self.old.prog ++ normal schema.now (filled_form (arc_value form.now).1 cells.now) ∷ []) }
        ensures made { OnOk result (IsMade self.new) }
        ensures bad { IfErr result (λ fault. IsCode (code_of schema.now (filled_form (arc_value form.now).1 cells.now)) number fault) }
        ensures table { AreChecked schema.now table.new }
    {
        if let Some(checked) = table.find(form) {
            forms();
            self.add_filled(&checked.stmt, cells, &checked.route)?;
            return Ok(());
        }
        self.add_new(alloc, form, cells, number, schema, desk, table)
    }

    // Adds a statement that has no form.
    fn add_whole<'a>(
        &mut self,
        alloc: Global,
        statement: &'a Statement,
        number: u32,
        schema: &'a Schema,
        desk: &mut Desk<'a>,
        shapes: &Shapes,
    ) -> Result<(), CheckFault>
        requires made { IsMade self.old }
        requires within { IsStatementWithin statement.now }
        ensures code { OnOk result (code_of schema.now statement.now ≡ None) }
        ensures more { OnOk result (self.new.prog ≡ self.old.prog ++ normal schema.now statement.now ∷ []) }
        ensures made { OnOk result (IsMade self.new) }
        ensures bad { IfErr result (λ fault. IsCode (code_of schema.now statement.now) number fault) }
    {
        let stmt = check_statement(alloc, schema, statement, number, desk)?;
        let found = shapes.route_of(alloc, body_of(&stmt))?;
        let (route, is_new) = found;
        self.news |= is_new;
        self.add(stmt, route)?;
        Ok(())
    }

    // Adds the normal form of the statement of this number, or finds its first code.
    fn take<'a>(
        &mut self,
        alloc: Global,
        wording: &'a Wording,
        number: u32,
        schema: &'a Schema,
        desk: &mut Desk<'a>,
        table: &mut Table,
    ) -> Result<(), CheckFault>
        requires made { IsMade self.old }
        requires within { IsStatementWithin wording.now }
        requires table { AreChecked schema.now table.old }
        ensures code { OnOk result (code_of schema.now wording.now ≡ None) }
        ensures more { OnOk result (self.new.prog ≡ self.old.prog ++ normal schema.now wording.now ∷ []) }
        ensures made { OnOk result (IsMade self.new) }
        ensures bad { IfErr result (λ fault. IsCode (code_of schema.now wording.now) number fault) }
        ensures table { AreChecked schema.now table.new }
    {
        match wording.kept() {
            Kept::Whole(statement) => {
                self.add_whole(alloc, statement, number, schema, desk, &table.shapes)
            }
            Kept::Filled(form, cells) => {
                self.add_by_form(alloc, form, cells.as_slice(), number, schema, desk, table)
            }
        }
    }
}

// The program with its plans. New shapes are noted.
fn finished(alloc: Global, making: Making, shapes: &mut Shapes) -> Result<Arc<Planned>, NoMemory>
    requires { IsMade making }
    ensures { IfOk result (λ planned. arc_value planned ≡ making.prog) }
{
    let Making { prog, routes, news } = making;
    let planned = Planned::of(alloc, prog, routes)?;
    let planned = Arc::new(alloc, planned)?;
    if news {
        shapes.note(&planned)?;
    }
    Ok(planned)
}

/// The program in normal form with its plans, or its first code. What has a form is checked once.
pub fn made<'a>(
    alloc: Global,
    program: &'a Program,
    schema: &'a Schema,
    desk: &mut Desk<'a>,
    table: &mut Table,
) -> Result<Arc<Planned>, CheckFault>
    requires within { IsProgramWithin program.now }
    requires table { AreChecked schema.now table.old }
    ensures good { IfOk result (λ planned. checked program.now schema.now ≡ GoodProg (arc_value planned)) }
    ensures bad { IfErr result (λ fault. IsFault (checked program.now schema.now) fault) }
    ensures table { AreChecked schema.now table.new }
{
    let mut making = Making::start(alloc, program.statements.len())?;
    for (place, wording) in program.statements.as_slice().iter().enumerate() {
        making.take(alloc, wording, place as u32 + 1, schema, desk, table)?;
    }
    let planned = finished(alloc, making, &mut table.shapes)?;
    Ok(planned)
}
