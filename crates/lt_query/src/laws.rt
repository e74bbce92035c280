//! Laws of the plans of a body, in whatever order of its variables, and of its answers.
ghost use Rattle.lt_query.specs.Filling.{ShapeStays, RouteStays, WidthsStay, PlanFollows};
ghost use Rattle.lt_query.specs.Keyed.{WritesStayKeyed, KeyAnswers, NeighboursClash};
ghost use Rattle.lt_query.specs.Laws.{FittingHasWidths, PlansAreRunnable, OneStatedPlan, AnswersAscend, AnswersAreCells, SomeIsSatisfied, OneAscending, PlanOfShape, FilledIsPlan};

/// The atoms of a body that fits a state are as wide as the relations. A join can follow each plan of the body. One plan
/// has the stated order.
pub fn plans_of_bodies()
    ensures widths { FittingHasWidths }
    ensures runnable { PlansAreRunnable }
    ensures one { OneStatedPlan }
{}

/// The answers of a body ascend, and they are the terms' cells under the assignments that hold, whose rows the state has,
/// and none of whose absent rows it has. There is one exactly where there is such an assignment. So answers with the same rows are equal.
pub fn answers_of_bodies()
    ensures ascend { AnswersAscend }
    ensures cells { AnswersAreCells }
    ensures some { SomeIsSatisfied }
    ensures one { OneAscending }
{}

/// Bodies of one shape have one plan, but for the constants. A shape's plan, filled with those of a body of the shape, is the
/// body's plan.
pub fn plans_of_shapes()
    ensures blank { PlanOfShape }
    ensures filled { FilledIsPlan }
{}

/// A plan looks at no constant: a body with others has the same shape, a statement the same route and atoms as wide, and the plan
/// is the first one's with these.
pub fn plans_of_forms()
    ensures shape { ShapeStays }
    ensures route { RouteStays }
    ensures widths { WidthsStay }
    ensures plan { PlanFollows }
{}

/// Where each relation of a state has one row for a key at most, so it has when what a statement writes is laid on it. The rows
/// that a row may displace are those of its relation with its key. Rows clash only where neighbours do.
pub fn rows_for_keys()
    ensures stay { WritesStayKeyed }
    ensures answers { KeyAnswers }
    ensures neighbours { NeighboursClash }
{}
