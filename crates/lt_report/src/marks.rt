//! What a program has written.
ghost use Rattle.std.specs.Prelude.{◌∷◌, ◌++◌, [], length};
ghost use Rattle.std.specs.List.{AllByRecursion};
ghost use Rattle.lt_face.specs.Rows.{IsRow};
ghost use Rattle.lt_model.specs.Report.{cell_texts, mark_text, marks_text, sign_text};
ghost use Rattle.lt_report.specs.Headed.{IsHeaded};
ghost use Rattle.lt_report.specs.Puts.{Puts};
ghost use Rattle.lt_report.specs.Texts.{joined};

use crate::line::{put_words, write_all};
use crate::rows::put_cells;
use lt_delta::Marks;
use lt_edges::{Failed, Sink};
use lt_face::row::Row;
use lt_model::kind::Kind;
use lt_model::mark::Mark;
use lt_model::name::{Headings, Name};

// A mark's sign and its relation's name.
fn put_sign<K: Sink>(sink: &mut K, plus: bool, name: &Name) -> Result<(), Failed>
    ensures { Puts result (K.holds sink.old) (K.holds sink.new) (K.faults sink.old) (K.faults sink.new) (joined 0 (sign_text plus ∷ name.now ∷ [])) }
{
    if plus {
        put_words(sink, &[b"+", name.as_bytes()])
    } else {
        put_words(sink, &[b"-", name.as_bytes()])
    }
}

// The words of a mark's line.
fn put_mark_words<K: Sink>(
    sink: &mut K,
    plus: bool,
    name: &Name,
    kinds: &[Kind],
    row: &Row,
) -> Result<(), Failed>
    requires { IsRow (length kinds.now) row.now }
    ensures { Puts result (K.holds sink.old) (K.holds sink.new) (K.faults sink.old) (K.faults sink.new) (joined 0 ((sign_text plus ∷ name.now ∷ []) ++ cell_texts kinds.now row.now)) }
{
    put_sign(sink, plus, name)?;
    put_cells(sink, 2, kinds, row.cells())
}

// A mark on its line.
fn put_mark<K: Sink>(sink: &mut K, mark: &Mark, headings: &Headings) -> Result<(), Failed>
    requires { IsHeaded headings.now mark.now }
    ensures { Puts result (K.holds sink.old) (K.holds sink.new) (K.faults sink.old) (K.faults sink.new) (mark_text headings.now mark.now) }
{
    let heading = &headings.as_slice()[mark.relation as usize];
    put_mark_words(sink, mark.plus, &heading.0, heading.1.as_slice(), &mark.row)?;
    write_all(sink, b"\n")
}

/// The marks, ascending by relation and row, each on its line.
pub fn put_marks<K: Sink>(sink: &mut K, marks: &Marks, headings: &Headings) -> Result<(), Failed>
    requires { AllByRecursion (IsHeaded headings.now) marks.now }
    ensures { Puts result (K.holds sink.old) (K.holds sink.new) (K.faults sink.old) (K.faults sink.new) (marks_text headings.now marks.now) }
{
    'marks: for i in 0..marks.len() {
        put_mark(sink, marks.mark(i), headings)?;
    }
    Ok(())
}
