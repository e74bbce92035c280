//! What a program answers.
ghost use Rattle.std.specs.Prelude.{◌∷◌, [], codes, decimal, flat_map};
ghost use Rattle.std.specs.List.{AllByRecursion};
ghost use Rattle.lt_model.specs.Report.{line as line_of, print_text, reply_text};
ghost use Rattle.lt_model.specs.declared.reply.Reply.TheVariants as replies;
ghost use Rattle.lt_program.specs.Run.{ArePrinted, AreReplied};
ghost use Rattle.lt_report.specs.Puts.{Puts};

use crate::line::put_line;
use crate::rows::put_list;
use itoa::Buffer;
use lt_edges::{Failed, Sink};
use lt_model::name::Name;
use lt_model::reply::{Printed, Reply};

// The line with which the rows of a print begin: its statement's number, and how many rows there are.
fn put_print_line<K: Sink>(sink: &mut K, statement: u32, count: usize) -> Result<(), Failed>
    ensures { Puts result (K.holds sink.old) (K.holds sink.new) (K.faults sink.old) (K.faults sink.new) (line_of (codes "print" ∷ decimal statement ∷ decimal count ∷ [])) }
{
    let mut first = Buffer::new();
    let mut second = Buffer::new();
    let statement = first.format(statement).as_bytes();
    put_line(
        sink,
        &[b"print", statement, second.format(count).as_bytes()],
    )
}

// A print, with its rows.
fn put_print<K: Sink>(sink: &mut K, printed: &Printed) -> Result<(), Failed>
    requires { ArePrinted printed.now }
    ensures { Puts result (K.holds sink.old) (K.holds sink.new) (K.faults sink.old) (K.faults sink.new) (print_text printed.now) }
{
    let rows = printed.rows.as_slice();
    put_print_line(sink, printed.statement, rows.len())?;
    put_list(sink, printed.kinds.as_slice(), rows)
}

// The prints in order.
fn put_prints<K: Sink>(sink: &mut K, prints: &[Printed]) -> Result<(), Failed>
    requires { AllByRecursion ArePrinted prints.now }
    ensures { Puts result (K.holds sink.old) (K.holds sink.new) (K.faults sink.old) (K.faults sink.new) (flat_map print_text prints.now) }
{
    'prints: for printed in prints {
        put_print(sink, printed)?;
    }
    Ok(())
}

// That all was done, and the prints.
fn put_done<K: Sink>(sink: &mut K, name: &Name, prints: &[Printed]) -> Result<(), Failed>
    requires { AllByRecursion ArePrinted prints.now }
    ensures { Puts result (K.holds sink.old) (K.holds sink.new) (K.faults sink.old) (K.faults sink.new) (reply_text name.now (replies.Done prints.now)) }
{
    put_done_line(sink, name)?;
    put_prints(sink, prints)
}

fn put_done_line<K: Sink>(sink: &mut K, name: &Name) -> Result<(), Failed>
    ensures { Puts result (K.holds sink.old) (K.holds sink.new) (K.faults sink.old) (K.faults sink.new) (line_of (name.now ∷ codes "done" ∷ [])) }
{
    put_line(sink, &[name.as_bytes(), b"done"])
}

/// What a program without a code answers: that all was done, with its prints, or which requirement was false.
pub fn put_reply<K: Sink>(sink: &mut K, name: &Name, reply: &Reply) -> Result<(), Failed>
    requires { AreReplied reply.now }
    ensures { Puts result (K.holds sink.old) (K.holds sink.new) (K.faults sink.old) (K.faults sink.new) (reply_text name.now reply.now) }
{
    match reply {
        Reply::Done(prints) => put_done(sink, name, prints.as_slice()),
        Reply::Refused(number) => {
            let mut buffer = Buffer::new();
            put_line(
                sink,
                &[
                    name.as_bytes(),
                    b"refused",
                    buffer.format(*number).as_bytes(),
                ],
            )
        }
    }
}
