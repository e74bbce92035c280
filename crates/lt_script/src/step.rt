//! The next item of a source, or how the source ends.
ghost use Rattle.std.specs.Prelude.{◌≢◌, []};

use crate::cursor::Cursor;
use crate::forms::Forms;
use crate::refusal::Refusal;
use crate::standing::Standing;
use lt_model::syntax::Item;
use std::alloc::Global;

/// What stands next in a script.
#[derive(Drop)]
pub enum Step {
    /// An item without a fault, within all limits.
    Item(Item),
    /// The end of the script.
    End,
    /// The first token with a fault: its line, from 1 on, and the fault's code, from 1 to 7. Where the script ends inside
    /// an item, the line is that of its end and the code is 7.
    Fault { line: u64, code: u32 },
    /// No memory was left for the item. It may be asked for again.
    NoMemory,
}

impl Step {
    ghost use Rattle.lt_script.specs.Taken.{IsRefused};

    // What is answered where an item wasn't read, and this stands next.
    fn refused(refusal: Refusal, standing: Standing) -> Step
        ensures { IsRefused refusal standing result }
    {
        match (refusal, standing) {
            (Refusal::NoMemory, _) => Step::NoMemory,
            (Refusal::Fault(cause), Standing::Token { line }) => Step::Fault {
                line,
                code: cause.code(),
            },
            (Refusal::Fault(_), Standing::End { line }) => Step::Fault { line, code: 7 },
            (Refusal::Fault(_), Standing::Broken { line, code }) => Step::Fault { line, code },
        }
    }
}

impl<'a> Cursor<'a> {
    ghost use Rattle.lt_script.specs.Ahead.{ahead};
    ghost use Rattle.lt_script.specs.Taken.{IsTaken};

    /// Goes past the next item. At a fault it stands at the token that has it, or at the end where one is missing.
    pub fn take_item(&mut self, alloc: Global, forms: &mut Forms) -> Step
        ensures { IsTaken self.old self.new result }
    {
        match self.standing() {
            Standing::Token { .. } => self.take_some(alloc, forms),
            Standing::End { .. } => Step::End,
            Standing::Broken { line, code } => Step::Fault { line, code },
        }
    }

    // The item that begins with the next token.
    fn take_some(&mut self, alloc: Global, forms: &mut Forms) -> Step
        requires { (ahead self.old).0 ≢ [] }
        ensures { IsTaken self.old self.new result }
    {
        match self.item(alloc, forms) {
            Ok(item) => Step::Item(item),
            Err(refusal) => Step::refused(refusal, self.standing()),
        }
    }
}
