//! The items of a script, one after the other.
ghost use Rattle.std.specs.Prelude.{◌≡◌, [], List};
ghost use Rattle.lt_model.specs.declared.syntax.Item.{Item as ScriptItem};

use crate::cursor::Cursor;
use crate::forms::Forms;
use crate::lexer::Lexer;
use crate::step::Step;
use std::alloc::Global;

/// A script, and a place between two of its items.
#[derive(Drop)]
pub struct Reader<'a> {
    cursor: Cursor<'a>,
}

impl<'a> Reader<'a> {
    ghost use Rattle.lt_script.specs.Reading.{bytes_of, HasRead, IsNext};

    /// A reader before the first item of these bytes.
    pub fn over(bytes: &'a [u8]) -> Reader<'a>
        ensures start { HasRead result [] }
        ensures bytes { bytes_of result ≡ bytes.now }
    {
        Reader {
            cursor: Cursor::over(Lexer::over(bytes)),
        }
    }

    /// The next item, or how the script ends. Only an item moves the reader on: an end or a fault is answered again.
    pub fn next_item(&mut self, alloc: Global) -> Step
        ensures next { (items : List ScriptItem) → HasRead self.old items → IsNext items self.old self.new result }
        ensures bytes { bytes_of self.new ≡ bytes_of self.old }
    {
        let mut ahead = self.cursor.copy();
        let mut forms = Forms::new(alloc);
        match ahead.take_item(alloc, &mut forms) {
            Step::Item(item) => {
                self.cursor = ahead;
                Step::Item(item)
            }
            other => other,
        }
    }
}
