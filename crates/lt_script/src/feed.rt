//! A script that comes in pieces.
ghost use Rattle.std.specs.Prelude.{◌≡◌, ◌+◌, ◌<◌, ◌^◌, ◌++◌, ℕ, [], List, OnOk, OnErr, length, true, false};
ghost use Rattle.lt_model.specs.declared.syntax.Item.{Item as ScriptItem};
ghost use Rattle.lt_model.specs.Tokens.{Token as ScriptToken};
ghost use Rattle.lt_model.specs.Grammar.{legal, Derives};
ghost use Rattle.lt_model.specs.Script.{shapes};
ghost use Rattle.lt_script.specs.Pieces.{Leads};
ghost use Rattle.lt_script.specs.Feed.{Finds};

use crate::cursor::Cursor;
use crate::forms::Forms;
use crate::lexer::Lexer;
use crate::spare::Spare;
use crate::step::Step;
use lt_face::memory::NoMemory;
use lt_model::syntax::Item;
use std::alloc::Global;

// The first token with a fault.
#[derive(Clone, Copy)]
pub struct Fault {
    pub line: u64,
    pub code: u32,
}

/// The bytes of a script from the end of the last item on, where more may come.
#[derive(Drop)]
pub struct Feed {
    bytes: Vec<u8>,
    from: usize,
    line: u64,
    ended: bool,
    fault: Option<Fault>,
    forms: Forms,
    spare: Spare,
}

/// What stands next in a script that comes in pieces.
#[derive(Drop)]
pub enum FeedStep {
    /// An item without a fault, within all limits.
    Item(Item),
    /// The end of the script.
    End,
    /// The first token with a fault: its line, from 1 on, and the fault's code, from 1 to 7. Where the script ends inside
    /// an item, the line is that of its end and the code is 7.
    Fault { line: u64, code: u32 },
    /// The tokens that are decided lie inside an item, or there are none: more bytes are wanted, or the end.
    More,
    /// No memory was left for the item. It may be asked for again.
    NoMemory,
}

// What the bytes that are kept begin with.
#[derive(Drop)]
enum Found {
    // An item. So many bytes are left behind it, and they begin on this line.
    Item { item: Item, left: usize, line: u64 },
    Fault(Fault),
    End,
    More,
    NoMemory,
}

impl<'a> Cursor<'a> {
    ghost use Rattle.lt_script.specs.Feed.{WantsMore};

    // Whether more bytes are wanted to tell what stands next. None come behind the end.
    fn wants_more(&self, ended: bool) -> bool
        ensures { WantsMore result ended self.now }
    {
        if ended {
            return false;
        }
        self.may_change()
    }
}

// What these bytes begin with, which begin on the lexer's line.
fn read_front(alloc: Global, start: Lexer, ended: bool, forms: &mut Forms) -> Found
    requires { start.line + length start.rest.now < 2 ^ 64 }
    ensures { (bytes : List ℕ) (done : List ScriptToken) (items : List ScriptItem) → Leads 1 bytes done start.entry.line start.entry.rest.now → Derives legal (shapes done) items → Finds bytes done items start.entry.line start.entry.rest.now ended result }
{
    let mut cursor = Cursor::over(start);
    match cursor.take_item(alloc, forms) {
        Step::Item(item) => {
            let rest = cursor.rest();
            Found::Item {
                item,
                left: rest.rest.len(),
                line: rest.line,
            }
        }
        Step::End => {
            let more = cursor.wants_more(ended);
            if more { Found::More } else { Found::End }
        }
        Step::Fault { line, code } => {
            let more = cursor.wants_more(ended);
            if more {
                Found::More
            } else {
                Found::Fault(Fault { line, code })
            }
        }
        Step::NoMemory => Found::NoMemory,
    }
}

impl Feed {
    ghost use Rattle.lt_script.specs.Feed.{kept_of, HasFed, HoldsStill, IsSame, IsStep, IsRepeated, IsFirstFault};

    /// A feed to which nothing was pushed yet. It takes no memory.
    pub fn new(alloc: Global) -> Feed
        ensures fed { HasFed result [] [] }
        ensures open { result.ended ≡ false }
    {
        Feed {
            bytes: Vec::new(alloc),
            from: 0,
            line: 1,
            ended: false,
            fault: None,
            forms: Forms::new(alloc),
            spare: Spare::new(alloc),
        }
    }

    /// Puts these bytes behind those that were pushed. Behind a fault they are dropped. On want of memory the feed stays as
    /// it was.
    pub fn push(&mut self, piece: &[u8]) -> Result<(), NoMemory>
        requires { self.old.ended ≡ false }
        ensures fed { OnOk result ((bytes : List ℕ) (items : List ScriptItem) → HasFed self.old bytes items → HasFed self.new (bytes ++ piece.now) items) }
        ensures refused { OnErr result (IsSame self.old self.new) }
        ensures held { HoldsStill self.old self.new }
        ensures open { self.new.ended ≡ false }
    {
        let closed = self.fault.is_some();
        if closed {
            return Ok(());
        }
        self.forget_answered()?;
        self.bytes.extend_from_slice(piece)?;
        Ok(())
    }

    // Gives up the bytes of the items that were answered.
    fn forget_answered(&mut self) -> Result<(), NoMemory>
        ensures same { IsSame self.old self.new }
        ensures first { OnOk result (self.new.from ≡ 0) }
    {
        if self.from == 0 {
            return Ok(());
        }
        let answered = self.from.min(self.bytes.len());
        self.spare.give_up(&mut self.bytes, answered)?;
        self.from = 0;
        Ok(())
    }

    /// Says that no more bytes come.
    pub fn end(&mut self)
        ensures fed { (bytes : List ℕ) (items : List ScriptItem) → HasFed self.old bytes items → HasFed self.new bytes items }
        ensures held { HoldsStill self.old self.new }
        ensures ended { self.new.ended ≡ true }
    {
        self.ended = true;
    }

    /// How many bytes were pushed since the end of the last item that was answered, or 0 behind a fault.
    pub fn kept(&self) -> usize
        ensures { result ≡ length (kept_of self.now) }
    {
        self.bytes.len().saturating_sub(self.from)
    }

    // What the bytes that are kept begin with. Lines are counted in 64 bits.
    fn look(&mut self, alloc: Global) -> Found
        ensures found { (bytes : List ℕ) (done : List ScriptToken) (items : List ScriptItem) → Leads 1 bytes done self.old.line (kept_of self.old) → Derives legal (shapes done) items → Finds bytes done items self.old.line (kept_of self.old) self.old.ended result }
        ensures same { self.new ≡ self.old }
    {
        let answered = self.from.min(self.bytes.len());
        let (_, kept) = self.bytes.as_slice().split_at(answered);
        if kept.len() as u64 > u64::MAX - self.line {
            return Found::NoMemory;
        }
        let start = Lexer {
            rest: kept,
            line: self.line,
        };
        read_front(alloc, start, self.ended, &mut self.forms)
    }

    /// The next item, how the script ends, or that more is wanted. An end and a fault are answered again. A call that gives
    /// no item looks at all bytes that are kept, so a caller asks again once as many have come as were kept.
    pub fn next_step(&mut self, alloc: Global) -> FeedStep
        ensures step { (bytes : List ℕ) (items : List ScriptItem) → HasFed self.old bytes items → IsStep bytes items self.old self.new result }
        ensures again { IsRepeated self.old self.new result }
        ensures decided { (bytes : List ℕ) (items : List ScriptItem) → HasFed self.old bytes items → IsFirstFault bytes items self.old result }
        ensures ended { self.new.ended ≡ self.old.ended }
    {
        if let Some(fault) = self.fault {
            return FeedStep::Fault {
                line: fault.line,
                code: fault.code,
            };
        }
        match self.look(alloc) {
            Found::Item { item, left, line } => {
                let all = self.bytes.len();
                self.from = all.saturating_sub(left);
                self.line = line;
                FeedStep::Item(item)
            }
            Found::Fault(fault) => {
                let all = self.bytes.len();
                self.from = all;
                self.fault = Some(fault);
                FeedStep::Fault {
                    line: fault.line,
                    code: fault.code,
                }
            }
            Found::End => FeedStep::End,
            Found::More => FeedStep::More,
            Found::NoMemory => FeedStep::NoMemory,
        }
    }
}
