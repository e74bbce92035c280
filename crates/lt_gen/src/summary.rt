//! What comes of the generated script.
ghost use Rattle.std.specs.Prelude.{◌≡◌, ◌+◌, ◌^◌, ◌≤◌, List, [], ◌∷◌, ◌++◌, length, sum_by, codes};
ghost use Rattle.std.specs.Str.{bytes_eq};
ghost use Rattle.lt_face.specs.Limits.{most_statements};
ghost use Rattle.lt_model.specs.declared.reply.Printed.{Printed as PrintedType};
ghost use Rattle.lt_gen.specs.Answered.{Answer, done_count, refused_count, rows_printed};
ghost use Rattle.lt_gen.specs.Counted.{Counts, HasFewPrints, HasRoom};

use lt_model::name::Name;
use lt_model::reply::{Printed, Reply};

/// How many programs buy, how many of them were done and how many refused, how many rows all programs have printed, how
/// many of all items are left in stock, and how many were sold.
#[derive(Clone, Copy, Debug, PartialEq, Eq)]
pub struct Summary {
    pub programs: u64,
    pub done: u64,
    pub refused: u64,
    pub printed: u128,
    pub left: i128,
    pub sold: i128,
    /// How many queries the readers made, and how many of their replies were those of their versions; None where no one read.
    pub reads: Option<u64>,
    pub equal: Option<u64>,
}

// How many rows there are in all.
fn rows_in(prints: &[Printed]) -> u128
    requires { length prints.now ≤ most_statements }
    ensures rows { result ≡ sum_by (λ (p : PrintedType). length p.rows) prints.now }
    ensures bound { result ≤ 2 ^ 70 }
{
    let mut count = 0;
    'prints: for printed in prints {
        count += printed.rows.len() as u128;
    }
    count
}

// How many rows a program has printed.
fn rows_printed(reply: &Reply) -> u128
    requires { HasFewPrints reply.now }
    ensures rows { result ≡ rows_printed reply.now }
    ensures bound { result ≤ 2 ^ 70 }
{
    match reply {
        Reply::Done(prints) => rows_in(prints.as_slice()),
        Reply::Refused(_) => 0,
    }
}

// Whether a program buys.
fn is_buy(name: &Name) -> bool
    ensures { result ≡ bytes_eq name.now (codes "buy") }
{
    name.as_bytes() == b"buy".as_slice()
}

// How many programs that buy were done and how many were refused: of this one.
fn ends(name: &Name, reply: &Reply) -> (u64, u64)
    ensures done { result.0 ≡ done_count ((name.now, reply.now) ∷ []) }
    ensures refused { result.1 ≡ refused_count ((name.now, reply.now) ∷ []) }
{
    if !is_buy(name) {
        return (0, 0);
    }
    match reply {
        Reply::Done(_) => (1, 0),
        Reply::Refused(_) => (0, 1),
    }
}

impl Summary {
    /// Before any program has run.
    pub fn new(programs: u64) -> Summary
        ensures programs { result.programs ≡ programs }
        ensures counts { Counts result [] }
    {
        Summary {
            programs,
            done: 0,
            refused: 0,
            printed: 0,
            left: 0,
            sold: 0,
            reads: None,
            equal: None,
        }
    }

    /// One program more has answered.
    pub fn count(&mut self, name: &Name, reply: &Reply)
        requires few { HasFewPrints reply.now }
        requires room { HasRoom self.old }
        ensures counts { (answers : List Answer) → Counts self.old answers → Counts self.new (answers ++ (name.now, reply.now) ∷ []) }
        ensures programs { self.new.programs ≡ self.old.programs }
        ensures left { self.new.left ≡ self.old.left }
        ensures sold { self.new.sold ≡ self.old.sold }
    {
        let (done, refused) = ends(name, reply);
        self.done += done;
        self.refused += refused;
        self.printed += rows_printed(reply);
    }
}
