//! The statements and the programs of the generated script.
ghost use Rattle.std.specs.Prelude.{◌≡◌, ◌≤◌, [], ◌∷◌, length, IfOk};
ghost use Rattle.lt_model.specs.Limits.{IsProgramWithin};
ghost use Rattle.lt_gen.specs.Programs.{sales_of, buy, int, load, prints_sales, prints_stock, requires_stock, sale, sells, stock, stock_query, stocks, takes_stock, stock_less, var};

use lt_face::NoMemory;
use lt_face::items::Items;
use lt_model::form::Wording;
use lt_model::kind::Kind;
use lt_model::name::Name;
use lt_model::syntax::{Head, Literal, LiteralList, Op, Program, Statement, StatementList, Term};
use lt_values::cell_of_int;
use std::alloc::Global;

// A list of two.
fn pair<T: Drop>(alloc: Global, a: T, b: T) -> Result<Items<T>, NoMemory>
    ensures { IfOk result (λ list. list ≡ a ∷ b ∷ []) }
{
    let mut list = Items::new(alloc);
    list.push(a)?;
    list.push(b)?;
    Ok(list)
}

// A variable.
fn var(alloc: Global, name: &[u8]) -> Term
    requires some { 1 ≤ length name.now }
    requires few { length name.now ≤ 15 }
    ensures { result ≡ var name.now }
{
    Term::Name(Name::from_bytes(alloc, name))
}

// A number.
fn int(n: u32) -> Term
    ensures { result ≡ int n }
{
    Term::Cell(Kind::Int, cell_of_int(i64::from(n)))
}

// `stock(item, count)`
fn stock(alloc: Global, item: Term, count: Term) -> Result<Head, NoMemory>
    ensures { IfOk result (λ head. head ≡ stock item count) }
{
    let terms = pair(alloc, item, count)?;
    Ok(Head {
        relation: Name::from_bytes(alloc, b"stock"),
        terms,
    })
}

// `sale(program, item, count)`
fn sale(alloc: Global, program: Term, item: Term, count: Term) -> Result<Head, NoMemory>
    ensures { IfOk result (λ head. head ≡ sale program item count) }
{
    let mut terms = pair(alloc, program, item)?;
    terms.push(count)?;
    Ok(Head {
        relation: Name::from_bytes(alloc, b"sale"),
        terms,
    })
}

// `stock(i, name)`
fn stock_of(alloc: Global, i: u32, name: &[u8]) -> Result<Head, NoMemory>
    requires some { 1 ≤ length name.now }
    requires few { length name.now ≤ 15 }
    ensures { IfOk result (λ head. head ≡ stock (int i) (var name.now)) }
{
    let count = var(alloc, name);
    stock(alloc, int(i), count)
}

/// `insert stock(i, q);`
pub fn stocks(alloc: Global, i: u32, q: u32) -> Result<Statement, NoMemory>
    ensures { IfOk result (λ statement. statement ≡ stocks i q) }
{
    let head = stock(alloc, int(i), int(q))?;
    Ok(Statement::Insert {
        head,
        body: Items::new(alloc),
    })
}

// `require some stock(i, n), n >= c;`
fn requires_stock(alloc: Global, i: u32, c: u32) -> Result<Statement, NoMemory>
    ensures { IfOk result (λ statement. statement ≡ requires_stock i c) }
{
    let head = stock_of(alloc, i, b"n")?;
    let enough = Literal::Cmp {
        left: var(alloc, b"n"),
        op: Op::Ge,
        right: int(c),
    };
    let body = pair(alloc, Literal::Atom(head), enough)?;
    Ok(Statement::Require { some: true, body })
}

// `stock(i, n), m = n - c`
fn stock_less(alloc: Global, i: u32, c: u32) -> Result<LiteralList, NoMemory>
    ensures { IfOk result (λ body. body ≡ stock_less i c) }
{
    let head = stock_of(alloc, i, b"n")?;
    let less = Literal::Sum {
        var: Name::from_bytes(alloc, b"m"),
        a: var(alloc, b"n"),
        minus: true,
        b: int(c),
    };
    pair(alloc, Literal::Atom(head), less)
}

// `replace stock(i, n) by stock(i, m) where stock(i, n), m = n - c;`
fn takes_stock(alloc: Global, i: u32, c: u32) -> Result<Statement, NoMemory>
    ensures { IfOk result (λ statement. statement ≡ takes_stock i c) }
{
    let gone = stock_of(alloc, i, b"n")?;
    let come = stock_of(alloc, i, b"m")?;
    let body = stock_less(alloc, i, c)?;
    Ok(Statement::Replace { gone, come, body })
}

// `insert sale(p, i, c);`
fn sells(alloc: Global, p: u32, i: u32, c: u32) -> Result<Statement, NoMemory>
    ensures { IfOk result (λ statement. statement ≡ sells p i c) }
{
    let head = sale(alloc, int(p), int(i), int(c))?;
    Ok(Statement::Insert {
        head,
        body: Items::new(alloc),
    })
}

// `sale(s, k, w), stock(k, n)`
fn sales_of(alloc: Global, k: u32) -> Result<LiteralList, NoMemory>
    ensures { IfOk result (λ body. body ≡ sales_of k) }
{
    let program = var(alloc, b"s");
    let count = var(alloc, b"w");
    let sale = sale(alloc, program, int(k), count)?;
    let stock = stock_of(alloc, k, b"n")?;
    pair(alloc, Literal::Atom(sale), Literal::Atom(stock))
}

// `print (s, n) where sale(s, k, w), stock(k, n);`
fn prints_sales(alloc: Global, k: u32) -> Result<Statement, NoMemory>
    ensures { IfOk result (λ statement. statement ≡ prints_sales k) }
{
    let program = var(alloc, b"s");
    let count = var(alloc, b"n");
    let terms = pair(alloc, program, count)?;
    let body = sales_of(alloc, k)?;
    Ok(Statement::Print { terms, body })
}

// `print (i, n) where stock(i, n);`
fn prints_stock(alloc: Global) -> Result<Statement, NoMemory>
    ensures { IfOk result (λ statement. statement ≡ prints_stock) }
{
    let terms = pair(alloc, var(alloc, b"i"), var(alloc, b"n"))?;
    let head = stock(alloc, var(alloc, b"i"), var(alloc, b"n"))?;
    let mut body = Items::new(alloc);
    body.push(Literal::Atom(head))?;
    Ok(Statement::Print { terms, body })
}

/// The program that readers ask, which prints all that is in stock.
pub fn stock_query(alloc: Global) -> Result<Program, NoMemory>
    ensures query { IfOk result (λ program. program ≡ stock_query) }
    ensures within { IfOk result IsProgramWithin }
{
    let printed = prints_stock(alloc)?;
    let mut statements = Items::new(alloc);
    statements.push(Wording::whole(printed))?;
    Ok(Program {
        name: Name::from_bytes(alloc, b"ask"),
        statements,
    })
}

/// A program that loads rows.
pub fn load(alloc: Global, statements: StatementList) -> Program
    ensures { result ≡ load statements }
{
    Program {
        name: Name::from_bytes(alloc, b"load"),
        statements,
    }
}

/// Program p, which buys c of item i and prints who bought item k.
pub fn buy(alloc: Global, p: u32, c: u32, i: u32, k: u32) -> Result<Program, NoMemory>
    ensures { IfOk result (λ program. program ≡ buy p c i k) }
{
    let required = requires_stock(alloc, i, c)?;
    let taken = takes_stock(alloc, i, c)?;
    let mut statements = pair(alloc, Wording::whole(required), Wording::whole(taken))?;
    let sold = sells(alloc, p, i, c)?;
    statements.push(Wording::whole(sold))?;
    let printed = prints_sales(alloc, k)?;
    statements.push(Wording::whole(printed))?;
    Ok(Program {
        name: Name::from_bytes(alloc, b"buy"),
        statements,
    })
}
