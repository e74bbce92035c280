//! Replies of readers, compared with those on the versions that they name.
ghost use Rattle.std.specs.Prelude.{◌≡◌, ◌+◌, ◌-◌, ◌*◌, ◌^◌, ◌<◌, ◌≤◌, ◌↔◌, ℕ, true, false, length, IfOk, IsTrue};
ghost use Rattle.std.specs.Arc.{arc_value};
ghost use Rattle.std.specs.List.{AllByRecursion};
ghost use Rattle.lt_model.specs.declared.reply.Reply.{Reply as ReplyType};
ghost use Rattle.lt_readers.specs.Boards.{posted, poster_board};
ghost use Rattle.lt_runs.specs.Asking.{IsAsked};
ghost use Rattle.lt_runs.specs.Reading.{CountsAll, HasAsked, IsAllPosted, IsReady, IsRight, MayCompare};

use crate::beside::asking::Asker;
use lt_face::NoMemory;
use lt_face::row::Row;
use lt_model::kind::Kind;
use lt_model::reply::{Printed, Reply};
use lt_query::Planned;
use lt_readers::{Poster, answered};
use lt_versions::Versions;
use std::sync::Arc;
use std::thread::Threads;

// Whether two lists of rows are equal.
fn same_rows(a: &[Row], b: &[Row]) -> bool
    ensures { IsTrue result ↔ (a.now ≡ b.now) }
{
    a == b
}

// Whether two kinds are equal.
fn same_kind(a: Kind, b: Kind) -> bool
    ensures { IsTrue result ↔ (a ≡ b) }
{
    a == b
}

// Whether two lists of kinds are equal.
fn same_kinds(a: &[Kind], b: &[Kind]) -> bool
    ensures { IsTrue result ↔ (a.now ≡ b.now) }
{
    if a.len() != b.len() {
        return false;
    }
    for i in 0..a.len() {
        if !same_kind(a[i], b[i]) {
            return false;
        }
    }
    true
}

// Whether two prints are equal.
fn same_printed(a: &Printed, b: &Printed) -> bool
    ensures { IsTrue result ↔ (a.now ≡ b.now) }
{
    if a.statement != b.statement {
        return false;
    }
    if !same_kinds(a.kinds.as_slice(), b.kinds.as_slice()) {
        return false;
    }
    same_rows(a.rows.as_slice(), b.rows.as_slice())
}

// Whether the prints of two programs are equal.
fn same_prints(a: &[Printed], b: &[Printed]) -> bool
    ensures { IsTrue result ↔ (a.now ≡ b.now) }
{
    if a.len() != b.len() {
        return false;
    }
    for i in 0..a.len() {
        if !same_printed(&a[i], &b[i]) {
            return false;
        }
    }
    true
}

// Whether two replies are equal.
fn same_reply(a: &Reply, b: &Reply) -> bool
    ensures { IsTrue result ↔ (a.now ≡ b.now) }
{
    match a {
        Reply::Done(prints) => match b {
            Reply::Done(others) => same_prints(prints.as_slice(), others.as_slice()),
            Reply::Refused(_) => false,
        },
        Reply::Refused(j) => match b {
            Reply::Done(_) => false,
            Reply::Refused(k) => *j == *k,
        },
    }
}

// Whether a reply is the one on the version of this number.
fn is_equal<R: Threads + Sync>(
    rt: &R,
    versions: &Versions,
    number: u64,
    reply: &Reply,
    asked: &Arc<Planned>,
) -> Result<bool, NoMemory>
    requires fits { MayCompare (arc_value asked.now) versions.now number }
    ensures { IfOk result (λ same. IsTrue same ↔ IsRight (arc_value asked.now) versions.now (number, reply.now)) }
{
    match versions.at(number) {
        None => Ok(false),
        Some(db) => {
            let own = answered(rt, db, asked)?;
            Ok(same_reply(reply, &own.1))
        }
    }
}

// One more, where it is so.
fn counted(count: u64, more: bool) -> u64
    requires { count < 2 ^ 64 - 1 }
    ensures more { more ≡ true → result ≡ count + 1 }
    ensures same { more ≡ false → result ≡ count }
{
    if more {
        return count + 1;
    }
    count
}

// How many of a reader's replies are those on their versions.
fn equal_of<R: Threads + Sync>(
    rt: &R,
    versions: &Versions,
    answers: &[(u64, Reply)],
    asked: &Arc<Planned>,
) -> Result<u64, NoMemory>
    requires fits { AllByRecursion (λ (answer : ℕ × ReplyType). MayCompare (arc_value asked.now) versions.now answer.0) answers.now }
    ensures { IfOk result (λ equal. CountsAll (IsRight (arc_value asked.now) versions.now) answers.now equal) }
{
    let mut equal = 0;
    for answer in answers {
        let same = is_equal(rt, versions, answer.0, &answer.1, asked)?;
        equal = counted(equal, same);
    }
    Ok(equal)
}

// A reader learns what was posted last: how many queries it made, and how many of its replies are those on their versions.
fn compare_one<R: Threads + Sync>(
    rt: &R,
    poster: &mut Poster,
    versions: &Versions,
    asker: Asker,
    asked: &Arc<Planned>,
) -> Result<(u64, u64), NoMemory>
    requires asked { HasAsked (arc_value asked.now) (poster_board poster.old) asker.reader asker.answers.items 16 }
    requires posted { IsAllPosted versions.now (posted poster.old) }
    requires ready { IsReady (arc_value asked.now) (posted poster.old) }
    ensures reads { IfOk result (λ out. out.0 ≡ 16) }
    ensures equal { IfOk result (λ out. out.1 ≡ 16) }
    ensures kept { poster.new ≡ poster.old }
{
    let mut asker = asker;
    let told = poster.told()?;
    asker.reader.learn(told);
    let answers = asker.answers.as_slice();
    let equal = equal_of(rt, versions, answers, asked)?;
    Ok((answers.len() as u64, equal))
}

/// How many queries the readers made, and how many of their replies are those on the versions that they name.
pub fn compare<R: Threads + Sync>(
    rt: &R,
    poster: &mut Poster,
    versions: &Versions,
    all: Vec<Result<Asker, NoMemory>>,
    asked: &Arc<Planned>,
) -> Result<(u64, u64), NoMemory>
    requires asked { AllByRecursion (IsAsked (arc_value asked.now) (poster_board poster.old)) all.items }
    requires few { length all.items ≤ 8 }
    requires posted { IsAllPosted versions.now (posted poster.old) }
    requires ready { IsReady (arc_value asked.now) (posted poster.old) }
    ensures reads { IfOk result (λ out. out.0 ≡ 16 * length all.items) }
    ensures equal { IfOk result (λ out. out.1 ≡ 16 * length all.items) }
{
    let mut reads = 0;
    let mut equal = 0;
    for one in all {
        let asker = one?;
        let read = compare_one(rt, poster, versions, asker, asked)?;
        reads += read.0;
        equal += read.1;
    }
    Ok((reads, equal))
}
