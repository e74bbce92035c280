//! What the check of a batch's programs gave, and the lines of what they answered.
ghost use Rattle.std.specs.Prelude.{◌≡◌, [], ◌∷◌, ◌++◌, map, filter_map, IfOk, OnOk};
ghost use Rattle.std.specs.Arc.{arc_value};
ghost use Rattle.std.specs.List.{AllByRecursion};
ghost use Rattle.lt_model.specs.Report.{batch_text, done_text, good_of, version_text};
ghost use Rattle.lt_program.specs.Run.{AreReplied};
ghost use Rattle.lt_report.specs.Headed.{IsHeaded};
ghost use Rattle.lt_report.specs.Puts.{Puts};
ghost use Rattle.lt_world.specs.Batches.{checked_of, HasAnswers, told};

use lt_batch::{Effects, Replies};
use lt_delta::Marks;
use lt_edges::{Failed, Sink};
use lt_face::NoMemory;
use lt_model::name::{Headings, Name};
use lt_model::reply::Reply;
use lt_model::syntax::Program;
use lt_query::Planned;
use lt_report::{put_bad_program, put_batch, put_marks, put_reply, put_version};
use std::alloc::Global;
use std::sync::Arc;

/// What the check of a program gave: the program in normal form, or its code and the number of the statement that has it.
#[derive(Drop)]
pub enum Judgement {
    Good(Arc<Planned>),
    Bad { code: u32, statement: u32 },
}

/// What a batch did: its number, what the check of each program gave, and of those without a code the replies, and the marks, where
/// these were asked for.
#[derive(Drop)]
pub struct Ran {
    pub number: u64,
    pub judgements: Vec<Judgement>,
    pub replies: Replies,
    pub effects: Effects,
}

// A second owner of the program, where it has no code.
fn push_good(good: &mut Vec<Arc<Planned>>, judgement: &Judgement) -> Result<(), NoMemory>
    ensures { OnOk result (map arc_value good.new.items ≡ map arc_value good.old.items ++ filter_map good_of (checked_of judgement.now ∷ [])) }
{
    match judgement {
        Judgement::Good(prog) => {
            let prog = prog.clone()?;
            good.push(prog)?;
            Ok(())
        }
        Judgement::Bad { .. } => Ok(()),
    }
}

/// The programs that have no code, with second owners.
pub fn good_ones(alloc: Global, judgements: &[Judgement]) -> Result<Vec<Arc<Planned>>, NoMemory>
    ensures { IfOk result (λ good. map arc_value good.items ≡ filter_map good_of (map checked_of judgements.now)) }
{
    let mut good = Vec::with_capacity(alloc, judgements.len())?;
    for judgement in judgements {
        push_good(&mut good, judgement)?;
    }
    Ok(good)
}

// What a program without a code answered, and what it wrote, where the marks are asked for.
fn put_done<K: Sink>(
    sink: &mut K,
    name: &Name,
    reply: &Reply,
    effect: &Marks,
    headings: &Headings,
    marks: bool,
) -> Result<(), Failed>
    requires replied { AreReplied reply.now }
    requires headed { AllByRecursion (IsHeaded headings.now) effect.now }
    ensures { Puts result (K.holds sink.old) (K.holds sink.new) (K.faults sink.old) (K.faults sink.new) (done_text marks headings.now name.now (reply.now, effect.now)) }
{
    put_reply(sink, name, reply)?;
    if marks {
        return put_marks(sink, effect, headings);
    }
    Ok(())
}

// The lines of the programs in batch order. Those without a code take their replies and marks from the lists.
fn put_programs<K: Sink>(
    sink: &mut K,
    programs: &[Program],
    judgements: &[Judgement],
    replies: &[Reply],
    effects: &[Marks],
    headings: &Headings,
    marks: bool,
) -> Result<(), Failed>
    requires { HasAnswers headings.now programs.now judgements.now replies.now effects.now }
    ensures { Puts result (K.holds sink.old) (K.holds sink.new) (K.faults sink.old) (K.faults sink.new) (told marks headings.now programs.now (map checked_of judgements.now) replies.now effects.now) }
{
    let mut next = 0;
    for (i, program) in programs.iter().enumerate() {
        match &judgements[i] {
            Judgement::Good(_) => {
                let reply = &replies[next];
                put_done(sink, &program.name, reply, &effects[next], headings, marks)?;
                next += 1;
            }
            Judgement::Bad { code, statement } => {
                put_bad_program(sink, &program.name, *code, *statement)?;
            }
        }
    }
    Ok(())
}

/// The lines of the batch with this number: its programs in batch order, and its version.
pub fn put_answers<K: Sink>(
    sink: &mut K,
    number: u64,
    programs: &[Program],
    judgements: &[Judgement],
    replies: &Replies,
    effects: &Effects,
    headings: &Headings,
    marks: bool,
) -> Result<(), Failed>
    requires { HasAnswers headings.now programs.now judgements.now replies.now effects.now }
    ensures { Puts result (K.holds sink.old) (K.holds sink.new) (K.faults sink.old) (K.faults sink.new) (batch_text number ++ told marks headings.now programs.now (map checked_of judgements.now) replies.now effects.now ++ version_text number) }
{
    put_batch(sink, number)?;
    let replies = replies.as_slice();
    let effects = effects.as_slice();
    put_programs(
        sink, programs, judgements, replies, effects, headings, marks,
    )?;
    put_version(sink, number)
}

/// The lines of a batch: its number, its programs in batch order, and its version, which has the same number.
pub fn put_ran<K: Sink>(
    sink: &mut K,
    programs: &[Program],
    ran: &Ran,
    headings: &Headings,
    marks: bool,
) -> Result<(), Failed>
    requires { HasAnswers headings.now programs.now ran.now.judgements.items ran.now.replies ran.now.effects }
    ensures { Puts result (K.holds sink.old) (K.holds sink.new) (K.faults sink.old) (K.faults sink.new) (batch_text ran.now.number ++ told marks headings.now programs.now (map checked_of ran.now.judgements.items) ran.now.replies ran.now.effects ++ version_text ran.now.number) }
{
    put_answers(
        sink,
        ran.number,
        programs,
        &ran.judgements,
        &ran.replies,
        &ran.effects,
        headings,
        marks,
    )
}
