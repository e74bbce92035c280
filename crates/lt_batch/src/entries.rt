//! Entries that are done on a circuit, and the jobs that its workers hold meanwhile.
ghost use Rattle.std.specs.Prelude.{◌≡◌, ◌%◌, ◌<◌, ◌↔◌, ℕ, [], Some, None, map, length, slice_index_or, slice_set, IsTrue, IfOk, IfErr, IfSome, IfNone, OnOk};
ghost use Rattle.lt_face.specs.Limits.{most_workers};
ghost use Rattle.lt_net.specs.Net.{IsSettled, opening};
ghost use Rattle.lt_circuit.specs.Board.{table};
ghost use Rattle.lt_circuit.specs.Circuit.{state};
ghost use Rattle.lt_circuit.specs.Job.{name_of_job};
ghost use Rattle.lt_circuit.specs.Shape.{shape, shape_net};
ghost use Rattle.lt_batch.specs.Held.{AreHeld, IsGone, IsJob};
ghost use Rattle.lt_batch.specs.Replaying.{IsFault, LeadTo, written_of};
ghost use Rattle.lt_batch.specs.declared.replaying.ReplayFault.TheVariants.{Entry as EntryFault};

use crate::replaying::{ReplayFault, Written};
use lt_circuit::{Circuit, Job, JobName, LeafWork, This};
use lt_face::limits::MOST_WORKERS;
use lt_face::memory::NoMemory;
use lt_face::moves::Moves;
use std::alloc::Global;

/// No worker holds a job.
fn empty_hands<W: LeafWork>(alloc: Global) -> Result<Vec<Option<Job<W>>>, NoMemory>
    ensures { IfOk result (λ hands. hands.items ≡ table (λ _. None) most_workers) }
{
    let mut hands = Vec::with_capacity(alloc, MOST_WORKERS)?;
    for _worker in 0..MOST_WORKERS {
        hands.push(None)?;
    }
    Ok(hands)
}

/// Whether it is the job of this name.
fn is_job<W: LeafWork>(hand: &Option<Job<W>>, name: JobName) -> bool
    ensures { IsTrue result ↔ IsJob name hand.now }
{
    match hand {
        Some(job) => job.name() == name,
        None => false,
    }
}

/// The worker's job, where it is the one of this name. It leaves the worker's hand.
fn taken<W: LeafWork>(hands: &mut Vec<Option<Job<W>>>, worker: u32, name: JobName) -> Option<Job<W>>
    requires { worker < length hands.old.items }
    ensures some { IfSome result (λ job. slice_index_or hands.old.items worker None ≡ Some job) }
    ensures name { IfSome result (λ job. name_of_job job ≡ name) }
    ensures hands { IfSome result (λ _. hands.new.items ≡ slice_set hands.old.items worker None) }
    ensures none { IfNone result (IsJob name (slice_index_or hands.old.items worker None) → ⊥) }
{
    if !is_job(&hands[worker as usize], name) {
        return None;
    }
    hands[worker as usize].take()
}

/// The worker claims the job. It tells whether that is legal.
fn claim<W: LeafWork>(
    circuit: &mut Circuit<W>,
    hands: &mut Vec<Option<Job<W>>>,
    entry: Written,
) -> Result<bool, NoMemory>
    requires worker { entry.worker < most_workers }
    requires kind { entry.code % 3 ≡ 0 }
    requires held { AreHeld circuit.old hands.old.items }
    ensures { IfOk result (IsGone W.does circuit.old circuit.new hands.new.items entry) }
{
    if hands[entry.worker as usize].is_some() {
        return Ok(false);
    }
    match circuit.claim_this(entry.worker, entry.code / 3) {
        This::Job(job) => {
            hands[entry.worker as usize] = Some(job);
            Ok(true)
        }
        This::NotPending => Ok(false),
        This::NoMemory => Err(NoMemory),
    }
}

/// The worker does its job. It tells whether that is legal.
fn finish<W: LeafWork>(
    circuit: &mut Circuit<W>,
    hands: &mut Vec<Option<Job<W>>>,
    entry: Written,
) -> Result<bool, NoMemory>
    requires worker { entry.worker < most_workers }
    requires kind { entry.code % 3 ≡ 1 }
    requires held { AreHeld circuit.old hands.old.items }
    ensures { IfOk result (IsGone W.does circuit.old circuit.new hands.new.items entry) }
{
    match taken(hands, entry.worker, JobName::of(entry.code / 3)) {
        Some(job) => {
            let mut moves: Moves<()> = Moves::new();
            match job.work(&mut moves) {
                Ok(output) => {
                    drop(circuit.finish(entry.worker, output));
                    Ok(true)
                }
                Err(_job) => Err(NoMemory),
            }
        }
        None => Ok(false),
    }
}

/// The worker gives its job up. It tells whether that is legal.
fn abandon<W: LeafWork>(
    circuit: &mut Circuit<W>,
    hands: &mut Vec<Option<Job<W>>>,
    entry: Written,
) -> bool
    requires worker { entry.worker < most_workers }
    requires kind { entry.code % 3 ≡ 2 }
    requires held { AreHeld circuit.old hands.old.items }
    ensures { IsGone W.does circuit.old circuit.new hands.new.items entry result }
{
    match taken(hands, entry.worker, JobName::of(entry.code / 3)) {
        Some(job) => {
            drop(circuit.abandon(entry.worker, job));
            true
        }
        None => false,
    }
}

/// Does what one entry tells. It tells whether that is legal.
fn go<W: LeafWork>(
    circuit: &mut Circuit<W>,
    hands: &mut Vec<Option<Job<W>>>,
    entry: Written,
) -> Result<bool, NoMemory>
    requires { AreHeld circuit.old hands.old.items }
    ensures { IfOk result (IsGone W.does circuit.old circuit.new hands.new.items entry) }
{
    if entry.worker as usize >= MOST_WORKERS {
        return Ok(false);
    }
    if entry.code % 3 == 0 {
        return claim(circuit, hands, entry);
    }
    if entry.code % 3 == 1 {
        return finish(circuit, hands, entry);
    }
    let is_legal = abandon(circuit, hands, entry);
    Ok(is_legal)
}

/// Does what the entries tell, in their order, on a circuit at its opening. The first that isn't legal ends it.
fn go_through<W: LeafWork>(
    alloc: Global,
    circuit: &mut Circuit<W>,
    entries: &[Written],
) -> Result<(), ReplayFault>
    requires opening { state circuit.old ≡ opening (shape_net (shape W.does circuit.old)) }
    requires empty { circuit.old.journal ≡ [] }
    ensures same { OnOk result (shape W.does circuit.new ≡ shape W.does circuit.old) }
    ensures legal { OnOk result (LeadTo (shape_net (shape W.does circuit.old)) entries.now (state circuit.new)) }
    ensures journal { OnOk result (map written_of circuit.new.journal ≡ entries.now) }
    ensures fault { IfErr result (λ fault. (e : ℕ) → fault ≡ EntryFault e → IsFault (shape_net (shape W.does circuit.old)) entries.now e) }
{
    let mut hands = empty_hands(alloc)?;
    for i in 0..entries.len() {
        let is_legal = go(circuit, &mut hands, entries[i])?;
        if !is_legal {
            return Err(ReplayFault::Entry { e: i as u64 + 1 });
        }
    }
    Ok(())
}

/// Does what the entries tell, in their order, on a circuit at its opening, and settles it so. A fault comes at the first that isn't
/// legal, or behind the last where the circuit isn't settled.
pub(crate) fn follow<W: LeafWork>(
    alloc: Global,
    circuit: &mut Circuit<W>,
    entries: &[Written],
) -> Result<(), ReplayFault>
    requires opening { state circuit.old ≡ opening (shape_net (shape W.does circuit.old)) }
    requires empty { circuit.old.journal ≡ [] }
    ensures same { OnOk result (shape W.does circuit.new ≡ shape W.does circuit.old) }
    ensures settled { OnOk result (IsSettled (state circuit.new)) }
    ensures legal { OnOk result (LeadTo (shape_net (shape W.does circuit.old)) entries.now (state circuit.new)) }
    ensures journal { OnOk result (map written_of circuit.new.journal ≡ entries.now) }
    ensures fault { IfErr result (λ fault. (e : ℕ) → fault ≡ EntryFault e → IsFault (shape_net (shape W.does circuit.old)) entries.now e) }
{
    go_through(alloc, circuit, entries)?;
    let is_settled = circuit.settled();
    if is_settled {
        return Ok(());
    }
    Err(ReplayFault::Entry {
        e: entries.len() as u64 + 1,
    })
}
