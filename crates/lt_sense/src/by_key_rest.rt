//! Ranges that are of one key, whatever the cells of their rows. They are put in order as soon as they are known, and shared by all
//! that keep them.
ghost use Rattle.std.specs.Prelude.{◌≡◌, IfOk, OnOk};
ghost use Rattle.std.specs.List.{AllByRecursion};
ghost use Rattle.lt_sense.specs.ByKeyTold.{RestAll};
ghost use Rattle.lt_sense.specs.Done.{IsDone};
ghost use Rattle.lt_sense.specs.Gathered.{ranges_in};
ghost use Rattle.lt_sense.specs.Spans.{have, HaveSameRows, IsSpans};

use crate::sense::{finish_all, have_counted, weight_of};
use crate::spans::Spans;
use lt_face::key::Key;
use lt_face::memory::NoMemory;
use lt_face::moves::Moves;
use lt_face::row::Row;
use std::alloc::Global;
use std::marker::Model;
use std::sync::Arc;

/// Whether a range of these lists has the row.
pub(crate) fn have_done(lists: &Vec<Spans>, relation: u32, row: &Row) -> bool
    requires { AllByRecursion IsDone lists.now.items }
    ensures { result ≡ have (ranges_in lists.now.items) relation row.now }
{
    let mut steps: Moves<()> = Moves::new();
    have_counted(lists, relation, row, &mut steps)
}

/// Ranges of a key, which several may own.
#[derive(Drop)]
pub struct KeyLists {
    key: Key,
    lists: Arc<Vec<Spans>>,
}

impl Model for KeyLists {
    ghost use Rattle.std.specs.Arc.{arc_value};
    ghost use Rattle.std.specs.List.{AllByRecursion};
    ghost use Rattle.lt_sense.specs.ByKeyRest.{KeyLists as KeyListsView};
    ghost use Rattle.lt_sense.specs.Done.{IsDone};

    ghost Value = { KeyListsView };

    ghost view = { λ p. record { key = p.key; lists = (arc_value p.lists).items } };

    ghost invariant = { λ p. AllByRecursion IsDone (arc_value p.lists).items };
}

impl KeyLists {
    /// The ranges of a key, put in order. They have one owner.
    pub(crate) fn new(alloc: Global, key: Key, lists: Vec<Spans>) -> Result<KeyLists, NoMemory>
        requires { AllByRecursion IsSpans lists.items }
        ensures key { IfOk result (λ part. part.key ≡ key) }
        ensures rows { IfOk result (λ part. HaveSameRows (ranges_in part.lists) (ranges_in lists.items)) }
    {
        let mut lists = lists;
        finish_all(&mut lists)?;
        let lists = Arc::new(alloc, lists)?;
        Ok(KeyLists { key, lists })
    }

    /// A second owner of the same ranges.
    pub(crate) fn share(&self) -> Result<KeyLists, NoMemory>
        ensures { IfOk result (λ shared. shared ≡ self.now) }
    {
        let lists = self.lists.clone()?;
        Ok(KeyLists {
            key: self.key,
            lists,
        })
    }

    /// The key.
    pub(crate) fn key(&self) -> Key
        ensures { result ≡ self.now.key }
    {
        self.key
    }

    /// Whether a range of the key has the row.
    pub(crate) fn has(&self, relation: u32, row: &Row) -> bool
        ensures { result ≡ have (ranges_in self.now.lists) relation row.now }
    {
        have_done(&self.lists, relation, row)
    }

    /// How many ranges it has, for choices of time alone.
    pub(crate) fn weight(&self) -> usize {
        weight_of(&self.lists)
    }
}

/// Adds what others have.
pub(crate) fn add_rest(rest: &mut Vec<KeyLists>, others: &Vec<KeyLists>) -> Result<(), NoMemory>
    ensures { OnOk result (RestAll rest.old.items rest.new.items others.now.items) }
{
    for i in 0..others.len() {
        let part = others[i].share()?;
        rest.push(part)?;
    }
    Ok(())
}
