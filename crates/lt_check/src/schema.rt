//! The relations that are there.
ghost use Rattle.std.specs.Prelude.{◌≡◌, ◌≤◌, ◌<◌, ◌↔◌, ◌++◌, ◌∷◌, [], length, None, IfOk, IfSome, OnOk, OnErr, IsErrOf, IsSome, is_none, unwrap_or};
ghost use Rattle.std.specs.Str.{bytes_eq};
ghost use Rattle.lt_face.specs.Limits.{most_relations};
ghost use Rattle.lt_model.specs.Schema.{number_of, columns_of, keys_of};
ghost use Rattle.lt_check.specs.States.{HaveKeyColumns};

use lt_face::limits::MOST_RELATIONS;
use lt_face::memory::NoMemory;
use lt_model::kind::{Kind, KindList};
use lt_model::name::{Headings, Name};
use lt_model::texts::are_same;
use std::alloc::Global;
use std::marker::Model;

/// Why a relation was not declared.
#[derive(Clone, Copy, Debug, PartialEq, Eq)]
pub enum DeclareFault {
    /// A relation of this name is there: code 24.
    Taken,
    /// The name is new, and 64 relations are there: code 25.
    Full,
    NoMemory,
}

/// At most 64 relations by number, in order of declaration.
#[derive(Drop)]
pub struct Schema {
    headings: Headings,
}

impl Model for Schema {
    ghost use Rattle.std.specs.Prelude.{◌≤◌, length};
    ghost use Rattle.lt_face.specs.Limits.{most_relations};
    ghost use Rattle.lt_model.specs.Schema as model;
    ghost use Rattle.lt_check.specs.States.{HaveKeyColumns};

    ghost Value = { model.Schema };

    ghost view = { λ s. s.headings };

    ghost invariant = { λ s. (length s.headings ≤ most_relations) × HaveKeyColumns s.headings };
}

impl From<NoMemory> for DeclareFault {
    ghost use Rattle.lt_check.specs.declared.schema.DeclareFault.TheVariants as faults;
    ghost use Rattle.std.specs.Prelude.{◌≡◌};

    ghost from_gives = { λ _ e. e ≡ faults.NoMemory };

    fn from(_: NoMemory) -> DeclareFault {
        DeclareFault::NoMemory
    }
}

/// Whether the heading has this name.
fn is_named(heading: &(Name, KindList, u32), name: &Name) -> bool
    ensures { result ≡ bytes_eq heading.now.0 name.now }
{
    are_same(heading.0.as_bytes(), name.as_bytes())
}

impl Schema {
    /// No relations.
    pub fn new(alloc: Global) -> Schema
        ensures { result ≡ [] }
    {
        Schema {
            headings: Headings::new(alloc),
        }
    }

    /// The number of the relation of this name.
    pub fn find(&self, name: &Name) -> Option<u32>
        ensures { result ≡ number_of self.now name.now }
    {
        for (number, heading) in self.headings.as_slice().iter().enumerate() {
            if is_named(heading, name) {
                return Some(number as u32);
            }
        }
        None
    }

    /// The name of each relation with the kinds of its columns, and how many of these are key columns.
    pub fn headings(&self) -> &Headings
        ensures headings { result.now ≡ self.now }
        ensures bound { length self.now ≤ most_relations }
        ensures keyed { HaveKeyColumns self.now }
    {
        &self.headings
    }

    /// The kinds of a relation's columns, None where it isn't there.
    pub(crate) fn known_columns(&self, name: &Name) -> Option<&[Kind]>
        ensures there { is_none result ≡ is_none (number_of self.now name.now) }
        ensures columns { IfSome result (λ columns. columns.now ≡ columns_of self.now name.now) }
    {
        let number = self.find(name)?;
        Some(self.headings.as_slice()[number as usize].1.as_slice())
    }

    /// The number of a relation and the kinds of its columns: 0 and none where it isn't there.
    pub(crate) fn look_up(&self, name: &Name) -> (u32, &[Kind])
        ensures number { result.0 ≡ unwrap_or (number_of self.now name.now) 0 }
        ensures columns { result.1.now ≡ columns_of self.now name.now }
    {
        match self.find(name) {
            Some(number) => (
                number,
                self.headings.as_slice()[number as usize].1.as_slice(),
            ),
            None => (0, &[]),
        }
    }

    /// The kinds of a relation's columns, none where it isn't there.
    pub fn columns(&self, name: &Name) -> &[Kind]
        ensures { result.now ≡ columns_of self.now name.now }
    {
        match self.known_columns(name) {
            Some(columns) => columns,
            None => &[],
        }
    }

    /// How many key columns a relation has, None where it isn't there.
    fn known_keys(&self, name: &Name) -> Option<u32>
        ensures there { is_none result ≡ is_none (number_of self.now name.now) }
        ensures keys { IfSome result (λ keys. keys ≡ keys_of self.now name.now) }
    {
        let number = self.find(name)?;
        Some(self.headings.as_slice()[number as usize].2)
    }

    /// How many key columns a relation has, 0 where it isn't there.
    pub fn keys(&self, name: &Name) -> u32
        ensures { result ≡ keys_of self.now name.now }
    {
        match self.known_keys(name) {
            Some(keys) => keys,
            None => 0,
        }
    }

    /// One relation more, whose first columns are its key columns, so many as `keys` says, and its number. An error leaves the
    /// schema as it was.
    pub fn declare(&mut self, name: Name, kinds: KindList, keys: u32) -> Result<u32, DeclareFault>
        requires some { 1 ≤ keys }
        requires within { keys ≤ length kinds }
        ensures ok { IfOk result (λ number. (number ≡ length self.old) × (self.new ≡ self.old ++ (name, kinds, keys) ∷ [])) }
        ensures room { OnOk result (length self.old < most_relations) }
        ensures taken { IsErrOf result DeclareFault.Taken ↔ IsSome (number_of self.old name) }
        ensures full { IsErrOf result DeclareFault.Full ↔ ((number_of self.old name ≡ None) × (length self.old ≡ most_relations)) }
        ensures err { OnErr result (self.new ≡ self.old) }
    {
        if self.find(&name).is_some() {
            return Err(DeclareFault::Taken);
        }
        let number = self.headings.len();
        if number == MOST_RELATIONS {
            return Err(DeclareFault::Full);
        }
        self.headings.push((name, kinds, keys))?;
        Ok(number as u32)
    }
}
