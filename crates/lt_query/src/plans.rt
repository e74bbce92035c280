//! What a plan is.
ghost use Rattle.std.specs.Prelude.{◌≡◌, ◌<◌, length, IfOk};
ghost use Rattle.std.specs.List.{AllByRecursion};
ghost use Rattle.lt_query.specs.Holding.{atoms_at_level};
ghost use Rattle.lt_query.specs.Lists.{IsRising};

use crate::Term;
use crate::holders::Holders;
use crate::pins::Pins;
use lt_face::items::{Items, Perm};
use lt_face::memory::NoMemory;
use std::alloc::Global;
use std::marker::Model;
use std::sync::Arc;

/// A variable in the order of a plan. A constant of an atom is a variable of its own, and so is a second or later place of
/// a variable within one atom. The variable's key is the cell of the term. It has to be each of the pins, and the key of
/// each earlier level to which it is tied.
#[derive(Drop)]
pub struct Level {
    pub term: Term,
    pub pins: Pins,
    pub ties: Items<usize>,
}

/// How an atom is gone through: the level of each of its columns, and its columns in the order of their levels.
#[derive(Drop)]
pub struct Guide {
    pub relation: u32,
    pub places: Items<usize>,
    pub columns: Perm,
}

/// An order of the variables of a body's atoms, and how each atom is gone through in it.
#[derive(Drop)]
pub struct Plan {
    pub levels: Items<Level>,
    pub guides: Guides,
}

/// How the atoms of a body are gone through, in text order, and which of them hold each level. Plans of one shape share it.
#[derive(Drop)]
pub struct Guides {
    holders: Arc<Holders>,
}

impl Model for Guides {
    ghost use Rattle.std.specs.Prelude.{List};
    ghost use Rattle.std.specs.Arc.{arc_value};
    ghost use Rattle.lt_query.specs.declared.plans.Guide.{Guide};

    ghost Value = { List Guide };

    ghost view = { λ g. arc_value g.holders };
}

impl Guides {
    /// These guides.
    pub fn new(alloc: Global, guides: Items<Guide>) -> Result<Guides, NoMemory>
        ensures { IfOk result (λ shared. shared ≡ guides) }
    {
        let holders = Holders::new(alloc, guides)?;
        let holders = Arc::new(alloc, holders)?;
        Ok(Guides { holders })
    }

    /// A second owner.
    pub fn share(&self) -> Result<Guides, NoMemory>
        ensures { IfOk result (λ same. same ≡ self.now) }
    {
        let holders = self.holders.clone()?;
        Ok(Guides { holders })
    }

    /// The guides.
    pub fn as_slice(&self) -> &[Guide]
        ensures { result.now ≡ self.now }
    {
        self.holders.as_slice()
    }

    /// How many there are.
    pub fn len(&self) -> usize
        ensures { result ≡ length self.now }
    {
        self.holders.len()
    }

    /// The places, ascending, of the guides that hold a level: one of whose columns is at it.
    #[inline]
    pub fn at_level(&self, level: usize) -> &[usize]
        ensures value { result.now ≡ atoms_at_level self.now level }
        ensures within { AllByRecursion (λ i. i < length self.now) result.now }
        ensures rising { IsRising result.now }
    {
        self.holders.at_level(level)
    }
}

/// What bodies of one shape share: the place where each level's term stands, and the guides.
#[derive(Drop)]
pub struct Route {
    pub order: Items<usize>,
    pub guides: Guides,
}

/// An index of a relation, told by the order of its columns.
#[derive(Drop)]
pub struct IndexName {
    pub relation: u32,
    pub columns: Perm,
}

/// The indexes that plans go through.
pub type Perms = Items<IndexName>;
