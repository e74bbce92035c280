//! Guides, and for each level those that hold it.
ghost use Rattle.std.specs.Prelude.{◌≡◌, ◌≤◌, ◌<◌, ◌++◌, length, IfOk, OnOk};
ghost use Rattle.std.specs.List.{AllByRecursion, slice_range};
ghost use Rattle.lt_query.specs.Holding.{holds_level, atoms_at_level, atoms_below, parts_below, AreBelow};

use crate::Guide;
use lt_face::items::Items;
use lt_face::memory::NoMemory;
use std::alloc::Global;
use std::marker::Model;

/// Whether one of the guide's columns is at the level.
fn holds(guide: &Guide, level: usize) -> bool
    ensures { result ≡ holds_level level guide.now }
{
    guide.places.as_slice().contains(&level)
}

/// The count, or one more than the level, if that is more.
fn above(count: usize, level: usize) -> Result<usize, NoMemory>
    ensures at_least { IfOk result (λ n. count ≤ n) }
    ensures above { IfOk result (λ n. level < n) }
{
    if level < count {
        return Ok(count);
    }
    match level.checked_add(1) {
        Some(next) => Ok(next),
        None => Err(NoMemory),
    }
}

/// The count, or one more than the greatest of the levels, if that is more.
fn above_all(count: usize, levels: &[usize]) -> Result<usize, NoMemory>
    ensures at_least { IfOk result (λ n. count ≤ n) }
    ensures above { IfOk result (λ n. AllByRecursion (λ l. l < n) levels.now) }
{
    let mut most = count;
    for level in levels {
        most = above(most, *level)?;
    }
    Ok(most)
}

/// How many levels the guides have. No memory holds as many as there are numbers.
fn count_levels(guides: &[Guide]) -> Result<usize, NoMemory>
    ensures { IfOk result (λ n. AreBelow n guides.now) }
{
    let mut count = 0;
    for guide in guides {
        count = above_all(count, guide.places.as_slice())?;
    }
    Ok(count)
}

/// Adds the places of the guides that hold the level.
fn add_places(places: &mut Vec<usize>, guides: &[Guide], level: usize) -> Result<(), NoMemory>
    ensures { OnOk result (places.new.items ≡ places.old.items ++ atoms_at_level guides.now level) }
{
    for i in 0..guides.len() {
        if holds(&guides[i], level) {
            places.push(i)?;
        }
    }
    Ok(())
}

/// Where the places for a level begin and end.
#[derive(Clone, Copy)]
struct Part {
    from: usize,
    to: usize,
}

/// The places of the guides that hold the levels, one level after another.
#[derive(Drop)]
struct Table {
    parts: Vec<Part>,
    places: Vec<usize>,
}

/// The table of so many levels.
fn table_of(alloc: Global, guides: &[Guide], count: usize) -> Result<Table, NoMemory>
    ensures parts { IfOk result (λ table. table.parts.items ≡ parts_below guides.now count) }
    ensures places { IfOk result (λ table. table.places.items ≡ atoms_below guides.now count) }
{
    let mut parts = Vec::with_capacity(alloc, count)?;
    let mut places = Vec::with_capacity(alloc, count)?;
    for level in 0..count {
        let from = places.len();
        add_places(&mut places, guides, level)?;
        let to = places.len();
        parts.push(Part { from, to })?;
    }
    Ok(Table { parts, places })
}

/// The places of one level.
#[inline]
fn part_in(places: &[usize], part: Part) -> &[usize]
    requires { (part.from ≤ part.to) × (part.to ≤ length places.now) }
    ensures { result.now ≡ slice_range places.now part.from part.to }
{
    &places[part.from..part.to]
}

/// Guides, with the places of those that hold each level.
#[derive(Drop)]
pub(crate) struct Holders {
    guides: Items<Guide>,
    parts: Vec<Part>,
    places: Vec<usize>,
}

impl Model for Holders {
    ghost use Rattle.std.specs.Prelude.{List};
    ghost use Rattle.lt_query.specs.declared.plans.Guide.{Guide};
    ghost use Rattle.lt_query.specs.Holding.{AreKept};

    ghost Value = { List Guide };

    ghost view = { λ h. h.guides };

    ghost invariant = { λ h. AreKept h.guides h.parts.items h.places.items };
}

impl Holders {
    /// These guides.
    pub(crate) fn new(alloc: Global, guides: Items<Guide>) -> Result<Holders, NoMemory>
        ensures { IfOk result (λ holders. holders ≡ guides) }
    {
        let count = count_levels(guides.as_slice())?;
        let made = table_of(alloc, guides.as_slice(), count)?;
        let Table { parts, places } = made;
        Ok(Holders {
            guides,
            parts,
            places,
        })
    }

    /// The guides.
    pub(crate) fn as_slice(&self) -> &[Guide]
        ensures { result.now ≡ self.now }
    {
        self.guides.as_slice()
    }

    /// How many there are.
    pub(crate) fn len(&self) -> usize
        ensures { result ≡ length self.now }
    {
        self.guides.len()
    }

    /// The places of the guides that hold the level, ascending.
    #[inline]
    pub(crate) fn at_level(&self, level: usize) -> &[usize]
        ensures { result.now ≡ atoms_at_level self.now level }
    {
        if level >= self.parts.len() {
            return &[];
        }
        let part = self.parts[level];
        part_in(&self.places, part)
    }
}
