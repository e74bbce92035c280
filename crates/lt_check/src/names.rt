//! The numbers of a statement's variables.
ghost use Rattle.std.specs.Prelude.{◌≡◌, ◌++◌, ◌∷◌, [], length, position, IfOk};
ghost use Rattle.std.specs.Str.{bytes_eq};
ghost use Rattle.lt_model.specs.Variables.{place_of};
ghost use Rattle.lt_check.specs.Seen.{seen};

use lt_face::memory::NoMemory;
use lt_model::name::Name;
use lt_model::texts::are_same;
use std::alloc::Global;
use std::marker::Model;

/// Names by number.
#[derive(Drop)]
pub struct Names<'a> {
    names: Vec<&'a [u8]>,
}

impl<'a> Model for Names<'a> {
    ghost use Rattle.std.specs.Prelude.{ℕ, List};
    ghost use Rattle.lt_check.specs.Seen.{seen};

    ghost Value = { List (List ℕ) };

    ghost view = { λ n. seen n.names.items };
}

impl<'a> Names<'a> {
    /// No names.
    pub fn new(alloc: Global) -> Names<'a>
        ensures { result ≡ [] }
    {
        Names {
            names: Vec::new(alloc),
        }
    }

    /// Gives up all names, and keeps their room.
    pub fn clear(&mut self)
        ensures { self.new ≡ [] }
    {
        self.names.clear();
    }

    /// Adds a name at the end.
    pub fn add(&mut self, name: &'a Name) -> Result<(), NoMemory>
        ensures { IfOk result (λ _. self.new ≡ self.old ++ name.now ∷ []) }
    {
        self.names.push(name.as_bytes())?;
        Ok(())
    }

    /// How many there are.
    pub fn count(&self) -> usize
        ensures { result ≡ length self.now }
    {
        self.names.len()
    }

    /// The names by number.
    pub fn as_slice(&self) -> &[&'a [u8]]
        ensures { seen result.now ≡ self.now }
    {
        &self.names
    }

    /// Where the name of these bytes stands, if it is there.
    pub fn find(&self, name: &[u8]) -> Option<usize>
        ensures { result ≡ position (bytes_eq name.now) self.now }
    {
        for (place, known) in self.names.iter().enumerate() {
            if are_same(name, *known) {
                return Some(place);
            }
        }
        None
    }

    /// Where a name stands, if it is there.
    pub fn find_name(&self, name: &Name) -> Option<usize>
        ensures { result ≡ position (bytes_eq name.now) self.now }
    {
        self.find(name.as_bytes())
    }

    /// The place of the name of these bytes, 0 where it isn't there.
    pub fn place_of(&self, name: &[u8]) -> usize
        ensures { result ≡ place_of self.now name.now }
    {
        self.find(name).unwrap_or(0)
    }

    /// A name's place, 0 where it isn't there.
    pub fn place_of_name(&self, name: &Name) -> usize
        ensures { result ≡ place_of self.now name.now }
    {
        self.place_of(name.as_bytes())
    }
}
