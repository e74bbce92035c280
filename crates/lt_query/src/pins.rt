//! The keys that a level has to be each of.
ghost use Rattle.std.specs.Prelude.{◌≡◌, ◌++◌, [], ◌∷◌, length, map, OnOk, OnErr, IfOk, IsTrue};
ghost use Rattle.lt_model.specs.Forms.{put as put_cell};

use crate::filling::put;
use lt_face::key::Key;
use lt_face::memory::NoMemory;
use smallvec::SmallVec;
use std::alloc::Global;
use std::marker::Model;

/// The keys that a level has to be each of, which clauses see as a list. The first lies in the value itself, so that one alone
/// takes no memory.
#[derive(Drop)]
pub struct Pins {
    pins: SmallVec<Key, 1>,
}

impl Model for Pins {
    ghost use Rattle.std.specs.Prelude.{ℕ, List};

    ghost Value = { List ℕ };

    ghost view = { λ p. p.pins.items };
}

/// Makes each key the constant of the form's number at its place.
fn put_all(keys: &mut [Key], of_form: &[Key], cells: &[Key])
    requires { length keys.old ≡ length of_form.now }
    ensures { keys.new ≡ map (put_cell cells.now) of_form.now }
{
    for i in 0..of_form.len() {
        keys[i] = put(cells, of_form[i]);
    }
}

impl Pins {
    /// No pin.
    pub fn new(alloc: Global) -> Pins
        ensures { result ≡ [] }
    {
        Pins {
            pins: SmallVec::new(alloc),
        }
    }

    /// The pins in order.
    pub fn as_slice(&self) -> &[Key]
        ensures { result.now ≡ self.now }
    {
        self.pins.as_slice()
    }

    /// How many there are.
    pub fn len(&self) -> usize
        ensures { result ≡ length self.now }
    {
        self.pins.len()
    }

    /// One more at the end. Want of memory leaves the pins as they were.
    pub fn push(&mut self, pin: Key) -> Result<(), NoMemory>
        ensures ok { OnOk result (self.new ≡ self.old ++ pin ∷ []) }
        ensures err { OnErr result (self.new ≡ self.old) }
    {
        self.pins.push(pin)?;
        Ok(())
    }

    /// Equal pins.
    pub fn copy(&self) -> Result<Pins, NoMemory>
        ensures { IfOk result (λ copy. copy ≡ self.now) }
    {
        let pins = SmallVec::from_slice(*self.pins.allocator(), self.pins.as_slice())?;
        Ok(Pins { pins })
    }

    /// Makes them those of a form, with the k-th of these cells, from 1, for the number k. It takes no memory. False where there
    /// aren't as many.
    pub(crate) fn refill(&mut self, of_form: &[Key], cells: &[Key]) -> bool
        ensures { IsTrue result → self.new ≡ map (put_cell cells.now) of_form.now }
    {
        let keys = self.pins.as_mut_slice();
        if keys.len() != of_form.len() {
            return false;
        }
        put_all(keys, of_form, cells);
        true
    }
}
