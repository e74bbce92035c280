//! A list that clauses see as its elements.
ghost use Rattle.std.specs.Prelude.{◌≡◌, ◌<◌, ◌-◌, ◌++◌, [], ◌∷◌, length, OnOk, OnErr, IfOk, take};

use crate::memory::NoMemory;
use crate::row::Row;
use std::alloc::Global;
use std::marker::Model;

/// A list, which clauses see as its elements. It keeps its allocator.
#[derive(Drop)]
pub struct Items<T: Drop> {
    items: Vec<T>,
}

/// Rows.
pub type RowList = Items<Row>;

/// Column numbers, from 0: which column of a relation each column of an index is.
pub type Perm = Items<u32>;

/// Rows, each with its relation.
pub type Changes = Items<(u32, Row)>;

impl<T: Drop> Model for Items<T> {
    ghost use Rattle.std.specs.Prelude.{List};

    ghost Value = { List T };

    ghost view = { λ t. t.items.items };
}

impl<T: Drop> Items<T> {
    /// An empty list.
    pub fn new(alloc: Global) -> Items<T>
        ensures { result ≡ [] }
    {
        Items {
            items: Vec::new(alloc),
        }
    }

    /// The elements of a vector.
    pub fn from_vec(items: Vec<T>) -> Items<T>
        ensures { result ≡ items.items }
    {
        Items { items }
    }

    /// The elements as a vector.
    pub fn into_vec(self) -> Vec<T>
        ensures { result.items ≡ self }
    {
        let Items { items } = self;
        items
    }

    /// The elements in order.
    pub fn as_slice(&self) -> &[T]
        ensures { result.now ≡ self.now }
    {
        &self.items
    }

    /// How many elements there are.
    pub fn len(&self) -> usize
        ensures { result ≡ length self.now }
    {
        self.items.len()
    }

    /// One more at the end. Want of memory leaves the list as it was.
    pub fn push(&mut self, x: T) -> Result<(), NoMemory>
        ensures ok { OnOk result (self.new ≡ self.old ++ x ∷ []) }
        ensures err { OnErr result (self.new ≡ self.old) }
    {
        self.items.push(x)?;
        Ok(())
    }

    /// Takes the last away. There has to be one.
    pub fn pop(&mut self)
        requires { 0 < length self.old }
        ensures { self.new ≡ take (length self.old - 1) self.old }
    {
        self.items.pop();
    }

    /// What the list takes its memory from.
    pub fn allocator(&self) -> Global {
        *self.items.allocator()
    }

    /// An equal list.
    pub fn copy(&self) -> Result<Items<T>, NoMemory>
    where
        T: Copy,
        ensures { IfOk result (λ copy. copy ≡ self.now) }
    {
        let items = Vec::from_slice(self.allocator(), &self.items)?;
        Ok(Items { items })
    }
}
