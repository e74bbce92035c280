//! `Versions`: the databases that were published.
ghost use Rattle.std.specs.Prelude.{◌≡◌, ◌+◌, ◌-◌, ◌^◌, ◌<◌, ◌≤◌, ◌↔◌, ◌++◌, ◌∷◌, [], length, slice_get, Some, IfOk, IsSome, OnOk, OnErr};
ghost use Rattle.std.specs.Option.{option_copied};

use lt_base::Database;
use lt_face::memory::NoMemory;
use std::alloc::Global;
use std::marker::Model;

/// The databases that were published, by number. Version 0 has no relations.
#[derive(Drop)]
pub struct Versions {
    databases: Vec<Database>,
}

impl Model for Versions {
    ghost use Rattle.std.specs.Prelude.{◌≤◌, List, length};
    ghost use Rattle.lt_base.specs.Tables.{Table};

    ghost Value = { List (List Table) };

    ghost view = { λ v. v.databases.items };

    ghost invariant = { λ v. 1 ≤ length v.databases.items };
}

impl Versions {
    /// Version 0 alone: the database without relations.
    pub fn new(alloc: Global) -> Result<Versions, NoMemory>
        ensures { IfOk result (λ versions. versions ≡ [] ∷ []) }
    {
        let mut databases = Vec::new(alloc);
        databases.push(Database::empty(alloc))?;
        Ok(Versions { databases })
    }

    /// Makes the database the next version, and answers its number: one more than that of the last. Want of memory leaves
    /// the versions as they were.
    pub fn publish(&mut self, database: Database) -> Result<u64, NoMemory>
        ensures ok { OnOk result (self.new ≡ self.old ++ database ∷ []) }
        ensures number { IfOk result (λ number. number ≡ length self.old) }
        ensures err { OnErr result (self.new ≡ self.old) }
    {
        let number = self.databases.len() as u64;
        self.databases.push(database)?;
        Ok(number)
    }

    /// The database of this number; None exactly where the number is greater than the last.
    pub fn at(&self, number: u64) -> Option<&Database>
        ensures value { option_copied result ≡ slice_get self.now number }
        ensures there { IsSome result ↔ (number < length self.now) }
    {
        self.databases.get(number as usize)
    }

    /// The last number, and its database.
    pub fn latest(&self) -> (u64, &Database)
        ensures number { result.0 + 1 ≡ length self.now }
        ensures next_fits { result.0 < 2 ^ 64 - 1 }
        ensures database { slice_get self.now result.0 ≡ Some result.1.now }
    {
        let last = self.databases.len() - 1;
        (last as u64, &self.databases[last])
    }
}
