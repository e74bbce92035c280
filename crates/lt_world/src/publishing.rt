//! Versions that are published while a line of batches runs.
ghost use Rattle.std.specs.Prelude.{◌≡◌, ◌++◌, List, [], map};
ghost use Rattle.lt_face.specs.State.{State};
ghost use Rattle.lt_model.specs.Fits.{FitMarks};
ghost use Rattle.lt_base.specs.Tables.{state_of};
ghost use Rattle.lt_batch.specs.Line.{states_by};

use lt_base::Database;
use lt_delta::Marks;
use lt_face::NoMemory;
use lt_versions::Versions;
use lt_workers::OnFinal;
use std::alloc::Global;
use std::marker::{Brand, Model, PhantomData};
use std::sync::Wait;
use std::thread::Threads;

/// Where publishing begins: the state of the database, and the versions that were made before. Each call picks them.
pub trait Start {
    ghost state: { State };

    ghost versions: { List State };
}

impl Start for Brand {
    ghost state = { [] };

    ghost versions = { [] };
}

/// What is published as a line of batches runs: the database that the batches have left so far, and the versions with theirs. It
/// keeps what each batch wrote.
#[derive(Drop)]
pub struct Publisher<B: Start> {
    database: Database,
    versions: Versions,
    given: Vec<Marks>,
    of: PhantomData<B>,
}

impl<B: Start> Model for Publisher<B> {
    ghost use Rattle.std.specs.Prelude.{◌++◌, List};
    ghost use Rattle.lt_world.specs.Publishing.{IsPublished, Published};

    ghost Value = { Published };

    ghost view = { λ p. record { database = p.database; versions = p.versions; given = p.given.items } };

    ghost invariant = { λ p. IsPublished B.state B.versions p.database p.versions p.given.items };
}

impl<B: Start> Publisher<B> {
    /// The database and the versions where publishing begins.
    pub fn new(alloc: Global, database: Database, versions: Versions) -> Publisher<B>
        requires state { state_of database ≡ B.state }
        requires versions { map state_of versions ≡ B.versions }
        ensures database { result.database ≡ database }
        ensures versions { result.versions ≡ versions }
        ensures given { result.given ≡ [] }
    {
        Publisher {
            database,
            versions,
            given: Vec::new(alloc),
            of: PhantomData,
        }
    }

    /// The versions.
    pub fn into_versions(self) -> Versions
        ensures { map state_of result ≡ B.versions ++ states_by B.state self.given }
    {
        let Publisher { versions, .. } = self;
        versions
    }
}

impl<B: Start> OnFinal for Publisher<B> {
    ghost fits = { λ p marks. FitMarks (state_of p.database) marks };

    ghost given = { λ p. p.given };

    /// Makes what the batch left the next version.
    fn on_final<R: Threads + Wait + Sync>(
        &mut self,
        _rt: &R,
        _segment: u32,
        effect: &Marks,
    ) -> Result<(), NoMemory> {
        let marks = effect.share()?;
        let mut database = self.database.share()?;
        database.lay(effect)?;
        let version = database.share()?;
        self.given.push(marks)?;
        match self.versions.publish(version) {
            Ok(_) => {
                self.database = database;
                Ok(())
            }
            Err(_) => {
                self.given.pop();
                Err(NoMemory)
            }
        }
    }
}
