//! A beginning of the history, with a share of its last version.
ghost use Rattle.std.specs.Prelude.{◌≡◌, true, false, IfOk};
ghost use Rattle.std.specs.Arc.{arc_value};
ghost use mathlib.Core.List.{IsPrefix};
ghost use Rattle.lt_readers.specs.Lists.{EndsIn, IsHistory};

use crate::history::History;
use crate::version::Version;
use left_right::Absorb;
use logbook::Seen;
use lt_base::Database;
use std::alloc::AllocError;
use std::sync::Arc;

/// A beginning of the history that was seen, with a share of the version that is last in it.
#[derive(Drop)]
pub struct Front {
    pub(crate) version: Arc<Version>,
    pub(crate) seen: Seen<Version, u64, History>,
    pub(crate) ghost last: { EndsIn seen.log (arc_value version) },
    pub(crate) ghost legal: { IsHistory seen.log },
}

impl Front {
    /// The number of the last version.
    pub fn number(&self) -> u64
        ensures { result ≡ (arc_value self.now.version).number }
    {
        self.version.number
    }

    /// The database of the last version.
    pub fn database(&self) -> &Database
        ensures { result.now ≡ (arc_value self.now.version).db }
    {
        &self.version.db
    }

    /// The same, with one more owner of the version.
    pub fn again(&self) -> Result<Front, AllocError>
        ensures seen { IfOk result (λ front. front.seen ≡ self.now.seen) }
        ensures version { IfOk result (λ front. arc_value front.version ≡ arc_value self.now.version) }
    {
        let version = Arc::try_clone(&self.version)?;
        Ok(Front {
            version,
            seen: self.seen.again(),
        })
    }

    /// Whether the other has seen more. One of the two begins the other.
    pub fn is_before(&self, other: &Front) -> bool
        requires { other.now.seen.book ≡ self.now.seen.book }
        ensures before { result ≡ true → IsPrefix self.now.seen.log other.now.seen.log }
        ensures behind { result ≡ false → IsPrefix other.now.seen.log self.now.seen.log }
    {
        let mut both = self.seen.again();
        both.learn(&other.seen);
        self.number() < other.number()
    }
}

/// Both copies come to what was posted last.
impl Absorb<Front> for Front {
    type State = Seen<Version, u64, History>;

    ghost state = { λ front. front.seen };

    ghost applied = { λ state post. post.seen };

    fn absorb_first(&mut self, operation: &Front, _other: &Front) -> Result<(), AllocError> {
        let front = operation.again()?;
        *self = front;
        Ok(())
    }

    fn absorb_second(&mut self, operation: Front, _other: &Front) -> Result<(), Front> {
        *self = operation;
        Ok(())
    }
}
