//! What a Told says.
ghost use Rattle.std.specs.Prelude.{◌≡◌};
ghost use Rattle.lt_readers.specs.Boards.{told};
ghost use Rattle.lt_readers.specs.Lists.{EndsIn, IsHistory};

use super::Told;

impl Told {
    /// The number of the last version that was posted when it was made.
    pub fn number(&self) -> u64
        ensures last { (v : _) × EndsIn (told self.now) v × (result ≡ v.number) }
        ensures history { IsHistory (told self.now) }
    {
        self.front.number()
    }
}
