//! What the words of a command say.
ghost use Rattle.std.specs.Prelude.{◌≡◌, ◌≤◌, ◌⊎◌, true, false, IsTrue};

/// How many workers run a batch, how many batches that follow each other run as one line, whether the marks of their programs are
/// written, and whether their journals are, behind the report.
#[derive(Clone, Copy, Debug)]
pub struct Options {
    pub workers: u32,
    pub pipeline: u32,
    pub marks: bool,
    pub trace: bool,
}

impl Options {
    /// Whether a batch may wait for those behind it.
    pub fn waits(self) -> bool
        ensures untraced { IsTrue result → self.trace ≡ false }
        ensures none { result ≡ false → (self.trace ≡ true) ⊎ (self.pipeline ≤ 1) }
    {
        if self.trace {
            return false;
        }
        self.pipeline > 1
    }
}
