//! Jobs: their names and states.
ghost use Rattle.std.specs.Prelude.{◌≡◌, ◌+◌, ◌-◌, ◌*◌, ◌<◌, ◌^◌};
ghost use Rattle.lt_net.specs.Codes.{code_of, codes_over, job_of, nodes_over, with_kind};

/// What a job waits for.
#[derive(Clone, Copy, PartialEq, Eq)]
pub enum JobState {
    /// Its outputs are its function of the inputs that stand now.
    Clean,
    /// It is to be done.
    Pending,
    /// A worker does it, on inputs that stand now.
    Running,
    /// A worker does it, on inputs of which one has changed since.
    Dirty,
}

/// How many codes a segment of a line has. Segment s has those from s times so many.
pub const CODES: u32 = 2048;

/// The code of a Pass among its segment's. No job of a tree over the most leaves has it.
pub const PASS: u32 = 2047;

/// A job by its leaf, its inner node or its segment.
#[derive(Clone, Copy, PartialEq, Eq)]
pub enum JobName {
    /// Runs the leaf on the correction of its node, and gives the node's effect.
    Leaf(u32),
    /// Gives the node's effect: those of both children, one after the other.
    Merge(u32),
    /// Gives the children's corrections: the node's for the left one, for the right one with the left one's effect.
    Correct(u32),
    /// Gives the correction of the next segment's root: that of its own segment's root, and then that root's effect.
    Pass(u32),
}

impl JobName {
    /// The job's code: three times the leaf or the node, plus 1 for a Merge and 2 for a Correct. A Pass has the last of its segment's.
    pub fn code(self) -> u32
        requires { code_of self < 2 ^ 32 }
        ensures { result ≡ code_of self }
    {
        match self {
            JobName::Leaf(leaf) => 3 * leaf,
            JobName::Merge(node) => 3 * node + 1,
            JobName::Correct(node) => 3 * node + 2,
            JobName::Pass(_segment) => PASS,
        }
    }

    /// The job of a tree that a code names.
    pub fn of(code: u32) -> JobName
        ensures name { result ≡ job_of code }
        ensures code { code_of result ≡ code }
    {
        if code % 3 == 0 {
            JobName::Leaf(code / 3)
        } else if code % 3 == 1 {
            JobName::Merge(code / 3)
        } else {
            JobName::Correct(code / 3)
        }
    }
}

/// A number with one of three kinds, 0, 1 or 2, as one number.
pub fn with_kind(number: u32, kind: u32) -> u32
    requires { with_kind number kind < 2 ^ 32 }
    ensures { result ≡ with_kind number kind }
{
    3 * number + kind
}

/// How many nodes a tree over so many leaves has.
pub fn nodes_over(leaves: u32) -> u32
    requires { 2 * leaves < 2 ^ 32 }
    ensures { result ≡ nodes_over leaves }
{
    (2 * leaves).saturating_sub(1)
}

/// How many codes they have. The code of each job of the tree is below that.
pub fn codes_over(leaves: u32) -> u32
    requires { codes_over leaves < 2 ^ 32 }
    ensures { result ≡ codes_over leaves }
{
    3 * nodes_over(leaves)
}
