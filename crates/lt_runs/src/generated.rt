//! Which script a bench generates.

/// Which script is generated: where its draws begin, how many things it has in stock, and how many of its programs buy.
#[derive(Clone, Copy, Debug)]
pub struct Generated {
    pub seed: u64,
    pub items: u32,
    pub programs: u32,
    /// How many readers ask beside its batches.
    pub readers: u32,
}
