//! The numbers that the generator draws.
ghost use Rattle.std.specs.Prelude.{◌≡◌, ◌+◌, ◌^◌, ◌<◌};
ghost use Rattle.lt_gen.specs.Draws.{draw, drawn, next};

use std::marker::Model;

/// Draws from a seed, one after another. Clauses see the seed, and how many numbers were drawn.
#[derive(Drop)]
pub struct Draws {
    seed: u64,
    count: u64,
    x: u64,
}

impl Model for Draws {
    ghost use Rattle.std.specs.Prelude.{◌≡◌, ℕ};
    ghost use Rattle.lt_gen.specs.Draws.{Drawn, x_after};

    ghost Value = { Drawn };

    ghost view = { λ d. record { seed = d.seed; count = d.count } };

    ghost invariant = { λ d. d.x ≡ x_after d.seed d.count };
}

// The x behind this one.
fn next(x: u64) -> u64
    ensures { result ≡ next x }
{
    x.wrapping_mul(6_364_136_223_846_793_005)
        .wrapping_add(1_442_695_040_888_963_407)
}

// What is drawn below `n` where x was set to this: its low bits are left out.
fn drawn(x: u64, n: u32) -> u32
    requires { 0 < n }
    ensures drawn { result ≡ drawn x n }
    ensures below { result < n }
{
    ((x >> 33) % u64::from(n)) as u32
}

impl Draws {
    /// Before the first draw.
    pub fn from_seed(seed: u64) -> Draws
        ensures seed { result.seed ≡ seed }
        ensures count { result.count ≡ 0 }
    {
        Draws {
            seed,
            count: 0,
            x: seed,
        }
    }

    /// The next number below `n`.
    pub fn below(&mut self, n: u32) -> u32
        requires some { 0 < n }
        requires room { self.old.count < 2 ^ 32 }
        ensures drawn { result ≡ draw self.old.seed (self.old.count + 1) n }
        ensures below { result < n }
        ensures seed { self.new.seed ≡ self.old.seed }
        ensures count { self.new.count ≡ self.old.count + 1 }
    {
        self.x = next(self.x);
        self.count += 1;
        drawn(self.x, n)
    }
}
