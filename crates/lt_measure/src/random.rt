//! Numbers from Knuth's linear congruential generator (MMIX), the same in each run.
ghost use Rattle.std.specs.Prelude.{◌<◌, ◌≤◌};

/// The state of the generator.
#[derive(Drop)]
pub struct Random {
    state: u64,
}

impl Random {
    pub fn new() -> Random {
        Random { state: 1 }
    }

    /// A number from 1 to `limit`.
    pub fn up_to(&mut self, limit: u32) -> u32
        requires { 0 < limit }
        ensures low { 1 ≤ result }
        ensures high { result ≤ limit }
    {
        self.state = self
            .state
            .wrapping_mul(6364136223846793005)
            .wrapping_add(1442695040888963407);
        let high = (self.state >> 33) as u32;
        high % limit + 1
    }
}
