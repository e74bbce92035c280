//! Groups of 64 but the last.
ghost use Rattle.std.specs.Prelude.{◌≡◌, ◌+◌, ◌-◌, ◌*◌, ◌/◌, ◌<◌, ◌≤◌, min};
ghost use Rattle.lt_gen.specs.Limits.{most_buyers};

// How many elements a group has at most.
const GROUP: u32 = 64;

/// How many groups so many elements make.
pub fn group_count(count: u32) -> u32
    requires { count ≤ most_buyers }
    ensures { result ≡ (count + 63) / 64 }
{
    (count + (GROUP - 1)) / GROUP
}

/// How many elements there are up to the end of group `j`.
pub fn group_end(count: u32, j: u32) -> u32
    requires few { count ≤ most_buyers }
    requires there { 64 * j < count }
    ensures { result ≡ 64 * j + min 64 (count - 64 * j) }
{
    let first = GROUP * j;
    first + GROUP.min(count - first)
}
