//! The order in which jobs are claimed: how much is done twice hangs on it, and no result does.
#![tactic(auto)]

ghost use Rattle.std.specs.Prelude.{◌≡◌, ◌≢◌, ℕ, true, ◌+◌, ◌*◌, ◌<◌, ◌≤◌, IfOk, length, slice_index_or};
ghost use Rattle.lt_circuit.specs.Jobs.{ArePlaced, IsPlaced};

use lt_face::NoMemory;
use lt_net::JobName;
use std::alloc::Global;

/// Appends the jobs below the node over so many leaves from `first` on, on the walk from the left: a node's Correct before its
/// children, a leaf in its place, a Merge behind its children.
pub fn walk(order: &mut Vec<u32>, node: u32, first: u32, count: u32) -> Result<(), NoMemory>
    requires nodes { node + 2 * count ≤ 1024 }
    requires leaves { first + count ≤ 512 }
{
    if count < 2 {
        order.push(JobName::Leaf(first).code())?;
        return Ok(());
    }
    let left = count - count / 2;
    order.push(JobName::Correct(node).code())?;
    walk(order, node + 1, first, left)?;
    walk(order, node + 2 * left, first + left, count - left)?;
    order.push(JobName::Merge(node).code())?;
    Ok(())
}

/// Whether the code stands at the place.
fn stands_at(order: &[u32], place: usize, code: u32) -> bool
    ensures { result ≡ true → (place < length order.now) × (slice_index_or order.now place 0 ≡ code) }
{
    place < order.len() && order[place] == code
}

/// Where each code stood when it was last met. Of the others nothing is said.
fn last_places(alloc: Global, order: &[u32], codes: u32) -> Result<Vec<usize>, NoMemory>
    ensures { IfOk result (λ places. length places.items ≡ codes) }
{
    let mut places = vec![in alloc; 0; codes as usize]?;
    for place in 0..order.len() {
        let code = order[place] as usize;
        if code < places.len() {
            places[code] = place;
        }
    }
    Ok(places)
}

/// The code stands at its place, behind all others if it stood nowhere.
fn place_code(order: &mut Vec<u32>, places: &mut Vec<usize>, code: u32) -> Result<(), NoMemory>
    requires { code < length places.old.items }
    ensures long { length places.new.items ≡ length places.old.items }
    ensures others { IfOk result (λ _. (other : ℕ) → other ≢ code → IsPlaced order.old.items places.old.items other → IsPlaced order.new.items places.new.items other) }
    ensures here { IfOk result (λ _. IsPlaced order.new.items places.new.items code) }
{
    if stands_at(order, places[code as usize], code) {
        return Ok(());
    }
    places[code as usize] = order.len();
    order.push(code)?;
    Ok(())
}

/// The places of so many codes. Those that the order doesn't have are appended to it.
pub fn place_codes(alloc: Global, order: &mut Vec<u32>, codes: u32) -> Result<Vec<usize>, NoMemory>
    ensures long { IfOk result (λ places. length places.items ≡ codes) }
    ensures placed { IfOk result (λ places. ArePlaced order.new.items places.items codes) }
{
    let mut places = last_places(alloc, order, codes)?;
    for code in 0..codes {
        place_code(order, &mut places, code)?;
    }
    Ok(places)
}
