//! The tree over a circuit's leaves, by the numbers of its nodes. Nothing of it is stored.
//!
//! A node over two leaves or more has a left child over the first half of them, which has the odd one, and a right child over
//! the rest. Nodes are numbered in preorder, the root as 0.
#![tactic(auto)]

ghost use Rattle.std.specs.Prelude.{◌≡◌, ◌+◌, ◌-◌, ◌*◌, ◌/◌, ◌<◌, ◌≤◌, Some, None, IfSome};
ghost use Rattle.lt_face.specs.Limits.{most_programs};
ghost use Rattle.lt_net.specs.Tree.{right_of, node_of, parent_of, leaf_at, halved_tree};

/// The node of a leaf.
#[tactic(auto, using(crate::proofs::Walk::node_in_left, crate::proofs::Walk::node_in_right))]
pub fn node_of(leaves: u32, leaf: u32) -> u32
    requires small { leaves ≤ most_programs }
    requires inside { leaf < leaves }
    ensures node { result ≡ node_of (halved_tree leaves) leaf }
    ensures within { result + 1 < 2 * leaves }
{
    if leaves < 2 {
        return 0;
    }
    let left = (leaves + 1) / 2;
    if leaf < left {
        node_of(left, leaf) + 1
    } else {
        node_of(leaves - left, leaf - left) + 2 * left
    }
}

/// The right child of an inner node.
#[tactic(auto, using(crate::proofs::Walk::right_at_root, crate::proofs::Walk::right_in_left, crate::proofs::Walk::right_in_right))]
pub fn right_of(leaves: u32, node: u32) -> Option<u32>
    requires small { leaves ≤ most_programs }
    requires some { 0 < leaves }
    requires inside { node + 1 < 2 * leaves }
    ensures node { result ≡ right_of (halved_tree leaves) node }
    ensures within { IfSome result (λ right. right + 1 < 2 * leaves) }
{
    if leaves < 2 {
        return None;
    }
    let left = (leaves + 1) / 2;
    if node == 0 {
        Some(2 * left)
    } else if node < 2 * left {
        match right_of(left, node - 1) {
            Some(right) => Some(right + 1),
            None => None,
        }
    } else {
        match right_of(leaves - left, node - 2 * left) {
            Some(right) => Some(right + 2 * left),
            None => None,
        }
    }
}

/// The parent of a node but the root.
#[tactic(auto, using(crate::proofs::Walk::parent_at_left, crate::proofs::Walk::parent_at_right, crate::proofs::Walk::parent_in_left, crate::proofs::Walk::parent_in_right))]
pub fn parent_of(leaves: u32, node: u32) -> u32
    requires small { leaves ≤ most_programs }
    requires below { 0 < node }
    requires inside { node + 1 < 2 * leaves }
    ensures parent { result ≡ parent_of (halved_tree leaves) node }
    ensures within { result < node }
{
    let left = (leaves + 1) / 2;
    if node == 1 || node == 2 * left {
        0
    } else if node < 2 * left {
        parent_of(left, node - 1) + 1
    } else {
        parent_of(leaves - left, node - 2 * left) + 2 * left
    }
}

/// The leaf at a node without children, or the first one below.
#[tactic(auto, using(crate::proofs::Walk::leaf_in_left, crate::proofs::Walk::leaf_in_right))]
pub fn leaf_at(leaves: u32, node: u32) -> u32
    requires small { leaves ≤ most_programs }
    requires inside { node + 1 < 2 * leaves }
    ensures leaf { result ≡ leaf_at (halved_tree leaves) node }
    ensures within { result < leaves }
{
    if leaves < 2 {
        return 0;
    }
    let left = (leaves + 1) / 2;
    if node < 2 * left {
        leaf_at(left, node.saturating_sub(1))
    } else {
        leaf_at(leaves - left, node - 2 * left) + left
    }
}
