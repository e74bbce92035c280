//! The marks at the nodes of the tree.
#![tactic(auto)]

ghost use Rattle.std.specs.Prelude.{◌≡◌, true, ◌<◌, List, IfOk, length, slice_index_or, slice_set};
ghost use Rattle.lt_circuit.specs.declared.cells.Node.{Node as NodeType};
ghost use Rattle.lt_circuit.specs.Board.{bare_node, table};
ghost use Rattle.lt_circuit.specs.Nodes.{AreNodes, IsHanded};

use crate::cells::Node;
use lt_delta::Marks;
use lt_face::NoMemory;
use std::alloc::Global;
use std::marker::Model;
use std::mem;

/// The nodes by their numbers. One that is handed has the correction of the next, which is an inner node's left child: then the
/// two needn't be compared.
#[derive(Drop)]
pub struct Nodes {
    nodes: Vec<Node>,
    handed: Vec<bool>,
}

impl Model for Nodes {
    ghost Value = { List NodeType };

    ghost view = { λ n. n.nodes.items };

    ghost invariant = { λ n. AreNodes n.nodes.items n.handed.items };
}

/// Nodes with empty corrections and effects.
fn bare_nodes(alloc: Global, n: u32) -> Result<Vec<Node>, NoMemory>
    ensures { IfOk result (λ nodes. nodes.items ≡ table (λ _. bare_node) n) }
{
    let none = Marks::empty(alloc)?;
    let mut nodes = Vec::with_capacity(alloc, n as usize)?;
    for _node in 0..n {
        let correction = none.share()?;
        let effect = none.share()?;
        nodes.push(Node { correction, effect })?;
    }
    Ok(nodes)
}

impl Nodes {
    /// So many nodes, without marks.
    pub fn bare(alloc: Global, n: u32) -> Result<Nodes, NoMemory>
        ensures { IfOk result (λ nodes. nodes ≡ table (λ _. bare_node) n) }
    {
        let nodes = bare_nodes(alloc, n)?;
        let handed = vec![in alloc; true; n as usize]?;
        Ok(Nodes { nodes, handed })
    }

    /// The effect of a node.
    pub fn effect(&self, node: u32) -> &Marks
        requires { node < length self.now }
        ensures { result.now ≡ (slice_index_or self.now node bare_node).effect }
    {
        &self.nodes[node as usize].effect
    }

    /// The correction of a node.
    pub fn correction(&self, node: u32) -> &Marks
        requires { node < length self.now }
        ensures { result.now ≡ (slice_index_or self.now node bare_node).correction }
    {
        &self.nodes[node as usize].correction
    }

    /// The marks are the node's effect. It answers the one before.
    pub fn put_effect(&mut self, node: u32, marks: Marks) -> Marks
        requires { node < length self.old }
        ensures { self.new ≡ slice_set self.old node (record (slice_index_or self.old node bare_node) { effect = marks }) }
    {
        mem::replace(&mut self.nodes[node as usize].effect, marks)
    }

    /// The marks are the node's correction. It answers the one before.
    pub fn put_correction(&mut self, node: u32, marks: Marks) -> Marks
        requires { node < length self.old }
        ensures { self.new ≡ slice_set self.old node (record (slice_index_or self.old node bare_node) { correction = marks }) }
    {
        self.handed[node as usize] = false;
        self.handed[node.saturating_sub(1) as usize] = false;
        mem::replace(&mut self.nodes[node as usize].correction, marks)
    }

    /// Whether the next node is known to have the same correction.
    pub fn is_handed(&self, node: u32) -> bool
        requires { node < length self.now }
        ensures { result ≡ true → IsHanded self.now node }
    {
        self.handed[node as usize]
    }

    /// The next node has the same correction.
    pub fn hand(&mut self, node: u32)
        requires inside { node < length self.old }
        requires same { IsHanded self.old node }
        ensures { self.new ≡ self.old }
    {
        self.handed[node as usize] = true;
    }
}
