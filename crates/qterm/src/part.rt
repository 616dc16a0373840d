//! A part of a store: nodes that stores share and that don't change any more.
ghost use Rattle.std.specs.Prelude.{◌≡◌, ◌<◌, length, IfOk, IfErr, MatchOption};
ghost use Rattle.qterm.specs.Place.{IsAt, IsAbsent};

use crate::name::Sort;
use crate::term::Term;
use indexmap::IndexSet;
use std::alloc::{AllocError, AllocFailed, Global};
use std::marker::Model;
use std::sync::Arc;

/// A term of a store with its sort.
#[derive(Debug, Clone, PartialEq, Eq, Hash, Drop)]
pub(crate) struct Node {
    pub(crate) term: Term,
    pub(crate) sort: Sort,
}

/// Nodes that stores share, which contracts see as a list. A node is found by its hash.
#[derive(Drop)]
pub(crate) struct Part {
    nodes: Arc<IndexSet<Node>, Global>,
}

impl Model for Part {
    ghost use Rattle.std.specs.Prelude.{List};
    ghost use Rattle.qterm.specs.declared.part.Node.{Node};

    ghost Value = { List Node };

    ghost view = { λ p. p.nodes.value.keys };
}

impl Part {
    /// A part with these nodes, which come back where there is no memory.
    pub(crate) fn new(nodes: IndexSet<Node>) -> Result<Part, AllocFailed<IndexSet<Node>>>
        ensures ok { IfOk result (λ p. p ≡ nodes.keys) }
        ensures err { IfErr result (λ y. y.value.keys ≡ nodes.keys) }
    {
        let alloc = *nodes.allocator();
        match Arc::new(alloc, nodes) {
            Ok(nodes) => Ok(Part { nodes }),
            Err(failed) => Err(failed),
        }
    }

    /// The nodes in a set of their own.
    pub(crate) fn copied(&self) -> Result<IndexSet<Node>, AllocError>
        ensures { IfOk result (λ s. s.keys ≡ self.now) }
    {
        copied(&self.nodes)
    }

    /// The nodes in order.
    pub(crate) fn nodes(&self) -> &[Node]
        ensures { result.now ≡ self.now }
    {
        self.nodes.as_slice()
    }

    /// The place of a node.
    pub(crate) fn find(&self, node: &Node) -> Option<usize>
        ensures { MatchOption result (IsAbsent self.now node.now) (λ at. IsAt self.now node.now at) }
    {
        find(&self.nodes, node)
    }
}

impl Clone for Part {
    ghost is_clone = { λ p c. c ≡ p };

    fn clone(&self) -> Result<Part, AllocError> {
        Ok(Part {
            nodes: Arc::try_clone(&self.nodes)?,
        })
    }
}

/// The place of a node in a set.
pub(crate) fn find(nodes: &IndexSet<Node>, node: &Node) -> Option<usize>
    ensures { MatchOption result (IsAbsent nodes.now.keys node.now) (λ at. IsAt nodes.now.keys node.now at) }
{
    match nodes.get_index_of(node) {
        Some(at) => Some(at),
        None => None,
    }
}

/// The same nodes in a set of their own.
pub(crate) fn copied(nodes: &IndexSet<Node>) -> Result<IndexSet<Node>, AllocError>
    ensures { IfOk result (λ s. s.keys ≡ nodes.now.keys) }
{
    nodes.clone()
}
