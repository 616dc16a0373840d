//! The parts that a store shares with others, one after the other.
ghost use Rattle.std.specs.Prelude.{◌≡◌, ◌<◌, ◌^◌, ◌*◌, ◌+◌, ◌++◌, [], length, slice_index, slice_get, Some, IfOk, OnOk, MatchOption};
ghost use Rattle.qterm.specs.Place.{IsAt, IsAbsent, joined, AreDistinct};

use crate::part::{Node, Part};
use indexmap::IndexSet;
use std::alloc::{AllocError, Global};
use std::marker::Model;
use std::mem;

/// The nodes of shared parts, which contracts see as one list.
#[derive(Drop)]
pub(crate) struct Shared {
    parts: Vec<Part>,
    count: usize,
}

impl Model for Shared {
    ghost use Rattle.std.specs.Prelude.{◌≡◌, List, length};
    ghost use Rattle.qterm.specs.declared.part.Node.{Node};
    ghost use Rattle.qterm.specs.Place.{joined};

    ghost Value = { List Node };

    ghost view = { λ s. joined s.parts.items };

    ghost invariant = { λ s. s.count ≡ length (joined s.parts.items) };
}

/// From this many parts on, neighbours are merged by size.
const MANY: usize = 16;

impl Shared {
    /// No nodes, which takes no memory.
    pub(crate) fn new(alloc: Global) -> Shared
        ensures { result ≡ [] }
    {
        Shared {
            parts: Vec::new(alloc),
            count: 0,
        }
    }

    /// How many nodes there are.
    pub(crate) fn len(&self) -> usize
        ensures { result ≡ length self.now }
    {
        self.count
    }

    /// The node at a place.
    pub(crate) fn node(&self, at: usize) -> &Node
        requires within { at < length self.now }
        ensures { Some result.now ≡ slice_get self.now at }
    {
        node_in(self.parts.as_slice(), at)
    }

    /// The place of a node.
    pub(crate) fn find(&self, node: &Node) -> Option<usize>
        requires small { length self.now < 2 ^ 32 }
        ensures { MatchOption result (IsAbsent self.now node.now) (λ at. IsAt self.now node.now at) }
    {
        find_in(self.parts.as_slice(), node)
    }

    /// The same parts, which both share from here on.
    pub(crate) fn share(&self) -> Result<Shared, AllocError>
        ensures { IfOk result (λ s. s ≡ self.now) }
    {
        Ok(Shared {
            parts: self.parts.clone()?,
            count: self.count,
        })
    }

    /// Makes a part of these nodes, which leaves none.
    ///
    /// Where there are many parts, it takes those that aren't much longer into that part first. So the number of parts
    /// stays below fifty, and a node is copied a number of times that is in proportion to the logarithm of the number of nodes.
    pub(crate) fn freeze(&mut self, own: &mut IndexSet<Node>) -> Result<(), AllocError>
        requires distinct { AreDistinct (self.old ++ own.old.keys) }
        requires small { length (self.old ++ own.old.keys) < 2 ^ 32 }
        ensures same { self.new ++ own.new.keys ≡ self.old ++ own.old.keys }
        ensures all { OnOk result (own.new.keys ≡ []) }
    {
        if own.is_empty() {
            return Ok(());
        }
        self.merge(own)?;
        self.push(own)
    }

    /// Takes parts that aren't much longer than these nodes into them.
    fn merge(&mut self, own: &mut IndexSet<Node>) -> Result<(), AllocError>
        requires distinct { AreDistinct (self.old ++ own.old.keys) }
        requires small { length (self.old ++ own.old.keys) < 2 ^ 32 }
        ensures same { self.new ++ own.new.keys ≡ self.old ++ own.old.keys }
    {
        if self.parts.len() < MANY {
            return Ok(());
        }
        for _ in 0..self.parts.len() {
            if self.last_len() > 2 * own.len() {
                break;
            }
            self.take_last(own)?;
        }
        Ok(())
    }

    /// How many nodes the last part has.
    fn last_len(&self) -> usize {
        match self.parts.as_slice().last() {
            Some(last) => last.nodes().len(),
            None => 0,
        }
    }

    /// Takes the last part into these nodes.
    fn take_last(&mut self, own: &mut IndexSet<Node>) -> Result<(), AllocError>
        requires distinct { AreDistinct (self.old ++ own.old.keys) }
        ensures same { self.new ++ own.new.keys ≡ self.old ++ own.old.keys }
    {
        if let Some(last) = self.parts.as_slice().last() {
            let count = last.nodes().len();
            let mut nodes = last.copied()?;
            nodes.append(own)?;
            self.parts.pop();
            self.count -= count;
            *own = nodes;
        }
        Ok(())
    }

    /// Makes a part of these nodes, which leaves none.
    fn push(&mut self, own: &mut IndexSet<Node>) -> Result<(), AllocError>
        requires small { length (self.old ++ own.old.keys) < 2 ^ 32 }
        ensures same { self.new ++ own.new.keys ≡ self.old ++ own.old.keys }
        ensures all { OnOk result (own.new.keys ≡ []) }
    {
        self.parts.reserve(1)?;
        let count = own.len();
        let alloc = *own.allocator();
        let nodes = mem::replace(own, IndexSet::new(alloc));
        match Part::new(nodes) {
            Ok(part) => {
                self.parts.push(part)?;
                self.count += count;
                Ok(())
            }
            Err(failed) => {
                *own = failed.value;
                Err(AllocError)
            }
        }
    }
}

/// The node at a place of the parts.
fn node_in(parts: &[Part], at: usize) -> &Node
    requires within { at < length (joined parts.now) }
    ensures { Some result.now ≡ slice_get (joined parts.now) at }
{
    let mut left = at;
    for part in parts {
        let nodes = part.nodes();
        if left < nodes.len() {
            return &nodes[left];
        }
        left -= nodes.len();
    }
    unreachable!()
}

/// The place of a node in the parts.
fn find_in(parts: &[Part], node: &Node) -> Option<usize>
    requires small { length (joined parts.now) < 2 ^ 32 }
    ensures { MatchOption result (IsAbsent (joined parts.now) node.now) (λ at. IsAt (joined parts.now) node.now at) }
{
    let mut before = 0;
    for part in parts {
        if let Some(at) = part.find(node) {
            return Some(before + at);
        }
        before += part.nodes().len();
    }
    None
}
