//! The trie: a set of elements whose root is asked for again and again.
ghost use Rattle.std.specs.Prelude.{◌≡◌, ℕ, ◌+◌, ◌*◌, ◌≤◌, length, Err, OnOk, OnErr, IfOk};
ghost use Rattle.al_trie.specs.declared.fault.TrieFault.TheVariants.{AlreadyThere};
ghost use Rattle.std.specs.FinMap as fin;
ghost use Rattle.al_trie.specs.Tries.{root, Adds, Removes, Rebuilds};

use crate::TrieFault;
use crate::arena::{Node, NodeId, slot_of};
use crate::change::{put, take};
use crate::refresh::{refresh, root_from};
use crate::slots::{Element, Slot, SlotId};
use al_base::Hash;
use al_digest::Steps;
use std::alloc::{AllocError, Global};
use std::marker::Model;
use std::sync::ledger::Ledger;

/// A set of elements of 36 bytes with its hash trie.
///
/// Node digests are kept, and made anew only where elements came or went: a root takes at most 37 node digests for each call of
/// `add` or `remove` since the last one. Nodes and places that are free are used again.
#[derive(Drop)]
pub struct Trie {
    alloc: Global,
    slots: Vec<Slot>,
    free_slot: Option<SlotId>,
    nodes: Vec<Node>,
    free_node: Option<NodeId>,
    len: usize,
}

impl Model for Trie {
    ghost use Rattle.al_trie.specs.Tries.{Tried, tried_code};

    ghost Value = { Tried };

    ghost coded = { tried_code };

    ghost use Rattle.al_trie.specs.Whole.{tried, IsTrie};

    ghost view = { tried };

    ghost invariant = { IsTrie };
}

impl Trie {
    /// The trie of no element. It takes no memory.
    pub fn new(alloc: Global) -> Trie
        ensures none { result.elements ≡ fin.empty }
        ensures stale { result.stale ≡ 0 }
    {
        Trie {
            alloc,
            slots: Vec::new(alloc),
            free_slot: None,
            nodes: Vec::new(alloc),
            free_node: None,
            len: 0,
        }
    }

    /// How many elements there are.
    pub fn len(&self) -> usize
        ensures { result ≡ fin.len self.now.elements }
    {
        self.len
    }

    /// Adds an element.
    ///
    /// # Errors
    ///
    /// `AlreadyThere` where the element is there, or `Memory`. The elements are as before then.
    pub fn add(&mut self, element: &Element) -> Result<(), TrieFault>
        ensures adds { Adds self.old.elements element.now result self.new.elements }
        ensures same { result ≡ Err AlreadyThere → self.new ≡ self.old }
        ensures cost { self.new.stale ≤ self.old.stale + 37 }
    {
        if slot_of(&self.nodes, &self.slots, element).is_some() {
            return Err(TrieFault::AlreadyThere);
        }
        let Some(len) = self.len.checked_add(1) else {
            return Err(TrieFault::Memory);
        };
        let added = put(
            &mut self.nodes,
            &mut self.free_node,
            &mut self.slots,
            &mut self.free_slot,
            self.alloc,
            element,
        );
        match added {
            Ok(()) => {
                self.len = len;
                Ok(())
            }
            Err(_) => Err(TrieFault::Memory),
        }
    }

    /// Removes an element. It takes no memory.
    ///
    /// # Errors
    ///
    /// `NotThere` where the element is not there. The trie is as before then.
    pub fn remove(&mut self, element: &Element) -> Result<(), TrieFault>
        ensures removes { Removes self.old.elements element.now result self.new.elements }
        ensures same { OnErr result (self.new ≡ self.old) }
        ensures cost { self.new.stale ≤ self.old.stale + 37 }
    {
        let Some(slot) = slot_of(&self.nodes, &self.slots, element) else {
            return Err(TrieFault::NotThere);
        };
        take(
            &mut self.nodes,
            &mut self.free_node,
            &mut self.slots,
            &mut self.free_slot,
            slot,
            element,
        );
        self.len = self.len.saturating_sub(1);
        Ok(())
    }

    /// The root of the elements, whatever their order: 32 zero bytes of none, else a digest with the prefix `TR` of byte 0 and the
    /// one element, or of byte 1 and the digest of the top node. It takes a step for each node digest, and at most 37 for each
    /// `add` or `remove` since the last root.
    ///
    /// # Errors
    ///
    /// There is no memory left for the bytes of a node. The elements stay.
    pub fn root<L: Ledger>(&mut self, steps: &mut Steps<L>) -> Result<Hash, AllocError>
        ensures root { IfOk result (λ hash. hash ≡ root self.old.elements) }
        ensures same { self.new.elements ≡ self.old.elements }
        ensures cost { steps.new + self.new.stale ≤ steps.old + self.old.stale }
        ensures fresh { OnOk result (self.new.stale ≡ 0) }
    {
        if self.nodes.is_empty() {
            return Ok([0; 32]);
        }
        let mut out = Vec::new(self.alloc);
        let summary = refresh(&mut self.nodes, &self.slots, NodeId(0), 36, &mut out, steps)?;
        Ok(root_from(&self.slots, summary))
    }

    /// The trie of a list's elements, in any order.
    ///
    /// # Errors
    ///
    /// `AlreadyThere` where an element stands twice in the list, or `Memory`.
    pub fn rebuild(alloc: Global, list: &[Element]) -> Result<Trie, TrieFault>
        ensures rebuilds { Rebuilds list.now result }
    {
        let mut trie = Trie::new(alloc);
        for element in list {
            match trie.add(element) {
                Ok(()) => {}
                Err(fault) => return Err(fault),
            }
        }
        Ok(trie)
    }
}
