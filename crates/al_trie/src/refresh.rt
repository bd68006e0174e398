//! The summaries of nodes, made anew where they are stale.
ghost use Rattle.std.specs.Prelude.{◌≡◌, ℕ, List, [], ◌∷◌, ◌++◌, ◌+◌, ◌-◌, ◌<◌, ◌≤◌, length, OnOk, OnErr, IfOk, Some};
ghost use Rattle.al_digest.specs.Digests.{digest_of};
ghost use Rattle.al_trie.specs.Root.{through, child, each_byte, node, root_at};
ghost use Rattle.al_trie.specs.Slots.{full, AreElements};
ghost use Rattle.al_trie.specs.Kids.{find_kid, Rising};
ghost use Rattle.al_trie.specs.Arena.{IsArena, IsNodeAt, LinkFits, SummaryFits, Refreshed, HasHeight, path_of, stale};
ghost use Rattle.al_trie.specs.Spelling.{SeenFits, seen_with, summary_at, AreKnown};

use crate::arena::{Node, NodeId, Summary};
use crate::kids::{Kid, Link};
use crate::slots::{Element, Slot, SlotId, element_at};
use al_base::Hash;
use al_digest::{Prefix, Steps, digest, node_digest};
use std::alloc::AllocError;
use std::sync::ledger::Ledger;

/// How much goes through some children.
#[derive(Clone, Copy, Debug)]
pub enum Seen {
    Nothing,
    One(SlotId),
    Many,
}

fn joined_seen(seen: Seen, summary: Summary) -> Seen
    ensures { result ≡ seen_with seen summary }
{
    match summary {
        Summary::Nothing => seen,
        Summary::One(slot) => match seen {
            Seen::Nothing => Seen::One(slot),
            Seen::One(_) => Seen::Many,
            Seen::Many => Seen::Many,
        },
        Summary::Many(_) => Seen::Many,
    }
}

// What is digested of the child at a byte.
fn spell_child(
    slots: &[Slot],
    path: &[u8],
    byte: u8,
    summary: Summary,
    out: &mut Vec<u8>,
) -> Result<(), AllocError>
    requires short { length path.now < 36 }
    requires elements { AreElements (full slots.now) }
    requires fits { SummaryFits (through (full slots.now)) slots.now (path.now ++ byte ∷ []) (Some summary) }
    ensures { OnOk result (out.new.items ≡ out.old.items ++ child path.now byte (through (full slots.now) (path.now ++ byte ∷ [])) (node (through (full slots.now)) (35 - length path.now) (path.now ++ byte ∷ []))) }
{
    match summary {
        Summary::Nothing => Ok(()),
        Summary::One(slot) => {
            let depth = path.len();
            if let Some(x) = element_at(slots, slot) {
                out.push(0)?;
                out.push((35 - depth) as u8)?;
                out.push(byte)?;
                let rest = &x[depth + 1..];
                out.extend_from_slice(rest)?;
                Ok(())
            } else {
                Ok(())
            }
        }
        Summary::Many(digest) => {
            out.push(1)?;
            out.push(32)?;
            out.push(byte)?;
            out.extend_from_slice(&digest)
        }
    }
}

// The summary of what a link leads to.
fn summary_of(nodes: &[Node], link: Link) -> Summary
    ensures { result ≡ summary_at nodes.now link }
{
    match link {
        Link::Leaf(slot) => Summary::One(slot),
        Link::Inner(id) => match nodes.get(id.0 as usize) {
            Some(node) => match node.summary {
                Some(summary) => summary,
                None => Summary::Nothing,
            },
            None => Summary::Nothing,
        },
    }
}

// What is digested of all children, and how much goes through them.
fn spell(
    nodes: &[Node],
    slots: &[Slot],
    path: &[u8],
    kids: &[Kid],
    out: &mut Vec<u8>,
) -> Result<Seen, AllocError>
    requires arena { IsArena slots.now nodes.now }
    requires short { length path.now < 36 }
    requires rising { Rising 0 kids.now }
    requires links { (b : ℕ) → LinkFits (through (full slots.now)) slots.now nodes.now (path.now ++ b ∷ []) (find_kid b kids.now) }
    requires known { AreKnown nodes.now kids.now }
    ensures bytes { OnOk result (out.new.items ≡ out.old.items ++ each_byte 256 0 (λ b. child path.now b (through (full slots.now) (path.now ++ b ∷ [])) (node (through (full slots.now)) (35 - length path.now) (path.now ++ b ∷ [])))) }
    ensures seen { IfOk result (λ seen. SeenFits slots.now seen (through (full slots.now) path.now)) }
{
    let mut seen = Seen::Nothing;
    for kid in kids {
        let summary = summary_of(nodes, kid.to);
        spell_child(slots, path, kid.byte, summary, out)?;
        seen = joined_seen(seen, summary);
    }
    Ok(seen)
}

// The summary of a node whose children's summaries are there.
fn summarize<L: Ledger>(
    nodes: &[Node],
    slots: &[Slot],
    id: NodeId,
    out: &mut Vec<u8>,
    steps: &mut Steps<L>,
) -> Result<Summary, AllocError>
    requires arena { IsArena slots.now nodes.now }
    requires known { (n : Node) × IsNodeAt nodes.now id.0 n × AreKnown nodes.now n.kids.items }
    ensures summary { IfOk result (λ s. (n : Node) → IsNodeAt nodes.now id.0 n → SummaryFits (through (full slots.now)) slots.now (path_of n) (Some s)) }
    ensures cost { steps.new ≤ steps.old + 1 }
    ensures err { OnErr result (steps.new ≡ steps.old) }
{
    let node = &nodes[id.0 as usize];
    let path = &node.path[..node.depth];
    out.clear();
    out.push(node.depth as u8)?;
    out.extend_from_slice(path)?;
    let seen = spell(nodes, slots, path, node.kids.as_slice(), out)?;
    match seen {
        Seen::Nothing => Ok(Summary::Nothing),
        Seen::One(slot) => Ok(Summary::One(slot)),
        Seen::Many => Ok(Summary::Many(node_digest(out.as_slice(), steps))),
    }
}

// Writes the summary of a node whose children's summaries are there.
fn finish<L: Ledger>(
    nodes: &mut [Node],
    slots: &[Slot],
    id: NodeId,
    out: &mut Vec<u8>,
    steps: &mut Steps<L>,
) -> Result<Summary, AllocError>
    requires arena { IsArena slots.now nodes.old }
    requires known { (n : Node) × IsNodeAt nodes.old id.0 n × AreKnown nodes.old n.kids.items }
    ensures arena { IsArena slots.now nodes.new }
    ensures refreshed { Refreshed nodes.old nodes.new }
    ensures cost { steps.new + stale nodes.new ≤ steps.old + stale nodes.old }
    ensures summary { IfOk result (λ s. (n : Node) → IsNodeAt nodes.new id.0 n → n.summary ≡ Some s) }
{
    if let Some(summary) = nodes[id.0 as usize].summary {
        return Ok(summary);
    }
    let summary = summarize(nodes, slots, id, out, steps)?;
    let node = &mut nodes[id.0 as usize];
    node.summary = Some(summary);
    Ok(summary)
}

/// The summary of a node, with those below it made anew where they are stale. It takes a step for each node digest.
pub fn refresh<L: Ledger>(
    nodes: &mut [Node],
    slots: &[Slot],
    id: NodeId,
    height: usize,
    out: &mut Vec<u8>,
    steps: &mut Steps<L>,
) -> Result<Summary, AllocError>
    requires arena { IsArena slots.now nodes.old }
    requires node { HasHeight nodes.old id.0 height }
    ensures arena { IsArena slots.now nodes.new }
    ensures refreshed { Refreshed nodes.old nodes.new }
    ensures cost { steps.new + stale nodes.new ≤ steps.old + stale nodes.old }
    ensures summary { IfOk result (λ s. (n : Node) → IsNodeAt nodes.new id.0 n → n.summary ≡ Some s) }
{
    if let Some(summary) = nodes[id.0 as usize].summary {
        return Ok(summary);
    }
    let count = nodes[id.0 as usize].kids.len();
    for k in 0..count {
        let kid = nodes[id.0 as usize].kids[k];
        match kid.to {
            Link::Leaf(slot) => {
                let _slot = slot;
            }
            Link::Inner(below) => {
                let _summary = refresh(nodes, slots, below, height - 1, out, steps)?;
            }
        }
    }
    finish(nodes, slots, id, out, steps)
}

/// The root from the summary of what goes through the empty path.
pub fn root_from(slots: &[Slot], summary: Summary) -> Hash
    requires { SummaryFits (through (full slots.now)) slots.now [] (Some summary) }
    ensures { result ≡ root_at (through (full slots.now) []) (node (through (full slots.now)) 36 []) }
{
    match summary {
        Summary::Nothing => [0; 32],
        Summary::One(slot) => match element_at(slots, slot) {
            Some(x) => sole_root(&x),
            None => [0; 32],
        },
        Summary::Many(hash) => several_root(&hash),
    }
}

// The root of one element.
fn sole_root(element: &Element) -> Hash
    ensures { result ≡ digest_of Prefix.Root (0 ∷ element.now) }
{
    let mut bytes = [0; 37];
    bytes[1..].copy_from_slice(element);
    digest(Prefix::Root, &bytes)
}

// The root of several elements, by the digest of the node of the empty path.
fn several_root(node: &Hash) -> Hash
    ensures { result ≡ digest_of Prefix.Root (1 ∷ node.now) }
{
    let mut bytes = [1; 33];
    bytes[1..].copy_from_slice(node);
    digest(Prefix::Root, &bytes)
}
