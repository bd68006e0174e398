//! Roots of sets of elements, and what is refused.
ghost use Rattle.std.specs.Prelude.{◌≡◌, ◌<◌};

use al_digest::Steps;
use al_trie::{Element, Trie, TrieFault};
use std::alloc::{AllocError, Global};
use std::marker::Brand;
use std::sync::ledger::{Blank, Ledger};
use std::test::Fail;

// Elements, each by how many bytes 7 it begins with and the byte behind these, and the root of them all. The roots are
// those of tools/trie_roots.py.
const ROWS: [(&[(usize, u8)], &[u8; 64]); 8] = [
    (
        &[],
        b"0000000000000000000000000000000000000000000000000000000000000000",
    ),
    (
        &[(0, 1)],
        b"8a188c9fe25ca79314250ce35ba7a0f6df6446580dc15e599d0bb743f37e6498",
    ),
    (
        &[(0, 1), (0, 2)],
        b"c555edfa95890a5cd78d09171a044c2a0ae77db1910a083f512f050a24328808",
    ),
    (
        &[(1, 1), (1, 2)],
        b"0b7063649635a253bb7b8111967a370cb681dae5c1fc28ad887de6da3e72d5f8",
    ),
    (
        &[(5, 0), (5, 255)],
        b"3c4c9edb4b04a535d821d03cd6139b723ca7c0944a84a07c27b08d54cb29e2e7",
    ),
    (
        &[(35, 1), (35, 2)],
        b"242164a013f408b0ace7d358a830fbcb71c2faf2685726fb1dcc6ae54dc030d0",
    ),
    (
        &[(35, 1), (35, 2), (35, 3), (5, 9), (1, 8), (0, 200)],
        b"b11ad18a2dbe52ee75079c6f73f9b0b370d3ab5a4c3a49051cda4cd772d1ca92",
    ),
    (
        &[
            (0, 9),
            (1, 9),
            (2, 9),
            (4, 9),
            (5, 9),
            (5, 10),
            (34, 9),
            (35, 9),
            (35, 10),
            (35, 255),
        ],
        b"307307487393d3433eee95be5a4e1f4ed3691be6d59597b1fc5881dc8529575c",
    ),
];

// So many bytes 7, then bytes that rise from one on.
fn element(shared: usize, tail: u8) -> Element {
    let mut bytes = [7; 36];
    let mut next = tail;
    for byte in bytes.iter_mut().skip(shared) {
        *byte = next;
        next = next.wrapping_add(1);
    }
    bytes
}

// The root in hexadecimal.
fn root_text(trie: &mut Trie) -> Result<[u8; 64], AllocError> {
    counted_text::<Brand>(trie, Blank::new(1))
}

fn counted_text<L: Ledger>(trie: &mut Trie, blank: Blank) -> Result<[u8; 64], AllocError>
    requires name { blank.name ≡ L.name }
    requires parts { blank.parts ≡ L.parts }
    requires some { 0 < blank.parts }
{
    let mut steps = Steps::<L>::new(blank);
    let root = trie.root(&mut steps)?;
    let mut text = [0; 64];
    match hex::encode_to_slice(&root, &mut text) {
        Ok(()) => Ok(text),
        Err(_) => Err(AllocError),
    }
}

// The elements of a row.
fn elements(alloc: Global, members: &[(usize, u8)]) -> Result<Vec<Element>, AllocError> {
    let mut list = Vec::new(alloc);
    for (shared, tail) in members {
        list.push(element(*shared, *tail))?;
    }
    Ok(list)
}

// Adds the elements in a row's order and then others, and takes the others out again.
fn with_others(trie: &mut Trie, members: &[Element]) -> bool {
    let mut fine = true;
    for e in members {
        fine &= trie.add(e).is_ok();
    }
    for shared in 0..36 {
        fine &= trie.add(&element(shared, 100)).is_ok();
    }
    for shared in 0..36 {
        fine &= trie.remove(&element(shared, 100)).is_ok();
    }
    fine
}

// Adds the elements from the last to the first, asks for a root, and adds each a second time.
fn backwards(trie: &mut Trie, members: &[Element]) -> Result<bool, AllocError> {
    let mut fine = true;
    for e in members.iter().rev() {
        fine &= trie.add(e).is_ok();
        root_text(trie)?;
        fine &= trie.add(e) == Err(TrieFault::AlreadyThere);
    }
    Ok(fine)
}

// Removes all elements, the first first.
fn emptied(trie: &mut Trie, members: &[Element]) -> bool {
    let mut fine = true;
    for e in members {
        fine &= trie.remove(e).is_ok();
        fine &= trie.remove(e) == Err(TrieFault::NotThere);
    }
    fine
}

#[test]
fn roots(rt: HostRuntime) -> Result<(), Fail> {
    for (members, root) in ROWS {
        let list = elements(rt.alloc(), members)?;
        let mut whole = Trie::rebuild(rt.alloc(), &list)?;
        assert!(rt; whole.len() == list.len());
        assert!(rt; root_text(&mut whole)? == *root);
        let mut trie = Trie::new(rt.alloc());
        assert!(rt; with_others(&mut trie, &list));
        assert!(rt; trie.len() == list.len());
        assert!(rt; root_text(&mut trie)? == *root);
        assert!(rt; emptied(&mut trie, &list));
        assert!(rt; trie.len() == 0);
        assert!(rt; root_text(&mut trie)? == [b'0'; 64]);
        assert!(rt; backwards(&mut trie, &list)?);
        assert!(rt; root_text(&mut trie)? == *root);
    }
    Ok(())
}

#[test]
fn refusals(rt: HostRuntime) -> Result<(), Fail> {
    let twice = [element(5, 1), element(0, 1), element(5, 1)];
    let fault = Trie::rebuild(rt.alloc(), &twice).err();
    assert!(rt; fault == Some(TrieFault::AlreadyThere));
    let rows = [
        (TrieFault::AlreadyThere, 1),
        (TrieFault::NotThere, 2),
        (TrieFault::Memory, 3),
    ];
    for (fault, number) in rows {
        assert!(rt; fault.number() == number);
    }
    Ok(())
}
