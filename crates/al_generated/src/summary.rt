//! What is said of a chain.
ghost use Rattle.std.specs.Prelude.{◌≡◌, ◌++◌, decimal, length, Ok, IfOk, OnOk};
ghost use Rattle.al_eval.specs.State.{State, replay};
ghost use Rattle.al_generated.specs.Catchpoints.{label_lines, whole_summary};
ghost use Rattle.al_generated.specs.Summary.{line, number_line, summary};
ghost use Rattle.al_states.specs.Held.{money_in};
ghost use Rattle.al_states.specs.Keeping.{IsStates, held};

use al_catch::{Label, label_text};
use al_digest::hash_text;
use al_states::States;
use std::alloc::{AllocError, Global};

// A line of a word and a text.
fn put_line(out: &mut Vec<u8>, word: &[u8], text: &[u8]) -> Result<(), AllocError>
    ensures { OnOk result (out.new.items ≡ out.old.items ++ line word.now text.now) }
{
    out.extend_from_slice(word)?;
    out.push(b' ')?;
    out.extend_from_slice(text)?;
    out.push(b'\n')?;
    Ok(())
}

// A line of a word and a number.
fn put_number(alloc: Global, out: &mut Vec<u8>, word: &[u8], n: u64) -> Result<(), AllocError>
    ensures { OnOk result (out.new.items ≡ out.old.items ++ number_line word.now n) }
{
    let text = n.to_string(alloc)?;
    put_line(out, word, text.as_bytes())
}

// The money of all accounts, in microAlgos.
fn money(states: &States) -> Result<u64, AllocError>
    requires { IsStates states.now }
    ensures { (s : State) → replay (held states.now).origin (held states.now).blocks ≡ Ok s → IfOk result (λ sum. sum ≡ money_in s) }
{
    match states.supply(None) {
        Ok(supply) => {
            let totals = &supply.totals;
            Ok(totals.online.money + totals.offline.money + totals.apart.money)
        }
        Err(_) => Err(AllocError),
    }
}

// The summary of so many blocks, which the states hold.
fn summary(alloc: Global, blocks: u64, states: &States) -> Result<Vec<u8>, AllocError>
    requires { IsStates states.now }
    ensures { (s : State) → replay (held states.now).origin (held states.now).blocks ≡ Ok s → s.header.round ≡ length (held states.now).blocks → IfOk result (λ text. text.items ≡ summary blocks s) }
{
    let status = states.status();
    let sum = money(states)?;
    let mut out = Vec::new(alloc);
    put_number(alloc, &mut out, b"blocks", blocks)?;
    put_number(alloc, &mut out, b"transactions", states.transactions())?;
    put_number(alloc, &mut out, b"front", status.front)?;
    put_number(alloc, &mut out, b"floor", status.floor)?;
    put_line(&mut out, b"hash", &hash_text(&status.hash))?;
    put_number(alloc, &mut out, b"sum", sum)?;
    Ok(out)
}

// A line for each label.
fn put_labels(alloc: Global, out: &mut Vec<u8>, labels: &[Label]) -> Result<(), AllocError>
    ensures { OnOk result (out.new.items ≡ out.old.items ++ label_lines labels.now) }
{
    for label in labels {
        let text = label_text(alloc, label)?;
        put_line(out, b"catchpoint", text.as_slice())?;
    }
    Ok(())
}

/// The summary of so many blocks, which the states hold, with the labels of their catchpoints.
pub(crate) fn whole_summary(
    alloc: Global,
    blocks: u64,
    states: &States,
    labels: &[Label],
) -> Result<Vec<u8>, AllocError>
    requires { IsStates states.now }
    ensures { (s : State) → replay (held states.now).origin (held states.now).blocks ≡ Ok s → s.header.round ≡ length (held states.now).blocks → IfOk result (λ text. text.items ≡ whole_summary blocks s labels.now) }
{
    let mut out = summary(alloc, blocks, states)?;
    put_labels(alloc, &mut out, labels)?;
    Ok(out)
}
