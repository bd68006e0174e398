//! Labels.
ghost use Rattle.std.specs.Prelude.{◌≡◌, ◌≤◌, ◌^◌, IfOk};
ghost use Rattle.al_catch.specs.Labels.{IsLabel, label_of, label_string, label_text_of, number_of};

use al_base::{Bytes, Hash};
use al_digest::{Prefix, TextFault, digest, hash_text};
use al_rewards::{Totals, encode_totals};
use std::alloc::{AllocError, Global};

/// What commits to the ledger's state of a round.
#[derive(Clone, Copy, Debug, PartialEq, Eq)]
pub struct Label {
    /// The round, from 1 to 2^62 where it was read of a text.
    pub round: u64,
    /// The digest over the block hash of that round, the root of the rows and the totals.
    pub digest: Hash,
}

/// What is wrong with the text of a label, the first in this order.
#[derive(Clone, Copy, Debug, PartialEq, Eq)]
pub enum LabelFault {
    /// It has not exactly one `#`.
    Shape,
    /// What stands before the `#` is no decimal of 1 to 2^62, or has a leading zero.
    Round,
    /// What stands behind the `#` is no text of a digest.
    Text(TextFault),
}

impl LabelFault {
    /// Its number, from 1 on in the order above.
    pub fn number(&self) -> u8
        ensures { result ≡ number_of self.now }
    {
        match self {
            LabelFault::Shape => 1,
            LabelFault::Round => 2,
            LabelFault::Text(_) => 3,
        }
    }
}

/// The text of a label: its round in decimal, `#` and the 52 letters of its digest.
///
/// # Errors
///
/// Only where memory is short.
pub fn label_text(alloc: Global, label: &Label) -> Result<Bytes, AllocError>
    ensures { IfOk result (λ b. b ≡ label_text_of label.now) }
{
    let mut text = Vec::new(alloc);
    text.extend_from_slice(label.round.to_string(alloc)?.as_bytes())?;
    text.push(b'#')?;
    text.extend_from_slice(&hash_text(&label.digest))?;
    Ok(Bytes::from_vec(text))
}

/// The label of a round: its digest is taken of the hash of the round's block, the root of the
/// rows and the spelling of the totals, one behind the other.
///
/// # Errors
///
/// Only where memory is short.
pub fn label_of(
    alloc: Global,
    round: u64,
    block: &Hash,
    root: &Hash,
    totals: &Totals,
) -> Result<Label, AllocError>
    ensures value { IfOk result (λ l. l ≡ label_of round (label_string block.now root.now totals.now)) }
    ensures own { 1 ≤ round → round ≤ 2 ^ 62 → IfOk result IsLabel }
{
    let mut string = Vec::new(alloc);
    string.extend_from_slice(block)?;
    string.extend_from_slice(root)?;
    encode_totals(totals, &mut string)?;
    Ok(Label {
        round,
        digest: digest(Prefix::Label, string.as_slice()),
    })
}
