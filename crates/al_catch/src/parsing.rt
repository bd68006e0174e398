//! Reading the texts of labels.
ghost use Rattle.std.specs.Prelude.{◌≡◌, ◌≢◌, ◌++◌, ◌∷◌, [], ◌==◌, false, length, All, MatchOption, Ok, Err};
ghost use Rattle.al_catch.specs.Labels.{HasLabelFault, IsLabel, ReadsLabel, label_text_of, parts_of};

use crate::number::round_in;
use crate::{Label, LabelFault};
use al_digest::parse_hash;

// What stands before and behind the first `#`.
fn cut(text: &[u8]) -> Option<(&[u8], &[u8])>
    ensures { MatchOption result (All (λ b. (b == 35) ≡ false) text.now) (λ h. All (λ b. (b == 35) ≡ false) h.0.now × (text.now ≡ h.0.now ++ 35 ∷ h.1.now)) }
{
    let place = text.iter().position(|c| *c == b'#')?;
    let (front, rest) = text.split_at(place);
    Some((front, &rest[1..]))
}

// What stands before and behind the only `#`.
#[tactic(auto, using(crate::proofs::LabelLemmas::no_mark, crate::proofs::LabelLemmas::more_marks, crate::proofs::LabelLemmas::one_mark))]
fn halves(text: &[u8]) -> Option<(&[u8], &[u8])>
    ensures { MatchOption result (length (parts_of text.now) ≢ 2) (λ h. parts_of text.now ≡ h.0.now ∷ h.1.now ∷ []) }
{
    let Some((front, behind)) = cut(text) else {
        return None;
    };
    match cut(behind) {
        Some(_) => None,
        None => Some((front, behind)),
    }
}

// The label whose text this is, or the first fault.
#[tactic(auto, using(crate::proofs::LabelLemmas::round_fault, crate::proofs::LabelLemmas::text_fault))]
fn read_label(text: &[u8]) -> Result<Label, LabelFault>
    ensures { ReadsLabel text.now result }
{
    let Some((front, behind)) = halves(text) else {
        return Err(LabelFault::Shape);
    };
    let Some(round) = round_in(front) else {
        return Err(LabelFault::Round);
    };
    match parse_hash(behind) {
        Ok(digest) => Ok(Label { round, digest }),
        Err(fault) => Err(LabelFault::Text(fault)),
    }
}

/// The label whose text this is. It takes no memory.
///
/// # Errors
///
/// The first fault, in the order of [`LabelFault`].
pub fn parse_label(text: &[u8]) -> Result<Label, LabelFault>
    ensures reads { ReadsLabel text.now result }
    ensures label { (l : Label) → IsLabel l → text.now ≡ label_text_of l → result ≡ Ok l }
    ensures fault { (f : LabelFault) → HasLabelFault text.now f → result ≡ Err f }
{
    read_label(text)
}
