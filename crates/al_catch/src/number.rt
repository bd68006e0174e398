//! Rounds in decimal.
ghost use Rattle.std.specs.Prelude.{◌≡◌, ◌≢◌, ◌<◌, ℕ, get_or, length, MatchBool};
ghost use Rattle.al_catch.specs.Labels.{IsRoundText, Reads};

/// The greatest round.
const MOST_ROUND: u64 = 1 << 62;

// Whether there is a first byte, and it is no zero.
#[tactic(auto, using(crate::proofs::NumberLemmas::not_empty, crate::proofs::NumberLemmas::no_leading_zero))]
fn leads(text: &[u8]) -> bool
    ensures { MatchBool result ((0 < length text.now) × (get_or text.now 0 0 ≢ 48)) ((n : ℕ) → IsRoundText text.now n → ⊥) }
{
    if text.is_empty() {
        return false;
    }
    text[0] != b'0'
}

/// A decimal of 1 to 2^62 without sign or leading zero.
pub(crate) fn round_in(text: &[u8]) -> Option<u64>
    ensures { Reads (IsRoundText text.now) result }
{
    if !leads(text) {
        return None;
    }
    let mut n: u64 = 0;
    for c in text {
        if !c.is_ascii_digit() {
            return None;
        }
        n = n.saturating_mul(10).saturating_add(u64::from(*c - b'0'));
        if n > MOST_ROUND {
            return None;
        }
    }
    Some(n)
}
