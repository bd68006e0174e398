//! Queries.
ghost use Rattle.std.specs.Prelude.{◌≡◌, ◌==◌};
ghost use Rattle.std.specs.List.{before_first, after_first};
ghost use Rattle.al_routes.specs.Texts.{IsBoth, IsRound, IsSomeRound, IsSpan, IsVote, Reads};

use crate::values::number;

/// Nothing, or a round.
pub(crate) fn round(query: &[u8]) -> Option<Option<u64>>
    ensures { Reads (IsRound query.now) result }
{
    if query.is_empty() {
        return Some(None);
    }
    let Some(digits) = query.strip_prefix(b"round=") else {
        return None;
    };
    match number(digits) {
        Some(n) => Some(Some(n)),
        None => None,
    }
}

// A round that is there.
fn some_round(text: &[u8]) -> Option<u64>
    ensures { Reads (IsSomeRound text.now) result }
{
    let Some(digits) = text.strip_prefix(b"round=") else {
        return None;
    };
    match number(digits) {
        Some(n) => Some(n),
        None => None,
    }
}

// A round of votes.
fn vote(text: &[u8]) -> Option<u64>
    ensures { Reads (IsVote text.now) result }
{
    let Some(digits) = text.strip_prefix(b"vote=") else {
        return None;
    };
    match number(digits) {
        Some(n) => Some(n),
        None => None,
    }
}

// What stands before and behind the first ampersand.
fn halves(query: &str) -> (&[u8], &[u8])
    ensures first { result.0.now ≡ before_first (λ b. b == 38) query.now }
    ensures second { result.1.now ≡ after_first (λ b. b == 38) query.now }
{
    match query.split_once('&') {
        Some((first, second)) => (first.as_bytes(), second.as_bytes()),
        None => (query.as_bytes(), b""),
    }
}

// A round and a round of votes.
fn both(query: &str) -> Option<(u64, u64)>
    ensures { Reads (IsBoth query.now) result }
{
    let (first, second) = halves(query);
    let Some(round) = some_round(first) else {
        return None;
    };
    let Some(vote) = vote(second) else {
        return None;
    };
    Some((round, vote))
}

/// A round, a round of votes, both in this order, or nothing.
pub(crate) fn span(query: &str) -> Option<(Option<u64>, Option<u64>)>
    ensures { Reads (IsSpan query.now) result }
{
    if let Some(round) = round(query.as_bytes()) {
        return Some((round, None));
    }
    if let Some(vote) = vote(query.as_bytes()) {
        return Some((None, Some(vote)));
    }
    match both(query) {
        Some((round, vote)) => Some((Some(round), Some(vote))),
        None => None,
    }
}
