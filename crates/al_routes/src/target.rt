//! The parts of a target.
ghost use Rattle.std.specs.Prelude.{◌≡◌, map, IfOk};
ghost use Rattle.al_routes.specs.Asks.{path_of, piece, query_of};
ghost use Rattle.al_routes.specs.Paths.{pieces_of};

use std::alloc::{AllocError, Global};

/// The path and the query.
pub(crate) fn cut(target: &str) -> (&str, &str)
    ensures path { result.0.now ≡ path_of target.now }
    ensures query { result.1.now ≡ query_of target.now }
{
    match target.split_once('?') {
        Some((path, query)) => (path, query),
        None => (target, ""),
    }
}

/// What stands before, between and behind the slashes of a path.
pub(crate) fn pieces(alloc: Global, path: &str) -> Result<Vec<&str>, AllocError>
    ensures { IfOk result (λ v. map (λ w. w.now) v.items ≡ pieces_of path.now) }
{
    path.split('/').collect(alloc)
}

/// The piece at a place, or nothing.
pub(crate) fn piece<'a>(pieces: &[&'a str], n: usize) -> &'a [u8]
    ensures { result.now ≡ piece n (map (λ w. w.now) pieces.now) }
{
    match pieces.get(n) {
        Some(text) => text.as_bytes(),
        None => b"",
    }
}
