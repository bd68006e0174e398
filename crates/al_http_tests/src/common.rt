//! The head at the front of bytes.

use al_http::{Head, HeadRead, read_head};
use std::alloc::Global;
use std::test::Fail;

/// The whole head at the front.
pub fn head_of(alloc: Global, bytes: &[u8]) -> Result<Head, Fail> {
    match read_head(alloc, bytes)? {
        HeadRead::Got(head) => Ok(head),
        _ => Err(Fail::new("no head")),
    }
}
