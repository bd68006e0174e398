//! What a head asks, and how long its body is.
ghost use Rattle.std.specs.Prelude.{◌≡◌, ◌⊎◌};
ghost use Rattle.al_http.specs.Heads.{IsHeadOf};
ghost use Rattle.al_http.specs.Sizes.{size_read};
ghost use Rattle.al_routes.specs.Asks.{Asks, IsMemory};
ghost use Rattle.httparse.specs.Grammar.{IsRequestHead, RequestHead};

use crate::head::{BodySize, Head, MOST_BODY};
use al_routes::{FormFault, Request, Routes};
use std::alloc::Global;

/// Why the body of a request is not read, the first in this order.
#[derive(Clone, Copy, Debug, PartialEq, Eq)]
pub enum SizeFault {
    /// It is coded.
    Coding,
    /// Its length is no decimal, or is said several times.
    BadLength,
    /// It is longer than a block may be.
    TooLarge,
}

impl Head {
    /// What the head asks.
    ///
    /// # Errors
    ///
    /// The first fault of its method and target; `Memory` only where memory is short.
    pub fn request(&self, alloc: Global, routes: &Routes) -> Result<Request, FormFault>
        ensures { (h : RequestHead) → IsRequestHead h → IsHeadOf h self.now → IsMemory result ⊎ Asks h.method h.target result }
    {
        match str::from_utf8(self.target.as_slice()) {
            Ok(target) => routes.request(alloc, self.method.as_str(), target),
            Err(_) => Err(FormFault::NoRoute),
        }
    }

    /// The bytes of the body.
    ///
    /// # Errors
    ///
    /// Why the body is not read.
    pub fn size(&self) -> Result<usize, SizeFault>
        ensures { result ≡ size_read self.now.body }
    {
        match self.body {
            BodySize::Coded => Err(SizeFault::Coding),
            BodySize::Bad => Err(SizeFault::BadLength),
            BodySize::Length(length) => {
                if length > MOST_BODY {
                    return Err(SizeFault::TooLarge);
                }
                Ok(length as usize)
            }
        }
    }
}
