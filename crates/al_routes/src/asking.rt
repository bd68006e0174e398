//! What a method and a target ask.
ghost use Rattle.std.specs.Prelude.{◌⊎◌};
ghost use Rattle.al_routes.specs.Asks.{Asks, IsMemory};

use crate::kinds::{asked, method_of};
use crate::paths::Routes;
use crate::request::{FormFault, Request};
use crate::target::{cut, pieces};
use std::alloc::Global;

impl Routes {
    /// What a method and a target ask.
    ///
    /// # Errors
    ///
    /// The first fault in the order of path, method, pieces and query; `Memory` only where memory is short.
    pub fn request(&self, alloc: Global, method: &str, target: &str) -> Result<Request, FormFault>
        ensures { IsMemory result ⊎ Asks method.now target.now result }
    {
        let (path, query) = cut(target);
        let Some(kind) = self.kind(path) else {
            return Err(FormFault::NoRoute);
        };
        if method != method_of(kind) {
            return Err(FormFault::Method);
        }
        match pieces(alloc, path) {
            Ok(pieces) => asked(kind, &pieces, query, query.as_bytes()),
            Err(_) => Err(FormFault::Memory),
        }
    }
}
