//! The paths that are served.
ghost use Rattle.std.specs.Prelude.{◌≡◌, IfOk};
ghost use Rattle.al_routes.specs.Paths.{IsKindOf, table};

use matchit::{InsertError, Router};
use std::alloc::{AllocError, Global};

/// What a path names.
#[derive(Clone, Copy, Debug, PartialEq, Eq)]
pub enum Kind {
    Blocks,
    Account,
    Asset,
    App,
    BoxOf,
    Creator,
    Online,
    Circulation,
    Supply,
    Standing,
}

/// The paths that are served. It is made once, and answers any number of requests.
#[derive(Drop)]
pub struct Routes {
    router: Router<Kind>,
    ghost whole: { router ≡ table },
}

fn router(alloc: Global) -> Result<Router<Kind>, InsertError>
    ensures { IfOk result (λ r. r ≡ table) }
{
    let mut router = Router::new(alloc);
    router.insert("/v1/blocks", Kind::Blocks)?;
    router.insert("/v1/accounts/{a}", Kind::Account)?;
    router.insert("/v1/accounts/{a}/assets/{id}", Kind::Asset)?;
    router.insert("/v1/accounts/{a}/apps/{id}", Kind::App)?;
    router.insert("/v1/apps/{id}/boxes/{hex}", Kind::BoxOf)?;
    router.insert("/v1/creators/{id}", Kind::Creator)?;
    router.insert("/v1/online/{a}", Kind::Online)?;
    router.insert("/v1/circulation", Kind::Circulation)?;
    router.insert("/v1/supply", Kind::Supply)?;
    router.insert("/v1/status", Kind::Standing)?;
    Ok(router)
}

impl Routes {
    /// All paths.
    ///
    /// # Errors
    ///
    /// `AllocError` where there is no memory for them.
    pub fn new(alloc: Global) -> Result<Routes, AllocError> {
        match router(alloc) {
            Ok(router) => Ok(Routes { router }),
            Err(_) => Err(AllocError),
        }
    }

    /// The kind of a path, if it has one.
    pub(crate) fn kind(&self, path: &str) -> Option<Kind>
        ensures { IsKindOf path.now result }
    {
        match self.router.at(path) {
            Ok(found) => Some(*found.value),
            Err(_) => None,
        }
    }
}
