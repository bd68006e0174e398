//! An asset that there is.
use al_base::{Address, AssetParams};

/// An asset that there is.
#[derive(Debug, Drop)]
pub struct Issued {
    /// Who created it.
    pub creator: Address,
    /// Its parameters.
    pub params: AssetParams,
}
