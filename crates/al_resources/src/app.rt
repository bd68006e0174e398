//! An application that there is.
use al_base::Address;
use al_rows::AppParams;

/// An application that there is.
#[derive(Debug, Drop)]
pub struct Made {
    /// Who created it.
    pub creator: Address,
    /// Its parameters.
    pub params: AppParams,
}
