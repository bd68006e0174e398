//! What an asset is.
use crate::{Address, Bytes, Hash};

/// The parameters of an asset.
#[derive(Debug, Drop, PartialEq, Eq)]
pub struct AssetParams {
    /// How many base units there are.
    pub total: u64,
    /// How many decimals a shown unit has.
    pub decimals: u64,
    /// Whether a new holding is frozen.
    pub default_frozen: bool,
    /// The name of a unit, of any bytes.
    pub unit: Bytes,
    /// The name of the asset, of any bytes.
    pub name: Bytes,
    /// Where more is said, of any bytes.
    pub url: Bytes,
    /// A digest of what more is said.
    pub meta: Hash,
    /// Who may change and destroy it; zero is nobody.
    pub manager: Address,
    /// Who is named as holding what is not given out; zero is nobody.
    pub reserve: Address,
    /// Who may freeze holdings; zero is nobody.
    pub freeze: Address,
    /// Who may take from holdings; zero is nobody.
    pub clawback: Address,
}
