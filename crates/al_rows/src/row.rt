//! Rows of every kind.
ghost use Rattle.std.specs.Prelude.{◌≡◌, IfOk, Option};
ghost use Rattle.al_rows.specs.Rows.{has_params, is_zero, row_eq, same_row, unless_zero};

use crate::AccountRow;
use al_base::{AssetParams, Bytes};
use std::alloc::{AllocError, Global};

/// What an account holds of an asset.
#[derive(Clone, Copy, Debug, PartialEq, Eq)]
pub struct Holding {
    /// How many base units.
    pub amount: u64,
    /// Whether they may not move.
    pub frozen: bool,
}

/// What an account has of an asset.
#[derive(Debug, Drop, PartialEq, Eq)]
pub struct AssetRow {
    /// The parameters, with the creator.
    pub params: Option<AssetParams>,
    /// What it holds.
    pub holding: Option<Holding>,
}

/// The parameters of an application.
#[derive(Debug, Drop, PartialEq, Eq)]
pub struct AppParams {
    /// How many numbers the global state may have; at most 64.
    pub global_uints: u64,
    /// How many byte slices the global state may have; at most 64.
    pub global_slices: u64,
    /// How many numbers a local state may have; at most 64.
    pub local_uints: u64,
    /// How many byte slices a local state may have; at most 64.
    pub local_slices: u64,
    /// How many extra pages its programs have; at most 3.
    pub extra_pages: u64,
    /// The global state, of at most 8,192 bytes.
    pub state: Bytes,
}

/// What an account that has opted in has of an application.
#[derive(Debug, Drop, PartialEq, Eq)]
pub struct Local {
    /// How many numbers the state may have; at most 64.
    pub uints: u64,
    /// How many byte slices the state may have; at most 64.
    pub slices: u64,
    /// The state, of at most 8,192 bytes.
    pub state: Bytes,
}

/// What an account has of an application.
#[derive(Debug, Drop, PartialEq, Eq)]
pub struct AppRow {
    /// The parameters, with the creator.
    pub params: Option<AppParams>,
    /// The local state, where it has opted in.
    pub local: Option<Local>,
}

/// The value of a box, of at most 32,768 bytes.
#[derive(Debug, Drop, PartialEq, Eq)]
pub struct BoxRow {
    pub value: Bytes,
}

/// What stands under a key.
#[derive(Debug, Drop, PartialEq, Eq)]
pub enum Row {
    Account(AccountRow),
    Asset(AssetRow),
    App(AppRow),
    Box(BoxRow),
}

impl Row {
    /// The row, unless it is zero.
    #[tactic(auto, unfolding(crate::specs::Rows::is_zero))]
    pub fn unless_zero(self) -> Option<Row>
        ensures { result ≡ unless_zero self }
    {
        if self.is_zero() { None } else { Some(self) }
    }

    /// Whether it says nothing: an account row that is zero in all but its reward base, or a
    /// resource row without a part. Such a row is not kept.
    #[tactic(auto, unfolding(crate::specs::Rows::is_zero))]
    pub fn is_zero(&self) -> bool
        ensures { result ≡ is_zero self.now }
    {
        match self {
            Row::Account(r) => r.is_zero(),
            Row::Asset(a) => a.params.is_none() && a.holding.is_none(),
            Row::App(a) => a.params.is_none() && a.local.is_none(),
            Row::Box(_) => false,
        }
    }

    /// Whether it has the params of its asset or application.
    pub fn has_params(&self) -> bool
        ensures { result ≡ has_params self.now }
    {
        match self {
            Row::Asset(a) => a.params.is_some(),
            Row::App(a) => a.params.is_some(),
            Row::Account(_) | Row::Box(_) => false,
        }
    }

    // Whether this is the other row.
    fn same(&self, other: &Row) -> bool
        ensures { result ≡ row_eq self.now other.now }
    {
        self == other
    }

    /// An equal row.
    pub fn copy(&self, alloc: Global) -> Result<Row, AllocError>
        ensures { IfOk result (λ r. r ≡ self.now) }
    {
        match self {
            Row::Account(r) => Ok(Row::Account(*r)),
            Row::Asset(a) => Ok(Row::Asset(a.copy(alloc)?)),
            Row::App(a) => Ok(Row::App(a.copy(alloc)?)),
            Row::Box(b) => Ok(Row::Box(BoxRow {
                value: b.value.copy(alloc)?,
            })),
        }
    }
}

// Equal parameters of an asset.
fn copy_params(alloc: Global, params: &AssetParams) -> Result<AssetParams, AllocError>
    ensures { IfOk result (λ p. p ≡ params.now) }
{
    Ok(AssetParams {
        total: params.total,
        decimals: params.decimals,
        default_frozen: params.default_frozen,
        unit: params.unit.copy(alloc)?,
        name: params.name.copy(alloc)?,
        url: params.url.copy(alloc)?,
        meta: params.meta,
        manager: params.manager,
        reserve: params.reserve,
        freeze: params.freeze,
        clawback: params.clawback,
    })
}

impl AssetRow {
    // An equal row.
    fn copy(&self, alloc: Global) -> Result<AssetRow, AllocError>
        ensures { IfOk result (λ a. a ≡ self.now) }
    {
        let params = match &self.params {
            Some(params) => Some(copy_params(alloc, params)?),
            None => None,
        };
        Ok(AssetRow {
            params,
            holding: self.holding,
        })
    }
}

impl AppParams {
    // Equal parameters.
    fn copy(&self, alloc: Global) -> Result<AppParams, AllocError>
        ensures { IfOk result (λ p. p ≡ self.now) }
    {
        Ok(AppParams {
            global_uints: self.global_uints,
            global_slices: self.global_slices,
            local_uints: self.local_uints,
            local_slices: self.local_slices,
            extra_pages: self.extra_pages,
            state: self.state.copy(alloc)?,
        })
    }
}

impl Local {
    // An equal local state.
    fn copy(&self, alloc: Global) -> Result<Local, AllocError>
        ensures { IfOk result (λ l. l ≡ self.now) }
    {
        Ok(Local {
            uints: self.uints,
            slices: self.slices,
            state: self.state.copy(alloc)?,
        })
    }
}

// Equal parameters that may be there.
fn copy_app_params(
    alloc: Global,
    params: &Option<AppParams>,
) -> Result<Option<AppParams>, AllocError>
    ensures { IfOk result (λ p. p ≡ params.now) }
{
    match params {
        Some(params) => Ok(Some(params.copy(alloc)?)),
        None => Ok(None),
    }
}

// An equal local state that may be there.
fn copy_local(alloc: Global, local: &Option<Local>) -> Result<Option<Local>, AllocError>
    ensures { IfOk result (λ l. l ≡ local.now) }
{
    match local {
        Some(local) => Ok(Some(local.copy(alloc)?)),
        None => Ok(None),
    }
}

impl AppRow {
    // An equal row.
    fn copy(&self, alloc: Global) -> Result<AppRow, AllocError>
        ensures { IfOk result (λ a. a ≡ self.now) }
    {
        Ok(AppRow {
            params: copy_app_params(alloc, &self.params)?,
            local: copy_local(alloc, &self.local)?,
        })
    }
}

/// A copy of a row that may be there.
pub fn copy_row(alloc: Global, row: &Option<Row>) -> Result<Option<Row>, AllocError>
    ensures { IfOk result (λ r. r ≡ row.now) }
{
    match row {
        Some(row) => Ok(Some(row.copy(alloc)?)),
        None => Ok(None),
    }
}

/// Whether two rows are the same.
pub fn same_row(old: &Option<Row>, now: &Option<Row>) -> bool
    ensures { result ≡ same_row old.now now.now }
{
    match (old, now) {
        (Some(old), Some(now)) => old.same(now),
        (None, None) => true,
        _ => false,
    }
}
