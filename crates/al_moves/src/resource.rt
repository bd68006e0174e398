//! What rows count for the accounts that own them.
ghost use Rattle.std.specs.Prelude.{◌≡◌, ◌≤◌, ◌^◌, true, IfSome, length};
ghost use Rattle.std.specs.Option.{option_map};
ghost use Rattle.al_rows.specs.Rows.{CountsInRange, InRange, LocalInRange, ParamsInRange};
ghost use Rattle.al_moves.specs.Resources.{AreFew, counted_at, counts_at, counts_within, no_counts, of_local, of_params, one_if, recounted, resource_counts, box_counts, app_account, same_counts};
ghost use Rattle.al_base.specs.Name.{name_of};
ghost use Rattle.al_overlay.specs.Held.{at, nows};

use al_base::{Address, BoxName, Key};
use al_digest::{Prefix, digest};
use al_overlay::Held;
use al_rows::{AccountRow, AppParams, AppRow, AssetRow, BoxRow, Local, MAX_COUNT, Row};
use std::collections::BTreeMap;

/// How many assets, applications, schema entries, extra pages and boxes a row counts for the
/// account that owns it, by the counts of that account.
#[derive(Clone, Copy)]
pub struct Counts {
    pub assets_held: u64,
    pub assets_created: u64,
    pub apps_created: u64,
    pub apps_opted: u64,
    pub extra_pages: u64,
    pub uints: u64,
    pub byte_slices: u64,
    pub boxes: u64,
    pub box_bytes: u64,
}

impl Counts {
    // What no row counts.
    fn none() -> Counts
        ensures { result ≡ no_counts }
    {
        Counts {
            assets_held: 0,
            assets_created: 0,
            apps_created: 0,
            apps_opted: 0,
            extra_pages: 0,
            uints: 0,
            byte_slices: 0,
            boxes: 0,
            box_bytes: 0,
        }
    }

    /// Whether these are the same as others.
    pub fn same(&self, other: &Counts) -> bool
        ensures { result ≡ same_counts self.now other.now }
    {
        self.assets_held == other.assets_held
            && self.assets_created == other.assets_created
            && self.apps_created == other.apps_created
            && self.apps_opted == other.apps_opted
            && self.extra_pages == other.extra_pages
            && self.uints == other.uints
            && self.byte_slices == other.byte_slices
            && self.boxes == other.boxes
            && self.box_bytes == other.box_bytes
    }
}

/// The account of an application.
#[tactic(auto, unfolding(al_base::specs::Keys::number_bytes))]
pub fn app_account(app: u64) -> Address
    ensures { result ≡ app_account app }
{
    Address(digest(Prefix::App, &app.to_be_bytes()))
}

fn one_if(b: bool) -> u64
    ensures { result ≡ one_if b }
{
    if b { 1 } else { 0 }
}

fn extra_pages(params: &Option<AppParams>) -> u64
    ensures { result ≡ of_params (λ p. p.extra_pages) params.now }
{
    match params {
        Some(params) => params.extra_pages,
        None => 0,
    }
}

fn global_uints(params: &Option<AppParams>) -> u64
    requires { ParamsInRange params.now }
    ensures value { result ≡ of_params (λ p. p.global_uints) params.now }
    ensures most { result ≤ 64 }
{
    match params {
        Some(params) => params.global_uints,
        None => 0,
    }
}

fn global_slices(params: &Option<AppParams>) -> u64
    requires { ParamsInRange params.now }
    ensures value { result ≡ of_params (λ p. p.global_slices) params.now }
    ensures most { result ≤ 64 }
{
    match params {
        Some(params) => params.global_slices,
        None => 0,
    }
}

fn local_uints(local: &Option<Local>) -> u64
    requires { LocalInRange local.now }
    ensures value { result ≡ of_local (λ l. l.uints) local.now }
    ensures most { result ≤ 64 }
{
    match local {
        Some(local) => local.uints,
        None => 0,
    }
}

fn local_slices(local: &Option<Local>) -> u64
    requires { LocalInRange local.now }
    ensures value { result ≡ of_local (λ l. l.slices) local.now }
    ensures most { result ≤ 64 }
{
    match local {
        Some(local) => local.slices,
        None => 0,
    }
}

fn asset_counts(asset: &AssetRow) -> Counts
    ensures { result ≡ resource_counts (Row.Asset asset.now) }
{
    Counts {
        assets_held: one_if(asset.holding.is_some()),
        assets_created: one_if(asset.params.is_some()),
        ..Counts::none()
    }
}

fn app_counts(app: &AppRow) -> Counts
    requires params { ParamsInRange app.now.params }
    requires local { LocalInRange app.now.local }
    ensures { result ≡ resource_counts (Row.App app.now) }
{
    Counts {
        apps_created: one_if(app.params.is_some()),
        apps_opted: one_if(app.local.is_some()),
        extra_pages: extra_pages(&app.params),
        uints: global_uints(&app.params) + local_uints(&app.local),
        byte_slices: global_slices(&app.params) + local_slices(&app.local),
        ..Counts::none()
    }
}

fn box_counts(name: &BoxName, there: &BoxRow) -> Counts
    requires { length there.now.value ≤ 32768 }
    ensures { result ≡ box_counts (name_of name.now) (Row.Box there.now) }
{
    Counts {
        boxes: 1,
        box_bytes: name.as_slice().len() as u64 + there.value.len() as u64,
        ..Counts::none()
    }
}

fn resource_counts(key: &Key, row: &Row) -> Counts
    requires { InRange key.now row.now }
    ensures { result ≡ counted_at key.now row.now }
{
    match (key, row) {
        (Key::Resource(_, _), Row::Asset(asset)) => asset_counts(asset),
        (Key::Resource(_, _), Row::App(app)) => app_counts(app),
        (Key::Box(_, name), Row::Box(there)) => box_counts(name, there),
        _ => Counts::none(),
    }
}

/// What a row that may be there counts for the owner of its key.
pub fn counts_at(key: &Key, row: &Option<Row>) -> Counts
    requires { IfSome row.now (InRange key.now) }
    ensures { result ≡ counts_at key.now row.now }
{
    match row {
        Some(row) => resource_counts(key, row),
        None => Counts::none(),
    }
}

/// What the row counts that is held under a key.
pub fn counts_held(rows: &BTreeMap<Key, Held>, key: &Key) -> Option<Counts>
    requires { (q : Key) → IfSome (at rows.now.entries q) (λ h. IfSome h.row (InRange q)) }
    ensures { result ≡ option_map (counts_at key.now) (at (nows rows.now.entries) key.now) }
{
    match rows.get(key) {
        Some(held) => Some(counts_at(key, &held.row)),
        None => None,
    }
}

/// The account with each count moved by the difference of what a row before and a row now count,
/// and never below 0.
pub fn recounted(r: AccountRow, old: &Counts, new: &Counts) -> AccountRow
    requires counts { CountsInRange r }
    requires few { AreFew new.now }
    ensures { result ≡ recounted old.now new.now r }
{
    AccountRow {
        assets_held: (r.assets_held + new.assets_held).saturating_sub(old.assets_held),
        assets_created: (r.assets_created + new.assets_created).saturating_sub(old.assets_created),
        apps_created: (r.apps_created + new.apps_created).saturating_sub(old.apps_created),
        apps_opted: (r.apps_opted + new.apps_opted).saturating_sub(old.apps_opted),
        extra_pages: (r.extra_pages + new.extra_pages).saturating_sub(old.extra_pages),
        uints: (r.uints + new.uints).saturating_sub(old.uints),
        byte_slices: (r.byte_slices + new.byte_slices).saturating_sub(old.byte_slices),
        boxes: (r.boxes + new.boxes).saturating_sub(old.boxes),
        box_bytes: (r.box_bytes + new.box_bytes).saturating_sub(old.box_bytes),
        ..r
    }
}

/// Whether no count of an account passes the most.
pub fn counts_within(r: &AccountRow) -> bool
    ensures value { result ≡ counts_within r.now }
    ensures range { result ≡ true → CountsInRange r.now }
{
    r.assets_held <= MAX_COUNT
        && r.assets_created <= MAX_COUNT
        && r.apps_created <= MAX_COUNT
        && r.apps_opted <= MAX_COUNT
        && r.extra_pages <= MAX_COUNT
        && r.uints <= MAX_COUNT
        && r.byte_slices <= MAX_COUNT
        && r.boxes <= MAX_COUNT
        && r.box_bytes <= MAX_COUNT
}
