//! Values of the wire format.
use al_base::Bytes;
use sqlite_items::Items;

/// A value of the wire format. It is canonical where each map's keys rise strictly, compared byte
/// by byte with a proper prefix first, containers nest at most 16 deep, and each length is below
/// 2^32.
#[cycle(val)]
#[derive(Debug, Drop)]
pub enum Val {
    /// An unsigned number.
    Num(u64),
    /// True or false.
    Flag(bool),
    /// A string. It may hold any bytes, also such as are no UTF-8.
    Str(Bytes),
    /// A byte string.
    Bin(Bytes),
    /// A list of values.
    List(Items<Val>),
    /// A map whose keys are strings.
    Map(Items<Entry>),
}

/// An entry of a map: a key and its value.
#[cycle(val)]
#[derive(Debug, Drop)]
pub struct Entry {
    pub key: Bytes,
    pub val: Val,
}

/// A list of values.
pub type Vals = Items<Val>;

/// A list of entries.
pub type Entries = Items<Entry>;
