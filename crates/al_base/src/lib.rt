//! The ledger's smallest words: addresses, keys of rows, bytes, and the outside that bytes come from and go to.
#![tactic(auto)]

mod account;
mod address;
mod asset;
mod bytes;
mod folder;
mod key;
mod key_bytes;
mod memory;
mod name;
mod online;
mod plan;
mod quiet;
mod sink;
mod source;
mod system;

pub use account::{Special, Status};
pub use address::{Address, Addresses, Hash};
pub use asset::AssetParams;
pub use bytes::Bytes;
pub use folder::{Files, Folder, FolderRefusal, NamedFile};
pub use key::{CreatorChange, CreatorChanges, Key};
pub use key_bytes::KeyBytes;
pub use memory::{MemFolder, MemSink, MemSource};
pub use name::BoxName;
pub use online::{History, LevelAt, Levels, OnlineChange, OnlineChanges, OnlineData, Version};
pub use plan::Plan;
pub use quiet::{QuietFolder, QuietSink, QuietSource};
pub use sink::Sink;
pub use source::{Failed, Source};
pub use system::{DirFolder, ReadSource, WriteSink};
