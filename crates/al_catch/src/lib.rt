//! Catchpoints: the labels that commit to a state of the ledger, and the files that hold it.
#![tactic(auto)]

mod chunk;
mod chunk_files;
mod decoding;
mod files;
mod info;
mod label;
mod laws;
mod number;
mod parsing;
mod rows_at;
mod saving;
mod tip;
mod writing;

pub use chunk::{Chunk, ChunkRow, ChunkRows, encode_chunk};
pub use decoding::{FileFault, decode_chunk, decode_info};
pub use files::CatchFile;
pub use info::{CatchInfo, encode_info};
pub use label::{Label, LabelFault, label_of, label_text};
pub use laws::{own_names, record_laws};
pub use parsing::parse_label;
pub use rows_at::{RowsAt, RowsFault};
pub use tip::write_tip;
pub use writing::{CatchRefusal, RowsWritten, is_catchpoint_round, write_rows};
