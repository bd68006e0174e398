//! Records of the wire format: one engine over one table of fields for each kind.
//!
//! A record is a map whose entries are the fields of a value. A field with its zero value (number
//! 0, false, an empty string, list or map, empty bytes, an array of zeros) is left out, so each
//! value has one record. A kind of record is a table of its fields in byte order of their names,
//! each with its family and its range.
//!
//! Reading: [`check`] finds the first fault of the entries by two passes. The first looks, entry by
//! entry, for a field that is unknown, of the wrong family, or present with its zero value; the
//! second looks, field by field, for a value outside its range, and an inner record is checked at
//! its field's place in the second pass. Then [`number`], [`array`] and the like read the fields.
//! Writing: [`listed`] gives the entries of a table's contents.
#![tactic(auto)]

mod family;
mod fault;
mod kind;
mod lookup;
mod pass;
mod record;
mod shape;
mod spell;
mod theorems;
mod write;

pub use family::{bytes_of, flag_of, list_of, map_of, number_of, text_of};
pub use fault::{Fault, ReadError};
pub use kind::{field, number_kind, range, text_kind};
pub use lookup::{addresses, array, bytes, find, flag, list, map, number, text};
pub use pass::{check, check_fields, check_ranges, fitting};
pub use record::{
    InnerRecord, Record, encode_record, read_all, read_member, write_list_of, write_record,
    write_records,
};
pub use shape::{ANY_BYTES, COUNT, Column, HASH, Shape};
pub use spell::{count_written, write_field, write_fields, write_inner, write_listed};
pub use theorems::record_laws;
pub use write::{Content, listed, put, put_list, put_map};
