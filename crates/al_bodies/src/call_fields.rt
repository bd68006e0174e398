//! The fields of an application's call that are kept as they stand.
ghost use Rattle.std.specs.Prelude.{◌≡◌, ◌++◌, ◌≤◌, ℕ, List, length, map, IfOk, OnErr, OnOk};
ghost use Rattle.std.specs.Ordering.{is_lt, nat_cmp};
ghost use Rattle.std.specs.Cmp.Lexicographic.{slice_cmp};
ghost use Rattle.al_msgpack.specs.declared.val.Entry.{Entry};
ghost use Rattle.al_msgpack.specs.Spelled.{IsFront, entries_spelled};
ghost use Rattle.al_record.specs.Columns.{with_entry};
ghost use Rattle.al_record.specs.Code.{listed, put_of, table_of};
ghost use Rattle.al_bodies.specs.Kept.{is_kept, kept, below, merged};

use al_msgpack::{Entries, Entry, write_entries};
use al_record::{Column, Content, write_field};
use std::alloc::{AllocError, Global};

/// A field that is kept, whatever stands in it.
pub fn is_kept(name: &[u8]) -> bool
    ensures { result ≡ is_kept name.now }
{
    name == b"al".as_slice()
        || (name.starts_with(b"ap") && name != b"apar".as_slice() && name != b"apid".as_slice())
}

/// The fields that are kept.
pub fn kept(alloc: Global, entries: &[Entry]) -> Result<Entries, AllocError>
    ensures { IfOk result (λ ks. ks ≡ kept entries.now) }
{
    let mut out = Entries::new(alloc);
    for e in entries {
        if is_kept(e.key.as_slice()) {
            out.push(e.copy(alloc)?)?;
        }
    }
    Ok(out)
}

/// Appends two lists of entries as one, in the order of their keys: kept fields, and the fields of
/// these contents, one for each column.
pub fn write_merged(
    kept: &[Entry],
    columns: &[Column],
    contents: &[Content],
    out: &mut Vec<u8>,
) -> Result<(), AllocError>
    requires { length columns.now ≡ length contents.now }
    ensures bytes { OnOk result (out.new.items ≡ out.old.items ++ entries_spelled (merged kept.now (listed (table_of columns.now) (map put_of contents.now)))) }
    ensures front { OnErr result (IsFront out.old.items out.new.items) }
{
    let mut rest = kept;
    for (column, content) in columns.iter().zip(contents) {
        rest = write_next(rest, column.0, content, out)?;
    }
    write_entries(rest, out)
}

/// Appends a field behind the entries with lower keys, unless its content is zero, and gives the
/// entries that are left.
fn write_next<'a>(
    kept: &'a [Entry],
    name: &str,
    content: &Content,
    out: &mut Vec<u8>,
) -> Result<&'a [Entry], AllocError>
    ensures bytes { IfOk result (λ rest. (es : List Entry) → out.new.items ++ entries_spelled (merged rest.now es) ≡ out.old.items ++ entries_spelled (merged kept.now (with_entry name.now (put_of content.now) es))) }
    ensures front { IsFront out.old.items out.new.items }
{
    if content.is_zero() {
        return Ok(kept);
    }
    let n = below(name.as_bytes(), kept);
    let (lower, higher) = kept.split_at(n);
    write_entries(lower, out)?;
    write_field(name, content, out)?;
    Ok(higher)
}

/// How many entries at the front have lower keys.
fn below(key: &[u8], entries: &[Entry]) -> usize
    ensures value { result ≡ below key.now entries.now }
    ensures within { result ≤ length entries.now }
{
    let mut n = 0;
    for e in entries {
        if !is_below(e.key.as_slice(), key) {
            return n;
        }
        n += 1;
    }
    n
}

fn is_below(a: &[u8], b: &[u8]) -> bool
    ensures { result ≡ is_lt (slice_cmp nat_cmp a.now b.now) }
{
    a.cmp(b).is_lt()
}
