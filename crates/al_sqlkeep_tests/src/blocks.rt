//! Blocks in a database.
use al_keeper::{BlockKeeper, KeepFault};
use al_sqlkeep::SqlBlocks;
use sqlite::{Alter, Connection};
use std::alloc::{AllocError, Global};
use std::test::*;

/// What is made in the database by hand, and what the blocks answer then: the first and the last
/// round, the bytes of round 4, and how many faults were counted.
const CASES: [(&str, &str); 10] = [
    ("", "- - f0"),
    (
        "CREATE TABLE blocks (at INTEGER PRIMARY KEY, v BLOB NOT NULL); INSERT INTO blocks VALUES (3, x'03'), (4, x'0405')",
        "3 to 4, 4 5 f0",
    ),
    (
        "CREATE TABLE blocks (at INTEGER PRIMARY KEY, v BLOB NOT NULL); INSERT INTO blocks VALUES (5, x'05')",
        "5 to 5 - f0",
    ),
    (
        "CREATE TABLE blocks (at INTEGER PRIMARY KEY, v BLOB NOT NULL); INSERT INTO blocks VALUES (4611686018427387904, x'05')",
        "4611686018427387904 to 4611686018427387904 - f0",
    ),
    // A round is missing, is 0, below it or above the greatest.
    (
        "CREATE TABLE blocks (at INTEGER PRIMARY KEY, v BLOB NOT NULL); INSERT INTO blocks VALUES (3, x'03'), (5, x'05')",
        "refused",
    ),
    (
        "CREATE TABLE blocks (at INTEGER PRIMARY KEY, v BLOB NOT NULL); INSERT INTO blocks VALUES (0, x'03'), (1, x'05')",
        "refused",
    ),
    (
        "CREATE TABLE blocks (at INTEGER PRIMARY KEY, v BLOB NOT NULL); INSERT INTO blocks VALUES (-1, x'03')",
        "refused",
    ),
    (
        "CREATE TABLE blocks (at INTEGER PRIMARY KEY, v BLOB NOT NULL); INSERT INTO blocks VALUES (4611686018427387905, x'03')",
        "refused",
    ),
    // A block that is a text, and a table of other columns.
    (
        "CREATE TABLE blocks (at INTEGER PRIMARY KEY, v BLOB NOT NULL); INSERT INTO blocks VALUES (4, 'a')",
        "4 to 4 ! f1",
    ),
    ("CREATE TABLE blocks (x BLOB)", "refused"),
];

/// What the blocks answer.
fn shown<S: Alter + Drop>(alloc: Global, b: &mut SqlBlocks<S>) -> Result<String, AllocError> {
    let mut out = String::new(alloc);
    match b.span() {
        Ok(Some((first, last))) => write!(out, "{first} to {last}")?,
        Ok(None) => write!(out, "-")?,
        Err(_) => write!(out, "!")?,
    }
    match b.get(4) {
        Ok(Some(bytes)) => show_bytes(&mut out, bytes.as_slice())?,
        Ok(None) => write!(out, " -")?,
        Err(_) => write!(out, " !")?,
    }
    write!(out, " f{}", b.faults())?;
    Ok(out)
}

fn show_bytes(out: &mut String, bytes: &[u8]) -> Result<(), AllocError> {
    write!(out, ",")?;
    for byte in bytes {
        write!(out, " {byte}")?;
    }
    Ok(())
}

/// What the blocks answer in a database that was made so.
fn answered(alloc: Global, made: &str) -> Result<String, AllocError> {
    let mut conn = Connection::open_in_memory(alloc)?;
    if conn.execute_batch(made).is_err() {
        return format!(in alloc; "not made");
    }
    match SqlBlocks::new(alloc, conn) {
        Ok(mut b) => shown(alloc, &mut b),
        Err(_) => format!(in alloc; "refused"),
    }
}

#[test]
fn opened(rt: HostRuntime) -> Result<(), Fail> {
    for (made, expected) in CASES {
        assert_eq!(rt; answered(rt.alloc(), made)?.as_str(), expected, "{made}");
    }
    Ok(())
}

/// Adds the first block at a round from 1 on, or the next.
fn add<K: BlockKeeper>(b: &mut K, start: u64, bytes: &[u8; 2]) -> Result<(), KeepFault> {
    match b.span()? {
        None => {
            if start == 0 || start > 1 << 62 {
                return Err(KeepFault::Memory);
            }
            b.append(start, bytes)
        }
        Some((_, last)) => {
            if last >= 1 << 62 {
                return Err(KeepFault::Memory);
            }
            b.append(last + 1, bytes)
        }
    }
}

/// What the blocks answer after one was added and after they were cleared, and so again.
fn changed(alloc: Global) -> Result<String, AllocError> {
    let conn = Connection::open_in_memory(alloc)?;
    let Ok(mut b) = SqlBlocks::new(alloc, conn) else {
        return format!(in alloc; "refused");
    };
    let mut out = String::new(alloc);
    for start in [3, 4, 9] {
        let one = add(&mut b, start, &[4, 5]).is_ok();
        let two = add(&mut b, start, &[6, 7]).is_ok();
        let answer = shown(alloc, &mut b)?;
        let cleared = b.clear().is_ok();
        write!(out, "{one} {two} {answer} {cleared}; ")?;
    }
    Ok(out)
}

#[test]
fn added_and_cleared(rt: HostRuntime) -> Result<(), Fail> {
    assert_eq!(rt;
        changed(rt.alloc())?.as_str(),
        "true true 3 to 4, 6 7 f0 true; true true 4 to 5, 4 5 f0 true; true true 9 to 10 - f0 true; "
    );
    Ok(())
}
