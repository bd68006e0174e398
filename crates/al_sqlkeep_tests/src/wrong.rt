//! What stands in a database and may not makes a call fail, and is counted.
use crate::showing::shown;
use al_sqlkeep::SqlTables;
use sqlite::Connection;
use std::alloc::{AllocError, Global};
use std::test::*;

/// What is made in the database by hand, and what the tables answer then: the round, the rows, the
/// row of the account 2, the creators of 1 and of the greatest id, the history with the levels, and
/// how many faults were counted.
const CASES: [(&str, &str); 33] = [
    // Nothing is there.
    ("", "- =- c- c- f0"),
    // A round, none, and the greatest.
    (
        "CREATE TABLE meta (one INTEGER PRIMARY KEY, at INTEGER);INSERT INTO meta VALUES (1, 7)",
        "7 =- c- c- f0",
    ),
    (
        "CREATE TABLE meta (one INTEGER PRIMARY KEY, at INTEGER);INSERT INTO meta VALUES (1, NULL)",
        "- =- c- c- f0",
    ),
    (
        "CREATE TABLE meta (one INTEGER PRIMARY KEY, at INTEGER);INSERT INTO meta VALUES (1, 4611686018427387904)",
        "4611686018427387904 =- c- c- f0",
    ),
    // A round above the greatest, below 0 or of another kind, under another number, or two rounds.
    (
        "CREATE TABLE meta (one INTEGER PRIMARY KEY, at INTEGER);INSERT INTO meta VALUES (1, 4611686018427387905)",
        "! =- c- c- f1",
    ),
    (
        "CREATE TABLE meta (one INTEGER PRIMARY KEY, at INTEGER);INSERT INTO meta VALUES (1, -1)",
        "! =- c- c- f1",
    ),
    (
        "CREATE TABLE meta (one INTEGER PRIMARY KEY, at INTEGER);INSERT INTO meta VALUES (1, x'07')",
        "! =- c- c- f1",
    ),
    (
        "CREATE TABLE meta (one INTEGER PRIMARY KEY, at INTEGER);INSERT INTO meta VALUES (2, 7)",
        "! =- c- c- f1",
    ),
    (
        "CREATE TABLE meta (one INTEGER PRIMARY KEY, at INTEGER);INSERT INTO meta VALUES (1, 7), (2, 7)",
        "! =- c- c- f1",
    ),
    // Rows in the order of keys, and one of the greatest round.
    (
        "CREATE TABLE kept (k BLOB PRIMARY KEY NOT NULL, v BLOB NOT NULL, u INTEGER NOT NULL);INSERT INTO kept VALUES (x'000303030303030303030303030303030303030303030303030303030303030303', x'81a16207', 0);INSERT INTO kept VALUES (x'000202020202020202020202020202020202020202020202020202020202020202', x'81a16205', 4611686018427387904);",
        "- 2:5@4611686018427387904 3:7@0 =5@4611686018427387904 c- c- f0",
    ),
    // A round below 0 or above the greatest.
    (
        "CREATE TABLE kept (k BLOB PRIMARY KEY NOT NULL, v BLOB NOT NULL, u INTEGER NOT NULL);INSERT INTO kept VALUES (x'000202020202020202020202020202020202020202020202020202020202020202', x'81a16205', -1);",
        "- ! =! c- c- f2",
    ),
    (
        "CREATE TABLE kept (k BLOB PRIMARY KEY NOT NULL, v BLOB NOT NULL, u INTEGER NOT NULL);INSERT INTO kept VALUES (x'000202020202020202020202020202020202020202020202020202020202020202', x'81a16205', 4611686018427387905);",
        "- ! =! c- c- f2",
    ),
    // A zero row, no spelling, a spelling of another kind of row, a row that is a text.
    (
        "CREATE TABLE kept (k BLOB PRIMARY KEY NOT NULL, v BLOB NOT NULL, u INTEGER NOT NULL);INSERT INTO kept VALUES (x'000202020202020202020202020202020202020202020202020202020202020202', x'80', 1);",
        "- ! =! c- c- f2",
    ),
    (
        "CREATE TABLE kept (k BLOB PRIMARY KEY NOT NULL, v BLOB NOT NULL, u INTEGER NOT NULL);INSERT INTO kept VALUES (x'000202020202020202020202020202020202020202020202020202020202020202', x'c1', 1);",
        "- ! =! c- c- f2",
    ),
    (
        "CREATE TABLE kept (k BLOB PRIMARY KEY NOT NULL, v BLOB NOT NULL, u INTEGER NOT NULL);INSERT INTO kept VALUES (x'000202020202020202020202020202020202020202020202020202020202020202', x'', 1);",
        "- ! =! c- c- f2",
    ),
    (
        "CREATE TABLE kept (k BLOB PRIMARY KEY NOT NULL, v BLOB NOT NULL, u INTEGER NOT NULL);INSERT INTO kept VALUES (x'000202020202020202020202020202020202020202020202020202020202020202', x'81a17601', 1);",
        "- ! =! c- c- f2",
    ),
    (
        "CREATE TABLE kept (k BLOB PRIMARY KEY NOT NULL, v BLOB NOT NULL, u INTEGER NOT NULL);INSERT INTO kept VALUES (x'000202020202020202020202020202020202020202020202020202020202020202', 'a', 1);",
        "- ! =! c- c- f2",
    ),
    // A key that is none.
    (
        "CREATE TABLE kept (k BLOB PRIMARY KEY NOT NULL, v BLOB NOT NULL, u INTEGER NOT NULL);INSERT INTO kept VALUES (x'02020202020202020202020202020202020202020202020202020202020202', x'81a16205', 1);",
        "- ! =- c- c- f1",
    ),
    (
        "CREATE TABLE kept (k BLOB PRIMARY KEY NOT NULL, v BLOB NOT NULL, u INTEGER NOT NULL);INSERT INTO kept VALUES (x'0002020202020202020202020202020202020202020202020202020202020202', x'81a16205', 1);",
        "- ! =- c- c- f1",
    ),
    // Creators, of which one has an id above 2^63.
    (
        "CREATE TABLE creators (id INTEGER PRIMARY KEY, who BLOB NOT NULL);INSERT INTO creators VALUES (1, x'0404040404040404040404040404040404040404040404040404040404040404'), (-1, x'0505050505050505050505050505050505050505050505050505050505050505')",
        "- =- c4 c5 f0",
    ),
    // A creator of 31 bytes, and one that is a text.
    (
        "CREATE TABLE creators (id INTEGER PRIMARY KEY, who BLOB NOT NULL);INSERT INTO creators VALUES (1, x'04040404040404040404040404040404040404040404040404040404040404'), (-1, 'a')",
        "- =- c! c! f2",
    ),
    // Versions by rounds and then by addresses, and levels by rounds.
    (
        "CREATE TABLE history (who BLOB NOT NULL, at INTEGER NOT NULL, v BLOB, PRIMARY KEY (who, at));CREATE TABLE levels (at INTEGER PRIMARY KEY, v BLOB NOT NULL);INSERT INTO history VALUES (x'0909090909090909090909090909090909090909090909090909090909090909', 3, x'81a16205'), (x'0808080808080808080808080808080808080808080808080808080808080808', 4, NULL), (x'0808080808080808080808080808080808080808080808080808080808080808', 3, x'80'); INSERT INTO levels VALUES (9, x'0000000000000102'), (8, x'8000000000000000')",
        "- =- c- c- h8@3:0 h9@3:5 h8@4:- l8:9223372036854775808 l9:258 f0",
    ),
    // A version of 31 bytes, of a round below 0 or above the greatest, of no spelling, of data that are a text or have a zero.
    (
        "CREATE TABLE history (who BLOB NOT NULL, at INTEGER NOT NULL, v BLOB, PRIMARY KEY (who, at));INSERT INTO history VALUES (x'09090909090909090909090909090909090909090909090909090909090909', 3, NULL)",
        "- =- c- c- h! f1",
    ),
    (
        "CREATE TABLE history (who BLOB NOT NULL, at INTEGER NOT NULL, v BLOB, PRIMARY KEY (who, at));INSERT INTO history VALUES (x'0909090909090909090909090909090909090909090909090909090909090909', -1, NULL)",
        "- =- c- c- h! f1",
    ),
    (
        "CREATE TABLE history (who BLOB NOT NULL, at INTEGER NOT NULL, v BLOB, PRIMARY KEY (who, at));INSERT INTO history VALUES (x'0909090909090909090909090909090909090909090909090909090909090909', 4611686018427387905, NULL)",
        "- =- c- c- h! f1",
    ),
    (
        "CREATE TABLE history (who BLOB NOT NULL, at INTEGER NOT NULL, v BLOB, PRIMARY KEY (who, at));INSERT INTO history VALUES (x'0909090909090909090909090909090909090909090909090909090909090909', 3, x'8180')",
        "- =- c- c- h! f1",
    ),
    (
        "CREATE TABLE history (who BLOB NOT NULL, at INTEGER NOT NULL, v BLOB, PRIMARY KEY (who, at));INSERT INTO history VALUES (x'0909090909090909090909090909090909090909090909090909090909090909', 3, 'a')",
        "- =- c- c- h! f1",
    ),
    (
        "CREATE TABLE history (who BLOB NOT NULL, at INTEGER NOT NULL, v BLOB, PRIMARY KEY (who, at));INSERT INTO history VALUES (x'0909090909090909090909090909090909090909090909090909090909090909', 3, x'81a16200')",
        "- =- c- c- h! f1",
    ),
    // Data with a balance above the greatest, and with a field of an account's row that they have not.
    (
        "CREATE TABLE history (who BLOB NOT NULL, at INTEGER NOT NULL, v BLOB, PRIMARY KEY (who, at));INSERT INTO history VALUES (x'0909090909090909090909090909090909090909090909090909090909090909', 3, x'81a162cf002386f26fc10001')",
        "- =- c- c- h! f1",
    ),
    (
        "CREATE TABLE history (who BLOB NOT NULL, at INTEGER NOT NULL, v BLOB, PRIMARY KEY (who, at));INSERT INTO history VALUES (x'0909090909090909090909090909090909090909090909090909090909090909', 3, x'81a16101')",
        "- =- c- c- h! f1",
    ),
    // A level of 7 bytes, and one of a round below 0.
    (
        "CREATE TABLE levels (at INTEGER PRIMARY KEY, v BLOB NOT NULL);INSERT INTO levels VALUES (8, x'00000000000001')",
        "- =- c- c- h! f1",
    ),
    (
        "CREATE TABLE levels (at INTEGER PRIMARY KEY, v BLOB NOT NULL);INSERT INTO levels VALUES (-1, x'0000000000000001')",
        "- =- c- c- h! f1",
    ),
    // Tables of other columns.
    (
        "CREATE TABLE kept (k BLOB); CREATE TABLE levels (x BLOB)",
        "- ! =! c- c- h! f3",
    ),
];

/// What the tables answer in a database that was made so.
fn answered(alloc: Global, made: &str) -> Result<String, AllocError> {
    let mut conn = Connection::open_in_memory(alloc)?;
    if conn.execute_batch(made).is_err() {
        return format!(in alloc; "not made");
    }
    match SqlTables::new(alloc, conn) {
        Ok(mut t) => shown(alloc, &mut t),
        Err(_) => format!(in alloc; "refused"),
    }
}

#[test]
fn what_is_wrong_is_counted(rt: HostRuntime) -> Result<(), Fail> {
    for (made, expected) in CASES {
        assert_eq!(rt; answered(rt.alloc(), made)?.as_str(), expected, "{made}");
    }
    Ok(())
}
