//! Commits, the stage and its adoption: all of a call or nothing.
use crate::making::{Given, batch, creators, history, levels, rows};
use crate::showing::{show_rows, shown};
use al_base::{Address, Key};
use al_keeper::{KeepFault, TableKeeper};
use al_sqlkeep::SqlTables;
use sqlite::{Alter, Connection, MemStore};
use std::alloc::{AllocError, Global};
use std::test::*;

/// What a step does.
#[derive(Clone, Copy)]
enum Step {
    /// A commit that replaces everything.
    Begin,
    /// A commit.
    Commit,
    Stage,
    Unstage,
    Adopt,
}

const NOTHING: Given<'static> = Given {
    rows: &[],
    creators: &[],
    history: &[],
    levels: &[],
};

/// A step at a round, and what the tables answer after it, as in the cases of what is wrong. Levels
/// of the round 13 are refused by the database.
const STEPS: [(Step, u64, Given<'static>, &str); 13] = [
    // Everything of the stage and the tables is replaced.
    (
        Step::Begin,
        0,
        Given {
            rows: &[(3, 30, 0), (2, 20, 0)],
            creators: &[(1, 4), (u64::MAX, 5)],
            history: &[(2, 0, 20), (3, 0, 30)],
            levels: &[(0, 0)],
        },
        "0 2:20@0 3:30@0 =20@0 c4 c5 h2@0:20 h3@0:30 l0:0 f0",
    ),
    // Of two changes of a key or an id the first stands; a row and a creator go.
    (
        Step::Commit,
        1,
        Given {
            rows: &[(2, 21, 1), (3, 0, 0), (1, 11, 1), (2, 99, 1)],
            creators: &[(1, 6), (u64::MAX, 0), (1, 7)],
            history: &[(2, 1, 21), (3, 1, 0)],
            levels: &[(1, 258)],
        },
        "1 1:11@1 2:21@1 =21@1 c6 c- h2@0:20 h3@0:30 h2@1:21 h3@1:- l0:0 l1:258 f0",
    ),
    // A statement fails at the end of a batch, and nothing is changed.
    (
        Step::Commit,
        2,
        Given {
            rows: &[(2, 0, 0), (1, 12, 2)],
            creators: &[(1, 8)],
            history: &[(2, 2, 22)],
            levels: &[(2, 1), (13, 1)],
        },
        "1 1:11@1 2:21@1 =21@1 c6 c- h2@0:20 h3@0:30 h2@1:21 h3@1:- l0:0 l1:258 f1",
    ),
    // Nor by one that was to replace everything.
    (
        Step::Begin,
        2,
        Given {
            rows: &[(7, 70, 2)],
            creators: &[],
            history: &[],
            levels: &[(13, 1)],
        },
        "1 1:11@1 2:21@1 =21@1 c6 c- h2@0:20 h3@0:30 h2@1:21 h3@1:- l0:0 l1:258 f2",
    ),
    // The versions of round 0 are needed at 320, and not at 321.
    (
        Step::Commit,
        320,
        NOTHING,
        "320 1:11@1 2:21@1 =21@1 c6 c- h2@0:20 h3@0:30 h2@1:21 h3@1:- l0:0 l1:258 f2",
    ),
    (
        Step::Commit,
        321,
        NOTHING,
        "321 1:11@1 2:21@1 =21@1 c6 c- h2@1:21 h3@1:- l1:258 f2",
    ),
    // The stage does not show.
    (
        Step::Stage,
        0,
        Given {
            rows: &[(5, 50, 1), (5, 51, 2)],
            creators: &[],
            history: &[],
            levels: &[],
        },
        "321 1:11@1 2:21@1 =21@1 c6 c- h2@1:21 h3@1:- l1:258 f2",
    ),
    // Emptied, it does not come back.
    (
        Step::Unstage,
        0,
        NOTHING,
        "321 1:11@1 2:21@1 =21@1 c6 c- h2@1:21 h3@1:- l1:258 f2",
    ),
    // Of two staged rows of a key the later stands, also over two calls.
    (
        Step::Stage,
        0,
        Given {
            rows: &[(2, 40, 3), (6, 60, 3), (6, 61, 4)],
            creators: &[],
            history: &[],
            levels: &[],
        },
        "321 1:11@1 2:21@1 =21@1 c6 c- h2@1:21 h3@1:- l1:258 f2",
    ),
    (
        Step::Stage,
        0,
        Given {
            rows: &[(2, 41, 5)],
            creators: &[],
            history: &[],
            levels: &[],
        },
        "321 1:11@1 2:21@1 =21@1 c6 c- h2@1:21 h3@1:- l1:258 f2",
    ),
    // An adoption that fails leaves all as it was.
    (
        Step::Adopt,
        500,
        Given {
            rows: &[],
            creators: &[(1, 9)],
            history: &[(2, 499, 41)],
            levels: &[(499, 7), (13, 7)],
        },
        "321 1:11@1 2:21@1 =21@1 c6 c- h2@1:21 h3@1:- l1:258 f3",
    ),
    (
        Step::Adopt,
        500,
        Given {
            rows: &[],
            creators: &[(1, 9), (1, 3)],
            history: &[(2, 499, 41)],
            levels: &[(499, 7)],
        },
        "500 2:41@5 6:61@4 =41@5 c9 c- h2@499:41 l499:7 f3",
    ),
    // The stage is empty after it.
    (Step::Adopt, 501, NOTHING, "501 =- c- c- f3"),
];

/// A commit from a round, or one that replaces everything.
fn commit<S: Alter + Drop>(
    alloc: Global,
    t: &mut SqlTables<S>,
    from: Option<u64>,
    to: u64,
    given: &Given<'_>,
) -> Result<(), KeepFault> {
    if to > 1 << 62 {
        return Err(KeepFault::Memory);
    }
    let b = batch(alloc, from, to, given)?;
    t.commit(&b)
}

/// An adoption.
fn adopt<S: Alter + Drop>(
    alloc: Global,
    t: &mut SqlTables<S>,
    round: u64,
    given: &Given<'_>,
) -> Result<(), KeepFault> {
    if round > 1 << 62 {
        return Err(KeepFault::Memory);
    }
    let h = history(alloc, given.history)?;
    let l = levels(alloc, given.levels)?;
    let c = creators(alloc, given.creators)?;
    t.adopt(round, &h, &l, &c)
}

/// Staged rows.
fn stage<S: Alter + Drop>(
    alloc: Global,
    t: &mut SqlTables<S>,
    given: &Given<'_>,
) -> Result<(), KeepFault> {
    let rows = rows(alloc, given.rows)?;
    t.stage(&rows)
}

/// What the tables answer after a step.
fn after<S: Alter + Drop>(
    alloc: Global,
    t: &mut SqlTables<S>,
    step: Step,
    round: u64,
    given: &Given<'_>,
) -> Result<String, AllocError> {
    let _done = match step {
        Step::Begin => commit(alloc, t, None, round, given),
        Step::Commit => commit(alloc, t, Some(0), round, given),
        Step::Stage => stage(alloc, t, given),
        Step::Unstage => t.unstage(),
        Step::Adopt => adopt(alloc, t, round, given),
    };
    shown(alloc, t)
}

/// Tables that refuse levels of the round 13.
fn tables(alloc: Global) -> Option<SqlTables<MemStore>> {
    let mut conn = Connection::open_in_memory(alloc).ok()?;
    conn.execute_batch(
        "CREATE TABLE levels (at INTEGER PRIMARY KEY CHECK (at <> 13), v BLOB NOT NULL)",
    ).ok()?;
    SqlTables::new(alloc, conn).ok()
}

#[test]
fn steps(rt: HostRuntime) -> Result<(), Fail> {
    let Some(mut t) = tables(rt.alloc()) else {
        panic!(rt; "no tables");
    };
    for (step, round, given, expected) in STEPS {
        let answer = after(rt.alloc(), &mut t, step, round, &given)?;
        assert_eq!(rt; answer.as_str(), expected);
    }
    Ok(())
}

/// How many rows from above an account, and which these are.
const PAGES: [(u8, u32, &str); 6] = [
    (0, 0, ""),
    (0, 2, " 1:10@1 2:20@1"),
    (1, 2, " 2:20@1 3:30@1"),
    (2, 9, " 3:30@1"),
    (3, 9, ""),
    (0, u32::MAX, " 1:10@1 2:20@1 3:30@1"),
];

/// The rows of a page.
fn page<S: Alter + Drop>(
    alloc: Global,
    t: &mut SqlTables<S>,
    after: u8,
    max: u32,
) -> Result<String, AllocError> {
    let mut out = String::new(alloc);
    let key = Key::Account(Address([after; 32]));
    show_rows(&mut out, t.rows_after(Some(&key), max))?;
    Ok(out)
}

#[test]
fn pages(rt: HostRuntime) -> Result<(), Fail> {
    let Some(mut t) = tables(rt.alloc()) else {
        panic!(rt; "no tables");
    };
    let given = Given {
        rows: &[(3, 30, 1), (1, 10, 1), (2, 20, 1)],
        creators: &[],
        history: &[],
        levels: &[],
    };
    assert!(rt; commit(rt.alloc(), &mut t, None, 1, &given).is_ok());
    for (after, max, expected) in PAGES {
        assert_eq!(rt; page(rt.alloc(), &mut t, after, max)?.as_str(), expected);
    }
    Ok(())
}
