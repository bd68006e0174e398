//! What tables answer, as a text: a call that fails shows as `!`.
use crate::making::address;
use al_base::{Address, History, Key, LevelAt, Levels, Version};
use al_keeper::{KeepFault, TableKeeper};
use al_rows::{Keyed, Row, Rows, Stored};
use al_sqlkeep::SqlTables;
use sqlite::Alter;
use std::alloc::{AllocError, Global};

/// Everything that the tables answer, and what they have counted.
pub(crate) fn shown<S: Alter + Drop>(
    alloc: Global,
    t: &mut SqlTables<S>,
) -> Result<String, AllocError> {
    let mut out = String::new(alloc);
    show_round(&mut out, t.round())?;
    show_rows(&mut out, t.rows_after(None, 100))?;
    show_one(&mut out, t.row(&Key::Account(address(2))))?;
    show_creator(&mut out, t.creator(1))?;
    show_creator(&mut out, t.creator(u64::MAX))?;
    show_both(&mut out, t.history())?;
    write!(out, " f{}", t.faults())?;
    Ok(out)
}

fn show_round(out: &mut String, round: Result<Option<u64>, KeepFault>) -> Result<(), AllocError> {
    match round {
        Ok(Some(round)) => write!(out, "{round}"),
        Ok(None) => write!(out, "-"),
        Err(_) => write!(out, "!"),
    }
}

/// The rows that there are.
pub(crate) fn show_rows(out: &mut String, rows: Result<Rows, KeepFault>) -> Result<(), AllocError> {
    match rows {
        Ok(rows) => show_each(out, rows.as_slice()),
        Err(_) => write!(out, " !"),
    }
}

fn show_each(out: &mut String, rows: &[Keyed]) -> Result<(), AllocError> {
    for row in rows {
        show_row(out, row)?;
    }
    Ok(())
}

fn show_row(out: &mut String, row: &Keyed) -> Result<(), AllocError> {
    show_key(out, &row.key)?;
    show_stored(out, &row.stored)
}

fn show_key(out: &mut String, key: &Key) -> Result<(), AllocError> {
    let name = match key {
        Key::Account(who) => first_byte(who),
        _ => 0,
    };
    write!(out, " {name}:")
}

fn show_stored(out: &mut String, stored: &Stored) -> Result<(), AllocError> {
    let balance = match &stored.row {
        Row::Account(row) => row.balance,
        _ => 0,
    };
    let changed = stored.changed;
    write!(out, "{balance}@{changed}")
}

fn first_byte(who: &Address) -> u8 {
    who.0[0]
}

fn show_one(out: &mut String, row: Result<Option<Stored>, KeepFault>) -> Result<(), AllocError> {
    match row {
        Ok(Some(stored)) => {
            write!(out, " =")?;
            show_stored(out, &stored)
        }
        Ok(None) => write!(out, " =-"),
        Err(_) => write!(out, " =!"),
    }
}

fn show_creator(
    out: &mut String,
    who: Result<Option<Address>, KeepFault>,
) -> Result<(), AllocError> {
    match who {
        Ok(Some(who)) => {
            let name = first_byte(&who);
            write!(out, " c{name}")
        }
        Ok(None) => write!(out, " c-"),
        Err(_) => write!(out, " c!"),
    }
}

fn show_both(
    out: &mut String,
    both: Result<(History, Levels), KeepFault>,
) -> Result<(), AllocError> {
    match both {
        Ok((history, levels)) => {
            show_history(out, history.as_slice())?;
            show_levels(out, levels.as_slice())
        }
        Err(_) => write!(out, " h!"),
    }
}

fn show_history(out: &mut String, versions: &[Version]) -> Result<(), AllocError> {
    for version in versions {
        show_version(out, version)?;
    }
    Ok(())
}

fn show_version(out: &mut String, version: &Version) -> Result<(), AllocError> {
    let name = first_byte(&version.address);
    let round = version.round;
    write!(out, " h{name}@{round}:")?;
    match &version.now {
        Some(data) => {
            let balance = data.balance;
            write!(out, "{balance}")
        }
        None => write!(out, "-"),
    }
}

fn show_levels(out: &mut String, levels: &[LevelAt]) -> Result<(), AllocError> {
    for level in levels {
        let round = level.round;
        let value = level.level;
        write!(out, " l{round}:{value}")?;
    }
    Ok(())
}
