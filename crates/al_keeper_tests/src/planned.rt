//! Tables in memory, some of whose calls fail.
use crate::making::{batch, key, shown, staged_rows};
use al_keeper::{KeepFault, MemTables, TableKeeper};
use sqlite_items::Items;
use std::alloc::Global;
use std::test::*;

// One of the nine calls.
fn call(alloc: Global, tables: &mut MemTables, which: u8) -> Result<(), KeepFault> {
    match which {
        0 => tables.round().map(|_| ()),
        1 => tables.row(&key(1)).map(|_| ()),
        2 => tables.creator(1).map(|_| ()),
        3 => tables.rows_after(None, 9).map(|_| ()),
        4 => tables.history().map(|_| ()),
        5 => tables.commit(&batch(alloc, None, 8, &[(1, Some(11))])?),
        6 => tables.unstage(),
        7 => tables.stage(&staged_rows(alloc, &[(2, 20)], 6)?),
        _ => tables.adopt(
            9,
            &Items::new(alloc),
            &Items::new(alloc),
            &Items::new(alloc),
        ),
    }
}

// Tables of round 7 with one box, whose second call fails.
fn start(alloc: Global) -> Result<MemTables, KeepFault> {
    let mut tables = MemTables::new(alloc, &[2])?;
    tables.commit(&batch(alloc, None, 7, &[(1, Some(10))])?)?;
    Ok(tables)
}

#[test]
fn each_call_fails_alone(rt: HostRuntime) -> Result<(), Fail> {
    let alloc = rt.alloc();
    for which in 0..9 {
        let mut tables = start(alloc)?;
        assert_eq!(rt;
            call(alloc, &mut tables, which),
            Err(KeepFault::Failed),
            "{which}"
        );
        assert_eq!(rt; tables.round(), Ok(Some(7)), "{which}");
        match tables.row(&key(1)) {
            Ok(row) => assert!(rt; shown(&row) == Some((10, 7)), "{which}"),
            Err(_) => assert!(rt; false),
        }
        assert_eq!(rt; call(alloc, &mut tables, which), Ok(()), "{which}");
    }
    Ok(())
}

#[test]
fn none_fails_when_mended(rt: HostRuntime) -> Result<(), Fail> {
    let alloc = rt.alloc();
    for which in 0..9 {
        let mut tables = start(alloc)?.mend();
        assert_eq!(rt; tables.round(), Ok(Some(7)), "{which}");
        assert_eq!(rt; call(alloc, &mut tables, which), Ok(()), "{which}");
    }
    Ok(())
}
