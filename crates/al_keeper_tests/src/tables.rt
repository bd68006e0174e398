//! Tables in memory.
use crate::making::{A, B, are_boxes, batch, key, level, shown, staged_rows, version, with};
use al_base::CreatorChange;
use al_keeper::{SureTables, TableKeeper};
use sqlite_items::Items;
use std::process::Abort;
use std::test::*;

/// What the tables show of boxes and creators.
fn shows<R: Abort>(
    rt: &R,
    tables: &mut SureTables,
    boxes: &[(u64, u8, u64)],
    creators: [bool; 2],
) -> Result<(), Fail> {
    match tables.rows_after(None, 100) {
        Ok(rows) => assert!(rt; are_boxes(&rows, boxes)),
        Err(_) => assert!(rt; false),
    }
    for (app, byte, round) in boxes {
        match tables.row(&key(*app)) {
            Ok(row) => assert!(rt; shown(&row) == Some((*byte, *round))),
            Err(_) => assert!(rt; false),
        }
    }
    for (i, there) in creators.iter().enumerate() {
        match tables.creator(i as u64) {
            Ok(who) => assert!(rt; who.is_some() == *there),
            Err(_) => assert!(rt; false),
        }
    }
    Ok(())
}

#[test]
fn commits(rt: HostRuntime) -> Result<(), Fail> {
    let alloc = rt.alloc();
    let mut tables = SureTables::new(alloc);
    // of two rows of one key the first counts
    let boxes = [(2, Some(20)), (1, Some(10)), (1, Some(11)), (4, None)];
    let creators = [
        CreatorChange {
            id: 0,
            now: Some(A),
        },
        CreatorChange { id: 1, now: None },
    ];
    let versions = [
        version(A, 70),
        version(A, 80),
        version(A, 81),
        version(B, 7),
    ];
    let levels = [level(79), level(80), level(81)];
    let first = batch(alloc, None, 400, &boxes)?;
    let first = with(alloc, first, &creators, &versions, &levels)?;
    assert!(rt; tables.commit(&first).is_ok());
    shows(
        &rt,
        &mut tables,
        &[(1, 10, 400), (2, 20, 400)],
        [true, false],
    )?;
    let (history, kept) = tables.history()?;
    assert!(rt; history.as_slice() == [version(A, 80), version(A, 81), version(B, 7)].as_slice());
    assert!(rt; kept.as_slice() == [level(80), level(81)].as_slice());
    assert_eq!(rt; tables.round(), Ok(Some(400)));
    Ok(())
}

#[test]
fn deletes(rt: HostRuntime) -> Result<(), Fail> {
    let alloc = rt.alloc();
    let mut tables = SureTables::new(alloc);
    let creators = [CreatorChange {
        id: 0,
        now: Some(A),
    }];
    let versions = [version(A, 80), version(A, 81)];
    let levels = [level(80), level(81)];
    let first = batch(alloc, None, 400, &[(2, Some(20)), (1, Some(10))])?;
    let first = with(alloc, first, &creators, &versions, &levels)?;
    assert!(rt; tables.commit(&first).is_ok());
    let creators = [
        CreatorChange { id: 0, now: None },
        CreatorChange {
            id: 1,
            now: Some(B),
        },
    ];
    let second = batch(alloc, Some(400), 401, &[(1, None), (3, Some(30))])?;
    let second = with(alloc, second, &creators, &[version(A, 401)], &[level(401)])?;
    assert!(rt; tables.commit(&second).is_ok());
    shows(
        &rt,
        &mut tables,
        &[(2, 20, 400), (3, 30, 401)],
        [false, true],
    )?;
    match tables.row(&key(1)) {
        Ok(row) => assert!(rt; row.is_none()),
        Err(_) => assert!(rt; false),
    }
    let (history, kept) = tables.history()?;
    assert!(rt; history.as_slice() == [version(A, 81), version(A, 401)].as_slice());
    assert!(rt; kept.as_slice() == [level(81), level(401)].as_slice());
    Ok(())
}

#[test]
fn rows_above_a_key(rt: HostRuntime) -> Result<(), Fail> {
    let alloc = rt.alloc();
    let mut tables = SureTables::new(alloc);
    let boxes = [(3, Some(30)), (1, Some(10)), (2, Some(20))];
    assert!(rt; tables.commit(&batch(alloc, None, 9, &boxes)?).is_ok());
    let some: [(u64, u32, &[(u64, u8, u64)]); 4] = [
        (0, 2, &[(1, 10, 9), (2, 20, 9)]),
        (1, 9, &[(2, 20, 9), (3, 30, 9)]),
        (3, 9, &[]),
        (1, 0, &[]),
    ];
    for (after, max, wanted) in some {
        match tables.rows_after(Some(&key(after)), max) {
            Ok(rows) => assert!(rt; are_boxes(&rows, wanted), "{after} {max}"),
            Err(_) => assert!(rt; false),
        }
    }
    Ok(())
}

#[test]
fn stages(rt: HostRuntime) -> Result<(), Fail> {
    let alloc = rt.alloc();
    let mut tables = SureTables::new(alloc);
    // of two rows of one key the later stands
    let rows = staged_rows(alloc, &[(1, 10), (2, 20), (1, 11)], 5)?;
    assert!(rt; tables.stage(&rows).is_ok());
    shows(&rt, &mut tables, &[], [false, false])?;
    let creators = Items::from_slice(
        alloc,
        &[CreatorChange {
            id: 1,
            now: Some(A),
        }],
    )?;
    let history = Items::from_slice(alloc, &[version(A, 3)])?;
    let levels = Items::from_slice(alloc, &[level(3)])?;
    assert!(rt; tables.adopt(900, &history, &levels, &creators).is_ok());
    shows(&rt, &mut tables, &[(1, 11, 5), (2, 20, 5)], [false, true])?;
    assert_eq!(rt; tables.round(), Ok(Some(900)));
    let rows = staged_rows(alloc, &[(3, 30)], 6)?;
    assert!(rt; tables.stage(&rows).is_ok());
    assert!(rt; tables.unstage().is_ok());
    assert!(rt; tables.adopt(901, &history, &levels, &creators).is_ok());
    shows(&rt, &mut tables, &[], [false, true])?;
    Ok(())
}
