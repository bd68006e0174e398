//! Faults as values.
use crate::making::{batch, key, staged_rows};
use al_keeper::{
    BlockKeeper, Counted, KeepRefusal, MayFail, MemBlocks, MemTables, TableKeeper, Tallies, Tally,
};
use sqlite_items::Items;
use std::test::*;

// Spends the fault of a call, or says that the call answered.
fn spent<K: MayFail, T: Drop>(tally: &mut Tally<K>, answer: Result<T, KeepRefusal<K>>) -> bool {
    match answer {
        Ok(_) => false,
        Err(KeepRefusal::Memory) => false,
        Err(KeepRefusal::Fault(f)) => {
            tally.spend(f);
            true
        }
    }
}

#[test]
fn faults_of_tables(rt: HostRuntime) -> Result<(), Fail> {
    let alloc = rt.alloc();
    let mut counts: Tallies<MemTables, MemBlocks> = Tallies::new();
    let mut tables = Counted::new(MemTables::new(alloc, &[1, 2, 3, 4, 5, 6, 7, 8])?);
    let b = batch(alloc, None, 8, &[(1, Some(11))])?;
    let rows = staged_rows(alloc, &[(2, 20)], 6)?;
    for fails in [true, false] {
        assert!(rt; spent(&mut counts.tables, tables.commit(&b)) == fails);
        assert!(rt; spent(&mut counts.tables, tables.round()) == fails);
        assert!(rt; spent(&mut counts.tables, tables.row(&key(1))) == fails);
        assert!(rt; spent(&mut counts.tables, tables.creator(1)) == fails);
        assert!(rt; spent(&mut counts.tables, tables.rows_after(None, 9)) == fails);
        assert!(rt; spent(&mut counts.tables, tables.history()) == fails);
        assert!(rt; spent(&mut counts.tables, tables.unstage()) == fails);
        assert!(rt; spent(&mut counts.tables, tables.stage(&rows)) == fails);
    }
    assert_eq!(rt; (counts.tables.count(), counts.blocks.count()), (8, 0));
    assert_eq!(rt; tables.into_inner().round(), Ok(Some(8)));
    Ok(())
}

#[test]
fn an_adoption_is_counted(rt: HostRuntime) -> Result<(), Fail> {
    let alloc = rt.alloc();
    let mut tally: Tally<MemTables> = Tally::new();
    let mut tables = Counted::new(MemTables::new(alloc, &[1])?);
    let (none, flat, old) = (Items::new(alloc), Items::new(alloc), Items::new(alloc));
    for fails in [true, false] {
        assert!(rt; spent(&mut tally, tables.adopt(9, &old, &flat, &none)) == fails);
    }
    assert_eq!(rt; tally.count(), 1);
    Ok(())
}

#[test]
fn faults_of_blocks(rt: HostRuntime) -> Result<(), Fail> {
    let alloc = rt.alloc();
    let mut tally: Tally<MemBlocks> = Tally::new();
    let mut blocks = Counted::new(MemBlocks::new(alloc, &[2, 3, 4])?);
    assert!(rt; !spent(&mut tally, blocks.append(1, &[7])));
    for fails in [true, false] {
        assert!(rt; spent(&mut tally, blocks.span()) == fails);
        assert!(rt; spent(&mut tally, blocks.get(1)) == fails);
        assert!(rt; spent(&mut tally, blocks.clear()) == fails);
    }
    assert_eq!(rt; tally.count(), 3);
    assert_eq!(rt; blocks.into_inner().span(), Ok(None));
    Ok(())
}
