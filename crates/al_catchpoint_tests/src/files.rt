// What stands in the files of a catchpoint.
use crate::chain::{LABEL, blocks, folder, genesis, ran};
use al_base::{Files, MemFolder};
use al_catch::{CatchInfo, decode_chunk, decode_info};
use al_rewards::{Count, Totals};
use std::alloc::Global;
use std::test::*;

// The number of the chunk in a file, and how many rows it has.
fn rows_in(alloc: Global, folder: &MemFolder, name: &str) -> Option<(u64, usize)> {
    let bytes = folder.file(name)?;
    if bytes.len() >= 1 << 31 {
        return None;
    }
    let chunk = decode_chunk(alloc, bytes).ok()?;
    Some((chunk.number, chunk.rows.len()))
}

fn info_in(alloc: Global, folder: &MemFolder, name: &str) -> Option<CatchInfo> {
    let bytes = folder.file(name)?;
    if bytes.len() >= 1 << 31 {
        return None;
    }
    decode_info(alloc, bytes).ok()
}

#[test]
fn of_513_rows(rt: HostRuntime) -> Result<(), Fail> {
    let alloc = rt.alloc();
    let genesis = genesis(alloc)?;
    let file = blocks(alloc, &genesis, 640)?;
    let mut folder = folder(alloc, &genesis, &file, &[])?;
    let (status, _) = ran(alloc, &["catchpoint", "g", "b", "640"], &mut folder, &[])?;
    assert_eq!(rt; status, 0);
    assert!(rt; rows_in(alloc, &folder, "cp-640-rows-0") == Some((0, 512)));
    assert!(rt; rows_in(alloc, &folder, "cp-640-rows-1") == Some((1, 1)));
    assert!(rt; folder.file("cp-640-rows-2") == None);
    let info = CatchInfo {
        chunks: 2,
        round: 320,
        totals: Totals {
            level: 0,
            online: Count { money: 0, units: 0 },
            offline: Count {
                money: 511_000_000_000,
                units: 511_000,
            },
            apart: Count {
                money: 100_000,
                units: 0,
            },
        },
    };
    assert!(rt; info_in(alloc, &folder, "cp-640-info") == Some(info));
    let first = blocks(alloc, &genesis, 1)?;
    assert!(rt; folder.file("cp-640-block-1") == Some(first.as_slice()));
    let front = blocks(alloc, &genesis, 639)?;
    let last = folder.file("cp-640-block-640");
    assert!(rt; last == Some(file.as_slice().split_at(front.len().min(file.len())).1));
    assert!(rt; folder.file("cp-640-block-0") == None && folder.file("cp-640-block-641") == None);
    assert!(rt; folder.file("cp-640-label") == Some(LABEL));
    Ok(())
}

/// The first label of the chain of number 7, which an independent program computed.
const SEVEN: &[u8] = b"800#ZFNUMNTKMT5DLMCHCWR4UGKKPLT4PNLL7IMY3GPPJB4U5WZ4UHNA\n";

#[test]
fn of_a_generated_chain(rt: HostRuntime) -> Result<(), Fail> {
    let alloc = rt.alloc();
    let mut folder = MemFolder::new(alloc, Files::new(alloc), &[])?;
    let (status, written) = ran(alloc, &["generate", "7", "1000"], &mut folder, &[])?;
    assert_eq!(rt; status, 0);
    assert!(rt; written.as_slice().ends_with(SEVEN));
    assert!(rt; folder.file("cp-800-label") == Some(SEVEN));
    assert!(rt; rows_in(alloc, &folder, "cp-800-rows-0").is_some());
    assert!(rt; folder.file("cp-800-block-1").is_some() && folder.file("cp-800-block-801") == None);
    Ok(())
}

/// Which call of the folder fails, and what is written: three files stand before those of the
/// blocks.
const FAILING: [(u64, &[u8]); 3] = [
    (1, b"folder: cp-800-rows-0\n"),
    (2, b"folder: cp-800-info\n"),
    (3, b"folder: cp-800-block-1\n"),
];

#[test]
fn of_a_folder_that_fails(rt: HostRuntime) -> Result<(), Fail> {
    let alloc = rt.alloc();
    for (fails, text) in FAILING {
        let mut folder = MemFolder::new(alloc, Files::new(alloc), &[fails])?;
        let (status, written) = ran(alloc, &["generate", "7", "800"], &mut folder, &[])?;
        assert!(rt;
            status == 4 && written.as_slice() == text,
            "{fails}: {status}"
        );
    }
    Ok(())
}
