//! What a ledger begins from.
use al_opening::{Gap, Opening, plan};
use std::test::*;

/// The tables' round, the first and the last block, and what to begin from.
const PLANS: [(Option<u64>, Option<(u64, u64)>, Result<Opening, Gap>); 10] = [
    (None, None, Ok(Opening::Genesis)),
    (None, Some((1, 7)), Ok(Opening::Genesis)),
    (None, Some((2, 7)), Err(Gap)),
    (Some(0), None, Ok(Opening::Genesis)),
    (Some(1), None, Err(Gap)),
    (
        Some(0),
        Some((1, 7)),
        Ok(Opening::Tables { round: 0, from: 1 }),
    ),
    (
        Some(1001),
        Some((2, 1001)),
        Ok(Opening::Tables {
            round: 1001,
            from: 2,
        }),
    ),
    (Some(1001), Some((3, 1001)), Err(Gap)),
    (Some(1001), Some((1, 1000)), Err(Gap)),
    (
        Some(1000),
        Some((1, 2000)),
        Ok(Opening::Tables {
            round: 1000,
            from: 1,
        }),
    ),
];

#[test]
fn plans(rt: HostRuntime) -> Result<(), Fail> {
    for (tables, blocks, opening) in PLANS {
        assert!(rt; plan(tables, blocks) == opening);
    }
    Ok(())
}
