//! Writing a catchpoint of no rows, whose blocks are no blocks.
use al_base::{Bytes, Files, Hash, Key, MemFolder};
use al_catch::{CatchRefusal, RowsAt, RowsFault, RowsWritten, label_text, write_rows, write_tip};
use al_rewards::{Count, Totals};
use al_rows::{Never, Rows};
use sqlite_items::Items;
use std::alloc::Global;
use std::test::*;

const NONE: Totals = Totals {
    level: 0,
    online: Count { money: 0, units: 0 },
    offline: Count { money: 0, units: 0 },
    apart: Count { money: 0, units: 0 },
};

/// No rows. It does not tell that.
#[derive(Drop)]
struct NoRows {
    alloc: Global,
}

impl RowsAt for NoRows {
    ghost use Rattle.std.specs.Prelude.{false, []};
    ghost use Rattle.std.specs.FinMap.{empty};
    ghost use Rattle.al_rewards.specs.Totals.{no_totals};

    type Fault = Never;

    ghost tells = { false };

    ghost shown = { λ _. record { rows = empty; totals = no_totals 0; block = λ _. [] } };

    ghost overtaken = { λ _. 0 };

    ghost failed = { λ _. 0 };

    ghost calm = { λ _. ⊥ };

    fn rows_after(&mut self, _after: Option<&Key>, _max: u32) -> Result<Rows, RowsFault<Never>> {
        Ok(Items::new(self.alloc))
    }

    fn root(&mut self) -> Result<(Hash, Totals), RowsFault<Never>> {
        Ok(([0; 32], NONE))
    }

    fn block(&mut self, _round: u64) -> Result<Bytes, RowsFault<Never>> {
        Ok(Bytes::from_vec(Vec::new(self.alloc)))
    }
}

/// The interval, the round, and whether it has a catchpoint.
const ROUNDS: [(u64, u64, bool); 9] = [
    (640, 640, true),
    (100, 400, true),
    (1, 321, true),
    (0, 640, false),
    (640, 320, false),
    (640, 0, false),
    (640, 641, false),
    (100, 300, false),
    (320, 320, false),
];

#[test]
fn rounds_with_a_catchpoint(rt: HostRuntime) -> Result<(), Fail> {
    let alloc = rt.alloc();
    for (interval, round, has) in ROUNDS {
        let mut folder = MemFolder::new(alloc, Files::new(alloc), &[])?;
        let mut rows = NoRows { alloc };
        match write_rows(alloc, &mut folder, &mut rows, interval, round) {
            Ok(w) => {
                let none = RowsWritten {
                    round,
                    chunks: 0,
                    root: [0; 32],
                    totals: NONE,
                };
                assert!(rt; has && w == none, "{interval} {round}");
            }
            Err(CatchRefusal::NotCatchpointRound { round: named }) => {
                assert!(rt; !has && named == round, "{interval} {round}");
            }
            Err(_) => assert!(rt; false, "{interval} {round}"),
        }
    }
    Ok(())
}

/// The label over 32 zero bytes for the block's hash, from tools/labels.py.
const LABEL: &[u8] = b"400#KBEDOJC2KVY56YC25T5PMZXB5NZ6OREAZR2WY4KMGHWGOZSNAJSQ";

#[test]
fn a_tip_over_no_blocks(rt: HostRuntime) -> Result<(), Fail> {
    let alloc = rt.alloc();
    let mut folder = MemFolder::new(alloc, Files::new(alloc), &[])?;
    let mut rows = NoRows { alloc };
    let written = RowsWritten {
        round: 400,
        chunks: 0,
        root: [0; 32],
        totals: NONE,
    };
    let Ok(label) = write_tip(alloc, &mut folder, &mut rows, &written) else {
        assert!(rt; false);
        return Ok(());
    };
    assert!(rt; label_text(alloc, &label)?.as_slice() == LABEL);
    assert!(rt; folder.file("cp-400-info") == Some(b"\x81\xa1d\x50"));
    assert!(rt; folder.file("cp-400-block-0") == None);
    assert!(rt; folder.file("cp-400-block-1") == Some(b""));
    assert!(rt; folder.file("cp-400-block-400") == Some(b""));
    assert!(rt; folder.file("cp-400-block-401") == None);
    Ok(())
}
