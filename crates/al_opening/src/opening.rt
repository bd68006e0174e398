//! What a ledger begins from.
ghost use Rattle.std.specs.Prelude.{◌≡◌, IfOk, OnErr};
ghost use Rattle.al_opening.specs.Opening.{IsGap, IsOpening, PlanFits};

/// What a ledger begins from.
#[derive(Clone, Copy, Debug, PartialEq, Eq)]
pub enum Opening {
    /// The genesis, which takes the place of all rows, and the kept blocks from round 1 on.
    Genesis,
    /// The tables of a round, with the kept blocks from a round on that its past needs.
    Tables { round: u64, from: u64 },
}

/// Blocks are missing between the tables and the chain.
#[derive(Clone, Copy, Debug, PartialEq, Eq)]
pub struct Gap;

/// What a ledger begins from, by the round of the tables and the first and the last kept block.
pub fn plan(tables: Option<u64>, blocks: Option<(u64, u64)>) -> Result<Opening, Gap>
    ensures ok { IfOk result (IsOpening tables blocks) }
    ensures err { OnErr result (IsGap tables blocks) }
{
    match (tables, blocks) {
        (None, None) => Ok(Opening::Genesis),
        (None, Some((first, _))) => {
            if first == 1 {
                Ok(Opening::Genesis)
            } else {
                Err(Gap)
            }
        }
        (Some(round), None) => {
            if round == 0 {
                Ok(Opening::Genesis)
            } else {
                Err(Gap)
            }
        }
        (Some(round), Some((first, last))) => {
            let from = round.saturating_sub(999).max(1);
            if first <= from && round <= last {
                Ok(Opening::Tables { round, from })
            } else {
                Err(Gap)
            }
        }
    }
}

/// Keepers that open a chain leave no gap.
pub fn plan_fits()
    ensures { PlanFits }
{}
