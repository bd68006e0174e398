//! The laws of the records.
ghost use Rattle.al_bodies.specs.Bodies.{asset_params};
ghost use Rattle.al_txn.specs.Txn.{txn};
ghost use Rattle.al_bodies.specs.Effect.{inner_txn, effect};
ghost use Rattle.al_txn.specs.Item.{item};
ghost use Rattle.al_txn.specs.Laws.{Determines};

/// A record determines its value: of parameters of assets, transactions, inner transactions,
/// effects and payset entries.
pub fn txn_laws()
    ensures params { Determines asset_params }
    ensures txns { Determines txn }
    ensures inners { Determines inner_txn }
    ensures effects { Determines effect }
    ensures items { Determines item }
{}
