//! The boxes of applications.
ghost use Rattle.std.specs.Prelude.{◌≤◌, length};
ghost use Rattle.al_overlay.specs.Work.{Does, DoesWhere, HasOneCreator};
ghost use Rattle.al_resources.specs.Effects.{box_gone, box_put, box_removed};
ghost use Rattle.al_resources.specs.Finds.{gone_by};

use crate::apps::find_app;
use al_base::{BoxName, Bytes, Key};
use al_moves::{Rule, Stop, Work};
use al_rows::{BoxRow, Row, RowView};
use std::alloc::Global;

/// A box is there with a value, and the counts of the application's account follow. Rules, with
/// what each keeps: 60, the id: there is no such application; 65, the account of the application:
/// one of its counts would pass 2^40.
#[tactic(auto, unfolding(crate::specs::Effects::box_put))]
pub fn put_box<V: RowView>(
    alloc: Global,
    work: &mut Work<V>,
    id: u64,
    name: &BoxName,
    value: &Bytes,
) -> Result<(), Stop<V::Fault>>
    requires { length value.now ≤ 32768 }
    ensures { DoesWhere V.tells (HasOneCreator work.old.block id) (box_put id name.now value.now work.old.now) work.old work.new result }
{
    let value = value.copy(alloc)?;
    find_app(work, id)?;
    work.put_box(id, name, Some(Row::Box(BoxRow { value })))
}

// A box goes, where there is a row of it.
fn remove_row<V: RowView>(
    work: &mut Work<V>,
    id: u64,
    name: &BoxName,
    row: Option<Row>,
) -> Result<(), Stop<V::Fault>>
    ensures { Does V.tells (box_gone id name.now row work.old.now) work.old work.new result }
{
    match row {
        Some(_) => work.put_box(id, name, None),
        None => Err(Stop::Rule(Rule::plain(63))),
    }
}

// A box goes, where it is there.
fn remove_there<V: RowView>(
    work: &mut Work<V>,
    id: u64,
    name: &BoxName,
) -> Result<(), Stop<V::Fault>>
    ensures { Does V.tells (gone_by id name.now work.old.now) work.old work.new result }
{
    let row = work.row(&Key::Box(id, *name))?;
    remove_row(work, id, name, row)
}

/// A box goes, and the counts of the application's account follow. Rules, with what each keeps: 60,
/// the id: there is no such application; 63, nothing: there is no such box; 65, the account of the
/// application: one of its counts would pass 2^40.
#[tactic(auto, unfolding(crate::specs::Effects::box_removed))]
pub fn remove_box<V: RowView>(
    work: &mut Work<V>,
    id: u64,
    name: &BoxName,
) -> Result<(), Stop<V::Fault>>
    ensures { DoesWhere V.tells (HasOneCreator work.old.block id) (box_removed id name.now work.old.now) work.old work.new result }
{
    find_app(work, id)?;
    remove_there(work, id, name)
}
