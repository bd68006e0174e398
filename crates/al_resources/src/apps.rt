//! Applications created, set and removed, and what accounts have of them.
ghost use Rattle.std.specs.Prelude.{◌≡◌, ◌≤◌, ⊤, Some, true, IfOk, length};
ghost use Rattle.al_rows.specs.Rows.{ParamsInRange};
ghost use Rattle.al_overlay.specs.Work.{Does, DoesWhere, HasOneCreator, Looks};
ghost use Rattle.al_resources.specs.Effects.{app, app_created, app_in, app_opted, app_opted_out, app_removed, local_from, local_set, made, made_by, opted_from, opted_out_from, set_app, state_set};
ghost use Rattle.al_resources.specs.Finds.{AppInRange, Finds, local_by, opted_by, removed_by, state_by};

use crate::Made;
use al_base::{Address, Bytes, Key};
use al_moves::{Rule, Stop, Work};
use al_rows::{AppParams, AppRow, Local, Row, RowView};
use std::alloc::Global;

// What a row says of an application; a row of another kind says nothing.
fn app_in(row: Option<Row>) -> AppRow
    ensures { result ≡ app_in row }
{
    match row {
        Some(Row::App(app)) => app,
        _ => AppRow {
            params: None,
            local: None,
        },
    }
}

// What an account has of an application: neither part where it has nothing of it.
fn app<V: RowView>(work: &mut Work<V>, who: &Address, id: u64) -> Result<AppRow, Stop<V::Fault>>
    ensures looks { Looks V.tells work.old work.new result }
    ensures value { V.tells ≡ true → IfOk result (λ a. a ≡ app work.old.now who.now id) }
    ensures range { IfOk result (λ a. AppInRange a) }
{
    let row = work.row(&Key::Resource(*who, id))?;
    Ok(app_in(row))
}

// Makes this what an account has of an application, and moves the account's counts.
fn set_app<V: RowView>(
    work: &mut Work<V>,
    who: &Address,
    id: u64,
    row: AppRow,
) -> Result<(), Stop<V::Fault>>
    requires { AppInRange row }
    ensures { Does V.tells (set_app who.now id row work.old.now) work.old work.new result }
{
    work.put_resource(who, id, Some(Row::App(row)))
}

// The application of an account that has its parameters.
fn made_by<V: RowView>(
    work: &mut Work<V>,
    id: u64,
    creator: Address,
) -> Result<Made, Stop<V::Fault>>
    ensures finds { Finds V.tells ⊤ (made_by id creator (app work.old.now creator id).params) work.old work.new result }
    ensures range { IfOk result (λ a. ParamsInRange (Some a.params)) }
{
    let AppRow { params, local: _ } = app(work, &creator, id)?;
    match params {
        Some(params) => Ok(Made { creator, params }),
        None => Err(Stop::Rule(Rule::of_id(60, id))),
    }
}

/// The application with its creator and parameters. Rule 60, which keeps the id: there is no such
/// application. Nothing is said of the answer where two addresses had its parameters before the
/// block.
#[tactic(auto, unfolding(crate::specs::Effects::made))]
pub fn find_app<V: RowView>(work: &mut Work<V>, id: u64) -> Result<Made, Stop<V::Fault>>
    ensures finds { Finds V.tells (HasOneCreator work.old.block id) (made id work.old.now) work.old work.new result }
    ensures range { IfOk result (λ a. ParamsInRange (Some a.params)) }
{
    match work.creator(id)? {
        Some(creator) => made_by(work, id, creator),
        None => Err(Stop::Rule(Rule::of_id(60, id))),
    }
}

/// The sender gets the parameters. Rule 65, which keeps the account: one of its counts would pass
/// 2^40.
#[tactic(auto, unfolding(crate::specs::Effects::app_created))]
pub fn create<V: RowView>(
    work: &mut Work<V>,
    who: &Address,
    id: u64,
    params: AppParams,
) -> Result<(), Stop<V::Fault>>
    requires { ParamsInRange (Some params) }
    ensures { Does V.tells (app_created who.now id params work.old.now) work.old work.new result }
{
    set_app(
        work,
        who,
        id,
        AppRow {
            params: Some(params),
            local: None,
        },
    )
}

// The global state of an application that is there is set.
fn set_made<V: RowView>(
    work: &mut Work<V>,
    id: u64,
    made: Made,
    state: Bytes,
) -> Result<(), Stop<V::Fault>>
    requires params { ParamsInRange (Some made.params) }
    requires state { length state ≤ 8192 }
    ensures { Does V.tells (state_by id state made work.old.now) work.old work.new result }
{
    let Made { creator, params } = made;
    let row = app(work, &creator, id)?;
    set_app(
        work,
        &creator,
        id,
        AppRow {
            params: Some(AppParams { state, ..params }),
            local: row.local,
        },
    )
}

/// The global state is set. Rules, with what each keeps: 60, the id: there is no such application;
/// 65, the account: one of the creator's counts would pass 2^40.
#[tactic(auto, unfolding(crate::specs::Effects::state_set))]
pub fn set_state<V: RowView>(
    alloc: Global,
    work: &mut Work<V>,
    id: u64,
    state: &Bytes,
) -> Result<(), Stop<V::Fault>>
    requires { length state.now ≤ 8192 }
    ensures { DoesWhere V.tells (HasOneCreator work.old.block id) (state_set id state.now work.old.now) work.old work.new result }
{
    let state = state.copy(alloc)?;
    let made = find_app(work, id)?;
    set_made(work, id, made, state)
}

// The parameters of an application that is there go from its creator.
fn remove_made<V: RowView>(work: &mut Work<V>, id: u64, made: &Made) -> Result<(), Stop<V::Fault>>
    ensures { Does V.tells (removed_by id made.now work.old.now) work.old work.new result }
{
    let row = app(work, &made.creator, id)?;
    set_app(
        work,
        &made.creator,
        id,
        AppRow {
            params: None,
            local: row.local,
        },
    )
}

/// The parameters go from the creator, whoever sends it. Rules, with what each keeps: 60, the id:
/// there is no such application; 65, the account: one of the creator's counts would pass 2^40.
#[tactic(auto, unfolding(crate::specs::Effects::app_removed))]
pub fn remove<V: RowView>(work: &mut Work<V>, id: u64) -> Result<(), Stop<V::Fault>>
    ensures { DoesWhere V.tells (HasOneCreator work.old.block id) (app_removed id work.old.now) work.old work.new result }
{
    let made = find_app(work, id)?;
    remove_made(work, id, &made)
}

// An account without a local state gets one, with the schema of the parameters.
fn opt_from<V: RowView>(
    work: &mut Work<V>,
    who: &Address,
    id: u64,
    state: Bytes,
    params: &AppParams,
    row: AppRow,
) -> Result<(), Stop<V::Fault>>
    requires params { ParamsInRange (Some params.now) }
    requires state { length state ≤ 8192 }
    requires row { AppInRange row }
    ensures { Does V.tells (opted_from who.now id state params.now row row.local work.old.now) work.old work.new result }
{
    let AppRow {
        params: own,
        local: None,
    } = row
    else {
        return Err(Stop::Rule(Rule::plain(61)));
    };
    let local = Local {
        uints: params.local_uints,
        slices: params.local_slices,
        state,
    };
    set_app(
        work,
        who,
        id,
        AppRow {
            params: own,
            local: Some(local),
        },
    )
}

// An account opts in to an application that is there.
fn opt_made<V: RowView>(
    work: &mut Work<V>,
    who: &Address,
    id: u64,
    state: Bytes,
    made: &Made,
) -> Result<(), Stop<V::Fault>>
    requires params { ParamsInRange (Some made.now.params) }
    requires state { length state ≤ 8192 }
    ensures { Does V.tells (opted_by who.now id state made.now work.old.now) work.old work.new result }
{
    let row = app(work, who, id)?;
    opt_from(work, who, id, state, &made.params, row)
}

/// The sender opts in. Rules, with what each keeps: 60, the id: there is no such application; 61,
/// nothing: the sender has opted in already; 65, the account: one of its counts would pass 2^40.
#[tactic(auto, unfolding(crate::specs::Effects::app_opted))]
pub fn opt_in<V: RowView>(
    alloc: Global,
    work: &mut Work<V>,
    who: &Address,
    id: u64,
    state: &Bytes,
) -> Result<(), Stop<V::Fault>>
    requires { length state.now ≤ 8192 }
    ensures { DoesWhere V.tells (HasOneCreator work.old.block id) (app_opted who.now id state.now work.old.now) work.old work.new result }
{
    let state = state.copy(alloc)?;
    let made = find_app(work, id)?;
    opt_made(work, who, id, state, &made)
}

// The local state of an account that has one is set.
fn set_local_from<V: RowView>(
    work: &mut Work<V>,
    who: &Address,
    id: u64,
    state: Bytes,
    row: AppRow,
) -> Result<(), Stop<V::Fault>>
    requires state { length state ≤ 8192 }
    requires row { AppInRange row }
    ensures { Does V.tells (local_from who.now id state row row.local work.old.now) work.old work.new result }
{
    let AppRow {
        params,
        local: Some(local),
    } = row
    else {
        return Err(Stop::Rule(Rule::of_account(62, who)));
    };
    set_app(
        work,
        who,
        id,
        AppRow {
            params,
            local: Some(Local { state, ..local }),
        },
    )
}

// The same of an application that is there.
fn set_local_made<V: RowView>(
    work: &mut Work<V>,
    who: &Address,
    id: u64,
    state: Bytes,
) -> Result<(), Stop<V::Fault>>
    requires { length state ≤ 8192 }
    ensures { Does V.tells (local_by who.now id state work.old.now) work.old work.new result }
{
    let row = app(work, who, id)?;
    set_local_from(work, who, id, state, row)
}

/// The local state of an account is set. Rules, with what each keeps: 60, the id: there is no such
/// application; 62, the account: it has not opted in; 65, the account: one of its counts would pass
/// 2^40.
#[tactic(auto, unfolding(crate::specs::Effects::local_set))]
pub fn set_local<V: RowView>(
    alloc: Global,
    work: &mut Work<V>,
    who: &Address,
    id: u64,
    state: &Bytes,
) -> Result<(), Stop<V::Fault>>
    requires { length state.now ≤ 8192 }
    ensures { DoesWhere V.tells (HasOneCreator work.old.block id) (local_set who.now id state.now work.old.now) work.old work.new result }
{
    let state = state.copy(alloc)?;
    find_app(work, id)?;
    set_local_made(work, who, id, state)
}

// The local state of an account that has one goes.
fn opt_out_from<V: RowView>(
    work: &mut Work<V>,
    who: &Address,
    id: u64,
    row: AppRow,
) -> Result<(), Stop<V::Fault>>
    requires { AppInRange row }
    ensures { Does V.tells (opted_out_from who.now id row row.local work.old.now) work.old work.new result }
{
    let AppRow {
        params,
        local: Some(_),
    } = row
    else {
        return Err(Stop::Rule(Rule::of_account(62, who)));
    };
    set_app(
        work,
        who,
        id,
        AppRow {
            params,
            local: None,
        },
    )
}

/// The sender opts out, also of an application that there is no more. Rules, both of which keep
/// the account: 62: it has not opted in; 65: one of its counts would pass 2^40.
#[tactic(auto, unfolding(crate::specs::Effects::app_opted_out))]
pub fn opt_out<V: RowView>(work: &mut Work<V>, who: &Address, id: u64) -> Result<(), Stop<V::Fault>>
    ensures { Does V.tells (app_opted_out who.now id work.old.now) work.old work.new result }
{
    let row = app(work, who, id)?;
    opt_out_from(work, who, id, row)
}
