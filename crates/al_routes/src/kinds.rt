//! What each kind of path asks, by its pieces and its query.
ghost use Rattle.std.specs.Prelude.{◌≡◌, map};
ghost use Rattle.al_routes.specs.Asks.{AsksAccount, AsksApp, AsksAsset, AsksBox, AsksBy, AsksCirculation, AsksCreator, AsksOnline, AsksPost, AsksStanding, AsksSupply, method_of};

use crate::paths::Kind;
use crate::queries::{round, span};
use crate::request::{FormFault, Request};
use crate::target::piece;
use crate::values::{address, box_name, number};

fn post(query: &[u8]) -> Result<Request, FormFault>
    ensures { AsksPost query.now result }
{
    if query.is_empty() {
        Ok(Request::Post)
    } else {
        Err(FormFault::BadQuery)
    }
}

fn account(pieces: &[&str], query: &[u8]) -> Result<Request, FormFault>
    ensures { AsksAccount (map (λ w. w.now) pieces.now) query.now result }
{
    let Some(address) = address(piece(pieces, 3)) else {
        return Err(FormFault::BadAddress);
    };
    let Some(round) = round(query) else {
        return Err(FormFault::BadQuery);
    };
    Ok(Request::Account { address, round })
}

fn asset(pieces: &[&str], query: &[u8]) -> Result<Request, FormFault>
    ensures { AsksAsset (map (λ w. w.now) pieces.now) query.now result }
{
    let Some(address) = address(piece(pieces, 3)) else {
        return Err(FormFault::BadAddress);
    };
    let Some(id) = number(piece(pieces, 5)) else {
        return Err(FormFault::BadId);
    };
    let Some(round) = round(query) else {
        return Err(FormFault::BadQuery);
    };
    Ok(Request::Asset { address, id, round })
}

fn app(pieces: &[&str], query: &[u8]) -> Result<Request, FormFault>
    ensures { AsksApp (map (λ w. w.now) pieces.now) query.now result }
{
    let Some(address) = address(piece(pieces, 3)) else {
        return Err(FormFault::BadAddress);
    };
    let Some(id) = number(piece(pieces, 5)) else {
        return Err(FormFault::BadId);
    };
    let Some(round) = round(query) else {
        return Err(FormFault::BadQuery);
    };
    Ok(Request::App { address, id, round })
}

fn box_of(pieces: &[&str], query: &[u8]) -> Result<Request, FormFault>
    ensures { AsksBox (map (λ w. w.now) pieces.now) query.now result }
{
    let Some(app) = number(piece(pieces, 3)) else {
        return Err(FormFault::BadId);
    };
    let Some(name) = box_name(piece(pieces, 5)) else {
        return Err(FormFault::BadBox);
    };
    let Some(round) = round(query) else {
        return Err(FormFault::BadQuery);
    };
    Ok(Request::BoxOf { app, name, round })
}

fn creator(pieces: &[&str], query: &[u8]) -> Result<Request, FormFault>
    ensures { AsksCreator (map (λ w. w.now) pieces.now) query.now result }
{
    let Some(id) = number(piece(pieces, 3)) else {
        return Err(FormFault::BadId);
    };
    let Some(round) = round(query) else {
        return Err(FormFault::BadQuery);
    };
    Ok(Request::Creator { id, round })
}

fn online(pieces: &[&str], query: &[u8]) -> Result<Request, FormFault>
    ensures { AsksOnline (map (λ w. w.now) pieces.now) query.now result }
{
    let Some(address) = address(piece(pieces, 3)) else {
        return Err(FormFault::BadAddress);
    };
    let Some(round) = round(query) else {
        return Err(FormFault::BadQuery);
    };
    Ok(Request::Online { address, round })
}

fn circulation(query: &str) -> Result<Request, FormFault>
    ensures { AsksCirculation query.now result }
{
    let Some((round, vote)) = span(query) else {
        return Err(FormFault::BadQuery);
    };
    Ok(Request::Circulation { round, vote })
}

fn supply(query: &[u8]) -> Result<Request, FormFault>
    ensures { AsksSupply query.now result }
{
    let Some(round) = round(query) else {
        return Err(FormFault::BadQuery);
    };
    Ok(Request::Supply { round })
}

fn standing(query: &[u8]) -> Result<Request, FormFault>
    ensures { AsksStanding query.now result }
{
    if query.is_empty() {
        Ok(Request::Standing)
    } else {
        Err(FormFault::BadQuery)
    }
}

/// What a kind of path asks. The text and the query are one.
pub(crate) fn asked(
    kind: Kind,
    pieces: &[&str],
    text: &str,
    query: &[u8],
) -> Result<Request, FormFault>
    requires { text.now ≡ query.now }
    ensures { AsksBy kind (map (λ w. w.now) pieces.now) query.now result }
{
    match kind {
        Kind::Blocks => post(query),
        Kind::Account => account(pieces, query),
        Kind::Asset => asset(pieces, query),
        Kind::App => app(pieces, query),
        Kind::BoxOf => box_of(pieces, query),
        Kind::Creator => creator(pieces, query),
        Kind::Online => online(pieces, query),
        Kind::Circulation => circulation(text),
        Kind::Supply => supply(query),
        Kind::Standing => standing(query),
    }
}

/// The method of a kind of path.
pub(crate) fn method_of(kind: Kind) -> &'static str
    ensures { result.now ≡ method_of kind }
{
    match kind {
        Kind::Blocks => "POST",
        Kind::Account => "GET",
        Kind::Asset => "GET",
        Kind::App => "GET",
        Kind::BoxOf => "GET",
        Kind::Creator => "GET",
        Kind::Online => "GET",
        Kind::Circulation => "GET",
        Kind::Supply => "GET",
        Kind::Standing => "GET",
    }
}
