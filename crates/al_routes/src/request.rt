//! Requests, and why there is none.

use al_base::{Address, BoxName};

/// What is asked. A `round` is that of the answer, the last one where there is none.
#[derive(Clone, Copy, Debug, PartialEq, Eq)]
pub enum Request {
    /// `POST /v1/blocks`: the body is a block.
    Post,
    /// `GET /v1/accounts/{address}`.
    Account {
        address: Address,
        round: Option<u64>,
    },
    /// `GET /v1/accounts/{address}/assets/{id}`.
    Asset {
        address: Address,
        id: u64,
        round: Option<u64>,
    },
    /// `GET /v1/accounts/{address}/apps/{id}`.
    App {
        address: Address,
        id: u64,
        round: Option<u64>,
    },
    /// `GET /v1/apps/{app}/boxes/{name}`.
    BoxOf {
        app: u64,
        name: BoxName,
        round: Option<u64>,
    },
    /// `GET /v1/creators/{id}`.
    Creator {
        id: u64,
        round: Option<u64>,
    },
    /// `GET /v1/online/{address}`.
    Online {
        address: Address,
        round: Option<u64>,
    },
    /// `GET /v1/circulation`. `vote` is the round of votes, where it is asked for.
    Circulation {
        round: Option<u64>,
        vote: Option<u64>,
    },
    /// `GET /v1/supply`.
    Supply {
        round: Option<u64>,
    },
    /// `GET /v1/status`.
    Standing,
}

/// Why a method and a target ask nothing, the first in the order of path, method, pieces of the path from left to right, query.
#[derive(Clone, Copy, Debug, PartialEq, Eq)]
pub enum FormFault {
    /// A piece is no text of an address.
    BadAddress,
    /// A piece is no decimal of at most 2^62 without sign or leading zero.
    BadId,
    /// A piece is not 1 to 64 bytes in hexadecimal.
    BadBox,
    /// The path has no such query.
    BadQuery,
    /// There is no such path.
    NoRoute,
    /// The path has another method.
    Method,
    /// There was no memory.
    Memory,
}
