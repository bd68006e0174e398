//! The values that are read.

use al_base::{Address, BoxName};
use al_routes::{Request, Routes};
use std::test::*;

const NOBODY: Address = Address([0; 32]);

const MOST: u64 = 1 << 62;

#[test]
fn values_of_accounts(rt: HostRuntime) -> Result<(), Fail> {
    let alloc = rt.alloc();
    let routes = Routes::new(alloc)?;
    let rows: [(&str, Request); 5] = [
        (
            "/v1/accounts/AAAAAAAAAAAAAAAAAAAAAAAAAAAAAAAAAAAAAAAAAAAAAAAAAAAAY5HFKQ",
            Request::Account {
                address: NOBODY,
                round: None,
            },
        ),
        (
            "/v1/accounts/AAAAAAAAAAAAAAAAAAAAAAAAAAAAAAAAAAAAAAAAAAAAAAAAAAAAY5HFKQ?round=0",
            Request::Account {
                address: NOBODY,
                round: Some(0),
            },
        ),
        (
            "/v1/accounts/AAAAAAAAAAAAAAAAAAAAAAAAAAAAAAAAAAAAAAAAAAAAAAAAAAAAY5HFKQ/assets/0?round=4611686018427387904",
            Request::Asset {
                address: NOBODY,
                id: 0,
                round: Some(MOST),
            },
        ),
        (
            "/v1/accounts/AAAAAAAAAAAAAAAAAAAAAAAAAAAAAAAAAAAAAAAAAAAAAAAAAAAAY5HFKQ/apps/4611686018427387904",
            Request::App {
                address: NOBODY,
                id: MOST,
                round: None,
            },
        ),
        (
            "/v1/online/AAAAAAAAAAAAAAAAAAAAAAAAAAAAAAAAAAAAAAAAAAAAAAAAAAAAY5HFKQ?round=10",
            Request::Online {
                address: NOBODY,
                round: Some(10),
            },
        ),
    ];
    for (target, request) in rows {
        assert!(rt; routes.request(alloc, "GET", target) == Ok(request));
    }
    Ok(())
}

#[test]
fn values_of_other_paths(rt: HostRuntime) -> Result<(), Fail> {
    let alloc = rt.alloc();
    let routes = Routes::new(alloc)?;
    let rows: [(&str, Request); 6] = [
        (
            "/v1/creators/1234567890?round=9",
            Request::Creator {
                id: 1_234_567_890,
                round: Some(9),
            },
        ),
        (
            "/v1/circulation",
            Request::Circulation {
                round: None,
                vote: None,
            },
        ),
        (
            "/v1/circulation?round=5",
            Request::Circulation {
                round: Some(5),
                vote: None,
            },
        ),
        (
            "/v1/circulation?vote=6",
            Request::Circulation {
                round: None,
                vote: Some(6),
            },
        ),
        (
            "/v1/circulation?round=5&vote=6",
            Request::Circulation {
                round: Some(5),
                vote: Some(6),
            },
        ),
        ("/v1/supply?round=7", Request::Supply { round: Some(7) }),
    ];
    for (target, request) in rows {
        assert!(rt; routes.request(alloc, "GET", target) == Ok(request));
    }
    Ok(())
}

// A name is read in either case of letters.
#[test]
fn values_of_boxes(rt: HostRuntime) -> Result<(), Fail> {
    let alloc = rt.alloc();
    let routes = Routes::new(alloc)?;
    let name = BoxName::new(&[0, 171, 255]).ok_or("a name")?;
    let request = Request::BoxOf {
        app: 7,
        name,
        round: Some(3),
    };
    for target in [
        "/v1/apps/7/boxes/00abff?round=3",
        "/v1/apps/7/boxes/00aBFf?round=3",
    ] {
        assert!(rt; routes.request(alloc, "GET", target) == Ok(request));
    }
    Ok(())
}
