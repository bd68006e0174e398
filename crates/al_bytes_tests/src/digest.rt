//! Tests of al_digest: texts of addresses and hashes, and digests.
ghost use Rattle.std.specs.Prelude.{◌≡◌, ◌<◌};

use al_base::{Address, Hash};
use al_digest::{
    Prefix, Steps, TextFault, address_text, digest, hash_text, node_digest, parse_address,
    parse_hash,
};
use std::marker::Brand;
use std::sync::ledger::{Blank, Ledger};
use std::test::Fail;

// Addresses of 32 equal bytes.
#[test]
fn addresses(rt: HostRuntime) -> Result<(), Fail> {
    let rows = [
        (
            0,
            b"AAAAAAAAAAAAAAAAAAAAAAAAAAAAAAAAAAAAAAAAAAAAAAAAAAAAY5HFKQ",
        ),
        (
            1,
            b"AEAQCAIBAEAQCAIBAEAQCAIBAEAQCAIBAEAQCAIBAEAQCAIBAEA5RCDXMI",
        ),
        (
            2,
            b"AIBAEAQCAIBAEAQCAIBAEAQCAIBAEAQCAIBAEAQCAIBAEAQCAIBMXPWWNQ",
        ),
        (
            3,
            b"AMBQGAYDAMBQGAYDAMBQGAYDAMBQGAYDAMBQGAYDAMBQGAYDAMB5DBBASI",
        ),
        (
            4,
            b"AQCAIBAEAQCAIBAEAQCAIBAEAQCAIBAEAQCAIBAEAQCAIBAEAQCABXO5EU",
        ),
    ];
    for (byte, text) in rows {
        let address = Address([byte; 32]);
        assert!(rt; address_text(&address) == *text);
        assert!(rt; parse_address(text) == Ok(address));
    }
    Ok(())
}

#[test]
fn faults(rt: HostRuntime) -> Result<(), Fail> {
    let rows: [(&[u8], TextFault); 5] = [
        (
            b"AAAAAAAAAAAAAAAAAAAAAAAAAAAAAAAAAAAAAAAAAAAAAAAAAAAAY5HFK",
            TextFault::Length { found: 57 },
        ),
        (
            b"AAAAAAAAAAAAAAAAAAAAAAAAAAAAAAAAAAAAAAAAAAAAAAAAAAAAY5HFKR",
            TextFault::SpareBits,
        ),
        (
            b"AAAAAAAAAAAAAAAAAAAAAAAAAAAAAAAAAAAAAAAAAAAAAAAAAAAAY5HFKa",
            TextFault::Letter { at: 57 },
        ),
        (
            b"AAAAAAAAA1A8AAAAAAAAAAAAAAAAAAAAAAAAAAAAAAAAAAAAAAAAY5HFKR",
            TextFault::Letter { at: 9 },
        ),
        (
            b"BAAAAAAAAAAAAAAAAAAAAAAAAAAAAAAAAAAAAAAAAAAAAAAAAAAAY5HFKQ",
            TextFault::Check,
        ),
    ];
    for (text, fault) in rows {
        assert!(rt; parse_address(text) == Err(fault));
    }
    Ok(())
}

// The digest of a node, counted from nothing.
fn node_of<L: Ledger>(blank: Blank) -> Hash
    requires name { blank.name ≡ L.name }
    requires parts { blank.parts ≡ L.parts }
    requires some { 0 < blank.parts }
{
    let mut steps = Steps::<L>::new(blank);
    node_digest(&[0], &mut steps)
}

// Digests that another implementation of SHA-512/256 gives.
#[test]
fn digests(rt: HostRuntime) -> Result<(), Fail> {
    let rows = [
        (
            Prefix::Tx,
            b"ZURYF5YDXSFXSAVUIGFNT37KSJVNCU3RGHRZJDCGQ2SPXSAVELRA",
        ),
        (
            Prefix::Group,
            b"S4GYEPEHR4JCC5M2XGRRXYKSUQASPW4ZJ5ICIAVNQM5UBD56DIHQ",
        ),
        (
            Prefix::Header,
            b"UCAJ5PO37JUUPV7UWX6SJEA54Z324DRTI4JZHM25TNBSAYCOGX7A",
        ),
        (
            Prefix::Payset,
            b"JT7SVAFRS3UHRI4VFKQPPZTPPEPT5YH7S2YCUE7BFK4PKDBT3DOQ",
        ),
        (
            Prefix::Genesis,
            b"AGQSCDNCPGE62CVELDWOAF44RMECRCKS3T4FW5R2SVRTWZYYEDFA",
        ),
        (
            Prefix::Row,
            b"D2RDSPKG76INAEVPCWWV6PYL5NYPFQA3L7L76J6J56OIOB2FQWEA",
        ),
        (
            Prefix::Root,
            b"TUGATPL5WDLQE7IAVBYCPP7HRCD5KEA475BKQZUIF473RVCDQDQA",
        ),
        (
            Prefix::Label,
            b"SD3HHSCA6RRQEBDRUOH5574PMDVYAQXB44HOBAENTNTMEPHMHB6A",
        ),
    ];
    for (prefix, text) in rows {
        let hash = digest(prefix, &[0x90]);
        assert!(rt; hash_text(&hash) == *text);
        assert!(rt; parse_hash(text) == Ok(hash));
    }
    let app = digest(Prefix::App, &[0, 0, 0, 0, 0, 0, 0, 7]);
    assert!(rt; hash_text(&app) == *b"PQ4NBMDLREVVRUQUFX7CFEUTKEBCEJOQ5YREC6SZA4EYKOFKHO2Q");
    let node = node_of::<Brand>(Blank::new(1));
    assert!(rt; hash_text(&node) == *b"JMZBMDNPTYZXKKNDZ3HNOFDOEKG57MOWS6NQEKIFRBWWVKVWTS2A");
    Ok(())
}
