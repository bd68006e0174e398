//! Tests of al_block: hashes, first faults, and blocks read and written back.
use al_block::{BlockFault, decode_block, encode_block, header_hash, payset_hash, payset_hashes};
use al_msgpack::DecodeFault;
use std::test::*;

/// Block 1 of a chain, with one payment.
const PAYMENT: &[u8; 373] =
    b"\x82\xa1b\x88\xa4fees\xc4 \x01\x01\x01\x01\x01\x01\x01\x01\x01\x01\x01\x01\x01\x01\x01\x01\x01\x01\x01\x01\x01\x01\x01\x01\x01\x01\x01\x01\x01\x01\x01\x01\xa2gh\xc4 fr8\xd2aW]\xdb\x91\xa6r\x1bG\x8b\x17\xefo\xf04\xf0\xa1\xa0x?\xe3R\xddd\xb0\xa0\xf3)\xa4prev\xc4 H\xe7\xfaD\xbe\xa4\xc1\x8aERa\xc9\xc0\xa3H\xe9_\xfc\xbe\xd6\x01\xa1\xc9)|m\xea\xc7!d\x8a\xff\xa3rnd\x01\xa6rwcalr\xce\x00\x07\xa1!\xa3rwd\xc4 \x02\x02\x02\x02\x02\x02\x02\x02\x02\x02\x02\x02\x02\x02\x02\x02\x02\x02\x02\x02\x02\x02\x02\x02\x02\x02\x02\x02\x02\x02\x02\x02\xa2tc\x01\xa3txn\xc4 \xee|\xcd\x01\xf0\x0d\xa7+F\xa4\x90\xb6\x9b\xf5f\xfd\xd9\x22\xb5\xe1\x8d\xa1\xf7\xd1L\xa3\xe4\xef\x10\x82\xd4\xb6\xa1t\x91\x81\xa3txn\x88\xa3amt\xce\x00\x04\x93\xe0\xa3fee\xcd\x03\xe8\xa2fv\x01\xa2gh\xc4 fr8\xd2aW]\xdb\x91\xa6r\x1bG\x8b\x17\xefo\xf04\xf0\xa1\xa0x?\xe3R\xddd\xb0\xa0\xf3)\xa2lv\xcd\x03\xe8\xa3rcv\xc4 \x04\x04\x04\x04\x04\x04\x04\x04\x04\x04\x04\x04\x04\x04\x04\x04\x04\x04\x04\x04\x04\x04\x04\x04\x04\x04\x04\x04\x04\x04\x04\x04\xa3snd\xc4 \x03\x03\x03\x03\x03\x03\x03\x03\x03\x03\x03\x03\x03\x03\x03\x03\x03\x03\x03\x03\x03\x03\x03\x03\x03\x03\x03\x03\x03\x03\x03\x03\xa4type\xa3pay";

/// Its hash.
const PAYMENT_HASH: [u8; 32] = [
    26, 99, 134, 179, 155, 64, 231, 216, 24, 113, 179, 227, 184, 167, 96, 226, 249, 66, 86, 136,
    94, 206, 80, 133, 11, 206, 182, 104, 62, 34, 251, 165,
];

/// SHA-512/256 of `TX` and its payment.
const PAYMENT_ID: [u8; 32] = [
    158, 39, 87, 161, 234, 46, 232, 57, 26, 147, 200, 205, 210, 110, 210, 53, 212, 8, 21, 76, 146,
    57, 13, 54, 120, 181, 122, 117, 122, 139, 190, 102,
];

/// Block 1 of the same chain, without a transaction.
const EMPTY: &[u8; 212] =
    b"\x81\xa1b\x87\xa4fees\xc4 \x01\x01\x01\x01\x01\x01\x01\x01\x01\x01\x01\x01\x01\x01\x01\x01\x01\x01\x01\x01\x01\x01\x01\x01\x01\x01\x01\x01\x01\x01\x01\x01\xa2gh\xc4 fr8\xd2aW]\xdb\x91\xa6r\x1bG\x8b\x17\xefo\xf04\xf0\xa1\xa0x?\xe3R\xddd\xb0\xa0\xf3)\xa4prev\xc4 H\xe7\xfaD\xbe\xa4\xc1\x8aERa\xc9\xc0\xa3H\xe9_\xfc\xbe\xd6\x01\xa1\xc9)|m\xea\xc7!d\x8a\xff\xa3rnd\x01\xa6rwcalr\xce\x00\x07\xa1!\xa3rwd\xc4 \x02\x02\x02\x02\x02\x02\x02\x02\x02\x02\x02\x02\x02\x02\x02\x02\x02\x02\x02\x02\x02\x02\x02\x02\x02\x02\x02\x02\x02\x02\x02\x02\xa3txn\xc4 L\xff*\x80\xb1\x96\xe8x\xa3\x95*\xa0\xf7\xe6oy\x1f>\xe0\xff\x96\xb0*\x13\xe1*\xb8\xf5\x0c3\xd8\xdd";

/// Its hash.
const EMPTY_HASH: [u8; 32] = [
    197, 56, 34, 246, 141, 33, 14, 216, 244, 22, 224, 12, 175, 161, 101, 170, 240, 249, 159, 101,
    125, 191, 196, 195, 52, 37, 117, 156, 76, 3, 157, 59,
];

#[test]
fn blocks_and_hashes(rt: HostRuntime) -> Result<(), Fail> {
    let cases: [(&[u8], [u8; 32], usize); 2] = [(PAYMENT, PAYMENT_HASH, 1), (EMPTY, EMPTY_HASH, 0)];
    for (input, hash, count) in cases {
        assert!(rt; input.len() < 1000);
        let block = decode_block(rt.alloc(), input)?;
        assert_eq!(rt; block.header.round, 1);
        assert_eq!(rt; block.items.len(), count);
        let header = block.header.copy(rt.alloc())?;
        assert_eq!(rt; header_hash(rt.alloc(), &header)?, hash);
        assert_eq!(rt; payset_hash(rt.alloc(), &block)?, block.header.payset);
        let hashes = payset_hashes(rt.alloc(), &block)?;
        assert_eq!(rt; hashes.payset, block.header.payset);
        assert_eq!(rt; hashes.ids.len(), count);
        assert!(rt; hashes.ids.iter().all(|id| *id == PAYMENT_ID));
        let mut out = Vec::new(rt.alloc());
        encode_block(&block, &mut out)?;
        assert_eq!(rt; out.as_slice(), input);
    }
    Ok(())
}

fn names(fault: &BlockFault, is_range: bool, want: &str) -> bool {
    match fault {
        BlockFault::Field { name } => !is_range && name.as_slice() == want.as_bytes(),
        BlockFault::Range { name } => is_range && name.as_slice() == want.as_bytes(),
        _ => false,
    }
}

#[test]
fn first_faults(rt: HostRuntime) -> Result<(), Fail> {
    // Each input with whether its fault is a range, and the field.
    let cases: [(&[u8], bool, &str); 11] = [
        (b"\x01", false, ""),
        (b"\x82\xa1b\x81\xa3rnd\x00\xa2zz\x01", false, "zz"),
        (
            b"\x81\xa1b\x82\xa3exp\x92\xc4 \x01\x01\x01\x01\x01\x01\x01\x01\x01\x01\x01\x01\x01\x01\x01\x01\x01\x01\x01\x01\x01\x01\x01\x01\x01\x01\x01\x01\x01\x01\x01\x01\xc4 \x01\x01\x01\x01\x01\x01\x01\x01\x01\x01\x01\x01\x01\x01\x01\x01\x01\x01\x01\x01\x01\x01\x01\x01\x01\x01\x01\x01\x01\x01\x01\x01\xa2zz\x01",
            false,
            "zz",
        ),
        (
            b"\x81\xa1b\x82\xa3rnd\xcf@\x00\x00\x00\x00\x00\x00\x01\xa2tc\xcf@\x00\x00\x00\x00\x00\x00\x01",
            true,
            "rnd",
        ),
        (
            b"\x81\xa1b\x81\xa3exp\x92\xc4 \x01\x01\x01\x01\x01\x01\x01\x01\x01\x01\x01\x01\x01\x01\x01\x01\x01\x01\x01\x01\x01\x01\x01\x01\x01\x01\x01\x01\x01\x01\x01\x01\xc4 \x01\x01\x01\x01\x01\x01\x01\x01\x01\x01\x01\x01\x01\x01\x01\x01\x01\x01\x01\x01\x01\x01\x01\x01\x01\x01\x01\x01\x01\x01\x01\x01",
            true,
            "exp",
        ),
        (b"\x81\xa1b\x81\xa3exp\x90", false, "exp"),
        (
            b"\x81\xa1b\x81\xa4prev\xc4 \x00\x00\x00\x00\x00\x00\x00\x00\x00\x00\x00\x00\x00\x00\x00\x00\x00\x00\x00\x00\x00\x00\x00\x00\x00\x00\x00\x00\x00\x00\x00\x00",
            false,
            "prev",
        ),
        (b"\x82\xa1b\x81\xa4prev\xc4\x00\xa1t\x90", false, "t"),
        (b"\x81\xa1t\x91\x01", false, ""),
        (
            b"\x82\xa1b\x81\xa3txn\xc4\x01\x01\xa1t\x91\x80",
            true,
            "txn",
        ),
        (b"\x81\xa1t\x91\x80", true, "type"),
    ];
    for (input, is_range, want) in cases {
        assert!(rt; input.len() < 1000);
        let Err(fault) = decode_block(rt.alloc(), input) else {
            return Err(Fail::new("no fault"));
        };
        assert!(rt; names(&fault, is_range, want), "{want}");
    }
    Ok(())
}

#[test]
fn absent_parts_and_cut_input(rt: HostRuntime) -> Result<(), Fail> {
    let block = decode_block(rt.alloc(), b"\x80")?;
    assert_eq!(rt; block.header.round, 0);
    assert_eq!(rt; block.items.len(), 0);
    let fault = decode_block(rt.alloc(), &EMPTY[..211]).err();
    assert!(rt;
        matches!(
            fault,
            Some(BlockFault::Decode(DecodeFault::Truncated { at: 211 }))
        )
    );
    Ok(())
}
