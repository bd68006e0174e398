//! The past that kept blocks tell.
ghost use Rattle.std.specs.Prelude.{◌≡◌, ◌≤◌, ◌<◌, ◌^◌, true, IfOk, length};
ghost use Rattle.al_keeper.specs.Blocks.{is_within};

use al_base::{Bytes, Hash};
use al_block::{decode_block, encode_block};
use al_keeper::{BlockKeeper, Counted, MemBlocks, SureBlocks};
use al_opening::{StartRefusal, read_past};
use std::alloc::Global;
use std::test::*;

/// Block 1 of a chain, with one payment.
const PAYMENT: &[u8; 373] =
    b"\x82\xa1b\x88\xa4fees\xc4 \x01\x01\x01\x01\x01\x01\x01\x01\x01\x01\x01\x01\x01\x01\x01\x01\x01\x01\x01\x01\x01\x01\x01\x01\x01\x01\x01\x01\x01\x01\x01\x01\xa2gh\xc4 fr8\xd2aW]\xdb\x91\xa6r\x1bG\x8b\x17\xefo\xf04\xf0\xa1\xa0x?\xe3R\xddd\xb0\xa0\xf3)\xa4prev\xc4 H\xe7\xfaD\xbe\xa4\xc1\x8aERa\xc9\xc0\xa3H\xe9_\xfc\xbe\xd6\x01\xa1\xc9)|m\xea\xc7!d\x8a\xff\xa3rnd\x01\xa6rwcalr\xce\x00\x07\xa1!\xa3rwd\xc4 \x02\x02\x02\x02\x02\x02\x02\x02\x02\x02\x02\x02\x02\x02\x02\x02\x02\x02\x02\x02\x02\x02\x02\x02\x02\x02\x02\x02\x02\x02\x02\x02\xa2tc\x01\xa3txn\xc4 \xee|\xcd\x01\xf0\x0d\xa7+F\xa4\x90\xb6\x9b\xf5f\xfd\xd9\x22\xb5\xe1\x8d\xa1\xf7\xd1L\xa3\xe4\xef\x10\x82\xd4\xb6\xa1t\x91\x81\xa3txn\x88\xa3amt\xce\x00\x04\x93\xe0\xa3fee\xcd\x03\xe8\xa2fv\x01\xa2gh\xc4 fr8\xd2aW]\xdb\x91\xa6r\x1bG\x8b\x17\xefo\xf04\xf0\xa1\xa0x?\xe3R\xddd\xb0\xa0\xf3)\xa2lv\xcd\x03\xe8\xa3rcv\xc4 \x04\x04\x04\x04\x04\x04\x04\x04\x04\x04\x04\x04\x04\x04\x04\x04\x04\x04\x04\x04\x04\x04\x04\x04\x04\x04\x04\x04\x04\x04\x04\x04\xa3snd\xc4 \x03\x03\x03\x03\x03\x03\x03\x03\x03\x03\x03\x03\x03\x03\x03\x03\x03\x03\x03\x03\x03\x03\x03\x03\x03\x03\x03\x03\x03\x03\x03\x03\xa4type\xa3pay";

/// SHA-512/256 of `TX` and its payment.
const PAYMENT_ID: [u8; 32] = [
    158, 39, 87, 161, 234, 46, 232, 57, 26, 147, 200, 205, 210, 110, 210, 53, 212, 8, 21, 76, 146,
    57, 13, 54, 120, 181, 122, 117, 122, 139, 190, 102,
];

/// The block with another round and genesis hash.
fn block(alloc: Global, round: u64, genesis: Hash) -> Result<Bytes, Fail>
    ensures { IfOk result (λ b. length b < 2 ^ 31) }
{
    let mut block = decode_block(alloc, PAYMENT)?;
    block.header.round = round;
    block.header.genesis_hash = genesis;
    let mut out = Vec::new(alloc);
    encode_block(&block, &mut out)?;
    if out.len() < 1000 {
        return Ok(Bytes::from_vec(out));
    }
    Err(Fail::new("long"))
}

const HERE: Hash = [7; 32];

const THERE: Hash = [8; 32];

#[test]
fn two_blocks(rt: HostRuntime) -> Result<(), Fail> {
    let alloc = rt.alloc();
    let mut blocks = SureBlocks::new(alloc);
    assert!(rt; blocks.append(5, block(alloc, 5, HERE)?.as_slice()).is_ok());
    assert!(rt; blocks.append(6, block(alloc, 6, THERE)?.as_slice()).is_ok());
    let mut blocks = Counted::new(blocks);
    match read_past::<u8, SureBlocks>(alloc, &mut blocks, &HERE, 5, 6) {
        Ok(past) => {
            assert_eq!(rt; past.header.round, 6);
            assert!(rt; past.header.genesis_hash == THERE);
            assert!(rt; past.tail.has_id(1000, &PAYMENT_ID));
        }
        Err(_) => assert!(rt; false),
    }
    match read_past::<u8, SureBlocks>(alloc, &mut blocks, &HERE, 6, 6) {
        Err(StartRefusal::OtherGenesis { kept }) => assert!(rt; kept == THERE),
        _ => assert!(rt; false),
    }
    Ok(())
}

/// The round of the first bad block, if that is what the past is refused for.
fn bad_from<B: BlockKeeper>(
    alloc: Global,
    blocks: &mut Counted<B>,
    from: u64,
    to: u64,
) -> Option<u64>
    requires order { from ≤ to }
    requires first { is_within (B.rounds blocks.old.inner) from ≡ true }
    requires last { is_within (B.rounds blocks.old.inner) to ≡ true }
    ensures { B.rounds blocks.new.inner ≡ B.rounds blocks.old.inner }
{
    match read_past::<u8, B>(alloc, blocks, &HERE, from, to) {
        Err(StartRefusal::BadBlock { round }) => Some(round),
        _ => None,
    }
}

#[test]
fn bad_blocks(rt: HostRuntime) -> Result<(), Fail> {
    let alloc = rt.alloc();
    let mut blocks = SureBlocks::new(alloc);
    assert!(rt; blocks.append(5, block(alloc, 5, HERE)?.as_slice()).is_ok());
    assert!(rt; blocks.append(6, block(alloc, 5, HERE)?.as_slice()).is_ok());
    assert!(rt; blocks.append(7, &[1]).is_ok());
    let mut blocks = Counted::new(blocks);
    assert_eq!(rt; bad_from(alloc, &mut blocks, 5, 7), Some(6));
    assert_eq!(rt; bad_from(alloc, &mut blocks, 6, 7), Some(6));
    assert_eq!(rt; bad_from(alloc, &mut blocks, 7, 7), Some(7));
    Ok(())
}

#[test]
fn a_fault(rt: HostRuntime) -> Result<(), Fail> {
    let alloc = rt.alloc();
    let mut blocks = MemBlocks::new(alloc, &[2])?;
    assert!(rt; blocks.append(5, block(alloc, 5, HERE)?.as_slice()).is_ok());
    let mut blocks = Counted::new(blocks);
    let answer = read_past::<u8, MemBlocks>(alloc, &mut blocks, &HERE, 5, 5);
    assert!(rt; matches!(answer, Err(StartRefusal::Blocks(_))));
    Ok(())
}
