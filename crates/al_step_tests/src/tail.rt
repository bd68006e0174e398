ghost use Rattle.std.specs.Prelude.{◌<◌};

use al_base::{Address, Hash};
use al_block::decode_block;
use al_eval::{Entry, Tail};
use std::test::*;

const NO_LEASE: Hash = [0; 32];

const LEASE: Hash = [5; 32];

/// The block with one payment, to which a lease is given.
const LEASED: &[u8; 410] =
    b"\x82\xa1b\x88\xa4fees\xc4 \x01\x01\x01\x01\x01\x01\x01\x01\x01\x01\x01\x01\x01\x01\x01\x01\x01\x01\x01\x01\x01\x01\x01\x01\x01\x01\x01\x01\x01\x01\x01\x01\xa2gh\xc4 fr8\xd2aW]\xdb\x91\xa6r\x1bG\x8b\x17\xefo\xf04\xf0\xa1\xa0x?\xe3R\xddd\xb0\xa0\xf3)\xa4prev\xc4 H\xe7\xfaD\xbe\xa4\xc1\x8aERa\xc9\xc0\xa3H\xe9_\xfc\xbe\xd6\x01\xa1\xc9)|m\xea\xc7!d\x8a\xff\xa3rnd\x01\xa6rwcalr\xce\x00\x07\xa1!\xa3rwd\xc4 \x02\x02\x02\x02\x02\x02\x02\x02\x02\x02\x02\x02\x02\x02\x02\x02\x02\x02\x02\x02\x02\x02\x02\x02\x02\x02\x02\x02\x02\x02\x02\x02\xa2tc\x01\xa3txn\xc4 \xee|\xcd\x01\xf0\x0d\xa7+F\xa4\x90\xb6\x9b\xf5f\xfd\xd9\x22\xb5\xe1\x8d\xa1\xf7\xd1L\xa3\xe4\xef\x10\x82\xd4\xb6\xa1t\x91\x81\xa3txn\x89\xa3amt\xce\x00\x04\x93\xe0\xa3fee\xcd\x03\xe8\xa2fv\x01\xa2gh\xc4 fr8\xd2aW]\xdb\x91\xa6r\x1bG\x8b\x17\xefo\xf04\xf0\xa1\xa0x?\xe3R\xddd\xb0\xa0\xf3)\xa2lv\xcd\x03\xe8\xa2lx\xc4 \x05\x05\x05\x05\x05\x05\x05\x05\x05\x05\x05\x05\x05\x05\x05\x05\x05\x05\x05\x05\x05\x05\x05\x05\x05\x05\x05\x05\x05\x05\x05\x05\xa3rcv\xc4 \x04\x04\x04\x04\x04\x04\x04\x04\x04\x04\x04\x04\x04\x04\x04\x04\x04\x04\x04\x04\x04\x04\x04\x04\x04\x04\x04\x04\x04\x04\x04\x04\xa3snd\xc4 \x03\x03\x03\x03\x03\x03\x03\x03\x03\x03\x03\x03\x03\x03\x03\x03\x03\x03\x03\x03\x03\x03\x03\x03\x03\x03\x03\x03\x03\x03\x03\x03\xa4type\xa3pay";

/// The id of that payment: SHA-512/256 of `TX` and its spelling.
const LEASED_ID: Hash = [
    143, 20, 45, 110, 109, 84, 232, 249, 140, 72, 190, 126, 17, 247, 125, 59, 117, 204, 218, 180,
    112, 214, 185, 237, 243, 133, 251, 172, 62, 8, 116, 5,
];

/// The bytes of an id, of a sender and of a lease, and the last round. The second holds the lease
/// of the first longer, and the third not as long.
const ENTRIES: [(u8, u8, u8, u64); 5] = [
    (1, 1, 7, 200),
    (2, 1, 7, 300),
    (3, 1, 7, 100),
    (1, 2, 7, 50),
    (4, 2, 8, 60),
];

/// A round, the bytes of a sender and of a lease, and the last round that it is held.
const LEASES: [(u64, u8, u8, Option<u64>); 8] = [
    (1, 1, 7, Some(300)),
    (300, 1, 7, Some(300)),
    (301, 1, 7, None),
    (50, 2, 7, Some(50)),
    (51, 2, 7, None),
    (60, 2, 8, Some(60)),
    (1, 1, 8, None),
    (1, 3, 7, None),
];

/// A round, the bytes of an id, and whether it is there.
const IDS: [(u64, u8, bool); 6] = [
    (200, 1, true),
    (201, 1, false),
    (300, 2, true),
    (100, 3, true),
    (101, 3, false),
    (1, 5, false),
];

#[test]
fn a_look_up_gives_the_greatest_last_round(rt: HostRuntime) -> Result<(), Fail> {
    let mut tail = Tail::new(rt.alloc());
    for (id, sender, lease, last) in ENTRIES {
        tail.push(Entry {
            id: [id; 32],
            sender: Address([sender; 32]),
            lease: [lease; 32],
            last,
        })?;
    }
    for (round, sender, lease, until) in LEASES {
        let found = tail.lease_until(round, &Address([sender; 32]), &[lease; 32]);
        assert!(rt;
            found == until,
            "the lease {lease} of {sender} in round {round}"
        );
    }
    for (round, id, is_there) in IDS {
        let found = tail.has_id(round, &[id; 32]);
        assert!(rt; found == is_there, "the id {id} in round {round}");
    }
    Ok(())
}

// Whether the payment of the block is found up to a round, and its sender's lease held up to
// another, and the zero lease by nobody.
fn is_up_to(tail: &Tail, id_last: u64, lease_last: u64) -> bool
    requires { id_last < 10000 }
{
    let sender = Address([3; 32]);
    tail.has_id(id_last, &LEASED_ID)
        && !tail.has_id(id_last + 1, &LEASED_ID)
        && tail.lease_until(1, &sender, &LEASE) == Some(lease_last)
        && tail.lease_until(1, &sender, &NO_LEASE).is_none()
}

#[test]
fn a_block_that_is_taken_back_gives_back_earlier_rounds(rt: HostRuntime) -> Result<(), Fail> {
    let block = decode_block(rt.alloc(), LEASED)?;
    let mut tail = Tail::new(rt.alloc());
    tail.push(Entry {
        id: LEASED_ID,
        sender: Address([3; 32]),
        lease: LEASE,
        last: 300,
    })?;
    tail.push(Entry {
        id: [9; 32],
        sender: Address([3; 32]),
        lease: LEASE,
        last: 500,
    })?;
    assert!(rt; is_up_to(&tail, 300, 500));
    tail.extend(rt.alloc(), &block)?;
    assert!(rt; is_up_to(&tail, 1_000, 1_000));
    tail.take_back(&block);
    assert!(rt; is_up_to(&tail, 300, 500));
    Ok(())
}
