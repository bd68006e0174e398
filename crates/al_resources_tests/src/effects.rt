use crate::calls::End::{Done, Lacks, OfAccount, OfApp, OfId, Plain};
use crate::calls::Step::{
    Create, Hold, OptIn, OptOut, Pay, Put, Remove, Send, Set, SetLocal, Take,
};
use crate::calls::{End, Step, call, rule_of};
use crate::rows::Shown::{Boxes, Have, Own};
use crate::rows::{Has, Shown, begin, is_shown};
use al_moves::Work;
use al_rows::MapView;
use std::alloc::Global;
use std::test::*;

/// A call: who sends it; the application, 0 where it creates one, which has number 7; the effects;
/// how it ends; and what is there then. One that a rule refuses is as if it had not been.
type Turn = (u8, u64, &'static [Step], End, Shown);

/// Nothing of the application.
const NO: Has = (0, 0);

/// Parameters and local states. An account has both in one row, and each counts for itself.
const APPS: [Turn; 29] = [
    // There is no application yet.
    (3, 7, &[], Done, Have(NO, NO)),
    (3, 7, &[Set(1)], OfId(60, 7), Have(NO, NO)),
    (3, 7, &[Remove], OfId(60, 7), Have(NO, NO)),
    (3, 7, &[OptIn(1)], OfId(60, 7), Have(NO, NO)),
    (3, 7, &[OptOut], OfAccount(62, 3), Have(NO, NO)),
    (3, 0, &[Create(1)], Done, Have((1, 0), NO)),
    // Whoever calls sets its state.
    (4, 7, &[Set(2)], Done, Have((2, 0), NO)),
    (4, 7, &[SetLocal(5, 1)], OfAccount(62, 5), Have((2, 0), NO)),
    (4, 7, &[OptIn(3)], Done, Have((2, 0), (0, 3))),
    (4, 7, &[OptIn(4)], Plain(61), Have((2, 0), (0, 3))),
    (5, 7, &[SetLocal(4, 5)], Done, Have((2, 0), (0, 5))),
    (5, 7, &[OptOut], OfAccount(62, 5), Have((2, 0), (0, 5))),
    (4, 7, &[OptOut], Done, Have((2, 0), NO)),
    (4, 7, &[OptOut], OfAccount(62, 4), Have((2, 0), NO)),
    // The effects of a call come one after another.
    (3, 7, &[OptIn(6), Set(7)], Done, Have((7, 6), NO)),
    (4, 7, &[OptIn(8), Set(9)], Done, Have((9, 6), (0, 8))),
    (5, 7, &[SetLocal(3, 5)], Done, Have((9, 5), (0, 8))),
    (4, 7, &[Set(1), OptIn(1)], Plain(61), Have((9, 5), (0, 8))),
    (5, 7, &[OptIn(1), OptOut], Done, Have((9, 5), (0, 8))),
    (5, 7, &[], Done, Have((9, 5), (0, 8))),
    // Whoever calls removes it, and local states stay.
    (5, 7, &[Remove], Done, Have((0, 5), (0, 8))),
    (5, 7, &[Set(1)], OfId(60, 7), Have((0, 5), (0, 8))),
    (5, 7, &[Remove], OfId(60, 7), Have((0, 5), (0, 8))),
    (5, 7, &[SetLocal(4, 1)], OfId(60, 7), Have((0, 5), (0, 8))),
    (4, 7, &[OptOut], Done, Have((0, 5), NO)),
    (3, 7, &[OptOut], Done, Have(NO, NO)),
    // The id of an asset is no application.
    (3, 9, &[Set(1)], OfId(60, 9), Have(NO, NO)),
    (6, 9, &[OptIn(1)], OfId(60, 9), Have(NO, NO)),
    (6, 9, &[OptOut], OfAccount(62, 6), Have(NO, NO)),
];

/// A box, which counts for the account of the application.
const BOXES: [Turn; 12] = [
    (3, 7, &[Put(90)], OfId(60, 7), Boxes(0, 0, 100_000)),
    (3, 0, &[Create(1)], Done, Boxes(0, 0, 100_000)),
    (4, 7, &[Put(90)], Done, Boxes(1, 100, 142_500)),
    (4, 7, &[Put(5)], Done, Boxes(1, 15, 108_500)),
    (4, 7, &[Put(0)], Done, Boxes(1, 10, 106_500)),
    (5, 7, &[Take], Done, Boxes(0, 0, 100_000)),
    (5, 7, &[Take], Plain(63), Boxes(0, 0, 100_000)),
    (3, 7, &[Put(1), Take, Put(90)], Done, Boxes(1, 100, 142_500)),
    (3, 7, &[Take, Take], Plain(63), Boxes(1, 100, 142_500)),
    // It stays where the application goes.
    (3, 7, &[Remove], Done, Boxes(1, 100, 142_500)),
    (3, 7, &[Put(5)], OfId(60, 7), Boxes(1, 100, 142_500)),
    (3, 7, &[Take], OfId(60, 7), Boxes(1, 100, 142_500)),
];

/// Payments and transfers of the account of the application, whatever its minimum balance.
const INNER: [Turn; 9] = [
    (3, 7, &[Pay(4, 1)], OfId(60, 7), Own(1_000, 0, 100_000)),
    (3, 0, &[Create(1), Pay(4, 250)], Done, Own(750, 0, 100_000)),
    (4, 7, &[Pay(4, 751)], Lacks(750, 751), Own(750, 0, 100_000)),
    (4, 7, &[Pay(4, 700)], Done, Own(50, 0, 100_000)),
    (4, 7, &[Send(4, 1)], OfApp(50), Own(50, 0, 100_000)),
    (4, 7, &[Hold], Done, Own(50, 1, 200_000)),
    (4, 7, &[Send(4, 0)], Done, Own(50, 1, 200_000)),
    (5, 7, &[Remove, Pay(4, 1)], OfId(60, 7), Own(50, 1, 200_000)),
    (5, 9, &[Pay(4, 1)], OfId(60, 9), Own(50, 1, 200_000)),
];

// A work after those of the turns that end well.
fn work_after(alloc: Global, turns: &[Turn]) -> Result<Work<MapView>, Fail> {
    let mut work = begin(alloc)?;
    for (who, app, steps, end, _) in turns {
        if rule_of(*end).is_none() {
            call(alloc, &mut work, *who, *app, steps)?;
        }
    }
    Ok(work)
}

// The place of the first turn that does something else than it says. A work is of no more use after
// a rule that is broken, so each turn has one of its own, and what is there then is another's.
fn first_other(alloc: Global, turns: &[Turn]) -> Result<Option<usize>, Fail> {
    for (place, (who, app, steps, end, shown)) in turns.iter().enumerate() {
        let mut work = work_after(alloc, &turns[..place])?;
        let rule = call(alloc, &mut work, *who, *app, steps)?;
        let mut then = work_after(alloc, &turns[..=place])?;
        if rule != rule_of(*end) || !is_shown(alloc, &mut then, *shown)? {
            return Ok(Some(place));
        }
    }
    Ok(None)
}

#[test]
fn applications(rt: HostRuntime) -> Result<(), Fail> {
    let alloc = rt.alloc();
    assert_eq!(rt; first_other(alloc, &APPS)?, None, "of the applications");
    assert_eq!(rt; first_other(alloc, &BOXES)?, None, "of the boxes");
    assert_eq!(rt;
        first_other(alloc, &INNER)?,
        None,
        "of the inner transactions"
    );
    Ok(())
}
