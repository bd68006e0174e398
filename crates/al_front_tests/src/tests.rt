ghost use Rattle.std.specs.Prelude.{◌≡◌};

use al_front::{Front, Main, Name, Pass, StoreSeat, UnnamedFront};
use std::alloc::Global;
use std::marker::Brand;
use std::process::Abort;
use std::sync::{Mutex, Wait};
use std::test::*;
use std::thread;
use std::thread::Threads;

#[test]
fn three_appends(rt: HostRuntime) -> Result<(), Fail> {
    appended::<Brand, _>(&rt, UnnamedFront::new(rt.alloc(), 0)?)
}

fn appended<N: Name, R: Abort>(rt: &R, made: UnnamedFront) -> Result<(), Fail>
    requires { (made.table ≡ N.table) × (made.base ≡ N.base) × (N.base ≡ 0) }
{
    let (front, mut main, _) = made.named::<N>();
    main.append(&front, b"one");
    main.append(&front, b"two");
    main.append(&front, b"three");
    let pass = Pass::of(main.note(&front));
    assert_eq!(rt; pass.seen_len(), 3);
    assert_eq!(rt; pass.floor(), 0);
    pass.close(&front);
    Ok(())
}

#[test]
fn seven_and_a_raise(rt: HostRuntime) -> Result<(), Fail> {
    raised::<Brand, _>(&rt, UnnamedFront::new(rt.alloc(), 0)?)
}

fn raised<N: Name, R: Abort>(rt: &R, made: UnnamedFront) -> Result<(), Fail>
    requires { (made.table ≡ N.table) × (made.base ≡ N.base) × (N.base ≡ 0) }
{
    let (front, mut main, mut store) = made.named::<N>();
    let mut pass = Pass::of(main.note(&front));
    let older = main.note(&front);
    main.append(&front, b"1");
    main.append(&front, b"2");
    main.append(&front, b"3");
    main.append(&front, b"4");
    main.append(&front, b"5");
    main.append(&front, b"6");
    main.append(&front, b"7");
    store.meet(&front, main.note(&front));
    store.raise(&front, 3);
    pass.meet(&front, store.note(&front));
    assert_eq!(rt; (pass.seen_len(), pass.floor()), (7, 3));
    pass.meet(&front, older);
    assert_eq!(rt; (pass.seen_len(), pass.floor()), (7, 3));
    main.meet(&front, pass.note(&front));
    assert_eq!(rt; (main.seen_len(), main.floor()), (7, 3));
    assert_eq!(rt; (store.seen_len(), store.floor()), (7, 3));
    assert_eq!(rt; front.end(main), (7, 3));
    Ok(())
}

/// Turns of each of four threads. A turn appends an entry, raises the floor and meets both seats.
const TURNS: u64 = 25_000;

/// A front whose seats stand behind two locks, as in a ledger.
#[derive(Drop)]
struct Shared<N: Name> {
    front: Front<N>,
    main: Mutex<Main<N>>,
    store: Mutex<StoreSeat<N>>,
}

impl<N: Name> Shared<N> {
    fn append<R: Wait>(&self, rt: &R, pass: &mut Pass<N>) {
        let mut main = self.main.lock(rt);
        main.meet(&self.front, pass.note(&self.front));
        if main.seen_len() < 1 << 62 {
            main.append(&self.front, b"block");
        }
        pass.meet(&self.front, main.note(&self.front));
    }

    fn raise<R: Wait>(&self, rt: &R, pass: &mut Pass<N>) {
        let mut store = self.store.lock(rt);
        store.meet(&self.front, pass.note(&self.front));
        if let Some(floor) = store.seen_len().checked_sub(4) {
            store.raise(&self.front, floor);
        }
        pass.meet(&self.front, store.note(&self.front));
    }

    /// Whether its own entry and floor were seen in each turn, and nothing ever went back.
    fn turns<R: Wait>(&self, rt: &R) -> bool {
        let mut pass = Pass::of(self.main.lock(rt).note(&self.front));
        let mut grows = true;
        for _ in 0..TURNS {
            let (len, floor) = (pass.seen_len(), pass.floor());
            self.append(rt, &mut pass);
            grows &= len < pass.seen_len() && floor <= pass.floor();
            let (len, floor) = (pass.seen_len(), pass.floor());
            self.raise(rt, &mut pass);
            grows &= len <= pass.seen_len() && floor <= pass.floor();
            grows &= len.saturating_sub(4) <= pass.floor();
        }
        grows
    }
}

#[test]
fn threads_at_once(rt: HostRuntime) -> Result<(), Fail> {
    at_once::<Brand, _>(&rt, rt.alloc(), UnnamedFront::new(rt.alloc(), 0)?)
}

fn at_once<N: Name + Send + Sync, R: Abort + Wait + Threads + Sync>(
    rt: &R,
    alloc: Global,
    made: UnnamedFront,
) -> Result<(), Fail>
    requires { (made.table ≡ N.table) × (made.base ≡ N.base) }
{
    let (front, main, store) = made.named::<N>();
    let shared = Shared {
        front,
        main: Mutex::new(main),
        store: Mutex::new(store),
    };
    let grows = thread::map_indices(rt, alloc, 4, &|_| shared.turns(rt))?;
    for (thread, grew) in grows.iter().enumerate() {
        assert!(rt; *grew, "thread {thread}");
    }
    let Shared { front, main, .. } = shared;
    assert_eq!(rt; front.end(main.into_inner()), (4 * TURNS, 4 * TURNS - 4));
    Ok(())
}
