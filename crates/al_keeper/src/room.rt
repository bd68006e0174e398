//! Maps whose entries may stand empty, so that a change of several maps takes all of its memory
//! before it changes any of them.
ghost use Rattle.std.specs.Prelude.{◌≡◌, Option, Some, None, All, OnOk, IsSome, cond, map};
ghost use Rattle.std.specs.BTreeMap.{is_at};
ghost use Rattle.std.specs.Map.{lookup};
ghost use Rattle.al_rows.specs.Finite.{or_below};
ghost use Rattle.al_keeper.specs.Rooms.{live_at, slot_at};

use std::alloc::AllocError;
use std::collections::BTreeMap;

/// Makes room under a key. Nothing changes under any key.
pub(crate) fn make_room<K: Ord + Copy + Drop, V: Drop>(
    map: &mut BTreeMap<K, Option<V>>,
    key: K,
) -> Result<(), AllocError>
    ensures same { (q : K) → live_at K.cmp map.new.entries q ≡ live_at K.cmp map.old.entries q }
    ensures room { OnOk result (IsSome (slot_at K.cmp map.new.entries key)) }
    ensures keeps { (q : K) → IsSome (slot_at K.cmp map.old.entries q) → IsSome (slot_at K.cmp map.new.entries q) }
{
    if map.contains_key(&key) {
        return Ok(());
    }
    match map.insert(key, None) {
        Ok(_) => Ok(()),
        Err(_) => Err(AllocError),
    }
}

/// Makes room under the keys of changes. Nothing changes under any key.
pub(crate) fn make_rooms<K: Ord + Copy + Drop, V: Drop>(
    map: &mut BTreeMap<K, Option<V>>,
    changes: &[(K, Option<V>)],
) -> Result<(), AllocError>
    ensures same { (q : K) → live_at K.cmp map.new.entries q ≡ live_at K.cmp map.old.entries q }
    ensures room { OnOk result (All (λ c. IsSome (slot_at K.cmp map.new.entries c.0)) changes.now) }
{
    for change in changes {
        make_room(map, change.0)?;
    }
    Ok(())
}

/// Puts a value under a key that has room. It takes no memory.
pub(crate) fn put<K: Ord + Copy + Drop, V: Drop>(
    map: &mut BTreeMap<K, Option<V>>,
    key: K,
    value: Option<V>,
)
    requires { IsSome (slot_at K.cmp map.old.entries key) }
    ensures value { (q : K) → live_at K.cmp map.new.entries q ≡ cond (is_at (K.cmp key) q) value (live_at K.cmp map.old.entries q) }
    ensures keeps { (q : K) → IsSome (slot_at K.cmp map.old.entries q) → IsSome (slot_at K.cmp map.new.entries q) }
{
    let _ = map.insert(key, value);
}

/// Puts changes under their keys, which have room; the first of a key stands. It takes no memory.
pub(crate) fn put_all<K: Ord + Copy + Drop, V: Drop>(
    map: &mut BTreeMap<K, Option<V>>,
    mut changes: Vec<(K, Option<V>)>,
)
    requires { All (λ c. IsSome (slot_at K.cmp map.old.entries c.0)) changes.items }
    ensures { (q : K) → live_at K.cmp map.new.entries q ≡ or_below (lookup (is_at (K.cmp q)) changes.items) (live_at K.cmp map.old.entries q) }
{
    while let Some(change) = changes.pop() {
        put(map, change.0, change.1);
    }
}

/// Removes the entry under a key where it stands empty. Nothing changes under any key.
pub(crate) fn sweep<K: Ord + Copy + Drop, V: Drop>(map: &mut BTreeMap<K, Option<V>>, key: &K)
    ensures { (q : K) → live_at K.cmp map.new.entries q ≡ live_at K.cmp map.old.entries q }
{
    if let Some(None) = map.get(key) {
        let _ = map.remove(key);
    }
}
