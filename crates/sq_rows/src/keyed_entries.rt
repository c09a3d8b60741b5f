// Entries by key, in a sorted list and in a map.
ghost use Rattle.std.specs.Prelude.{◌≡◌, true, IfOk, IfErr, OnOk, OnErr};
ghost use Rattle.std.specs.Option.{option_copied};
ghost use Rattle.std.specs.FinMap.Entries.{find, put, is_sorted};
ghost use Rattle.sq_rows.specs.Places.{IsPlace};

use std::alloc::{AllocError, AllocFailed, Global};
use std::cmp::Ordering;
use std::collections::BTreeMap;

/// Returns the place of the entry of `key` in `list`, or else the place where it belongs.
pub fn place<K: Copy + Ord, V>(list: &[(K, V)], key: K) -> Result<usize, usize>
    requires { is_sorted K.cmp list.now ≡ true }
    ensures { IsPlace K.cmp list.now key result }
{
    // Keys mostly arrive in rising order: neither the last key nor one past it needs a search.
    if let Some((last, _)) = list.last() {
        match last.cmp(&key) {
            Ordering::Less => return Err(list.len()),
            Ordering::Equal => return Ok(list.len() - 1),
            Ordering::Greater => {}
        }
    }
    list.binary_search_by_key(&key, |(own, _)| *own)
}

/// Returns the value of `key` in `list`.
pub fn get<K: Copy + Ord, V>(list: &[(K, V)], key: K) -> Option<&V>
    requires { is_sorted K.cmp list.now ≡ true }
    ensures { option_copied result ≡ find K.cmp key list.now }
{
    match place(list, key) {
        Ok(at) => Some(&list[at].1),
        Err(_) => None,
    }
}

/// Returns whether a write of `key` moves entries of `list`: it removes an entry that isn't the
/// last, or inserts one before another.
pub fn moves_entries<K: Copy + Ord, V>(list: &[(K, V)], key: K, removes: bool) -> bool {
    match list.last() {
        Some((last, _)) if *last > key => {
            removes || list.binary_search_by_key(&key, |(own, _)| *own).is_err()
        }
        _ => false,
    }
}

/// Returns a map with clones of the entries of `list`.
pub fn map_of<K: Copy + Ord, V: Clone>(
    alloc: Global,
    list: &[(K, V)],
) -> Result<BTreeMap<K, V>, AllocError>
    requires rising { is_sorted K.cmp list.now ≡ true }
    requires exact { (value copy : V) → V.is_clone value copy → copy ≡ value }
    ensures { IfOk result (λ map. map.entries ≡ list.now) }
{
    let mut map = BTreeMap::new(alloc);
    for (key, value) in list {
        map.insert(*key, value.clone()?)?;
    }
    Ok(map)
}

/// Sets the value of `key` in `map`, replacing any that it has. If memory runs out, `value` is
/// returned.
pub fn insert<K: Copy + Ord, V: Drop>(
    map: &mut BTreeMap<K, V>,
    key: K,
    value: V,
) -> Result<(), AllocFailed<V>>
    ensures ok { OnOk result (map.new.entries ≡ put K.cmp key value map.old.entries) }
    ensures err { OnErr result (map.new.entries ≡ map.old.entries) }
    ensures value_returned { IfErr result (λ failed. failed.value ≡ value) }
{
    match map.insert(key, value) {
        Ok(_) => Ok(()),
        Err(failed) => Err(AllocFailed {
            value: failed.value.1,
        }),
    }
}
