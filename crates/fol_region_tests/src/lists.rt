//! Lists that grow, move and shrink, each call once.

use fol_lists::Lists;
use std::process::Abort;

/// A list is what was wanted.
fn same(rt: &impl Abort, found: &[u64], wanted: &[u64]) {
    assert_eq!(rt; *found, *wanted);
}

#[test]
fn lists_grow_and_shrink(rt: HostRuntime) {
    let mut lists: Lists<u64> = Lists::new(rt.alloc(), 2, 4).expect(&rt, "memory");
    lists.extend(0, &[1, 2]);
    lists.extend(1, &[3]);
    lists.put(0, &[4]);
    lists.extend(1, &[5, 6]);
    same(&rt, lists.get(0), &[4]);
    same(&rt, lists.get(1), &[3, 5, 6]);
    lists.truncate(1, 1);
    lists.extend(1, &[7]);
    same(&rt, lists.get(1), &[3, 7]);
    lists.clear(0);
    lists.reserve_numbers(3).expect(&rt, "memory");
    lists.reserve_room(5).expect(&rt, "memory");
    assert!(rt; lists.numbers() == 3 && lists.room() >= 5);
    lists.put(2, &[8]);
    let copy = lists.copy(rt.alloc()).expect(&rt, "memory");
    same(&rt, copy.get(1), &[3, 7]);
    same(&rt, copy.get(2), &[8]);
    drop(copy);
    drop(lists);
}
