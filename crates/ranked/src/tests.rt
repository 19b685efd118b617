// The ranked list on examples: items by their key, with a tag that tells equals apart.
ghost use Rattle.std.specs.Prelude.{ℕ, nat_lt};
ghost use Rattle.std.proofs.Common.{rules};

use crate::list::{Full, RankedList};
use crate::ranking::Ranking;
use std::test::Fail;

#[derive(Clone, Copy, Debug, PartialEq)]
struct Item {
    key: u32,
    tag: u32,
}

#[derive(Clone, Copy)]
struct ByKey;

impl Ranking<Item> for ByKey {
    ghost Ranks = { ℕ };

    ghost rank = { λ _ x. x.key };

    ghost before = { λ _. nat_lt };

    ghost irreflexive = { Prim.search rules };

    ghost transitive = { Prim.search rules };

    ghost total = { Prim.search rules };

    fn precedes(&self, x: &Item, y: &Item) -> bool {
        x.key < y.key
    }
}

fn keyed(key: u32, tag: u32) -> Item {
    Item { key, tag }
}

#[test]
fn goes_behind_equals(rt: HostRuntime) -> Result<(), Fail> {
    let mut places = [keyed(0, 0); 5];
    let mut list = RankedList::new(ByKey, &mut places);
    list.insert(keyed(7, 1))?;
    list.insert(keyed(3, 2))?;
    list.insert(keyed(7, 3))?;
    list.insert(keyed(9, 4))?;
    list.insert(keyed(3, 5))?;
    assert_eq!(rt; list.len, 5);
    assert_eq!(rt;
        places,
        [
            keyed(3, 2),
            keyed(3, 5),
            keyed(7, 1),
            keyed(7, 3),
            keyed(9, 4),
        ]
    );
    Ok(())
}

#[test]
fn refuses_when_full(rt: HostRuntime) -> Result<(), Fail> {
    let mut places = [keyed(1, 1), keyed(2, 2)];
    let mut list = RankedList::new(ByKey, &mut places);
    list.insert(keyed(2, 2))?;
    list.insert(keyed(1, 1))?;
    assert_eq!(rt; list.insert(keyed(0, 3)), Err(Full));
    assert_eq!(rt; list.len, 2);
    assert_eq!(rt; places, [keyed(1, 1), keyed(2, 2)]);
    Ok(())
}

#[test]
fn takes_out_what_stands_there(rt: HostRuntime) {
    let mut places = [keyed(4, 1), keyed(2, 2), keyed(3, 3), keyed(2, 4)];
    let mut list = RankedList::new(ByKey, &mut places);
    list.insert_rest();
    assert_eq!(rt; list.remove(4), None);
    assert_eq!(rt; list.remove(1), Some(keyed(2, 4)));
    assert_eq!(rt; list.remove(2), Some(keyed(4, 1)));
    assert_eq!(rt; list.remove(0), Some(keyed(2, 2)));
    assert_eq!(rt; list.remove(0), Some(keyed(3, 3)));
    assert_eq!(rt; list.remove(0), None);
    assert_eq!(rt; list.len, 0);
}
