//! The keys of a few edges: the index comes back, and a greater weight gives a greater key.

use crate::{index_of, key_of};

#[test]
fn an_index_comes_back_from_its_key(rt: HostRuntime) {
    for (weight, index) in [(1, 0), (1, 8_388_607), (7, 12), (4_294_967_295, 3)] {
        assert_eq!(rt; index_of(key_of(weight, index)), index);
    }
}

#[test]
fn a_greater_weight_has_the_greater_key(rt: HostRuntime) {
    assert!(rt; key_of(1, 8_388_607) < key_of(2, 0));
    assert!(rt; key_of(2, 3) < key_of(2, 4));
}
