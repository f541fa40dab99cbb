// Examples of each group: at its elements, at numbers that are no elements,
// and at parameters that make it unusable.
use crate::integers::Integers;
use crate::interface::{Group, UNUSABLE};
use crate::product::Product;
use crate::vectors::Vectors;

#[test]
fn integers_add_modulo(rt: HostRuntime) {
    let seven = Integers::new(7);
    assert_eq!(rt; seven.order(), 7);
    assert_eq!(rt; seven.sum(3, 5), 1);
    assert_eq!(rt; seven.opposite(3), 4);
    assert_eq!(rt; seven.sum(3, 7), 0);
    assert_eq!(rt; seven.opposite(u32::MAX), 0);
    assert_eq!(rt; Integers::new(64).order(), 64);
}

#[test]
fn vectors_add_bit_by_bit(rt: HostRuntime) {
    let pairs = Vectors::new(2);
    assert_eq!(rt; pairs.order(), 4);
    assert_eq!(rt; pairs.sum(1, 3), 2);
    assert_eq!(rt; pairs.opposite(3), 3);
    assert_eq!(rt; pairs.sum(4, 1), 0);
    assert_eq!(rt; Vectors::new(6).order(), 64);
}

#[test]
fn products_add_part_by_part(rt: HostRuntime) {
    let six = Product::new(Integers::new(2), Integers::new(3));
    assert_eq!(rt; six.order(), 6);
    assert_eq!(rt; six.sum(4, 5), 0);
    assert_eq!(rt; six.opposite(4), 5);
    assert_eq!(rt; six.sum(6, 1), 0);
    assert_eq!(rt; Product::new(Integers::new(2), Integers::new(4)).order(), 8);
    assert_eq!(rt;
        Product::new(Integers::new(8), Integers::new(8)).order(),
        64
    );
    let nested = Product::new(six, Vectors::new(1));
    assert_eq!(rt; nested.order(), 12);
    assert_eq!(rt; nested.sum(9, 10), 1);
}

#[test]
fn unusable_groups_answer_0(rt: HostRuntime) {
    for modulus in [0, 1, 65, u32::MAX] {
        let group = Integers::new(modulus);
        assert_eq!(rt; group.order(), UNUSABLE);
        assert_eq!(rt; group.sum(1, 1), 0);
        assert_eq!(rt; group.opposite(1), 0);
    }
    for bits in [0, 7, u32::MAX] {
        let group = Vectors::new(bits);
        assert_eq!(rt; group.order(), UNUSABLE);
        assert_eq!(rt; group.sum(1, 0), 0);
        assert_eq!(rt; group.opposite(1), 0);
    }
    assert_eq!(rt;
        Product::new(Integers::new(8), Integers::new(9)).order(),
        UNUSABLE
    );
    let group = Product::new(Integers::new(1), Integers::new(2));
    assert_eq!(rt; group.order(), UNUSABLE);
    assert_eq!(rt; group.sum(1, 0), 0);
    assert_eq!(rt; group.opposite(1), 0);
}
