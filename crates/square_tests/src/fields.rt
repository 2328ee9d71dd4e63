//! Products, inverses and powers in the byte field, and powers in the word field. Expected values: by
//! tools/values.py.

use gf_cantor::{exp, inv, log, mul, mul_row, word_exp, word_log};

#[test]
fn products_and_inverses(rt: HostRuntime) {
    for (a, b, c) in [(2, 2, 3), (2, 3, 1), (4, 4, 6), (2, 4, 10), (0, 9, 0)] {
        assert!(rt; mul(a, b) == c, "{a} times {b}");
    }
    assert!(rt; inv(2) == 3);
}

#[test]
fn rows(rt: HostRuntime) {
    let mut acc = [1; 512];
    acc[511] = 9;
    let mut row = [4; 512];
    row[511] = 255;
    mul_row(&mut acc, &row, 2);
    assert!(rt; acc[0] == 11);
    assert!(rt; acc[510] == 11);
    assert!(rt; acc[511] == 104);
}

#[test]
fn powers_and_logarithms(rt: HostRuntime) {
    for (i, a) in [(0, 1), (1, 104), (254, 66)] {
        assert!(rt; exp(i) == a, "the power {i}");
        assert!(rt; log(a) == i, "the logarithm of {a}");
    }
    assert!(rt; exp(509) == 66);
}

#[test]
fn powers_and_logarithms_of_words(rt: HostRuntime) {
    for (i, a) in [(0, 1), (1, 18064), (256, 18134), (65534, 9798)] {
        assert!(rt; word_exp(i) == a, "the power {i}");
    }
    for (a, i) in [(1, 0), (2, 21845), (1023, 60169)] {
        assert!(rt; word_log(a) == i, "the logarithm of {a}");
    }
}
