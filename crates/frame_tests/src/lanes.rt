//! Rows of words, ANDed.
use lane_sim::and_lanes;
use std::test::*;

const A: [u64; 9] = [12, 10, 6, 5, 3, 15, 0, 9, 7];

const B: [u64; 9] = [10, 12, 5, 6, 9, 0, 15, 3, 1];

fn plain(word: u64, negated: bool) -> u64 {
    if negated { !word } else { word }
}

/// Returns true if the AND of the first words is that of each word.
fn ands(len: usize, neg_a: bool, neg_b: bool) -> bool {
    if len > 9 {
        return false;
    }
    let mut out = [1u64; 9];
    and_lanes(&mut out[..len], &A[..len], &B[..len], neg_a, neg_b);
    for k in 0..len {
        if out[k] != plain(A[k], neg_a) & plain(B[k], neg_b) {
            return false;
        }
    }
    true
}

fn ands_each() -> bool {
    for len in [0, 1, 3, 4, 5, 8, 9] {
        let plain = ands(len, false, false);
        let one_negated = ands(len, false, true) & ands(len, true, false);
        if !(plain & one_negated & ands(len, true, true)) {
            return false;
        }
    }
    true
}

#[test]
fn ands_rows_of_any_length(rt: HostRuntime) {
    assert!(rt; ands_each());
}
