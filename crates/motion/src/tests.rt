// Worked examples, with acceleration 2, deceleration 2 and feedrate 4 unless it says otherwise.
use crate::{Rates, braking_distance};

const RATES: Rates = Rates {
    feedrate: 4,
    acceleration: 2,
    deceleration: 2,
};

#[test]
fn ten_counts_take_2_4_3_1(rt: HostRuntime) {
    assert_eq!(rt; RATES.plan(0, 10), 2);
    assert_eq!(rt; RATES.plan(2, 8), 4);
    assert_eq!(rt; RATES.plan(4, 4), 3);
    assert_eq!(rt; RATES.plan(3, 1), 1);
}

#[test]
fn one_count_takes_1(rt: HostRuntime) {
    assert_eq!(rt; RATES.plan(0, 1), 1);
    assert_eq!(rt; RATES.plan(1, 0), 0);
}

#[test]
fn braking_slows_to_rest(rt: HostRuntime) {
    assert_eq!(rt; RATES.slowed(5), 3);
    assert_eq!(rt; RATES.slowed(3), 1);
    assert_eq!(rt; RATES.slowed(1), 0);
}

// 7 + 4 + 1; 9 + 6 + 3; 5 alone; the sum of all numbers up to 65,535.
#[test]
fn braking_distances(rt: HostRuntime) {
    assert_eq!(rt; braking_distance(0, 3), 0);
    assert_eq!(rt; braking_distance(7, 3), 12);
    assert_eq!(rt; braking_distance(9, 3), 18);
    assert_eq!(rt; braking_distance(5, 9_999), 5);
    assert_eq!(rt; braking_distance(65_535, 1), 2_147_450_880);
}
