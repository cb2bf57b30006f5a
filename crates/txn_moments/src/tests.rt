//! Moments and intervals, also at the greatest moment.

use super::*;

#[test]
fn moments_and_intervals(rt: HostRuntime) {
    assert_eq!(rt; after(100, 64 * T1), 32_100);
    assert_eq!(rt; after(u64::MAX - 400, T1), u64::MAX);
    for (interval, next, capped) in [
        (500, 1_000, 1_000),
        (2_000, 4_000, 4_000),
        (3_000, 6_000, 4_000),
    ] {
        assert_eq!(rt; twice(interval), next, "after {interval}");
        assert_eq!(rt; twice_up_to_t2(interval), capped, "after {interval}");
    }
    assert_eq!(rt; twice(u64::MAX - 1), u64::MAX);
    assert_eq!(rt; twice_up_to_t2(u64::MAX), T2);
}
