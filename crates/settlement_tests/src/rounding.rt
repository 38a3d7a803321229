use arithmetic::{Divisor, nearest};
use std::test::Fail;

#[test]
fn a_half_goes_away_from_zero(rt: HostRuntime) -> Result<(), Fail> {
    let cases: [(i64, u64, i64); 12] = [
        (4, 10, 0),
        (5, 10, 1),
        (15, 10, 2),
        (-4, 10, 0),
        (-5, 10, -1),
        (-15, 10, -2),
        (7, 3, 2),
        (8, 3, 3),
        (-8, 3, -3),
        (i64::MAX, 2, 4_611_686_018_427_387_904),
        (i64::MIN, 1, i64::MIN),
        (i64::MIN, u64::MAX, -1),
    ];
    for (n, d, rounded) in cases {
        let Some(divisor) = Divisor::new(d) else {
            return Err(Fail::new("a divisor of zero"));
        };
        assert_eq!(rt; nearest(n, divisor), rounded);
    }
    Ok(())
}

#[test]
fn nothing_is_divided_by_zero(rt: HostRuntime) {
    assert!(rt; Divisor::new(0).is_none());
}
