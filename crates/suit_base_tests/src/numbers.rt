use suit_num::{Frac, choose, gcd, lcm, mul, sub};

#[test]
fn products_and_differences(rt: HostRuntime) {
    let top = i128::MAX;
    for (a, b, want) in [
        (0, i128::MIN, Some(0)),
        (-3, 4, Some(-12)),
        (1 << 63, 1 << 63, Some(1 << 126)),
        (-(1 << 63), 1 << 63, Some(-(1 << 126))),
        (1 << 64, 1 << 63, None),
        (-(1 << 64), 1 << 63, None),
        (top, -1, Some(-top)),
        (i128::MIN, 1, None),
    ] {
        assert_eq!(rt; mul(a, b), want, "{a} * {b}");
    }
    for (a, b, want) in [
        (3, 5, Some(-2)),
        (top, top, Some(0)),
        (-top, 0, Some(-top)),
        (-top, 1, None),
        (top, -1, None),
        (0, i128::MIN, None),
    ] {
        assert_eq!(rt; sub(a, b), want, "{a} - {b}");
    }
}

#[test]
fn divisors(rt: HostRuntime) {
    let prime = (1 << 89) - 1;
    for (a, b, want) in [
        (0, 5, 5),
        (-5, 0, 5),
        (-12, 18, 6),
        (1, -1, 1),
        (1 << 100, 1 << 126, 1 << 100),
        (12 * prime, -18 * prime, 6 * prime),
        (prime, (1 << 107) - 1, 1),
        (i128::MAX, i128::MAX, i128::MAX),
    ] {
        assert!(rt; a != 0 || b != 0);
        assert!(rt; a > i128::MIN);
        assert!(rt; b > i128::MIN);
        assert_eq!(rt; gcd(a, b), want, "of {a} and {b}");
    }
    for (a, b, want) in [
        (4, 6, Some(12)),
        (7, 7, Some(7)),
        (1 << 64, 3 << 62, Some(3 << 64)),
        ((1 << 64) - 1, 1 << 63, Some(((1 << 64) - 1) << 63)),
        ((1 << 64) + 1, 1 << 63, None),
    ] {
        assert!(rt; a > 0);
        assert!(rt; b > 0);
        assert_eq!(rt; lcm(a, b), want, "of {a} and {b}");
    }
}

#[test]
fn fractions(rt: HostRuntime) {
    for (num, den, want_num, want_den) in [
        (5_408_312, 10_400_600, 13, 25),
        (0, 7, 0, 1),
        (-6, 4, -3, 2),
        (9, 3, 3, 1),
    ] {
        assert!(rt; den > 0);
        assert!(rt; num > i128::MIN);
        let fraction = Frac::reduced(num, den);
        assert_eq!(rt; fraction.num, want_num, "{num}/{den}");
        assert_eq!(rt; fraction.den, want_den, "{num}/{den}");
    }
}

#[test]
fn binomials(rt: HostRuntime) {
    for (n, k, want) in [
        (0, 0, 1),
        (3, 4, 0),
        (4, 2, 6),
        (23, 10, 1_144_066),
        (24, 11, 2_496_144),
        (24, 12, 2_704_156),
        (26, 12, 9_657_700),
        (26, 13, 10_400_600),
        (26, 26, 1),
        (26, 255, 0),
    ] {
        assert!(rt; n <= 26);
        assert_eq!(rt; choose(n, k), want, "{k} of {n}");
    }
}
