use settlement::{Edition, Limits, Newer, Older};

#[test]
fn the_first_scenario_that_applies_is_taken(rt: HostRuntime) {
    let limits = Limits {
        rtd: 90,
        agc: 80,
        energy: 70,
    };
    let cases: [(u8, i64); 13] = [
        (0, 70),
        (1, 100),
        (2, 100),
        (4, 100),
        (8, 100),
        (24, 70),
        (32, 90),
        (64, 80),
        (96, 90),
        (33, 100),
        (40, 100),
        (56, 90),
        (88, 80),
    ];
    for (flags, basis) in cases {
        assert_eq!(rt; Newer.basis(flags, 100, &limits), basis);
        assert_eq!(rt; Older.basis(flags, 100, &limits), basis);
    }
}

#[test]
fn only_the_older_edition_raises_a_basis_to_zero(rt: HostRuntime) {
    let limits = Limits {
        rtd: -40,
        agc: -30,
        energy: -20,
    };
    for (flags, basis) in [(32u8, -40i64), (64, -30), (0, -20)] {
        assert_eq!(rt; Newer.basis(flags, 7, &limits), basis);
        assert_eq!(rt; Older.basis(flags, 7, &limits), 0);
    }
}
