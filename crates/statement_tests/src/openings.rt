use crate::closing_line;
use crate::figures::PLACE;
use record_store::{Pool, Store};
use samples::FIVE_MINUTES;
use settlement::Newer;
use statement::Statement;
use std::test::Fail;

// The number that an opening is refused by.
fn opened<S: Store>(store: &S, hours: u8, region: u8) -> Option<u8> {
    Statement::open(Newer, hours, region, store)
        .err()
        .map(|fault| fault.report().number)
}

#[test]
fn an_opening_names_the_first_thing_that_is_wrong(rt: HostRuntime) {
    let mut places = [PLACE; 24];
    let mut pool = Pool::over(&mut places);
    for (hours, region, refused) in [
        (22, 2, Some(1)),
        (26, 0, Some(1)),
        (23, 2, Some(2)),
        (23, 0, None),
        (25, 1, None),
    ] {
        assert_eq!(rt; opened(&pool, hours, region), refused);
    }
    let _ = pool.write(24, 23, &FIVE_MINUTES);
    for (hours, region, refused) in [
        (22, 2, Some(1)),
        (24, 2, Some(2)),
        (24, 0, Some(3)),
        (25, 1, Some(3)),
    ] {
        assert_eq!(rt; opened(&pool, hours, region), refused);
    }
}

#[test]
fn a_locked_statement_has_the_lines_of_the_open_one(rt: HostRuntime) -> Result<(), Fail> {
    let mut places = [PLACE; 24];
    let mut pool = Pool::over(&mut places);
    match closing_line(&mut pool) {
        Ok(day) => {
            assert_eq!(rt;
                (day.settled, day.ahead.total, day.total),
                (0, 169_000, 169_000)
            );
            Ok(())
        },
        Err(_) => Err(Fail::new("refused")),
    }
}
