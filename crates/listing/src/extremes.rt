// No settled day comes near the largest figures, so they are shown here.
use crate::rows::day_row;
use book::DayLine;
use settlement::Amounts;

#[test]
fn figures_of_every_size_are_written(rt: HostRuntime) {
    let ahead = Amounts {
        energy: 0,
        loss: 0,
        congestion: 0,
        total: i64::MIN,
    };
    let balancing = Amounts {
        energy: i64::MAX,
        loss: -1,
        congestion: 7,
        total: 0,
    };
    let day = DayLine {
        settled: 0,
        intervals: 0,
        seconds: 0,
        ahead,
        balance: 0,
        balancing,
        spin: 10,
        total: 0,
    };
    let row = b"DAY,0,-9223372036854775808,9223372036854775807,-1,7,10,0\n";
    assert!(rt; day_row(&day).as_bytes() == row.as_slice());
}
