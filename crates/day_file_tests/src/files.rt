use book::Change;
use day_file::{Day, FileFault, Header, ReadError, read, write};
use std::alloc::Global;
use std::test::Fail;

// A day of 24 hours under the newer edition in the East, with a schedule row for hour 7 and a record for its slot 3.
const SMALL: [u8; 110] = [
    24, 1, 0, 0, 0, 2, // header, two entries
    1, 7, 0, 0, // a schedule
    2, 7, 3, 0, // a posting
    0, 1, 134, 160, // generation 100,000
    0, 0, 195, 80, // transactions 50,000
    0, 0, 3, 232, // spin 1,000
    0, 0, 9, 196, // energy 2,500
    255, 255, 255, 244, // loss -12
    0, 0, 0, 0, // congestion 0
    0, 0, 0, 0, 0, 0, 0, 0, 0, 0, 0, 0, //
    0, 0, 0, 0, 0, 0, 0, 0, 0, 0, 0, 0, // zeros
    1, 44, 5, 0, // 300 seconds, flags 5
    0, 1, 95, 144, // average 90,000
    0, 1, 115, 24, // rtd 95,000
    255, 255, 255, 255, // agc -1
    0, 30, 132, 128, // energy limit 2,000,000
    0, 0, 234, 96, // transactions 60,000
    0, 0, 0, 200, // spin 200
    0, 0, 11, 184, // energy 3,000
    255, 255, 255, 0, // loss -256
    0, 0, 0, 1, // congestion 1
    0, 0, 1, 144, // east 400
    128, 0, 0, 0, // west -2,147,483,648
];

fn small_day(heap: Global) -> Result<Day, Fail> {
    match read(heap, &SMALL) {
        Ok(day) => Ok(day),
        Err(_) => Err(Fail::new("the small file is refused")),
    }
}

// The number and the place that a refusal tells.
fn told(fault: Option<FileFault>) -> Option<(u8, usize)> {
    fault.map(|fault| (fault.report().number, fault.place()))
}

fn read_fault(heap: Global, bytes: &[u8]) -> Option<FileFault> {
    match read(heap, bytes) {
        Err(ReadError::Refused(fault)) => Some(fault),
        _ => None,
    }
}

#[test]
fn a_schedule_is_read_figure_by_figure(rt: HostRuntime) -> Result<(), Fail> {
    let day = small_day(rt.alloc())?;
    assert_eq!(rt;
        [day.header.hours, day.header.edition, day.header.region],
        [24, 1, 0]
    );
    assert!(rt; day.calls.len() == 2);
    match day.calls[0] {
        Change::Scheduled { hour, row } => {
            assert_eq!(rt; hour, 7);
            assert_eq!(rt;
                [row.generation, row.transactions, row.spin],
                [100_000, 50_000, 1_000]
            );
            assert_eq!(rt;
                [row.prices.energy, row.prices.loss, row.prices.congestion],
                [2_500, -12, 0]
            );
            Ok(())
        }
        _ => Err(Fail::new("not a schedule")),
    }
}

#[test]
fn a_record_is_read_figure_by_figure(rt: HostRuntime) -> Result<(), Fail> {
    let day = small_day(rt.alloc())?;
    assert!(rt; day.calls.len() == 2);
    match day.calls[1] {
        Change::Posted {
            hour,
            slot,
            interval: v,
        } => {
            assert_eq!(rt; [hour, slot, v.flags], [7, 3, 5]);
            assert_eq!(rt; v.seconds, 300);
            assert_eq!(rt; [v.average, v.transactions, v.spin], [90_000, 60_000, 200]);
            assert_eq!(rt;
                [v.limits.rtd, v.limits.agc, v.limits.energy],
                [95_000, -1, 2_000_000]
            );
            assert_eq!(rt;
                [v.prices.energy, v.prices.loss, v.prices.congestion],
                [3_000, -256, 1]
            );
            assert_eq!(rt; [v.reserve.east, v.reserve.west], [400, -2_147_483_648]);
            Ok(())
        }
        _ => Err(Fail::new("not a posting")),
    }
}

#[test]
fn what_is_read_is_written_back(rt: HostRuntime) -> Result<(), Fail> {
    let day = small_day(rt.alloc())?;
    let mut out = [9; 110];
    match write(&day.header, day.calls.as_slice(), &mut out) {
        Ok(length) => assert_eq!(rt; length, 110),
        Err(_) => return Err(Fail::new("the day is refused")),
    }
    assert!(rt; out == SMALL);
    Ok(())
}

// The small file with one byte changed: the byte, its value, and what is told.
#[test]
fn a_fault_is_told_with_its_place(rt: HostRuntime) {
    let cases: [(usize, u8, u8, usize); 14] = [
        (0, 22, 17, 0),
        (0, 26, 17, 0),
        (1, 2, 17, 1),
        (2, 2, 17, 2),
        (3, 1, 17, 3),
        (4, 4, 17, 4),
        (5, 1, 16, 110),
        (6, 0, 18, 6),
        (10, 6, 18, 10),
        (8, 1, 19, 8),
        (13, 1, 19, 13),
        (38, 1, 19, 38),
        (61, 1, 19, 61),
        (65, 1, 19, 65),
    ];
    for (at, value, number, place) in cases {
        let mut bytes = SMALL;
        if at < bytes.len() {
            bytes[at] = value;
        }
        assert_eq!(rt; told(read_fault(rt.alloc(), &bytes)), Some((number, place)));
    }
}

#[test]
fn the_first_fault_is_told(rt: HostRuntime) {
    let mut bytes = SMALL;
    // The second key, and before it the first body.
    bytes[10] = 0;
    bytes[38] = 1;
    assert_eq!(rt; told(read_fault(rt.alloc(), &bytes)), Some((19, 38)));
    // The first key comes before its body.
    bytes[9] = 1;
    assert_eq!(rt; told(read_fault(rt.alloc(), &bytes)), Some((19, 9)));
    // The header comes before all entries.
    bytes[3] = 1;
    assert_eq!(rt; told(read_fault(rt.alloc(), &bytes)), Some((17, 3)));
}

#[test]
fn a_file_has_at_most_a_thousand_entries(rt: HostRuntime) {
    assert_eq!(rt;
        told(read_fault(rt.alloc(), &[24, 0, 1, 0, 0])),
        Some((16, 5))
    );
    assert_eq!(rt;
        told(read_fault(rt.alloc(), &[24, 0, 1, 0, 3, 232])),
        Some((16, 6))
    );
    assert_eq!(rt;
        told(read_fault(rt.alloc(), &[24, 0, 1, 0, 3, 233])),
        Some((17, 4))
    );
}

fn write_fault(header: Header, out: &mut [u8]) -> Option<FileFault> {
    write(&header, &[Change::Unread { hour: 4 }], out).err()
}

#[test]
fn a_refused_day_leaves_memory_alone(rt: HostRuntime) {
    let cases: [(u8, u8, u8, u8, usize); 4] = [
        (22, 2, 2, 17, 0),
        (23, 2, 2, 17, 1),
        (24, 1, 2, 17, 2),
        (25, 1, 1, 20, 58),
    ];
    for (hours, edition, region, number, place) in cases {
        let header = Header {
            hours,
            edition,
            region,
        };
        let mut out = [9; 57];
        assert_eq!(rt; told(write_fault(header, &mut out)), Some((number, place)));
        assert!(rt; out == [9; 57]);
    }
}
