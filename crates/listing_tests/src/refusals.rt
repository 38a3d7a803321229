use book::Fault;
use day_file::FileFault;
use listing::{file_line, refused_line};
use record_store::StoreFault;

#[test]
fn a_file_is_refused_with_its_place(rt: HostRuntime) {
    assert!(rt; file_line(FileFault::Kind(0)).as_bytes() == b"FILE,18,0\n".as_slice());
    assert!(rt; file_line(FileFault::NotZero(10)).as_bytes() == b"FILE,19,10\n".as_slice());
    assert!(rt;
        file_line(FileFault::Length(usize::MAX)).as_bytes()
            == b"FILE,16,18446744073709551615\n".as_slice()
    );
}

#[test]
fn an_entry_is_refused_by_a_layer(rt: HostRuntime) {
    let late = FileFault::InStatement(Fault::NoHour { hour: 24, slot: 7 });
    assert!(rt; refused_line(3, late).as_bytes() == b"REFUSED,3,B,5,24,7\n".as_slice());
    let full = FileFault::InStatement(Fault::InStore(StoreFault::Full { hour: 9, slot: 23 }));
    assert!(rt; refused_line(65_535, full).as_bytes() == b"REFUSED,65535,S,12,9,23\n".as_slice());
    assert!(rt;
        refused_line(0, FileFault::Kind(48)).as_bytes() == b"REFUSED,0,F,18,0,0\n".as_slice()
    );
}
