//! Devices in memory, and what stops leave of them.
use gaz_outside::{Area, Failed, MemStation, Station};
use std::alloc::Global;
use std::test::Fail;

/// A device whose root was synced as `abc` and then written three times: `DE` at 1, `F` at 5, `G` at 0; and whether each call
/// went well.
fn written_three_times(alloc: Global) -> (MemStation, bool) {
    let mut station = MemStation::new(alloc, Vec::new(alloc));
    let is_well = station.write_at(Area::Root, 0, b"abc").is_ok()
        && station.sync(Area::Root).is_ok()
        && station.write_at(Area::Root, 1, b"DE").is_ok()
        && station.write_at(Area::Root, 5, b"F").is_ok()
        && station.write_at(Area::Root, 0, b"G").is_ok()
        && station.print(b"ok\n").is_ok();
    (station, is_well)
}

#[test]
fn stops_keep_a_front_of_the_writes(rt: HostRuntime) -> Result<(), Fail> {
    let alloc = rt.alloc();
    let (station, is_well) = written_three_times(alloc);
    assert!(rt; is_well);
    assert_eq!(rt; station.area(Area::Root), b"GDE\0\0F".as_slice());
    let cases: [(u64, u8, &[u8]); 6] = [
        (0, 0, b"a\0\0"),
        (0, 1, b"a\x01\x01"),
        (1, 255, b"aDE\0\0\xff"),
        (2, 0, b"\0DE\0\0F"),
        (2, 1, b"\x01DE\0\0F"),
        (3, 255, b"GDE\0\0F"),
    ];
    for (keep, fill, bytes) in &cases {
        let after = station.after_stop(*keep, *fill)?;
        assert_eq!(rt;
            after.area(Area::Root),
            *bytes,
            "{keep} kept, {fill} filled"
        );
        assert_eq!(rt; after.area(Area::Log), b"".as_slice());
        assert_eq!(rt; after.printed(), b"ok\n".as_slice());
    }
    Ok(())
}

#[test]
fn calls_fail_from_the_stop_on(rt: HostRuntime) -> Result<(), Fail> {
    let alloc = rt.alloc();
    let mut station = MemStation::new(alloc, Vec::new(alloc));
    assert_eq!(rt; station.write_at(Area::Left, 2, b"x"), Ok(()));
    station.stop_after(1);
    assert_eq!(rt; station.len(Area::Left), Ok(3));
    assert_eq!(rt; station.write_at(Area::Left, 0, b"y"), Err(Failed));
    assert_eq!(rt; station.print(b"z"), Err(Failed));
    assert_eq!(rt; station.area(Area::Left), b"\0\0x".as_slice());
    assert_eq!(rt; station.printed(), b"".as_slice());
    assert_eq!(rt; station.starved(), 0);
    Ok(())
}

/// What a read of three bytes from a place of a device whose mark is `\0\0ab` answers, and its buffer.
fn read_of_mark(alloc: Global, at: u64) -> (Result<usize, Failed>, [u8; 3]) {
    let mut station = MemStation::new(alloc, Vec::new(alloc));
    let mut buf = [9; 3];
    if station.write_at(Area::Mark, 2, b"ab").is_err() {
        return (Err(Failed), buf);
    }
    (station.read_at(Area::Mark, at, &mut buf), buf)
}

#[test]
fn reads_are_short_only_at_the_end(rt: HostRuntime) -> Result<(), Fail> {
    let cases: [(u64, &[u8]); 4] = [(0, b"\0\0a"), (1, b"\0ab"), (2, b"ab"), (4, b"")];
    for (at, bytes) in &cases {
        let (answer, buf) = read_of_mark(rt.alloc(), *at);
        assert_eq!(rt; answer, Ok(bytes.len()), "from {at}");
        assert_eq!(rt; &buf[..bytes.len()], *bytes, "from {at}");
    }
    Ok(())
}
