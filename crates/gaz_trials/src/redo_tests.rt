//! Commits and recoveries over a station in memory, stopped at each of their calls.
use crate::redo::{
    Committed, Held, STOPS, Stop, Version, after_failed_commit, after_failed_recovery,
    after_second_commit, after_stops, calls_to_commit_each, calls_to_recover, ends_in,
    recovered_nothing, recovered_slots, stop_of, whole_commit,
};
use gaz_redo::Recovered;
use std::test::Fail;

/// The log has 16 bytes and two slots of 4,112. Three calls write and sync it and write the gate, a fourth syncs the gate.
#[test]
fn commit_lays_its_images_and_closes_the_gate(rt: HostRuntime) -> Result<(), Fail> {
    let alloc = rt.alloc();
    let done = Committed {
        is_done: true,
        held: Held::Both,
        log: 8240,
        gate: Some(0),
    };
    assert_eq!(rt; whole_commit(alloc)?, done);

    let (one, two) = (stop_of(0, 1), stop_of(0, 2));
    let cases: [(u64, &[Stop], Recovered, Held); 4] = [
        (u64::MAX, &[one], Recovered::Clean, Held::Both),
        (3, &[one], Recovered::Redone(2), Held::Both),
        (3, &[one, one], Recovered::Clean, Held::Both),
        (3, &[two], Recovered::Clean, Held::Nothing),
    ];
    for (calls, stops, answer, held) in &cases {
        assert_eq!(rt;
            after_stops(alloc, *calls, stops)?,
            (Some(Ok(*answer)), *held),
            "{calls} calls"
        );
    }
    Ok(())
}

/// Of two pages one call writes the whole log, one each of the pages, which stand in two areas, and two the gate; each of the
/// four areas is synced after its writes, and so Mark twice: 10. Of 42 pages, slots of 4,112 bytes and a header go out by
/// 64 KiB in three writes, 40 neighbours in three, and two more in one: 14.
#[test]
fn slots_and_neighbours_go_out_together(rt: HostRuntime) -> Result<(), Fail> {
    assert_eq!(rt; calls_to_commit_each(rt.alloc())?, (Some(10), Some(14)));
    Ok(())
}

/// A commit is stopped at each of its calls, and the recovery after that at each of its own. The recovery that follows ends
/// with what there is where the first one isn't stopped.
#[test]
fn stops_in_a_commit_and_a_recovery_leave_all_images_or_none(rt: HostRuntime) -> Result<(), Fail> {
    let alloc = rt.alloc();
    for calls in 0..=10 {
        assert_eq!(rt; ends_in(alloc, calls)?, calls == 10);
        for &(keep, fill) in &STOPS {
            let whole = stop_of(keep, fill);
            let (answer, wanted) = after_stops(alloc, calls, &[whole])?;
            assert!(rt; answer.is_some_and(|it| it.is_ok()));
            assert!(rt; wanted == Held::Both || (wanted == Held::Nothing && calls < 10));
            let most = calls_to_recover(alloc, calls, whole)?.expect(&rt, "a recovery ends");
            for more in 0..=most {
                let first = Stop {
                    keep,
                    fill,
                    calls: more,
                };
                let (answer, held) = after_stops(alloc, calls, &[first, whole])?;
                assert!(rt; answer.is_some_and(|it| it.is_ok()));
                assert_eq!(rt; held, wanted, "{calls} calls, {keep}, {fill}, {more} more");
            }
        }
    }
    Ok(())
}

/// A commit is stopped behind its open gate, the recovery at each of its calls, and the recovery after that at each of its
/// own, each of these with another kind of stop.
#[test]
fn stops_in_two_recoveries_leave_all_images(rt: HostRuntime) -> Result<(), Fail> {
    let alloc = rt.alloc();
    assert_eq!(rt; calls_to_recover(alloc, 5, stop_of(0, 0))?, Some(16));
    for calls in 0..=16 {
        for more in 0..=16 {
            let (keep, fill) = STOPS[more % 9];
            let first = Stop { keep, fill, calls };
            let second = Stop {
                keep,
                fill,
                calls: more as u64,
            };
            let (answer, held) = after_stops(alloc, 5, &[first, second, stop_of(keep, fill)])?;
            assert!(rt; answer.is_some_and(|it| it.is_ok()));
            assert_eq!(rt; held, Held::Both, "{calls} calls, {more} more");
        }
    }
    Ok(())
}

#[test]
fn each_call_that_fails_ends_the_commit(rt: HostRuntime) -> Result<(), Fail> {
    for call in 1..=11 {
        let (is_done, answer, held) = after_failed_commit(rt.alloc(), call)?;
        assert_eq!(rt; is_done, call > 10, "call {call}");
        assert!(rt; answer.is_ok());
        assert!(rt;
            held == Held::Both || (held == Held::Nothing && call <= 10),
            "call {call}"
        );
    }
    Ok(())
}

/// With two slots in the log one call reads the gate, five look at its header and the ends of the areas, two at the heads of the
/// slots, one reads both slots, two write the pages, three sync their areas, and two close the gate: 16.
#[test]
fn each_call_that_fails_ends_the_recovery(rt: HostRuntime) -> Result<(), Fail> {
    for call in 1..=17 {
        assert_eq!(rt;
            after_failed_recovery(rt.alloc(), call)?,
            Some((call > 16, true, Ok(Recovered::Clean))),
            "call {call}"
        );
    }
    Ok(())
}

#[test]
fn open_gate_is_redone_over_a_log_in_form_alone(rt: HostRuntime) -> Result<(), Fail> {
    let alloc = rt.alloc();
    let cases: [(u8, &[(u8, u8)], Recovered); 9] = [
        (0, &[], Recovered::Redone(0)),
        (2, &[(2, 0), (3, 0)], Recovered::Redone(2)),
        (3, &[(3, 0), (3, 1), (4, 0)], Recovered::Redone(3)),
        (2, &[(2, 0)], Recovered::NotALog),
        (1, &[(3, 3)], Recovered::NotALog),
        (2, &[(3, 0), (2, 0)], Recovered::NotALog),
        (2, &[(3, 0), (3, 0)], Recovered::NotALog),
        (1, &[(1, 0)], Recovered::NotALog),
        (1, &[(2, 1)], Recovered::NotALog),
    ];
    for (count, homes, answer) in &cases {
        assert_eq!(rt;
            recovered_slots(alloc, *count, homes)?,
            Ok(*answer),
            "{count} of {homes:?}"
        );
    }
    assert_eq!(rt; recovered_nothing(alloc)?, Ok(Recovered::NotALog));
    Ok(())
}

/// The second commit writes pages 3 and 4 in one call, and page 30 in another.
#[test]
fn stop_in_a_second_commit_leaves_all_images_or_none(rt: HostRuntime) -> Result<(), Fail> {
    for calls in 0..=9 {
        for &(keep, fill) in &STOPS {
            let (is_done, is_recovered, version) = after_second_commit(
                rt.alloc(),
                calls,
                stop_of(keep, fill),
            )?.expect(&rt, "a first commit");
            assert_eq!(rt; is_done, calls == 9);
            assert!(rt; is_recovered);
            assert!(rt; version == Version::New || (version == Version::Old && calls < 9));
        }
    }
    Ok(())
}
