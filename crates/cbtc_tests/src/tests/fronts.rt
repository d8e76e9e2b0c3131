//! Growth, reports and the rear, with values that were worked out by hand.

use envelope::Fronts;

/// Whether the fronts from 1000 to 5000 after some ms, with some room up to the limit, reach this.
fn grows(ms: u64, v: u32, room: u16, hi: u32) -> bool {
    let mut fronts = Fronts {
        lo: 1000,
        hi: 5000,
        at: 0,
    };
    fronts.grow(ms, v, 5000 + u32::from(room));
    fronts.lo == 1000 && fronts.hi == hi && fronts.at == ms
}

/// Whether a report leaves fronts of those from 100000 to 400000, with this rear of a train of 60 m.
fn is_reported(est: i64, err: u32, kept: bool, lo: u32, hi: u32, rear: u32) -> bool {
    let mut fronts = Fronts {
        lo: 100_000,
        hi: 400_000,
        at: 70_000,
    };
    let found = fronts.by_report(est, err, 69_500, true, 20_000, 500_000);
    found == kept && fronts.lo == lo && fronts.hi == hi && fronts.rear(60_000) == rear
}

#[test]
fn fronts_grow_and_are_reported(rt: HostRuntime) {
    assert!(rt; grows(10, 333, 9000, 5003) && grows(1, 333, 9000, 5000) && grows(10, 333, 2, 5002));
    assert!(rt;
        is_reported(150_000, 2000, true, 148_000, 162_000, 88_000)
            && is_reported(401_001, 1000, false, 100_000, 400_000, 40_000)
    );
}
