//! Stops that were worked out tick by tick, and brakes that have no table.

use crate::rows::numbers;
use braking_table::TableFault::{Far, Rate, Runaway};
use braking_table::{Brake, Table, TableFault};
use std::process::Abort;

/// Ticks, runaway, rate and speed, and the stop; or why there is no table. First those from rest, from the greatest speed and
/// between them, then brakes without a table.
const ROWS: &str = "50 0 1000 1000 1005
50 0 1000 20000 210100
50 200 1000 1000 1136
0 0 1000 100 6
0 0 1000 1 1
0 0 100 100 51
3 100 1000 25 2
50 0 1000 0 0
50 200 1000 0 31
0 0 1000 0 0
0 0 100 60000 18000300
0 0 1000 60000 1800300
50 200 1000 60000 1836331
1000 100000 100000 60000 11228300
1000 100000 100100 60000 11222688
1000 100100 100000 60000 11243915
933 92800 200 60000 2147483025
7053 193900 56800 60000 2147483647
65535 0 100000 60000 39339300
0 4294967200 4294967200 60000 600
126 1865365800 4294967200 60000 2147483647
50 0 0 1000 rate
50 0 150 1000 rate
50 0 99 1000 rate
50 150 150 1000 rate
50 150 1000 1000 runaway
65535 4294967295 100 1000 runaway
0 0 4294967295 0 rate
1000 100000 100001 0 rate
1000 100001 100000 0 runaway
1000 100000 100 0 far
880 67600 100 0 far
10502 182500 162900 0 far
65535 4294967200 100 0 far
88 3155609200 4294967200 0 far
65535 4294967200 4294967200 0 far";

/// The stop from a speed, of which no row has more than 60,000 mm/s.
fn stop_of(b: Brake, speed: u32) -> Result<u32, TableFault> {
    let table = Table::new(b)?;
    Ok(table.stop(speed.min(60_000)))
}

/// Whether the row is so.
fn holds(row: &str) -> bool {
    let row_numbers = numbers(row);
    let [ticks, runaway, rate, speed, stop @ ..] = row_numbers.as_slice() else {
        return false;
    };
    let b = Brake {
        ticks: (*ticks).min(65_535) as u16,
        runaway: *runaway,
        rate: *rate,
    };
    match stop_of(b, *speed) {
        Ok(found) => matches!(stop, [wanted] if *wanted == found),
        Err(Rate) => row.ends_with(" rate"),
        Err(Runaway) => row.ends_with(" runaway"),
        Err(Far) => row.ends_with(" far"),
        Err(TableFault::Memory) => false,
    }
}

#[test]
fn stops(rt: HostRuntime) {
    for row in ROWS.split('\n') {
        assert!(rt; holds(row), "{row}");
    }
}
