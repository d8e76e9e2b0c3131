//! The stops of a train by its brake.
ghost use Rattle.std.specs.Prelude.{ℕ, ◌≡◌, ◌<◌, ◌≤◌, ◌+◌, ◌*◌, ◌/◌, ◌^◌, None};
ghost use Rattle.braking_table.specs.Brake.{hundredths_of, stop_of};
ghost use Rattle.braking_table.specs.Made.{fault_of, Makes};

use std::marker::Model;
use thiserror::Error;

/// How a train stops: at first its speed rises for some ticks of 10 ms, and then it falls to 0.
#[derive(Clone, Copy)]
pub struct Brake {
    /// How many ticks of 10 ms the speed rises for.
    pub ticks: u16,
    /// The rate at which it rises, in mm/s per second.
    pub runaway: u32,
    /// The rate at which it falls, in mm/s per second.
    pub rate: u32,
}

/// Why a brake has no table.
#[derive(Clone, Copy, Debug, Error)]
pub enum TableFault {
    /// There is no memory for the table. Today's table takes none, so this does not come.
    #[error("no memory for the table")]
    Memory,
    /// The rate is 0, or not a multiple of 100.
    #[error("the rate is 0 or not a multiple of 100")]
    Rate,
    /// The runaway is not a multiple of 100.
    #[error("the runaway is not a multiple of 100")]
    Runaway,
    /// The stop from 60,000 mm/s is longer than 2^31 - 1 mm.
    #[error("the longest stop has more than 2^31 - 1 mm")]
    Far,
}

/// The greatest speed that has a stop, in mm/s.
const FASTEST: u32 = 60_000;

/// The longest stop, in mm.
const FARTHEST: u128 = 2_147_483_647;

/// The sum of some numbers in even steps, by how many they are and the first and the last of them.
fn sum_of_steps(count: u64, first: u64, last: u64) -> u128
    requires { first + last < 2 ^ 64 }
    ensures exact { result ≡ count * (first + last) / 2 }
    ensures small { result < 2 ^ 127 }
{
    u128::from(count) * u128::from(first + last) / 2
}

/// How far a train goes at most from a speed until it stands, in hundredths of a mm: the sum of the speeds at which the
/// ticks of the runaway end and of those at which the later ticks begin.
#[tactic(auto, using(crate::proofs::Stop_rises::by_arithmetic))]
fn hundredths(b: Brake, speed: u32) -> u128
    requires { 100 ≤ b.rate }
    ensures { result ≡ hundredths_of b speed }
{
    let rise = u64::from(b.runaway / 100);
    let fall = u64::from(b.rate / 100);
    let ticks = u64::from(b.ticks);
    let speed = u64::from(speed);
    let top = speed + ticks * rise;
    sum_of_steps(ticks, speed + rise, top) + sum_of_steps(top / fall + 1, top, top % fall)
}

/// How far a train goes at most from a speed until it stands, in mm, rounded up.
#[tactic(auto, unfolding(crate::specs::Brake::stop_of))]
fn distance(b: Brake, speed: u32) -> u128
    requires { 100 ≤ b.rate }
    ensures { result ≡ stop_of b speed }
{
    hundredths(b, speed).div_ceil(100)
}

/// How far a train goes at most from each speed of up to 60,000 mm/s until it stands. Every table is of a brake that
/// changes the speed by whole mm/s in each tick and that has no stop longer than 2^31 - 1 mm.
#[derive(Drop)]
pub struct Table {
    brake: Brake,
}

impl Model for Table {
    ghost use Rattle.std.specs.Prelude.{◌≡◌, None};
    ghost use Rattle.braking_table.specs.declared.table.Brake.{Brake};
    ghost use Rattle.braking_table.specs.Made.{fault_of};

    ghost Value = { Brake };

    ghost view = { λ t. t.brake };

    ghost invariant = { λ t. fault_of t.brake ≡ None };
}

impl Table {
    /// The table of a brake, or the first reason for which it has none: its rate, its runaway, the length of its longest
    /// stop.
    pub fn new(b: Brake) -> Result<Table, TableFault>
        ensures { Makes b result }
    {
        if b.rate == 0 || b.rate % 100 != 0 {
            return Err(TableFault::Rate);
        }
        if b.runaway % 100 != 0 {
            return Err(TableFault::Runaway);
        }
        if distance(b, FASTEST) > FARTHEST {
            return Err(TableFault::Far);
        }
        Ok(Table { brake: b })
    }

    /// How far a train goes at most from a speed in mm/s until it stands, in mm. From a greater speed it goes no less
    /// far.
    #[tactic(auto, using(crate::proofs::Stop_rises::stop_rises))]
    pub fn stop(&self, speed: u32) -> u32
        requires { speed ≤ 60000 }
        ensures exact { result ≡ stop_of self.now speed }
        ensures small { result < 2 ^ 31 }
        ensures rises { (v w : ℕ) → v ≤ w → w ≤ 60000 → stop_of self.now v ≤ stop_of self.now w }
    {
        distance(self.brake, speed) as u32
    }

    /// The brake that the table is of.
    pub fn brake(&self) -> Brake
        ensures exact { result ≡ self.now }
        ensures sound { fault_of result ≡ None }
    {
        self.brake
    }
}
