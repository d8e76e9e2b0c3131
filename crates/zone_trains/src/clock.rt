//! What the time does to the trains: their fronts grow, and those that no report tells of fall silent.
ghost use Rattle.std.specs.Prelude.{nat_lt, ◌≡◌, ◌≤◌, ◌+◌, ◌++◌, length, map};
ghost use Rattle.plain_state.specs.Zone.{grown_train};
ghost use Rattle.zone_trains.specs.Trains.{CanGrow, AllCanGrow, falls_silent, alarms_of};

use msg_codec::{Outcome, Outs};
use plain_state::Controlled;
use track_points::ZoneId;

/// Whether a train is silent at a Now, which is more than some ms after its last report.
#[tactic(auto, using(crate::proofs::Narrowed_stands::silent_is))]
pub fn is_silent(ms: u64, report: u64, clock: u64) -> bool
    ensures { result ≡ nat_lt (report + ms) clock }
{
    clock.saturating_sub(report) > ms
}

/// Lets the fronts of a train grow until Now.
fn grow(x: &mut Controlled, clock: u64)
    requires grows { CanGrow x.old.fronts.at x.old }
    requires later { x.old.fronts.at ≤ clock }
    ensures { x.new ≡ grown_train clock x.old }
{
    x.fronts.grow(clock, x.speed, x.way.end());
}

/// Lets the fronts of all trains grow from one time to a later one.
pub fn grow_each(trains: &mut [Controlled], before: u64, clock: u64)
    requires grow { AllCanGrow before trains.old }
    requires later { before ≤ clock }
    ensures { trains.new ≡ map (grown_train clock) trains.old }
{
    for i in 0..trains.len() {
        grow(&mut trains[i], clock);
    }
}

/// Whether a train falls silent as Now rises.
fn falls_silent(ms: u64, before: u64, clock: u64, x: &Controlled) -> bool
    ensures { result ≡ falls_silent ms before clock x.now }
{
    !is_silent(ms, x.report, before) && is_silent(ms, x.report, clock)
}

/// Tells each train that falls silent as Now rises, which is one more than some ms after its last report.
pub fn alarms(ms: u64, zone: u8, before: u64, clock: u64, trains: &[Controlled], outs: &mut Outs)
    requires { length outs.old.lines + length trains.now ≤ 1100 }
    ensures { outs.new ≡ record { issued = outs.old.issued; lines = outs.old.lines ++ alarms_of ms zone before clock trains.now } }
{
    for x in trains {
        if falls_silent(ms, before, clock, x) {
            outs.tell(Outcome::AlarmSilent(ZoneId(zone), x.id));
        }
    }
}
