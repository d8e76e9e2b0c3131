//! What the time does to a zone: the fronts of its trains grow, and it tells those that fall silent.
ghost use Rattle.std.specs.Prelude.{◌≡◌, ◌≤◌, ◌+◌, ◌++◌, List, length};
ghost use Rattle.definitions.specs.declared.item.Item.{Item};
ghost use Rattle.definitions.specs.Track.{silent_after};
ghost use Rattle.zone_trains.specs.Trains.{AllCanGrow, alarms_of};
ghost use Rattle.zone_state.specs.Zone.{ZoneFits, passed};

use crate::zone::Zone;
use line_map::Line;
use msg_codec::Outs;
use zone_trains::clock::{alarms, grow_each};

impl Zone {
    /// Lets time pass: where a time is later than Now, Now rises to it and the fronts of all trains grow.
    pub(crate) fn pass(&mut self, time: u64)
        requires { AllCanGrow self.old.plain.clock self.old.plain.trains }
        ensures next { self.new ≡ passed time self.old }
        ensures fits { (line : List Item) → ZoneFits line self.old → ZoneFits line self.new }
    {
        if self.clock < time {
            grow_each(self.trains.as_mut_slice(), self.clock, time);
            self.clock = time;
        }
    }

    /// Tells each train that falls silent as Now has risen from a time; none does where it has not risen.
    pub(crate) fn tell_alarms(&self, line: &Line, before: u64, outs: &mut Outs)
        requires { length outs.old.lines + length self.now.plain.trains ≤ 1100 }
        ensures { outs.new ≡ record { issued = outs.old.issued; lines = outs.old.lines ++ alarms_of (silent_after line.now) self.now.plain.id before self.now.plain.clock self.now.plain.trains } }
    {
        if before < self.clock {
            alarms(
                line.silent(),
                self.id,
                before,
                self.clock,
                self.trains.as_slice(),
                outs,
            );
        }
    }
}
