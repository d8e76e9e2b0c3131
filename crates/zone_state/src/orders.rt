//! The orders that a zone takes: a segment is closed or opened, and a train's way is to end earlier.
ghost use Rattle.std.specs.Prelude.{◌≡◌, true};
ghost use Rattle.std.specs.List.{list_all};
ghost use Rattle.definitions.specs.Track.{seg_len};
ghost use Rattle.definitions.specs.Steps.{nothing};
ghost use Rattle.plain_state.specs.Zone.{closed_ordered, trains_ordered, order_answer, find_controlled, change_controlled, short_found, shortened, fresh_train};
ghost use Rattle.zone_state.specs.Zone.{ZoneFits};

use crate::zone::Zone;
use definitions::outcome::ShortRefusal;
use line_map::Line;
use msg_codec::{Order, Outcome, Outs};
use track_points::{DirSeg, TrainId, ZoneId};
use zone_trains::shrinks::{not_shortened, take_short};
use zone_trains::trains::fresh_train;

impl Zone {
    /// A train's way is to end at an offset of a step.
    fn short(&mut self, line: &Line, train: TrainId, step: DirSeg, off: u32, outs: &mut Outs)
        requires empty { outs.old ≡ nothing }
        requires fits { ZoneFits line.now self.old }
        requires fresh { list_all fresh_train self.old.plain.trains ≡ true }
        ensures gives { outs.new ≡ short_found (seg_len line.now) self.old.plain.id train (find_controlled train.0 self.old.plain.trains) step off }
        ensures next { self.new.plain ≡ record self.old.plain { trains = change_controlled train.0 (shortened (seg_len line.now) step off) self.old.plain.trains } }
        ensures fits { ZoneFits line.now self.new }
    {
        let Some(i) = self.index_of(train) else {
            return not_shortened(self.id, train, ShortRefusal::Away, outs);
        };
        take_short(line, self.id, train, &mut self.trains[i], step, off, outs);
        self.fresh = fresh_train(&self.trains[i]);
    }

    /// Closes or opens a segment, or lets a train's way end earlier, and tells it. What is held stays as it is.
    pub(crate) fn order(&mut self, line: &Line, order: Order, outs: &mut Outs)
        requires empty { outs.old ≡ nothing }
        requires fits { ZoneFits line.now self.old }
        requires fresh { list_all fresh_train self.old.plain.trains ≡ true }
        ensures gives { outs.new ≡ order_answer (seg_len line.now) self.old.plain.id self.old.plain.trains order }
        ensures next { self.new.plain ≡ record self.old.plain { trains = trains_ordered (seg_len line.now) order self.old.plain.trains; closed = closed_ordered order self.old.plain.closed } }
        ensures fits { ZoneFits line.now self.new }
    {
        match order {
            Order::Close(seg) => {
                self.closed.set(seg, true);
                outs.tell(Outcome::Closed(ZoneId(self.id), seg));
            }
            Order::Open(seg) => {
                self.closed.set(seg, false);
                outs.tell(Outcome::Opened(ZoneId(self.id), seg));
            }
            Order::Short(train, step, off) => self.short(line, train, step, off, outs),
            _ => {}
        }
    }
}
