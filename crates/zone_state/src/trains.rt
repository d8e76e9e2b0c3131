//! The trains that a zone controls, and what each kind of message does to them.
ghost use Rattle.std.specs.Prelude.{◌≡◌, ◌≤◌, ◌<◌, List, length, true, None, IfSome, Some, is_ok, is_some};
ghost use Rattle.std.specs.List.{list_all, position};
ghost use Rattle.definitions.specs.declared.item.Item.{Item};
ghost use Rattle.definitions.specs.Track.{seg_len, has_segment};
ghost use Rattle.definitions.specs.Steps.{nothing, zone_ask, zone_entry};
ghost use Rattle.plain_state.specs.Zone.{find_controlled, change_controlled, answer, last_found, path_found, way_found, again_found, placed_train, reach_plain, holder_plain, full, fresh_train, trains_asked, trains_entered, train_at_entry};
ghost use Rattle.zone_reach.specs.Reach.{reach_value};
ghost use Rattle.plain_state.specs.declared.Controlled.{Controlled};
ghost use Rattle.zone_trains.specs.Trains.{TrainFits, AllFit, IsHold, GoesIn, IsPlace, is_train};
ghost use Rattle.zone_state.specs.Zone.{ZoneFits, ReachFitsFound};

use crate::zone::Zone;
use definitions::outcome::{Obstacle, Refusal};
use line_map::Line;
use msg_codec::{Msg, Outs};
use plain_state::Controlled;
use track_points::{DirSeg, PointSet, TrainId};
use zone_reach::held::holder;
use zone_reach::reach::{Barring, Reach, barred, reach_from};
use zone_trains::clock::is_silent;
use zone_trains::shrinks::{last_path, take_answer};
use zone_trains::trains::{
    Request, denied, entered, fresh_train, granted, hold_of, is_full, lengthen, place_among,
    refused, train_at_entry,
};

impl Zone {
    /// Where a train stands among those that the zone controls, or else where it goes in.
    fn place_of(&self, train: TrainId) -> Result<usize, usize>
        ensures place { IsPlace train.0 self.now.plain.trains result }
        ensures known { is_ok result ≡ is_some (find_controlled train.0 self.now.plain.trains) }
    {
        place_among(self.trains.as_slice(), train)
    }

    /// Where a train stands among those that the zone controls.
    pub(crate) fn index_of(&self, train: TrainId) -> Option<usize>
        ensures first { result ≡ position (is_train train.0) self.now.plain.trains }
        ensures within { IfSome result (λ i. i < length self.now.plain.trains) }
    {
        match self.place_of(train) {
            Ok(i) => Some(i),
            Err(_) => None,
        }
    }

    /// A train answers a number.
    pub(crate) fn answer(&mut self, line: &Line, train: TrainId, number: u32, taken: bool)
        requires fits { ZoneFits line.now self.old }
        requires fresh { list_all fresh_train self.old.plain.trains ≡ true }
        ensures next { self.new.plain ≡ record self.old.plain { trains = change_controlled train.0 (answer (seg_len line.now) number taken) self.old.plain.trains } }
        ensures fits { ZoneFits line.now self.new }
    {
        if let Some(i) = self.index_of(train) {
            take_answer(
                line,
                self.id,
                &mut self.trains[i],
                &mut self.holds[i],
                number,
                taken,
            );
            self.fresh = fresh_train(&self.trains[i]);
        }
    }

    /// How far an ask of a train reaches, which stands at an index.
    fn reach_of(&self, line: &Line, i: usize, train: TrainId, asked: &[DirSeg], to: u32) -> Reach
        requires few { length asked.now ≤ 24 }
        requires fits { AllFit line.now self.now.plain.clock self.now.plain.trains }
        requires at { position (is_train train.0) self.now.plain.trains ≡ Some i }
        requires within { i < length self.now.plain.trains }
        ensures reach { reach_value result ≡ reach_plain line.now self.now.plain.id self.now.plain.clock self.now.plain.trains self.now.plain.closed train.0 asked.now to }
        ensures fits { ReachFitsFound line.now (path_found (find_controlled train.0 self.now.plain.trains)) asked.now result.distance }
    {
        let trains = self.trains.as_slice();
        let x = &trains[i];
        let ready = x.ledger.answered() > 0;
        let pending = x.ledger.pending().is_some();
        let silent = is_silent(line.silent(), x.report, self.clock);
        let path = x.way.path();
        let bars = Barring {
            trains,
            closed: &self.closed,
        };
        reach_from(
            line, self.id, bars, train, ready, pending, silent, path, asked, to,
        )
    }

    /// Answers an ask of a train.
    pub(crate) fn ask(
        &mut self,
        line: &Line,
        train: TrainId,
        asked: &[DirSeg],
        to: u32,
        outs: &mut Outs,
    )
        requires few { length asked.now ≤ 24 }
        requires empty { outs.old ≡ nothing }
        requires fits { ZoneFits line.now self.old }
        requires fresh { list_all fresh_train self.old.plain.trains ≡ true }
        ensures gives { outs.new ≡ zone_ask (seg_len line.now) self.old.plain.id train (last_found (find_controlled train.0 self.old.plain.trains)) (way_found (find_controlled train.0 self.old.plain.trains)) asked.now (reach_plain line.now self.old.plain.id self.old.plain.clock self.old.plain.trains self.old.plain.closed train.0 asked.now to) }
        ensures next { self.new.plain ≡ record self.old.plain { trains = trains_asked (seg_len line.now) train.0 asked.now (reach_plain line.now self.old.plain.id self.old.plain.clock self.old.plain.trains self.old.plain.closed train.0 asked.now to) self.old.plain.trains } }
        ensures fits { ZoneFits line.now self.new }
    {
        let Some(i) = self.index_of(train) else {
            return denied(self.id, train, barred(Obstacle::NotJoined), outs);
        };
        let reach = self.reach_of(line, i, train, asked, to);
        if reach.distance == 0 {
            return denied(self.id, train, reach, outs);
        }
        let hold = lengthen(line, self.id, &mut self.trains[i], asked, reach.distance);
        self.holds[i] = hold;
        granted(self.id, train, &self.trains[i], reach.obstacle, outs);
        self.fresh = fresh_train(&self.trains[i]);
    }

    /// Sends the last authority of a train again where its number is not answered.
    pub(crate) fn send_again(&self, line: &Line, train: TrainId, outs: &mut Outs)
        requires { outs.old ≡ nothing }
        ensures { outs.new ≡ again_found (seg_len line.now) train (find_controlled train.0 self.now.plain.trains) }
    {
        let Some(i) = self.index_of(train) else {
            return;
        };
        let x = &self.trains[i];
        if x.ledger.answered() < x.ledger.last() {
            outs.send(
                0,
                Msg::Auth {
                    train,
                    number: x.ledger.last(),
                    mark: x.way.mark(),
                    path: last_path(line, x),
                },
            );
        }
    }

    /// Puts a train where it goes in among those that the zone controls, which has room for it, and beside it what is held
    /// for it.
    fn put(&mut self, index: usize, x: Controlled, hold: PointSet)
        requires place { GoesIn x.id.0 self.old.plain.trains index }
        requires few { length self.old.plain.trains < 256 }
        requires fresh { fresh_train x ≡ true }
        ensures next { self.new.plain ≡ record self.old.plain { trains = placed_train x self.old.plain.trains } }
        ensures fits { (line : List Item) → TrainFits line self.old.plain.clock x → IsHold line self.old.plain.id x hold → ZoneFits line self.old → ZoneFits line self.new }
    {
        let _ = self.trains.insert(index, x);
        let _ = self.holds.insert(index, hold);
    }

    /// Answers a request for entry.
    pub(crate) fn enter(&mut self, line: &Line, request: Request, outs: &mut Outs)
        requires declared { has_segment line.now request.step.seg.0 ≡ true }
        requires some { 1 ≤ request.train_length }
        requires empty { outs.old ≡ nothing }
        requires fits { ZoneFits line.now self.old }
        ensures gives { outs.new ≡ zone_entry self.old.plain.id (is_some (find_controlled request.train.0 self.old.plain.trains)) (full self.old.plain.trains) (seg_len line.now request.step.seg.0) request.train request.train_length request.step (holder_plain line.now self.old.plain.id self.old.plain.trains request.step.seg.0) }
        ensures next { self.new.plain ≡ record self.old.plain { trains = trains_entered self.old.plain.clock (is_some (find_controlled request.train.0 self.old.plain.trains)) (full self.old.plain.trains) (seg_len line.now request.step.seg.0) request.train request.train_length request.error request.speed request.equipped request.step (holder_plain line.now self.old.plain.id self.old.plain.trains request.step.seg.0) self.old.plain.trains } }
        ensures fits { ZoneFits line.now self.new }
    {
        let train = request.train;
        let Err(place) = self.place_of(train) else {
            return refused(self.id, train, Refusal::Known, outs);
        };
        if is_full(self.trains.as_slice()) {
            return refused(self.id, train, Refusal::TooMany, outs);
        }
        let room = line.seg_len(request.step.seg);
        if room < request.train_length {
            return refused(self.id, train, Refusal::TooLong, outs);
        }
        if let Some(other) = holder(line, self.id, self.trains.as_slice(), request.step.seg) {
            return refused(self.id, train, Refusal::Held(TrainId(other)), outs);
        }
        let x = train_at_entry(line, self.clock, request, room);
        let hold = hold_of(line, self.id, &x.way);
        self.put(place, x, hold);
        entered(self.id, train, request.step, room, outs);
    }
}
