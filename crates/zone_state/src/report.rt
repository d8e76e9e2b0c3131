//! What a report does to a zone: its train takes it, and less is held for the train.
ghost use Rattle.std.specs.Prelude.{◌≡◌, ◌≤◌, Some, true, if◌then◌else◌};
ghost use Rattle.std.specs.List.{list_all};
ghost use Rattle.definitions.specs.Track.{seg_len};
ghost use Rattle.definitions.specs.Steps.{nothing};
ghost use Rattle.plain_state.specs.Zone.{find_controlled, change_controlled, uses_mark, place_found, reported_by, fresh_train};
ghost use Rattle.zone_state.specs.Zone.{ZoneFits};

use crate::zone::Zone;
use line_map::Line;
use msg_codec::Outs;
use track_points::TrainId;
use zone_trains::report::{PositionReport, use_report};
use zone_trains::trains::fresh_train;

impl Zone {
    /// A train reports where its front was. Where its way has no step of that mark nothing changes.
    pub(crate) fn report(
        &mut self,
        line: &Line,
        train: TrainId,
        report: PositionReport,
        outs: &mut Outs,
    )
        requires empty { outs.old ≡ nothing }
        requires earlier { report.time ≤ self.old.plain.clock }
        requires fits { ZoneFits line.now self.old }
        requires fresh { list_all fresh_train self.old.plain.trains ≡ true }
        ensures gives { outs.new ≡ (if uses_mark (find_controlled train.0 self.old.plain.trains) report.mark then place_found (seg_len line.now) self.old.plain.id report.time report.mark report.offset report.integrity (find_controlled train.0 self.old.plain.trains) else nothing) }
        ensures next { self.new.plain ≡ record self.old.plain { trains = if uses_mark (find_controlled train.0 self.old.plain.trains) report.mark then change_controlled train.0 (reported_by (seg_len line.now) report.time report.mark report.offset report.integrity) self.old.plain.trains else self.old.plain.trains } }
        ensures fits { ZoneFits line.now self.new }
    {
        if let Some(i) = self.index_of(train) {
            if let Some(place) = self.trains[i]
                .way
                .place_of(line, report.mark, report.offset)
            {
                let hold = use_report(line, self.id, &mut self.trains[i], place, report, outs);
                self.holds[i] = hold;
                self.fresh = fresh_train(&self.trains[i]);
            }
        }
    }
}
