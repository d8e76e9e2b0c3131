//! What the fields of events may name.
ghost use Rattle.std.specs.Prelude.{◌≡◌, ◌≤◌, ◌||◌, ◌&&◌, true, nat_eq};
ghost use Rattle.definitions.specs.Track.{Line, ranged, has_zone, has_segment, begins_at_portal};
ghost use Rattle.definitions.specs.EventFields.{names_train, names_zone, names_segment, names_actor, names_section, names_block, names_switch};

use definitions::trains::DeclaredTrains;
use line_map::Line;
use track_points::{Dir, DirSeg, SegId, TrainId, ZoneId};

/// Whether a number is within its bounds.
pub(crate) fn is_ranged(lo: u64, hi: u64, n: u64) -> bool
    ensures is { result ≡ ranged lo hi n }
    ensures most { result ≡ true → n ≤ hi }
{
    lo <= n && n <= hi
}

/// Whether a number is that of a declared train.
pub(crate) fn is_train<T: DeclaredTrains>(trains: &T, train: u64) -> bool
    ensures is { result ≡ names_train (T.known trains.now) train }
    ensures most { result ≡ true → train ≤ 65535 }
{
    is_ranged(1, 65535, train) && trains.has(TrainId(train as u16))
}

/// Whether a number is that of a zone of the line.
pub(crate) fn is_zone(line: &Line, zone: u64) -> bool
    ensures is { result ≡ names_zone line.now zone }
    ensures most { result ≡ true → zone ≤ 16 }
{
    is_ranged(1, 16, zone) && line.has_zone(ZoneId(zone as u8))
}

/// Whether a number is that of a segment of the line.
pub(crate) fn is_segment(line: &Line, segment: u64) -> bool
    ensures is { result ≡ names_segment line.now segment }
    ensures most { result ≡ true → segment ≤ 32767 }
{
    is_ranged(1, 32767, segment) && line.has_segment(SegId(segment as u16))
}

/// Whether a number is that of an actor: 0 for the world, else a zone of the line.
pub(crate) fn is_actor(line: &Line, actor: u64) -> bool
    ensures is { result ≡ names_actor line.now actor }
    ensures most { result ≡ true → actor ≤ 16 }
{
    actor == 0 || is_zone(line, actor)
}

/// A step from its number and its sign.
pub(crate) fn step_of(segment: u64, sign: u64) -> DirSeg
    requires { segment ≤ 65535 }
    ensures { result ≡ Rattle.definitions.specs.EventFields.step_of segment sign }
{
    let dir = if sign == 0 { Dir::Up } else { Dir::Down };
    DirSeg {
        seg: SegId(segment as u16),
        dir,
    }
}

/// Whether a step goes inward from a portal.
pub(crate) fn begins(line: &Line, segment: u64, sign: u64) -> bool
    requires { segment ≤ 65535 }
    ensures { result ≡ begins_at_portal line.now (Rattle.definitions.specs.EventFields.step_of segment sign) }
{
    line.begins_at_portal(step_of(segment, sign))
}
