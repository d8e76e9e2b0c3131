//! Asked steps: what continues a way, places on steps, and ways with further steps.
ghost use Rattle.std.specs.Prelude.{◌≡◌, ◌≤◌, ◌<◌, ◌+◌, ◌*◌, ◌++◌, ◌^◌, length, take, true, IfSome};
ghost use Rattle.track_points.specs.Points.{step_eq, place_of_last, visits, no_segment_twice};
ghost use Rattle.definitions.specs.Track.{seg_len, joined, last_step};
ghost use Rattle.way_path.specs.Ways.{OnLine, EndsWithPath};
ghost use Rattle.plain_state.specs.Zone.{longer_way};
ghost use Rattle.zone_reach.specs.Reach.{with_steps, ReachFits};
ghost use Rattle.definitions.specs.Steps.{place_of_step};
ghost use Rattle.definitions.specs.Limit.{beyond, or_all, further, asked_way, continues};

use arrayvec::ArrayVec;
use line_map::Line;
use track_points::{Dir, DirSeg};
use way_path::Way;
use way_path::on_steps::{last_step, length_of, visits};

fn same_step(a: DirSeg, b: DirSeg) -> bool
    ensures { result ≡ step_eq a b }
{
    a.seg.0 == b.seg.0
        && match a.dir {
            Dir::Up => match b.dir {
                Dir::Up => true,
                Dir::Down => false,
            },
            Dir::Down => match b.dir {
                Dir::Up => false,
                Dir::Down => true,
            },
        }
}

/// The asked steps after the first place of a step among them, or else all.
#[tactic(auto, unfolding(definitions::specs::Limit::beyond))]
fn behind<'a>(step: DirSeg, asked: &'a [DirSeg], all: &'a [DirSeg]) -> &'a [DirSeg]
    requires { length asked.now ≤ length all.now }
    ensures steps { result.now ≡ or_all (beyond step asked.now) all.now }
    ensures few { length result.now ≤ length all.now }
{
    match asked {
        [] => all,
        [first, rest @ ..] => {
            if same_step(*first, step) {
                rest
            } else {
                behind(step, rest, all)
            }
        }
    }
}

/// The asked steps that go beyond a way.
pub fn further<'a>(steps: &[DirSeg], asked: &'a [DirSeg]) -> &'a [DirSeg]
    ensures steps { result.now ≡ further steps.now asked.now }
    ensures few { length result.now ≤ length asked.now }
{
    behind(last_step(steps), asked, asked)
}

/// Whether each step follows the one before it, from a step on.
#[tactic(auto, unfolding(definitions::specs::Track::joined))]
fn joined(line: &Line, from: DirSeg, steps: &[DirSeg]) -> bool
    ensures { result ≡ joined line.now from steps.now }
{
    match steps {
        [] => true,
        [next, rest @ ..] => line.follows(from, *next) && joined(line, *next, rest),
    }
}

/// Whether no segment is on the steps twice.
#[tactic(auto, unfolding(track_points::specs::Points::no_segment_twice))]
fn no_segment_twice(steps: &[DirSeg]) -> bool
    ensures { result ≡ no_segment_twice steps.now }
{
    match steps {
        [] => true,
        [step, rest @ ..] => !visits(rest, step.seg) && no_segment_twice(rest),
    }
}

/// The asked way: a way's steps, and the asked ones after them.
pub fn asked_way(steps: &[DirSeg], asked: &[DirSeg]) -> ArrayVec<DirSeg, 48>
    requires old { length steps.now ≤ 24 }
    requires more { length asked.now ≤ 24 }
    ensures { result.items ≡ asked_way steps.now asked.now }
{
    let mut way = ArrayVec::new();
    let _ = way.try_extend_from_slice(steps);
    let _ = way.try_extend_from_slice(further(steps, asked));
    way
}

/// Whether the asked steps continue a way, with no segment on it twice.
pub fn continues(line: &Line, steps: &[DirSeg], asked: &[DirSeg], way: &[DirSeg]) -> bool
    requires { way.now ≡ asked_way steps.now asked.now }
    ensures { result ≡ continues line.now steps.now asked.now }
{
    joined(line, last_step(steps), further(steps, asked)) && no_segment_twice(way)
}

/// The place of an offset on the last step.
#[tactic(auto, using(way_path::proofs::Rest_is::last_alone), unfolding(track_points::specs::Points::place_of_last))]
pub fn place_of_last(line: &Line, steps: &[DirSeg], off: u32) -> u64
    requires { length steps.now ≤ 48 }
    ensures place { result ≡ place_of_last (seg_len line.now) steps.now off }
    ensures most { result ≤ 10000000 * length steps.now + off }
{
    match steps {
        [] => off as u64,
        [_] => off as u64,
        [step, rest @ ..] => length_of(line, step.seg) as u64 + place_of_last(line, rest, off),
    }
}

/// The place of an offset of a step, be it beyond the step's length; none where the step is not among these.
#[tactic(auto, unfolding(definitions::specs::Steps::place_of_step))]
pub fn place_of_step(line: &Line, steps: &[DirSeg], step: DirSeg, off: u32) -> Option<u64>
    requires { length steps.now ≤ 48 }
    ensures place { result ≡ place_of_step (seg_len line.now) steps.now step off }
    ensures most { IfSome result (λ p. p ≤ 10000000 * length steps.now + off) }
{
    match steps {
        [] => None,
        [first, rest @ ..] => {
            if same_step(*first, step) {
                return Some(off as u64);
            }
            let place = place_of_step(line, rest, step, off)?;
            Some(length_of(line, first.seg) as u64 + place)
        }
    }
}

/// Adds steps to a way while it has fewer than 24, and leaves its end where it is.
pub fn extend_by(line: &Line, way: &mut Way, more: &[DirSeg])
    requires on_line { OnLine line.now way.old }
    requires marks { way.old.mark + 24 < 2 ^ 32 }
    requires joined { joined line.now (last_step way.old.path.steps.items) more.now ≡ true }
    requires once { no_segment_twice (way.old.path.steps.items ++ more.now) ≡ true }
    ensures way { way.new ≡ with_steps way.old (take 24 (way.old.path.steps.items ++ more.now)) }
    ensures on_line { OnLine line.now way.new }
{
    if way.path().steps.len() == 24 {
        return;
    }
    if let [step, rest @ ..] = more {
        let Ok(()) = way.extend(line, *step) else {
            unreachable!()
        };
        extend_by(line, way, rest);
    }
}

/// Lengthens a way up to a distance from its end.
pub fn lengthen_way(line: &Line, way: &mut Way, asked: &[DirSeg], distance: u32)
    requires on_line { OnLine line.now way.old }
    requires ends { EndsWithPath (seg_len line.now) way.old }
    requires marks { way.old.mark + 24 < 2 ^ 32 }
    requires some { 0 < distance }
    requires reaches { ReachFits line.now way.old.path asked.now distance }
    ensures way { way.new ≡ longer_way (seg_len line.now) asked.now distance way.old }
    ensures end { way.new.end ≡ way.old.end + distance }
    ensures on_line { OnLine line.now way.new }
    ensures ends { EndsWithPath (seg_len line.now) way.new }
{
    let place = way.end() + distance;
    let more = further(way.path().steps.as_slice(), asked);
    extend_by(line, way, more);
    way.set_end(line, place);
}
