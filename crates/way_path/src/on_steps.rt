//! Steps: how long they are, where they are not joined or on a segment twice, and places on them.
ghost use Rattle.std.specs.Prelude.{◌≡◌, ◌≤◌, ◌<◌, ◌+◌, ◌*◌, ◌++◌, length, drop};
ghost use Rattle.arrayvec.specs.ArrayVec.{array_vec_len};
ghost use Rattle.track_points.specs.Points.{total, place_of_last, steps_to, offset_to, visits};
ghost use Rattle.definitions.specs.Track.{seg_len, zone_of, last_step};
ghost use Rattle.definitions.specs.Ways.{first_len, IsFront, IsRear};
ghost use Rattle.way_path.specs.Ways.{FirstNotJoined, FirstRepeated, EndsAt};

use arrayvec::ArrayVec;
use line_map::Line;
use track_points::{Dir, DirSeg, Path, SegId};

/// The length of a segment in mm; 0 where it is not declared.
#[tactic(auto, using(crate::proofs::Rest_is::undeclared))]
pub fn length_of(line: &Line, s: SegId) -> u32
    ensures len { result ≡ seg_len line.now s.0 }
    ensures most { result ≤ 10000000 }
{
    if line.has_segment(s) {
        line.seg_len(s)
    } else {
        0
    }
}

/// The zone of a segment; 0 where it is not declared.
#[tactic(auto, using(crate::proofs::Rest_is::in_no_zone))]
pub fn zone_of(line: &Line, s: SegId) -> u8
    ensures { result ≡ zone_of line.now s.0 }
{
    if line.has_segment(s) {
        line.zone_of(s).0
    } else {
        0
    }
}

/// The last of some steps; a step of no segment where there is none.
#[tactic(auto, unfolding(definitions::specs::Track::last_step))]
pub fn last_step(steps: &[DirSeg]) -> DirSeg
    ensures { result ≡ last_step steps.now }
{
    match steps {
        [] => DirSeg {
            seg: SegId(0),
            dir: Dir::Up,
        },
        [step] => *step,
        [_, rest @ ..] => last_step(rest),
    }
}

/// The length of the first of some steps; 0 where there is none.
fn first_len(line: &Line, steps: &[DirSeg]) -> u32
    ensures { result ≡ first_len (seg_len line.now) steps.now }
{
    match steps {
        [] => 0,
        [step, ..] => length_of(line, step.seg),
    }
}

/// Whether a step is on a segment.
#[tactic(auto, unfolding(track_points::specs::Points::visits))]
pub fn visits(steps: &[DirSeg], s: SegId) -> bool
    ensures { result ≡ visits steps.now s.0 }
{
    match steps {
        [] => false,
        [step, rest @ ..] => step.seg.0 == s.0 || visits(rest, s),
    }
}

/// The least index of a step that does not follow the one before it.
pub fn not_joined(line: &Line, steps: &[DirSeg]) -> Option<u8>
    requires { length steps.now ≤ 24 }
    ensures { FirstNotJoined line.now steps.now result }
{
    for i in 1..steps.len() {
        if !line.follows(steps[i - 1], steps[i]) {
            return Some(i as u8);
        }
    }
    None
}

/// The least index of a step whose segment an earlier step has.
pub fn repeated(steps: &[DirSeg]) -> Option<u8>
    requires { length steps.now ≤ 24 }
    ensures { FirstRepeated steps.now result }
{
    for i in 0..steps.len() {
        if visits(&steps[..i], steps[i].seg) {
            return Some(i as u8);
        }
    }
    None
}

/// The length of some steps, in mm.
#[tactic(auto, unfolding(track_points::specs::Points::total))]
pub fn total(line: &Line, steps: &[DirSeg]) -> u32
    requires { length steps.now ≤ 48 }
    ensures len { result ≡ total (seg_len line.now) steps.now }
    ensures most { result ≤ 10000000 * length steps.now }
{
    match steps {
        [] => 0,
        [step, rest @ ..] => length_of(line, step.seg) + total(line, rest),
    }
}

/// The place of an offset on the last step.
#[tactic(auto, using(crate::proofs::Rest_is::last_alone), unfolding(track_points::specs::Points::place_of_last))]
fn place_of_last(line: &Line, steps: &[DirSeg], off: u32) -> u32
    requires few { length steps.now ≤ 24 }
    requires off { off ≤ 10000000 }
    ensures place { result ≡ place_of_last (seg_len line.now) steps.now off }
    ensures most { result ≤ 10000000 * length steps.now + off }
{
    match steps {
        [] => off,
        [_] => off,
        [step, rest @ ..] => length_of(line, step.seg) + place_of_last(line, rest, off),
    }
}

/// The place where a path ends; none where it is not in its range.
pub fn end_of(line: &Line, path: &Path) -> Option<u32>
    ensures { EndsAt (seg_len line.now) path.now result }
{
    let steps = path.steps.as_slice();
    if steps.is_empty() || path.from > first_len(line, steps) {
        return None;
    }
    if path.to > length_of(line, last_step(steps).seg) {
        return None;
    }
    let end = place_of_last(line, steps, path.to);
    if path.from < end { Some(end) } else { None }
}

/// Adds the steps up to a place.
#[tactic(auto, unfolding(track_points::specs::Points::steps_to))]
fn add_steps(line: &Line, steps: &[DirSeg], place: u32, out: &mut ArrayVec<DirSeg, 24>)
    requires { array_vec_len out.old + length (steps_to (seg_len line.now) steps.now place) ≤ 24 }
    ensures { out.new.items ≡ out.old.items ++ steps_to (seg_len line.now) steps.now place }
{
    if let [step, rest @ ..] = steps {
        out.push(*step);
        let len = length_of(line, step.seg);
        if place > len {
            add_steps(line, rest, place - len, out);
        }
    }
}

/// The steps up to a place.
pub fn steps_to(line: &Line, steps: &[DirSeg], place: u32) -> ArrayVec<DirSeg, 24>
    requires { length steps.now ≤ 24 }
    ensures { result.items ≡ steps_to (seg_len line.now) steps.now place }
{
    let mut out = ArrayVec::new();
    add_steps(line, steps, place, &mut out);
    out
}

/// The offset of a place on the last of the steps up to it.
#[tactic(auto, unfolding(track_points::specs::Points::offset_to))]
pub fn offset_to(line: &Line, steps: &[DirSeg], place: u32) -> u32
    ensures { result ≡ offset_to (seg_len line.now) steps.now place }
{
    match steps {
        [] => place,
        [step, rest @ ..] => {
            let len = length_of(line, step.seg);
            if place <= len {
                place
            } else {
                offset_to(line, rest, place - len)
            }
        }
    }
}

/// The step of a front and its offset there.
#[tactic(auto, unfolding(track_points::specs::Points::total))]
pub fn front_on(line: &Line, steps: &[DirSeg], place: u32) -> (DirSeg, u32)
    requires front { 0 < place }
    requires on { place ≤ total (seg_len line.now) steps.now }
    ensures { IsFront (seg_len line.now) steps.now place result.0 result.1 }
{
    let [step, rest @ ..] = steps else {
        unreachable!()
    };
    let len = length_of(line, step.seg);
    if place <= len {
        (*step, place)
    } else {
        front_on(line, rest, place - len)
    }
}

/// The step of a rear and its offset there.
#[tactic(auto, unfolding(track_points::specs::Points::total))]
pub fn rear_on(line: &Line, steps: &[DirSeg], place: u32) -> (DirSeg, u32)
    requires { place < total (seg_len line.now) steps.now }
    ensures { IsRear (seg_len line.now) steps.now place result.0 result.1 }
{
    let [step, rest @ ..] = steps else {
        unreachable!()
    };
    let len = length_of(line, step.seg);
    if place < len {
        (*step, place)
    } else {
        rear_on(line, rest, place - len)
    }
}

/// How many steps end at or before a place, and their length.
#[tactic(auto, unfolding(track_points::specs::Points::total))]
pub fn steps_before(line: &Line, steps: &[DirSeg], place: u32) -> (usize, u32)
    requires { place < total (seg_len line.now) steps.now }
    ensures count { result.0 < length steps.now }
    ensures rest { result.1 + total (seg_len line.now) (drop result.0 steps.now) ≡ total (seg_len line.now) steps.now }
    ensures before { result.1 ≤ place }
    ensures first { place < result.1 + first_len (seg_len line.now) (drop result.0 steps.now) }
{
    let mut start = 0;
    let mut index = 0;
    for step in steps {
        let len = length_of(line, step.seg);
        if place - start < len {
            return (index, start);
        }
        start += len;
        index += 1;
    }
    unreachable!()
}

/// The steps from an index on.
pub fn steps_from(steps: &[DirSeg], index: usize) -> ArrayVec<DirSeg, 24>
    requires few { length steps.now ≤ 24 }
    requires within { index ≤ length steps.now }
    ensures { result.items ≡ drop index steps.now }
{
    let mut rest: ArrayVec<DirSeg, 24> = ArrayVec::new();
    for step in &steps[index..] {
        rest.push(*step);
    }
    rest
}
