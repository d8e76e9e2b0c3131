//! What the steps of a train make of it.
ghost use Rattle.std.specs.Prelude.{ℕ, ◌≡◌, ◌≤◌, ◌<◌, ◌+◌, ◌*◌, ◌/◌, true, Some, None, is_some, if◌then◌else◌};
ghost use Rattle.track_points.specs.Points.{step_eq};
ghost use Rattle.definitions.specs.Track.{seg_len, has_segment, next_step};
ghost use Rattle.definitions.specs.Rules.{is_line};
ghost use Rattle.definitions.specs.Premises.{same_portal, on_line};
ghost use Rattle.definitions.specs.Story.{or_else};
ghost use Rattle.onboard.specs.Decision.{mm_or_0, verdict};
ghost use Rattle.plain_state.specs.World.{new_train, asked_at_portal, head_at_entry, come_on, paced, moved_train, last_speed, leads_through, takes_at, auth_fits, alone_on, covers_portal, acted_on_by, took_by};
ghost use Rattle.plain_state.specs.Admits.{reports_head};
ghost use Rattle.world_sim.specs.Trains.{is_kept, moved_to, Reaches, HeadIs, verdict_by};

use line_map::{After, Line};
use onboard::{Onboard, Verdict};
use plain_state::{Head, Pace, WorldTrain};
use track_points::{DirSeg, Path, TrainId, same_dir};
use way_path::Way;
use way_path::on_steps::length_of;

pub fn same_step(a: DirSeg, b: DirSeg) -> bool
    ensures { result ≡ step_eq a b }
{
    a.seg.0 == b.seg.0 && same_dir(a.dir, b.dir)
}

/// Whether a request for entry at a step goes to the portal of the first one.
pub fn is_same_portal(step: DirSeg, first: Option<DirSeg>) -> bool
    ensures { result ≡ same_portal step first }
{
    match first {
        Some(first) => same_step(step, first),
        None => true,
    }
}

/// Whether an authority is one on the line: its path is a path there, and its mark and its steps are no more than a mark can
/// count.
#[tactic(auto, using(crate::proofs::Unfit::unfit))]
pub fn fits_line(line: &Line, mark: u32, path: &Path) -> bool
    ensures { result ≡ auth_fits line.now mark path.now }
{
    if u64::from(mark) + path.steps.as_slice().len() as u64 > u64::from(u32::MAX) {
        return false;
    }
    match Way::of_path(line, mark, path) {
        Ok(_) => true,
        Err(_) => false,
    }
}

/// Whether a step is the only one.
fn is_alone(steps: &[DirSeg], step: DirSeg) -> bool
    ensures { result ≡ alone_on step steps.now }
{
    match steps {
        [one] => same_step(*one, step),
        _ => false,
    }
}

/// Whether a path is over the whole segment of the first request for entry, and the train is no longer than it.
fn covers_portal(line: &Line, entry: Option<DirSeg>, train_length: u32, path: &Path) -> bool
    ensures { result ≡ covers_portal (seg_len line.now) entry train_length path.now }
{
    let Some(step) = entry else {
        return false;
    };
    let len = length_of(line, step.seg);
    is_alone(path.steps.as_slice(), step) && path.from == 0 && path.to == len && train_length <= len
}

fn first_step(kept: Option<DirSeg>, step: DirSeg) -> Option<DirSeg>
    ensures { result ≡ or_else kept (Some step) }
{
    match kept {
        Some(first) => Some(first),
        None => Some(step),
    }
}

/// A train that is declared: its length and its greatest error in mm, its greatest speed in mm/s.
pub fn declared(id: TrainId, train_length: u32, error: u32, speed: u32) -> WorldTrain
    ensures { result ≡ new_train id train_length error speed }
{
    WorldTrain {
        id,
        train_length,
        error,
        speed,
        entry: None,
        sender: None,
        head: None,
        pace: Pace { speed: 0, at: 0 },
        onboard: Onboard::new(),
    }
}

/// A train asks for entry at a step: its first request stays.
pub fn ask_entry(train: &mut WorldTrain, step: DirSeg)
    ensures { train.new ≡ asked_at_portal step train.old }
{
    train.entry = first_step(train.entry, step);
}

fn first_head(entry: Option<DirSeg>, train_length: u32) -> Option<Head>
    ensures { result ≡ head_at_entry entry train_length }
{
    match entry {
        Some(step) => Some(Head {
            step,
            mark: 0,
            offset: train_length,
        }),
        None => None,
    }
}

/// A train comes on.
pub fn come_on(line: &Line, train: &mut WorldTrain)
    requires holds { is_some train.old.onboard.entry ≡ true }
    requires fits { train.old.train_length ≤ mm_or_0 train.old.onboard.entry }
    requires before { train.old.onboard.last ≡ 0 }
    ensures { train.new ≡ come_on train.old }
{
    train.head = first_head(train.entry, train.train_length);
    train.onboard.enter(line, train.train_length);
}

/// The step that follows one on the track.
fn follower(line: &Line, step: DirSeg) -> DirSeg
    requires declared { has_segment line.now step.seg.0 ≡ true }
    requires some { is_some (next_step line.now step) ≡ true }
    ensures { next_step line.now step ≡ Some result }
{
    match line.after(step) {
        After::Plain(next) => next,
        After::Portal => unreachable!(),
        After::Buffer => unreachable!(),
    }
}

/// A head once it has moved on so many mm along the track.
fn moved(line: &Line, head: Head, mm: u32) -> Head
    requires valid { is_line line.now ≡ true }
    requires declared { on_line line.now head.step ≡ true }
    requires track { Reaches line.now head.step head.mark (head.offset + mm) }
    ensures { result ≡ moved_to line.now head.step head.mark (head.offset + mm) }
{
    let mut step = head.step;
    let mut mark = head.mark;
    let mut place = u64::from(head.offset) + u64::from(mm);
    while place > u64::from(line.seg_len(step.seg)) {
        place -= u64::from(line.seg_len(step.seg));
        step = follower(line, step);
        mark += 1;
    }
    Head {
        step,
        mark,
        offset: place as u32,
    }
}

/// The pace of a train that moves by so many mm in a step of so many ms, after which the clock is this.
#[tactic(auto, using(crate::proofs::Pace_most::pace_most))]
fn paced(ms: u32, clock: u64, mm: u32, pace: Pace) -> Pace
    requires { mm ≤ 60000 * ms / 1000 }
    ensures { result ≡ paced ms clock mm pace }
{
    if mm == 0 {
        return pace;
    }
    Pace {
        speed: (u64::from(mm) * 1000).div_ceil(u64::from(ms)) as u32,
        at: clock,
    }
}

/// The head of a train moves on so many mm, in a step of so many ms, after which the clock is this.
#[tactic(auto, using(crate::proofs::Moves_on::reach_less))]
pub fn move_on(line: &Line, train: &mut WorldTrain, ms: u32, clock: u64, mm: u32)
    requires valid { is_line line.now ≡ true }
    requires head { HeadIs line.now train.old.onboard.room train.old.head }
    requires entered { 0 < train.old.onboard.last }
    requires room { mm ≤ train.old.onboard.room }
    requires speed { mm ≤ 60000 * ms / 1000 }
    ensures { train.new ≡ moved_train line.now ms clock mm train.old }
{
    if let Some(head) = train.head {
        train.head = Some(moved(line, head, mm));
    }
    train.pace = paced(ms, clock, mm, train.pace);
    train.onboard.moved(mm);
}

/// How fast a train went in the last step: not at all where that did not move it.
pub fn last_speed(clock: u64, pace: Pace) -> u32
    ensures { result ≡ last_speed clock pace }
{
    if pace.at == clock { pace.speed } else { 0 }
}

/// Whether a path has the head's step behind the same number of steps.
fn leads_through(mark: u32, path: &Path, head: Head) -> bool
    ensures { result ≡ leads_through mark path.now head }
{
    let steps = path.steps.as_slice();
    if head.mark < mark || (head.mark - mark) as usize >= steps.len() {
        return false;
    }
    same_step(steps[(head.mark - mark) as usize], head.step)
}

/// A train on the line, which needs so many mm to stop, decides on an authority: it refuses one whose path does not lead
/// through its head.
fn take_on_line(
    line: &Line,
    train: &mut WorldTrain,
    head: Head,
    number: u32,
    mark: u32,
    path: &Path,
    stop: u32,
) -> Verdict
    requires entered { 0 < train.old.onboard.last }
    ensures answer { result ≡ verdict (takes_at (seg_len line.now) stop mark path.now head train.old.onboard) number train.old.onboard }
    ensures next { (from : ℕ) → train.new ≡ took_by (seg_len line.now) stop from number mark path.now (Some head) train.old }
{
    if leads_through(mark, path, head) {
        train
            .onboard
            .take_auth(line, number, mark, path, head.mark, head.offset, stop)
    } else {
        train.onboard.refuse(number)
    }
}

/// A train that has not come on takes an authority. One that could be its entry authority, and does not fit its request, it
/// does not act on.
fn take_before(line: &Line, train: &mut WorldTrain, from: u8, number: u32, mark: u32, path: &Path)
    ensures { (stop : ℕ) → train.new ≡ (if acted_on_by (seg_len line.now) train.old None number mark path.now then took_by (seg_len line.now) stop from number mark path.now None train.old else train.old) }
{
    let is_first = number == 1 && train.onboard.entry().is_none();
    if is_first && mark == 0 && covers_portal(line, train.entry, train.train_length, path) {
        train.sender = Some(from);
        train.onboard.keep_entry(line, path);
    }
}

/// A train, which needs so many mm to stop, takes an authority. What it answers; nothing before it has come on.
pub fn take_authority(
    line: &Line,
    train: &mut WorldTrain,
    from: u8,
    number: u32,
    mark: u32,
    path: &Path,
    stop: u32,
) -> Option<Verdict>
    requires kept { is_kept train.old ≡ true }
    ensures answer { result ≡ verdict_by (seg_len line.now) stop number mark path.now train.old.head train.old.onboard }
    ensures next { train.new ≡ (if acted_on_by (seg_len line.now) train.old train.old.head number mark path.now then took_by (seg_len line.now) stop from number mark path.now train.old.head train.old else train.old) }
{
    match train.head {
        None => {
            take_before(line, train, from, number, mark, path);
            None
        }
        Some(head) => Some(take_on_line(line, train, head, number, mark, path, stop)),
    }
}

/// Whether a train that is at this head, with a report off by at most this error, can report a step and an offset.
pub fn reports(error: u32, head: Option<Head>, step: DirSeg, offset: i32) -> bool
    ensures { result ≡ reports_head error step offset head }
{
    let Some(head) = head else {
        return false;
    };
    let at = i64::from(head.offset);
    let told = i64::from(offset);
    same_step(step, head.step) && at - i64::from(error) <= told && told <= at + i64::from(error)
}
