//! The rules of a line, by number.
ghost use Rattle.std.specs.Prelude.{◌≡◌, [], true, is_some, nat_eq, not};
ghost use Rattle.std.specs.List.{list_any};
ghost use Rattle.braking_table.specs.Made.{fault_of};
ghost use Rattle.definitions.specs.Track.{ranged, flip, zone_of};
ghost use Rattle.line_map.specs.Next.{joins_where};
ghost use Rattle.definitions.specs.Rules.{builds, rule_of, is_open, joins_within, is_bare, has_open, has_bare, finish_rule};

use crate::ends::{EndUse, opposite, same_end};
use crate::index::LineIndex;
use braking_table::{Brake, Table};
use definitions::item::{End, Item};
use track_points::Dir;

fn in_range(lo: u64, hi: u64, n: u64) -> bool
    ensures { result ≡ ranged lo hi n }
{
    lo <= n && n <= hi
}

#[tactic(auto, unfolding(definitions::specs::Rules::rule_of, definitions::specs::Numbers::least))]
fn zone_breaks(index: &LineIndex, z: u64) -> u8
    ensures { result ≡ rule_of index.now (Item.Zone z) }
{
    if index.has_zone(z) {
        2
    } else if in_range(1, 16, z) {
        0
    } else {
        4
    }
}

#[tactic(auto, unfolding(definitions::specs::Rules::rule_of, definitions::specs::Numbers::least))]
fn segment_breaks(index: &LineIndex, s: u64, z: u64, len: u64) -> u8
    ensures { result ≡ rule_of index.now (Item.Segment s z len) }
{
    if index.has_segment(s) {
        2
    } else if !index.has_zone(z) {
        3
    } else if !(in_range(1, 32767, s) && in_range(1, 10_000_000, len)) {
        4
    } else if index.segment_count() < 512 {
        0
    } else {
        5
    }
}

#[tactic(auto, unfolding(definitions::specs::Rules::rule_of, definitions::specs::Numbers::least))]
fn end_breaks(index: &LineIndex, e: End) -> u8
    ensures portal { result ≡ rule_of index.now (Item.Portal e) }
    ensures buffer { result ≡ rule_of index.now (Item.Buffer e) }
{
    if !index.has_segment(e.segment) {
        3
    } else if index.is_used(e) {
        6
    } else {
        0
    }
}

#[tactic(auto, unfolding(definitions::specs::Rules::rule_of, definitions::specs::Numbers::least))]
fn joint_breaks(index: &LineIndex, a: End, b: End) -> u8
    ensures { result ≡ rule_of index.now (Item.Joint a b) }
{
    if !(index.has_segment(a.segment) && index.has_segment(b.segment)) {
        3
    } else if index.is_used(a) || index.is_used(b) || same_end(a, b) {
        6
    } else if a.segment == b.segment {
        8
    } else {
        0
    }
}

/// Whether there is a table of the stops by a brake.
fn has_stops(brake: Brake) -> bool
    ensures { result ≡ not (is_some (fault_of brake)) }
{
    Table::new(brake).is_ok()
}

#[tactic(auto, unfolding(definitions::specs::Rules::rule_of, definitions::specs::Numbers::least))]
fn brake_breaks(index: &LineIndex, ticks: u64, runaway: u64, rate: u64) -> u8
    ensures { result ≡ rule_of index.now (Item.Brake ticks runaway rate) }
{
    if index.has_brake() {
        2
    } else if !(ticks <= 1_000 && (runaway <= 100_000 && rate <= 100_000)) {
        4
    } else if has_stops(Brake {
        ticks: ticks as u16,
        runaway: runaway as u32,
        rate: rate as u32,
    }) {
        0
    } else {
        18
    }
}

#[tactic(auto, unfolding(definitions::specs::Rules::rule_of, definitions::specs::Numbers::least))]
fn silent_breaks(index: &LineIndex, ms: u64) -> u8
    ensures { result ≡ rule_of index.now (Item.Silent ms) }
{
    if index.has_silence() {
        2
    } else if in_range(1, 3_600_000, ms) {
        0
    } else {
        4
    }
}

/// The least rule that an item breaks after these items, 0 for none.
pub fn breaks(index: &LineIndex, item: &Item) -> u8
    ensures { result ≡ rule_of index.now item.now }
{
    match *item {
        Item::Zone(z) => zone_breaks(index, z),
        Item::Segment(s, z, len) => segment_breaks(index, s, z, len),
        Item::Joint(a, b) => joint_breaks(index, a, b),
        Item::Portal(a) => end_breaks(index, a),
        Item::Buffer(a) => end_breaks(index, a),
        Item::Brake(ticks, runaway, rate) => brake_breaks(index, ticks, runaway, rate),
        Item::Silent(ms) => silent_breaks(index, ms),
    }
}

fn has_open_end(index: &LineIndex, item: &Item) -> bool
    ensures { result ≡ is_open index.now item.now }
{
    match *item {
        Item::Segment(s, _, _) => {
            !(index.is_used(End {
                segment: s,
                dir: Dir::Up,
            }) && index.is_used(End {
                segment: s,
                dir: Dir::Down,
            }))
        }
        _ => false,
    }
}

/// Whether what uses an end is a joint with a segment of the zone.
fn joins_zone(index: &LineIndex, z: u64, used: EndUse) -> bool
    ensures { result ≡ joins_where (λ e. nat_eq (zone_of index.now e.segment) z) used }
{
    match used {
        EndUse::Joined(other) => index.zone_of(other.segment) == z,
        EndUse::Free => false,
        EndUse::Portal => false,
        EndUse::Buffer => false,
    }
}

/// Whether a joint leads from the end to a segment of the zone.
fn goes_on_within(index: &LineIndex, z: u64, e: End) -> bool
    requires { builds [] index.now ≡ true }
    ensures { result ≡ list_any (joins_within index.now z e) index.now }
{
    joins_zone(index, z, index.use_of(e))
}

/// Whether the item is a portal after which no segment of the same zone follows.
fn is_bare_portal(index: &LineIndex, item: &Item) -> bool
    requires { builds [] index.now ≡ true }
    ensures { result ≡ is_bare index.now item.now }
{
    match *item {
        Item::Portal(e) => !goes_on_within(index, index.zone_of(e.segment), opposite(e)),
        _ => false,
    }
}

fn has_an_open_end(index: &LineIndex) -> bool
    ensures { result ≡ has_open index.now }
{
    index.items().iter().any(|item| has_open_end(index, item))
}

fn has_a_bare_portal(index: &LineIndex) -> bool
    requires { builds [] index.now ≡ true }
    ensures { result ≡ has_bare index.now }
{
    index.items().iter().any(|item| is_bare_portal(index, item))
}

/// The least rule that the finished line breaks, 0 for none: one pass over its items.
#[tactic(auto, unfolding(definitions::specs::Rules::finish_rule, definitions::specs::Numbers::least))]
pub fn finish_breaks(index: &LineIndex) -> u8
    requires { builds [] index.now ≡ true }
    ensures { result ≡ finish_rule index.now }
{
    if !index.has_a_zone() {
        1
    } else if has_an_open_end(index) {
        7
    } else if has_a_bare_portal(index) {
        12
    } else {
        0
    }
}
