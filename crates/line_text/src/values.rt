//! Items and the values of their parts.
ghost use Rattle.std.specs.Prelude.{◌≡◌, ◌≤◌, ◌+◌, ◌*◌, ◌++◌, ◌∷◌, [], length};
ghost use Rattle.arrayvec.specs.ArrayVec.{array_vec_len};
ghost use Rattle.definitions.specs.ItemText.{item_place, item_values, range_values, sign_value};
ghost use Rattle.definitions.specs.ItemReading.{zone_of, segment_of, joint_of, switch_of, portal_of, buffer_of, ranges_of, section_of, block_of, brake_of, silent_of};
ghost use Rattle.line_text.specs.Values.{HasRoom};

use arrayvec::ArrayVec;
use definitions::item::End;
use definitions::line_item::{LineItem, SectionRange};
use track_points::Dir;

/// The values of an item; a block of 16 segments has the most.
pub(crate) type ItemValues = ArrayVec<u64, 18>;

/// An end from its number and its sign.
fn end_of(segment: u64, sign: u64) -> End
    ensures { result ≡ Rattle.definitions.specs.ItemReading.end_of segment sign }
{
    let dir = if sign == 0 { Dir::Up } else { Dir::Down };
    End { segment, dir }
}

/// A zone from its values.
fn zone(values: &[u64]) -> Option<LineItem>
    ensures { result ≡ zone_of values.now }
{
    match values {
        [zone] => Some(LineItem::Zone(*zone)),
        _ => None,
    }
}

/// A segment from its values.
fn segment(values: &[u64]) -> Option<LineItem>
    ensures { result ≡ segment_of values.now }
{
    match values {
        [segment, zone, length] => Some(LineItem::Segment(*segment, *zone, *length)),
        _ => None,
    }
}

/// A joint from its values.
fn joint(values: &[u64]) -> Option<LineItem>
    ensures { result ≡ joint_of values.now }
{
    match values {
        [a, x, b, y] => Some(LineItem::Joint(end_of(*a, *x), end_of(*b, *y))),
        _ => None,
    }
}

/// A switch from its values.
fn switch(values: &[u64]) -> Option<LineItem>
    ensures { result ≡ switch_of values.now }
{
    match values {
        [switch, point, x, normal, y, reverse, z, throat] => Some(LineItem::Switch(
            *switch,
            end_of(*point, *x),
            end_of(*normal, *y),
            end_of(*reverse, *z),
            *throat,
        )),
        _ => None,
    }
}

/// A portal from its values.
fn portal(values: &[u64]) -> Option<LineItem>
    ensures { result ≡ portal_of values.now }
{
    match values {
        [segment, sign] => Some(LineItem::Portal(end_of(*segment, *sign))),
        _ => None,
    }
}

/// A buffer from its values.
fn buffer(values: &[u64]) -> Option<LineItem>
    ensures { result ≡ buffer_of values.now }
{
    match values {
        [segment, sign] => Some(LineItem::Buffer(end_of(*segment, *sign))),
        _ => None,
    }
}

/// Adds a range for each three values.
#[tactic(auto, unfolding(definitions::specs::ItemReading::ranges_of))]
fn add_ranges(ranges: &mut ArrayVec<SectionRange, 3>, values: &[u64])
    requires { 3 * array_vec_len ranges.old + length values.now ≤ 9 }
    ensures { ranges.new.items ≡ ranges.old.items ++ ranges_of values.now }
{
    let [segment, lo, hi, others @ ..] = values else {
        return;
    };
    ranges.push(SectionRange {
        segment: *segment,
        lo: *lo,
        hi: *hi,
    });
    add_ranges(ranges, others)
}

/// A section from its values.
fn section(values: &[u64]) -> Option<LineItem>
    requires { length values.now ≤ 10 }
    ensures { result ≡ section_of values.now }
{
    let [section, others @ ..] = values else {
        return None;
    };
    let mut ranges = ArrayVec::new();
    add_ranges(&mut ranges, others);
    Some(LineItem::Section(*section, ranges))
}

/// A block from its values.
fn block(values: &[u64]) -> Option<LineItem>
    requires { length values.now ≤ 18 }
    ensures { result ≡ block_of values.now }
{
    let [block, sign, others @ ..] = values else {
        return None;
    };
    let dir = if *sign == 0 { Dir::Up } else { Dir::Down };
    let mut segments: ArrayVec<u64, 16> = ArrayVec::new();
    let _ = segments.try_extend_from_slice(others);
    Some(LineItem::Block(*block, dir, segments))
}

/// The braking from its values.
fn brake(values: &[u64]) -> Option<LineItem>
    ensures { result ≡ brake_of values.now }
{
    match values {
        [ticks, runaway, rate] => Some(LineItem::Brake(*ticks, *runaway, *rate)),
        _ => None,
    }
}

/// The time of silence from its values.
fn silent(values: &[u64]) -> Option<LineItem>
    ensures { result ≡ silent_of values.now }
{
    match values {
        [ms] => Some(LineItem::Silent(*ms)),
        _ => None,
    }
}

/// The item of the form at this place of the table, from its values.
pub(crate) fn item_of(form: usize, values: &[u64]) -> Option<LineItem>
    requires { HasRoom form values.now }
    ensures { result ≡ Rattle.definitions.specs.ItemReading.item_of form values.now }
{
    match form {
        0 => zone(values),
        1 => segment(values),
        2 => joint(values),
        3 => switch(values),
        4 => portal(values),
        5 => buffer(values),
        6 => section(values),
        7 => block(values),
        8 => brake(values),
        9 => silent(values),
        _ => None,
    }
}

/// The place of an item's form in the table.
pub(crate) fn place_of(item: &LineItem) -> usize
    ensures { result ≡ item_place item.now }
{
    match item {
        LineItem::Zone(..) => 0,
        LineItem::Segment(..) => 1,
        LineItem::Joint(..) => 2,
        LineItem::Switch(..) => 3,
        LineItem::Portal(..) => 4,
        LineItem::Buffer(..) => 5,
        LineItem::Section(..) => 6,
        LineItem::Block(..) => 7,
        LineItem::Brake(..) => 8,
        LineItem::Silent(..) => 9,
    }
}

/// The value of a direction's sign.
fn sign_of(dir: Dir) -> u64
    ensures { result ≡ sign_value dir }
{
    match dir {
        Dir::Up => 0,
        Dir::Down => 1,
    }
}

/// Adds values.
fn add(values: &mut ItemValues, more: &[u64])
    requires { array_vec_len values.old + length more.now ≤ 18 }
    ensures { values.new.items ≡ values.old.items ++ more.now }
{
    let _ = values.try_extend_from_slice(more);
}

/// Adds the number and the sign of an end.
fn add_end(values: &mut ItemValues, end: End)
    requires { array_vec_len values.old + 2 ≤ 18 }
    ensures { values.new.items ≡ values.old.items ++ (end.segment ∷ sign_value end.dir ∷ []) }
{
    values.push(end.segment);
    values.push(sign_of(end.dir));
}

/// Adds the three values of each range.
#[tactic(auto, unfolding(definitions::specs::ItemText::range_values))]
fn add_range_values(values: &mut ItemValues, ranges: &[SectionRange])
    requires { array_vec_len values.old + 3 * length ranges.now ≤ 18 }
    ensures { values.new.items ≡ values.old.items ++ range_values ranges.now }
{
    let [range, others @ ..] = ranges else {
        return;
    };
    add(values, &[range.segment, range.lo, range.hi]);
    add_range_values(values, others)
}

/// The values of an item.
pub(crate) fn values_of(item: &LineItem) -> ItemValues
    ensures { result.items ≡ item_values item.now }
{
    let mut values: ItemValues = ArrayVec::new();
    match item {
        LineItem::Zone(zone) => values.push(*zone),
        LineItem::Segment(segment, zone, length) => add(&mut values, &[*segment, *zone, *length]),
        LineItem::Joint(one, other) => {
            add_end(&mut values, *one);
            add_end(&mut values, *other);
        }
        LineItem::Switch(switch, point, normal, reverse, throat) => {
            values.push(*switch);
            add_end(&mut values, *point);
            add_end(&mut values, *normal);
            add_end(&mut values, *reverse);
            values.push(*throat);
        }
        LineItem::Portal(end) | LineItem::Buffer(end) => add_end(&mut values, *end),
        LineItem::Section(section, ranges) => {
            values.push(*section);
            add_range_values(&mut values, ranges.as_slice());
        }
        LineItem::Block(block, dir, segments) => {
            add(&mut values, &[*block, sign_of(*dir)]);
            add(&mut values, segments.as_slice());
        }
        LineItem::Brake(ticks, runaway, rate) => add(&mut values, &[*ticks, *runaway, *rate]),
        LineItem::Silent(ms) => values.push(*ms),
    }
    values
}
