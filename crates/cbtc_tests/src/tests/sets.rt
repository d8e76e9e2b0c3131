//! Sets of points: what each change makes of them, and where one is full.

use track_points::{PointSet, Range, SegId, SwitchId};

/// The cells 0 to 9 of a segment and the token of a switch.
fn piece(seg: u16, switch: u16) -> PointSet {
    let mut set = PointSet::empty();
    let _ = set.add_range(Range {
        seg: SegId(seg),
        lo: 0,
        hi: 10,
    });
    let _ = set.add_token(SwitchId(switch));
    set
}

/// Whether a set is joined by another, loses it again, and is cut to it.
fn changes() -> bool {
    let first = piece(1, 1);
    let second = piece(2, 2);
    let mut both = first.copy();
    let joined = both.join(&second).is_ok() && both.has_cell(SegId(1), 9) && both.meets(&second);
    let mut rest = both.copy();
    let cut = rest.cut(&first).is_ok() && !rest.meets(&first) && rest.has_token(SwitchId(2));
    let kept = both.keep_only(&first).is_ok() && both.has_cell(SegId(1), 9) && !both.meets(&second);
    PointSet::empty().is_empty() && !first.meets(&second) && joined && cut && kept
}

/// Whether a set takes a range of 5 cells, the first of them so many tens.
fn takes(set: &mut PointSet, tens: u32) -> bool {
    let lo = tens.min(1000) * 10;
    let range = Range {
        seg: SegId(1),
        lo,
        hi: lo + 5,
    };
    set.add_range(range).is_ok()
}

/// How many of 26 separate ranges a set takes.
fn room() -> u32 {
    let mut set = PointSet::empty();
    let mut taken = 0u32;
    for tens in 0..26 {
        if takes(&mut set, tens) {
            taken = taken.saturating_add(1);
        }
    }
    taken
}

#[test]
fn sets_change_up_to_24_ranges(rt: HostRuntime) {
    assert!(rt; changes() && room() == 24);
}
