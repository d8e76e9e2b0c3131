//! Lines from the text of their items.
ghost use Rattle.std.specs.Prelude.{◌≡◌, true};
ghost use Rattle.definitions.specs.Rules.{is_line};

use line_map::{Line, LineBuilder};
use line_text::read_line_item;
use std::alloc::Global;
use std::process::Abort;
use track_points::{Dir, DirSeg, SegId};

/// A step up on a segment.
pub fn up(seg: u16) -> DirSeg {
    DirSeg {
        seg: SegId(seg),
        dir: Dir::Up,
    }
}

/// Whether a text line is an item, and is added.
fn adds(builder: &mut LineBuilder, text: &str) -> bool {
    let Ok(said) = read_line_item(text.as_bytes()) else {
        return false;
    };
    match said.built() {
        Some(item) => builder.add(&item).is_ok(),
        None => false,
    }
}

/// The line of the items that stand in a text.
pub fn line_of(rt: &(impl Abort + Alloc<A = Global>), text: &str) -> Line
    ensures { is_line result ≡ true }
{
    let Ok(mut builder) = LineBuilder::new(rt.alloc()) else {
        panic!(rt; "want of memory");
    };
    for item in text.split('\n') {
        assert!(rt; adds(&mut builder, item), "{item}");
    }
    match builder.finish() {
        Ok(line) => line,
        Err(_) => panic!(rt; "the line does not finish"),
    }
}
