//! Ends of segments, and what uses them.
ghost use Rattle.std.specs.Prelude.{◌≡◌};
ghost use Rattle.definitions.specs.Track.{end_eq, flip};
ghost use Rattle.definitions.specs.Rules.{other_end};
ghost use Rattle.line_map.specs.Uses.{first_use, is_free};

use definitions::item::End;
use track_points::{Dir, same_dir};

/// What uses an end of a segment.
#[derive(Clone, Copy)]
pub enum EndUse {
    /// Nothing does yet.
    Free,
    /// A joint, with its other end.
    Joined(End),
    /// A portal.
    Portal,
    /// A buffer.
    Buffer,
}

/// Whether two ends are the same.
pub fn same_end(a: End, b: End) -> bool
    ensures { result ≡ end_eq a b }
{
    a.segment == b.segment && same_dir(a.dir, b.dir)
}

/// The other direction.
pub fn turned(dir: Dir) -> Dir
    ensures { result ≡ flip dir }
{
    match dir {
        Dir::Up => Dir::Down,
        Dir::Down => Dir::Up,
    }
}

/// The other end of the same segment.
pub fn opposite(e: End) -> End
    ensures { result ≡ other_end e }
{
    End {
        segment: e.segment,
        dir: turned(e.dir),
    }
}

/// Of two uses of an end the first, and where that is none the second.
pub fn first_use(first: EndUse, second: EndUse) -> EndUse
    ensures { result ≡ first_use first second }
{
    match first {
        EndUse::Free => second,
        EndUse::Joined(e) => EndUse::Joined(e),
        EndUse::Portal => EndUse::Portal,
        EndUse::Buffer => EndUse::Buffer,
    }
}

/// Whether nothing uses the end.
pub fn is_free(used: EndUse) -> bool
    ensures { result ≡ is_free used }
{
    match used {
        EndUse::Free => true,
        EndUse::Joined(_) => false,
        EndUse::Portal => false,
        EndUse::Buffer => false,
    }
}
