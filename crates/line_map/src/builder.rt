//! A line from its items.
ghost use Rattle.std.specs.Prelude.{◌≡◌, [], IfOk};
ghost use Rattle.std.specs.List.{list_any};
ghost use Rattle.definitions.specs.Rules.{is_any_zone};
ghost use Rattle.line_map.specs.Building.{Adds, Finishes};

use crate::index::LineIndex;
use crate::line::Line;
use crate::rules::{breaks, finish_breaks};
use definitions::item::Item;
use std::alloc::{AllocError, Global};
use std::marker::Model;
use thiserror::Error;

/// Why a line is refused.
#[derive(Clone, Copy, Debug, Error)]
pub enum LineFault {
    /// There is no memory for one more item.
    #[error("no memory for the line")]
    Memory,
    /// The rule of this number is broken, the least of those that are. Of an item: nothing is declared twice (2), what
    /// is named is declared (3), numbers are in their ranges (4), there are at most 512 segments (5), an end is used
    /// at most once (6), the ends of a joint belong to different segments (8), and the numbers of a brake make a table
    /// of stops (18). Of the finished line: there is a zone (1), every end is used (7), and the other end of a portal's
    /// segment is in a joint with a segment of the same zone (12).
    #[error("a rule of the line is broken")]
    Rule(u8),
}

/// How many segments a line has at most.
const SEGMENTS: usize = 512;

/// The items so far, none of which broke a rule after those before it, and room for the order of the segments.
#[derive(Drop)]
pub struct LineBuilder {
    index: LineIndex,
    order: Vec<u16>,
}

impl Model for LineBuilder {
    ghost use Rattle.std.specs.Prelude.{List, vec_capacity};
    ghost use Rattle.definitions.specs.declared.item.Item.{Item};

    ghost Value = { List Item };

    ghost use Rattle.line_map.specs.Order.{Builds};

    ghost view = { λ b. b.index };

    ghost invariant = { λ b. Builds b.index b.order.items (vec_capacity b.order) };
}

impl LineBuilder {
    /// A line with no items yet.
    pub fn new(alloc: Global) -> Result<LineBuilder, AllocError>
        ensures { IfOk result (λ builder. builder ≡ []) }
    {
        let index = LineIndex::new(alloc)?;
        let order = Vec::with_capacity(alloc, SEGMENTS)?;
        Ok(LineBuilder { index, order })
    }

    /// Whether a zone is declared so far.
    pub fn has_zone(&self) -> bool
        ensures { result ≡ list_any is_any_zone self.now }
    {
        self.index.has_a_zone()
    }

    /// Adds an item after the others. One that breaks a rule is refused with the least rule that it breaks; what is
    /// refused, and what there is no memory for, leaves the items as they were.
    pub fn add(&mut self, item: &Item) -> Result<(), LineFault>
        ensures { Adds self.old item.now result self.new }
    {
        let rule = breaks(&self.index, item);
        if rule != 0 {
            return Err(LineFault::Rule(rule));
        }
        match self.index.add(item) {
            Ok(()) => Ok(()),
            Err(_) => Err(LineFault::Memory),
        }
    }

    /// The line of these items, or the least rule that they break together. It takes no memory.
    pub fn finish(self) -> Result<Line, LineFault>
        ensures { Finishes self result }
    {
        let rule = finish_breaks(&self.index);
        if rule > 0 {
            return Err(LineFault::Rule(rule));
        }
        Ok(Line::of(self.index, self.order))
    }
}
