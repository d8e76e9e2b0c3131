//! Where a document stands between two text lines.
ghost use Rattle.std.specs.Prelude.{◌≡◌, ℕ, List, [], ◌+◌, ◌-◌, ◌<◌, ◌≤◌, ◌^◌, false, true, IfOk, OnOk, length, count_by};
ghost use Rattle.definitions.specs.Rules.{is_any_zone, is_line, rule_of, finish_rule};
ghost use Rattle.definitions.specs.Premises.{built};
ghost use Rattle.definitions.specs.World.{trains};
ghost use Rattle.definitions.specs.Trace.{Items, Script, is_over, second_zone, item_read, begun, script_read, plan_read, among_items, in_script, in_check, stage_read, stage_ends, text_read, input_limit};
ghost use Rattle.definitions.specs.Grammar.{item_line_of, event_line_of};
ghost use Rattle.definitions.specs.Steps.{story_of};
ghost use Rattle.definitions.specs.Endings.{status_of};
ghost use Rattle.run_engine.specs.Faults.{Refuses};
ghost use Rattle.run_engine.specs.Reads.{stays, left_by, text_by, led, event_read};
ghost use Rattle.run_engine.specs.Shown.{check_shown, stage_shown, IsItems, items_of, reading_shown, Small, Steady};

use crate::check::Check;
use crate::reads::Reads;
use arrayvec::ArrayVec;
use definitions::document::{Command, Ending, EventLine, ItemLine};
use definitions::event::Event;
use definitions::item::Item;
use definitions::outcome::Outcome;
use edge_io::status::Status;
use line_map::{Line, LineBuilder, LineFault};
use line_system::{Answer, System};
use line_text::item_line;
use msg_codec::Outs;
use script_text::{Values, event_line};
use std::alloc::{AllocError, Global};
use std::mem;

/// The most bytes that an input may have.
pub const INPUT_LIMIT: u64 = 67_108_864;

/// Where a document stands: among its items, in its script after so many events, or over.
#[derive(Drop)]
pub enum Stage {
    Items(LineBuilder),
    Script(System, u64),
    Checked(Check),
    Over(Ending),
}

impl Stage {
    /// Lets the stage go.
    pub fn release(self) {
        match self {
            Stage::Script(system, _) => system.release(),
            Stage::Items(_) | Stage::Checked(_) | Stage::Over(_) => {}
        }
    }
}

/// Room for what a text line says, for what a step gives, and for the outcome lines of the text line.
#[derive(Drop)]
pub struct Room {
    pub lines: Vec<Outcome>,
    outs: Outs,
    says: EventLine,
    values: Values,
}

impl Room {
    /// It holds nothing.
    pub fn new(alloc: Global) -> Result<Room, AllocError> {
        Ok(Room {
            lines: Vec::new(alloc),
            outs: Outs::new(alloc)?,
            says: EventLine::Passed,
            values: ArrayVec::new(),
        })
    }
}

/// Whether an item is a zone after another one.
fn is_second(builder: &LineBuilder, item: &Item) -> bool
    ensures { result ≡ second_zone builder.now item.now }
{
    match *item {
        Item::Zone(_) => builder.has_zone(),
        _ => false,
    }
}

/// How a fault of the line at text line n ends the document.
fn refused(n: u64, fault: LineFault) -> Result<Reads, AllocError>
    ensures { Refuses n fault result }
{
    match fault {
        LineFault::Rule(rule) => Ok(Reads::Ends(Ending::Rule(n, rule))),
        LineFault::Memory => Err(AllocError),
    }
}

/// Adds an item, which text line n is.
fn add_item(
    command: Command,
    n: u64,
    builder: &mut LineBuilder,
    item: &Item,
) -> Result<Reads, AllocError>
    ensures { IfOk result (λ r. (text : List ℕ) → led r (Items builder.new) [] text ≡ item_read command n builder.old item.now text (second_zone builder.old item.now) (rule_of builder.old item.now)) }
{
    if is_second(builder, item) {
        return Ok(Reads::Ends(Ending::Unbuilt(n)));
    }
    match builder.add(item) {
        Ok(()) => Ok(Reads::stays(command)),
        Err(fault) => refused(n, fault),
    }
}

/// The script of a line, at its begin.
fn begin(alloc: Global, command: Command, line: Line) -> Result<Stage, AllocError>
    requires valid { is_line line ≡ true }
    requires one { count_by is_any_zone line ≤ 1 }
    ensures { IfOk result (λ s. stage_shown s ≡ begun command line) }
{
    match command {
        Command::Run => Ok(Stage::Script(System::start(alloc, line)?, 0)),
        Command::Check => Ok(Stage::Checked(Check::start(alloc, line)?)),
    }
}

/// Puts a stage in the place of another.
fn put(stage: &mut Stage, next: Stage)
    ensures { stage.new ≡ next }
{
    mem::replace(stage, next).release();
}

/// Begins the script of a line of these items, at text line n.
fn begin_script(
    alloc: Global,
    command: Command,
    n: u64,
    builder: LineBuilder,
    stage: &mut Stage,
) -> Result<Reads, AllocError>
    requires one { count_by is_any_zone builder ≤ 1 }
    ensures { IfOk result (λ r. (text : List ℕ) → led r (stage_shown stage.new) [] text ≡ script_read command n builder text (finish_rule builder)) }
{
    match builder.finish() {
        Ok(line) => {
            put(stage, begin(alloc, command, line)?);
            Ok(Reads::stays(command))
        }
        Err(fault) => refused(n, fault),
    }
}

/// Text line n is an item.
fn read_item(command: Command, n: u64, stage: &mut Stage, item: &Item) -> Result<Reads, AllocError>
    requires { IsItems (stage_shown stage.old) }
    ensures { IfOk result (λ r. (text : List ℕ) → led r (stage_shown stage.new) [] text ≡ among_items command n (items_of (stage_shown stage.old)) text (ItemLine.Item item.now)) }
{
    match stage {
        Stage::Items(builder) => add_item(command, n, builder, item),
        Stage::Script(_, _) | Stage::Checked(_) | Stage::Over(_) => unreachable!(),
    }
}

/// Text line n is the word that begins the script.
fn read_script(
    alloc: Global,
    command: Command,
    n: u64,
    stage: &mut Stage,
) -> Result<Reads, AllocError>
    requires items { IsItems (stage_shown stage.old) }
    requires steady { Steady (n - 1) (stage_shown stage.old) }
    ensures { IfOk result (λ r. (text : List ℕ) → led r (stage_shown stage.new) [] text ≡ among_items command n (items_of (stage_shown stage.old)) text ItemLine.Script) }
{
    match mem::replace(stage, Stage::Over(Ending::Input)) {
        Stage::Items(builder) => begin_script(alloc, command, n, builder, stage),
        Stage::Script(_, _) | Stage::Checked(_) | Stage::Over(_) => unreachable!(),
    }
}

/// How the word `plan` at text line n ends the document.
fn plan(command: Command, n: u64) -> Reads
    ensures { (text : List ℕ) → led result (Items []) [] text ≡ plan_read command n }
{
    match command {
        Command::Run => Reads::Ends(Ending::ScriptColumn(n, 1)),
        Command::Check => Reads::Ends(Ending::Unbuilt(n)),
    }
}

/// Text line n stands among the items.
fn read_among_items(
    alloc: Global,
    command: Command,
    n: u64,
    stage: &mut Stage,
    text: &[u8],
    values: &mut Values,
) -> Result<Reads, AllocError>
    requires items { IsItems (stage_shown stage.old) }
    requires steady { Steady (n - 1) (stage_shown stage.old) }
    ensures { IfOk result (λ r. led r (stage_shown stage.new) [] text.now ≡ among_items command n (items_of (stage_shown stage.old)) text.now (item_line_of text.now)) }
{
    match item_line(text, values) {
        ItemLine::Passed => Ok(Reads::On),
        ItemLine::Item(item) => read_item(command, n, stage, &item),
        ItemLine::Unbuilt => Ok(Reads::Ends(Ending::Unbuilt(n))),
        ItemLine::Script => read_script(alloc, command, n, stage),
        ItemLine::Plan => Ok(plan(command, n)),
        ItemLine::Fault(column) => Ok(Reads::Ends(Ending::LineColumn(n, column))),
    }
}

/// An event of the script at text line n, after so many. Its outcome lines are added to `lines`, which is empty; `outs` is
/// room for what one step gives.
fn run_event(
    n: u64,
    system: &mut System,
    count: &mut u64,
    event: &Event,
    outs: &mut Outs,
    lines: &mut Vec<Outcome>,
) -> Result<Reads, AllocError>
    requires small { count.old + 1 < 2 ^ 64 }
    requires empty { lines.old.items ≡ [] }
    requires built { built system.old.line (story_of system.old.line system.old.events) event.now ≡ true }
    ensures { IfOk result (λ r. (text : List ℕ) → led r (Script system.new.line system.new.events count.new) lines.new.items text ≡ event_read n system.old.line system.old.events count.old event.now) }
{
    match system.read(event, outs, lines)? {
        Answer::Unbuilt => unreachable!(),
        Answer::TooMany => Ok(Reads::Ends(Ending::Trains)),
        Answer::Events => Ok(Reads::Ends(Ending::Events)),
        Answer::Messages => Ok(Reads::Ends(Ending::Messages)),
        Answer::Premise(premise) => Ok(Reads::Ends(Ending::Premise(n, premise))),
        Answer::Goes => {
            *count += 1;
            Ok(Reads::On)
        }
    }
}

/// Text line n stands in a script that is run, after so many events. Its outcome lines are added to those of the room, of
/// which there are none.
#[tactic(auto, unfolding(crate::specs::Reads::event_read))]
fn read_in_script(
    n: u64,
    system: &mut System,
    count: &mut u64,
    text: &[u8],
    room: &mut Room,
) -> Result<Reads, AllocError>
    requires small { count.old + 1 < 2 ^ 64 }
    requires empty { room.old.lines.items ≡ [] }
    ensures { IfOk result (λ r. led r (Script system.new.line system.new.events count.new) room.new.lines.items text.now ≡ in_script n system.old.line system.old.events count.old (event_line_of system.old.line (trains (story_of system.old.line system.old.events)) text.now)) }
{
    event_line(
        text,
        system.line(),
        system,
        &mut room.values,
        &mut room.says,
    );
    match &room.says {
        EventLine::Passed => Ok(Reads::On),
        EventLine::Event(event) => {
            run_event(n, system, count, event, &mut room.outs, &mut room.lines)
        }
        EventLine::Unbuilt => Ok(Reads::Ends(Ending::Unbuilt(n))),
        EventLine::Fault(column) => Ok(Reads::Ends(Ending::ScriptColumn(n, *column))),
    }
}

/// Text line n stands in a script that is checked.
fn read_in_check(n: u64, check: &mut Check, text: &[u8], room: &mut Room) -> Reads
    requires small { check.old.count + 1 < 2 ^ 64 }
    ensures reads { led result (check_shown check.new) [] text.now ≡ in_check n check.old.line check.old.trains check.old.count text.now (event_line_of check.old.line check.old.trains text.now) }
    ensures lines { room.new.lines.items ≡ room.old.lines.items }
{
    event_line(
        text,
        &check.line,
        &check.trains,
        &mut room.values,
        &mut room.says,
    );
    match &room.says {
        EventLine::Passed => Reads::On,
        EventLine::Event(event) => check.event(event),
        EventLine::Unbuilt => Reads::Ends(Ending::Unbuilt(n)),
        EventLine::Fault(column) => Reads::Ends(Ending::ScriptColumn(n, *column)),
    }
}

/// Text line n. A stage that is ended may be spent.
#[tactic(auto, unfolding(definitions::specs::Trace::stage_read))]
fn read(
    alloc: Global,
    command: Command,
    n: u64,
    stage: &mut Stage,
    text: &[u8],
    room: &mut Room,
) -> Result<Reads, AllocError>
    requires on { is_over (stage_shown stage.old) ≡ false }
    requires steady { Steady (n - 1) (stage_shown stage.old) }
    requires small { n ≤ input_limit + 1 }
    requires empty { room.old.lines.items ≡ [] }
    ensures { IfOk result (λ r. led r (stage_shown stage.new) room.new.lines.items text.now ≡ stage_read command n (stage_shown stage.old) text.now) }
{
    match stage {
        Stage::Items(_) => read_among_items(alloc, command, n, stage, text, &mut room.values),
        Stage::Script(system, count) => read_in_script(n, system, count, text, room),
        Stage::Checked(check) => Ok(read_in_check(n, check, text, room)),
        Stage::Over(_) => unreachable!(),
    }
}

/// The document is over where a text line ends it.
fn end_by(stage: &mut Stage, reads: Reads)
    ensures { stage_shown stage.new ≡ left_by reads (stage_shown stage.old) }
{
    match reads {
        Reads::Ends(ending) => put(stage, Stage::Over(ending)),
        Reads::On | Reads::Again => {}
    }
}

/// How a document ends after its items whose last text line is line n.
#[tactic(auto, unfolding(definitions::specs::Trace::stage_ends))]
fn items_end(n: u64, builder: LineBuilder) -> Ending
    requires { n + 1 < 2 ^ 64 }
    ensures { result ≡ stage_ends n (Items builder) }
{
    match builder.finish() {
        Ok(_) => Ending::Done(0),
        Err(fault) => match fault {
            LineFault::Rule(rule) => Ending::Rule(n + 1, rule),
            LineFault::Memory => unreachable!(),
        },
    }
}

/// How a document ends among its items, whose last text line is line n. The stage is spent.
fn end_of_items(n: u64, stage: &mut Stage) -> Ending
    requires small { n + 1 < 2 ^ 64 }
    requires items { IsItems (stage_shown stage.old) }
    ensures { result ≡ stage_ends n (stage_shown stage.old) }
{
    match mem::replace(stage, Stage::Over(Ending::Input)) {
        Stage::Items(builder) => items_end(n, builder),
        Stage::Script(_, _) | Stage::Checked(_) | Stage::Over(_) => unreachable!(),
    }
}

/// The status that goes with a last line.
pub fn status(ending: &Ending) -> Status
    ensures { result ≡ status_of ending.now }
{
    match *ending {
        Ending::Usage => Status::Usage,
        Ending::Done(_) => Status::Done,
        Ending::LineColumn(_, _) => Status::Line,
        Ending::Rule(_, _) => Status::Line,
        Ending::ScriptColumn(_, _) => Status::Script,
        Ending::Premise(_, _) => Status::Premise,
        Ending::Input => Status::Limit,
        Ending::Trains => Status::Limit,
        Ending::Events => Status::Limit,
        Ending::Messages => Status::Limit,
        Ending::Unbuilt(_) => Status::Unbuilt,
    }
}

/// A document under a command: a stage after a number of text lines and of bytes.
#[derive(Drop)]
pub struct Reading {
    pub command: Command,
    pub number: u64,
    pub bytes: u64,
    pub stage: Stage,
}

impl Reading {
    /// No text line was read.
    pub fn start(alloc: Global, command: Command) -> Result<Reading, AllocError>
        ensures { IfOk result (λ r. reading_shown r ≡ Rattle.definitions.specs.Trace.start command) }
    {
        Ok(Reading {
            command,
            number: 0,
            bytes: 0,
            stage: Stage::Items(LineBuilder::new(alloc)?),
        })
    }

    /// Whether a text line has given an answer.
    pub fn is_over(&self) -> bool
        ensures { result ≡ is_over (stage_shown self.now.stage) }
    {
        match &self.stage {
            Stage::Over(_) => true,
            Stage::Items(_) => false,
            Stage::Script(_, _) => false,
            Stage::Checked(_) => false,
        }
    }

    /// One text line of so many bytes, of which the room has no outcome lines yet; they are added there. After want of memory
    /// the document is to be given up.
    #[tactic(auto, unfolding(definitions::specs::Trace::text_read))]
    pub fn text(
        &mut self,
        alloc: Global,
        size: u64,
        text: &[u8],
        room: &mut Room,
    ) -> Result<Reads, AllocError>
        requires small { Small (reading_shown self.old) }
        requires some { 1 ≤ size }
        requires bound { size ≤ input_limit + 1 }
        requires empty { room.old.lines.items ≡ [] }
        ensures text { IfOk result (λ r. text_by r room.new.lines.items text.now ≡ (text_read (reading_shown self.old) size text.now).text) }
        ensures next { OnOk result (reading_shown self.new ≡ (text_read (reading_shown self.old) size text.now).next) }
        ensures small { OnOk result (Small (reading_shown self.new)) }
    {
        if self.is_over() {
            return Ok(Reads::On);
        }
        if self.bytes + size > INPUT_LIMIT {
            put(&mut self.stage, Stage::Over(Ending::Input));
            return Ok(Reads::On);
        }
        let reads = read(
            alloc,
            self.command,
            self.number + 1,
            &mut self.stage,
            text,
            room,
        )?;
        end_by(&mut self.stage, reads);
        self.number += 1;
        self.bytes += size;
        Ok(reads)
    }

    /// How the document ends. The stage may be spent.
    #[tactic(auto, unfolding(definitions::specs::Trace::stage_ends))]
    pub fn end(&mut self) -> Ending
        requires { self.old.number + 1 < 2 ^ 64 }
        ensures { result ≡ stage_ends self.old.number (stage_shown self.old.stage) }
    {
        match &self.stage {
            Stage::Over(ending) => *ending,
            Stage::Items(_) => end_of_items(self.number, &mut self.stage),
            Stage::Script(_, count) => Ending::Done(*count),
            Stage::Checked(check) => Ending::Done(check.count),
        }
    }
}
