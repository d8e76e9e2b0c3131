//! Writing the last line.
ghost use Rattle.std.specs.Prelude.{◌≡◌, ◌++◌};
ghost use Rattle.std.specs.Fmt.{decimal};
ghost use Rattle.edge_io.specs.Writing.{Wrote};
ghost use Rattle.definitions.specs.Endings.{ending_text};
ghost use Rattle.outcome_text.specs.Parts.{part_text, parts_text};

use Part::{Column, Number, Premise, Rule};
use definitions::document::Ending;
use edge_io::stream::Sink;
use edge_io::writing::{WriteFault, write_text};

/// A part of a line, between its first word and what ends it.
#[derive(Clone, Copy)]
enum Part {
    /// A number.
    Number(u64),
    /// The word `column` and a column.
    Column(u32),
    /// The word `rule` and a rule.
    Rule(u8),
    /// A premise.
    Premise(u8),
}

/// A number.
fn write_number<K: Sink>(n: u64, sink: &mut K) -> Result<(), WriteFault>
    ensures { Wrote K.written K.faults sink.old sink.new (decimal n) result }
{
    let mut buffer = itoa::Buffer::new();
    write_text(sink, buffer.format(n).as_bytes())
}

/// A word and a number.
fn write_named<K: Sink>(word: &[u8], n: u64, sink: &mut K) -> Result<(), WriteFault>
    ensures { Wrote K.written K.faults sink.old sink.new (word.now ++ decimal n) result }
{
    match write_text(sink, word) {
        Ok(()) => write_number(n, sink),
        Err(fault) => Err(fault),
    }
}

/// A part.
#[tactic(auto, unfolding(definitions::specs::Endings::field))]
fn write_part<K: Sink>(part: Part, sink: &mut K) -> Result<(), WriteFault>
    ensures { Wrote K.written K.faults sink.old sink.new (part_text part) result }
{
    match part {
        Number(n) => write_named(b" ", n, sink),
        Column(column) => write_named(b" column ", column as u64, sink),
        Rule(rule) => write_named(b" rule ", rule as u64, sink),
        Premise(premise) => write_named(b" P", premise as u64, sink),
    }
}

/// Parts, and what ends their line.
fn write_parts<K: Sink>(parts: &[Part], last: &[u8], sink: &mut K) -> Result<(), WriteFault>
    ensures { Wrote K.written K.faults sink.old sink.new (parts_text parts.now last.now) result }
{
    match parts {
        [] => write_text(sink, last),
        [part, rest @ ..] => match write_part(*part, sink) {
            Ok(()) => write_parts(rest, last, sink),
            Err(fault) => Err(fault),
        },
    }
}

/// A line: its first word, its parts, and what ends it.
fn write_line<K: Sink>(
    word: &[u8],
    parts: &[Part],
    last: &[u8],
    sink: &mut K,
) -> Result<(), WriteFault>
    ensures { Wrote K.written K.faults sink.old sink.new (word.now ++ parts_text parts.now last.now) result }
{
    match write_text(sink, word) {
        Ok(()) => write_parts(parts, last, sink),
        Err(fault) => Err(fault),
    }
}

/// The last line.
#[tactic(auto, unfolding(definitions::specs::Endings::ending_text))]
pub fn write_ending<K: Sink>(ending: &Ending, sink: &mut K) -> Result<(), WriteFault>
    ensures { Wrote K.written K.faults sink.old sink.new (ending_text ending.now) result }
{
    match *ending {
        Ending::Usage => write_text(sink, b"usage: cbtc run, check, race, race trace or big N\n"),
        Ending::Done(n) => write_line(b"done", &[Number(n)], b"\n", sink),
        Ending::LineColumn(n, column) => {
            write_line(b"line", &[Number(n), Column(column)], b"\n", sink)
        }
        Ending::Rule(n, rule) => write_line(b"line", &[Number(n), Rule(rule)], b"\n", sink),
        Ending::ScriptColumn(n, column) => {
            write_line(b"script", &[Number(n), Column(column)], b"\n", sink)
        }
        Ending::Premise(n, premise) => write_line(
            b"premise",
            &[Number(n), Premise(premise)],
            b"\n",
            sink,
        ),
        Ending::Input => write_text(sink, b"limit input 67108864\n"),
        Ending::Trains => write_text(sink, b"limit trains 256\n"),
        Ending::Events => write_text(sink, b"limit events 200000\n"),
        Ending::Messages => write_text(sink, b"limit messages 998000\n"),
        Ending::Unbuilt(n) => write_line(b"unbuilt", &[Number(n)], b"\n", sink),
    }
}
