//! A document as it comes, in pieces.
ghost use Rattle.std.specs.Prelude.{◌≡◌, ◌+◌, ◌-◌, ◌<◌, ◌≤◌, ◌^◌, [], ◌++◌, IfOk, OnOk, length, take};
ghost use Rattle.definitions.specs.Trace.{text_read, input_limit};
ghost use Rattle.byte_feed.specs.Feed.{opened, kept_run, feds, feds_text, fed_gives, closed};
ghost use Rattle.run_engine.specs.Shown.{reading_shown, Small};
ghost use Rattle.run_engine.specs.Feeding.{feed_shown, Within};
ghost use Rattle.run_engine.specs.Does.{Does};
ghost use Rattle.run_engine.specs.Sends.{Sends};
ghost use Rattle.run_engine.specs.Ahead.{LiesAhead, taken};

use crate::output::{Fault, ROOM, flush, give_up, send_read};
use crate::stage::{INPUT_LIMIT, Reading, Room};
use arrayvec::ArrayVec;
use definitions::document::{Command, Ending};
use edge_io::buffer::TextBuffer;
use edge_io::stream::Sink;
use memchr::memchr;
use outcome_text::write_ending;
use std::alloc::{AllocError, Global};

/// The bytes of a text line that tell what it says: the longest that has a form, and one more.
const TELLING: usize = 4097;

/// The front of a run that fits the room.
#[tactic(auto, using(std::proofs::lemmas::List::take_min))]
fn front(run: &[u8], room: usize) -> &[u8]
    ensures { result.now ≡ take room run.now }
{
    let (front, _) = run.split_at(room.min(run.len()));
    front
}

/// The text line that has begun: its first bytes, and how many it has.
#[derive(Drop)]
struct Begun {
    kept: ArrayVec<u8, TELLING>,
    size: u64,
}

impl Begun {
    /// Adds a run of bytes.
    fn add(&mut self, run: &[u8])
        requires { self.old.size + length run.now ≤ input_limit }
        ensures kept { self.new.kept.items ≡ kept_run self.old.kept.items run.now }
        ensures size { self.new.size ≡ self.old.size + length run.now }
    {
        let fits = front(run, self.kept.remaining_capacity());
        let Ok(()) = self.kept.try_extend_from_slice(fits) else {
            unreachable!()
        };
        self.size += run.len() as u64;
    }

    /// No text line has begun.
    fn clear(&mut self)
        ensures { (self.new.kept.items ≡ []) × (self.new.size ≡ 0) }
    {
        self.kept.clear();
        self.size = 0;
    }
}

/// What lies ahead in a piece.
enum Ahead {
    /// A text line that ends with the LF at this place.
    Line(usize),

    /// Bytes without an LF, within the limit on the input.
    Run,

    /// A text line that goes on past the limit.
    Past,
}

/// What lies ahead in the rest of a piece, where so many bytes are left up to the limit.
fn look_ahead(rest: &[u8], left: u64) -> Ahead
    ensures { LiesAhead left rest.now result }
{
    match memchr(b'\n', rest) {
        Some(at) => {
            if (at as u64) < left {
                Ahead::Line(at)
            } else {
                Ahead::Past
            }
        }
        None => {
            if rest.len() as u64 <= left {
                Ahead::Run
            } else {
                Ahead::Past
            }
        }
    }
}

/// The whole text lines so far, and room for what a text line gives and for the text that is pending inside a call.
#[derive(Drop)]
struct Teller {
    reading: Reading,
    room: Room,
    pending: TextBuffer,
}

impl Teller {
    /// No text line was read.
    fn start(alloc: Global, command: Command) -> Result<Teller, AllocError>
        ensures { IfOk result (λ t. reading_shown t.reading ≡ Rattle.definitions.specs.Trace.start command) }
    {
        Ok(Teller {
            pending: TextBuffer::new(alloc, ROOM)?,
            room: Room::new(alloc)?,
            reading: Reading::start(alloc, command)?,
        })
    }

    /// A text line of so many bytes.
    fn tell<K: Sink>(
        &mut self,
        alloc: Global,
        size: u64,
        text: &[u8],
        sink: &mut K,
    ) -> Result<(), Fault>
        requires small { Small (reading_shown self.old.reading) }
        requires some { 1 ≤ size }
        requires bound { size ≤ input_limit + 1 }
        ensures sends { Sends K.written K.faults sink.old sink.new self.old.pending.text self.new.pending.text (text_read (reading_shown self.old.reading) size text.now).text result }
        ensures next { OnOk result (reading_shown self.new.reading ≡ (text_read (reading_shown self.old.reading) size text.now).next) }
        ensures small { OnOk result (Small (reading_shown self.new.reading)) }
    {
        self.room.lines.clear();
        match self.reading.text(alloc, size, text, &mut self.room) {
            Ok(reads) => send_read(
                reads,
                self.room.lines.as_slice(),
                text,
                &mut self.pending,
                sink,
            ),
            Err(_) => Err(Fault::Memory),
        }
    }
}

/// The whole text lines so far, and the text line that has begun.
#[derive(Drop)]
pub struct Feed {
    teller: Teller,
    begun: Begun,
}

impl Feed {
    /// A document of which nothing has come.
    pub fn start(alloc: Global, command: Command) -> Result<Feed, AllocError>
        ensures start { IfOk result (λ f. feed_shown f ≡ opened (Rattle.definitions.specs.Trace.start command)) }
        ensures within { IfOk result (λ f. Within (feed_shown f)) }
    {
        Ok(Feed {
            teller: Teller::start(alloc, command)?,
            begun: Begun {
                kept: ArrayVec::new(),
                size: 0,
            },
        })
    }

    /// Lets the feed go.
    pub fn release(self) {
        self.teller.reading.stage.release();
    }

    /// Whether a text line has given an answer.
    pub fn is_over(&self) -> bool
        ensures { result ≡ Rattle.definitions.specs.Trace.is_over (feed_shown self.now).reading.stage }
    {
        self.teller.reading.is_over()
    }

    /// A text line of so many bytes from a piece, where none had begun.
    fn run_line<K: Sink>(
        &mut self,
        alloc: Global,
        size: u64,
        run: &[u8],
        sink: &mut K,
    ) -> Result<(), Fault>
        requires within { Within (feed_shown self.old) }
        requires some { 1 ≤ size }
        requires bound { size ≤ input_limit + 1 }
        ensures sends { Sends K.written K.faults sink.old sink.new self.old.teller.pending.text self.new.teller.pending.text (text_read (feed_shown self.old).reading size (take 4097 run.now)).text result }
        ensures next { OnOk result (feed_shown self.new ≡ opened (text_read (feed_shown self.old).reading size (take 4097 run.now)).next) }
        ensures within { OnOk result (Within (feed_shown self.new)) }
    {
        self.begun.clear();
        self.teller.tell(alloc, size, front(run, TELLING), sink)
    }

    /// The text line that has begun, of so many bytes.
    fn begun_line<K: Sink>(&mut self, alloc: Global, size: u64, sink: &mut K) -> Result<(), Fault>
        requires within { Small (feed_shown self.old).reading }
        requires some { 1 ≤ size }
        requires bound { size ≤ input_limit + 1 }
        ensures sends { Sends K.written K.faults sink.old sink.new self.old.teller.pending.text self.new.teller.pending.text (text_read (feed_shown self.old).reading size self.old.begun.kept.items).text result }
        ensures next { OnOk result (feed_shown self.new ≡ opened (text_read (feed_shown self.old).reading size self.old.begun.kept.items).next) }
        ensures within { OnOk result (Within (feed_shown self.new)) }
    {
        let told = self
            .teller
            .tell(alloc, size, self.begun.kept.as_slice(), sink);
        self.begun.clear();
        told
    }

    /// The text line that ends with a run, of so many bytes.
    fn text_line<K: Sink>(
        &mut self,
        alloc: Global,
        size: u64,
        run: &[u8],
        sink: &mut K,
    ) -> Result<(), Fault>
        requires within { Within (feed_shown self.old) }
        requires some { 1 ≤ size }
        requires bound { size ≤ input_limit + 1 }
        requires run { (feed_shown self.old).reading.bytes + self.old.begun.size + length run.now ≤ input_limit }
        ensures sends { Sends K.written K.faults sink.old sink.new self.old.teller.pending.text self.new.teller.pending.text (text_read (feed_shown self.old).reading size (kept_run self.old.begun.kept.items run.now)).text result }
        ensures next { OnOk result (feed_shown self.new ≡ opened (text_read (feed_shown self.old).reading size (kept_run self.old.begun.kept.items run.now)).next) }
        ensures within { OnOk result (Within (feed_shown self.new)) }
    {
        if self.begun.kept.is_empty() {
            return self.run_line(alloc, size, run, sink);
        }
        self.begun.add(run);
        self.begun_line(alloc, size, sink)
    }

    /// The first text line of the rest of a piece, or what there is of it: how many bytes were taken.
    fn line<K: Sink>(&mut self, alloc: Global, rest: &[u8], sink: &mut K) -> Result<usize, Fault>
        requires within { Within (feed_shown self.old) }
        requires some { 1 ≤ length rest.now }
        ensures sends { Sends K.written K.faults sink.old sink.new self.old.teller.pending.text self.new.teller.pending.text (feds_text (feed_shown self.old) (taken rest.now result)) result }
        ensures next { OnOk result (feed_shown self.new ≡ feds (feed_shown self.old) (taken rest.now result)) }
        ensures within { OnOk result (Within (feed_shown self.new)) }
        ensures count { IfOk result (λ count. (1 ≤ count) × (count ≤ length rest.now)) }
    {
        if self.teller.reading.is_over() {
            return Ok(rest.len());
        }
        match look_ahead(
            rest,
            INPUT_LIMIT - self.teller.reading.bytes - self.begun.size,
        ) {
            Ahead::Line(at) => {
                let (run, _) = rest.split_at(at);
                match self.text_line(alloc, self.begun.size + (at as u64 + 1), run, sink) {
                    Ok(()) => Ok(at + 1),
                    Err(fault) => Err(fault),
                }
            }
            Ahead::Run => {
                self.begun.add(rest);
                Ok(rest.len())
            }
            Ahead::Past => {
                match self.text_line(
                    alloc,
                    INPUT_LIMIT + 1 - self.teller.reading.bytes,
                    &[],
                    sink,
                ) {
                    Ok(()) => Ok(rest.len()),
                    Err(fault) => Err(fault),
                }
            }
        }
    }

    /// The text lines of a piece.
    fn text_lines<K: Sink>(
        &mut self,
        alloc: Global,
        piece: &[u8],
        sink: &mut K,
    ) -> Result<(), Fault>
        requires within { Within (feed_shown self.old) }
        ensures sends { Sends K.written K.faults sink.old sink.new self.old.teller.pending.text self.new.teller.pending.text (feds_text (feed_shown self.old) piece.now) result }
        ensures next { OnOk result (feed_shown self.new ≡ feds (feed_shown self.old) piece.now) }
        ensures within { OnOk result (Within (feed_shown self.new)) }
    {
        let mut done = 0;
        while done < piece.len() {
            let (_, rest) = piece.split_at(done);
            match self.line(alloc, rest, sink) {
                Ok(count) => done += count,
                Err(fault) => return Err(fault),
            }
        }
        Ok(())
    }

    /// A piece. The text lines that end in it are written in one call of the sink, and one more for each 64 KB of text, where
    /// the sink takes whole pieces.
    pub fn take<K: Sink>(&mut self, alloc: Global, piece: &[u8], sink: &mut K) -> Result<(), Fault>
        requires within { Within (feed_shown self.old) }
        ensures does { Does K.written K.faults sink.old sink.new (feds_text (feed_shown self.old) piece.now) result }
        ensures next { OnOk result (feed_shown self.new ≡ feds (feed_shown self.old) piece.now) }
        ensures within { OnOk result (Within (feed_shown self.new)) }
    {
        self.teller.pending.clear();
        match self.text_lines(alloc, piece, sink) {
            Ok(()) => match flush(&mut self.teller.pending, sink) {
                Ok(()) => Ok(()),
                Err(_) => Err(Fault::Write),
            },
            Err(fault) => Err(give_up(fault, &mut self.teller.pending, sink)),
        }
    }

    /// What has begun, as the last text line.
    fn close<K: Sink>(&mut self, alloc: Global, sink: &mut K) -> Result<(), Fault>
        requires within { Within (feed_shown self.old) }
        ensures sends { Sends K.written K.faults sink.old sink.new self.old.teller.pending.text self.new.teller.pending.text (closed (feed_shown self.old)).text result }
        ensures next { OnOk result (reading_shown self.new.teller.reading ≡ (closed (feed_shown self.old)).next) }
        ensures within { OnOk result (Within (feed_shown self.new)) }
    {
        if self.begun.size == 0 {
            return Ok(());
        }
        self.text_line(alloc, self.begun.size, &[], sink)
    }

    /// The text of what has begun, and the last line.
    fn last_lines<K: Sink>(&mut self, alloc: Global, sink: &mut K) -> Result<Ending, Fault>
        requires within { Within (feed_shown self.old) }
        ensures sends { Sends K.written K.faults sink.old sink.new self.old.teller.pending.text self.new.teller.pending.text (fed_gives (feed_shown self.old) []).text result }
        ensures ending { IfOk result (λ e. e ≡ (fed_gives (feed_shown self.old) []).ending) }
    {
        match self.close(alloc, sink) {
            Ok(()) => {
                let ending = self.teller.reading.end();
                match write_ending(&ending, &mut self.teller.pending) {
                    Ok(()) => Ok(ending),
                    Err(_) => Err(Fault::Memory),
                }
            }
            Err(fault) => Err(fault),
        }
    }

    /// The end of the input.
    pub fn end<K: Sink>(&mut self, alloc: Global, sink: &mut K) -> Result<Ending, Fault>
        requires within { Within (feed_shown self.old) }
        ensures does { Does K.written K.faults sink.old sink.new (fed_gives (feed_shown self.old) []).text result }
        ensures ending { IfOk result (λ e. e ≡ (fed_gives (feed_shown self.old) []).ending) }
    {
        self.teller.pending.clear();
        match self.last_lines(alloc, sink) {
            Ok(ending) => match flush(&mut self.teller.pending, sink) {
                Ok(()) => Ok(ending),
                Err(_) => Err(Fault::Write),
            },
            Err(fault) => Err(give_up(fault, &mut self.teller.pending, sink)),
        }
    }
}
