//! Whole documents, as they come out of the top call.

use crate::rows::split;
use crate::tests::tables::{ROWS, parts, tables};
use edge_io::memory::{SliceSource, VecSink};
use edge_io::stream::NoGate;
use std::alloc::{AllocError, Global};
use std::process::Abort;
use top_call::top::cbtc_top;

/// A number at the front of a text, and what stands behind it and a space.
fn counted(text: &str) -> (u32, &str) {
    let (count, rest) = split(text, ' ');
    (count.parse::<u32>().unwrap_or(0), rest)
}

/// The text of a part, without its last LF.
fn part(name: &str) -> &'static str {
    match parts().iter().find(|one| one.0 == name) {
        Some(found) => found.1,
        None => "no such part",
    }
}

/// Adds a text line.
fn add_text(all: &mut Vec<u8>, text: &str) -> Result<(), AllocError> {
    all.extend_from_slice(text.as_bytes())?;
    all.push(b'\n')?;
    Ok(())
}

/// Adds a text line so many times, with 1, 2 and so on in place of a `%`.
fn add_many(alloc: Global, all: &mut Vec<u8>, count: u32, text: &str) -> Result<(), AllocError> {
    let (front, rest) = split(text, '%');
    for before in 0..count {
        if rest.is_empty() {
            add_text(all, text)?;
        } else {
            let line = format!(in alloc; "{front}{}{rest}", before + 1)?;
            add_text(all, line.as_str())?;
        }
    }
    Ok(())
}

/// Adds a text line: a text and its last byte again, up to so many bytes.
fn add_filled(all: &mut Vec<u8>, size: u32, text: &str) -> Result<(), AllocError> {
    if let [.., last] = text.as_bytes() {
        all.extend_from_slice(text.as_bytes())?;
        for _ in text.len()..size as usize {
            all.push(*last)?;
        }
    }
    all.push(b'\n')?;
    Ok(())
}

/// Adds the text lines that a line of a table stands for.
fn add_line(alloc: Global, all: &mut Vec<u8>, line: &str) -> Result<(), AllocError> {
    let (word, rest) = split(line, ' ');
    let (count, text) = counted(rest);
    match word {
        "+" => add_text(all, part(rest)),
        "@" => add_many(alloc, all, count, text),
        "~" => add_filled(all, count, text),
        _ => add_text(all, line),
    }
}

/// The words that stand in a text.
fn words_of(alloc: Global, text: &str) -> Result<Vec<String>, AllocError> {
    let mut words = Vec::new(alloc);
    for word in text.split(' ') {
        if !word.is_empty() {
            words.push(String::from_str(alloc, word)?)?;
        }
    }
    Ok(words)
}

/// The source's call and the sink's that fail, from 1, or 0, and the bytes that the sink takes.
#[derive(Clone, Copy)]
struct Limits {
    read: u32,
    write: u32,
    room: u32,
}

/// None fails, and the sink takes 1000 bytes.
const LIMITS: Limits = Limits {
    read: 0,
    write: 0,
    room: 1000,
};

/// Whether the call with these words gives a status and a text.
fn gives(
    alloc: Global,
    words: &str,
    input: &[u8],
    limits: Limits,
    code: u32,
    text: &[u8],
) -> Result<bool, AllocError> {
    let words = words_of(alloc, words)?;
    let reads = [limits.read];
    let writes = [limits.write];
    let mut src = SliceSource::new(input, &reads);
    let mut sink = VecSink::new(alloc, limits.room as usize, &writes)?;
    let status = cbtc_top(alloc, words.as_slice(), &mut src, &mut sink, &NoGate);
    Ok(u32::from(status.code()) == code && sink.bytes() == text)
}

/// The row of a table that is read: its document, the limits of the call, its words and the status once they are told, and the
/// text that it is to give; and how many rows were tried.
#[derive(Drop)]
struct Rows {
    input: Vec<u8>,
    limits: Limits,
    call: Option<(&'static str, u32)>,
    text: Vec<u8>,
    tried: u32,
}

impl Rows {
    /// Tries the row, where one was read, and begins the next.
    fn try_row(&mut self, rt: &(impl Abort + Alloc<A = Global>)) -> Result<(), AllocError> {
        if let Some((words, code)) = self.call {
            let input = self.input.as_slice();
            let holds = gives(
                rt.alloc(),
                words,
                input,
                self.limits,
                code,
                self.text.as_slice(),
            )?;
            assert!(rt; holds, "row {}, from 0", self.tried);
            self.tried = self.tried.saturating_add(1);
        }
        self.input.clear();
        self.limits = LIMITS;
        self.call = None;
        self.text.clear();
        Ok(())
    }

    /// The limits of the call.
    fn limit(&mut self, told: &str) {
        let (read, rest) = counted(told);
        let (write, rest) = counted(rest);
        let (room, open) = counted(rest);
        self.limits = Limits { read, write, room };
        if open == "1" {
            let _ = self.input.pop();
        }
    }

    /// The end of the document: a call of these words is to give the status that is told.
    fn give(&mut self, words: &'static str, told: &str) {
        self.call = Some((words, counted(told).0));
    }

    /// Adds text lines of the document, or once the call is told of the text that it gives.
    fn add_text(&mut self, alloc: Global, line: &str) -> Result<(), AllocError> {
        if self.call.is_none() {
            add_line(alloc, &mut self.input, line)
        } else {
            add_line(alloc, &mut self.text, line)
        }
    }

    /// Adds a line that is no begin of a row.
    fn add(&mut self, alloc: Global, line: &'static str) -> Result<(), AllocError> {
        let (word, rest) = split(line, ' ');
        match word {
            "!" => self.limit(rest),
            "-" => self.give("run", rest),
            "*" => self.give("check", rest),
            "$" => self.give(counted(rest).1, rest),
            "/" => {}
            _ => return self.add_text(alloc, line),
        }
        Ok(())
    }

    /// The rows of tables.
    fn try_rows(
        &mut self,
        rt: &(impl Abort + Alloc<A = Global>),
        tables: &'static str,
    ) -> Result<(), AllocError> {
        for line in tables.split('\n') {
            if line.starts_with("= ") {
                self.try_row(rt)?;
            } else {
                self.add(rt.alloc(), line)?;
            }
        }
        self.try_row(rt)
    }
}

#[test]
fn documents_of_the_tables(rt: HostRuntime) -> Result<(), AllocError> {
    let mut rows = Rows {
        input: Vec::new(rt.alloc()),
        limits: LIMITS,
        call: None,
        text: Vec::new(rt.alloc()),
        tried: 0,
    };
    rows.try_rows(&rt, tables())?;
    assert!(rt; rows.tried == ROWS);
    Ok(())
}
