//! Writing a text line by its form.
ghost use Rattle.std.specs.Prelude.{◌≡◌, ◌<◌, ◌≤◌, ◌^◌, ◌++◌, ◌∷◌, [], ◌/◌, ◌%◌, ℕ, List, length, get_or};
ghost use Rattle.std.specs.Fmt.{decimal};
ghost use Rattle.arrayvec.specs.ArrayVec.{array_vec_len};
ghost use Rattle.edge_io.specs.Writing.{Wrote};
ghost use Rattle.text_forms.specs.Forms.{number_limit, part_text, PartFits, words_of, hex_digit, Says};
ghost use Rattle.text_forms.specs.Rows.{form_of, forms};
ghost use Rattle.form_codec.specs.Writing.{next_parts, text_on, FitOn, form_text};

use crate::words::spellings;
use arrayvec::ArrayVec;
use edge_io::stream::Sink;
use edge_io::writing::{WriteFault, write_text};
use text_forms::part::{Part, Words};
use text_forms::row::Row;

/// The text of one part.
type Text = ArrayVec<u8, 16>;

/// A number.
fn put_number(out: &mut Text, n: u64)
    requires small { n < number_limit }
    requires room { array_vec_len out.old ≤ 2 }
    ensures { out.new.items ≡ out.old.items ++ decimal n }
{
    let mut buffer = itoa::Buffer::new();
    let text = buffer.format(n).as_bytes();
    let _ = out.try_extend_from_slice(text);
}

/// A digit in base 16.
fn digit(d: u64) -> u8
    requires { d < 16 }
    ensures { result ≡ hex_digit d }
{
    if d < 10 { 48 + d as u8 } else { 87 + d as u8 }
}

/// A byte as two digits in base 16.
fn put_byte(out: &mut Text, v: u64)
    requires small { v < 256 }
    requires room { array_vec_len out.old ≤ 2 }
    ensures { out.new.items ≡ out.old.items ++ (hex_digit (v / 16) ∷ hex_digit (v % 16) ∷ []) }
{
    out.push(digit(v / 16));
    out.push(digit(v % 16));
}

/// A word of a set, by its place.
fn word_text(words: Words, v: u64) -> &'static [u8]
    requires { v < length (words_of words) }
    ensures text { result.now ≡ get_or (words_of words) v [] }
    ensures short { length result.now ≤ 16 }
{
    spellings(words)[v as usize]
}

/// The spelling of a part with its value.
#[tactic(auto, unfolding(text_forms::specs::Forms::part_text, text_forms::specs::Forms::PartFits))]
fn part_bytes(part: Part, v: u64) -> Text
    requires { PartFits part v }
    ensures { result.items ≡ part_text part v }
{
    let mut out: Text = ArrayVec::new();
    match part {
        Part::Number => {
            out.push(b' ');
            put_number(&mut out, v);
        }
        Part::Colon => {
            out.push(b':');
            put_number(&mut out, v);
        }
        Part::Signed => {
            out.push(b' ');
            if v < 10_000_000_000_000 {
                put_number(&mut out, v);
            } else {
                out.push(b'-');
                put_number(&mut out, v - 10_000_000_000_000);
            }
        }
        Part::Sign => out.push(if v == 0 { b'+' } else { b'-' }),
        Part::Word(words) => {
            let _ = out.try_extend_from_slice(word_text(words, v));
        }
        Part::FirstByte => {
            out.push(b' ');
            put_byte(&mut out, v);
        }
        Part::Byte => put_byte(&mut out, v),
    }
    out
}

/// A part.
fn write_part<K: Sink>(part: Part, v: u64, sink: &mut K) -> Result<(), WriteFault>
    requires { PartFits part v }
    ensures { Wrote K.written K.faults sink.old sink.new (part_text part v) result }
{
    let text = part_bytes(part, v);
    write_text(sink, text.as_slice())
}

/// The parts that come next.
fn next<'a>(group: &'a [Part], parts: &'a [Part]) -> &'a [Part]
    ensures { result.now ≡ next_parts group.now parts.now }
{
    match parts {
        [] => group,
        [_, ..] => parts,
    }
}

/// Values by their parts, and when those are through by the group again and again.
fn write_values<K: Sink>(
    group: &[Part],
    parts: &[Part],
    values: &[u64],
    sink: &mut K,
) -> Result<(), WriteFault>
    requires { FitOn group.now parts.now values.now }
    ensures { Wrote K.written K.faults sink.old sink.new (text_on group.now parts.now values.now) result }
{
    let [v, vs @ ..] = values else {
        return write_text(sink, b"");
    };
    let [p, ps @ ..] = next(group, parts) else {
        unreachable!();
    };
    match write_part(*p, *v, sink) {
        Ok(()) => write_values(group, ps, vs, sink),
        Err(fault) => Err(fault),
    }
}

/// A form's word and its values.
fn write_form<K: Sink>(row: &Row, values: &[u64], sink: &mut K) -> Result<(), WriteFault>
    requires { FitOn row.now.group.now row.now.parts.now values.now }
    ensures { Wrote K.written K.faults sink.old sink.new (form_text (form_of row.now) values.now) result }
{
    match write_text(sink, row.word) {
        Ok(()) => write_values(row.group, row.parts, values, sink),
        Err(fault) => Err(fault),
    }
}

/// Writes the spelling of a form of the table with its values, without an end of line. The table may be any.
pub fn write_line<K: Sink>(
    rows: &[Row],
    form: usize,
    values: &[u64],
    sink: &mut K,
) -> Result<(), WriteFault>
    // They have a spelling.
    requires { (text : List ℕ) × Says (forms rows.now) form values.now text }
    ensures { (text : List ℕ) → Says (forms rows.now) form values.now text → Wrote K.written K.faults sink.old sink.new text result }
{
    let row = rows[form];
    write_form(&row, values, sink)
}
