//! Reading a text line by a table of forms.
ghost use Rattle.std.specs.Prelude.{◌≡◌, ◌+◌, ◌*◌, ◌<◌, ◌≤◌, ◌^◌, ◌%◌, IfOk, IfErr, OnOk, length, ℕ, List, Ok, Err, true};
ghost use Rattle.arrayvec.specs.ArrayVec.{array_vec_len};
ghost use Rattle.text_forms.specs.Forms.{words, Says, IsText};
ghost use Rattle.text_forms.specs.Language.{IsRefused, most_bytes};
ghost use Rattle.text_forms.specs.Reading.{word_at, part_at, parts_at, groups_at, fields_at, fields_in, form_at, line_at};
ghost use Rattle.text_forms.specs.Rows.{form_of, forms};
ghost use Rattle.text_forms.specs.Tables.{is_table, has_room};
ghost use Rattle.form_codec.specs.Finding.{find_at, best_of};
ghost use Rattle.form_codec.specs.Sees.{Sees, SeesForm, PutRest, PutCode, PutAll, PutForm};

use crate::fault::TextFault;
use crate::tokens::{byte, hex, number, sign, signed};
use crate::words::{common, spellings, word};
use arrayvec::ArrayVec;
use text_forms::part::Part;
use text_forms::row::Row;

/// The values of a text line, one for each part.
pub type Values = ArrayVec<u64, 2048>;

/// A part.
#[tactic(auto, unfolding(text_forms::specs::Reading::part_at))]
fn part(part: Part, bytes: &[u8]) -> Result<(u64, &[u8]), usize>
    ensures { Sees (λ x. (x.0, x.1.now)) result (part_at part bytes.now) }
{
    match part {
        Part::Number => {
            let rest = byte(b' ', bytes)?;
            number(0, rest)
        }
        Part::Colon => {
            let rest = byte(b':', bytes)?;
            number(0, rest)
        }
        Part::Signed => {
            let rest = byte(b' ', bytes)?;
            signed(rest)
        }
        Part::Sign => sign(bytes),
        Part::Word(words) => word(spellings(words), bytes),
        Part::FirstByte => {
            let rest = byte(b' ', bytes)?;
            hex(rest)
        }
        Part::Byte => hex(bytes),
    }
}

/// Parts, whose values are put after those before: twice how many bytes are left, and 1 more at an error. That is one number, so
/// that the recursion is a loop of the machine.
#[tactic(auto, unfolding(text_forms::specs::Reading::parts_at))]
fn parts_left(parts: &[Part], values: &mut Values, bytes: &[u8]) -> usize
    requires { array_vec_len values.old + length parts.now ≤ 2048 }
    ensures read { PutCode values.old.items values.new.items result (parts_at parts.now bytes.now) }
    ensures most { result % 2 ≡ 0 → array_vec_len values.new ≡ array_vec_len values.old + length parts.now }
    ensures within { result ≤ 2 * length bytes.now + 1 }
{
    let [first, others @ ..] = parts else {
        return 2 * bytes.len();
    };
    match part(*first, bytes) {
        Ok((value, rest)) => {
            values.push(value);
            parts_left(others, values, rest)
        }
        Err(left) => 2 * left + 1,
    }
}

/// Parts, whose values are put after those before; at an error some of them may have been put.
fn parts_of<'a>(parts: &[Part], values: &mut Values, bytes: &'a [u8]) -> Result<&'a [u8], usize>
    requires { array_vec_len values.old + length parts.now ≤ 2048 }
    ensures read { PutRest values.old.items values.new.items result (parts_at parts.now bytes.now) }
    ensures most { OnOk result (array_vec_len values.new ≡ array_vec_len values.old + length parts.now) }
{
    let code = parts_left(parts, values, bytes);
    let left = code / 2;
    if code % 2 == 0 {
        let (_, rest) = bytes.split_at(bytes.len() - left);
        Ok(rest)
    } else {
        Err(left)
    }
}

/// A group of parts that comes between so many and so many times, to the end of the text.
#[tactic(auto, unfolding(text_forms::specs::Reading::groups_at))]
fn groups(
    group: &[Part],
    least: usize,
    most: usize,
    values: &mut Values,
    bytes: &[u8],
) -> Result<(), usize>
    requires { array_vec_len values.old + most * length group.now ≤ 2048 }
    ensures { PutAll values.old.items values.new.items result (groups_at group.now least most bytes.now) }
{
    if bytes.is_empty() {
        return if least == 0 { Ok(()) } else { Err(0) };
    }
    if most == 0 {
        return Err(bytes.len());
    }
    match parts_of(group, values, bytes) {
        Ok(rest) => groups(group, least.saturating_sub(1), most - 1, values, rest),
        Err(left) => Err(left),
    }
}

/// The fields of a form, after its word.
#[tactic(auto, unfolding(text_forms::specs::Reading::fields_at))]
fn fields(row: &Row, values: &mut Values, bytes: &[u8]) -> Result<(), usize>
    requires { array_vec_len values.old + (length row.now.parts.now + row.now.most * length row.now.group.now) ≤ 2048 }
    ensures { PutAll values.old.items values.new.items result (fields_at (form_of row.now) bytes.now) }
{
    match parts_of(row.parts, values, bytes) {
        Ok(rest) => groups(row.group, row.least, row.most, values, rest),
        Err(left) => Err(left),
    }
}

/// The fields of the form of this place in the table.
#[tactic(auto, unfolding(text_forms::specs::Reading::fields_in))]
fn fields_of(rows: &[Row], form: usize, values: &mut Values, bytes: &[u8]) -> Result<(), usize>
    requires below { form < length rows.now }
    requires room { has_room (forms rows.now) ≡ true }
    requires none { array_vec_len values.old ≡ 0 }
    ensures { PutAll values.old.items values.new.items result (fields_in (forms rows.now) form bytes.now) }
{
    let row = rows[form];
    fields(&row, values, bytes)
}

/// The place of the row with whose word the text begins, and `k` more.
#[tactic(auto, unfolding(crate::specs::Finding::find_at))]
fn find_row(k: usize, rows: &[Row], bytes: &[u8]) -> usize
    requires { k + length rows.now < 2 ^ 64 }
    ensures value { result ≡ k + find_at (words (forms rows.now)) bytes.now }
    ensures most { result ≤ k + length rows.now }
{
    let [row, others @ ..] = rows else {
        return k;
    };
    if common(0, row.word, bytes) == row.word.len() {
        k
    } else {
        find_row(k + 1, others, bytes)
    }
}

/// The most that a row's word and the text have in common.
#[tactic(auto, unfolding(crate::specs::Finding::best_of))]
fn best_row(longest: usize, rows: &[Row], bytes: &[u8]) -> usize
    requires { longest ≤ length bytes.now }
    ensures value { result ≡ best_of longest (words (forms rows.now)) bytes.now }
    ensures most { result ≤ length bytes.now }
{
    let [row, others @ ..] = rows else {
        return longest;
    };
    let both = common(0, row.word, bytes);
    let longest = if both < longest { longest } else { both };
    best_row(longest, others, bytes)
}

/// The place of the row with whose word the text begins, and what follows the word.
fn row_at<'a>(rows: &[Row], bytes: &'a [u8]) -> Result<(usize, &'a [u8]), usize>
    ensures { Sees (λ x. (x.0, x.1.now)) result (word_at 0 0 (words (forms rows.now)) bytes.now) }
{
    let k = find_row(0, rows, bytes);
    if k < rows.len() {
        let (_, rest) = bytes.split_at(rows[k].word.len());
        Ok((k, rest))
    } else {
        Err(bytes.len() - best_row(0, rows, bytes))
    }
}

/// A text line of any length; the values take the place of those that were there.
#[tactic(auto, unfolding(text_forms::specs::Reading::line_at))]
fn line_of(rows: &[Row], values: &mut Values, text: &[u8]) -> Result<usize, usize>
    requires { has_room (forms rows.now) ≡ true }
    ensures { PutForm values.new.items result (line_at (forms rows.now) text.now) }
{
    values.clear();
    match row_at(rows, text) {
        Ok((form, rest)) => match fields_of(rows, form, values, rest) {
            Ok(()) => Ok(form),
            Err(left) => Err(left),
        },
        Err(left) => Err(left),
    }
}

/// Reads a text line by a table of forms: answers the place of its form, and puts its values in place of those that were
/// there. After an error the values may be any.
pub fn read_line(rows: &[Row], values: &mut Values, text: &[u8]) -> Result<usize, TextFault>
    requires room { has_room (forms rows.now) ≡ true }
    requires table { is_table (forms rows.now) ≡ true }
    // It answers what reading by the table gives.
    ensures read { SeesForm values.new.items result (form_at (forms rows.now) text.now) }
    // What is read is spelled so.
    ensures said { IfOk result (λ i. Says (forms rows.now) i values.new.items text.now × (length text.now ≤ most_bytes)) }
    // What is spelled so is read.
    ensures only { (i : ℕ) (vs : List ℕ) → Says (forms rows.now) i vs text.now → length text.now ≤ most_bytes → (result ≡ Ok i) × (values.new.items ≡ vs) }
    // The column is one at which the grammar refuses the text.
    ensures refused { IfErr result (λ fault. IsRefused (IsText (forms rows.now)) text.now fault.column) }
    // A text that the grammar refuses is refused, at that column.
    ensures column { (k : ℕ) → IsRefused (IsText (forms rows.now)) text.now k → result ≡ Err (record { column = k }) }
{
    match line_of(rows, values, text) {
        Ok(form) => {
            if text.len() <= 4096 {
                Ok(form)
            } else {
                Err(TextFault { column: 4097 })
            }
        }
        Err(left) => {
            let column = text.len() - left + 1;
            if column <= 4097 {
                Err(TextFault {
                    column: column as u32,
                })
            } else {
                Err(TextFault { column: 4097 })
            }
        }
    }
}
