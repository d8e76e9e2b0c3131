//! Rows of tables as text.

use arrayvec::ArrayVec;

/// The numbers at the front of a row, with a space between two; at most eight.
pub fn numbers(row: &str) -> ArrayVec<u32, 8> {
    let mut out = ArrayVec::new();
    for word in row.split(' ') {
        match word.parse::<u32>() {
            Ok(number) => {
                let _ = out.try_push(number);
            }
            Err(_) => break,
        }
    }
    out
}

/// What stands in front of the first such letter and what stands behind it; all and nothing where it is not there.
pub fn split(text: &str, letter: char) -> (&str, &str) {
    text.split_once(letter).unwrap_or((text, ""))
}
