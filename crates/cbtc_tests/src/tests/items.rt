//! Items as text, and the columns of texts that are none.

use crate::rows::split;
use edge_io::buffer::TextBuffer;
use line_text::{read_line_item, write_item};
use std::alloc::AllocError;
use std::process::Abort;

/// An item of each form, and the shortest and the longest of those with lists.
const ITEMS: &str = "zone 1
zone 0
zone 9999999999999
segment 1 1 100
joint 1+ 2-
switch 1 3+ 4- 5- 10
portal 1-
buffer 32767+
section 1 1:0:5
section 1 1:0:5 2:0:5 3:0:5
block 1 + 2
block 7 - 1 2 3 4 5 6 7 8 9 10 11 12 13 14 15 16
brake 50 0 1000
silent 5000";

/// The column of each text, and the text.
const REFUSED: &str = "1\x20
1 #
1  zone 1
1 Zone 1
2 scrip
2 script x
4 seg
4 segx
5 zone
5 zonex
5 zone\t1
6 zone\x20
6 zone  1
7 zone 01
7 zone 1\x20
7 zone 1\r
7 zone 1x
19 zone 12345678901234
12 segment 1 1
8 joint 1 + 2-
9 joint 1+2-
11 joint 1+ 1
18 switch 1 2+ 3- 4-
9 portal 1
7 sectio
10 section 1
14 section 1 1:0
14 section 1 1:00:5
28 section 1 1:0:5 1:5:6 1:6:7 1:7:8
9 block 1 x
10 block 1 +
42 block 1 + 1 1 1 1 1 1 1 1 1 1 1 1 1 1 1 1 1
11 brake 50 0
8 silent -1";

/// The column at which a text is refused; 0 where it is an item.
fn column(text: &[u8]) -> u32 {
    match read_line_item(text) {
        Ok(_) => 0,
        Err(fault) => fault.column,
    }
}

/// Whether a text is an item, which is written as that text.
fn is_written_back(text: &[u8], out: &mut TextBuffer) -> bool {
    match read_line_item(text) {
        Ok(item) => {
            out.clear();
            write_item(&item, out).is_ok() && out.as_slice() == text
        }
        Err(_) => false,
    }
}

/// Whether a text is refused at the column that a row tells.
fn is_refused(row: &str) -> bool {
    let (told, text) = split(row, ' ');
    told.parse::<u32>().ok() == Some(column(text.as_bytes()))
}

/// Items are read and written back.
fn try_items(rt: &impl Abort, out: &mut TextBuffer) {
    for text in ITEMS.split('\n') {
        assert!(rt; is_written_back(text.as_bytes(), out), "{text}");
    }
}

#[test]
fn items_are_read_and_written_back(rt: HostRuntime) -> Result<(), AllocError> {
    let mut out = TextBuffer::new(rt.alloc(), 100)?;
    try_items(&rt, &mut out);
    Ok(())
}

#[test]
fn others_are_refused_at_their_columns(rt: HostRuntime) {
    for row in REFUSED.split('\n') {
        assert!(rt; is_refused(row), "{row}");
    }
    let mut long = [b' '; 4097];
    long[..6].copy_from_slice(b"zone 1");
    assert!(rt; column(&long) == 7);
}
