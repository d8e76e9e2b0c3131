//! The column of a field.
ghost use Rattle.std.specs.Prelude.{◌≡◌, ◌≤◌, length};
ghost use Rattle.definitions.specs.EventFields.{field_column};

/// The column of the field that has so many spaces before it.
pub(crate) fn column_of(fields: usize, text: &[u8]) -> u32
    requires { length text.now ≤ 4096 }
    ensures { result ≡ field_column fields text.now }
{
    let mut before = 0;
    let mut left = fields;
    for byte in text {
        if left == 0 {
            break;
        }
        before += 1;
        if *byte == b' ' {
            left -= 1;
        }
    }
    before + 1
}
