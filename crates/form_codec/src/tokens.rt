//! Reading a number, a sign or a byte from the front of a text: the value and what follows, or how many bytes are left where
//! nothing continues.
ghost use Rattle.std.specs.Prelude.{◌≡◌, ◌+◌, ◌-◌, ◌*◌, ◌<◌, ◌≤◌, ◌^◌, IfOk};
ghost use Rattle.text_forms.specs.Reading.{byte_at, digits_at, number_at, signed_at, sign_at, hex_digit_at, hex_at};
ghost use Rattle.form_codec.specs.Finding.{digits_packed};
ghost use Rattle.form_codec.specs.Sees.{Sees};

/// A byte.
#[tactic(auto, unfolding(text_forms::specs::Reading::byte_at))]
pub(crate) fn byte(want: u8, bytes: &[u8]) -> Result<&[u8], usize>
    ensures { Sees (λ x. x.now) result (byte_at want bytes.now) }
{
    let [first, rest @ ..] = bytes else {
        return Err(0);
    };
    if *first == want {
        Ok(rest)
    } else {
        Err(bytes.len())
    }
}

/// Further digits of a number, at most `more`: 16 times the number, and how many digits there are. They are one number, so that
/// the recursion is a loop of the machine.
#[tactic(auto, unfolding(crate::specs::Finding::digits_packed))]
fn digits(so_far: u64, count: u64, more: u64, bytes: &[u8]) -> u64
    requires small { so_far < 10 ^ (13 - more) }
    requires most { more < 13 }
    requires few { count + more < 13 }
    ensures value { result ≡ digits_packed so_far count more bytes.now }
    ensures most { result < 16 * 10 ^ 13 }
{
    let [byte, rest @ ..] = bytes else {
        return 16 * so_far + count;
    };
    match *byte {
        b'0'..=b'9' => {
            if more == 0 {
                return 16 * so_far + count;
            }
            let digit = u64::from(*byte - b'0');
            digits(10 * so_far + digit, count + 1, more - 1, rest)
        }
        _ => 16 * so_far + count,
    }
}

/// Further digits of a number, at most `more`.
fn digits_of(so_far: u64, more: u64, bytes: &[u8]) -> (u64, &[u8])
    requires small { so_far < 10 ^ (13 - more) }
    requires most { more < 13 }
    ensures value { (result.0, result.1.now) ≡ digits_at so_far more bytes.now }
    ensures most { result.0 < 10 ^ 13 }
{
    let packed = digits(so_far, 0, more, bytes);
    let (_, rest) = bytes.split_at((packed % 16) as usize);
    (packed / 16, rest)
}

/// A number whose first digit is at least that of `least`.
#[tactic(auto, unfolding(text_forms::specs::Reading::number_at))]
pub(crate) fn number(least: u8, bytes: &[u8]) -> Result<(u64, &[u8]), usize>
    requires { least ≤ 1 }
    ensures value { Sees (λ x. (x.0, x.1.now)) result (number_at least bytes.now) }
    ensures most { IfOk result (λ x. x.0 < 10 ^ 13) }
{
    let [first, rest @ ..] = bytes else {
        return Err(0);
    };
    if first.is_ascii_digit() && 48 + least <= *first {
        let more = if *first == b'0' { 0 } else { 12 };
        Ok(digits_of(u64::from(*first - b'0'), more, rest))
    } else {
        Err(bytes.len())
    }
}

/// A number that may have a `-` before it.
#[tactic(auto, unfolding(text_forms::specs::Reading::signed_at))]
pub(crate) fn signed(bytes: &[u8]) -> Result<(u64, &[u8]), usize>
    ensures { Sees (λ x. (x.0, x.1.now)) result (signed_at bytes.now) }
{
    let [first, rest @ ..] = bytes else {
        return Err(0);
    };
    if *first == b'-' {
        let (n, rest) = number(1, rest)?;
        Ok((n + 10_000_000_000_000, rest))
    } else {
        number(0, bytes)
    }
}

/// A sign.
#[tactic(auto, unfolding(text_forms::specs::Reading::sign_at))]
pub(crate) fn sign(bytes: &[u8]) -> Result<(u64, &[u8]), usize>
    ensures { Sees (λ x. (x.0, x.1.now)) result (sign_at bytes.now) }
{
    let [first, rest @ ..] = bytes else {
        return Err(0);
    };
    if *first == b'+' {
        Ok((0, rest))
    } else if *first == b'-' {
        Ok((1, rest))
    } else {
        Err(bytes.len())
    }
}

/// A digit in base 16.
#[tactic(auto, unfolding(text_forms::specs::Reading::hex_digit_at))]
fn hex_digit(bytes: &[u8]) -> Result<(u64, &[u8]), usize>
    ensures value { Sees (λ x. (x.0, x.1.now)) result (hex_digit_at bytes.now) }
    ensures most { IfOk result (λ x. x.0 < 16) }
{
    let [first, rest @ ..] = bytes else {
        return Err(0);
    };
    match *first {
        b'0'..=b'9' => Ok((u64::from(*first - b'0'), rest)),
        b'a'..=b'f' => Ok((u64::from(*first - 87), rest)),
        _ => Err(bytes.len()),
    }
}

/// A byte as two digits in base 16.
#[tactic(auto, unfolding(text_forms::specs::Reading::hex_at))]
pub(crate) fn hex(bytes: &[u8]) -> Result<(u64, &[u8]), usize>
    ensures { Sees (λ x. (x.0, x.1.now)) result (hex_at bytes.now) }
{
    let (high, rest) = hex_digit(bytes)?;
    let (low, rest) = hex_digit(rest)?;
    Ok((16 * high + low, rest))
}
