// Numbers in decimal digits.
ghost use Rattle.std.specs.Prelude.{◌≡◌, ◌+◌, ◌^◌, ◌<◌, ◌≤◌, true, length, IfOk};
ghost use Rattle.std.specs.Str.{all_ascii_digits};
ghost use Rattle.semantics.specs.Numbers.{is_numeral, value_of};
ghost use Rattle.semantics.specs.Values.{number_at, constant_in, below};
ghost use Rattle.text.specs.Parts.{piece_of};
ghost use Rattle.text.specs.Digits.{up_to_max};

use crate::part::Part;
use semantics::refusal::Fault;

// Classes, points, labels, locals and temporaries run to this.
pub const MAX_NUMBER: u8 = 63;

pub const MAX_NAME: u8 = 255;

const MAX_CONSTANT: u32 = 2147483647;

const MAX_BELOW: u32 = 2147483648;

// Whether the bytes are digits, with no 0 in front of others.
fn is_numeral(bytes: &[u8]) -> bool
    ensures { result ≡ is_numeral bytes.now }
{
    match bytes {
        [] => false,
        [b'0', rest @ ..] => rest.is_empty(),
        _ => bytes.iter().all(|byte| byte.is_ascii_digit()),
    }
}

// The casts in this file are exact by proved bounds: `try_from` would add a refusal that never comes.

// The number that the digits write, if it is at most `max`. Not `parse`, here and in `negative`: it wants a `str`, and `from_utf8` would add a refusal that never comes.
fn up_to_max(digits: &[u8], max: u32) -> Option<u32>
    requires { all_ascii_digits digits.now ≡ true }
    ensures { result ≡ up_to_max max (value_of digits.now) }
{
    let mut n: u64 = 0;
    for digit in digits {
        n = 10 * n + u64::from(*digit - b'0');
        if n > u64::from(max) {
            return None;
        }
    }
    Some(n as u32)
}

// Limits differ from line to line, so a bound stands beside the value: a type for each limit would be no plainer.
fn numeral(part: Part<'_>, max: u32) -> Result<u32, Fault>
    ensures value { result ≡ number_at max (piece_of part.entry) }
    ensures bound { IfOk result (λ n. n ≤ max) }
{
    if !is_numeral(part.bytes) {
        return Err(Fault::Malformed);
    }
    up_to_max(part.bytes, max).ok_or(Fault::OutOfRange { at: part.at })
}

// A number from 0 to `max`.
pub fn number(part: Part<'_>, max: u8) -> Result<u8, Fault>
    ensures value { result ≡ number_at max (piece_of part.entry) }
    ensures bound { IfOk result (λ n. n ≤ max) }
{
    let n = numeral(part, u32::from(max))?;
    Ok(n as u8)
}

// The constant below 0 whose digits stand behind the minus at `at`.
fn negative(at: usize, digits: &[u8]) -> Result<i32, Fault>
    ensures { result ≡ below at digits.now }
{
    if !is_numeral(digits) || digits[0] == b'0' {
        return Err(Fault::Malformed);
    }
    let n = up_to_max(digits, MAX_BELOW).ok_or(Fault::OutOfRange { at })?;
    Ok((-i64::from(n)) as i32)
}

// A constant from -2^31 to 2^31-1.
pub fn constant(part: Part<'_>) -> Result<i32, Fault>
    ensures { result ≡ constant_in part.entry.at part.entry.bytes.now }
{
    match part.bytes {
        [b'-', digits @ ..] => negative(part.at, digits),
        _ => {
            let n = numeral(part, MAX_CONSTANT)?;
            Ok(n as i32)
        }
    }
}
