//! Times in seconds.
ghost use Rattle.std.specs.Prelude.{◌≡◌, ◌≤◌, ◌<◌, None, IfSome};
ghost use Rattle.std.specs.List.{list_all};
ghost use Rattle.std.specs.Option.{ForSome};
ghost use Rattle.std.specs.Result.{result_ok};
ghost use Rattle.std.specs.Char.{is_ascii_digit};
ghost use Rattle.enum_base.specs.Decimal.{number_up_to};
ghost use Rattle.std.specs.Prelude.{◌+◌, option_and_then, unwrap_or, IfNone, Some};
ghost use Rattle.zone_token.specs.Times.{most_seconds, seconds_of_unit, with_digit, seconds_after, united_from, if_time, time_of};

use enum_base::read_u32;

// The greatest time (RFC 2181, section 8).
const MOST_SECONDS: u32 = 2_147_483_647;

// The seconds of a unit, in any case.
fn seconds_of_unit(unit: u8) -> Option<u64>
    ensures value { result ≡ seconds_of_unit unit }
    ensures small { IfSome result (λ seconds. seconds ≤ 604_800) }
{
    match unit.to_ascii_lowercase() {
        b'w' => Some(604_800),
        b'd' => Some(86_400),
        b'h' => Some(3_600),
        b'm' => Some(60),
        b's' => Some(1),
        _ => None,
    }
}

// A number with one digit more.
fn with_digit(number: u64, digit: u8) -> u64
    requires { number ≤ most_seconds }
    ensures value { result ≡ with_digit number digit }
{
    10 * number + u64::from(digit.saturating_sub(b'0'))
}

// A time that is not too great.
fn if_time(seconds: u64) -> Option<u32>
    ensures { result ≡ if_time seconds }
{
    if seconds <= u64::from(MOST_SECONDS) {
        Some(seconds as u32)
    } else {
        None
    }
}

// The seconds and the number after a byte, unless one of them is too great.
fn seconds_after(seconds: u64, number: Option<u64>, byte: u8) -> Option<(u64, Option<u64>)>
    requires { (seconds ≤ most_seconds) × (unwrap_or number 0 ≤ most_seconds) }
    ensures some { IfSome result (λ after. seconds_after seconds number byte ≡ Some after) }
    ensures small { IfSome result (λ after. (after.0 ≤ most_seconds) × (unwrap_or after.1 0 ≤ most_seconds)) }
    ensures none { IfNone result (ForSome (seconds_after seconds number byte)
        (λ after. most_seconds < after.0 + unwrap_or after.1 0)) }
{
    if byte.is_ascii_digit() {
        let number = with_digit(number.unwrap_or(0), byte);
        if_time(number)?;
        Some((seconds, Some(number)))
    } else {
        let seconds = seconds + number? * seconds_of_unit(byte)?;
        if_time(seconds)?;
        Some((seconds, None))
    }
}

// The seconds of digits with units after them.
fn read_united(text: &[u8]) -> Option<u32>
    ensures { result ≡ option_and_then if_time (united_from 0 None text.now) }
{
    let mut seconds = 0;
    let mut number = None;
    let mut rest = text;
    while let [byte, after @ ..] = rest {
        let next = seconds_after(seconds, number, *byte)?;
        seconds = next.0;
        number = next.1;
        rest = after;
    }
    if number.is_some() {
        return None;
    }
    if_time(seconds)
}

// Whether all bytes are digits.
fn are_digits(text: &[u8]) -> bool
    ensures { result ≡ list_all is_ascii_digit text.now }
{
    text.iter().all(|byte| byte.is_ascii_digit())
}

// The number of at most so much that a text of digits stands for.
fn read_seconds(text: &[u8]) -> Option<u32>
    ensures { result ≡ result_ok (number_up_to most_seconds text.now) }
{
    let number = read_u32(text).ok()?;
    if number <= MOST_SECONDS {
        Some(number)
    } else {
        None
    }
}

/// The seconds that a text stands for: digits, or digits with a unit `w`, `d`, `h`, `m` or `s` after them, once or
/// more; at most 2,147,483,647.
#[tactic(auto, unfolding(crate::specs::Times::time_of))]
pub fn read_time(text: &[u8]) -> Option<u32>
    ensures { result ≡ time_of text.now }
{
    if are_digits(text) {
        read_seconds(text)
    } else {
        read_united(text)
    }
}
