//! Intervals, a byte at a time.
ghost use Rattle.std.specs.Prelude.{◌≡◌, ◌≤◌};
ghost use Rattle.posix_ere.specs.IntervalMachine.{count_step, start_step, low_step, comma_step, high_step, may_reach};

// What was read of an interval after its `{`. Counts have their value and how many digits were read.
#[derive(Clone, Copy, Debug, PartialEq, Eq, Drop)]
pub(crate) enum Interval {
    Start,
    Low(u8, u8),
    Comma(u8),
    High(u8, u8, u8),
}

// An interval after one more byte.
#[derive(Clone, Copy, Debug, PartialEq, Eq, Drop)]
pub(crate) enum Counting {
    More(Interval),
    Done(u8, Option<u8>),
    Broken,
}

// Whether some count from `low` to 255 begins with these digits of this value.
fn may_reach(low: u8, value: u32, digits: u8) -> bool
    requires { value ≤ 9999 }
    ensures { result ≡ may_reach low value digits }
{
    let low = low as u32;
    (low <= value && value <= 255)
        || (digits < 3 && low <= value * 10 + 9 && value * 10 <= 255)
        || (digits < 2 && low <= value * 100 + 99 && value * 100 <= 255)
}

impl Interval {
    // The interval after one more byte.
    pub(crate) fn step(self, byte: u8) -> Counting
        ensures { result ≡ count_step self byte }
    {
        match self {
            Interval::Start => Interval::start(byte),
            Interval::Low(value, digits) => Interval::low(value, digits, byte),
            Interval::Comma(low) => Interval::comma(low, byte),
            Interval::High(low, value, digits) => Interval::high(low, value, digits, byte),
        }
    }

    fn start(byte: u8) -> Counting
        ensures { result ≡ start_step byte }
    {
        if byte.is_ascii_digit() {
            Counting::More(Interval::Low(byte - b'0', 1))
        } else {
            Counting::Broken
        }
    }

    fn low(value: u8, digits: u8, byte: u8) -> Counting
        ensures { result ≡ low_step value digits byte }
    {
        if byte.is_ascii_digit() {
            let next = value as u32 * 10 + (byte - b'0') as u32;
            if digits < 3 && next <= 255 {
                Counting::More(Interval::Low(next as u8, digits + 1))
            } else {
                Counting::Broken
            }
        } else if byte == b'}' {
            Counting::Done(value, Some(value))
        } else if byte == b',' {
            Counting::More(Interval::Comma(value))
        } else {
            Counting::Broken
        }
    }

    fn comma(low: u8, byte: u8) -> Counting
        ensures { result ≡ comma_step low byte }
    {
        if byte.is_ascii_digit() {
            if may_reach(low, (byte - b'0') as u32, 1) {
                Counting::More(Interval::High(low, byte - b'0', 1))
            } else {
                Counting::Broken
            }
        } else if byte == b'}' {
            Counting::Done(low, None)
        } else {
            Counting::Broken
        }
    }

    fn high(low: u8, value: u8, digits: u8, byte: u8) -> Counting
        ensures { result ≡ high_step low value digits byte }
    {
        if byte.is_ascii_digit() {
            let next = value as u32 * 10 + (byte - b'0') as u32;
            if digits < 3 && next <= 255 && may_reach(low, next, digits + 1) {
                Counting::More(Interval::High(low, next as u8, digits + 1))
            } else {
                Counting::Broken
            }
        } else if byte == b'}' && low <= value {
            Counting::Done(low, Some(value))
        } else {
            Counting::Broken
        }
    }
}
