//! The length of numbers in decimal.

ghost use Rattle.std.specs.Prelude.{◌≡◌, ◌<◌, ◌≤◌, ◌^◌, ◌+◌, length, decimal};
ghost use Rattle.reports.specs.Decades.{IsDecade};
ghost use Rattle.reports.specs.Text.{run_text};

/// The numbers from `low` up to but not including `high`, which all have the same number of digits.
/// Each takes `width` bytes with its space.
#[derive(Clone, Copy)]
pub(crate) struct Decade {
    pub(crate) low: u64,
    pub(crate) high: u64,
    pub(crate) width: u64,
}

/// Returns the decade that contains `number`.
fn decade_of(number: u32) -> Decade
    ensures decade { IsDecade result }
    ensures within { (result.low ≤ number) × (number < result.high) }
{
    let number = u64::from(number);
    let mut decade = Decade {
        low: 0,
        high: 10,
        width: 2,
    };
    while decade.high <= number {
        decade = Decade {
            low: decade.high,
            high: decade.high * 10,
            width: decade.width + 1,
        };
    }
    decade
}

impl Decade {
    /// Returns this decade if it contains `number`, else the one that does.
    fn with(self, number: u32) -> Decade
        requires { IsDecade self }
        ensures decade { IsDecade result }
        ensures within { (result.low ≤ number) × (number < result.high) }
    {
        if self.low <= u64::from(number) && u64::from(number) < self.high {
            self
        } else {
            decade_of(number)
        }
    }
}

/// Returns the number of decimal digits of `number`.
pub(crate) fn digits(number: u64) -> u64
    ensures value { result ≡ length (decimal number) }
    ensures short { result ≤ 20 }
{
    let mut count = 1;
    let mut rest = number;
    while rest >= 10 {
        rest /= 10;
        count += 1;
    }
    count
}

/// Measures runs of consecutive numbers. It keeps the decade of the last number, since the next run
/// mostly has numbers of the same length.
#[derive(Clone, Copy)]
pub(crate) struct RunMeasure {
    decade: Decade,
    ghost wide: { IsDecade decade },
}

impl RunMeasure {
    /// Returns a measure that starts with the decade of 0.
    pub(crate) fn new() -> RunMeasure {
        RunMeasure {
            decade: decade_of(0),
        }
    }

    /// Returns the number of bytes of `count` consecutive numbers from `first` on, each in decimal
    /// after a space.
    pub(crate) fn run(&mut self, first: u32, count: usize) -> u64
        requires { first + count ≤ 2 ^ 32 }
        ensures { result ≡ length (run_text first count) }
    {
        let end = u64::from(first) + count as u64;
        let mut next = u64::from(first);
        let mut bytes = 0;
        let mut decade = self.decade;
        while next < end {
            decade = decade.with(next as u32);
            let past = end.min(decade.high);
            bytes += (past - next) * decade.width;
            next = past;
        }
        self.decade = decade;
        bytes
    }
}
