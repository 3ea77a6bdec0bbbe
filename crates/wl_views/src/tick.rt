//! How long a tick takes, which a plan leaves open.
ghost use Rattle.std.specs.Prelude.{◌≡◌, ◌<◌, ◌≤◌, IfSome};
ghost use Rattle.wl_views.specs.Ticks.{tick_picoseconds, unit_picoseconds, read_tick, count_of, unit_of, with_digit, microseconds};

/// A unit of time.
#[derive(Clone, Copy, Debug, PartialEq, Eq)]
pub enum TimeUnit {
    /// `ps`
    Picosecond,
    /// `ns`
    Nanosecond,
    /// `us`
    Microsecond,
}

impl TimeUnit {
    /// Returns how many picoseconds it has.
    fn picoseconds(self) -> u64
        ensures value { result ≡ unit_picoseconds self }
        ensures most { result ≤ 1000000 }
    {
        match self {
            TimeUnit::Picosecond => 1,
            TimeUnit::Nanosecond => 1_000,
            TimeUnit::Microsecond => 1_000_000,
        }
    }
}

/// How long a tick takes: this many of a unit.
#[derive(Clone, Copy, Debug, PartialEq, Eq)]
pub struct Tick {
    /// How many of the unit.
    pub count: u16,
    /// The unit.
    pub unit: TimeUnit,
}

impl Tick {
    /// Returns the tick that a text spells: a number from 1 to 999, and `ps`, `ns` or `us` right
    /// after it.
    pub fn from_text(text: &[u8]) -> Option<Tick>
        ensures { result ≡ read_tick text.now }
    {
        if text.len() < 2 {
            return None;
        }
        let (front, word) = text.split_at(text.len() - 2);
        let unit = unit_of(word)?;
        let count = count_of(front)?;
        Some(Tick { count, unit })
    }

    /// Returns how many picoseconds a tick takes.
    pub fn picoseconds(&self) -> u64
        ensures value { result ≡ tick_picoseconds self.now }
        ensures most { result < 65536000000 }
    {
        let count = self.count;
        count as u64 * self.unit.picoseconds()
    }

    /// Returns the whole microseconds before a tick.
    pub(crate) fn microseconds(&self, tick: u64) -> u128
        ensures { result ≡ microseconds self.now tick }
    {
        tick as u128 * self.picoseconds() as u128 / 1_000_000
    }
}

/// Returns the unit that a word names.
fn unit_of(word: &[u8]) -> Option<TimeUnit>
    ensures { result ≡ unit_of word.now }
{
    if word.len() != 2 || word[1] != b's' {
        return None;
    }
    match word[0] {
        b'p' => Some(TimeUnit::Picosecond),
        b'n' => Some(TimeUnit::Nanosecond),
        b'u' => Some(TimeUnit::Microsecond),
        _ => None,
    }
}

/// Returns a number with one digit more after it, as long as it stays below 1000.
fn with_digit(number: Option<u16>, digit: u8) -> Option<u16>
    ensures { result ≡ with_digit number digit }
{
    let number = number?;
    if digit.is_ascii_digit() && number < 100 {
        Some(10 * number + u16::from(digit - b'0'))
    } else {
        None
    }
}

/// Returns the number from 1 to 999 that decimal digits spell.
fn count_of(digits: &[u8]) -> Option<u16>
    ensures { result ≡ count_of digits.now }
{
    let number = digits
        .iter()
        .fold(Some(0), |number, digit| with_digit(number, *digit))?;
    if number == 0 { None } else { Some(number) }
}
