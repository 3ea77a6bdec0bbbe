//! Decimal numbers at the start of a text.
ghost use Rattle.std.specs.Prelude.{◌≡◌, ◌≤◌, true, drop, IfSome, length, option_map};
ghost use Rattle.wl_units.specs.Decimals.{IsDecimal, after_digit, has_digit_room, is_behind, is_end, no_digits, decimal_in, scan, with_letter, with_one_digit};

/// Which part of a decimal number the last character was of.
#[derive(Clone, Copy, Debug, PartialEq, Eq)]
pub enum Part {
    /// There is none yet.
    Start,
    /// A digit before the point.
    Whole,
    /// The point.
    Point,
    /// A digit after the point.
    Fraction,
}

impl Part {
    /// Returns the part after one more digit.
    fn after_digit(self) -> Part
        ensures { result ≡ after_digit self }
    {
        match self {
            Part::Start | Part::Whole => Part::Whole,
            Part::Point | Part::Fraction => Part::Fraction,
        }
    }

    /// True if the next digit is one after the point.
    fn is_behind(self) -> bool
        ensures { result ≡ is_behind self }
    {
        match self {
            Part::Start | Part::Whole => false,
            Part::Point | Part::Fraction => true,
        }
    }

    /// True if a number may end here.
    fn is_end(self) -> bool
        ensures { result ≡ is_end self }
    {
        match self {
            Part::Start | Part::Point => false,
            Part::Whole | Part::Fraction => true,
        }
    }
}

/// A decimal number: the mantissa over the divisor, which is a power of ten.
#[derive(Clone, Copy, Debug)]
pub struct Decimal {
    /// The digits without the point: below 10^15.
    pub mantissa: u64,
    /// What they are parts of: at most 10^15.
    pub divisor: u64,
    /// The last character.
    pub part: Part,
}

impl Decimal {
    /// Returns the number with no digit yet.
    fn none() -> Decimal
        ensures { result ≡ no_digits }
    {
        Decimal {
            mantissa: 0,
            divisor: 1,
            part: Part::Start,
        }
    }

    /// True if there is room for one more digit.
    fn has_digit_room(self) -> bool
        ensures { result ≡ has_digit_room self }
    {
        self.mantissa < 100_000_000_000_000 && self.divisor <= 100_000_000_000_000
    }

    /// Returns the number with one more digit.
    fn with_one_digit(self, digit: u8) -> Decimal
        requires number { IsDecimal self }
        requires room { has_digit_room self ≡ true }
        requires digit { digit ≤ 9 }
        ensures with_one_digit { result ≡ with_one_digit self digit }
        ensures number { IsDecimal result }
    {
        let divisor = if self.part.is_behind() {
            self.divisor * 10
        } else {
            self.divisor
        };
        Decimal {
            mantissa: self.mantissa * 10 + digit as u64,
            divisor,
            part: self.part.after_digit(),
        }
    }

    /// Returns the number with one more character, if it belongs to it.
    fn with_letter(self, letter: u8) -> Option<Decimal>
        requires { IsDecimal self }
        ensures with_letter { result ≡ with_letter self letter }
        ensures number { IfSome result IsDecimal }
    {
        if b'0' <= letter && letter <= b'9' && self.has_digit_room() {
            return Some(self.with_one_digit(letter - b'0'));
        }
        if letter == b'.' && self.part == Part::Whole {
            return Some(Decimal {
                part: Part::Point,
                ..self
            });
        }
        None
    }
}

/// Returns the number at the start of a text, and how many bytes it has.
fn scan(text: &[u8]) -> (Decimal, usize)
    ensures scan { (result.0, drop result.1 text.now) ≡ scan no_digits text.now }
    ensures number { IsDecimal result.0 }
    ensures within { result.1 ≤ length text.now }
{
    let mut number = Decimal::none();
    for (n, letter) in text.iter().enumerate() {
        match number.with_letter(*letter) {
            Some(next) => number = next,
            None => return (number, n),
        }
    }
    (number, text.len())
}

/// Returns the number at the start of a text and the bytes after it, if it has one.
pub(crate) fn decimal_in(text: &[u8]) -> Option<(Decimal, &[u8])>
    ensures number { option_map (λ r. (r.0, r.1.now)) result ≡ decimal_in text.now }
    ensures is { IfSome result (λ r. IsDecimal r.0) }
{
    let (number, length) = scan(text);
    if number.part.is_end() {
        Some((number, &text[length..]))
    } else {
        None
    }
}
