//! Ratios of whole numbers.
ghost use Rattle.std.specs.Prelude.{◌≡◌, ◌≤◌, ◌<◌, ◌*◌, ◌^◌, IfSome};
ghost use Rattle.wl_units.specs.Ratios.{euclid, divided, divides_both, fraction_with, greatest_common, lowest, whole_quanta, quantum_from, ticks_of_quantum, reduced_by, rounded_up, whole};

/// The greatest number that is made of a text: 2^48 - 1.
pub const LARGEST_WHOLE: u64 = (1 << 48) - 1;

/// Returns a ratio as a whole number, if it is one and at most 2^48 - 1.
pub fn whole(num: u128, den: u128) -> Option<u64>
    ensures ratio { result ≡ whole num den }
    ensures most { IfSome result (λ n. n ≤ LARGEST_WHOLE) }
{
    if 0 < den && num % den == 0 && num / den <= LARGEST_WHOLE as u128 {
        Some((num / den) as u64)
    } else {
        None
    }
}

/// Returns the greatest common divisor of two numbers: of 0 and a number that number.
#[tactic(auto, unfolding(crate::specs::Ratios::greatest_common))]
fn greatest_common(a: u128, b: u128) -> u128
    ensures { result ≡ greatest_common a b }
{
    let (mut a, mut b) = (a, b);
    for _step in 0..200u64 {
        if b == 0 {
            return a;
        }
        (a, b) = (b, a % b);
    }
    a
}

fn divides_both(g: u128, num: u128, den: u128) -> bool
    ensures { result ≡ divides_both g num den }
{
    0 < g && num % g == 0 && den % g == 0
}

/// Returns a ratio with both parts divided by what divides them.
fn reduced_by(g: u128, num: u128, den: u128) -> Option<(u64, u64)>
    ensures ratio { result ≡ reduced_by g num den }
    ensures num { IfSome result (λ r. r.0 ≤ LARGEST_WHOLE) }
    ensures den { IfSome result (λ r. r.1 ≤ LARGEST_WHOLE) }
{
    let largest = LARGEST_WHOLE as u128;
    if divides_both(g, num, den) && num / g <= largest && den / g <= largest {
        Some(((num / g) as u64, (den / g) as u64))
    } else {
        None
    }
}

/// Returns a ratio in lowest terms, if both parts are then at most 2^48 - 1.
pub fn lowest(num: u128, den: u128) -> Option<(u64, u64)>
    ensures ratio { result ≡ lowest num den }
    ensures num { IfSome result (λ r. r.0 ≤ LARGEST_WHOLE) }
    ensures den { IfSome result (λ r. r.1 ≤ LARGEST_WHOLE) }
{
    reduced_by(greatest_common(num, den), num, den)
}

/// Returns a product.
pub(crate) fn product(a: u64, b: u64) -> u128
    ensures { result ≡ a * b }
{
    a as u128 * b as u128
}

/// Returns a product with a factor of at most 2^40.
fn near_product(a: u64, b: u64) -> u128
    requires { b ≤ 1099511627776 }
    ensures value { result ≡ a * b }
    ensures most { result ≤ 2 ^ 104 }
{
    a as u128 * b as u128
}

/// Returns how many ticks a quantum takes, as a fraction in lowest terms: its periods of a clock in Hz, by the length of a tick in
/// femtoseconds.
pub fn ticks_of_quantum(clock: u64, prescaler: u64, tick: u64) -> Option<(u64, u64)>
    ensures ratio { result ≡ ticks_of_quantum clock prescaler tick }
    ensures num { IfSome result (λ r. r.0 ≤ LARGEST_WHOLE) }
    ensures den { IfSome result (λ r. r.1 ≤ LARGEST_WHOLE) }
{
    lowest(
        product(prescaler, 1_000_000_000_000_000),
        product(clock, tick),
    )
}

/// Returns a number over what divides it, and the number itself over 0.
fn divided(g: u128, n: u128) -> u128
    ensures { result ≡ divided g n }
{
    if g == 0 { n } else { n / g }
}

/// Returns a fraction of this number of millionths of what it is, in lowest terms; the denominator is cut off at 2^48 - 1.
pub fn fraction_with(num: u64, den: u64, millionths: u64) -> (u128, u64)
    ensures { result ≡ fraction_with num den millionths }
{
    let num = product(num, millionths);
    let den = product(den, 1_000_000);
    let g = greatest_common(num, den);
    (
        divided(g, num),
        divided(g, den).min(LARGEST_WHOLE as u128) as u64,
    )
}

/// Returns a quotient, rounded up.
fn rounded_up(a: u128, b: u128) -> u128
    requires some { 0 < b }
    requires most { a ≤ 2 ^ 104 }
    requires divisor { b ≤ 2 ^ 104 }
    ensures { result ≡ rounded_up a b }
{
    (a + (b - 1)) / b
}

/// Returns the first quantum that begins at a tick or later, counted from that of tick 0, where a quantum takes `num / den` ticks, by
/// this number of millionths. `None` if there is none up to 2^48 - 1, or if `den` is above 1,000,000.
pub fn quantum_from(ticks: u64, num: u64, den: u64, millionths: u32) -> Option<u64>
    ensures { result ≡ quantum_from ticks num den millionths }
{
    let length = near_product(num, millionths as u64);
    if length == 0 || den > 1_000_000 {
        return None;
    }
    let quantum = rounded_up(near_product(ticks, den * 1_000_000), length);
    if quantum <= LARGEST_WHOLE as u128 {
        Some(quantum as u64)
    } else {
        None
    }
}

/// Returns how many quanta of `num / den` ticks some ticks are, if they are whole.
pub fn whole_quanta(ticks: u64, num: u64, den: u64) -> Option<u64>
    ensures { result ≡ whole_quanta ticks num den }
{
    whole(product(ticks, den), num as u128)
}
