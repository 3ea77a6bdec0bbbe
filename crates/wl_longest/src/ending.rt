//! How a list of bits ends, as stuffing knows it (Bosch CAN 2.0 part B, section 6).

ghost use Rattle.std.specs.Prelude.{◌≡◌, ◌==◌, ◌+◌, ◌<◌, ◌≤◌};
ghost use Rattle.std.specs.Int.{bit_at};
ghost use Rattle.wl_frame.specs.Crc.{level_of_bit};
ghost use Rattle.wl_frame.specs.Grammar.{number_bits};
ghost use Rattle.wl_longest.specs.Longest.{ending_after, ending_from, most_stuffed, no_ending};

use wl_level::Level;

/// How many equal bits make the next one a stuff bit.
const LONGEST_RUN: u8 = 5;

/// How a list of bits with its stuff bits ends, and how many stuff bits it has.
#[derive(Clone, Copy, Debug)]
pub struct Ending {
    /// The level of its last bit, recessive if it has none.
    pub last: Level,
    /// How many bits of that level it ends with, 0 to 4: after five there is a stuff bit.
    pub run: u8,
    /// How many stuff bits it has.
    pub stuffed: u8,
}

impl Ending {
    /// Returns the ending of no bits.
    pub fn none() -> Ending
        ensures { result ≡ no_ending }
    {
        Ending {
            last: Level::Recessive,
            run: 0,
            stuffed: 0,
        }
    }

    /// Returns the ending after a bit more, and the stuff bit after it if one is due.
    pub fn after(self, bit: Level) -> Ending
        requires few { self.run < 5 }
        requires room { self.stuffed < 255 }
        ensures value { result ≡ ending_after self bit }
        ensures room { result.stuffed ≤ self.stuffed + 1 }
        ensures some { 0 < result.run }
        ensures few { result.run < 5 }
    {
        if !self.last.is(bit) {
            return Ending {
                last: bit,
                run: 1,
                stuffed: self.stuffed,
            };
        }
        if self.run + 1 == LONGEST_RUN {
            return Ending {
                last: bit.opposite(),
                run: 1,
                stuffed: self.stuffed + 1,
            };
        }
        Ending {
            last: bit,
            run: self.run + 1,
            stuffed: self.stuffed,
        }
    }

    /// Returns the ending after the `count` low bits of a number, the most significant first.
    pub fn after_number(self, number: u32, count: u8) -> Ending
        requires few { self.run < 5 }
        requires width { count ≤ 32 }
        requires room { self.stuffed + count < 255 }
        ensures value { result ≡ ending_from self (number_bits count number) }
        ensures room { result.stuffed ≤ self.stuffed + count }
        ensures some { 0 < self.run → 0 < result.run }
        ensures few { result.run < 5 }
    {
        let mut ending = self;
        for k in 0..count {
            ending = ending.after(level_at(number, count - 1 - k));
        }
        ending
    }

    /// Returns the most stuff bits after `count` bits more, whichever they are. After a run of r bits the first stuff
    /// bit needs 5 - r bits more at least, and each later one four.
    pub fn most_stuffed(self, count: u8) -> u8
        requires some { 0 < self.run }
        requires few { self.run < 5 }
        requires room { self.stuffed + count ≤ 128 }
        ensures value { result ≡ most_stuffed self count }
        ensures room { result ≤ self.stuffed + count }
    {
        self.stuffed + (count + self.run - 1) / (LONGEST_RUN - 1)
    }
}

/// Returns the bit of a number at a place, the least significant being at 0.
fn level_at(number: u32, place: u8) -> Level
    requires { place < 32 }
    ensures { result ≡ level_of_bit (bit_at number place == 1) }
{
    level_of((number >> place) & 1 == 1)
}

/// Returns the level of a bit: recessive for 1.
pub fn level_of(bit: bool) -> Level
    ensures { result ≡ level_of_bit bit }
{
    if bit {
        Level::Recessive
    } else {
        Level::Dominant
    }
}
