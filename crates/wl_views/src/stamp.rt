//! Times, one after another: most have the front digits of the one before.
ghost use Rattle.std.specs.Prelude.{◌≡◌, ◌+◌, ◌<◌, ◌≤◌, ◌^◌, ◌++◌, drop, length};
ghost use Rattle.std.specs.Fmt.{decimal};
ghost use Rattle.arrayvec.specs.ArrayVec.{array_vec_len};
ghost use Rattle.wl_views.specs.Digits.{four_digits};
ghost use Rattle.wl_views.specs.Limits.{longest_number, piece_room};

use crate::limits::LONGEST_NUMBER;
use crate::lines::{Lines, push_bytes, push_number};
use itoa::write_digits;

/// The digits of a time but for the last four, which those of the next one mostly are too.
#[derive(Drop)]
pub(crate) struct Stamp {
    /// The number that they spell.
    front: u64,
    digits: [u8; LONGEST_NUMBER],
    /// Where they begin.
    at: usize,
    ghost fits: { at ≤ longest_number },
    ghost spelled: { drop at digits ≡ decimal front },
}

/// Adds the last four digits of a number.
fn push_four(text: &mut Lines, number: u64)
    requires { array_vec_len text.old + 4 ≤ piece_room }
    ensures bytes { text.new.items ≡ text.old.items ++ four_digits number }
    ensures grown { array_vec_len text.new ≡ array_vec_len text.old + 4 }
{
    text.push(b'0' + (number / 1_000 % 10) as u8);
    text.push(b'0' + (number / 100 % 10) as u8);
    text.push(b'0' + (number / 10 % 10) as u8);
    text.push(b'0' + (number % 10) as u8);
}

impl Stamp {
    /// Returns that of time 0.
    pub(crate) fn new() -> Stamp {
        Stamp {
            front: 0,
            digits: [b'0'; LONGEST_NUMBER],
            at: LONGEST_NUMBER - 1,
        }
    }

    /// Spells another front.
    fn spell(&mut self, front: u64)
        ensures { self.new.front ≡ front }
    {
        self.front = front;
        self.at = write_digits(front, &mut self.digits, LONGEST_NUMBER);
    }

    /// Returns the digits of the front.
    fn spelled(&self) -> &[u8]
        ensures value { result.now ≡ decimal self.now.front }
        ensures short { length result.now ≤ longest_number }
    {
        &self.digits[self.at..]
    }

    /// Adds a time.
    pub(crate) fn push(&mut self, text: &mut Lines, time: u64)
        requires { array_vec_len text.old + longest_number ≤ piece_room }
        ensures bytes { text.new.items ≡ text.old.items ++ decimal time }
        ensures grown { array_vec_len text.new ≤ array_vec_len text.old + longest_number }
    {
        let front = time / 10_000;
        if front == 0 {
            push_number(text, time);
            return;
        }
        if front != self.front {
            self.spell(front);
        }
        push_bytes(text, self.spelled());
        push_four(text, time);
    }
}
