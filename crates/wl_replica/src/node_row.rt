// The words of one node as a row of numbers, by the number of the slot.
ghost use Rattle.std.specs.Prelude.{◌≡◌, ◌<◌, ◌≤◌, [], ℕ, length, max, OnOk, OnErr};
ghost use Rattle.wl_replica.specs.Dense.{row_number, IsRowRaised};
ghost use Rattle.wl_lattice.specs.Numbers.{joined_to_some, joined_numbers};
ghost use Rattle.wl_replica.specs.Dense.{most_row_places};

use std::alloc::{AllocError, Global};
use std::marker::Model;
use wl_lattice::CLASH;

/// The most places of a row: one for each number of a slot.
const MOST_PLACES: usize = 1 << 32;

/// A row of numbers, which are 0 past its end.
#[derive(Drop)]
pub struct Row {
    numbers: Vec<u64>,
}

impl Model for Row {
    ghost use Rattle.std.specs.Prelude.{ℕ, List};

    ghost Value = { List ℕ };

    ghost view = { λ r. r.numbers.items };

    ghost use Rattle.std.specs.Prelude.{◌≤◌, length};
    ghost use Rattle.wl_replica.specs.Dense.{most_row_places};

    ghost invariant = { λ r. length r.numbers.items ≤ most_row_places };
}

/// Makes a row at least this long, and then some. No number is seen to change.
#[cold]
#[inline(never)]
fn grow(numbers: &mut Vec<u64>, places: usize) -> Result<(), AllocError>
    requires places { places ≤ most_row_places }
    requires short { length numbers.old.items < places }
    ensures few { length numbers.new.items ≤ most_row_places }
    ensures longer { length numbers.old.items ≤ length numbers.new.items }
    ensures room { OnOk result (places ≤ length numbers.new.items) }
    ensures same { (n : ℕ) → row_number numbers.new.items n ≡ row_number numbers.old.items n }
    ensures err { OnErr result (numbers.new.items ≡ numbers.old.items) }
{
    let twice = numbers.len().saturating_mul(2).min(MOST_PLACES);
    numbers.resize(twice.max(places), 0)
}

impl Row {
    /// Returns a row of no number.
    pub fn new(alloc: Global) -> Row
        ensures { result ≡ [] }
    {
        Row {
            numbers: Vec::new(alloc),
        }
    }

    /// Returns how many places it has.
    pub fn len(&self) -> usize
        ensures value { result ≡ length self.now }
        ensures few { result ≤ most_row_places }
    {
        self.numbers.len()
    }

    /// Makes it at least this long. No number is seen to change. Refused when out of memory; the row is then as it was.
    #[inline(always)]
    pub fn lengthen(&mut self, places: usize) -> Result<(), AllocError>
        requires { places ≤ most_row_places }
        ensures longer { length self.old ≤ length self.new }
        ensures same { (n : ℕ) → row_number self.new n ≡ row_number self.old n }
        ensures ok { OnOk result (places ≤ length self.new) }
        ensures err { OnErr result (self.new ≡ self.old) }
    {
        if self.numbers.len() < places {
            grow(&mut self.numbers, places)?;
        }
        Ok(())
    }

    /// Joins the number of an edge's word in at a place that there is.
    #[inline(always)]
    pub fn join_edge(&mut self, place: u32, number: u64)
        requires { place < length self.old }
        ensures value { IsRowRaised joined_to_some self.old place number self.new }
        ensures same { length self.new ≡ length self.old }
    {
        let at = place as usize;
        let old = self.numbers[at];
        let differs = (old != 0) & (old != number);
        self.numbers[at] = if differs { CLASH } else { number };
    }

    /// Returns the numbers up to the end.
    pub fn as_slice(&self) -> &[u64]
        ensures value { result.now ≡ self.now }
        ensures few { length self.now ≤ most_row_places }
    {
        self.numbers.as_slice()
    }

    /// Returns the number at a place.
    pub fn number(&self, place: u32) -> u64
        ensures { result ≡ row_number self.now place }
    {
        match self.numbers.get(place as usize) {
            Some(number) => *number,
            None => 0,
        }
    }

    /// Joins the end of a silence in at a place that there is.
    #[inline(always)]
    pub fn join_silence(&mut self, place: u32, until: u64)
        requires { place < length self.old }
        ensures value { IsRowRaised max self.old place until self.new }
        ensures same { length self.new ≡ length self.old }
    {
        let at = place as usize;
        self.numbers[at] = self.numbers[at].max(until);
    }

    /// Joins a number in at a place that there is; 0 changes nothing.
    fn join_number(&mut self, place: u32, number: u64)
        requires { place < length self.old }
        ensures value { IsRowRaised joined_numbers self.old place number self.new }
        ensures same { length self.new ≡ length self.old }
    {
        if number != 0 {
            self.join_edge(place, number);
        }
    }

    /// Joins in each number of another row of edges, which is no longer.
    pub fn join_edges(&mut self, other: &Row)
        requires { length other.now ≤ length self.old }
        ensures joined { (n : ℕ) → row_number self.new n
            ≡ joined_numbers (row_number self.old n) (row_number other.now n) }
        ensures same { length self.new ≡ length self.old }
    {
        for at in 0..other.len() {
            let place = at as u32;
            self.join_number(place, other.number(place));
        }
    }

    /// Joins in each end of another row of silences, which is no longer.
    pub fn join_silences(&mut self, other: &Row)
        requires { length other.now ≤ length self.old }
        ensures joined { (n : ℕ) → row_number self.new n ≡ max (row_number self.old n) (row_number other.now n) }
        ensures same { length self.new ≡ length self.old }
    {
        for at in 0..other.len() {
            let place = at as u32;
            self.join_silence(place, other.number(place));
        }
    }

    /// Joins the number of an edge's word in at a place. Refused when out of memory; the row is then as it was.
    #[inline(always)]
    pub fn raise_edge(&mut self, place: u32, number: u64) -> Result<(), AllocError>
        ensures ok { OnOk result (IsRowRaised joined_to_some self.old place number self.new) }
        ensures err { OnErr result (self.new ≡ self.old) }
    {
        self.lengthen(place as usize + 1)?;
        self.join_edge(place, number);
        Ok(())
    }

    /// Joins the end of a silence in at a place. Refused when out of memory; the row is then as it was.
    #[inline(always)]
    pub fn raise_silence(&mut self, place: u32, until: u64) -> Result<(), AllocError>
        ensures ok { OnOk result (IsRowRaised max self.old place until self.new) }
        ensures err { OnErr result (self.new ≡ self.old) }
    {
        self.lengthen(place as usize + 1)?;
        self.join_silence(place, until);
        Ok(())
    }
}
