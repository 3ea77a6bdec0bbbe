//! Numbers with a point.
use std::fmt;

/// A number of thousandths, shown with a point: 1500 as 1.500.
#[derive(Clone, Copy)]
pub struct Thousandths(pub u128);

impl fmt::Display for Thousandths {
    ghost use Rattle.std.specs.Prelude.{Some};
    ghost use Rattle.wl_margin.specs.Pieces.{thousandths};

    ghost output = { λ n. Some (thousandths n.0) };

    fn fmt<W: fmt::Write>(&self, f: &mut fmt::Formatter<W>) -> fmt::Result {
        let number = self.0;
        let whole = number / 1000;
        let tenth = number / 100 % 10;
        let hundredth = number / 10 % 10;
        let thousandth = number % 10;
        write!(f, "{whole}.{tenth}{hundredth}{thousandth}")
    }
}

/// A number of hundredths, shown with a point: 150 as 1.50.
#[derive(Clone, Copy)]
pub struct Hundredths(pub u128);

impl fmt::Display for Hundredths {
    ghost use Rattle.std.specs.Prelude.{Some};
    ghost use Rattle.wl_margin.specs.Pieces.{hundredths};

    ghost output = { λ n. Some (hundredths n.0) };

    fn fmt<W: fmt::Write>(&self, f: &mut fmt::Formatter<W>) -> fmt::Result {
        let number = self.0;
        let whole = number / 100;
        let tenth = number / 10 % 10;
        let hundredth = number % 10;
        write!(f, "{whole}.{tenth}{hundredth}")
    }
}
