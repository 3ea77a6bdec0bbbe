//! Pairs and arrays of words, joined part by part.
ghost use Rattle.std.specs.Prelude.{◌≡◌, ◌↔◌, IsTrue};

use crate::Join;

impl<A: Join, B: Join> Join for (A, B) {
    ghost is_word = { λ p. A.is_word p.0 × B.is_word p.1 };

    ghost least = { (A.least, B.least) };

    ghost joined = { λ p q. (A.joined p.0 q.0, B.joined p.1 q.1) };

    ghost use Rattle.wl_lattice.specs.ProductLaws.{pair_laws};

    ghost laws = { pair_laws A.laws B.laws };

    fn known(&self) {
        self.0.known();
        self.1.known();
    }

    fn bottom() -> Self {
        (A::bottom(), B::bottom())
    }

    fn join(&mut self, other: &Self) {
        self.0.join(&other.0);
        self.1.join(&other.1);
    }

    fn same(&self, other: &Self) -> bool {
        self.0.same(&other.0) && self.1.same(&other.1)
    }
}

impl<W: Join, const N: usize> Join for [W; N] {
    ghost use Rattle.std.specs.Prelude.{replicate};
    ghost use Rattle.wl_lattice.specs.Products.{joined_lists, AreWords};
    ghost use Rattle.wl_lattice.specs.ProductLaws.{array_laws};

    ghost is_word = { AreWords W.is_word N };

    ghost least = { replicate N W.least };

    ghost joined = { joined_lists W.joined };

    ghost laws = { array_laws W.laws N };

    fn known(&self) {
        for word in self {
            word.known();
        }
    }

    fn bottom() -> Self {
        std::array::from_fn(
            |_: usize| -> W
                ensures { result ≡ W.least }
            { W::bottom() },
        )
    }

    fn join(&mut self, other: &Self) {
        for i in 0..N {
            self[i].join(&other[i]);
        }
    }

    fn same(&self, other: &Self) -> bool {
        for (i, word) in self.iter().enumerate() {
            if !word.same(&other[i]) {
                return false;
            }
        }
        true
    }
}
