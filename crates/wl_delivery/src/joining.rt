//! When a node takes part: after eleven recessive samples in a row.
ghost use Rattle.std.specs.Prelude.{◌≡◌, ◌≤◌, IfSome, fold};
ghost use Rattle.wl_delivery.specs.Joining.{joined_quantum, joining_with, no_joining};

use wl_level::Level;

/// How many recessive samples of a node come last, and when it took part at first.
#[derive(Clone, Copy)]
pub struct Joining {
    /// How many recessive samples come last, up to ten.
    pub run: u64,
    /// The quantum of the eleventh recessive sample in a row, if there was one.
    pub at: Option<u64>,
}

impl Joining {
    /// Returns what is known before the first sample.
    pub fn new() -> Joining
        ensures { result ≡ no_joining }
    {
        Joining { run: 0, at: None }
    }

    /// Returns what is known after one more sample, of this quantum and level.
    pub fn with(self, sample: (u64, Level)) -> Joining
        ensures { result ≡ joining_with self sample }
    {
        if self.at.is_some() {
            return self;
        }
        match sample.1 {
            Level::Dominant => Joining { run: 0, ..self },
            Level::Recessive => {
                if self.run < 10 {
                    Joining {
                        run: self.run + 1,
                        ..self
                    }
                } else {
                    Joining {
                        at: Some(sample.0),
                        ..self
                    }
                }
            }
        }
    }
}

/// Returns the quantum at which a node with these samples takes part at first, if it does.
pub fn joined_quantum(samples: &[(u64, Level)]) -> Option<u64>
    ensures { result ≡ joined_quantum samples.now }
{
    let mut joining = Joining::new();
    for sample in samples {
        joining = joining.with(*sample);
    }
    joining.at
}
