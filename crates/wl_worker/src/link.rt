//! How workers hand records to one another, and what may stop them.
ghost use Rattle.std.specs.Prelude.{◌≡◌, IfOk};
ghost use Rattle.wl_worker.specs.Faults.{rank, lower_fault};

use std::alloc::{AllocError, Global};
use thiserror::Error;
use wl_group::Group;
use wl_record_core::Record;

/// Why a link failed.
#[derive(Clone, Copy, Debug, PartialEq, Eq, Error)]
pub enum LinkFault {
    /// What came is of another plan.
    #[error("Foreign")]
    Foreign,
    /// The other end was given up.
    #[error("Gone")]
    Gone,
    /// Memory was refused.
    #[error("Memory")]
    Memory,
}

impl From<AllocError> for LinkFault {
    ghost use Rattle.std.specs.Prelude.{◌≡◌};
    ghost use Rattle.wl_worker.specs.declared.link.LinkFault.TheVariants.{Memory};

    ghost from_gives = { λ _ given. given ≡ Memory };

    fn from(_: AllocError) -> LinkFault {
        LinkFault::Memory
    }
}

/// Why workers have no outcome. If several apply, the first of these.
#[derive(Clone, Copy, Debug, PartialEq, Eq, Error)]
pub enum Fault {
    /// There is no worker, or there are more than 8.
    #[error("Workers")]
    Workers,
    /// Memory was refused.
    #[error("Memory")]
    Memory,
    /// A record of another plan came.
    #[error("Foreign")]
    Foreign,
    /// This worker stopped: its gate refused a turn, its link was given up, or no thread could be made for it.
    #[error("Worker({0})")]
    Worker(u8),
}

impl Fault {
    /// Returns the place in the order of faults; workers by their numbers.
    fn rank(self) -> u16
        ensures { result ≡ rank self }
    {
        match self {
            Fault::Workers => 0,
            Fault::Memory => 1,
            Fault::Foreign => 2,
            Fault::Worker(worker) => 3 + u16::from(worker),
        }
    }

    /// Returns the first of two faults, by their order, and then by worker.
    pub(crate) fn or_lower(self, other: Fault) -> Fault
        ensures { result ≡ lower_fault self other }
    {
        if other.rank() < self.rank() {
            other
        } else {
            self
        }
    }
}

impl From<AllocError> for Fault {
    ghost use Rattle.std.specs.Prelude.{◌≡◌};
    ghost use Rattle.wl_worker.specs.declared.link.Fault.TheVariants.{Memory};

    ghost from_gives = { λ _ given. given ≡ Memory };

    fn from(_: AllocError) -> Fault {
        Fault::Memory
    }
}

/// What a worker hands records by, to all others and from all others. A link is of one plan, and of one worker.
///
/// A call that fails keeps what it gave or took before the fault.
pub trait Link {
    ghost use Rattle.std.specs.Prelude.{ℕ, List, OnOk};
    ghost use Rattle.wl_record_core.specs.declared.record.Record.{Record as Told};
    ghost use Rattle.wl_plan.specs.declared.plan.Plan.{Plan as GivenPlan};
    ghost use Rattle.wl_worker.specs.Handed.{AreTrueOfPlan, Took, TellsNews};

    /// The link is of this plan.
    ghost is_of: { Self → GivenPlan → Type 0 };

    /// And it is of the worker of this number.
    ghost number: { Self → ℕ };

    /// The next fetch begins with what was fetched first.
    ghost is_rewound: { Self → Type 0 } = { λ _. Unit {0} };

    /// These records were given, and made the second of the first.
    ghost gave: { Self → Self → List Told → Type 0 } = { λ _ _ _. Unit {0} };

    /// Returns the number of the worker whose link this is, from 0.
    fn worker(&self) -> u8
        ensures { result ≡ number self.now };

    /// Gives records that are true of the link's plan to all other workers.
    fn give(&mut self, alloc: Global, records: &[Record]) -> Result<(), LinkFault>
        requires { (p : GivenPlan) × is_of self.old p × AreTrueOfPlan p records.now }
        ensures same { (p : GivenPlan) → is_of self.old p → is_of self.new p }
        ensures number { number self.new ≡ number self.old }
        ensures rewound { is_rewound self.old → is_rewound self.new }
        ensures gave { OnOk result (gave self.old self.new records.now) };

    /// Hands to a group of the link's plan what others gave, and returns whether that changed what the group knows.
    fn fetch(&mut self, alloc: Global, group: &mut Group) -> Result<bool, LinkFault>
        requires { is_of self.old group.old.plan }
        ensures same { (p : GivenPlan) → is_of self.old p → is_of self.new p }
        ensures number { number self.new ≡ number self.old }
        ensures took { Took group.old group.new }
        ensures changed { IfOk result (λ b. TellsNews group.old group.new b) };

    /// Begins again: what was fetched may be fetched again, all of it at the next `fetch`.
    fn rewind(&mut self)
        ensures same { (p : GivenPlan) → is_of self.old p → is_of self.new p }
        ensures number { number self.new ≡ number self.old }
        ensures rewound { is_rewound self.new };

    /// Waits until another worker gave something after this link's last `fetch` began, or some worker stopped. Returns the first one that
    /// stopped, if any.
    fn wait(&mut self) -> Option<u8>
        ensures same { (p : GivenPlan) → is_of self.old p → is_of self.new p }
        ensures number { number self.new ≡ number self.old };

    /// Lets the others know that this worker stopped.
    fn stop(&mut self)
        ensures same { (p : GivenPlan) → is_of self.old p → is_of self.new p }
        ensures number { number self.new ≡ number self.old };
}

/// What is asked before each turn of a worker, so that workers can be watched, stopped and restarted.
pub trait Gate {
    /// True if the worker may begin this turn; turns count from 0. If it may not, the worker ends with its fault.
    fn turn(&self, worker: u8, turn: u64) -> bool;

    /// True if the worker's group restarts before this turn, which it may begin.
    fn restart(&self, worker: u8, turn: u64) -> bool {
        let _ = (worker, turn);
        false
    }
}
