//! What the program can be asked to do.

use wl_init::Wish;
use wl_limits::Limits;
use wl_settings::Shown;
use wl_sweep::{Options, Share};
use wl_views::{Pick, Tick, Window};
use wl_worker::LinkKind;

/// What the program is asked to do.
#[derive(Clone, Copy)]
pub enum Task {
    /// A plan to begin from, by a wish.
    Init(Wish),
    /// The canonical text of a record text within these limits.
    Merge(Limits),
    /// What a record text within these limits says of each node, and up to which tick.
    Horizon(Limits),
    /// The settings of a plan's nodes, and the delays between them.
    Check,
    /// A plan as one of version 4.
    Upgrade,
    /// The records of a plan's simulation within a window.
    Records(Window),
    /// The report of a plan's simulation by this many workers, 1 to 8, over this kind of link. One works alone, on the program's own
    /// thread. If it is to be brief, lines of frames are left out. If that is asked for, the status says whether the verdict is clean.
    Run(u8, LinkKind, bool, bool),
    /// What is doubtful of a plan, and the figures of its nodes; or what is wrong with it. If that is asked for, the status says whether
    /// anything is doubtful.
    Explain(bool),
    /// What happened to each node in a plan's simulation, and where, as far as it is picked.
    Trace(Pick),
    /// The log of the frames that a plan's simulation sends within a window, at ticks that take so long, the first of them at this second. If
    /// that is asked for, with error frames.
    Candump(Tick, u32, bool, Window),
    /// The waveform of a window of a plan's simulation, at ticks that take so long.
    Vcd(Tick, Window),
    /// One page of HTML that shows a plan's simulation, and the events and the waveform of a window, at ticks that take so long.
    Page(Tick, Window),
    /// Whether a plan's bus works, and with how much to spare, at ticks that take so long; of the plan's senders, or, if that is asked for, of
    /// all nodes that don't only listen. If that is asked for, the status says whether it works.
    Margin(Tick, bool, bool),
    /// How long the messages of a plan may wait, at ticks that take so long: of any data, if that is asked for. If that is asked for, the status
    /// says whether all deadlines are met.
    Respond(Tick, bool, bool),
    /// How busy a plan's bus was, how long its messages waited, and why the run didn't work, at ticks that take so long. If that is asked
    /// for, the status says whether it worked.
    Traffic(Tick, bool),
    /// Whether a plan's bus works, at ticks that take so long; if that is asked for, with the commands that say so.
    Judge(Tick, bool),
    /// The settings with which a bus works, or the plan of the best one, at ticks that take so long. If that is asked for, the status says
    /// whether each controller has one.
    Settings(Tick, Shown, bool),
    /// How many members of a family of plans are clean, or one member as a plan.
    Sweep(Swept),
}

/// What is asked of a sweep beside its plan and its ranges.
#[derive(Clone, Copy)]
pub struct Swept {
    /// What is varied, and how many members are run.
    pub options: Options,
    /// Whether each sender gets a frame more, with edges ten bits apart.
    pub worst: bool,
    /// How many threads run them, 1 to 8; `None`: one for each processor, at most 8.
    pub workers: Option<u8>,
    /// The number of a member whose plan is written in the place of what is found.
    pub print: Option<u64>,
    /// Whether what is found is written as a page with a map.
    pub page: bool,
    /// The part of the members that is run in the place of all.
    pub part: Option<Share>,
    /// Whether the input has what all parts of a sweep wrote, in the place of a plan.
    pub join: bool,
    /// Whether a spike is swept: where it is and how long it takes are then the words in the place of ranges.
    pub spike: bool,
}
