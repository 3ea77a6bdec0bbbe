//! The machine of a node, bit by bit: integration, frames sent and received, flags, delimiters,
//! intermission, suspension and bus off (Bosch CAN 2.0 part B, sections 3, 6, 7 and 8).
#![tactic(auto)]

ghost use Rattle.std.specs.Prelude.{◌≡◌, ◌++◌, [], ◌∷◌, ◌≤◌, ℕ, true, false, List, length, map, Option, Some, None};
ghost use Rattle.std.specs.List.{All};
ghost use Rattle.wl_machine.specs.Stretch.{Input};
ghost use Rattle.wl_machine.specs.States.{IsReachedBy};

use wl_confine::{Happened, Mode};
use wl_frame::frame::{Frame, FrameBits};
use wl_level::Level;

mod between_frames;
mod copy;
mod doing;
mod flags;
mod framing;
pub mod laws;
mod progress;
mod recessive_stay;
mod silence;
mod state;

pub use doing::Doing;
use progress::Progress;
use state::State;

/// A frame that one sample completed (Bosch CAN 2.0 part B, section 5).
#[derive(Clone, Copy, Debug, PartialEq, Eq)]
pub enum Done {
    /// None.
    Nothing,
    /// The frame that the node sends, with the last bit of its end of frame: the head with which the
    /// stretch of this frame began.
    Sent,
    /// A frame that another node sends, with the last bit but one of its end of frame.
    Received(Frame),
}

/// What one sampled bit did.
#[derive(Clone, Copy, Debug, PartialEq, Eq)]
pub struct Turn {
    /// The level that the node drives from the next bit start on, up to the next turn's.
    pub drive: Level,
    /// What the error counters are to count.
    pub happened: Happened,
    /// The frame that this bit completed.
    pub done: Done,
}

/// The machine of a node: what it does at each sampled bit (Bosch CAN 2.0 part B, sections 3, 6, 7 and 8).
///
/// Each machine is where some list of samples and calls of [`Machine::bus_off`] puts it. A call takes no memory. It goes over a frame's
/// bits when the frame begins, at its last stuffed bit and when it has been received. Elsewhere it goes over no more than the data length
/// code.
#[derive(Drop)]
pub struct Machine {
    progress: Progress,
    ghost reached: { ∥ ((past : List Input) × IsReachedBy progress past) ∥₁ },
}

impl Machine {
    ghost use Rattle.std.specs.Option.{option_copied};
    ghost use Rattle.wl_machine.specs.Stretch.Input.{Sample, SwitchedOff};
    ghost use Rattle.wl_machine.specs.Judged.{awaits_start, judged, stretch_of, drive_of, is_free_sort, is_idle_sort};
    ghost use Rattle.wl_machine.specs.States.{sample_of, done_of};
    ghost use Rattle.wl_machine.specs.Keeps.{keeps};
    ghost use Rattle.wl_machine.specs.RecessiveStay.{rest_of, IsRecessive};
    ghost use Rattle.wl_machine.specs.Silence.{silence_of};
    ghost use Rattle.wl_machine.specs.Stretch.{Sampled, continues};
    ghost use Rattle.wl_frame.specs.Grammar.{Content};
    ghost use Rattle.wl_machine.specs.Reached.{IsMachine};

    /// Returns a machine before its first sample. It takes part in the traffic only once it has sampled eleven recessive bits in a row
    /// (this project's profile; ISO 11898-1, bus integration).
    pub fn new() -> Machine
        ensures { IsMachine result [] }
    {
        Machine {
            progress: Progress::new(),
        }
    }

    /// Takes one sampled bit, and returns what it does.
    ///
    /// `head` is the frame that is to be sent next, if there is one. It is looked at only when the bus becomes free, and at a dominant
    /// third bit of an intermission, which is its start of frame then. A frame that has begun is sent to its end or to its first error,
    /// whatever is handed in later. `mode` is the mode before this sample.
    #[inline(always)]
    pub fn bit(&mut self, sample: Level, head: Option<&Frame>, mode: Mode) -> Turn
        ensures machine { (past : List Input) → IsMachine self.old past
            → IsMachine self.new (past ++ Sample (sample_of sample (option_copied head.entry) mode) ∷ []) }
        ensures drive { (past : List Input) → IsMachine self.old past
            → result.drive ≡ drive_of (stretch_of (past ++ Sample (sample_of sample (option_copied head.entry) mode) ∷ [])) }
        ensures happened { (past : List Input) → IsMachine self.old past
            → result.happened ≡ (judged (stretch_of past) (sample_of sample (option_copied head.entry) mode)).happened }
        ensures done { (past : List Input) → IsMachine self.old past
            → result.done ≡ done_of (judged (stretch_of past) (sample_of sample (option_copied head.entry) mode)).ended }
    {
        let step = self.progress.step(sample, head, mode);
        Turn {
            drive: self.progress.drive(),
            happened: step.happened,
            done: step.done,
        }
    }

    /// Takes one sampled bit, if it is one of those below, which do nothing but that the machine has it. Else it returns false, and leaves the
    /// machine where it was.
    ///
    /// With such a bit no frame begins or ends, and nothing is counted. The node drives recessive before and after, whatever it is to send
    /// and in whatever mode. They are a receiver's bits up to the end of what is stuffed, but for a sixth equal one (Bosch CAN 2.0 part B,
    /// sections 6 and 7.1). These are such, too, if they are recessive:
    ///
    /// - a receiver's ACK delimiter, if its CRC sequence is right, and the first five bits of its end of frame (section 3.2.1);
    /// - a transmitter's bits after what is stuffed, but for the acknowledgement slot and the last bit of the end of frame (section 3.2.1);
    /// - the second to the seventh bit of a flag's delimiter (section 3.2.3);
    /// - the first two bits of an intermission (section 3.2.5).
    #[inline(always)]
    pub fn keep(&mut self, sample: Level) -> bool
        ensures value { (past : List Input) → IsMachine self.old past → result ≡ keeps (stretch_of past) sample }
        ensures stays { result ≡ false → (past : List Input) → IsMachine self.old past → IsMachine self.new past }
        ensures machine { result ≡ true → (past : List Input) → IsMachine self.old past
            → (head : Option Content) (mode : Mode)
            → IsMachine self.new (past ++ Sample (sample_of sample head mode) ∷ []) }
        ensures judged { result ≡ true → (past : List Input) → IsMachine self.old past
            → (head : Option Content) (mode : Mode)
            → judged (stretch_of past) (sample_of sample head mode) ≡ continues Happened.Nothing }
        ensures before { result ≡ true → (past : List Input) → IsMachine self.old past
            → drive_of (stretch_of past) ≡ Level.Recessive }
        ensures after { result ≡ true → (past : List Input) → IsMachine self.old past
            → (head : Option Content) (mode : Mode)
            → drive_of (stretch_of (past ++ Sample (sample_of sample head mode) ∷ [])) ≡ Level.Recessive }
    {
        self.progress.keep(sample)
    }

    /// Puts the machine into bus off, wherever it is: it drives recessive from the next bit start
    /// on, and comes back after 128 runs of eleven recessive samples (Bosch CAN 2.0 part B, section
    /// 8, rules 10 and 12).
    pub fn bus_off(&mut self)
        ensures { (past : List Input) → IsMachine self.new (past ++ SwitchedOff ∷ []) }
    {
        self.progress.switch_off();
    }

    /// True if the bus is idle to the node: it is free and the node has nothing to send, or the node is suspended (Bosch CAN 2.0 part B,
    /// section 3.2.5). A node that has decided to send is not idle.
    pub fn idle(&self) -> bool
        ensures { (past : List Input) → IsMachine self.now past → result ≡ is_idle_sort (stretch_of past).sort }
    {
        self.progress.is_idle()
    }

    /// True if the next edge may be a start of frame to the node, up to its own (Bosch CAN 2.0 part B, sections 3.2.1 and 3.2.5; ISO
    /// 11898-1, hard synchronisation).
    ///
    /// So it is on an idle bus, while the node is suspended or integrates, and from the sample of the first bit of an intermission to that
    /// of the third. If the node has decided to send, so it is up to the sample of its start of frame.
    pub fn awaits_start(&self) -> bool
        ensures { (past : List Input) → IsMachine self.now past → result ≡ awaits_start (stretch_of past) }
    {
        self.progress.awaits_start()
    }

    /// True if the bus is free and the node has nothing to send. A recessive sample then leaves the machine as it is, as long as it is
    /// handed no frame.
    pub fn is_free(&self) -> bool
        ensures sort { (past : List Input) → IsMachine self.now past → result ≡ is_free_sort (stretch_of past).sort }
        ensures stays { result ≡ true → (past : List Input) (mode : Mode) → IsMachine self.now past
            → IsMachine self.now (past ++ Sample (sample_of Level.Recessive None mode) ∷ []) }
    {
        self.progress.is_free()
    }

    /// Returns for how many samples more the machine is sure to drive recessive, whatever it samples, and also if it goes off the bus: with
    /// `heads` whatever frame it is handed, and without as long as it is handed none. At most 1,407; 0 if it may drive dominant after its
    /// next sample, or does so now (the lookahead of Chandy and Misra, 1979).
    pub fn silence(&self, heads: bool) -> u16
        ensures { (past : List Input) → IsMachine self.now past → result ≡ silence_of heads (stretch_of past) }
    {
        self.progress.silence(heads)
    }

    /// Returns for how many recessive samples more the machine is sure to want recessive, whatever frames it is handed and in whatever
    /// modes: at most 1,407.
    ///
    /// `None` if it isn't at rest: in a frame before its ACK delimiter, in one whose CRC sequence is wrong, and in a flag of six dominant
    /// bits. A machine at rest that is handed no frame goes on to a free bus with recessive samples. It wants recessive all along (Bosch
    /// CAN 2.0 part B, sections 3.2 and 8, rule 12).
    pub fn rest(&self) -> Option<u16>
        ensures value { (past : List Input) → IsMachine self.now past → result ≡ rest_of (stretch_of past) }
        ensures stands { (past : List Input) (more : List Sampled) (n : ℕ) → IsMachine self.now past → result ≡ Some n
            → All IsRecessive more → length more ≤ n
            → drive_of (stretch_of (past ++ map Sample more)) ≡ Level.Recessive }
    {
        self.progress.rest()
    }
}
