//! What a node's samples do: to its machine, its counters, and the frames that pass.

ghost use Rattle.std.specs.Prelude.{◌≡◌, ◌+◌, ◌-◌, ◌*◌, ◌<◌, ◌≤◌, ◌^◌, ◌++◌, [], ◌∷◌, true, false, length, count_by, List, OnOk, Option, None, Some, vec_len, vec_capacity};
ghost use Rattle.wl_frame.specs.Grammar.{Content};
ghost use Rattle.wl_confine.specs.Counts.{is_error};
ghost use Rattle.wl_machine.specs.Stretch.{Input, Ended};
ghost use Rattle.wl_machine.specs.Stretch.Ended.{Sent as SentFrame};
ghost use Rattle.wl_machine.specs.Judged.{stretch_of, drive_of};
ghost use Rattle.wl_machine.specs.Reached.{IsMachine};
ghost use Rattle.wl_machine.specs.States.{done_of};
ghost use Rattle.wl_node.specs.declared.setup.NodeSetup.{NodeSetup};
ghost use Rattle.wl_node.specs.declared.setup.Passed.{Passed as PassedFrame};
ghost use Rattle.wl_node.specs.Deciding.{looks_at_head};
ghost use Rattle.wl_node.specs.History.{History, handed, head_at_next, passed_frames, switched_off, history_after_sample, unsent_of};
ghost use Rattle.wl_node.specs.Kept.{IsTraffic};
ghost use Rattle.wl_node.specs.KeptBits.{HasKept};
ghost use Rattle.wl_node.specs.Limits.{most_run_quanta};
ghost use Rattle.wl_node.specs.Runs.{samples_by, samples_from};
ghost use Rattle.wl_node.specs.Unsent.{IsChosen, IsUnsent, left_in};
ghost use Rattle.wl_machine.specs.Doing.{doing_of};

use crate::integration::looks_at_head;
use crate::samples::Samples;
use crate::setup::{NodeSetup, Passed};
use crate::unsent::{Unsent, is_first_ready};
use std::alloc::AllocError;
use wl_confine::{Counters, Happened, Mode};
use wl_frame::frame::Frame;
use wl_level::Level;
use wl_machine::{Done, Machine};
use wl_segments::SyncRules;

/// What a node keeps of its samples, and of what came of them.
#[derive(Drop)]
pub struct Traffic {
    pub machine: Machine,
    pub counters: Counters,
    /// What the node drives from its next bit start on.
    pub pending: Level,
    pub unsent: Unsent,
    pub errors: u64,
    pub samples: Samples,
    pub frames: Vec<Passed>,
}

/// Returns the head that is handed to the machine with a sample of this level. By `after` it is handed only with a recessive one. By the
/// book a dominant one may be its start of frame too, as the third bit of an intermission (Bosch CAN 2.0 part B, section 3.2.5).
fn handed(level: Level, rules: SyncRules, head: Option<Frame>) -> Option<Frame>
    ensures { result ≡ handed level rules head }
{
    if level.is_dominant() && rules == SyncRules::After {
        return None;
    }
    head
}

/// Keeps the frame that a sample completed: one that was sent is the one that was chosen.
fn pass(frames: &mut Vec<Passed>, unsent: &mut Unsent, done: Done, setup: &NodeSetup, quantum: u64)
    requires { vec_len frames.old < vec_capacity frames.old }
    ensures passed { (ended : Ended) (past : List PassedFrame) → done ≡ done_of ended → IsUnsent setup.now unsent.old past
        → ((frame : Content) → ended ≡ SentFrame frame
        → IsChosen setup.now.order (left_in setup.now unsent.old) frame unsent.old.place)
        → (frames.new.items ≡ frames.old.items ++ passed_frames quantum ended)
        × IsUnsent setup.now unsent.new (past ++ passed_frames quantum ended) }
    ensures place { unsent.new.place ≡ unsent.old.place }
{
    match done {
        Done::Nothing => {}
        Done::Sent => {
            if let Some(frame) = unsent.send(setup) {
                frames.push_reserved(Passed {
                    sent: true,
                    quantum,
                    frame,
                });
            }
        }
        Done::Received(frame) => frames.push_reserved(Passed {
            sent: false,
            quantum,
            frame,
        }),
    }
}

/// Counts an error.
fn count(errors: &mut u64, happened: Happened)
    requires { errors.old < most_run_quanta }
    ensures { errors.new ≡ errors.old + count_by is_error (happened ∷ []) }
{
    if happened.is_error() {
        *errors += 1;
    }
}

/// Takes the machine off the bus if a sample made the mode bus off: it drives recessive then.
fn switch_off(machine: &mut Machine, pending: &mut Level, before: Mode, after: Mode)
    ensures { (past : List Input) → IsMachine machine.old past → pending.old ≡ drive_of (stretch_of past)
        → IsMachine machine.new (past ++ switched_off before after)
        × (pending.new ≡ drive_of (stretch_of (past ++ switched_off before after))) }
{
    if before != Mode::Off && after == Mode::Off {
        machine.bus_off();
        *pending = Level::Recessive;
    }
}

/// Lets the machine take samples of this level as long as it only keeps them. `first` is how many quanta go up to and including the first
/// one; each other comes `bit` quanta later, and the last one within `most`. Returns how many: at most 255. A machine keeps no more than
/// seven equal bits in a row, so that there are fewer.
#[inline(always)]
fn keep_equal(machine: &mut Machine, level: Level, first: u64, bit: u16, most: u64) -> u8
    requires short { most ≤ most_run_quanta }
    ensures kept { HasKept level result machine.old machine.new }
    ensures fits { 0 < result → first + (result - 1) * bit ≤ most }
{
    let mut bits = 0;
    let mut end = first;
    while end <= most && bits < u8::MAX {
        if !machine.keep(level) {
            return bits;
        }
        bits += 1;
        end += bit as u64;
    }
    bits
}

impl Traffic {
    /// Makes room for one more sample and one more frame.
    pub fn prepare(&mut self) -> Result<(), AllocError>
        ensures samples { OnOk result (vec_len self.new.samples.runs < vec_capacity self.new.samples.runs) }
        ensures frames { OnOk result (vec_len self.new.frames < vec_capacity self.new.frames) }
        ensures errors { self.new.errors ≡ self.old.errors }
        ensures count { self.new.samples.count ≡ self.old.samples.count }
        ensures keeps { self.new.samples.keeps ≡ self.old.samples.keeps }
        ensures same { (setup : NodeSetup) (h : History) → IsTraffic setup self.old h → IsTraffic setup self.new h }
    {
        self.samples.prepare()?;
        if self.frames.len() == self.frames.capacity() {
            self.frames.reserve(1)?;
        }
        Ok(())
    }

    /// Makes room for this many runs of samples more.
    pub fn reserve(&mut self, runs: usize) -> Result<(), AllocError>
        ensures errors { self.new.errors ≡ self.old.errors }
        ensures count { self.new.samples.count ≡ self.old.samples.count }
        ensures keeps { self.new.samples.keeps ≡ self.old.samples.keeps }
        ensures same { (setup : NodeSetup) (h : History) → IsTraffic setup self.old h → IsTraffic setup self.new h }
    {
        self.samples.reserve(runs)
    }

    /// Takes a sample at this quantum if the machine only keeps it: it is stored, and nothing else comes of it. Else returns false, and
    /// nothing changes.
    #[inline(always)]
    fn keep(&mut self, quantum: u64, level: Level) -> bool
        requires samples { vec_len self.old.samples.runs < vec_capacity self.old.samples.runs }
        requires early { quantum < most_run_quanta }
        requires few { self.old.samples.count ≤ quantum }
        ensures kept { result ≡ true → (setup : NodeSetup) (h : History) → length h.seen ≡ quantum
            → IsTraffic setup self.old h → IsTraffic setup self.new (history_after_sample setup h level) }
        ensures same { result ≡ false → (setup : NodeSetup) (h : History)
            → IsTraffic setup self.old h → IsTraffic setup self.new h }
        ensures samples { result ≡ false → self.new.samples ≡ self.old.samples }
        ensures frames { self.new.frames ≡ self.old.frames }
        ensures errors { self.new.errors ≡ self.old.errors }
        ensures count { self.new.samples.count ≤ self.old.samples.count + 1 }
        ensures keeps { self.new.samples.keeps ≡ self.old.samples.keeps }
    {
        let keeps = self.machine.keep(level);
        if keeps {
            self.samples.push(quantum, level);
        }
        keeps
    }

    /// Takes samples of this level as long as the machine only keeps them, and stores them: the first one at quantum `from`, each other `bit`
    /// quanta later. `first` is how many quanta go up to and including the first one, and the last one comes within `most`. Returns how
    /// many: at most 255.
    #[inline(always)]
    pub fn keep_bits(&mut self, from: u64, level: Level, first: u64, bit: u16, most: u64) -> u8
        requires room { vec_len self.old.samples.runs < vec_capacity self.old.samples.runs }
        requires early { from < most_run_quanta }
        requires few { self.old.samples.count ≤ from }
        requires short { most ≤ most_run_quanta }
        ensures kept { HasKept level result self.old.machine self.new.machine }
        ensures fits { 0 < result → first + (result - 1) * bit ≤ most }
        ensures samples { self.old.samples.keeps ≡ true → samples_by self.new.samples.runs.items
            ≡ samples_by self.old.samples.runs.items ++ samples_from from bit level result }
        ensures counters { self.new.counters ≡ self.old.counters }
        ensures pending { self.new.pending ≡ self.old.pending }
        ensures unsent { self.new.unsent ≡ self.old.unsent }
        ensures frames { self.new.frames ≡ self.old.frames }
        ensures errors { self.new.errors ≡ self.old.errors }
        ensures count { self.new.samples.count ≡ self.old.samples.count + result }
        ensures keeps { self.new.samples.keeps ≡ self.old.samples.keeps }
    {
        let bits = keep_equal(&mut self.machine, level, first, bit, most);
        if 0 < bits {
            self.samples.push_run(from, bit, level, bits);
        }
        bits
    }

    /// Takes a sample at this quantum, as `sample`. One that the machine only keeps goes a shorter way.
    #[inline(always)]
    pub fn take(&mut self, setup: &NodeSetup, quantum: u64, level: Level)
        requires samples { vec_len self.old.samples.runs < vec_capacity self.old.samples.runs }
        requires frames { vec_len self.old.frames < vec_capacity self.old.frames }
        requires early { quantum < most_run_quanta }
        requires few { self.old.samples.count ≤ quantum }
        requires fits { self.old.errors < most_run_quanta }
        ensures traffic { (h : History) → length h.seen ≡ quantum → IsTraffic setup.now self.old h
            → IsTraffic setup.now self.new (history_after_sample setup.now h level) }
        ensures errors { self.new.errors ≤ self.old.errors + 1 }
        ensures count { self.new.samples.count ≤ self.old.samples.count + 1 }
        ensures keeps { self.new.samples.keeps ≡ self.old.samples.keeps }
    {
        if !self.keep(quantum, level) {
            self.sample(setup, quantum, level);
        }
    }

    /// Takes a sample at this quantum: it is stored, and goes to the machine and then to the counters.
    pub fn sample(&mut self, setup: &NodeSetup, quantum: u64, level: Level)
        requires samples { vec_len self.old.samples.runs < vec_capacity self.old.samples.runs }
        requires frames { vec_len self.old.frames < vec_capacity self.old.frames }
        requires early { quantum < most_run_quanta }
        requires few { self.old.samples.count ≤ quantum }
        requires fits { self.old.errors < most_run_quanta }
        ensures traffic { (h : History) → length h.seen ≡ quantum → IsTraffic setup.now self.old h
            → IsTraffic setup.now self.new (history_after_sample setup.now h level) }
        ensures errors { self.new.errors ≤ self.old.errors + 1 }
        ensures count { self.new.samples.count ≤ self.old.samples.count + 1 }
        ensures keeps { self.new.samples.keeps ≡ self.old.samples.keeps }
    {
        if !level.is_dominant()
            && self.machine.is_free()
            && !is_first_ready(self.unsent.frames(setup), quantum)
        {
            self.samples.push(quantum, Level::Recessive);
            return;
        }
        self.judge(setup, quantum, level);
    }

    /// Returns the head that is handed to the machine with a sample of this level, if the machine looks at it, and notes its place.
    fn next_head(&mut self, setup: &NodeSetup, quantum: u64, level: Level) -> Option<Frame>
        ensures traffic { (h : History) → IsTraffic setup.now self.old h → IsTraffic setup.now self.new h }
        ensures handed { (h : History) → length h.seen ≡ quantum → IsTraffic setup.now self.old h
            → looks_at_head (doing_of (stretch_of h.inputs)) ≡ true
            → result ≡ handed level setup.now.segments.sync (head_at_next setup.now h) }
        ensures none { (h : History) → IsTraffic setup.now self.old h
            → looks_at_head (doing_of (stretch_of h.inputs)) ≡ false → result ≡ None }
        ensures chosen { (h : History) (frame : Content) → IsTraffic setup.now self.old h → result ≡ Some frame
            → IsChosen setup.now.order (unsent_of setup.now h) frame self.new.unsent.place }
        ensures frames { self.new.frames ≡ self.old.frames }
        ensures errors { self.new.errors ≡ self.old.errors }
        ensures samples { self.new.samples ≡ self.old.samples }
    {
        if !looks_at_head(self.machine.doing()) {
            return None;
        }
        let head = self.unsent.choose(setup, quantum);
        handed(level, setup.segments.sync(), head)
    }

    /// Takes such a sample, whatever the machine is in.
    fn judge(&mut self, setup: &NodeSetup, quantum: u64, level: Level)
        requires samples { vec_len self.old.samples.runs < vec_capacity self.old.samples.runs }
        requires frames { vec_len self.old.frames < vec_capacity self.old.frames }
        requires early { quantum < most_run_quanta }
        requires few { self.old.samples.count ≤ quantum }
        requires fits { self.old.errors < most_run_quanta }
        ensures traffic { (h : History) → length h.seen ≡ quantum → IsTraffic setup.now self.old h
            → IsTraffic setup.now self.new (history_after_sample setup.now h level) }
        ensures errors { self.new.errors ≤ self.old.errors + 1 }
        ensures count { self.new.samples.count ≤ self.old.samples.count + 1 }
        ensures keeps { self.new.samples.keeps ≡ self.old.samples.keeps }
    {
        wl_machine::laws::a_sent_frame_is_the_head_that_began_its_stretch();
        let mode = self.counters.mode();
        let head = self.next_head(setup, quantum, level);
        let turn = self.machine.bit(level, head.as_ref(), mode);
        self.samples.push(quantum, level);
        self.pending = turn.drive;
        pass(
            &mut self.frames,
            &mut self.unsent,
            turn.done,
            setup,
            quantum,
        );
        count(&mut self.errors, turn.happened);
        self.counters.apply(turn.happened);
        let after = self.counters.mode();
        switch_off(&mut self.machine, &mut self.pending, mode, after);
    }
}
