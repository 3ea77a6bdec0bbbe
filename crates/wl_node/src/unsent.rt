//! The frames of a queue that were not sent yet, and which of them goes next.

ghost use Rattle.std.specs.Prelude.{◌≡◌, ◌↔◌, ◌+◌, ◌<◌, ◌≤◌, ◌++◌, [], ◌∷◌, true, List, None, Some, ℕ, IfOk, MatchOption, IsTrue, length, count_by, drop, take};
ghost use Rattle.wl_frame.specs.Grammar.{Content};
ghost use Rattle.wl_node.specs.declared.setup.Passed.{Passed as PassedFrame};
ghost use Rattle.wl_node.specs.Queues.{field_number, first_frame, head_by, is_sent, queue_without, waiting_frames};
ghost use Rattle.wl_node.specs.Unsent.{IsChosen, IsHeadAt, IsLeastAt, IsUnsent, is_first_ready, left_in, place_of};

use crate::setup::{NodeSetup, Passed, QueueOrder, Queued};
use std::alloc::{AllocError, Global};
use wl_frame::frame::Frame;

/// The frames of a queue that were not sent yet, as far as a node has come.
#[derive(Drop)]
pub struct Unsent {
    /// By priority all frames of the queue: first those that were sent, and then the others, in the queue's order. First in, first
    /// out none, as the queue itself is in that order.
    pub(crate) line: Vec<Queued>,
    /// How many were sent.
    pub(crate) sent: usize,
    /// Which of the others was chosen last, counted from 0.
    pub(crate) place: usize,
}

impl Unsent {
    /// Returns the frames of a node of this setup before any was sent. Refused only if memory runs out.
    pub fn new(alloc: Global, setup: &NodeSetup) -> Result<Unsent, AllocError>
        ensures { IfOk result (λ unsent. IsUnsent setup.now unsent []) }
    {
        let line = match setup.order {
            QueueOrder::Fifo => Vec::new(alloc),
            QueueOrder::Priority => Vec::from_slice(alloc, setup.queue.as_slice())?,
        };
        Ok(Unsent {
            line,
            sent: 0,
            place: 0,
        })
    }

    /// Returns the frames that were not sent yet, in the queue's order.
    pub fn frames<'a>(&'a self, setup: &'a NodeSetup) -> &'a [Queued]
        ensures { result.now ≡ left_in setup.now self.now }
    {
        let all = match setup.order {
            QueueOrder::Fifo => setup.queue.as_slice(),
            QueueOrder::Priority => self.line.as_slice(),
        };
        &all[self.sent.min(all.len())..]
    }

    /// Chooses the head at this quantum, and returns it: of the frames that wait then, the one that the order of the queue puts first.
    pub fn choose(&mut self, setup: &NodeSetup, quantum: u64) -> Option<Frame>
        ensures head { result ≡ head_by setup.now.order (left_in setup.now self.old) quantum }
        ensures chosen { (frame : Content) → result ≡ Some frame
            → IsChosen setup.now.order (left_in setup.now self.old) frame self.new.place }
        ensures same { (passed : List PassedFrame) → IsUnsent setup.now self.old passed
            → IsUnsent setup.now self.new passed }
    {
        let unsent = self.frames(setup);
        let place = head_place(setup.order, unsent, quantum)?;
        let frame = unsent[place].frame;
        self.place = place;
        Some(frame)
    }

    /// Takes the frame out that was chosen last, and returns it: it was sent.
    pub fn send(&mut self, setup: &NodeSetup) -> Option<Frame>
        ensures place { self.new.place ≡ self.old.place }
        ensures sent { (passed : List PassedFrame) (frame : Content) (quantum : ℕ) → IsUnsent setup.now self.old passed
            → IsChosen setup.now.order (left_in setup.now self.old) frame self.old.place
            → (result ≡ Some frame)
            × IsUnsent setup.now self.new (passed ++ record { sent = true; quantum = quantum; frame = frame } ∷ []) }
    {
        match setup.order {
            QueueOrder::Fifo => self.send_first(setup.queue.as_slice()),
            QueueOrder::Priority => self.send_at(self.place),
        }
    }

    /// Takes out the first frame of a queue that is first in, first out.
    fn send_first(&mut self, queue: &[Queued]) -> Option<Frame>
        ensures line { self.new.line ≡ self.old.line }
        ensures place { self.new.place ≡ self.old.place }
        ensures left { drop self.new.sent queue.now ≡ drop 1 (drop self.old.sent queue.now) }
        ensures sent { (frame : Content) → first_frame (drop self.old.sent queue.now) ≡ Some frame
            → (result ≡ Some frame) × (self.new.sent ≡ self.old.sent + 1) }
    {
        let first = queue.get(self.sent)?;
        self.sent += 1;
        Some(first.frame)
    }

    /// Takes out the frame at this place of a queue that goes by priority.
    fn send_at(&mut self, place: usize) -> Option<Frame>
        ensures place { self.new.place ≡ self.old.place }
        ensures long { length self.new.line.items ≡ length self.old.line.items }
        ensures sent { (frame : Content) → place_of frame (drop self.old.sent self.old.line.items) ≡ Some place
            → (result ≡ Some frame)
            × (drop self.new.sent self.new.line.items ≡ queue_without frame (drop self.old.sent self.old.line.items)) }
    {
        let all = self.line.len();
        if all <= self.sent || all - self.sent <= place {
            return None;
        }
        let frame = self.line[self.sent + place].frame;
        take_out(&mut self.line, self.sent, place);
        self.sent += 1;
        Some(frame)
    }

    /// Puts them back to where these frames had left them; `sent` says how many of these were sent.
    pub fn back(&mut self, setup: &NodeSetup, sent: usize, passed: &[Passed])
        ensures place { self.new.place ≡ self.old.place }
        ensures passed { (all : List PassedFrame) → IsUnsent setup.now self.old all
            → (setup.now.order ≡ QueueOrder.Fifo → sent ≡ count_by is_sent passed.now)
            → IsUnsent setup.now self.new passed.now }
    {
        match setup.order {
            QueueOrder::Fifo => self.sent = sent,
            QueueOrder::Priority => {
                self.sent = 0;
                fill(&mut self.line, setup.queue.as_slice());
                self.send_again(setup, passed);
            }
        }
    }
}

impl Unsent {
    /// Takes out of the whole queue those of these frames that were sent.
    fn send_again(&mut self, setup: &NodeSetup, passed: &[Passed])
        ensures place { self.new.place ≡ self.old.place }
        ensures passed { setup.now.order ≡ QueueOrder.Priority → IsUnsent setup.now self.old []
            → IsUnsent setup.now self.new passed.now }
    {
        for k in 0..passed.len() {
            if passed[k].sent {
                self.send_frame(setup, &passed[k].frame);
            }
        }
    }

    /// Takes out the first frame that carries this.
    fn send_frame(&mut self, setup: &NodeSetup, frame: &Frame)
        ensures place { self.new.place ≡ self.old.place }
        ensures passed { setup.now.order ≡ QueueOrder.Priority → (passed : List PassedFrame) (quantum : ℕ)
            → IsUnsent setup.now self.old passed → IsUnsent setup.now self.new
            (passed ++ record { sent = true; quantum = quantum; frame = frame.now } ∷ []) }
    {
        if let Some(place) = place_of(self.frames(setup), frame) {
            let _ = self.send_at(place);
        }
    }
}

/// Returns the arbitration field of a frame as a number: the lesser one wins (Bosch CAN 2.0 part B, section 3.1).
fn field_number(frame: &Frame) -> u32
    ensures { result ≡ field_number frame.now }
{
    let remote = if frame.remote() { 1 } else { 0 };
    let id = frame.id();
    if frame.is_extended() {
        id / 0x4_0000 * 0x20_0000 + 0x10_0000 + 0x8_0000 + id % 0x4_0000 * 2 + remote
    } else {
        id * 0x20_0000 + remote * 0x10_0000
    }
}

/// True if the first of these frames is ready at this quantum: then one of them is to be sent, whatever the order.
pub(crate) fn is_first_ready(unsent: &[Queued], quantum: u64) -> bool
    ensures { result ≡ is_first_ready unsent.now quantum }
{
    match unsent.first() {
        Some(first) => first.ready <= quantum,
        None => false,
    }
}

/// Returns the place of the head at this quantum, counted from 0.
fn head_place(order: QueueOrder, unsent: &[Queued], quantum: u64) -> Option<usize>
    ensures { MatchOption result (head_by order unsent.now quantum ≡ None) (IsHeadAt order unsent.now quantum) }
{
    if !is_first_ready(unsent, quantum) {
        return None;
    }
    match order {
        QueueOrder::Fifo => Some(0),
        QueueOrder::Priority => least_place(waiting(unsent, quantum)),
    }
}

/// Returns the frames that wait in the controller at this quantum.
fn waiting<'a>(unsent: &'a [Queued], quantum: u64) -> &'a [Queued]
    ensures { result.now ≡ waiting_frames unsent.now quantum }
{
    let mut count = 0;
    while count < unsent.len() && unsent[count].ready <= quantum {
        count += 1;
    }
    &unsent[..count]
}

/// Returns the place of the frame with the least field, the first of equal ones.
fn least_place(waiting: &[Queued]) -> Option<usize>
    ensures { MatchOption result (waiting.now ≡ []) (IsLeastAt waiting.now) }
{
    let mut k = waiting.len();
    if k == 0 {
        return None;
    }
    k -= 1;
    let mut place = k;
    let mut least = field_number(&waiting[k].frame);
    while 0 < k {
        k -= 1;
        let field = field_number(&waiting[k].frame);
        if field <= least {
            least = field;
            place = k;
        }
    }
    Some(place)
}

/// Returns the place of the first frame that carries this.
fn place_of(unsent: &[Queued], frame: &Frame) -> Option<usize>
    ensures { result ≡ place_of frame.now unsent.now }
{
    for k in 0..unsent.len() {
        if unsent[k].frame == *frame {
            return Some(k);
        }
    }
    None
}

/// Moves the frame at this place of the unsent ones in front of them.
fn take_out(line: &mut Vec<Queued>, sent: usize, place: usize)
    requires { sent + place < length line.old.items }
    ensures left { drop (sent + 1) line.new.items
        ≡ take place (drop sent line.old.items) ++ drop (place + 1) (drop sent line.old.items) }
    ensures long { length line.new.items ≡ length line.old.items }
{
    let taken = line[sent + place];
    line.copy_within(sent..sent + place, sent + 1);
    line[sent] = taken;
}

/// Puts a queue into a line of the same length.
fn fill(line: &mut Vec<Queued>, queue: &[Queued])
    ensures { length line.old.items ≡ length queue.now → line.new.items ≡ queue.now }
{
    if line.len() == queue.len() {
        line.as_mut_slice().copy_from_slice(queue);
    }
}
