//! The running stretch of a node's machine: what it is, and its samples so far (Bosch CAN 2.0 part B, sections 3, 6 and 7).
ghost use Rattle.std.specs.Prelude.{◌≡◌, ◌&&◌, not, ◌≤◌, ℕ, Bool, true, false, if◌then◌else◌, None, ◌++◌, [], ◌∷◌, length, List, OnOk, Option, Some};
ghost use Rattle.std.specs.Option.{option_copied};
ghost use Rattle.wl_level.specs.declared.Level.{Level};
ghost use Rattle.wl_level.specs.Places.{at, or_at, run_at_end};
ghost use Rattle.wl_confine.specs.Counts.{is_error};
ghost use Rattle.wl_frame.specs.Grammar.{Content, bits_of, is_whole};
ghost use Rattle.wl_frame.specs.Stuffing.{destuffed_bits, is_stuff};
ghost use Rattle.wl_machine.specs.Stretch.{Flag, Stretch, Sampled, free};
ghost use Rattle.wl_machine.specs.Stretch.Flag.{OverloadFlag};
ghost use Rattle.wl_machine.specs.Stretch.Input.{Sample, SwitchedOff};
ghost use Rattle.wl_machine.specs.Stretch.Sort.{Integration as IntegrationSort, Framing as FramingSort, Flagging as FlaggingSort};
ghost use Rattle.wl_machine.specs.States.{stretch_by};
ghost use Rattle.wl_machine.specs.Flags.{delimiting, dominant_flag, error_flag, passive_flag, waiting};
ghost use Rattle.wl_machine.specs.Frames.{framing, frame_role, is_lost, received_tail, receiving, sending, sent_tail, stuffed_end};
ghost use Rattle.wl_machine.specs.BetweenFrames.{idle, integration, intermission, off_bus, suspension};
ghost use Rattle.wl_machine.specs.Judged.{head_of, judged, role_of, stretch_after};
ghost use Rattle.wl_machine.specs.Roles.{loses};
ghost use Rattle.wl_trace.specs.Events.{free_kind, is_transmitter};
ghost use Rattle.wl_trace.specs.Places.{is_at_stuff, known_bits, next_place, stuffed_place};
ghost use Rattle.wl_trace.specs.Running.{ComesNext, KeepsSent, KeepsStretch, error_kind, first_samples, way_of};

use std::alloc::{AllocError, Global};
use wl_confine::{ErrorKind, Happened, Mode};
use wl_frame::field::{FrameField, FramePlace, field_of, tail_field};
use wl_frame::frame::{Frame, FrameBits};
use wl_frame::places::{EXTENDED_RTR, is_arbitration, is_whole};
use wl_level::Level;

/// After this many equal bits a stuff bit is due.
const STUFF_RUN: usize = 5;

/// After this many recessive samples in a row an integration is over.
const INTEGRATION_RUN: usize = 11;

/// How many equal samples in a row end a passive flag, and how many samples a dominant one.
const FLAG_BITS: usize = 6;

/// How many bits the delimiter of a flag has.
const DELIMITER_BITS: usize = 8;

/// How many bits an intermission has.
const INTERMISSION_BITS: usize = 3;

/// How many bits a suspension has.
const SUSPENSION_BITS: usize = 8;

/// The last bit of the end of frame, by its place after all that is stuffed.
const LAST: usize = 9;

/// What a stretch is. `sends`: of a transmitter.
#[derive(Clone, Copy)]
pub(crate) enum StretchKind {
    Integration,
    Idle,
    /// A frame: the one that is sent, if there is one, and the place at which all that is stuffed ends.
    Framing {
        head: Option<Frame>,
        sends: bool,
        end: Option<usize>,
    },
    DominantFlag {
        overload: bool,
        sends: bool,
    },
    PassiveFlag {
        sends: bool,
    },
    Waiting {
        sends: bool,
    },
    Delimiting {
        sends: bool,
    },
    Intermission {
        sends: bool,
    },
    Suspension,
    OffBus,
}

/// What comes with a sample.
#[derive(Clone, Copy)]
pub(crate) enum NextStretch {
    /// The stretch goes on.
    Same,
    /// Another one begins, with this sample (`sampled`) or with the next one.
    Begins { kind: StretchKind, sampled: bool },
}

/// The running stretch, with its samples and, of a frame, those that are no stuff bits.
#[derive(Drop)]
pub(crate) struct RunningStretch {
    pub(crate) kind: StretchKind,
    pub(crate) own: Vec<Level>,
    pub(crate) bits: Vec<Level>,
    /// The bits of the frame that is sent, if there is one.
    pub(crate) sent: FrameBits,
}

/// Returns the bits of the frame that is sent in a stretch of this kind; none if there is no such frame.
fn bits_sent(kind: &StretchKind) -> FrameBits
    ensures { KeepsSent kind.now result.items }
{
    match *kind {
        StretchKind::Framing {
            head: Some(frame),
            ..
        } => frame.bits(),
        _ => FrameBits::new(),
    }
}

/// Returns a stretch that begins with the next sample.
fn begins(kind: StretchKind) -> NextStretch
    ensures { result ≡ NextStretch.Begins kind false }
{
    NextStretch::Begins {
        kind,
        sampled: false,
    }
}

/// Returns a frame that another node begins with this sample.
fn received() -> NextStretch
    ensures { (level : Level) → ComesNext level result (Some (stretch_by (FramingSort None) (level ∷ []))) }
{
    NextStretch::Begins {
        kind: StretchKind::Framing {
            head: None,
            sends: false,
            end: None,
        },
        sampled: true,
    }
}

/// Returns the stretch of a frame that begins with this sample: that of the head, if there is one, and else that of another node.
fn framed(head: Option<&Frame>) -> NextStretch
    ensures { (level : Level)
        → ComesNext level result (Some (stretch_by (FramingSort (option_copied head.entry)) (level ∷ []))) }
{
    match head {
        Some(frame) => NextStretch::Begins {
            kind: StretchKind::Framing {
                head: Some(*frame),
                sends: true,
                end: None,
            },
            sampled: true,
        },
        None => received(),
    }
}

/// Returns what comes on a free bus: the head is sent from its start of frame on, if there is one.
fn free(head: Option<&Frame>) -> NextStretch
    ensures { (level : Level) → ComesNext level result (Some (stretch_by (free (option_copied head.entry)) [])) }
{
    match head {
        Some(frame) => begins(StretchKind::Framing {
            head: Some(*frame),
            sends: true,
            end: None,
        }),
        None => begins(StretchKind::Idle),
    }
}

/// Returns how many samples of a level are at the end of a list.
fn run_at_end(level: Level, samples: &[Level]) -> usize
    ensures run { result ≡ run_at_end level samples.now }
    ensures few { result ≤ length samples.now }
{
    let mut run = 0;
    while run < samples.len() && samples[samples.len() - 1 - run].is(level) {
        run += 1;
    }
    run
}

/// Returns how many there are with one sample more.
fn longer_run(level: Level, samples: &[Level], last: Level) -> usize
    ensures { result ≡ run_at_end level (samples.now ++ last ∷ []) }
{
    wl_level::place_laws();
    if last.is(level) {
        run_at_end(level, samples) + 1
    } else {
        0
    }
}

/// Takes a sample of an integration.
fn after_integration(own: &[Level], level: Level, head: Option<&Frame>) -> NextStretch
    ensures { (x : Sampled) → x.level ≡ level → x.head ≡ option_copied head.entry
        → ComesNext level result (integration own.now x).next }
{
    if longer_run(Level::Recessive, own, level) == INTEGRATION_RUN {
        free(head)
    } else {
        NextStretch::Same
    }
}

/// Takes a sample of an idle bus.
fn after_idle(level: Level, head: Option<&Frame>) -> NextStretch
    ensures { (x : Sampled) → x.level ≡ level → x.head ≡ option_copied head.entry
        → ComesNext level result (idle x).next }
{
    if level.is_dominant() {
        return received();
    }
    match head {
        Some(_) => free(head),
        None => NextStretch::Same,
    }
}

/// Returns the flag of an error that was found in this mode.
fn error_flag(mode: Mode, sends: bool) -> StretchKind
    ensures { result ≡ error_kind mode sends }
{
    match mode {
        Mode::Active => StretchKind::DominantFlag {
            overload: false,
            sends,
        },
        _ => StretchKind::PassiveFlag { sends },
    }
}

/// Returns the flag of an overload.
fn overload_flag(sends: bool) -> NextStretch
    ensures { (level : Level)
        → ComesNext level result (Some (stretch_by (FlaggingSort OverloadFlag (way_of sends)) [])) }
{
    begins(StretchKind::DominantFlag {
        overload: true,
        sends,
    })
}

/// Takes a sample of a dominant flag.
fn after_dominant_flag(own: &[Level], sends: bool) -> NextStretch
    ensures { (x : Sampled) (flag : Flag)
        → ComesNext x.level result (dominant_flag flag (way_of sends) own.now x).next }
{
    if own.len() == FLAG_BITS - 1 {
        begins(StretchKind::Waiting { sends })
    } else {
        NextStretch::Same
    }
}

/// Takes a sample of a passive flag.
fn after_passive_flag(own: &[Level], level: Level, sends: bool) -> NextStretch
    ensures { (x : Sampled) (unacknowledged : Bool) → x.level ≡ level
        → ComesNext level result (passive_flag unacknowledged (way_of sends) own.now x).next }
{
    if longer_run(level, own, level) == FLAG_BITS {
        begins(StretchKind::Waiting { sends })
    } else {
        NextStretch::Same
    }
}

/// Takes a sample of the wait after a flag.
fn after_waiting(level: Level, sends: bool) -> NextStretch
    ensures { (x : Sampled) (flag : Flag) (flagged own : List Level) → x.level ≡ level
        → ComesNext level result (waiting flag (way_of sends) flagged own x).next }
{
    if level.is_dominant() {
        return NextStretch::Same;
    }
    NextStretch::Begins {
        kind: StretchKind::Delimiting { sends },
        sampled: true,
    }
}

/// Takes a sample of a delimiter.
fn after_delimiting(own: &[Level], level: Level, mode: Mode, sends: bool) -> NextStretch
    ensures { (x : Sampled) → x.level ≡ level → x.mode ≡ mode
        → ComesNext level result (delimiting (way_of sends) own.now x).next }
{
    let last = own.len() == DELIMITER_BITS - 1;
    match (level, last) {
        (Level::Recessive, true) => begins(StretchKind::Intermission { sends }),
        (Level::Recessive, false) => NextStretch::Same,
        (Level::Dominant, true) => overload_flag(sends),
        (Level::Dominant, false) => begins(error_flag(mode, sends)),
    }
}

/// Takes a sample of an intermission.
fn after_intermission(
    own: &[Level],
    level: Level,
    head: Option<&Frame>,
    mode: Mode,
    sends: bool,
) -> NextStretch
    ensures { (x : Sampled) → x.level ≡ level → x.head ≡ option_copied head.entry → x.mode ≡ mode
        → ComesNext level result (intermission (way_of sends) own.now x).next }
{
    let last = own.len() == INTERMISSION_BITS - 1;
    let suspends = sends && mode == Mode::Passive;
    match (level, last) {
        (Level::Dominant, true) if suspends => received(),
        (Level::Dominant, true) => framed(head),
        (Level::Dominant, false) => overload_flag(sends),
        (Level::Recessive, false) => NextStretch::Same,
        (Level::Recessive, true) if suspends => begins(StretchKind::Suspension),
        (Level::Recessive, true) => free(head),
    }
}

/// Takes a sample of a suspension.
fn after_suspension(own: &[Level], level: Level, head: Option<&Frame>) -> NextStretch
    ensures { (x : Sampled) → x.level ≡ level → x.head ≡ option_copied head.entry
        → ComesNext level result (suspension own.now x).next }
{
    if level.is_dominant() {
        received()
    } else if own.len() == SUSPENSION_BITS - 1 {
        free(head)
    } else {
        NextStretch::Same
    }
}

/// Takes a sample in bus off, by what happened at it.
fn after_off(happened: Happened, head: Option<&Frame>) -> NextStretch
    ensures { (x : Sampled) (own : List Level) → x.head ≡ option_copied head.entry → happened ≡ (off_bus own x).happened
        → ComesNext x.level result (off_bus own x).next }
{
    match happened {
        Happened::Recovered => free(head),
        _ => NextStretch::Same,
    }
}

/// Returns the flag of an error, if one was found.
fn after_error(mode: Mode, happened: Happened, sends: bool) -> NextStretch
    ensures { result ≡ (if is_error happened then NextStretch.Begins (error_kind mode sends) false
        else NextStretch.Same) }
{
    if happened.is_error() {
        begins(error_flag(mode, sends))
    } else {
        NextStretch::Same
    }
}

/// Takes a sample of a transmitter, up to the end of what is stuffed, by what happened at it.
fn after_sending(mode: Mode, happened: Happened) -> NextStretch
    ensures { (x : Sampled) (head : Content) (own : List Level) → x.mode ≡ mode
        → happened ≡ (sending head own x).happened
        → ComesNext x.level result (sending head own x).next }
{
    after_error(mode, happened, true)
}

/// Takes a sample of a receiver, up to the end of what is stuffed, by what happened at it.
fn after_receiving(mode: Mode, happened: Happened) -> NextStretch
    ensures { (x : Sampled) (own : List Level) → x.mode ≡ mode → happened ≡ (receiving own x).happened
        → ComesNext x.level result (receiving own x).next }
{
    after_error(mode, happened, false)
}

/// Takes a sample of a transmitter after all that is stuffed, by what happened at it.
fn after_sent_tail(mode: Mode, happened: Happened) -> NextStretch
    ensures { (x : Sampled) (head : Content) (n : ℕ) → x.mode ≡ mode → happened ≡ (sent_tail head n x).happened
        → ComesNext x.level result (sent_tail head n x).next }
{
    match happened {
        Happened::TxFree => begins(StretchKind::PassiveFlag { sends: true }),
        Happened::Sent => begins(StretchKind::Intermission { sends: true }),
        _ => after_error(mode, happened, true),
    }
}

/// Takes a sample of a receiver at this place after all that is stuffed, by what happened at it.
fn after_received_tail(place: usize, level: Level, mode: Mode, happened: Happened) -> NextStretch
    ensures { (x : Sampled) (bits : List Level) → x.level ≡ level → x.mode ≡ mode
        → happened ≡ (received_tail bits place x).happened
        → ComesNext level result (received_tail bits place x).next }
{
    if place != LAST {
        return after_error(mode, happened, false);
    }
    if level.is_dominant() {
        overload_flag(false)
    } else {
        begins(StretchKind::Intermission { sends: false })
    }
}

/// Takes a sample of a frame, by what happened at it. `count`: the samples of the frame before it.
fn after_framing(
    sends: bool,
    end: Option<usize>,
    count: usize,
    level: Level,
    mode: Mode,
    happened: Happened,
) -> NextStretch
    ensures { (x : Sampled) (head : Option Content) (own : List Level) → x.level ≡ level → x.mode ≡ mode
        → count ≡ length own
        → frame_role head own ≡ way_of sends → stuffed_end own ≡ end → happened ≡ (framing head own x).happened
        → ComesNext level result (framing head own x).next }
{
    match (sends, end) {
        (true, None) => after_sending(mode, happened),
        (true, Some(_)) => after_sent_tail(mode, happened),
        (false, None) => after_receiving(mode, happened),
        (false, Some(end)) => {
            after_received_tail(count.saturating_sub(end), level, mode, happened)
        }
    }
}

/// True if a transmitter is still one after a sample with which it lost the arbitration or not.
fn still_sends(sends: bool, lost: bool) -> bool
    ensures { result ≡ (if lost then false else sends) }
{
    sends && !lost
}

/// True if the sender of a frame with these bits loses the arbitration with a sample of this level, after these samples; `bits` of them are
/// no stuff bits.
fn is_lost(sent: &[Level], own: &[Level], bits: &[Level], level: Level) -> bool
    ensures { (head : Content) → sent.now ≡ bits_of head → bits.now ≡ destuffed_bits own.now (length own.now)
        → result ≡ is_lost head (own.now ++ level ∷ []) (length own.now) }
{
    if !level.is_dominant() {
        return false;
    }
    if bits.len() > EXTENDED_RTR {
        return false;
    }
    is_lost_to(sent, own, bits, level)
}

/// True if it does so, by the frame's own bits.
fn is_lost_to(sent: &[Level], own: &[Level], bits: &[Level], level: Level) -> bool
    ensures { (head : Content) → sent.now ≡ bits_of head → bits.now ≡ destuffed_bits own.now (length own.now)
        → result ≡ is_lost head (own.now ++ level ∷ []) (length own.now) }
{
    if is_stuff_due(own) {
        return false;
    }
    let place = bits.len();
    let inside = is_arbitration(sent, place);
    let recessive = !level_at(sent, place).is_dominant();
    let dominant = level.is_dominant();
    inside & recessive & dominant
}

/// True if a stuff bit is due after these samples of a frame.
pub(crate) fn is_stuff_due(own: &[Level]) -> bool
    ensures { result ≡ is_stuff own.now (length own.now) }
{
    let count = own.len();
    if count < STUFF_RUN {
        return false;
    }
    let last = own[count - 1];
    own[count - 5].is(own[count - 4])
        && own[count - 4].is(own[count - 3])
        && own[count - 3].is(own[count - 2])
        && own[count - 2].is(last)
}

impl RunningStretch {
    /// Returns the integration that a machine begins with.
    pub(crate) fn new(alloc: Global) -> RunningStretch
        ensures { KeepsStretch result (stretch_by IntegrationSort []) }
    {
        RunningStretch {
            kind: StretchKind::Integration,
            own: Vec::new(alloc),
            bits: Vec::new(alloc),
            sent: FrameBits::new(),
        }
    }

    /// Returns what comes with a sample of this level, with this head and in this mode, at which this happened.
    pub(crate) fn next(
        &self,
        level: Level,
        head: Option<&Frame>,
        mode: Mode,
        happened: Happened,
    ) -> NextStretch
        ensures { (s : Stretch) (x : Sampled) → KeepsStretch self.now s → x.level ≡ level
            → x.head ≡ option_copied head.entry → x.mode ≡ mode
            → happened ≡ (judged s x).happened → ComesNext level result (judged s x).next }
    {
        let own = self.own.as_slice();
        match self.kind {
            StretchKind::Integration => after_integration(own, level, head),
            StretchKind::Idle => after_idle(level, head),
            StretchKind::Framing { sends, end, .. } => {
                after_framing(sends, end, own.len(), level, mode, happened)
            }
            StretchKind::DominantFlag { sends, .. } => after_dominant_flag(own, sends),
            StretchKind::PassiveFlag { sends } => after_passive_flag(own, level, sends),
            StretchKind::Waiting { sends } => after_waiting(level, sends),
            StretchKind::Delimiting { sends } => after_delimiting(own, level, mode, sends),
            StretchKind::Intermission { sends } => {
                after_intermission(own, level, head, mode, sends)
            }
            StretchKind::Suspension => after_suspension(own, level, head),
            StretchKind::OffBus => after_off(happened, head),
        }
    }

    /// True if a transmitter loses the arbitration with a sample of this level.
    pub(crate) fn loses(&self, level: Level) -> bool
        ensures { (s : Stretch) → KeepsStretch self.now s → result ≡ (is_transmitter (role_of s) && loses s level) }
    {
        match self.kind {
            StretchKind::Framing {
                head: Some(_),
                sends: true,
                ..
            } => is_lost(&self.sent, &self.own, &self.bits, level),
            _ => false,
        }
    }

    /// Returns where its next sample falls.
    pub(crate) fn place(&self) -> FramePlace
        ensures { (s : Stretch) → KeepsStretch self.now s → result ≡ next_place s }
    {
        let count = self.own.len();
        match self.kind {
            StretchKind::Framing { end: Some(end), .. } => tail_field(count.saturating_sub(end)),
            StretchKind::Framing {
                head,
                sends,
                end: None,
            } => self.stuffed_place(head, sends),
            _ => FramePlace {
                field: FrameField::FlagDelimiter,
                bit: count,
            },
        }
    }

    /// Returns the place in a frame at which its next sample falls, up to the end of what is stuffed.
    fn stuffed_place(&self, head: Option<Frame>, sends: bool) -> FramePlace
        ensures { (own : List Level) → self.now.own.items ≡ own → self.now.bits.items ≡ destuffed_bits own (length own)
            → result ≡ stuffed_place (is_stuff own (length own))
            (known_bits (way_of sends) head (destuffed_bits own (length own)))
            (length (destuffed_bits own (length own))) }
    {
        let count = self.bits.len();
        let k = if is_stuff_due(&self.own) {
            count.saturating_sub(1)
        } else {
            count
        };
        match head {
            Some(frame) if sends => {
                let sent = frame.bits();
                field_of(&sent, k)
            }
            _ => field_of(&self.bits, k),
        }
    }

    /// True if its next sample is that of a stuff bit of a frame.
    pub(crate) fn is_at_stuff(&self) -> bool
        ensures { (s : Stretch) → KeepsStretch self.now s → result ≡ is_at_stuff s }
    {
        match self.kind {
            StretchKind::Framing { end: None, .. } => is_stuff_due(&self.own),
            _ => false,
        }
    }

    /// Returns the kind of an error that leaves a transmitter's counter alone.
    pub(crate) fn free_kind(&self) -> ErrorKind
        ensures { (s : Stretch) → KeepsStretch self.now s → result ≡ free_kind s }
    {
        match self.kind {
            StretchKind::Framing { end: Some(_), .. } => ErrorKind::Ack,
            _ => ErrorKind::Stuff,
        }
    }

    /// Returns the frame that is sent, if this is the stretch of one.
    pub(crate) fn head(&self) -> Option<Frame>
        ensures { (s : Stretch) → KeepsStretch self.now s → result ≡ head_of s.sort }
    {
        match self.kind {
            StretchKind::Framing { head, .. } => head,
            _ => None,
        }
    }

    /// Takes a sample of this level, with which this comes.
    pub(crate) fn step(&mut self, next: &NextStretch, level: Level) -> Result<(), AllocError>
        ensures { (s : Stretch) (x : Sampled) → KeepsStretch self.old s → x.level ≡ level
            → ComesNext level next.now (judged s x).next
            → OnOk result (KeepsStretch self.new (stretch_after s (Sample x))) }
    {
        match *next {
            NextStretch::Same => self.take(level),
            NextStretch::Begins { kind, sampled } => self.begin(kind, sampled, level),
        }
    }

    /// Begins the stretch that begins with this sample or the next one.
    fn begin(&mut self, kind: StretchKind, sampled: bool, level: Level) -> Result<(), AllocError>
        ensures kind { OnOk result (self.new.kind ≡ kind) }
        ensures own { OnOk result (self.new.own.items ≡ first_samples sampled level) }
        ensures bits { OnOk result (self.new.bits.items ≡ first_samples sampled level) }
        ensures sent { OnOk result (KeepsSent kind self.new.sent.items) }
    {
        self.sent = bits_sent(&kind);
        self.kind = kind;
        self.own.clear();
        self.bits.clear();
        if sampled {
            self.own.push(level)?;
            self.bits.push(level)?;
        }
        Ok(())
    }

    /// Goes on with this sample, in the same stretch.
    pub(crate) fn take(&mut self, level: Level) -> Result<(), AllocError>
        ensures { (s : Stretch) (x : Sampled) → KeepsStretch self.old s → x.level ≡ level → (judged s x).next ≡ None
            → OnOk result (KeepsStretch self.new (stretch_after s (Sample x))) }
    {
        wl_machine::laws::a_role_lasts_to_the_end_of_the_intermission();
        let lost = self.loses(level);
        let stuff = is_stuff_due(&self.own);
        self.own.push(level)?;
        if let StretchKind::Framing { head, sends, end } = self.kind {
            self.take_bit(stuff, level)?;
            self.kind = StretchKind::Framing {
                head,
                sends: still_sends(sends, lost),
                end: self.end_after(end),
            };
        }
        Ok(())
    }

    /// Keeps a bit of a frame, unless it is a stuff bit.
    fn take_bit(&mut self, stuff: bool, level: Level) -> Result<(), AllocError>
        ensures bits { OnOk result (self.new.bits.items ≡ self.old.bits.items ++ (if stuff then [] else level ∷ [])) }
        ensures own { OnOk result (self.new.own.items ≡ self.old.own.items) }
        ensures sent { OnOk result (self.new.sent.items ≡ self.old.sent.items) }
    {
        if !stuff {
            self.bits.push(level)?;
        }
        Ok(())
    }

    /// Returns where all that is stuffed ends, if `end` was its end before the last sample.
    fn end_after(&self, end: Option<usize>) -> Option<usize>
        ensures { result ≡ or_at end
            (is_whole self.now.bits.items && not (is_stuff self.now.own.items (length self.now.own.items)))
            (length self.now.own.items) }
    {
        if end.is_some() {
            return end;
        }
        if is_whole(&self.bits) && !is_stuff_due(&self.own) {
            Some(self.own.len())
        } else {
            None
        }
    }

    /// Goes off the bus.
    pub(crate) fn switch_off(&mut self)
        ensures { (s : Stretch) → KeepsStretch self.new (stretch_after s SwitchedOff) }
    {
        self.kind = StretchKind::OffBus;
        self.own.clear();
        self.bits.clear();
    }
}

/// Returns the level at a place of a list, which is recessive after its end.
pub(crate) fn level_at(levels: &[Level], place: usize) -> Level
    ensures { result ≡ at levels.now place }
{
    levels.get(place).copied().unwrap_or(Level::Recessive)
}
