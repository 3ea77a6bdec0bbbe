//! What one sample did, noted.
ghost use Rattle.std.specs.Prelude.{◌≡◌, ◌++◌, [], ◌∷◌, OnOk, Option, Some};
ghost use Rattle.wl_level.specs.declared.Level.{Level};
ghost use Rattle.wl_confine.specs.Counts.{counts_after};
ghost use Rattle.wl_frame.specs.Grammar.{Content};
ghost use Rattle.wl_machine.specs.Stretch.{Ended, Judgement, Stretch};
ghost use Rattle.wl_machine.specs.Stretch.Ended.{Sent as SentFrame};
ghost use Rattle.wl_machine.specs.Judged.{head_of};
ghost use Rattle.wl_machine.specs.States.{done_of};
ghost use Rattle.wl_trace.specs.Events.{error_event, error_events, flag_events, frame_events, judged_events, lost_events, mode_events};
ghost use Rattle.wl_trace.specs.Running.{ComesNext, KeepsStretch};

use crate::event::{FlagForm, NodeEvent, Noted};
use crate::stretch::{NextStretch, RunningStretch, StretchKind};
use std::alloc::AllocError;
use wl_confine::{Counters, ErrorKind, Happened, Mode};
use wl_level::Level;
use wl_machine::Done;

/// The events so far, and the sample at which the next ones are noted.
#[derive(Drop)]
pub(crate) struct Notes {
    pub(crate) quantum: u64,
    pub(crate) bit: u64,
    pub(crate) events: Vec<Noted>,
}

impl Notes {
    ghost use Rattle.wl_trace.specs.Notes.{Adds};

    /// Adds an event.
    fn push(&mut self, event: NodeEvent) -> Result<(), AllocError>
        ensures { OnOk result (Adds self.old self.new (event ∷ [])) }
    {
        self.events.push(Noted {
            quantum: self.quantum,
            bit: self.bit,
            event,
        })?;
        Ok(())
    }

    /// Notes that the arbitration is lost.
    fn push_lost(&mut self, stretch: &RunningStretch, level: Level) -> Result<(), AllocError>
        ensures { (s : Stretch) → KeepsStretch stretch.now s
            → OnOk result (Adds self.old self.new (lost_events s level)) }
    {
        if stretch.loses(level) {
            self.push(NodeEvent::ArbitrationLost(stretch.place()))?;
        }
        Ok(())
    }

    /// Notes an error of this kind.
    fn push_error_of(
        &mut self,
        stretch: &RunningStretch,
        sends: bool,
        kind: ErrorKind,
    ) -> Result<(), AllocError>
        ensures { (s : Stretch) → KeepsStretch stretch.now s
            → OnOk result (Adds self.old self.new (error_event s sends kind ∷ [])) }
    {
        self.push(NodeEvent::Error {
            kind,
            sends,
            stuff: stretch.is_at_stuff(),
            place: stretch.place(),
        })
    }

    /// Notes the error that was found.
    fn push_error(&mut self, stretch: &RunningStretch, happened: Happened) -> Result<(), AllocError>
        ensures { (s : Stretch) → KeepsStretch stretch.now s
            → OnOk result (Adds self.old self.new (error_events s happened)) }
    {
        match happened {
            Happened::RxError(kind) => self.push_error_of(stretch, false, kind),
            Happened::TxError(kind) => self.push_error_of(stretch, true, kind),
            Happened::TxFree => self.push_error_of(stretch, true, stretch.free_kind()),
            _ => Ok(()),
        }
    }

    /// Notes the flag that begins, in this mode.
    fn push_flag(&mut self, mode: Mode, next: NextStretch) -> Result<(), AllocError>
        ensures { (level : Level) (begun : Option Stretch) → ComesNext level next begun
            → OnOk result (Adds self.old self.new (flag_events mode begun)) }
    {
        if mode == Mode::Off {
            return Ok(());
        }
        match next {
            NextStretch::Begins {
                kind: StretchKind::DominantFlag { overload, .. },
                ..
            } => {
                let form = if overload {
                    FlagForm::Overload
                } else {
                    FlagForm::Active
                };
                self.push(NodeEvent::Flag(form))
            }
            NextStretch::Begins {
                kind: StretchKind::PassiveFlag { .. },
                ..
            } => self.push(NodeEvent::Flag(FlagForm::Passive)),
            _ => Ok(()),
        }
    }

    /// Notes the frame that was completed.
    fn push_frame(&mut self, stretch: &RunningStretch, done: Done) -> Result<(), AllocError>
        ensures { (s : Stretch) (ended : Ended) → KeepsStretch stretch.now s → done ≡ done_of ended
            → ((frame : Content) → ended ≡ SentFrame frame → head_of s.sort ≡ Some frame)
            → OnOk result (Adds self.old self.new (frame_events ended)) }
    {
        match done {
            Done::Nothing => Ok(()),
            Done::Received(frame) => self.push(NodeEvent::Received(frame)),
            Done::Sent => match stretch.head() {
                Some(frame) => self.push(NodeEvent::Sent(frame)),
                None => Ok(()),
            },
        }
    }

    /// Notes the mode, if it is another than before.
    fn push_mode(&mut self, old: Counters, new: Counters) -> Result<(), AllocError>
        ensures { OnOk result (Adds self.old self.new (mode_events old new)) }
    {
        if old.mode() == new.mode() {
            return Ok(());
        }
        self.push(NodeEvent::ModeChanged(new))
    }

    /// Notes all that a sample of this level did: what happened and was completed, what comes next, and the counters before and after it.
    pub(crate) fn push_sample(
        &mut self,
        stretch: &RunningStretch,
        level: Level,
        happened: Happened,
        done: Done,
        next: NextStretch,
        old: Counters,
        new: Counters,
    ) -> Result<(), AllocError>
        requires { new ≡ counts_after old happened }
        ensures { (s : Stretch) (j : Judgement) → KeepsStretch stretch.now s → happened ≡ j.happened
            → done ≡ done_of j.ended
            → ComesNext level next j.next → ((frame : Content) → j.ended ≡ SentFrame frame
            → head_of s.sort ≡ Some frame)
            → OnOk result (Adds self.old self.new (judged_events s level old j)) }
    {
        self.push_lost(stretch, level)?;
        self.push_error(stretch, happened)?;
        self.push_flag(new.mode(), next)?;
        self.push_frame(stretch, done)?;
        self.push_mode(old, new)
    }
}
