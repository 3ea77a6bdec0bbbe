//! Which events of a trace are shown.
ghost use Rattle.std.specs.Prelude.{◌≡◌, OnOk, IfOk};
ghost use Rattle.std.specs.List.{flat_map};
ghost use Rattle.wl_report.specs.Lines.{GrowsBy};
ghost use Rattle.wl_serial.specs.Outcome.{drives_of, outcome_of};
ghost use Rattle.wl_views.specs.Picks.{all_errors, asks_for_syncs, is_asked_kind, is_asked_node, is_event_of, is_picked, trace_text};
ghost use Rattle.wl_views.specs.TraceText.{trace_line};

use crate::told::told_in_order;
use crate::trace_text::push_line;
use crate::window::Window;
use std::alloc::{AllocError, Global};
use wl_plan::CheckedPlan;
use wl_serial::Drives;
use wl_setup::Names;
use wl_trace::{NodeEvent, Noted};

/// A kind of events.
#[derive(Clone, Copy, Debug, PartialEq, Eq)]
pub enum EventKind {
    /// A node lost the arbitration.
    Lost,
    /// A node found an error.
    Error,
    /// A node began a flag.
    Flag,
    /// A node sent or received a frame.
    Frame,
    /// The mode of a node changed.
    Mode,
    /// A node was synchronised.
    Sync,
    /// What a log with error frames has: a frame was sent, an error was found, or a mode changed.
    Logged,
}

/// Which events of a trace are shown.
#[derive(Clone, Copy, Debug, PartialEq, Eq)]
pub struct Pick {
    /// Those at the ticks of this window.
    pub window: Window,
    /// If a number is given, those of this node alone.
    pub node: Option<u8>,
    /// If a kind is given, those of this kind alone.
    pub only: Option<EventKind>,
}

/// True if an event is of a kind.
fn is_event_of(kind: EventKind, event: NodeEvent) -> bool
    ensures { result ≡ is_event_of kind event }
{
    match event {
        NodeEvent::ArbitrationLost(_) => matches!(kind, EventKind::Lost),
        NodeEvent::Error { .. } => matches!(kind, EventKind::Error | EventKind::Logged),
        NodeEvent::Flag(_) => matches!(kind, EventKind::Flag),
        NodeEvent::Sent(_) => matches!(kind, EventKind::Frame | EventKind::Logged),
        NodeEvent::Received(_) => matches!(kind, EventKind::Frame),
        NodeEvent::ModeChanged(_) => matches!(kind, EventKind::Mode | EventKind::Logged),
        NodeEvent::HardSynchronised | NodeEvent::Resynchronised(_) => {
            matches!(kind, EventKind::Sync)
        }
    }
}

/// True if an event is of the kind that is asked for, if one is.
fn is_asked_kind(only: Option<EventKind>, event: NodeEvent) -> bool
    ensures { result ≡ is_asked_kind only event }
{
    match only {
        None => true,
        Some(kind) => is_event_of(kind, event),
    }
}

/// True if node `i` is the one that is asked for, if one is.
pub(crate) fn is_asked_node(node: Option<u8>, i: usize) -> bool
    ensures { result ≡ is_asked_node node i }
{
    match node {
        None => true,
        Some(node) => node as usize == i,
    }
}

impl Pick {
    /// Returns that all errors are picked.
    pub(crate) fn errors() -> Pick
        ensures { result ≡ all_errors }
    {
        Pick {
            window: Window { from: 0, to: None },
            node: None,
            only: Some(EventKind::Error),
        }
    }

    /// True if a synchronisation may be picked.
    pub(crate) fn asks_for_syncs(&self) -> bool
        ensures { result ≡ asks_for_syncs self.now.only }
    {
        match self.only {
            None => true,
            Some(kind) => matches!(kind, EventKind::Sync),
        }
    }

    /// True if an event of node `i` at a tick is shown.
    pub(crate) fn shows(&self, tick: u64, i: usize, noted: &Noted) -> bool
        ensures { result ≡ is_picked self.now (tick, (i, noted.now)) }
    {
        self.window.has(tick)
            && is_asked_node(self.node, i)
            && is_asked_kind(self.only, noted.event)
    }
}

/// Adds the lines of these events.
fn push_lines(
    text: &mut String,
    names: &Names,
    told: &[(u64, (usize, Noted))],
) -> Result<(), AllocError>
    ensures { OnOk result (GrowsBy text.old text.new (flat_map (trace_line names.now) told.now)) }
{
    for (tick, (i, noted)) in told {
        push_line(text, names, *tick, *i, *noted)?;
    }
    Ok(())
}

/// Returns the trace of a plan's simulation, in which drives changed so, under these names of its nodes: for each event that is picked a line
/// `{tick} {node} {name} q {quantum} b {bit} {what}`, in the order of their ticks; those of one tick node by node. Refused only when out of
/// memory.
pub fn trace(
    alloc: Global,
    pick: &Pick,
    plan: &CheckedPlan,
    names: &Names,
    drives: &Drives,
) -> Result<Vec<u8>, AllocError>
    requires drives { drives.now ≡ drives_of (outcome_of plan.now) }
    ensures { IfOk result (λ text. text.items ≡ trace_text pick.now plan.now names.now) }
{
    let told = told_in_order(alloc, pick, plan, drives)?;
    let mut text = String::new(alloc);
    push_lines(&mut text, names, &told)?;
    Ok(text.into_bytes())
}
