//! Whether a bus works.
ghost use Rattle.std.specs.Prelude.{◌≡◌, ◌++◌, string_bytes, OnOk};
ghost use Rattle.wl_judge.specs.Judgements.{by_any_standing, by_standing, fails_outside, judgement_of, judgement_words, surety_words, or_early};

use std::alloc::AllocError;
use wl_bound::Outside;
use wl_margin::{Standing, Surety};

/// What the run of a plan says.
#[derive(Clone, Copy, Debug, PartialEq, Eq)]
pub enum RunState {
    /// It works.
    Works,
    /// It ends before all frames are sent, and shows nothing else.
    EndsTooEarly,
    /// It doesn't work.
    Fails,
}

/// Whether a bus works.
#[derive(Clone, Copy, Debug, PartialEq, Eq)]
pub enum Judgement {
    /// The plan's run works, and the condition holds for any senders, at all offsets and clocks within tolerance.
    Works(Surety),
    /// The plan's run doesn't work.
    NotInThisRun,
    /// The condition doesn't hold: there may be a power-up with errors.
    NotByCondition,
    /// Neither the run nor the condition says so.
    NotKnown,
}

/// True if `margin` says 'does not hold' for this cause outside of the inequalities.
fn fails_outside(cause: Outside) -> bool
    ensures { result ≡ fails_outside cause }
{
    match cause {
        Outside::FewNodes => true,
        Outside::NoFrames => false,
        Outside::ListenerSends(_) => true,
        Outside::NobodyAcknowledges(_) => true,
        Outside::NotByTheBook(_) => false,
        Outside::SameIdentifier(_, _) => true,
        Outside::NobodyIdle(_) => true,
    }
}

/// Returns whether a bus works whose run does, by what its margin says.
fn by_standing(standing: Standing) -> Judgement
    ensures { result ≡ by_standing standing }
{
    match standing {
        Standing::Astray(_) => Judgement::NotByCondition,
        Standing::AnySenders(surety) => Judgement::Works(surety),
        Standing::OneSender(_) => Judgement::NotKnown,
        Standing::Fails(_) => Judgement::NotByCondition,
        Standing::Unbound(cause) => {
            if fails_outside(cause) {
                Judgement::NotByCondition
            } else {
                Judgement::NotKnown
            }
        }
    }
}

/// Returns the same if there may be no margin.
fn by_any_standing(standing: Option<Standing>) -> Judgement
    ensures { result ≡ by_any_standing standing }
{
    match standing {
        None => Judgement::NotKnown,
        Some(standing) => by_standing(standing),
    }
}

/// Returns a judgement on a bus whose run ends before all frames are sent.
fn or_early(judgement: Judgement) -> Judgement
    ensures { result ≡ or_early judgement }
{
    match judgement {
        Judgement::Works(_) => Judgement::NotKnown,
        Judgement::NotInThisRun => Judgement::NotInThisRun,
        Judgement::NotByCondition => Judgement::NotByCondition,
        Judgement::NotKnown => Judgement::NotKnown,
    }
}

/// Returns whether a bus works, by what its margin says first and by its plan's run.
pub fn judgement_of(standing: Option<Standing>, run: RunState) -> Judgement
    ensures { result ≡ judgement_of standing run }
{
    match run {
        RunState::Works => by_any_standing(standing),
        RunState::EndsTooEarly => or_early(by_any_standing(standing)),
        RunState::Fails => Judgement::NotInThisRun,
    }
}

/// Returns how sure it is, in words.
fn surety_words(surety: Surety) -> &'static str
    ensures { result.now ≡ surety_words surety }
{
    match surety {
        Surety::ProvedForAny => "works, proved: any_senders_are_clean\n",
        Surety::ProvedForOne => {
            "works, as far as searched; for one sender at a time, proved: one_sender_is_clean\n"
        }
        Surety::Searched => "works, as far as searched, not proved\n",
    }
}

/// Adds the line of a judgement. The run says this word.
pub(crate) fn push_judgement(
    text: &mut String,
    judgement: Judgement,
    word: &str,
) -> Result<(), AllocError>
    ensures { OnOk result (string_bytes text.new ≡ string_bytes text.old ++ judgement_words judgement word.now) }
{
    match judgement {
        Judgement::Works(surety) => text.push_str(surety_words(surety)),
        Judgement::NotInThisRun => writeln!(text, "does not work, in this run: {word}"),
        Judgement::NotByCondition => text.push_str("does not work, by the condition\n"),
        Judgement::NotKnown => text.push_str("not known\n"),
    }
}
