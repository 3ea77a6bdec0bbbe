//! What a task results in.
ghost use Rattle.std.specs.Prelude.{◌≡◌, List};
ghost use Rattle.std.specs.List.{list_all};
ghost use Rattle.wl_sweep.specs.Findings.{is_clean};
ghost use Rattle.wl_sweep.specs.Tallies.{tally_of};
ghost use Rattle.wl_sweep.specs.declared.finding.Finding.{Finding};
ghost use Rattle.wl_sim.specs.Tasks.{AnswersSweep, done_by, of_format, of_format_fault, of_init, of_init_fault, of_judge, of_map, of_print, of_applied, of_applied_fault, of_doubts, of_named_trace, of_settings, of_settings_fault, of_verdict, of_sweep, of_traffic, plainly, of_join, of_join_fault};

use thiserror::Error;
use wl_apply::ApplyFault;
use wl_apply_engine::AppliedFault;
use wl_engines::{Judgement, Reason, RunFault};
use wl_init::InitFault;
use wl_print::PrintFault;
use wl_settings::SettingsFault;
use wl_setup::SetupFault;
use wl_sweep_engine::{JoinFault, SweepFault, Tally};

/// What came of a task whose output was written whole.
#[derive(Clone, Copy)]
pub enum Done {
    /// The output says all.
    Plain,
    /// Some member of a sweep isn't clean; a bus that is judged doesn't work; or the status is to say whether a bus works, or what else a command
    /// is about, and it isn't so.
    Unclean,
    /// It isn't known whether a bus works.
    Unknown,
}

/// Why a task wasn't done. Each is shown as its engine shows it.
#[derive(Debug, Drop, Error)]
pub enum Fault {
    /// The input was refused, a device or a worker failed, or memory ran out.
    #[error("{0}")]
    Run(RunFault),
    /// The plan doesn't allow the words of a sweep.
    #[error("{0}")]
    Word(SweepFault),
    /// The plan has no node of the name that a trace is asked of.
    #[error("Node")]
    Node,
    /// The text that says what settings are asked for was refused, or there is no setting whose plan could be written.
    #[error("{0}")]
    Settings(SettingsFault),
    /// The plan can't have the settings.
    #[error("{0}")]
    Apply(ApplyFault),
    /// The plan has no form in version 4.
    #[error("{0}")]
    Print(PrintFault),
    /// There is no plan to begin from as the words ask for.
    #[error("{0}")]
    Init(InitFault),
    /// The texts aren't those of all parts of one sweep.
    #[error("{0}")]
    Join(JoinFault),
    /// A line of the output has no other format.
    #[error("Format")]
    Format,
}

/// Returns what an engine answered, as an answer of the program.
pub(crate) fn plainly(answer: Result<(), RunFault>) -> Result<Done, Fault>
    ensures { result ≡ plainly answer }
{
    match answer {
        Ok(()) => Ok(Done::Plain),
        Err(fault) => Err(Fault::Run(fault)),
    }
}

/// Returns a fault of a sweep: of its plan, its devices or memory it is that of any engine, else it is one of its words.
fn of_sweep(fault: SweepFault) -> Fault
    ensures { result ≡ of_sweep fault }
{
    match fault {
        SweepFault::Setup(fault) => Fault::Run(RunFault::Setup(fault)),
        SweepFault::Write => Fault::Run(RunFault::Write),
        SweepFault::Memory => Fault::Run(RunFault::Memory),
        other => Fault::Word(other),
    }
}

/// Returns what came of a sweep with this tally: whether all its members are clean.
fn done_of(tally: Tally) -> Done
    ensures { (found : List Finding) → tally ≡ tally_of found → result ≡ done_by (list_all is_clean found) }
{
    if tally.all_clean() {
        Done::Plain
    } else {
        Done::Unclean
    }
}

/// Returns what a sweep answered, by the tally of its members.
pub(crate) fn of_tally(answer: Result<Tally, SweepFault>) -> Result<Done, Fault>
    ensures { AnswersSweep answer result }
{
    match answer {
        Ok(tally) => Ok(done_of(tally)),
        Err(fault) => Err(of_sweep(fault)),
    }
}

/// Returns what the map of a sweep answered, by whether each member is clean.
pub(crate) fn of_map(answer: Result<bool, SweepFault>) -> Result<Done, Fault>
    ensures { result ≡ of_map answer }
{
    match answer {
        Ok(true) => Ok(Done::Plain),
        Ok(false) => Ok(Done::Unclean),
        Err(fault) => Err(of_sweep(fault)),
    }
}

/// Returns what the writing of a member or of a part answered.
pub(crate) fn of_print(answer: Result<(), SweepFault>) -> Result<Done, Fault>
    ensures { result ≡ of_print answer }
{
    match answer {
        Ok(()) => Ok(Done::Plain),
        Err(fault) => Err(of_sweep(fault)),
    }
}

/// Returns a fault of joining the parts of a sweep: of its devices or memory it is that of any engine, else it is one of their texts.
fn of_join_fault(fault: JoinFault) -> Fault
    ensures { result ≡ of_join_fault fault }
{
    match fault {
        JoinFault::Read => Fault::Run(RunFault::Setup(SetupFault::Read)),
        JoinFault::Write => Fault::Run(RunFault::Write),
        JoinFault::Memory => Fault::Run(RunFault::Memory),
        other => Fault::Join(other),
    }
}

/// Returns what joined parts answered, by whether each member is clean.
pub(crate) fn of_join(answer: Result<bool, JoinFault>) -> Result<Done, Fault>
    ensures { result ≡ of_join answer }
{
    match answer {
        Ok(true) => Ok(Done::Plain),
        Ok(false) => Ok(Done::Unclean),
        Err(fault) => Err(of_join_fault(fault)),
    }
}

/// Returns a fault of a search for settings: of its devices or memory it is that of any engine, else it is one of its text.
fn of_settings_fault(fault: SettingsFault) -> Fault
    ensures { result ≡ of_settings_fault fault }
{
    match fault {
        SettingsFault::Read => Fault::Run(RunFault::Setup(SetupFault::Read)),
        SettingsFault::Write => Fault::Run(RunFault::Write),
        SettingsFault::Memory => Fault::Run(RunFault::Memory),
        other => Fault::Settings(other),
    }
}

/// Returns what a search for settings answered, whose status is to say, if it is strict, whether each controller has one.
pub(crate) fn of_settings(strict: bool, answer: Result<bool, SettingsFault>) -> Result<Done, Fault>
    ensures { result ≡ of_settings strict answer }
{
    match answer {
        Ok(true) => Ok(Done::Plain),
        Ok(false) if strict => Ok(Done::Unclean),
        Ok(false) => Ok(Done::Plain),
        Err(fault) => Err(of_settings_fault(fault)),
    }
}

/// Returns a fault of writing a plan with settings. Of what is asked for it is one of a search for settings. Of devices, memory or a plan that
/// can't be run it is that of any engine. Else it is one of the settings in the plan.
fn of_applied_fault(fault: AppliedFault) -> Fault
    ensures { result ≡ of_applied_fault fault }
{
    match fault {
        AppliedFault::Settings(fault) => of_settings_fault(fault),
        AppliedFault::Plan(ApplyFault::Setup(fault)) => Fault::Run(RunFault::Setup(fault)),
        AppliedFault::Plan(fault) => Fault::Apply(fault),
        AppliedFault::Write => Fault::Run(RunFault::Write),
        AppliedFault::Memory => Fault::Run(RunFault::Memory),
    }
}

/// Returns what the writing of a plan with settings answered.
pub(crate) fn of_applied(answer: Result<(), AppliedFault>) -> Result<Done, Fault>
    ensures { result ≡ of_applied answer }
{
    match answer {
        Ok(()) => Ok(Done::Plain),
        Err(fault) => Err(of_applied_fault(fault)),
    }
}

/// Returns a fault of writing a plan in version 4: of its text, its devices or memory it is that of any engine, else it is one of the plan.
fn of_format_fault(fault: PrintFault) -> Fault
    ensures { result ≡ of_format_fault fault }
{
    match fault {
        PrintFault::Setup(fault) => Fault::Run(RunFault::Setup(fault)),
        PrintFault::Write => Fault::Run(RunFault::Write),
        PrintFault::Memory => Fault::Run(RunFault::Memory),
        other => Fault::Print(other),
    }
}

/// Returns what writing a plan in version 4 answered.
pub(crate) fn of_format(answer: Result<(), PrintFault>) -> Result<Done, Fault>
    ensures { result ≡ of_format answer }
{
    match answer {
        Ok(()) => Ok(Done::Plain),
        Err(fault) => Err(of_format_fault(fault)),
    }
}

/// Returns a fault of a plan to begin from: of its devices or memory it is that of any engine, else it is one of what is asked for.
fn of_init_fault(fault: InitFault) -> Fault
    ensures { result ≡ of_init_fault fault }
{
    match fault {
        InitFault::Write => Fault::Run(RunFault::Write),
        InitFault::Memory => Fault::Run(RunFault::Memory),
        other => Fault::Init(other),
    }
}

/// Returns what writing a plan to begin from answered.
pub(crate) fn of_init(answer: Result<(), InitFault>) -> Result<Done, Fault>
    ensures { result ≡ of_init answer }
{
    match answer {
        Ok(()) => Ok(Done::Plain),
        Err(fault) => Err(of_init_fault(fault)),
    }
}

/// Returns what an engine with a verdict answered, whose status is to say it, if it is strict: whether all deadlines are met, the condition
/// holds, or a report is clean.
pub(crate) fn of_verdict(strict: bool, answer: Result<bool, RunFault>) -> Result<Done, Fault>
    ensures { result ≡ of_verdict strict answer }
{
    match answer {
        Ok(true) => Ok(Done::Plain),
        Ok(false) if strict => Ok(Done::Unclean),
        Ok(false) => Ok(Done::Plain),
        Err(fault) => Err(Fault::Run(fault)),
    }
}

/// Returns what the trace of the node of a name answered, by whether there is one.
pub(crate) fn of_named_trace(answer: Result<bool, RunFault>) -> Result<Done, Fault>
    ensures { result ≡ of_named_trace answer }
{
    match answer {
        Ok(true) => Ok(Done::Plain),
        Ok(false) => Err(Fault::Node),
        Err(fault) => Err(Fault::Run(fault)),
    }
}

/// Returns what an explanation answered, whose status is to say, if it is strict, whether nothing is doubtful.
pub(crate) fn of_doubts(strict: bool, answer: Result<bool, RunFault>) -> Result<Done, Fault>
    ensures { result ≡ of_doubts strict answer }
{
    match answer {
        Ok(false) => Ok(Done::Plain),
        Ok(true) if strict => Ok(Done::Unclean),
        Ok(true) => Ok(Done::Plain),
        Err(fault) => Err(Fault::Run(fault)),
    }
}

/// Returns what the traffic of a run answered, whose status is to say whether it works.
pub(crate) fn of_traffic(strict: bool, answer: Result<Reason, RunFault>) -> Result<Done, Fault>
    ensures { result ≡ of_traffic strict answer }
{
    match answer {
        Ok(Reason::Works) => Ok(Done::Plain),
        Ok(_) if strict => Ok(Done::Unclean),
        Ok(_) => Ok(Done::Plain),
        Err(fault) => Err(Fault::Run(fault)),
    }
}

/// Returns what the judgement on a bus answered, whose status says whether it works.
pub(crate) fn of_judge(answer: Result<Judgement, RunFault>) -> Result<Done, Fault>
    ensures { result ≡ of_judge answer }
{
    match answer {
        Ok(Judgement::Works(_)) => Ok(Done::Plain),
        Ok(Judgement::NotInThisRun) => Ok(Done::Unclean),
        Ok(Judgement::NotByCondition) => Ok(Done::Unclean),
        Ok(Judgement::NotKnown) => Ok(Done::Unknown),
        Err(fault) => Err(Fault::Run(fault)),
    }
}
