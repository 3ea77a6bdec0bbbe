//! A sweep of spikes over a plan's text: the plan with one more disturbance, at one place in time after another.
ghost use Rattle.std.specs.Prelude.{◌≡◌, ◌≢◌, Ok, Err, IfOk, IfErr, map, string_bytes};
ghost use Rattle.wl_sweep_engine.specs.declared.fault.SweepFault.TheVariants.{Memory};
ghost use Rattle.wl_sweep_engine.specs.Asked.{IsRead};
ghost use Rattle.wl_sweep_engine.specs.Spiking.{PrintsSpike, RunsSpikes, of_spike, printed_spike, spikes_of};

use crate::asked::{Asked, check_options, check_workers, text_asked};
use crate::fault::SweepFault;
use crate::print::member_text;
use std::alloc::Global;
use std::thread::Threads;
use std::time::Clock;
use wl_device::{Sink, Source, write_all};
use wl_setup::{PlanText, read_text};
use wl_spikes::{SpikeFault, Spikes, read_spike};
use wl_sweep::Workers;

/// Returns a fault of the words of a spike as a fault of a sweep.
fn of_spike(fault: SpikeFault) -> SweepFault
    ensures { result ≡ of_spike fault }
{
    SweepFault::Spike(fault)
}

/// Returns the sweep of spikes that words mean in a plan's text, or the first fault.
fn read_spikes(
    alloc: Global,
    text: PlanText,
    words: &[String],
    asked: Asked,
) -> Result<Spikes, SweepFault>
    ensures { IsRead (spikes_of text (map string_bytes words.now) asked) result }
{
    let text = text_asked(alloc, text, asked.worst)?;
    text.plan(alloc)?;
    match read_spike(&text, asked.options, words) {
        Ok(spike) => Ok(Spikes { text, spike }),
        Err(fault) => Err(of_spike(fault)),
    }
}

/// Returns the text of a member by its number, if there is such a member.
fn printed(alloc: Global, spikes: &Spikes, number: u64) -> Result<String, SweepFault>
    ensures ok { IfOk result (λ text. printed_spike spikes.now number ≡ Ok (string_bytes text)) }
    ensures fault { IfErr result (λ e. e ≢ Memory → printed_spike spikes.now number ≡ Err e) }
{
    match spikes.member(alloc, number)? {
        None => Err(SweepFault::Member),
        Some((change, plan)) => Ok(member_text(alloc, number, &change, &plan)?),
    }
}

/// Reads a plan's text, runs it with a spike at one place in time after another by this many threads, and writes what each costs. Returns
/// whether each member is clean or heals.
///
/// Two words say where the spike is, `NODE` or `x=PLACE`, and how long it takes. The first of these faults: `Runs`, `Step`, `Workers`, before
/// anything is read; `Setup`, as `run` has it; `Spike`, of the words. The whole output is made before the first write. If the input or a word
/// is refused, or memory runs out, the writer isn't called; if the writer fails, a prefix of the output has been written. The output is the
/// same for each number of threads.
pub fn spikes_run<H: Threads + Sync + Eprint + Clock, R: Source, W: Sink>(
    rt: &H,
    alloc: Global,
    words: &[String],
    asked: Asked,
    workers: Workers,
    reader: &mut R,
    writer: &mut W,
) -> Result<bool, SweepFault>
    ensures { RunsSpikes R.gives W.takes (map string_bytes words.now) asked reader.old reader.new writer.old writer.new
        workers.count result }
{
    check_workers(asked.options, workers.count)?;
    let text = read_text(alloc, reader)?;
    let spikes = read_spikes(alloc, text, words, asked)?;
    let (said, sound) = spikes.run(rt, alloc, workers)?;
    write_all(said.as_bytes(), writer)?;
    Ok(sound)
}

/// Reads a plan's text and writes one member of its sweep of spikes as a plan text, by the number that the member has in what the sweep says:
/// the plan with the spike after its disturbances. Comments of the plan aren't kept; the first line is one that names the spike.
///
/// The first of these faults: `Runs` and `Step`, before anything is read; `Setup`, as `run` has it; `Spike`, of the words; `Member`, if there
/// is no member of this number. The whole output is made before the first write. If the input or a word is refused, or memory runs out, the
/// writer isn't called; if the writer fails, a prefix of the output has been written.
pub fn spike_print<R: Source, W: Sink>(
    alloc: Global,
    words: &[String],
    asked: Asked,
    number: u64,
    reader: &mut R,
    writer: &mut W,
) -> Result<(), SweepFault>
    ensures { PrintsSpike R.gives W.takes (map string_bytes words.now) asked reader.old reader.new writer.old writer.new
        number result }
{
    check_options(asked.options)?;
    let text = read_text(alloc, reader)?;
    let spikes = read_spikes(alloc, text, words, asked)?;
    let text = printed(alloc, &spikes, number)?;
    write_all(text.as_bytes(), writer)?;
    Ok(())
}
