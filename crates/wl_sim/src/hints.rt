//! What is said on standard error of a run that ended with a fault. None of it is said by a clause.

use crate::answer::Fault;
use crate::texts::{is_plan, is_settings};
use std::alloc::{AllocError, Global};
use wl_apply::ApplyFault;
use wl_device::read_up_to;
use wl_engines::RunFault;
use wl_files::{Folder, Spot};
use wl_hint::{
    FREE_MEMORY, Hint, IS_FOLDER, IS_PLAN, IS_SETTINGS, NO_FILE, READ, READ_FILE, THREADS, WRITE,
    WRITE_FILE, hint_of_plan, hint_of_records,
};
use wl_init::InitFault;
use wl_print::PrintFault;
use wl_record::TextFault;
use wl_settings::SettingsFault;
use wl_setup::{Names, SetupFault, Text, bus_of_bytes};
use wl_sweep_engine::{JoinFault, PartsFault, RangeFault, SpikeFault, SweepFault};
use wl_words::Order;

/// The most bytes of an input that a hint is made from.
const MOST_HINTED: usize = 1 << 20;

/// Returns the file of an order that a fault is about.
fn file_of<'a>(order: &'a Order, fault: &RunFault) -> Option<&'a Text> {
    match fault {
        RunFault::Setup(SetupFault::Read) if order.apply.is_some() => order.apply.as_ref(),
        RunFault::Setup(SetupFault::Read) | RunFault::Text(TextFault::Read) => order.input.as_ref(),
        RunFault::Write => order.output.as_ref(),
        _ => None,
    }
}

/// Returns the input once more, or its front, if it is a file.
fn input_again<F: Folder>(
    alloc: Global,
    order: &Order,
    folder: &F,
) -> Result<Option<Vec<u8>>, AllocError> {
    let name = match (&order.apply, &order.input) {
        (Some(name), _) | (None, Some(name)) => name.as_str(),
        (None, None) => "/dev/stdin",
    };
    match folder.open_again(name) {
        Some(mut file) => {
            let (text, _ended) = read_up_to(alloc, &mut file, MOST_HINTED)?;
            Ok(Some(text))
        }
        None => Ok(None),
    }
}

/// Returns what to change after a fault of the input; `None` after another.
fn input_hint<F: Folder>(
    alloc: Global,
    order: &Order,
    fault: &RunFault,
    folder: &F,
) -> Result<Option<Hint>, AllocError> {
    let text = input_again(alloc, order, folder)?;
    let text = text.as_ref().map(|text| text.as_slice());
    match fault {
        RunFault::Setup(SetupFault::Size) => {
            Ok(Some(hint_of_plan(alloc, None, &SetupFault::Size)?))
        }
        RunFault::Setup(fault) => Ok(Some(hint_of_plan(alloc, text, fault)?)),
        RunFault::Text(fault) => Ok(Some(hint_of_records(alloc, text, *fault)?)),
        _ => Ok(None),
    }
}

/// Returns what to change if a named file can't be read.
fn unread_advice(spot: Spot) -> &'static str {
    match spot {
        Spot::Empty => NO_FILE,
        Spot::Folder => IS_FOLDER,
        Spot::Other => READ_FILE,
    }
}

/// Returns what to change after a fault of another kind, in which a file of a name may have a part: what is at the name.
fn advice(fault: &RunFault, spot: Option<Spot>) -> &'static str {
    match (fault, spot.is_some()) {
        (RunFault::Write, true) => WRITE_FILE,
        (RunFault::Write, false) => WRITE,
        (RunFault::Work(_), _) => THREADS,
        (RunFault::Memory, _) => FREE_MEMORY,
        (_, true) => unread_advice(spot.unwrap_or(Spot::Other)),
        (_, false) => READ,
    }
}

/// True if a plan without a version is a text for `settings`.
fn is_for_settings<F: Folder>(alloc: Global, order: &Order, fault: &RunFault, folder: &F) -> bool {
    match fault {
        RunFault::Setup(SetupFault::Missing(_)) => match input_again(alloc, order, folder) {
            Ok(Some(text)) => is_settings(text.as_slice()),
            _ => false,
        },
        _ => false,
    }
}

/// Says what to change after a fault, in one line. Nothing if memory for it is refused.
fn say_hint<F: Folder>(
    rt: &impl Eprint,
    alloc: Global,
    order: &Order,
    fault: &RunFault,
    folder: &F,
) {
    if is_for_settings(alloc, order, fault, folder) {
        let _ = eprintln!(rt; "hint: {IS_SETTINGS}");
    } else if fault.is_refusal() {
        if let Ok(Some(hint)) = input_hint(alloc, order, fault, folder) {
            let _ = eprintln!(rt; "hint: {hint}");
        }
    } else {
        let spot = match file_of(order, fault) {
            Some(name) => Some(folder.spot(name.as_str())),
            None => None,
        };
        let advice = advice(fault, spot);
        let _ = eprintln!(rt; "hint: {advice}");
    }
}

/// Returns what to change of a range that a plan doesn't allow.
fn range_advice(fault: RangeFault) -> &'static str {
    match fault {
        RangeFault::Form =>
            "Write it as [NODE.]KEY=A..B or [NODE.]KEY=A..B:STEP, with whole numbers.",
        RangeFault::Key => {
            "Name a key that can be varied: docs/use/sweeps.md has all of them, as `x`, `sjw`, `ppm` or `end`."
        }
        RangeFault::Node => {
            "Name a node by its name or its number, from 0; `end` and `per` belong to none."
        }
        RangeFault::Absent => {
            "Name a key that the nodes have: `quantum` and `ppm`, or `num` and `den`; or give a frame `every`, with `version = 3`."
        }
        RangeFault::Bounds => "Keep to values that a plan may have at this key.",
        RangeFault::Order => "Put the lesser value first.",
        RangeFault::Step => "Give a step above 0.",
        RangeFault::Rows => "Take a greater step or a shorter range: at most 10,000 values.",
        RangeFault::Memory => FREE_MEMORY,
    }
}

/// Returns what to change of a spike that a plan doesn't allow.
fn spike_advice(fault: SpikeFault) -> &'static str {
    match fault {
        SpikeFault::Words => "Give --spike once with --length once, and no range.",
        SpikeFault::Node => {
            "Name a node by its name or its number, from 0, or a place on the cable as x=25."
        }
        SpikeFault::Version => {
            "Set `version = 3` or write the plan by `format`, or give the spike a place on the cable, as x=25."
        }
        SpikeFault::Place => {
            "Give the place as a whole number of units of length from 0 to 2,147,483,647, or as a length that is whole in them, as x=25 or x=25m."
        }
        SpikeFault::Length => {
            "Give --length a number of ticks, or a time of whole ticks, as 2000 or 2us: at least a tick, and at most up to the plan's end."
        }
        SpikeFault::Places => "Take a greater step: at most 4,294,967,295 places in time.",
    }
}

/// Returns what to change of the words of a sweep that a plan doesn't allow.
fn word_advice(fault: &SweepFault) -> &'static str {
    match fault {
        SweepFault::Range(_, fault) => range_advice(*fault),
        SweepFault::Spike(fault) => spike_advice(*fault),
        SweepFault::Rows => {
            "Take greater steps or fewer ranges: at most 10,000 rows in all, one for each choice of a value from each."
        }
        SweepFault::Member =>
            "Give a number that the sweep's text has, or one below its count of runs.",
        SweepFault::Runs => "Give a number of runs above 0.",
        SweepFault::Step => "Give a step above 0.",
        SweepFault::Workers => "Give 1 to 8 workers.",
        SweepFault::Part => "Write --part K/N, with whole numbers and K from 1 to N.",
        SweepFault::Setup(_) | SweepFault::Write | SweepFault::Memory => FREE_MEMORY,
    }
}

/// Returns what to change of texts that aren't those of all parts of one sweep.
fn part_advice(fault: PartsFault) -> &'static str {
    match fault {
        PartsFault::Form(_) => {
            "Pass the whole output of `sweep --part` alone; run a part again that was cut off."
        }
        PartsFault::Other(_) => {
            "Leave this text out, or run the part again with the plan, options and N of the first one."
        }
        PartsFault::Missing(_) => "Run the part of this number, and pass its output too.",
        PartsFault::Doubled(_) => "Pass the output of the part of this number once.",
        PartsFault::Memory => FREE_MEMORY,
    }
}

/// Returns what to change of the input of a join.
fn join_advice(fault: &JoinFault) -> &'static str {
    match fault {
        JoinFault::Parts(fault) => part_advice(*fault),
        JoinFault::Size => "Pass texts of at most 1,073,741,824 bytes in all: take fewer parts.",
        JoinFault::Read | JoinFault::Write | JoinFault::Memory => FREE_MEMORY,
    }
}

/// Returns the range of an order that a fault is about.
fn range_of<'a>(order: &'a Order, fault: &SweepFault) -> Option<&'a String> {
    match fault {
        SweepFault::Range(i, _) => order.ranges.get(*i),
        _ => None,
    }
}

/// Says what to change of the words of a sweep.
fn say_of_word(rt: &impl Eprint, alloc: Global, order: &Order, fault: &SweepFault) {
    let advice = word_advice(fault);
    match range_of(order, fault) {
        Some(word) => {
            if let Ok(word) = Text::new(alloc, word.as_str()) {
                let _ = eprintln!(rt; "hint: --vary {word}: {advice}");
            }
        }
        None => {
            let _ = eprintln!(rt; "hint: {advice}");
        }
    }
}

/// Adds names with commas between them, and with `or` before the last one.
fn push_names(said: &mut String, names: &Names) -> Result<(), AllocError> {
    let count = names.len();
    for i in 0..count {
        let between = if i == 0 {
            ""
        } else if i + 1 < count {
            ", "
        } else {
            " or "
        };
        said.push_str(between)?;
        said.push_str(names.name_of(i))?;
    }
    Ok(())
}

/// Returns the names of the nodes of the input; nothing if the input can't be read again.
fn names_again<F: Folder>(alloc: Global, order: &Order, folder: &F) -> Result<String, AllocError> {
    let mut said = String::new(alloc);
    if let Some(text) = input_again(alloc, order, folder)? {
        if let Ok(bus) = bus_of_bytes(alloc, text.as_slice()) {
            push_names(&mut said, &bus.names)?;
        }
    }
    Ok(said)
}

/// Says which nodes a plan has if a trace is asked of another one.
fn say_of_node<F: Folder>(rt: &impl Eprint, alloc: Global, order: &Order, folder: &F) {
    let Some(word) = order.ranges.get(0) else {
        return;
    };
    let Ok(word) = Text::new(alloc, word.as_str()) else {
        return;
    };
    let Ok(names) = names_again(alloc, order, folder) else {
        return;
    };
    if names.is_empty() {
        let _ = eprintln!(rt;
            "hint: --node {word}: Name a node of the plan, or give a number from 0 to 63."
        );
    } else {
        let _ = eprintln!(rt; "hint: --node {word}: Name {names}, or give a number from 0.");
    }
}

/// Returns what to change of a text that says what settings are asked for.
fn settings_advice(fault: &SettingsFault) -> &'static str {
    match fault {
        SettingsFault::Toml => "Correct the TOML.",
        SettingsFault::Missing(place) => {
            if place.as_str().starts_with("--") {
                "Give the option: docs/use/settings.md has all of them."
            } else {
                "Add the key: docs/use/settings.md has all of them."
            }
        }
        SettingsFault::Kind(_) => "Give it a value as docs/use/settings.md says.",
        SettingsFault::Unknown(_) =>
            "Remove or rename the key; TOML puts a key into the table last begun.",
        SettingsFault::NoController => "Add a `[[controller]]`.",
        SettingsFault::NoSetting =>
            "Leave out --plan or --apply: the list says why no setting works.",
        SettingsFault::Size => "Pass a text of at most 1,048,576 bytes.",
        SettingsFault::Read | SettingsFault::Write | SettingsFault::Memory => FREE_MEMORY,
    }
}

/// Returns what to change of a plan that can't have settings, or of the settings.
fn apply_advice(fault: &ApplyFault) -> &'static str {
    match fault {
        ApplyFault::Tick => "Give --tick the length of a tick that the plan says.",
        ApplyFault::NoNode(_) => {
            "Name a controller of the plan or a node, with the clock that it has there: docs/use/settings.md says how."
        }
        ApplyFault::Rates(_) => "Give this node one rate.",
        ApplyFault::WantsVersion4(_) => "Write the plan in version 4: `format` does that.",
        ApplyFault::Time(_, _) => {
            "Let this frame become ready whole bits after power-up (`at` less `offset`), and come again after whole bits: each setting has whole quanta for those."
        }
        ApplyFault::Setup(_) | ApplyFault::Memory => FREE_MEMORY,
    }
}

/// Says what to change of a text for `settings`, which may be a plan.
fn say_of_settings<F: Folder>(
    rt: &impl Eprint,
    alloc: Global,
    order: &Order,
    fault: &SettingsFault,
    folder: &F,
) {
    let text = if order.asked.is_empty() {
        input_again(alloc, order, folder)
    } else {
        Ok(None)
    };
    let is_a_plan = match (fault, text) {
        (SettingsFault::Missing(_) | SettingsFault::Unknown(_), Ok(Some(text))) => {
            is_plan(text.as_slice())
        }
        _ => false,
    };
    let advice = if is_a_plan {
        IS_PLAN
    } else {
        settings_advice(fault)
    };
    let _ = eprintln!(rt; "hint: {advice}");
}

/// Says what to change of the words of `init`.
fn say_of_init(rt: &impl Eprint, fault: InitFault) {
    let _ = match fault {
        InitFault::Bitrate => {
            eprintln!(rt;
                "hint: --bitrate: Give a bit rate of whole bit/s from 1k to 1M, as 250k or 250kbit/s."
            )
        }
        InitFault::Cable => {
            eprintln!(rt; "hint: --cable: Give a length in steps of 20 cm, as 60m or 12.4m.")
        }
        InitFault::Kind => {
            eprintln!(rt;
                "hint: --kind: Give sja1000, c_can, bxcan, mcp2515, at91, xilinx, flexcan, m_can, fdcan, tcan4550, mcp2518fd or book."
            )
        }
        InitFault::NoSegments(Some(below), Some(above)) => {
            eprintln!(rt;
                "hint: --bitrate: With its usual clock this kind has no segments for it. The nearest bit rates are {below} and {above} bit/s."
            )
        }
        InitFault::NoSegments(Some(nearest), None) | InitFault::NoSegments(None, Some(nearest)) => {
            eprintln!(rt;
                "hint: --bitrate: With its usual clock this kind has no segments for it. The nearest bit rate is {nearest} bit/s."
            )
        }
        InitFault::TooLong(longest) => {
            let (metres, tenths) = (longest / 5, longest % 5 * 2);
            eprintln!(rt;
                "hint: --cable: The way there and back doesn't fit before the sample. Give at most {metres}.{tenths}m, or a lower --bitrate."
            )
        }
        InitFault::NoSegments(None, None) | InitFault::Write | InitFault::Memory => {
            eprintln!(rt; "hint: {FREE_MEMORY}")
        }
    };
}

/// Returns what to change of a plan that has no form in version 4.
fn print_advice(fault: &PrintFault) -> &'static str {
    match fault {
        PrintFault::Order(_, _) => {
            "In versions 1 and 2 this frame waits for the one above it. Give it the `ready` of that one, or put the frames in the order of `ready`."
        }
        PrintFault::Setup(_) | PrintFault::Write | PrintFault::Memory => FREE_MEMORY,
    }
}

/// Says beside the fault of a run the file that couldn't be read or written, and a hint if the order asks for it.
fn say_of_run<F: Folder>(
    rt: &impl Eprint,
    alloc: Global,
    order: &Order,
    fault: &RunFault,
    folder: &F,
) {
    if let Some(name) = file_of(order, fault) {
        let _ = eprintln!(rt; "file: {name}");
    }
    if order.hint {
        say_hint(rt, alloc, order, fault, folder);
    }
}

/// Says what to change, if an order asks for it.
fn say_advice(rt: &impl Eprint, order: &Order, advice: &str) {
    if order.hint {
        let _ = eprintln!(rt; "hint: {advice}");
    }
}

/// Says a fault in one line; in a second one the file that couldn't be read or written; and a hint if the order asks for it.
pub fn say_fault<F: Folder>(
    rt: &impl Eprint,
    alloc: Global,
    order: &Order,
    fault: &Fault,
    folder: &F,
) {
    let _ = eprintln!(rt; "fault: {fault}");
    match fault {
        Fault::Run(fault) => say_of_run(rt, alloc, order, fault, folder),
        Fault::Word(fault) => {
            if order.hint {
                say_of_word(rt, alloc, order, fault);
            }
        }
        Fault::Node => {
            if order.hint {
                say_of_node(rt, alloc, order, folder);
            }
        }
        Fault::Settings(fault) => {
            if order.hint {
                say_of_settings(rt, alloc, order, fault, folder);
            }
        }
        Fault::Init(fault) => {
            if order.hint {
                say_of_init(rt, *fault);
            }
        }
        Fault::Apply(fault) => say_advice(rt, order, apply_advice(fault)),
        Fault::Print(fault) => say_advice(rt, order, print_advice(fault)),
        Fault::Join(fault) => say_advice(rt, order, join_advice(fault)),
        Fault::Format => {}
    }
}
