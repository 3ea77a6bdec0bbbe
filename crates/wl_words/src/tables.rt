//! The table of subcommands and their options.

use crate::options::OptionRow;
use crate::options::Spelling::{Long, Place, Short};
use crate::options::Takes::{Nothing, Signed, Unsigned, Value, Values};

/// A subcommand of the program.
#[derive(Clone, Copy)]
pub(crate) struct SubcommandRow {
    /// Its word.
    pub(crate) word: &'static str,
    /// What the help says of it.
    pub(crate) about: &'static str,
    /// The options that it has beside those of each.
    pub(crate) options: &'static [OptionRow],
}

#[rattlefmt::skip]
const INPUT: OptionRow = OptionRow { id: "input", spelling: Place, takes: Value("FILE"), default: None, help: "The file to read; without it, or for -, standard input" };

#[rattlefmt::skip]
const OUTPUT: OptionRow = OptionRow { id: "output", spelling: Short('o'), takes: Value("FILE"), default: None, help: "The file to write, which changes only when the output is whole; without it, or for -, standard output" };

#[rattlefmt::skip]
const HINT: OptionRow = OptionRow { id: "hint", spelling: Long("hint"), takes: Nothing, default: None, help: "Says after a fault where in the input it is, and what to change" };

#[rattlefmt::skip]
const PROGRESS: OptionRow = OptionRow { id: "progress", spelling: Long("progress"), takes: Nothing, default: None, help: "Says each second how long the run has taken, or of a sweep how far it is" };

#[rattlefmt::skip]
const TICK: OptionRow = OptionRow { id: "tick", spelling: Long("tick"), takes: Value("TIME"), default: Some("1ns"), help: "How long a tick of the plan takes: 1 to 999 and ps, ns or us, as 125ps" };

#[rattlefmt::skip]
const FORMAT: OptionRow = OptionRow { id: "format", spelling: Long("format"), takes: Value("FORMAT"), default: Some("text"), help: "The format of the output: text, json, csv, table or coloured" };

#[rattlefmt::skip]
const WIDE: OptionRow = OptionRow { id: "wide", spelling: Long("wide"), takes: Nothing, default: None, help: "Takes records of plans of version 4: 64 nodes, 268435457 changes of each" };

#[rattlefmt::skip]
const FROM_TICK: OptionRow = OptionRow { id: "since", spelling: Long("from"), takes: Unsigned("TICK", 0, u64::MAX), default: None, help: "Leaves out what is before this tick" };

#[rattlefmt::skip]
const SINCE_TICK: OptionRow = OptionRow { id: "since", spelling: Long("since"), takes: Unsigned("TICK", 0, u64::MAX), default: None, help: "Leaves out what is before this tick" };

#[rattlefmt::skip]
const TO_TICK: OptionRow = OptionRow { id: "until", spelling: Long("to"), takes: Unsigned("TICK", 0, u64::MAX), default: None, help: "Leaves out what is at this tick or later" };

#[rattlefmt::skip]
const FROM_TIME: OptionRow = OptionRow { id: "begin", spelling: Long("from"), takes: Value("TIME"), default: None, help: "Leaves out what is before this tick" };

#[rattlefmt::skip]
const TO_TIME: OptionRow = OptionRow { id: "stop", spelling: Long("to"), takes: Value("TIME"), default: None, help: "Leaves out what is at this tick or later" };

#[rattlefmt::skip]
const FIRST_SECOND: OptionRow = OptionRow { id: "from", spelling: Long("from"), takes: Signed("SECONDS", 0, 4_294_967_295), default: Some("0"), help: "The second of tick 0, up to 4294967295; log2asc wants one above 0" };

#[rattlefmt::skip]
const NODE: OptionRow = OptionRow { id: "node", spelling: Long("node"), takes: Value("NODE"), default: None, help: "Writes the events of this node alone: its number, from 0 on, or its name" };

#[rattlefmt::skip]
const ONLY: OptionRow = OptionRow { id: "only", spelling: Long("only"), takes: Value("KIND"), default: None, help: "Writes events of this kind alone: lost, error, flag, frame, mode or sync" };

#[rattlefmt::skip]
const ALL_SEND: OptionRow = OptionRow { id: "all-send", spelling: Long("all-send"), takes: Nothing, default: None, help: "Asks about all nodes that don't only listen, as if each had frames" };

#[rattlefmt::skip]
const ANY_DATA: OptionRow = OptionRow { id: "any-data", spelling: Long("any-data"), takes: Nothing, default: None, help: "Counts the most bits that frames of so many bytes may have, whatever their data" };

#[rattlefmt::skip]
const IN_TIME: OptionRow = OptionRow { id: "strict", spelling: Long("strict"), takes: Nothing, default: None, help: "Ends with status 1 if a deadline is missed or a message has no bound" };

#[rattlefmt::skip]
const WORKS: OptionRow = OptionRow { id: "strict", spelling: Long("strict"), takes: Nothing, default: None, help: "Ends with status 1 if the verdict is another than works" };

#[rattlefmt::skip]
const HOLDS: OptionRow = OptionRow { id: "strict", spelling: Long("strict"), takes: Nothing, default: None, help: "Ends with status 1 if the condition doesn't hold, or says nothing" };

#[rattlefmt::skip]
const NO_DOUBT: OptionRow = OptionRow { id: "strict", spelling: Long("strict"), takes: Nothing, default: None, help: "Ends with status 1 if anything is doubtful" };

#[rattlefmt::skip]
const CLEAN: OptionRow = OptionRow { id: "strict", spelling: Long("strict"), takes: Nothing, default: None, help: "Ends with status 1 if the verdict is another than clean" };

#[rattlefmt::skip]
const ANY_SETTING: OptionRow = OptionRow { id: "strict", spelling: Long("strict"), takes: Nothing, default: None, help: "Ends with status 1 if a controller has no setting" };

#[rattlefmt::skip]
const EXPLAIN: OptionRow = OptionRow { id: "explain", spelling: Long("explain"), takes: Nothing, default: None, help: "Says of each part which command says it" };

#[rattlefmt::skip]
const WORKERS: OptionRow = OptionRow { id: "workers", spelling: Long("workers"), takes: Signed("N", 1, 8), default: Some("1"), help: "How many workers simulate the plan, with a thread for each: 1 to 8" };

#[rattlefmt::skip]
const LINK: OptionRow = OptionRow { id: "link", spelling: Long("link"), takes: Value("LINK"), default: Some("hub"), help: "What several workers hand records over by: hub, words that they share, or mail, letters" };

#[rattlefmt::skip]
const BRIEF: OptionRow = OptionRow { id: "brief", spelling: Long("brief"), takes: Nothing, default: None, help: "Leaves out the lines of frames" };

#[rattlefmt::skip]
const ERRORS: OptionRow = OptionRow { id: "errors", spelling: Long("errors"), takes: Nothing, default: None, help: "Logs errors and modes of nodes, too, as error frames of Linux" };

#[rattlefmt::skip]
const BEST: OptionRow = OptionRow { id: "best", spelling: Long("best"), takes: Signed("N", 1, 4_294_967_295), default: None, help: "The most settings of a controller that are listed; without it all" };

#[rattlefmt::skip]
const PLAN: OptionRow = OptionRow { id: "plan", spelling: Long("plan"), takes: Nothing, default: None, help: "Writes the plan of the first controller's first setting: two nodes at the ends of the cable" };

#[rattlefmt::skip]
const APPLY: OptionRow = OptionRow { id: "apply", spelling: Long("apply"), takes: Value("PLAN"), default: None, help: "Writes this plan with the first setting of each controller, at the nodes that have it" };

#[rattlefmt::skip]
const KINDS: OptionRow = OptionRow { id: "kind", spelling: Long("kind"), takes: Values("KIND"), default: None, help: "The kind of a controller, as mcp2515; several go with a --clock each, in order" };

#[rattlefmt::skip]
const CLOCKS: OptionRow = OptionRow { id: "clock", spelling: Long("clock"), takes: Values("FREQUENCY"), default: None, help: "The frequency of its clock, as 16MHz" };

#[rattlefmt::skip]
const RATE: OptionRow = OptionRow { id: "bitrate", spelling: Long("bitrate"), takes: Value("RATE"), default: None, help: "The bit rate, as 500k" };

#[rattlefmt::skip]
const LENGTH: OptionRow = OptionRow { id: "cable", spelling: Long("cable"), takes: Value("LENGTH"), default: None, help: "The length of the cable in whole metres, as 40m" };

#[rattlefmt::skip]
const PER: OptionRow = OptionRow { id: "per", spelling: Long("per"), takes: Value("TIME"), default: None, help: "How long a level takes along the cable, as 5ns/m" };

#[rattlefmt::skip]
const OUT: OptionRow = OptionRow { id: "out", spelling: Long("out"), takes: Value("TIME"), default: None, help: "How long a level takes from a node to the cable, as 70ns" };

#[rattlefmt::skip]
const IN: OptionRow = OptionRow { id: "in", spelling: Long("in"), takes: Value("TIME"), default: None, help: "How long a level takes from the cable to a node, as 80ns" };

#[rattlefmt::skip]
const TOLERANCE: OptionRow = OptionRow { id: "tolerance", spelling: Long("tolerance"), takes: Value("PPM"), default: None, help: "By how many ppm a clock may be slow or fast, as 100" };

#[rattlefmt::skip]
const SENDERS: OptionRow = OptionRow { id: "senders", spelling: Long("senders"), takes: Value("WHO"), default: None, help: "Whether one node sends at a time, or any: one or any" };

#[rattlefmt::skip]
const RATE_ERROR: OptionRow = OptionRow { id: "rate-error", spelling: Long("rate-error"), takes: Value("PPM"), default: None, help: "By how many ppm the bit rate may be off, as 0" };

#[rattlefmt::skip]
const SAMPLE_POINT: OptionRow = OptionRow { id: "sample-point", spelling: Long("sample-point"), takes: Value("PERCENT"), default: None, help: "The sample point to which rows are near that come first, as 87.5%" };

#[rattlefmt::skip]
const NODE_COUNT: OptionRow = OptionRow { id: "nodes", spelling: Long("nodes"), takes: Value("N"), default: None, help: "How many nodes the bus has: 2 to 64" };

#[rattlefmt::skip]
const JUMP: OptionRow = OptionRow { id: "sjw", spelling: Long("sjw"), takes: Value("QUANTA"), default: None, help: "The greatest jump width of each controller, in quanta: 1 to 128" };

#[rattlefmt::skip]
const NODES: OptionRow = OptionRow { id: "nodes", spelling: Long("nodes"), takes: Signed("N", 2, 64), default: Some("2"), help: "How many nodes the bus has: 2 to 64" };

#[rattlefmt::skip]
const BITRATE: OptionRow = OptionRow { id: "bitrate", spelling: Long("bitrate"), takes: Value("RATE"), default: Some("500k"), help: "The bit rate: 1k to 1M, as 250k or 250kbit/s" };

#[rattlefmt::skip]
const CABLE: OptionRow = OptionRow { id: "cable", spelling: Long("cable"), takes: Value("LENGTH"), default: Some("40m"), help: "The length of the cable, in steps of 20 cm, as 60m or 12.4m" };

#[rattlefmt::skip]
const KIND: OptionRow = OptionRow { id: "kind", spelling: Long("kind"), takes: Value("KIND"), default: Some("mcp2515"), help: "The kind of its controllers: sja1000, c_can, bxcan, mcp2515, at91, xilinx, flexcan, m_can, fdcan, tcan4550, mcp2518fd or book" };

#[rattlefmt::skip]
const VARY: OptionRow = OptionRow { id: "vary", spelling: Long("vary"), takes: Values("[NODE.]KEY=A..B[:STEP]"), default: None, help: "A row of the output for each value of the key: of end or per, of one node, or of each node that has it" };

#[rattlefmt::skip]
const STEP: OptionRow = OptionRow { id: "step", spelling: Long("step"), takes: Unsigned("TICKS", 1, u64::MAX), default: None, help: "The distance between two offsets of a node, or two places of a spike; without it a fifth of the shortest quantum, or the end in --runs steps" };

#[rattlefmt::skip]
const RUNS: OptionRow = OptionRow { id: "runs", spelling: Long("runs"), takes: Signed("N", 1, 4_294_967_295), default: Some("1000"), help: "The most members of a row that are run: all that there are, else a random part" };

#[rattlefmt::skip]
const SEED: OptionRow = OptionRow { id: "seed", spelling: Long("seed"), takes: Signed("N", 0, 4_294_967_295), default: Some("1"), help: "Which random part" };

#[rattlefmt::skip]
const THREADS: OptionRow = OptionRow { id: "workers", spelling: Long("workers"), takes: Signed("N", 1, 8), default: None, help: "How many threads run members, 1 to 8: the output is the same; without it one a processor" };

#[rattlefmt::skip]
const KEEP_OFFSETS: OptionRow = OptionRow { id: "keep-offsets", spelling: Long("keep-offsets"), takes: Nothing, default: None, help: "Leaves the offsets as the plan has them" };

#[rattlefmt::skip]
const KEEP_PPM: OptionRow = OptionRow { id: "keep-ppm", spelling: Long("keep-ppm"), takes: Nothing, default: None, help: "Leaves the rates of the clocks as the plan has them" };

#[rattlefmt::skip]
const WORST: OptionRow = OptionRow { id: "worst", spelling: Long("worst"), takes: Nothing, default: None, help: "Adds to each sender a frame whose edges are ten bits apart" };

#[rattlefmt::skip]
const PRINT: OptionRow = OptionRow { id: "print", spelling: Long("print"), takes: Unsigned("N", 0, u64::MAX), default: None, help: "Runs none, and writes the member of this number as a plan" };

#[rattlefmt::skip]
const PAGE: OptionRow = OptionRow { id: "page", spelling: Long("page"), takes: Nothing, default: None, help: "Writes one page of HTML: a map of the rows of the first two ranges" };

#[rattlefmt::skip]
const PART: OptionRow = OptionRow { id: "part", spelling: Long("part"), takes: Value("K/N"), default: None, help: "Runs the K-th of N parts of the members, and writes what it finds as JSON, for --join" };

#[rattlefmt::skip]
const JOIN: OptionRow = OptionRow { id: "join", spelling: Long("join"), takes: Nothing, default: None, help: "Reads what all parts of a sweep wrote, in any order, and writes what the whole says" };

#[rattlefmt::skip]
const SPIKE: OptionRow = OptionRow { id: "spike", spelling: Long("spike"), takes: Value("NODE|x=PLACE"), default: None, help: "Runs the plan with a spike more at this node or place, at one --step after another, and writes what each costs" };

#[rattlefmt::skip]
const SPIKE_LENGTH: OptionRow = OptionRow { id: "length", spelling: Long("length"), takes: Value("TIME"), default: None, help: "How long the spike takes, in ticks or as a time, as 2us" };

/// The argument that names the file to read.
pub(crate) const INPUTS: [OptionRow; 1] = [INPUT];

/// The options that each subcommand has.
pub(crate) const SHARED: [OptionRow; 3] = [OUTPUT, HINT, PROGRESS];

/// The subcommands, in the order of the help.
#[rattlefmt::skip]
pub(crate) const SUBCOMMANDS: [SubcommandRow; 18] = [
    SubcommandRow { word: "init", about: "Writes a plan to begin from: equal controllers along a cable, a remark on each key", options: &[NODES, BITRATE, CABLE, KIND] },
    SubcommandRow { word: "judge", about: "Tests and simulates the plan, and writes whether its bus works, how sure that is, and what would help", options: &[TICK, EXPLAIN, FORMAT] },
    SubcommandRow { word: "run", about: "Simulates the plan, and writes the report of its nodes and frames", options: &[WORKERS, LINK, BRIEF, CLEAN, FORMAT] },
    SubcommandRow { word: "margin", about: "Tests the plan, and writes whether its bus works at all phases and clocks, and with how much to spare", options: &[TICK, ALL_SEND, HOLDS, FORMAT] },
    SubcommandRow { word: "explain", about: "Tests the plan, and writes what is wrong or doubtful and the figures of its nodes", options: &[NO_DOUBT, FORMAT] },
    SubcommandRow { word: "respond", about: "Tests the plan, and writes how long each message may wait, at all phases and clocks, and whether that is in time", options: &[TICK, ANY_DATA, IN_TIME, FORMAT] },
    SubcommandRow { word: "traffic", about: "Simulates the plan, and writes how busy the bus was, how long messages waited, and whether it works", options: &[TICK, WORKS, FORMAT] },
    SubcommandRow { word: "check", about: "Tests the plan, and writes what its bit segments allow and how long its cable takes", options: &[FORMAT] },
    SubcommandRow { word: "settings", about: "Finds the bit timings with which a bus works for a clock, a bit rate and a cable, the best first", options: &[TICK, BEST, PLAN, APPLY, ANY_SETTING, KINDS, CLOCKS, RATE, LENGTH, PER, OUT, IN, TOLERANCE, SENDERS, RATE_ERROR, SAMPLE_POINT, NODE_COUNT, JUMP, FORMAT] },
    SubcommandRow { word: "sweep", about: "Simulates the plan over phases, clocks and values of keys, and writes how often the bus is clean", options: &[VARY, STEP, RUNS, SEED, THREADS, KEEP_OFFSETS, KEEP_PPM, WORST, PRINT, PAGE, PART, JOIN, SPIKE, SPIKE_LENGTH, FORMAT] },
    SubcommandRow { word: "trace", about: "Simulates the plan, and writes what happened to each node: errors, flags, frames, modes", options: &[FROM_TICK, TO_TICK, NODE, ONLY, FORMAT] },
    SubcommandRow { word: "page", about: "Simulates the plan, and writes one page of HTML that shows it in a browser, of a long run a part", options: &[TICK, FROM_TIME, TO_TIME] },
    SubcommandRow { word: "vcd", about: "Simulates the plan, and writes the waveform of its nodes as a Value Change Dump", options: &[TICK, FROM_TIME, TO_TIME] },
    SubcommandRow { word: "candump", about: "Simulates the plan, and writes the frames that were sent as can-utils logs them", options: &[TICK, FIRST_SECOND, SINCE_TICK, TO_TICK, ERRORS] },
    SubcommandRow { word: "records", about: "Simulates the plan, and writes each change of what a node drives and the silence after it", options: &[FROM_TICK, TO_TICK] },
    SubcommandRow { word: "format", about: "Writes the plan as one of version 4, each key in a line and in the order of the format", options: &[] },
    SubcommandRow { word: "merge", about: "Writes the canonical text of the records that standard input has", options: &[WIDE] },
    SubcommandRow { word: "horizon", about: "Writes what the records tell of each node, and up to which tick", options: &[WIDE] },
];
