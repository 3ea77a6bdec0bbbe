//! The part of a page's script that reads the page's texts.

/// From the layout to what the script draws: the texts as values.
pub(crate) const READING: &str = r##"<script>
"use strict";
// Draws the run of a plan. All that is drawn is read from the texts of the page, as the program writes them: the waveform (IEEE 1364 value
// changes), the trace, the plan, the report, the settings, the margin and the traffic. A time is a number of ticks, if nothing else is said.

const text = (id) => document.getElementById(id).textContent;
const create = (tag, attributes = {}, ...children) => {
  const made = document.createElement(tag);
  for (const [name, value] of Object.entries(attributes)) made.setAttribute(name, value);
  made.append(...children);
  return made;
};
const linesOf = (id) => text(id).split("\n").filter((line) => line !== "");

// ---- Searching

// The number of times at or below `time`.
function countUpTo(times, time) {
  let low = 0, high = times.length;
  while (low < high) {
    const middle = (low + high) >> 1;
    if (times[middle] <= time) low = middle + 1; else high = middle;
  }
  return low;
}
const placeAt = (times, time) => Math.max(0, countUpTo(times, time) - 1);
const valueAt = (signal, time) => signal.values[placeAt(signal.times, time)];

// The place of the last of some times at or below a time, for times that only grow: each is found from the one before.
function follow(times) {
  let at = 0;
  return (time) => {
    while (at + 1 < times.length && times[at + 1] <= time) at += 1;
    return at;
  };
}

// ---- The waveform and the trace

const PICOSECONDS = { ps: 1, ns: 1e3, us: 1e6, ms: 1e9, s: 1e12 };

// The changes of each signal, in order: {times, values}. A signal is named by its letter and its node's number, as t0. Times are in units of the
// dump, which are `unit` picoseconds.
function readWave(dump) {
  const wave = { nodes: [], signals: new Map(), begin: 0, end: 0, unit: 1000 };
  const head = dump.slice(0, dump.indexOf("$enddefinitions"));
  const scale = head.match(/\$timescale\s+(\d+)\s*(\w+)/);
  if (scale) wave.unit = Number(scale[1]) * (PICOSECONDS[scale[2]] ?? 1000);
  for (const [, letter, node, name] of head.matchAll(/\$var \w+ \d+ ([a-z])(\d+) (\S+) \$end/g)) {
    if (letter === "t") wave.nodes[Number(node)] = name.replace(/_tx$/, "");
    wave.signals.set(letter + node, { times: [], values: [] });
  }
  let now = 0, begin = null;
  const change = (name, value) => {
    const signal = wave.signals.get(name);
    if (signal) { signal.times.push(now); signal.values.push(value); }
  };
  // Line by line in place: a list of all lines takes longer than all that is made of them.
  for (let at = head.length, end; at < dump.length; at = end + 1) {
    end = dump.indexOf("\n", at);
    if (end < 0) end = dump.length;
    const kind = dump[at];
    if (kind === "#") { now = Number(dump.slice(at + 1, end)); begin ??= now; }
    else if (kind === "0" || kind === "1") change(dump.slice(at + 1, end), kind === "1" ? 1 : 0);
    else if (kind === "r" || kind === "s") {
      const space = dump.indexOf(" ", at), value = dump.slice(at + 1, space);
      change(dump.slice(space + 1, end), kind === "r" ? Number(value) : value);
    }
  }
  wave.begin = begin ?? 0;
  wave.last = now;
  wave.end = Math.max(wave.begin + 1, now);
  return wave;
}

// The events of the trace: {tick, node, name, bit, what, kind}. No word of an event looks like ` q 1 b 2 `, so the last such piece ends the name.
function readTrace(lines) {
  const events = [];
  for (const [, tick, node, name, bit, what] of lines.matchAll(/^(\d+) (\d+) (.*) q \d+ b (\d+) (.*)$/gm)) {
    events.push({ tick: Number(tick), node: Number(node), name, bit: Number(bit), what, kind: what.slice(0, what.indexOf(" ")) });
  }
  return events;
}

const isError = (event) => event.kind === "error";
const isBad = (event) => event.kind === "error" || event.kind === "flag";
const isFrame = (event) => event.kind === "sent" || event.kind === "received";
const isSync = (event) => event.kind === "sync";

// Which part of the run is shown, {from, to, end} in ticks, and the run in equal parts, {frames, bits, errors}; null if all of it is shown.
function readPart() {
  const [[from, to, end], ...lines] = text("part").trim().split("\n").map((line) => line.split(" ").map(Number));
  return end === undefined ? null : { from, to, end, parts: lines.map(([frames, bits, found]) => ({ frames, bits, errors: found })) };
}

// How many units of the dump a tick takes: by the end of a part, else by a sample that the trace names by its tick and its number, or by the end of the plan.
function unitsOfTick(wave, events, plan, part) {
  if (part) return Math.max(1, Math.round(wave.last / Math.max(1, part.to)));
  const known = events.find((event) => !isSync(event) && event.tick > 0);
  const time = known ? wave.signals.get("s" + known.node).times[known.bit + 1] : wave.end;
  const units = Math.round(time / (known ? known.tick : plan.end));
  return units > 0 ? units : 1;
}

// The waveform with its times in ticks; `tick` is the length of a tick in picoseconds.
function inTicks(wave, units) {
  if (units !== 1) {
    for (const { times } of wave.signals.values()) times.forEach((time, at) => { times[at] = time / units; });
    wave.begin /= units;
    wave.end /= units;
  }
  wave.tick = wave.unit * units;
  return wave;
}

// ---- The plan

// A text of TOML 1.1 as values, as far as plans use it: tables, arrays, whole numbers, strings, booleans.
class TomlReader {
  constructor(source) { Object.assign(this, { source, at: 0 }); }
  take(pattern) {
    pattern.lastIndex = this.at;
    const found = pattern.exec(this.source);
    if (found) this.at = pattern.lastIndex;
    return found;
  }
  want(pattern) {
    const found = this.take(pattern);
    if (!found) throw new SyntaxError(`no ${pattern} at ${this.at}`);
    return found;
  }
  blank() { this.take(/(?:\s|#[^\n]*)*/y); }
  key() {
    const names = [];
    do {
      const [, double, single, bare] = this.want(/[ \t]*(?:("(?:[^"\\]|\\.)*")|'([^']*)'|([\w-]+))[ \t]*/y);
      names.push(double ? JSON.parse(double) : single ?? bare);
    } while (this.take(/\./y));
    return names;
  }
  pair(table) {
    const names = this.key(), last = names.pop();
    this.want(/=[ \t]*/y);
    names.reduce((inner, name) => (inner[name] ??= {}), table)[last] = this.value();
  }
  list(end, each) {
    for (this.blank(); !this.take(end); this.blank()) {
      each();
      this.blank();
      this.take(/,/y);
    }
  }
  value() {
    if (this.take(/\[/y)) { const made = []; this.list(/\]/y, () => made.push(this.value())); return made; }
    if (this.take(/\{/y)) { const made = {}; this.list(/\}/y, () => this.pair(made)); return made; }
    const [, double, single, bare] = this.want(/("(?:[^"\\\n]|\\.)*")|'([^'\n]*)'|([\w+.-]+)/y);
    if (double) return JSON.parse(double);
    return single ?? (bare === "true" || bare === "false" ? bare === "true" : Number(bare.replaceAll("_", "")));
  }
  // The table that a header leads to, the newest of an array of tables.
  static inner(table, name) {
    const found = (table[name] ??= {});
    return Array.isArray(found) ? found.at(-1) : found;
  }
  document() {
    const root = {};
    let table = root;
    for (this.blank(); this.at < this.source.length; this.blank()) {
      const header = this.take(/\[\[?/y);
      if (!header) { this.pair(table); continue; }
      const names = this.key(), last = names.pop(), outer = names.reduce(TomlReader.inner, root);
      if (header[0] === "[[") (outer[last] ??= []).push({});
      table = TomlReader.inner(outer, last);
      this.want(/\]\]?/y);
    }
    return root;
  }
}

// The plan's tables: {end, per, node, disturbance}. A plan that this reader doesn't understand has no nodes, and then no places are drawn.
function readPlan(source) {
  try {
    return { node: [], disturbance: [], ...new TomlReader(source.replace(/^\ufeff/, "")).document() };
  } catch {
    return { node: [], disturbance: [] };
  }
}

// Quantities of texts with a unit, in seconds and in metres.
const UNITS = { fs: 1e-15, ps: 1e-12, ns: 1e-9, us: 1e-6, ms: 1e-3, s: 1, um: 1e-6, mm: 1e-3, cm: 1e-2, m: 1, km: 1e3 };
function quantityOf(said) {
  const [, number, unit] = said.match(/^([\d.]+) ?([a-z]+)$/) ?? [];
  return Number(number) * UNITS[unit];
}

// The plan with whole numbers of ticks and of units of length, where it has texts; a node has the delay of its controller if it has none of its own.
function inUnits(plan) {
  const tick = quantityOf(plan.tick ?? "1ns"), unit = quantityOf(plan.unit ?? "1m");
  const whole = (value, of) => (typeof value === "string" ? Math.round(quantityOf(value) / of) : value);
  const along = (value) => {
    if (typeof value !== "string") return value;
    const [time, length] = value.split("/");
    return ((quantityOf(time) / UNITS[length]) * unit) / tick;
  };
  const node = plan.node.map((one) => ({ ...one, x: whole(one.x, unit), in: whole(one.in ?? plan.controller?.[one.controller]?.in, tick) }));
  const disturbance = plan.disturbance.map((one) => ({ ...one, x: whole(one.x, unit), from: whole(one.from, tick), to: whole(one.to, tick) }));
  return { ...plan, node, disturbance, end: whole(plan.end, tick), per: along(plan.per) };
}

// The disturbances, numbered from 1: {number, from, to, where, at}; `at` has the time at which each begins at each node, if it reaches the node.
function readDisturbances({ node: nodes, disturbance, per }) {
  return disturbance.map(({ x, node, from, to }, index) => {
    const delayTo = ({ name, x: place, in: inner }) => (node === undefined ? Math.abs(x - place) * per : node === name ? 0 : NaN) + inner;
    return { number: index + 1, from, to, length: to - from, where: node ?? x, at: nodes.map((one) => from + delayTo(one)) };
  });
}

// A bit of each node by its settings, in ticks: its quanta, as long as the figures say (they take a tick for a nanosecond).
function readBitLengths(names) {
  const settings = new Map([...text("settings").matchAll(/^node \d+ (\S+) quanta (\d+)/gm)].map(([, name, quanta]) => [name, Number(quanta)]));
  const figures = new Map([...text("figures").matchAll(/^node (\S+): .*\bquantum ([\d.]+) ns/gm)].map(([, name, quantum]) => [name, Number(quantum)]));
  return names.map((name) => (settings.get(name) ?? 1) * (figures.get(name) ?? 100));
}

// ---- Bits and fields

// The field of each bit of a frame without stuff bits, up to the CRC sequence, as far as the bits tell (Bosch CAN 2.0 part B, section 3.2.1).
function fieldNames(bits) {
  const row = (name, count) => Array(count).fill(name), extended = bits[13] === 1;
  const names = ["sof", ...row("id", 11), ...(extended ? ["srr", "ide", ...row("ext id", 18), "rtr", "r1", "r0"] : ["rtr", "ide", "r0"])];
  const at = names.length, code = bits.slice(at, at + 4).reduce((sum, bit) => 2 * sum + bit, 0);
  names.push(...row("dlc", 4));
  if (bits.length < names.length) return { names, length: Infinity };
  const remote = bits[extended ? 32 : 12] === 1;
  for (let byte = 0; byte < (remote ? 0 : Math.min(code, 8)); byte += 1) names.push(...row(`data ${byte}`, 8));
  names.push(...row("crc", 15));
  return { names, length: names.length };
}
const SHAPED = new Set([14, 19, 39]); // after so many bits a frame's form, or its length, is known
const TAIL = ["crc del", "ack", "ack del", "eof"];
const EOF_END = 9; // bits from the CRC delimiter up to the sixth of the end of frame, with which a receiver takes a frame for valid

// A frame bit by bit: what each bit is by its number in the frame without stuff bits, or by its name.
class FrameBits {
  constructor() { Object.assign(this, { bits: [], run: 0, last: 1, after: 0, shape: fieldNames([]), told: [] }); }
  // Takes the next bit, which is that of a sample; returns whether it is a stuff bit.
  push(level, sample) {
    const isWhole = this.bits.length >= this.shape.length, isStuff = this.run === 5 && this.after === 0;
    if (isWhole && !isStuff) {
      this.told.push({ sample, what: TAIL[Math.min(this.after, 3)] });
      this.after += 1;
      return false;
    }
    this.told.push({ sample, what: isStuff ? "stuff" : this.bits.length });
    this.run = !isStuff && this.bits.length > 0 && level === this.last ? this.run + 1 : 1;
    this.last = level;
    if (isStuff) return true;
    this.bits.push(level);
    if (SHAPED.has(this.bits.length)) this.shape = fieldNames(this.bits);
    return false;
  }
  nameOf(what) { return typeof what === "number" ? this.shape.names[what] ?? "?" : what; }
  // The identifier in hexadecimal digits, 3 or 8, as far as it was read; else nothing.
  get identifier() {
    const extended = this.bits[13] === 1, places = extended ? [1, 12, 14, 32] : [1, 12];
    if (this.bits.length < places.at(-1)) return "";
    const taken = [...this.bits.slice(1, 12), ...(extended ? this.bits.slice(14, 32) : [])];
    return taken.reduce((sum, bit) => 2 * sum + bit, 0).toString(16).padStart(extended ? 8 : 3, "0");
  }
  get isComplete() { return this.after >= EOF_END; }
}

// What a node sampled, bit by bit: {samples, starts, levels, stuff}, a level and a mark for each sample; the fields of the frames that it takes part
// in and what it does between them, {from, to, name, value, bits}; the frames, {from, to, identifier, isComplete}.
function readBits(wave, node) {
  const starts = wave.signals.get("b" + node).times, samples = wave.signals.get("s" + node).times.slice(1);
  const rx = wave.signals.get("r" + node), states = wave.signals.get("d" + node);
  const rxAt = follow(rx.times), stateAt = follow(states.times), stateBefore = follow(states.times), startAt = follow(starts);
  const isFraming = (state) => state === "receiving" || state === "transmitting";
  const levels = new Uint8Array(samples.length), stuff = new Uint8Array(samples.length), fields = [], frames = [];
  const add = (sample, name, isStuff) => {
    const start = startAt(samples[sample]), from = starts[start] ?? wave.begin, to = starts[start + 1] ?? wave.end, before = fields.at(-1);
    const isSame = before && before.name === name && before.to === from;
    const field = isSame ? before : { from, to, name, value: 0, bits: 0 };
    field.to = to;
    if (!isStuff) { field.value = 2 * field.value + levels[sample]; field.bits += 1; }
    if (!isSame) fields.push(field);
  };
  const end = (frame) => {
    if (frame === null) return null;
    const first = fields.length;
    let name = "";
    for (const { sample, what } of frame.told) {
      if (what !== "stuff") name = frame.nameOf(what); // a stuff bit is in the field that it follows
      add(sample, name, what === "stuff");
    }
    for (const field of frame.bits[13] === 1 ? fields.slice(first) : []) {
      if (field.name === "id") field.bits = 0; // half of an identifier has no value of its own
      if (field.name === "ext id") field.identifier = frame.identifier;
    }
    frames.push({ from: fields[first].from, to: fields.at(-1).to, identifier: frame.identifier, isComplete: frame.isComplete });
    return null;
  };
  let frame = null, isCut = wave.isPart && isFraming(states.values[0]); // a part may begin within a frame
  samples.forEach((tick, sample) => {
    const level = rx.values[rxAt(tick)], framing = isFraming(states.values[stateAt(tick)]), state = states.values[stateBefore(tick - 1)];
    levels[sample] = level;
    if (isCut) {
      add(sample, "?", true);
      isCut = framing;
      return;
    }
    if (!isFraming(state)) frame = end(frame);
    if (frame === null && level === 0 && (framing || isFraming(state))) frame = new FrameBits();
    if (frame === null) add(sample, state.replaceAll("_", " "), true);
    else stuff[sample] = frame.push(level, sample) ? 1 : 0;
    if (!framing) frame = end(frame);
  });
  end(frame);
  return { samples, starts, levels, stuff, fields, ends: fields.map((field) => field.to), frames, frameEnds: frames.map((one) => one.to) };
}

// What a field says: its name and its value, in hexadecimal digits; the value alone; nothing. The bits of a short field are their own value.
const DIGITS = { id: 3, dlc: 1, crc: 4 };
function wordsOf({ name, value, bits, identifier }) {
  if (identifier) return [`id ${identifier}`, identifier];
  const digits = name.startsWith("data") ? 2 : DIGITS[name];
  if (!digits || bits < (name === "id" ? 11 : name === "crc" ? 15 : name === "dlc" ? 4 : 8)) return [name];
  const hex = value.toString(16).padStart(digits, "0");
  return name === "id" || name === "dlc" || name === "crc" ? [`${name} ${hex}`, name] : [`${name}: ${hex}`, hex];
}

// Counters and mode of a node, at each time at which they change: {time, said, isBad}.
function readSteps(wave, node) {
  const all = ["e", "c", "m"].map((letter) => wave.signals.get(letter + node)), followed = all.map(({ times }) => follow(times));
  return [...new Set(all.flatMap(({ times }) => times))].sort((a, b) => a - b).map((time) => {
    const [tec, rec, mode] = all.map(({ values }, at) => values[followed[at](time)]);
    return { time, said: `tec ${tec} rec ${rec} ${mode === "off" ? "bus off" : mode}`, isBad: mode !== "active" };
  });
}

// A node of the run. What takes long to read is read when it is asked for first.
class NodeOfRun {
  constructor(wave, number) {
    Object.assign(this, { wave, number, name: wave.nodes[number], marks: [], ticks: [], syncs: [] });
    const signal = (letter) => wave.signals.get(letter + number);
    Object.assign(this, { drives: signal("t"), finds: signal("r"), struck: signal("n"), starts: signal("b").times });
  }
  get read() { return (this.kept ??= readBits(this.wave, this.number)); }
  get steps() { return (this.keptSteps ??= readSteps(this.wave, this.number)); }
  // The number of its first sample that is shown, by an event; not known in a part without events.
  get firstBit() {
    const [known] = this.marks;
    return known ? known.bit - countUpTo(this.read.samples, known.tick) + 1 : this.wave.isPart ? NaN : 0;
  }
  get stepTimes() { return (this.keptTimes ??= this.steps.map((step) => step.time)); }
}

function readRun() {
  const plan = inUnits(readPlan(text("plan"))), events = readTrace(text("trace")), raw = readWave(text("wave")), part = readPart();
  const wave = Object.assign(inTicks(raw, unitsOfTick(raw, events, plan, part)), { isPart: part !== null });
  const nodes = wave.nodes.map((_, number) => new NodeOfRun(wave, number));
  for (const event of events) {
    const node = nodes[event.node];
    if (isSync(event)) node.syncs.push(event.tick); else { node.marks.push(event); node.ticks.push(event.tick); }
  }
  return { plan, part, wave, nodes, events, bits: readBitLengths(wave.nodes), disturbances: readDisturbances(plan) };
}
"##;
