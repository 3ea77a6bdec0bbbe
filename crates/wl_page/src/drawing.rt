//! The part of a page's script that draws the waveform.

/// From what was read to the picture of it.
pub(crate) const DRAWING: &str = r##"
// ---- The view

const run = readRun();
const { wave, nodes } = run;
const events = run.events.filter((event) => !isSync(event)), errors = events.filter(isError);
const eventTicks = events.map((event) => event.tick), errorTicks = errors.map((event) => event.tick);

// What is shown: from a time to a time, in ticks or in microseconds; the cursor, the mark, and the node whose edges the keys go by.
const view = { from: wave.begin, to: wave.end, cursor: null, mark: null, node: 0, inTicks: false, width: 0, pending: false };
const plot = document.getElementById("plot"), axis = document.getElementById("axis");
const LEFT = 116, PAD = 8, SHORTEST = 20, OVERVIEW = 14, AXIS = 38, ROW = 104;
// The lines of a node's row: where each part of it begins.
const LINE = { fields: 16, bits: 31, drives: 48, finds: 66, marks: 84, words: 99 };
const INKS = ["back", "text", "faint", "edge", "drive", "found", "sample", "sync", "field", "stuff", "error", "good", "cursor", "mark", "disturb"];
const ink = {};
const SMALL = "11px system-ui, sans-serif", LARGE = "bold 12px system-ui, sans-serif";

const places = () => view.width - LEFT - PAD;
const place = (tick) => LEFT + ((tick - view.from) / (view.to - view.from)) * places();
const tickAt = (x) => view.from + ((x - LEFT) / places()) * (view.to - view.from);
// What the strip above has: the whole run, also if only a part of it is shown.
const strip = run.part ? { begin: 0, end: run.part.end } : wave;
const wholePlace = (tick) => LEFT + ((tick - strip.begin) / (strip.end - strip.begin)) * places();
const bitLength = () => run.bits[view.node];

// ---- Numbers

const TICK = wave.tick / 1e6; // the length of a tick in microseconds
const DECIMALS = [0, 3, 6].find((decimals) => wave.tick % 10 ** (6 - decimals) === 0) ?? 6;
const formats = Array.from({ length: 7 }, (_, decimals) => new Intl.NumberFormat("en", { minimumFractionDigits: decimals, maximumFractionDigits: decimals }));
const digits = (value, decimals = 0) => formats[decimals].format(value);
const microseconds = (ticks) => `${digits(ticks * TICK, DECIMALS)} us`;
const timeOf = (ticks) => (view.inTicks ? digits(Math.round(ticks)) : digits(ticks * TICK, DECIMALS));
const timed = (ticks) => (view.inTicks ? `tick ${timeOf(ticks)}` : microseconds(ticks));
// A tick of so many picoseconds, and the words for the page of a part.
const tickWord = (tick) => (tick % 1e6 === 0 ? `${tick / 1e6}us` : tick % 1e3 === 0 ? `${tick / 1e3}ns` : `${tick}ps`);
const partWords = (from, to) => `./wireline page PLAN${wave.tick === 1000 ? "" : ` --tick ${tickWord(wave.tick)}`} --from ${from} --to ${to}`;
const bitsOf = (ticks) => `${digits(ticks / bitLength(), 2)} bits`;

// ---- Parts of the picture

// The places of some times in order that are in view, but for those that come no more than `least` pixels after the one before.
function* spread(times, first, least) {
  let at = first;
  while (at < times.length && times[at] < view.to) {
    yield at;
    const beyond = countUpTo(times, tickAt(Math.max(LEFT, place(times[at])) + least));
    at = Math.max(at + 1, beyond);
  }
}

// A level as a line. A column of pixels with more edges than a line can show is a block, which ends with the column.
function drawLevel(pen, { times, values }, top, height, colour) {
  const first = placeAt(times, view.from), last = countUpTo(times, view.to), blocks = new Path2D();
  const heightAt = (at) => top + (values[at] ? 0 : height);
  pen.strokeStyle = pen.fillStyle = colour;
  pen.beginPath();
  pen.moveTo(LEFT, heightAt(first));
  for (let at = first + 1, after = at; at < last; at = after) {
    const x = place(times[at]), column = Math.floor(x), edges = Math.min(last, countUpTo(times, tickAt(column + 1))) - at;
    after = edges > 2 ? at + edges : at + 1;
    if (edges > 2) blocks.rect(column, top, 1, height);
    pen.lineTo(x, heightAt(at - 1));
    pen.lineTo(x, heightAt(after - 1));
  }
  pen.lineTo(LEFT + places(), heightAt(last - 1));
  pen.stroke();
  pen.fill(blocks);
}

// The disturbances that strike a node within some time, by their numbers in the plan.
const strikersOf = (number, from, to) => run.disturbances.filter(({ at, length }) => at[number] < to && at[number] + length > from);

// Where disturbances strike a node: a bar over each column of pixels that they reach, and hatching over what the node finds there.
function drawStruck(pen, node, top) {
  const bars = new Path2D(), bands = new Path2D(), { times, values } = node.struck;
  for (let at = placeAt(times, view.from); at < times.length && times[at] < view.to; at += 1) {
    if (!values[at]) continue;
    const until = times[at + 1] ?? wave.end, x = Math.floor(place(Math.max(view.from, times[at]))), end = Math.ceil(place(Math.min(view.to, until)));
    bars.rect(x, top, end - x, 3);
    bands.rect(x, top + 3, end - x, 18);
    const named = strikersOf(node.number, times[at], until).map(({ number }) => number).join(", ");
    drawWords(pen, [`disturbance ${named}, ${microseconds(until - times[at])}`, named], x, end, top + 17, ink.back);
  }
  pen.fillStyle = ink.disturb;
  pen.fill(bars);
  pen.fillStyle = ink.hatch;
  pen.globalCompositeOperation = "destination-over";
  pen.fill(bands);
  pen.globalCompositeOperation = "source-over";
}

// Diagonal lines, as a pattern that fills.
function hatching(pen, dense) {
  const tile = Object.assign(document.createElement("canvas"), { width: 6 * dense, height: 6 * dense }), brush = tile.getContext("2d");
  brush.scale(dense, dense);
  brush.strokeStyle = ink.disturb;
  brush.lineWidth = 1.2;
  brush.beginPath();
  for (const x of [-6, 0, 6]) { brush.moveTo(x, 6); brush.lineTo(x + 6, 0); }
  brush.stroke();
  const pattern = pen.createPattern(tile, "repeat");
  pattern.setTransform(new DOMMatrix().scale(1 / dense));
  return pattern;
}

// Marks at times, but for those that are nearer than four pixels to another one: they would be drawn as a block.
function drawMarks(pen, times, y, colour, shape) {
  const first = countUpTo(times, view.from), last = countUpTo(times, view.to), near = (4 * (view.to - view.from)) / places();
  if ((last - first) * 3 > places()) return;
  pen.fillStyle = pen.strokeStyle = colour;
  for (let at = first; at < last; at += 1) {
    const isNear = times[at] - times[at - 1] < near || times[at + 1] - times[at] < near; // not so before the first one and after the last one
    if (!isNear) shape(pen, place(times[at]), y);
  }
}
const triangle = (pen, x, y) => { pen.beginPath(); pen.moveTo(x, y); pen.lineTo(x - 3, y + 5); pen.lineTo(x + 3, y + 5); pen.fill(); };
const stroke = (pen, x, y) => { pen.beginPath(); pen.moveTo(x, y); pen.lineTo(x, y + 5); pen.stroke(); };

// The first of some texts that fits between two places, in the middle; on a ground of its own if a colour for it is given.
function drawWords(pen, said, x, end, y, ground = null) {
  if (end - x < 8) return;
  const found = said.find((words) => pen.measureText(words).width + 4 < end - x);
  if (!found) return;
  const wide = pen.measureText(found).width, left = (x + end - wide) / 2;
  if (ground !== null) { pen.fillStyle = ground; pen.fillRect(left - 2, y - 10, wide + 4, 13); }
  pen.fillStyle = ink.text;
  pen.fillText(found, left, y);
}

const FRAMING = new Set(["sof", "id", "srr", "ide", "ext id", "rtr", "r1", "r0", "dlc", "crc", ...TAIL]);
const isOfFrame = ({ name }) => FRAMING.has(name) || name.startsWith("data") || name === "?";

// A piece of the line of fields: filled within a frame, a line below it between frames, red for a flag or a frame that broke off.
function drawPiece(pen, said, from, to, y, isFilled, isBroken) {
  const x = Math.max(LEFT, place(from)), end = Math.min(LEFT + places(), place(to)), wide = Math.max(0.5, end - x - 0.5);
  pen.fillStyle = isFilled ? ink.field : isBroken ? ink.error : ink.faint;
  pen.fillRect(x, isFilled ? y : y + 12, wide, isFilled ? 13 : 1);
  pen.fillStyle = ink.error;
  if (isFilled && isBroken) pen.fillRect(x, y + 11, wide, 2);
  drawWords(pen, said, x, end, y + 10);
}

// The fields of frames and what a node does between them; frames as a whole if a bit has less than a pixel.
function drawFields(pen, { fields, ends, frames, frameEnds }, y, bit) {
  if (bit < 1) {
    for (const at of spread(frameEnds, countUpTo(frameEnds, view.from), 0.5)) {
      const { from, to, identifier, isComplete } = frames[at];
      drawPiece(pen, [isComplete ? identifier : `${identifier} broken off`, identifier], from, to, y, true, !isComplete);
    }
    return;
  }
  for (let at = countUpTo(ends, view.from); at < fields.length && fields[at].from < view.to; at += 1) {
    drawPiece(pen, wordsOf(fields[at]), fields[at].from, fields[at].to, y, isOfFrame(fields[at]), fields[at].name.endsWith("flag"));
  }
}

// The bits that a node samples, each in its place, if there is room; stuff bits have a ground of their own.
function drawBits(pen, { samples, starts, levels, stuff }, y, bit) {
  if (bit < 4) return;
  const last = countUpTo(samples, view.to + bitLength()), startAt = follow(starts);
  for (let at = placeAt(samples, view.from); at < Math.min(last, samples.length); at += 1) {
    const start = startAt(samples[at]), x = place(starts[start]), end = place(starts[start + 1] ?? wave.end);
    pen.fillStyle = ink.stuff;
    if (stuff[at]) pen.fillRect(x, y, end - x, 13);
    pen.fillStyle = ink.faint;
    pen.fillRect(x, y, 0.5, 13);
    drawWords(pen, [String(levels[at])], x, end, y + 10);
  }
}

// Counters and mode of a node, as steps.
function drawSteps(pen, node, y) {
  const { steps, stepTimes } = node;
  for (const at of spread(stepTimes, placeAt(stepTimes, view.from), 1)) {
    const x = Math.max(LEFT, place(steps[at].time)), end = Math.min(LEFT + places(), place(stepTimes[at + 1] ?? wave.end));
    pen.fillStyle = steps[at].isBad ? ink.error : ink.faint;
    pen.fillRect(x, y + 12, Math.max(0.5, end - x - 1), 1.5);
    pen.fillStyle = ink.text;
    if (pen.measureText(steps[at].said).width + 4 < end - x) pen.fillText(steps[at].said, x + 2, y + 9);
  }
}

function drawEvents(pen, { marks, ticks }, top) {
  let free = -Infinity, drawn = "", frames = 0;
  for (let at = countUpTo(ticks, view.from - 1); at < marks.length && ticks[at] <= view.to; at += 1) {
    const event = marks[at], x = place(event.tick), colour = isBad(event) ? ink.error : isFrame(event) ? ink.good : ink.sync;
    if (isFrame(event)) frames += 1;
    if (drawn === colour + Math.round(x)) continue;
    drawn = colour + Math.round(x);
    const wide = pen.measureText(event.what).width, isSaid = x > free && x + wide < LEFT + places();
    pen.fillStyle = colour;
    pen.fillRect(x - 0.75, top + LINE.fields, 1.5, LINE.words - LINE.fields - (isSaid ? 0 : 10)); // words are not crossed out
    if (!isSaid) continue;
    pen.fillText(event.what, x + 3, top + LINE.words);
    free = x + wide + 8;
  }
  return frames;
}

function drawNames(pen, node, top) {
  pen.fillStyle = ink.text;
  pen.font = LARGE;
  if (node.number === view.node) pen.fillRect(0, top + 2, 3, ROW - 6);
  pen.fillText(node.name.length > 13 ? node.name.slice(0, 12) + "…" : node.name, 7, top + 12);
  pen.font = SMALL;
  const found = (signal) => (view.cursor === null ? "" : ` ${valueAt(signal, view.cursor)}`);
  pen.fillText("fields", 7, top + LINE.fields + 10);
  pen.fillText("bits", 7, top + LINE.bits + 10);
  pen.fillText("drives" + found(node.drives), 7, top + LINE.drives + 9);
  pen.fillText("finds" + found(node.finds), 7, top + LINE.finds + 10);
  pen.fillText("samples", 7, top + LINE.marks + 6);
  if (!node.struck.values.includes(1)) return;
  pen.fillStyle = ink.disturb;
  pen.fillText("disturbed", 56, top + LINE.finds + 10);
}

// Draws a node's row; returns how many of its frames are in view.
function drawNode(pen, node, top) {
  const bit = (run.bits[node.number] / (view.to - view.from)) * places();
  pen.clearRect(0, top, view.width, ROW);
  drawNames(pen, node, top);
  pen.save();
  pen.beginPath();
  pen.rect(LEFT, top, places(), ROW);
  pen.clip();
  drawGrid(pen, top);
  drawLevel(pen, node.drives, top + LINE.drives, 10, ink.drive);
  drawLevel(pen, node.finds, top + LINE.finds, 12, ink.found);
  drawStruck(pen, node, top + LINE.finds - 5);
  drawFields(pen, node.read, top + LINE.fields, bit);
  drawBits(pen, node.read, top + LINE.bits, bit);
  drawMarks(pen, node.starts, top + LINE.drives + 11, ink.edge, stroke);
  drawMarks(pen, node.read.samples, top + LINE.marks, ink.sample, triangle);
  drawMarks(pen, node.syncs, top + LINE.finds + 13, ink.sync, stroke);
  const frames = drawEvents(pen, node, top);
  drawSteps(pen, node, top);
  drawCursors(pen, top, ROW);
  pen.restore();
  return frames;
}

// ---- Time

function niceStep(width, most) {
  const base = 10 ** Math.floor(Math.log10(width / most));
  return [1, 2, 5, 10].map((by) => by * base).find((step) => width / step <= most) ?? 10 * base;
}

// The times of the grid, with their labels: round numbers in the unit that is shown.
function gridTimes() {
  const unit = view.inTicks ? 1 : TICK, [from, to] = [view.from * unit, view.to * unit];
  const step = Math.max(unit, niceStep(to - from, places() / 100)), decimals = Math.min(DECIMALS, Math.max(0, Math.ceil(-Math.log10(step) - 1e-9)));
  const found = [];
  for (let count = Math.ceil(from / step); count * step <= to; count += 1) found.push({ tick: (count * step) / unit, said: digits(count * step, decimals) });
  return found;
}

function drawGrid(pen, top) {
  pen.fillStyle = ink.faint;
  for (const { tick } of view.grid) pen.fillRect(place(tick), top, 0.5, ROW);
}

// The cursor is a line, the mark a dashed line.
function drawCursors(pen, top, height) {
  for (const [tick, colour, dashes] of [[view.mark, ink.mark, [4, 3]], [view.cursor, ink.cursor, []]]) {
    if (tick === null) continue;
    pen.strokeStyle = colour;
    pen.setLineDash(dashes);
    pen.beginPath();
    pen.moveTo(place(tick), top);
    pen.lineTo(place(tick), top + height);
    pen.stroke();
    pen.setLineDash([]);
  }
}

// The load of each part of the run, by the bits of its frames, without stuff bits, and by a bit of the first node.
function drawParts(pen, { end, parts }, wide) {
  parts.forEach(({ bits }, at) => {
    const high = Math.min(1, (bits * run.bits[0] * parts.length) / end) * (OVERVIEW - 4);
    pen.fillRect(LEFT + at * wide, OVERVIEW - 2 - high, wide, high);
  });
}
const partsWithErrors = ({ end, parts }) => parts.flatMap(({ errors: found }, at) => (found > 0 ? [((at + 0.5) * end) / parts.length] : []));

// The whole run in a strip: how busy the line is in each column of pixels, where disturbances and errors are, and the part that is shown.
function drawOverview(pen) {
  const scale = places() / (strip.end - strip.begin);
  pen.fillStyle = ink.field;
  if (run.part) drawParts(pen, run.part, places() / run.part.parts.length);
  else for (const { from, to } of nodes[0].read.frames) pen.fillRect(wholePlace(from), 2, Math.max(0.3, (to - from) * scale), OVERVIEW - 4);
  pen.fillStyle = ink.disturb;
  for (const { from, length } of run.disturbances) pen.fillRect(wholePlace(from), OVERVIEW - 4, Math.max(1, length * scale), 3);
  pen.fillStyle = ink.error;
  let drawn = -1;
  for (const tick of run.part ? partsWithErrors(run.part) : errorTicks) {
    const x = Math.round(wholePlace(tick));
    if (x !== drawn) pen.fillRect(x - 0.75, 0, 1.5, OVERVIEW);
    drawn = x;
  }
  pen.strokeStyle = ink.text;
  const x = wholePlace(view.from);
  pen.strokeRect(x, 1, Math.max(2, wholePlace(view.to) - x), OVERVIEW - 2);
}

function drawAxis(pen) {
  pen.clearRect(0, 0, view.width, AXIS);
  pen.font = SMALL;
  pen.fillStyle = ink.text;
  pen.fillText("whole run", 7, 11);
  pen.fillText(view.inTicks ? "ticks" : "us", 7, 30);
  drawOverview(pen);
  for (const { tick, said } of view.grid) {
    pen.fillStyle = ink.edge;
    pen.fillRect(place(tick), OVERVIEW + 6, 0.5, AXIS - OVERVIEW);
    pen.fillStyle = ink.text;
    if (place(tick) + pen.measureText(said).width < view.width) pen.fillText(said, place(tick) + 3, 30);
  }
  pen.save();
  pen.beginPath();
  pen.rect(LEFT - 1, 0, places() + 2, AXIS);
  pen.clip();
  drawCursors(pen, OVERVIEW + 2, AXIS);
  pen.restore();
}

// ---- The whole picture

// The colours of the page, as a canvas takes them.
function readInks() {
  const probe = document.body.appendChild(create("span", { hidden: "" }));
  for (const name of INKS) {
    probe.style.color = `var(--${name})`;
    ink[name] = getComputedStyle(probe).color;
  }
  probe.remove();
}

// A canvas's pen, after its size was made that of the page.
function penOf(canvas, height, dense) {
  const [wide, high] = [view.width * dense, height * dense].map(Math.round);
  if (canvas.width !== wide || canvas.height !== high) {
    canvas.style.height = `${height}px`;
    canvas.width = wide;
    canvas.height = high;
  }
  const pen = canvas.getContext("2d");
  pen.setTransform(dense, 0, 0, dense, 0, 0);
  pen.lineWidth = 1.5;
  return pen;
}

// The rows that the window shows, and one more at each side.
function rowsInWindow() {
  const { top } = plot.getBoundingClientRect();
  return [Math.max(0, Math.floor(-top / ROW) - 1), Math.min(nodes.length, Math.ceil((innerHeight - top) / ROW) + 1)];
}

function draw([first, last] = rowsInWindow()) {
  const dense = window.devicePixelRatio || 1;
  view.pending = false;
  view.width = plot.clientWidth;
  view.grid = gridTimes();
  readInks();
  const pen = penOf(plot, ROW * nodes.length, dense);
  ink.hatch = hatching(pen, dense);
  let frames = 0;
  for (const node of nodes.slice(first, last)) frames += drawNode(pen, node, ROW * node.number);
  drawAxis(penOf(axis, AXIS, dense));
  document.documentElement.dataset.frames = String(frames);
}

// Draws with the next picture of the screen, once, whatever asks for it until then.
function redraw() {
  if (!view.pending) requestAnimationFrame(() => draw());
  view.pending = true;
}
"##;
