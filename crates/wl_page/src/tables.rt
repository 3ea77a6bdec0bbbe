//! The part of a page's script that fills its tables, draws the cable, and begins.

/// From what moves to the end of the page.
pub(crate) const TABLES: &str = r##"
// ---- Tables

const cell = (said, attributes = {}) => create("td", attributes, said);
const timeCell = (tick) => cell(timeOf(tick), { "data-tick": tick });
const heads = (names) => create("thead", {}, create("tr", {}, ...names.map((name) => create("th", { scope: "col" }, name))));
const named = (name, cells) => create("tr", {}, create("th", { scope: "row" }, name), ...cells);
// A table that scrolls, named by the heading with this name.
const table = (heading, names, rows) => create("div", { class: "scroll", tabindex: 0, role: "group", "aria-labelledby": heading },
  create("table", {}, heads(names), create("tbody", {}, ...rows)));
const counted = (count, name, names) => `${count} ${count === 1 ? name : names}`;

const STEP = 500; // lines that the table of events has at first, and that a press adds
function fillEvents() {
  const body = document.querySelector("#events tbody"), more = document.getElementById("more"), only = document.getElementById("only");
  let shown = 0, listed = events;
  const rowFor = (event) => {
    const button = create("button", { type: "button", "data-tick": event.tick, "data-node": event.node, class: isBad(event) ? "bad" : "plain" }, timeOf(event.tick));
    return create("tr", {}, cell(button), cell(event.name), cell(String(event.bit)), cell(event.what));
  };
  const add = () => {
    body.append(...listed.slice(shown, shown + STEP).map(rowFor));
    shown = Math.min(listed.length, shown + STEP);
    more.hidden = shown === listed.length;
    more.textContent = `${Math.min(STEP, listed.length - shown)} more of ${listed.length}`;
  };
  const begin = () => {
    listed = only.checked ? events.filter(isBad) : events;
    shown = 0;
    body.replaceChildren();
    add();
  };
  body.addEventListener("click", ({ target }) => {
    if (target.dataset.tick === undefined) return;
    view.node = Number(target.dataset.node);
    jump(Number(target.dataset.tick));
    plot.focus();
  });
  more.addEventListener("click", add);
  only.addEventListener("change", begin);
  begin();
}

// Which part of the run the page shows, and how to get another.
function sayPart({ from, to, end }) {
  const shown = document.getElementById("shown"), ticks = (tick) => create("span", { "data-tick": tick });
  shown.hidden = false;
  shown.append("This page shows a part of the run: from ", ticks(from), " to ", ticks(to), " of ", ticks(end), " ", create("span", { class: "unit" }));
  shown.append(". Waveform and events are those of this part; traffic, report and margin are those of the whole run. The next part: ", create("code", {}, partWords(to, Math.min(end, 2 * to - from))), ".");
}

function fillHead() {
  const count = (isCounted) => run.events.filter(isCounted).length, ofKind = (kind) => count((event) => event.kind === kind);
  const parts = [counted(ofKind("sent"), "frame sent", "frames sent"), `${ofKind("received")} received`];
  parts.push(counted(errors.length, "error", "errors"), counted(count(isSync), "synchronisation", "synchronisations"));
  document.getElementById("counted").textContent = (run.part ? "in this part " : "") + parts.join(", ");
  if (run.part) sayPart(run.part);
  const first = document.getElementById("first");
  if (errors.length === 0) return;
  first.hidden = false;
  first.append("first error: ", create("span", { "data-tick": errors[0].tick }), " ", create("span", { class: "unit" }), `, ${errors[0].name}: ${errors[0].what}`);
  first.addEventListener("click", () => { view.cursor = null; goToError(1); plot.focus(); });
}

// A row of words as a table: `node 0 tec 0 rec 0 ..` has a name before each value.
function fillReport() {
  const rows = linesOf("report").filter((line) => line.startsWith("node ")).map((line) => line.split(" "));
  const odd = (words) => words.slice(2).filter((_, at) => at % 2 === 0), even = (words) => words.slice(2).filter((_, at) => at % 2 === 1);
  const made = rows.map((words, node) => named(wave.nodes[node] ?? words[1], even(words).map((said) => cell(said))));
  document.getElementById("nodes").append(table("ends", ["node", ...odd(rows[0] ?? [])], made));
  document.getElementById("verdict").textContent = linesOf("report").at(-1);
}

// Lines of a form as the rows of a table, in the place of the first of them; all others as they are, in their places.
function fillLines(id, ...forms) {
  const section = document.getElementById(id + "-table"), lines = linesOf(id), filled = new Set();
  for (const line of lines) {
    const kind = forms.find(({ form }) => form.test(line));
    if (kind === undefined) section.append(create("p", {}, line));
    if (kind === undefined || filled.has(kind)) continue;
    filled.add(kind);
    const rows = lines.map((each) => each.match(kind.form)).filter(Boolean);
    section.append(table(section.getAttribute("aria-labelledby"), kind.names(rows[0]), rows.map(kind.row)));
  }
}

// The words of a message's line as pairs of name and value: `sent 5 .. us least 232 mean 259.80`.
function pairsOf(said) {
  const pairs = [];
  let group = "";
  for (const words = said.split(" "); words.length > 1;) {
    if (/^[a-z]/.test(words[1])) { group = words.shift() + " "; continue; }
    const [name, value] = words.splice(0, 2);
    pairs.push([group + name, value]);
  }
  return pairs;
}

function fillTables() {
  const MESSAGE = /^message \d+ (.*) ([0-9a-f]{8}|[0-9a-f]{3}) (sent .*)$/, PAIR = /^pair (.*): late (.*), early (.*), drift (.*)$/;
  const BOUND = /^bound \d+ (.*) ([0-9a-f]{8}|[0-9a-f]{3}) at most (.*) quanta (.*) us, proved$/;
  const spared = (said) => cell(said, said.startsWith("-") ? { class: "bad" } : {}), cells = (all) => all.map((value) => cell(value));
  fillLines("margin", { form: PAIR, names: () => ["pair", "late", "early", "drift"], row: ([, pair, ...spare]) => named(pair, spare.map(spared)) });
  const messages = {
    form: MESSAGE,
    names: (first) => ["node", "identifier", ...pairsOf(first[3]).map(([name]) => name)],
    row: ([, node, identifier, said]) => named(node, cells([identifier, ...pairsOf(said).map(([, value]) => value)])),
  };
  const bounds = { form: BOUND, names: () => ["node", "identifier", "quanta at most", "us at most, proved"], row: ([, node, ...said]) => named(node, cells(said)) };
  fillLines("traffic", messages, bounds);
}

function fillDisturbances() {
  const section = document.getElementById("disturbances");
  section.hidden = run.disturbances.length === 0;
  const rows = run.disturbances.map(({ number, where, from, to, length }) => {
    const button = create("button", { type: "button", "data-tick": from }, timeOf(from)), cells = [cell(button), timeCell(to), timeCell(length)];
    button.addEventListener("click", () => { jump(from); plot.focus(); });
    return named(String(number), [cell(typeof where === "number" ? `place ${digits(where)}` : `node ${where}`), ...cells, cell(digits(length / bitLength(), 2))]);
  });
  section.append(create("p", {}, "The line is dominant from one time up to the other, counted there; in ", create("span", { class: "unit" }), "."));
  section.append(table("struck", ["number", "where", "from", "to", "for", "bits"], rows));
}

// ---- The cable

const svg = (tag, attributes, ...children) => {
  const made = document.createElementNS("http://www.w3.org/2000/svg", tag);
  for (const [name, value] of Object.entries(attributes)) made.setAttribute(name, value);
  made.append(...children);
  return made;
};

// Labels in lines above each other, each in the lowest line in which no other is in its way: {x, said, line}.
function inLines(labels) {
  const ends = [];
  return labels.map((label) => {
    const wide = 7 * label.said.length + 14, free = ends.findIndex((end) => end < label.x), line = free < 0 ? ends.length : free;
    ends[line] = label.x + wide;
    return { ...label, line };
  });
}

// Disturbances by their numbers, as `disturbances 1, 2, 3 ..`.
function numbersOf(found) {
  const numbers = found.map(({ number }) => number);
  return `${numbers.length > 1 ? "disturbances" : "disturbance"} ${numbers.slice(0, 3).join(", ")}${numbers.length > 3 ? " .." : ""}`;
}

// The nodes along the cable, each at its place, in units of length; disturbances at theirs.
function drawCable() {
  const picture = document.getElementById("cable"), { per, node } = run.plan;
  const lasting = run.disturbances.filter(({ where }) => typeof where === "number"), all = [...node, ...lasting.map(({ where }) => ({ x: where }))].map(({ x }) => x);
  const sorted = node.toSorted((a, b) => a.x - b.x), [least, most] = [Math.min(...all), Math.max(...all)];
  const lengths = document.getElementById("lengths");
  if (sorted.length === 0) { lengths.textContent = "The places of the nodes are in the plan."; picture.remove(); return; }
  const spot = (x) => 20 + (640 * (x - least)) / Math.max(1, most - least);
  const labels = inLines(sorted.map(({ x, name }) => ({ x: spot(x), said: `${name} ${digits(x)}` })));
  const groups = [...Map.groupBy(lasting, ({ where }) => where)].sort(([a], [b]) => a - b);
  const struck = inLines(groups.map(([where, found]) => ({ x: spot(where), said: `${numbersOf(found)} at ${digits(where)}` })));
  const wire = 20 + 16 * (1 + Math.max(...labels.map(({ line }) => line))), high = wire + 44 + 16 * struck.length;
  picture.setAttribute("viewBox", `0 0 800 ${high}`);
  picture.append(svg("defs", {}, svg("pattern", { id: "hatch", width: 5, height: 5, patternUnits: "userSpaceOnUse" }, svg("path", { d: "M0 5L5 0", class: "hatch" }))));
  picture.append(svg("line", { x1: spot(least), y1: wire, x2: spot(most), y2: wire, class: "wire" }));
  for (const { x, said, line } of labels) {
    const top = wire - 16 * (line + 1);
    picture.append(svg("line", { x1: x, y1: wire, x2: x, y2: top, class: "wire" }), svg("circle", { cx: x, cy: wire, r: 4, class: "node" }));
    picture.append(svg("text", { x: x + 4, y: top + 6 }, said));
  }
  let end = -Infinity;
  for (const [at, { x }] of sorted.slice(1).entries()) {
    const before = sorted[at].x, said = digits(x - before), between = (spot(before) + spot(x)) / 2;
    if (x === before || between - 4 * said.length < end || spot(x) - spot(before) < 8 * said.length) continue;
    end = between + 4 * said.length;
    picture.append(svg("text", { x: between, y: wire + 13, "text-anchor": "middle", class: "small" }, said));
  }
  for (const { x, said, line } of struck) {
    picture.append(svg("rect", { x: x - 5, y: wire - 8, width: 10, height: 16, class: "struck" }), svg("text", { x: x + 4, y: wire + 30 + 16 * line }, said));
    picture.append(svg("line", { x1: x, y1: wire + 8, x2: x, y2: wire + 30 + 16 * line, class: "hatch" }));
  }
  const whole = microseconds(per * (sorted.at(-1).x - sorted[0].x));
  lengths.textContent = `Places and distances in units of length. A level takes ${microseconds(per)} along a unit (a metre of cable takes some 5 ns), and ${whole}`
    + " from the first node to the last, without transceivers.";
}

// ---- The beginning

fillReport();
fillHead();
fillEvents();
fillTables();
fillDisturbances();
drawCable();
fillHelp();
sayTimes(document);
sayScheme();
listen();
showNamed();
draw();
plot.focus({ preventScroll: true });
document.documentElement.dataset.ready = "yes";
</script>
</body>
</html>
"##;
