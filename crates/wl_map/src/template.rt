//! The page around a map's texts: its layout, its style, and the script that draws.
//!
//! The script takes nothing from elsewhere. It reads the texts of the page by their names.

/// Up to the axes.
pub(crate) const HEAD: &str = r##"<!doctype html>
<html lang="en">
<head>
<meta charset="utf-8">
<meta name="viewport" content="width=device-width, initial-scale=1">
<title>Wireline: a sweep</title>
<style>
:root { color-scheme: light dark; --back: #fff; --text: #1c2430; --faint: #c9d0d8; --link: #0b6fa4; --clean: #bfe3c4; --failing: #f3b6b1; --nearly: #fbe9a8; --refused: #d5dae0; }
@media (prefers-color-scheme: dark) { :root { --back: #14181d; --text: #dfe5ec; --faint: #3a434d; --link: #6db9e6; --clean: #24502c; --failing: #7d2a25; --nearly: #665010; --refused: #3d454f; } }
body { margin: 0 auto; max-width: 1400px; padding: 0 16px 32px; background: var(--back); color: var(--text); font: 14px/1.45 system-ui, sans-serif; }
h1 { font-size: 20px; margin: 16px 0 4px; }
h2 { font-size: 16px; margin: 24px 0 6px; }
.scroll { overflow: auto; }
table { border-collapse: collapse; font-variant-numeric: tabular-nums; }
th { font-weight: normal; text-align: right; padding: 1px 6px; }
td { min-width: 22px; height: 22px; text-align: center; border: 1px solid var(--back); cursor: pointer; print-color-adjust: exact; }
td:focus-visible { outline: 2px solid var(--link); outline-offset: -1px; }
td[aria-selected="true"] { outline: 2px solid var(--text); outline-offset: -1px; }
.clean { background: var(--clean); } .failing { background: color-mix(in srgb, var(--nearly) var(--share, 0%), var(--failing)); } .refused { background: var(--refused); }
.key { display: inline-block; min-width: 22px; text-align: center; }
pre { margin: 0; padding: 8px; border: 1px solid var(--faint); white-space: pre-wrap; overflow-wrap: anywhere; font: 12px/1.4 ui-monospace, monospace; }
@media print { :root { --back: #fff; --text: #000; --clean: #bfe3c4; --failing: #f3b6b1; --nearly: #fbe9a8; --refused: #d5dae0; } .scroll { overflow: visible; } }
</style>
</head>
<body>
<h1>A sweep of a CAN bus, by Wireline</h1>
<p id="counted"></p>
<p id="held"></p>
<p><span class="key clean">&middot;</span> each member is clean <span class="key failing" style="--share: 90%">90</span> so many in a hundred are, rounded down <span class="key failing">&times;</span> none is, or less than one in a hundred <span class="key refused">&ndash;</span> a member is refused, and each other one is clean</p>
<div class="scroll"><table id="map" role="grid" aria-describedby="help"></table></div>
<p id="help">A click, or the arrow keys, Home and End, choose a cell: below is what a sweep of it alone says, and the first error of its first member that isn't clean.</p>
<h2 id="chosen">Cell</h2>
<pre id="told" role="status" aria-labelledby="chosen"></pre>
<h2>What is varied</h2>
<pre id="axes">"##;

/// From the axes to the cells.
pub(crate) const TO_CELLS: &str = r##"</pre>
<pre id="cells" hidden>"##;

/// From the cells to the end: the script, which draws what the texts say.
pub(crate) const SCRIPT: &str = r##"</pre>
<script>
"use strict";
// Draws the map of a sweep: a table with a cell for each row of the sweep. All that it shows is read from the texts of the page.

const text = (id) => document.getElementById(id).textContent;
const create = (tag, attributes = {}, ...children) => {
  const made = document.createElement(tag);
  for (const [name, value] of Object.entries(attributes)) made.setAttribute(name, value);
  made.append(...children);
  return made;
};

// ---- Reading

// The ranges of a kind: {name, values}.
const rangesOf = (kind) => [...text("axes").matchAll(new RegExp(`^${kind} (.*?)((?: -?\\d+)+)$`, "gm"))].map(([, name, values]) => ({ name, values: values.trim().split(" ") }));
const axes = rangesOf("axis"), held = rangesOf("held");
const options = text("axes").match(/^options (.*)$/m)?.[1] ?? "";
const across = axes.at(-1) ?? { name: "", values: [""] };
const down = axes.length > 1 ? axes[0] : { name: "", values: [""] };

// The cells in order: {found, said}.
const cells = text("cells").split(/^cell (?=(?:clean|failing|refused)$)/m).slice(1).map((piece) => {
  const end = piece.indexOf("\n");
  return { found: piece.slice(0, end), said: piece.slice(end + 1) };
});
const placeOf = (number) => [Math.floor(number / across.values.length), number % across.values.length];

// The ranges of a cell with the one value that each has there, as words.
function valuesOf(number) {
  const [row, column] = placeOf(number);
  const chosen = axes.length > 1 ? [[down.name, down.values[row]], [across.name, across.values[column]]] : axes.map(({ name, values }) => [name, values[column]]);
  return [...chosen, ...held.map(({ name, values }) => [name, values[0]])];
}
const quoted = (word) => (/^[\w.=-]+$/.test(word) ? word : `'${word.replaceAll("'", "'\\''")}'`);
// After `=`, since a name may begin with a dash.
const rangeOf = ([name, value]) => "--vary=" + quoted(`${name}=${value}..${value}`);
const commandOf = (number) => ["./wireline sweep PLAN", options, ...valuesOf(number).map(rangeOf)].join(" ");

// How to look at the member that a cell names: its trace, or of one that is refused why.
function memberOf(number) {
  const named = cells[number].said.match(/^first (that isn't|refused): member (\d+)/m);
  if (!named) return "";
  return `its plan: ${commandOf(number)} --print ${named[2]} | ./wireline ${named[1] === "refused" ? "explain" : "trace"}\n`;
}

// ---- The table

const MARKS = { clean: "\u00b7", failing: "\u00d7", refused: "\u2013" };
// How many members of a cell in a hundred are clean, rounded down: between none, which is red, and nearly all, which is yellow.
function shareOf(said) {
  const [, clean, all] = said.match(/clean in (\d+) of (\d+)/) ?? [0, 0, 1];
  return Math.floor((100 * clean) / Math.max(1, all));
}
const map = document.getElementById("map");
const made = cells.map(({ found, said }, number) => {
  const values = valuesOf(number).map(([name, value]) => `${name} ${value}`).join(", ");
  const counted = said.match(/clean in \d+ of \d+.*/)?.[0] ?? "";
  const label = [values, found, counted].filter(Boolean).join(": ");
  const named = { "data-cell": number, "data-found": found, "aria-label": label, "aria-selected": "false", title: label };
  const share = found === "failing" ? shareOf(said) : 0, mark = share > 0 ? String(share) : MARKS[found];
  return create("td", { role: "gridcell", class: found, style: `--share: ${share}%`, tabindex: number === 0 ? "0" : "-1", ...named }, mark);
});

function drawTable() {
  const corner = axes.length > 1 ? `${down.name} \u2193 ${across.name} \u2192` : across.name;
  map.append(create("thead", {}, create("tr", {}, create("th", { scope: "col" }, corner), ...across.values.map((value) => create("th", { scope: "col" }, value)))));
  const body = create("tbody");
  down.values.forEach((value, row) => {
    const first = row * across.values.length;
    body.append(create("tr", {}, create("th", { scope: "row" }, value), ...made.slice(first, first + across.values.length)));
  });
  map.append(body);
}

let chosen = 0;
function choose(number) {
  made[chosen].setAttribute("tabindex", "-1");
  made[chosen].setAttribute("aria-selected", "false");
  chosen = number;
  made[chosen].setAttribute("tabindex", "0");
  made[chosen].setAttribute("aria-selected", "true");
  made[chosen].focus();
  document.getElementById("told").textContent = `${commandOf(number)}\n${cells[number].said}${memberOf(number)}`;
}

// Where a key leads from a cell.
function afterKey(key, number) {
  const width = across.values.length, [row, column] = placeOf(number);
  const steps = { ArrowLeft: column > 0 ? -1 : 0, ArrowRight: column + 1 < width ? 1 : 0, ArrowUp: row > 0 ? -width : 0, ArrowDown: row + 1 < down.values.length ? width : 0 };
  return { ...steps, Home: -column, End: width - 1 - column, Enter: 0, " ": 0 }[key];
}

map.addEventListener("click", (pressed) => {
  const number = pressed.target.dataset.cell;
  if (number !== undefined) choose(Number(number));
});
map.addEventListener("keydown", (pressed) => {
  const step = pressed.ctrlKey || pressed.metaKey || pressed.altKey ? undefined : afterKey(pressed.key, Number(pressed.target.dataset.cell));
  if (step !== undefined) { choose(Number(pressed.target.dataset.cell) + step); pressed.preventDefault(); }
});

drawTable();
const count = (found) => cells.filter((cell) => cell.found === found).length;
document.getElementById("counted").textContent = `${cells.length} cells: ${count("clean")} clean, ${count("failing")} failing, ${count("refused")} refused.`;
document.getElementById("held").textContent = held.length > 0 ? `Held at their first value: ${held.map(({ name, values }) => `${name} ${values[0]}`).join(", ")}.` : "";
document.documentElement.dataset.ready = "yes";
</script>
</body>
</html>
"##;
