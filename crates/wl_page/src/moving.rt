//! The part of a page's script that moves: the cursor, the mark, keys, mouse and wheel.

/// From the picture to what changes it.
pub(crate) const MOVING: &str = r##"
// ---- What is shown

const status = document.getElementById("status"), reading = document.getElementById("reading"), under = document.getElementById("under");

function say() {
  const [from, to, end] = [view.from, view.to, strip.end].map(timeOf), shown = bitsOf(view.to - view.from);
  status.textContent = view.inTicks ? `ticks ${from} to ${to} of ${end}; ${shown}` : `${from} to ${to} of ${end} us; ${shown}`;
  reading.textContent = [readingOf("cursor", view.cursor), readingOf("mark", view.mark), differenceOf(view.cursor, view.mark)].filter(Boolean).join("; ");
  redraw();
}

// What happens at a time, node by node.
function happeningsAt(tick) {
  const found = new Map();
  for (let at = countUpTo(eventTicks, tick - 0.5); at < events.length && eventTicks[at] <= tick + 0.5; at += 1) {
    found.set(events[at].name, [...(found.get(events[at].name) ?? []), events[at].what]);
  }
  return [...found].map(([name, what]) => `${name}: ${what.join(", ")}`).join("; ");
}

const readingOf = (name, tick) => (tick === null ? "" : [`${name} at ${timed(tick)}`, happeningsAt(tick)].filter(Boolean).join(", "));

// The cursor's time less the mark's.
function differenceOf(cursor, mark) {
  if (cursor === null || mark === null) return "";
  const ticks = cursor - mark;
  return `difference ${microseconds(ticks)}, ${digits(Math.round(ticks))} ticks, ${bitsOf(ticks)} of ${nodes[view.node].name}`;
}

function show(from, to) {
  const width = Math.min(wave.end - wave.begin, Math.max(SHORTEST, to - from));
  view.from = Math.min(Math.max(wave.begin, from), wave.end - width);
  view.to = view.from + width;
  say();
}
const zoom = (factor, around) => show(around - (around - view.from) * factor, around + (view.to - around) * factor);
const move = (share) => show(view.from + (view.to - view.from) * share, view.to + (view.to - view.from) * share);
const showWhole = () => show(wave.begin, wave.end);
const isInView = (tick) => tick !== null && tick > view.from && tick < view.to;
const middle = () => (isInView(view.cursor) ? view.cursor : (view.from + view.to) / 2);

// Sets the cursor, and shows it with what is around it: no more than `most` bits, and no fewer than `least`.
function jump(tick, least = 0, most = 40) {
  const width = Math.max(least * bitLength(), Math.min(view.to - view.from, most * bitLength()));
  view.cursor = tick;
  show(tick - width / 2, tick + width / 2);
}

// Sets the cursor, and moves only if it isn't in view.
function setCursor(tick) {
  view.cursor = Math.min(wave.end, Math.max(wave.begin, tick));
  if (isInView(view.cursor)) say(); else show(view.cursor - (view.to - view.from) / 2, view.cursor + (view.to - view.from) / 2);
}

// The place of the next or the previous of some times, from the cursor on; without a cursor from the start or the end.
function besideCursor(times, by) {
  if (by > 0) return countUpTo(times, view.cursor ?? -1);
  return countUpTo(times, view.cursor === null ? wave.end : view.cursor - 1e-6) - 1;
}
function goToError(by) {
  const tick = errorTicks[besideCursor(errorTicks, by)];
  if (tick !== undefined) jump(tick, 20, 32);
  else status.textContent = errors.length === 0 ? "there are no errors" : `there is no ${by > 0 ? "later" : "earlier"} error`;
}
function goToEvent(by) {
  const tick = eventTicks[besideCursor(eventTicks, by)];
  if (tick !== undefined) jump(tick);
  else status.textContent = `there is no ${by > 0 ? "later" : "earlier"} event`;
}
function goTo(times, by) {
  const tick = times[besideCursor(times, by)];
  if (tick !== undefined) setCursor(tick);
}

// Picks the node whose edges and bits the keys go by, and brings its row into the window.
function pickNode(by) {
  view.node = Math.min(nodes.length - 1, Math.max(0, view.node + by));
  const { top } = plot.getBoundingClientRect(), row = top + ROW * view.node, above = document.querySelector(".bar").offsetHeight;
  if (row < above) scrollBy(0, row - above);
  if (row + ROW > innerHeight) scrollBy(0, row + ROW - innerHeight);
  say();
}

// Sets the mark where the cursor is, or the middle of what is shown.
function setMark() {
  view.mark = middle();
  say();
}
function showMarked() {
  if (view.mark === null || view.cursor === null || view.mark === view.cursor) return;
  const [from, to] = [view.mark, view.cursor].sort((a, b) => a - b), room = (to - from) / 20;
  show(from - room, to + room);
}
function clearCursors() {
  view.cursor = view.mark = null;
  say();
}

// ---- Unit and colours

function turnUnit() {
  view.inTicks = !view.inTicks;
  document.getElementById("unit").setAttribute("aria-pressed", String(view.inTicks));
  sayTimes(document);
  say();
}

// Writes the times within a part of the page in the unit that is shown.
function sayTimes(part) {
  for (const one of part.querySelectorAll("[data-tick]")) one.textContent = timeOf(Number(one.dataset.tick));
  for (const one of part.querySelectorAll(".unit")) one.textContent = view.inTicks ? "ticks" : "us";
}

const systemDark = matchMedia("(prefers-color-scheme: dark)");
const isDark = () => (document.documentElement.style.colorScheme || (systemDark.matches ? "dark" : "light")) === "dark";
function sayScheme() {
  document.getElementById("scheme").textContent = isDark() ? "light" : "dark";
  redraw();
}
function turnScheme() {
  document.documentElement.style.colorScheme = isDark() ? "light" : "dark";
  sayScheme();
}

// ---- Keys

const help = document.getElementById("keys");
const pixel = () => Math.max(1, (view.to - view.from) / places());
const cursorOrMiddle = () => view.cursor ?? (view.from + view.to) / 2;
const edges = () => nodes[view.node].finds.times;

// Each key: what it does, and what it is said to do. A key without words is another one's twin.
const KEYS = new Map([
  ["e", [() => goToError(1), "next error; the first one, if there is no cursor"]],
  ["E", [() => goToError(-1), "previous error"]],
  ["n", [() => goToEvent(1), "next event"]],
  ["p", [() => goToEvent(-1), "previous event"]],
  ["ArrowLeft", [() => move(-0.2), "earlier"]],
  ["ArrowRight", [() => move(0.2), "later"]],
  ["PageUp", [() => move(-1), "earlier by all that is shown"]],
  ["PageDown", [() => move(1), "later by all that is shown"]],
  ["Home", [() => show(wave.begin, wave.begin + view.to - view.from), "to the start"]],
  ["End", [() => show(wave.end - (view.to - view.from), wave.end), "to the end"]],
  ["+", [() => zoom(0.5, middle()), "closer"]],
  ["=", [() => zoom(0.5, middle())]],
  ["-", [() => zoom(2, middle()), "farther"]],
  ["0", [showWhole, "the whole run"]],
  ["Shift+ArrowLeft", [() => setCursor(cursorOrMiddle() - pixel()), "cursor to the left"]],
  ["Shift+ArrowRight", [() => setCursor(cursorOrMiddle() + pixel()), "cursor to the right"]],
  ["ArrowUp", [() => pickNode(-1), "the node above, for the next four keys and for bits"]],
  ["ArrowDown", [() => pickNode(1), "the node below"]],
  [",", [() => goTo(edges(), -1), "cursor to the previous edge that the node finds"]],
  [".", [() => goTo(edges(), 1), "cursor to the next edge that it finds"]],
  ["[", [() => goTo(nodes[view.node].starts, -1), "cursor to the previous start of a bit"]],
  ["]", [() => goTo(nodes[view.node].starts, 1), "cursor to the next start of a bit"]],
  ["m", [setMark, "mark where the cursor is; then the distance to the mark is said"]],
  ["z", [showMarked, "show from the mark to the cursor"]],
  ["Escape", [clearCursors, "without cursor and mark"]],
  ["t", [turnUnit, "microseconds or ticks"]],
  ["d", [turnScheme, "dark or light"]],
  ["?", [() => help.showModal(), "these keys"]],
]);
const NAMES = { ArrowLeft: "←", ArrowRight: "→", ArrowUp: "↑", ArrowDown: "↓" };

// Keys act if the waveform has the focus, or nothing has it.
function act(pressed) {
  const isOurs = document.activeElement === document.body || document.getElementById("waves").contains(document.activeElement);
  if (!isOurs || help.open || pressed.ctrlKey || pressed.metaKey || pressed.altKey) return;
  const isArrow = pressed.shiftKey && pressed.key.startsWith("Arrow"), found = KEYS.get(isArrow ? `Shift+${pressed.key}` : pressed.key);
  if (!found) return;
  found[0]();
  pressed.preventDefault();
}

function fillHelp() {
  const keys = (name) => name.split("+").filter(Boolean).map((part) => create("kbd", {}, NAMES[part] ?? part));
  const rows = [...KEYS].filter(([, [, said]]) => said).map(([name, [, said]]) =>
    create("tr", {}, create("th", { scope: "row" }, ...(name === "+" ? [create("kbd", {}, "+")] : keys(name))), create("td", {}, said)));
  help.querySelector("tbody").append(...rows);
  document.getElementById("close").addEventListener("click", () => help.close());
  help.addEventListener("close", () => plot.focus());
}

// ---- Mouse and wheel

const xOf = (hand) => hand.clientX - plot.getBoundingClientRect().left;
const rowOf = (hand) => Math.floor((hand.clientY - plot.getBoundingClientRect().top) / ROW);

// The time below the pointer: that of an edge, a sample or a bit's start of its row if there is one within four pixels.
function timeBelow(hand) {
  const tick = tickAt(xOf(hand)), reach = 4 * pixel(), node = nodes[rowOf(hand)];
  if (!node) return tick;
  const near = [node.drives.times, node.finds.times, node.starts, node.read.samples, node.ticks].flatMap((times) => {
    const at = countUpTo(times, tick);
    return [times[at - 1], times[at]].filter((time) => Math.abs(time - tick) <= reach);
  });
  return near.reduce((best, time) => (Math.abs(time - tick) < Math.abs(best - tick) ? time : best), near[0] ?? Math.round(tick));
}

// What is below the pointer, in words.
function belowPointer(hand) {
  const tick = tickAt(xOf(hand)), node = nodes[rowOf(hand)], near = 5 * pixel();
  if (!node || tick < view.from || tick > view.to) return "";
  const { fields, ends, starts, samples, levels, stuff } = node.read, field = fields[countUpTo(ends, tick)];
  const start = placeAt(starts, tick), sample = countUpTo(samples, starts[start] - 1), isWithin = samples[sample] <= (starts[start + 1] ?? wave.end);
  const struck = strikersOf(node.number, tick - near, tick + near).map(({ number, where, from, length }) =>
    `disturbance ${number} at ${where}, from ${timed(from)} for ${microseconds(length)}`);
  const found = node.marks.slice(countUpTo(node.ticks, tick - near), countUpTo(node.ticks, tick + near)).map((event) => event.what);
  const parts = [field && field.from <= tick && wordsOf(field)[0], isWithin && `bit ${Number.isNaN(node.firstBit) ? "" : `${sample + node.firstBit} `}is ${levels[sample]}${stuff[sample] ? ", a stuff bit" : ""}`];
  return [`${timed(tick)}, ${node.name}`, ...parts, ...struck, ...found].filter(Boolean).join("; ");
}

// The pointer drags what is shown, or sets the cursor or the mark if it doesn't move.
let held = null;
function press(pressed) {
  if (pressed.button !== 0) return;
  held = { x: pressed.clientX, from: view.from, to: view.to, isMoved: false };
  plot.setPointerCapture(pressed.pointerId);
}
function drag(moved) {
  if (held && Math.abs(moved.clientX - held.x) > 3) held.isMoved = true;
  if (held?.isMoved) {
    const by = ((moved.clientX - held.x) / places()) * (held.to - held.from);
    show(held.from - by, held.to - by);
  } else under.textContent = belowPointer(moved);
}
function release(released) {
  if (held && !held.isMoved && xOf(released) >= LEFT) {
    const number = rowOf(released);
    if (nodes[number]) view.node = number;
    view[released.shiftKey ? "mark" : "cursor"] = timeBelow(released);
    say();
  } else if (held && !held.isMoved && nodes[rowOf(released)]) pickNode(rowOf(released) - view.node);
  held = null;
}
function turn(turned) {
  turned.preventDefault();
  const around = Math.min(view.to, Math.max(view.from, tickAt(xOf(turned))));
  if (Math.abs(turned.deltaX) > Math.abs(turned.deltaY) || turned.shiftKey) move((turned.deltaX || turned.deltaY) / 1000);
  else zoom(turned.deltaY > 0 ? 1.25 : 0.8, around);
}

// What a part of the run has that isn't shown, and the words for its page.
function sayOther({ from, to, end, parts }, tick) {
  const at = Math.min(parts.length - 1, Math.floor((tick * parts.length) / end)), { frames, errors: found } = parts[at], half = (to - from) / 2;
  const begin = Math.max(0, Math.floor(tick - half));
  return `near ${timed(tick)}: ${frames} frames, ${found} errors in a thousandth of the run; its page: ${partWords(begin, Math.ceil(tick + half))}`;
}

// The strip of the whole run: what is shown goes to the pointer.
function pickPart(pressed) {
  if (pressed.type === "pointermove" && pressed.buttons === 0) return;
  const share = Math.min(1, Math.max(0, (xOf(pressed) - LEFT) / places())), tick = strip.begin + share * (strip.end - strip.begin);
  if (pressed.type === "pointerdown") axis.setPointerCapture(pressed.pointerId);
  if (tick < wave.begin || tick > wave.end) { under.textContent = sayOther(run.part, tick); return; }
  show(tick - (view.to - view.from) / 2, tick + (view.to - view.from) / 2);
}

function listen() {
  plot.addEventListener("pointerdown", press);
  plot.addEventListener("pointermove", drag);
  plot.addEventListener("pointerup", release);
  plot.addEventListener("pointercancel", () => { held = null; });
  plot.addEventListener("dblclick", (pressed) => zoom(0.25, tickAt(xOf(pressed))));
  for (const canvas of [plot, axis]) canvas.addEventListener("wheel", turn, { passive: false });
  for (const kind of ["pointerdown", "pointermove"]) axis.addEventListener(kind, pickPart);
  document.addEventListener("keydown", act);
  for (const button of document.querySelectorAll("button[data-key]")) button.addEventListener("click", () => KEYS.get(button.dataset.key)[0]());
  addEventListener("resize", redraw);
  addEventListener("scroll", redraw, { passive: true });
  addEventListener("hashchange", showNamed);
  addEventListener("beforeprint", () => draw([0, nodes.length]));
  systemDark.addEventListener("change", sayScheme);
}

// The page's address may name what is shown, in ticks, as #1000-2000.
function showNamed() {
  const range = location.hash.match(/^#(\d+)-(\d+)$/);
  if (range) show(Number(range[1]), Number(range[2])); else say();
}
"##;
