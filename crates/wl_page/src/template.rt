//! The page around its texts: its layout and its style. The script that draws comes last, in parts by subject.

/// Up to the figures.
pub(crate) const HEAD: &str = r##"<!doctype html>
<html lang="en">
<head>
<meta charset="utf-8">
<meta name="viewport" content="width=device-width, initial-scale=1">
<title>Wireline: a run</title>
<style>
:root {
  color-scheme: light dark;
  --back: light-dark(#fff, #14181d);
  --text: light-dark(#1c2430, #dfe5ec);
  --faint: light-dark(#c9d0d8, #3a434d);
  --edge: light-dark(#6b7785, #8b97a5);
  --drive: light-dark(#7a4bb5, #c3a0ee);
  --found: light-dark(#0b6fa4, #6db9e6);
  --sample: light-dark(#2e7d32, #7fc783);
  --sync: light-dark(#8f5500, #e8a94a);
  --field: light-dark(#dbe7f3, #23384c);
  --stuff: light-dark(#f6deb0, #5a4416);
  --error: light-dark(#b3261e, #ff8a80);
  --good: light-dark(#2e7d32, #7fc783);
  --cursor: light-dark(#8f5500, #e8a94a);
  --mark: light-dark(#00695c, #4dd0c0);
  --disturb: light-dark(#b0136b, #ff7ac0);
}
body { margin: 0; padding: 0 16px 32px; background: var(--back); color: var(--text); font: 14px/1.45 system-ui, sans-serif; }
h1 { font-size: 20px; margin: 12px 0 4px; }
h2 { font-size: 16px; margin: 20px 0 6px; }
p { margin: 4px 0; max-width: 110ch; }
canvas { display: block; width: 100%; touch-action: none; }
#plot { border: 1px solid var(--faint); cursor: crosshair; }
#axis { border: 1px solid transparent; cursor: pointer; }
:focus-visible { outline: 2px solid var(--found); outline-offset: 1px; }
#plot:focus-visible { outline-offset: -2px; }
button { font: inherit; color: var(--text); background: var(--back); border: 1px solid var(--edge); border-radius: 4px; padding: 1px 8px; cursor: pointer; }
button:hover { border-color: var(--found); }
table button { border: 0; padding: 0; color: var(--found); background: none; text-decoration: underline; }
button.bad, .bad { color: var(--error); }
table { border-collapse: collapse; font-variant-numeric: tabular-nums; }
th, td { text-align: left; padding: 2px 12px 2px 0; border-bottom: 1px solid var(--faint); vertical-align: top; }
kbd { font: inherit; border: 1px solid var(--edge); border-radius: 3px; padding: 0 5px; }
dialog { color: var(--text); background: var(--back); border: 1px solid var(--edge); border-radius: 6px; }
dialog::backdrop { background: rgb(0 0 0 / 40%); }
.bar { position: sticky; top: 0; z-index: 1; background: var(--back); }
.keys { display: flex; flex-wrap: wrap; gap: 5px; align-items: center; margin: 4px 0; }
.said { display: flex; gap: 0 32px; height: 1.45em; overflow: hidden; }
.said p, #reading { max-width: none; margin: 0; font-variant-numeric: tabular-nums; white-space: nowrap; overflow: hidden; text-overflow: ellipsis; }
#reading { white-space: normal; height: 2.9em; }
.parts { display: grid; grid-template-columns: repeat(auto-fit, minmax(min(100%, 600px), 1fr)); gap: 0 32px; }
.scroll { max-height: 320px; overflow: auto; margin: 6px 0; }
pre { margin: 0; padding: 8px; border: 1px solid var(--faint); overflow: auto; max-height: 480px; font: 12px/1.4 ui-monospace, monospace; }
svg { width: 100%; height: auto; max-width: 900px; }
svg text { fill: var(--text); font: 12px system-ui, sans-serif; } svg .small { font-size: 11px; }
svg .wire { stroke: var(--text); stroke-width: 1.5; } svg .node { fill: var(--found); }
svg .struck { fill: url(#hatch); stroke: var(--disturb); } svg .hatch { stroke: var(--disturb); stroke-width: 1.5; }
@media print {
  :root { color-scheme: light; }
  .bar { position: static; } .keys, .scroll button, #more { border: 0; } .keys { display: none; }
  .scroll, pre { max-height: none; overflow: visible; }
}
</style>
</head>
<body>
<header>
<h1>A run of a CAN bus, by Wireline</h1>
<p><strong id="verdict"></strong>: <span id="counted"></span>. <button type="button" id="first" class="bad" hidden></button></p>
<p id="shown" hidden></p>
</header>
<main>
<section id="waves" aria-labelledby="waveform">
<h2 id="waveform">Waveform</h2>
<div class="bar">
<div class="keys" role="toolbar" aria-label="Waveform">
<button type="button" data-key="E" aria-keyshortcuts="Shift+E" title="E">previous error</button>
<button type="button" data-key="e" aria-keyshortcuts="E" title="e">next error</button>
<button type="button" data-key="p" aria-keyshortcuts="P" title="p">previous event</button>
<button type="button" data-key="n" aria-keyshortcuts="N" title="n">next event</button>
<button type="button" data-key="ArrowLeft" aria-keyshortcuts="ArrowLeft" title="left arrow">earlier</button>
<button type="button" data-key="ArrowRight" aria-keyshortcuts="ArrowRight" title="right arrow">later</button>
<button type="button" data-key="+" aria-keyshortcuts="+" title="+">closer</button>
<button type="button" data-key="-" aria-keyshortcuts="-" title="-">farther</button>
<button type="button" data-key="0" aria-keyshortcuts="0" title="0">whole</button>
<button type="button" data-key="m" aria-keyshortcuts="M" title="m">mark here</button>
<button type="button" data-key="z" aria-keyshortcuts="Z" title="z">mark to cursor</button>
<button type="button" data-key="t" aria-keyshortcuts="T" title="t" id="unit" aria-pressed="false">ticks</button>
<button type="button" data-key="d" aria-keyshortcuts="D" title="d" id="scheme">dark</button>
<button type="button" data-key="?" aria-keyshortcuts="?" title="?" aria-haspopup="dialog">keys</button>
</div>
<div class="said"><p id="status" role="status"></p><p id="under"></p></div>
<p id="reading" role="status"></p>
<canvas id="axis" aria-hidden="true"></canvas>
</div>
<canvas id="plot" tabindex="0" role="application" aria-roledescription="waveform" aria-labelledby="waveform" aria-describedby="help"></canvas>
<p id="help">Of each node: its counters and mode, the fields of its frames, the bits that it samples (stuff bits filled), what it drives and what it finds, high for recessive; hatched where a disturbance strikes it; below, its synchronisations and samples, and its errors, flags and frames. A click sets the cursor, a click with shift the mark. A drag moves, the wheel zooms. The strip above has the whole run: load, errors, and the part that is shown. Press <kbd>?</kbd> for the keys.</p>
</section>
<h2>Events</h2>
<p><label><input type="checkbox" id="only"> errors and flags only</label></p>
<div class="scroll" tabindex="0" role="region" aria-label="Events"><table id="events"><thead><tr><th scope="col" class="unit"></th><th scope="col">node</th><th scope="col">bit</th><th scope="col">what</th></tr></thead><tbody></tbody></table><button type="button" id="more" hidden></button></div>
<div class="parts">
<section aria-labelledby="ends"><h2 id="ends">Nodes at the end</h2><div id="nodes"></div></section>
<section aria-labelledby="places"><h2 id="places">Cable</h2><svg id="cable" role="img" aria-label="The nodes along the cable, at their places"></svg><p id="lengths"></p></section>
<section id="disturbances" aria-labelledby="struck" hidden><h2 id="struck">Disturbances</h2></section>
<section id="margin-table" aria-labelledby="margins"><h2 id="margins">Margin</h2></section>
</div>
<section id="traffic-table" aria-labelledby="messages"><h2 id="messages">Traffic</h2></section>
<div class="parts">
<section aria-labelledby="doubts"><h2 id="doubts">Figures and doubts (ticks of 1 ns)</h2>
<pre id="figures" tabindex="0" role="group" aria-labelledby="doubts">"##;

/// From the figures to the settings.
pub(crate) const TO_SETTINGS: &str = r##"</pre></section>
<section aria-labelledby="set"><h2 id="set">Settings</h2>
<pre id="settings" tabindex="0" role="group" aria-labelledby="set">"##;

/// From the settings to the margin.
pub(crate) const TO_MARGIN: &str = r##"</pre></section>
<pre id="margin" hidden>"##;

/// From the margin to the traffic.
pub(crate) const TO_TRAFFIC: &str = r##"</pre>
<pre id="traffic" hidden>"##;

/// From the traffic to the report.
pub(crate) const TO_REPORT: &str = r##"</pre>
<section aria-labelledby="reported"><h2 id="reported">Report</h2>
<pre id="report" tabindex="0" role="group" aria-labelledby="reported">"##;

/// From the report to the plan.
pub(crate) const TO_PLAN: &str = r##"</pre></section>
<section aria-labelledby="planned"><h2 id="planned">Plan</h2>
<pre id="plan" tabindex="0" role="group" aria-labelledby="planned">"##;

/// From the plan to the part that is shown.
pub(crate) const TO_PART: &str = r##"</pre></section>
</div>
<pre id="part" hidden>"##;

/// From the part to the trace.
pub(crate) const TO_TRACE: &str = r##"</pre>
<pre id="trace" hidden>"##;

/// From the trace to the waveform.
pub(crate) const TO_WAVE: &str = r##"</pre>
<pre id="wave" hidden>"##;

/// From the waveform to the script.
pub(crate) const TO_SCRIPT: &str = r##"</pre>
</main>
<dialog id="keys" aria-labelledby="key-names"><h2 id="key-names">Keys of the waveform</h2><table><tbody></tbody></table><p><button type="button" id="close">close</button></p></dialog>
"##;
