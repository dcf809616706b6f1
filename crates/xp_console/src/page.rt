//! The page of the console.

ghost use Rattle.std.specs.Prelude.{◌≡◌};
ghost use Rattle.xp_console.specs.Page.{page_text};

/// The page: it asks for `/status.json` each second, and shows what that says. It loads nothing else.
#[tactic(auto, unfolding(crate::specs::Page::page_text))]
pub(crate) fn page() -> &'static [u8]
    ensures { result.now ≡ page_text }
{
    PAGE.as_bytes()
}

const PAGE: &str = r#"<!doctype html>
<html lang="en">
<head>
<meta charset="utf-8">
<meta name="viewport" content="width=device-width, initial-scale=1">
<title>Gonukire</title>
<style>
:root {
  color-scheme: light dark;
  --figures: ui-monospace, "DejaVu Sans Mono", Menlo, Consolas, monospace;
  --paper: #fbfbf9; --ink: #1c1f22; --soft: #5c646c; --rule: #d9dcdf; --band: #f1f2f0;
  --ready: #2c7a3f; --waiting: #966200; --data: #1f5fae; --clearing: #b3261e; --off: #6d747b;
}
@media (prefers-color-scheme: dark) {
  :root {
    --paper: #15181b; --ink: #e4e6e8; --soft: #9aa3ab; --rule: #31373d; --band: #1d2125;
    --ready: #6cc483; --waiting: #e0ab4a; --data: #7fb3f2; --clearing: #f28b82; --off: #8d959d;
  }
}
* { box-sizing: border-box; }
body { margin: 0 auto; max-width: 110rem; padding: 1rem 1.25rem 2rem; background: var(--paper); color: var(--ink);
  font: 14px/1.45 system-ui, sans-serif; }
header { display: flex; flex-wrap: wrap; align-items: baseline; gap: .25rem 1.25rem; }
h1 { margin: 0; font-size: 1.15rem; letter-spacing: .01em; }
header p { margin: 0; color: var(--soft); }
#trouble { color: var(--clearing); font-weight: 600; }
dl { display: grid; grid-template-columns: repeat(auto-fill, minmax(9.2rem, 1fr)); gap: .4rem 1.25rem; margin: .6rem 0 1rem;
  padding: .45rem 0; border: solid var(--rule); border-width: 1px 0; }
dl div { display: flex; flex-direction: column-reverse; justify-content: flex-end; }
dt { color: var(--soft); font-size: .8rem; line-height: 1.2; }
dd { margin: 0; font: 1.05rem/1.3 var(--figures); }
main, .stack { display: grid; gap: 1.25rem 2rem; min-width: 0; }
section { min-width: 0; }
.table { overflow: auto; max-height: 45vh; }
@media (min-width: 150rem) {
  body { max-width: 150rem; }
  main { grid-template-columns: minmax(0, 3fr) minmax(0, 4fr); align-items: start; }
  .table { max-height: 85vh; }
  #live { max-height: 45vh; }
}
table { border-collapse: collapse; width: 100%; white-space: nowrap; }
caption { padding: 0 0 .2rem; text-align: left; font-weight: 600; }
caption span { color: var(--soft); font-weight: 400; }
th { position: sticky; top: 0; max-width: 6rem; padding: .2rem .7rem .25rem 0; background: var(--paper); box-shadow: inset 0 -1px var(--ink);
  color: var(--soft); font-size: .8rem; font-weight: 400; line-height: 1.2; text-align: left; vertical-align: bottom; white-space: normal; }
td { padding: .14rem .7rem .14rem 0; border-bottom: 1px solid var(--rule); vertical-align: baseline; }
tbody tr:nth-child(even) { background: var(--band); }
th:first-child, td:first-child { padding-left: .35rem; }
td.number, td.code { font: .93em/1.45 var(--figures); }
.number { text-align: right; }
td.wide { white-space: normal; }
td.address { min-width: 25ch; }
td.moment { min-width: 12ch; }
@media (min-width: 75rem) { td.moment { white-space: nowrap; } }
td.state::before { content: ""; display: inline-block; width: .62em; height: .62em; margin-right: .5em; border-radius: 50%;
  border: 1.5px solid currentColor; background: currentColor; }
td.off::before { background: none; }
td.trouble { color: var(--clearing); }
.off { color: var(--off); } .ready { color: var(--ready); } .waiting { color: var(--waiting); } .data { color: var(--data); }
.clearing { color: var(--clearing); }
.find { display: flex; flex-wrap: wrap; gap: .25rem .75rem; align-items: baseline; margin-bottom: .8rem; color: var(--soft); }
.find input { width: 14rem; max-width: 100%; padding: .15rem .4rem; border: 1px solid var(--rule); border-radius: 3px;
  background: var(--paper); color: var(--ink); font: inherit; }
.stale main, .stale dl { opacity: .45; }
@media (max-width: 74.99rem) {
  th, td { padding-right: .45rem; }
  td.number, td.code { font-size: .87em; }
}
@media (max-width: 47.99rem) {
  .table { max-height: 75vh; }
  table, caption, tbody { display: block; }
  thead { display: none; }
  tbody tr { display: flex; flex-wrap: wrap; gap: 0 1rem; padding: .25rem .35rem; border-bottom: 1px solid var(--rule); }
  td, td:first-child, td.address, td.moment { min-width: 0; padding: 0; border: 0; white-space: normal; overflow-wrap: anywhere; }
  td:not(.state)::before { content: attr(data-heading); margin-right: .4em; color: var(--soft); font: 12px/1.2 system-ui, sans-serif; }
}
:focus-visible { outline: 2px solid var(--data); outline-offset: 2px; }
</style>
</head>
<body>
<header>
<h1>Gonukire</h1>
<p id="moment">waiting for the exchange</p>
<p id="trouble" role="status"></p>
</header>
<dl id="counts"></dl>
<div class="find"><label for="wanted">Show lines and calls with</label><input id="wanted" type="search" autocomplete="off" spellcheck="false" placeholder="a name, an address, a state"></div>
<main>
<section>
<div class="table" tabindex="0" role="region" aria-label="Lines"><table id="lines"></table></div>
</section>
<div class="stack">
<section><div id="live" class="table" tabindex="0" role="region" aria-label="Live calls"><table id="calls"></table></div></section>
<section><div class="table" tabindex="0" role="region" aria-label="Ended calls"><table id="recent"></table></div></section>
</div>
</main>
<noscript>This page needs JavaScript. The same is at /status.txt as text.</noscript>
<script>
"use strict";
const kinds = { "out of service": "off", "ready": "ready", "DTE waiting": "waiting", "DCE waiting": "waiting",
  "data transfer": "data", "DCE clear indication": "clearing" };
const element = (name, text, kind) => {
  const made = document.createElement(name);
  if (text !== undefined) made.textContent = text;
  if (kind) made.className = kind;
  return made;
};
const two = (count) => String(count).padStart(2, "0");
const age = (seconds) => {
  const whole = Math.max(0, seconds), days = Math.floor(whole / 86400);
  const clock = Math.floor(whole % 86400 / 3600) + ":" + two(Math.floor(whole % 3600 / 60)) + ":" + two(whole % 60);
  return days ? days + " d " + clock : clock;
};
const moment = (seconds) => new Date(seconds * 1000).toISOString().slice(0, 19).replace("T", " ");
const sameDay = (one, other) => Math.floor(one / 86400) === Math.floor(other / 86400);
const count = (number) => number.toLocaleString("en").replaceAll(",", "\u202f");
const hex = (octet) => octet.toString(16).padStart(2, "0");
const party = (one) => one ? one.line + " " + one.address : "\u2013";
const address = (line) => line.address + (line.station === line.address ? "" : ", station " + line.station);
const unreachable = (line) => {
  const since = line.router_unreachable_since;
  return since === null ? "" : "router unreachable since " + (sameDay(since, now) ? moment(since).slice(11) : moment(since));
};
const peer = (line) => [line.peer, unreachable(line)].filter(Boolean).join(", ") || "\u2013";
const cause = (call) => hex(call.cleared.cause) + " " + call.cleared.words;

// A table of these columns: each a heading, a class, and what a row shows there, which may be a text and a class.
function table(id, title, columns) {
  const made = document.getElementById(id), note = element("span"), caption = element("caption", title + " ");
  caption.append(note);
  const head = element("tr");
  for (const [heading, kind] of columns) {
    const cell = element("th", heading, kind);
    cell.scope = "col";
    head.append(cell);
  }
  const top = element("thead"), body = element("tbody");
  made.setAttribute("role", "table");
  body.setAttribute("role", "rowgroup");
  top.append(head);
  made.append(caption, top, body);
  return (items, told) => {
    note.textContent = told;
    while (body.rows.length > items.length) body.deleteRow(-1);
    items.forEach((item, place) => {
      const row = body.rows[place] || body.insertRow();
      row.setAttribute("role", "row");
      columns.forEach(([heading, kind, shown], column) => {
        const cell = row.cells[column] || row.insertCell(), [text, more] = [].concat(shown(item));
        const wanted = [kind, more].filter(Boolean).join(" ");
        cell.setAttribute("role", "cell");
        cell.dataset.heading = heading;
        if (cell.textContent !== text) cell.textContent = text;
        if (cell.className !== wanted) cell.className = wanted;
      });
    });
  };
}
let now = 0;
const showLines = table("lines", "Lines", [
  ["line", "", (line) => line.name],
  ["address", "code wide address", address],
  ["state", "state", (line) => [line.state, kinds[line.state] || ""]],
  ["for", "number", (line) => age(now - line.since)],
  ["call", "number", (line) => line.call === null ? "\u2013" : String(line.call)],
  ["peer", "code wide", (line) => [peer(line), line.router_unreachable_since === null ? "" : "trouble"]],
]);
const showCalls = table("calls", "Live calls", [
  ["call", "number", (call) => String(call.number)],
  ["caller", "code wide", (call) => party(call.caller)],
  ["called", "code wide", (call) => party(call.called)],
  ["connected for", "number", (call) => call.connected === null ? ["ringing", "waiting"] : age(call.seconds)],
  ["segments from caller", "number", (call) => count(call.segments.from_caller)],
  ["segments from called", "number", (call) => count(call.segments.from_called)],
]);
const showRecent = table("recent", "Ended calls", [
  ["call", "number", (call) => String(call.number)],
  ["ended (UTC)", "code wide moment", (call) => moment(call.ended)],
  ["caller", "code wide", (call) => party(call.caller)],
  ["called", "code wide", (call) => party(call.called)],
  ["dialled", "code", (call) => call.dialled],
  ["connected for", "number", (call) => age(call.seconds)],
  ["segments from caller", "number", (call) => count(call.segments.from_caller)],
  ["segments from called", "number", (call) => count(call.segments.from_called)],
  ["payer", "", (call) => call.payer],
  ["cause", "wide", cause],
  ["diagnostic", "number", (call) => String(call.cleared.diagnostic)],
]);
function showCounts(status) {
  const totals = status.totals, up = status.lines.filter((line) => line.state !== "out of service").length;
  const refused = totals.refused.reduce((sum, one) => sum + one.count, 0);
  const facts = [["lines in service", up + " of " + status.lines.length], ["live calls", count(status.calls.length)],
    ["calls", count(totals.calls)], ["refused calls", count(refused)],
    ["segments of ended calls, from callers", count(totals.segments_from_callers)],
    ["segments of ended calls, from called", count(totals.segments_from_called)],
    ["failed connections to routers", count(totals.router_failures)], ["events", count(totals.events)], ["stalls", count(totals.stalls)], ["records waiting", count(totals.records_waiting)],
    ["partial records of the run before", count(totals.partial_records)],
    ["reloads", count(status.reloads.done)], ["refused reloads", count(status.reloads.refused)],
    ["octets received", count(totals.octets_received)], ["octets sent", count(totals.octets_sent)]];
  const list = document.getElementById("counts");
  facts.forEach(([name, value], place) => {
    const fact = list.children[place] || list.appendChild(element("div"));
    if (!fact.firstChild) fact.append(element("dt", name), element("dd"));
    fact.lastChild.textContent = value;
  });
}
let latest = null;
const wanted = document.getElementById("wanted");
// What is looked for in a line and in a call.
const textOfLine = (line) => [line.name, address(line), line.state, peer(line)].join(" ");
const textOfCall = (call) => [party(call.caller), party(call.called), call.dialled || "", call.cleared ? cause(call) : ""].join(" ");
const told = (some, all, word) => word ? some.length + " of " + all.length : String(all.length);
// Where nothing is looked for, the lines in service alone are shown, if these are many.
const many = 512;
const isShown = (line) => latest.lines.length <= many || line.state !== "out of service";
function show() {
  if (!latest) return;
  now = latest.moment;
  const word = wanted.value.trim().toLowerCase();
  const found = (items, text) => items.filter((item) => text(item).toLowerCase().includes(word));
  const lines = word ? found(latest.lines, textOfLine) : latest.lines.filter(isShown), calls = found(latest.calls, textOfCall), recent = found(latest.recent, textOfCall);
  showCounts(latest);
  showLines(lines, told(lines, latest.lines, word || lines.length < latest.lines.length));
  showCalls(calls, told(calls, latest.calls, word));
  showRecent(recent.reverse(), (word ? recent.length + " of " : "") + "the last " + latest.recent.length + ", the latest first");
  const last = latest.reloads.last, reloaded = last === null ? "" : ", subscriptions of " + (sameDay(last, now) ? moment(last).slice(11) : moment(last));
  document.getElementById("moment").textContent = moment(now) + " UTC, serving for " + age(now - latest.started) + reloaded;
}
async function refresh() {
  try {
    const answer = await fetch("/status.json", { cache: "no-store", signal: AbortSignal.timeout(5000) });
    if (!answer.ok) throw new Error(String(answer.status));
    latest = await answer.json();
    show();
    document.body.className = "";
    document.getElementById("trouble").textContent = "";
  } catch {
    document.body.className = "stale";
    document.getElementById("trouble").textContent = "exchange not reachable";
  }
  setTimeout(refresh, 1000);
}
wanted.addEventListener("input", show);
refresh();
</script>
</body>
</html>
"#;
