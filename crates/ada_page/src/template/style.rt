//! How a page looks. Written by tools/write_page.

pub static STYLE: &str = "\
:root {
  color-scheme: light dark;
  --page: light-dark(#ffffff, #0d1117);
  --raised: light-dark(#f3f5f8, #161c25);
  --line: light-dark(#c6ccd4, #3a434f);
  --text: light-dark(#1a1f26, #e9eef4);
  --faint: light-dark(#56606c, #a3adb9);
  --accent: light-dark(#0a58ca, #7db4ff);
  --here: light-dark(#fff2bf, #4a3d08);
  --bad: light-dark(#b00020, #ff9b95);
  --not-started: light-dark(#d0d7de, #484f58);
  --activating: light-dark(#a5d6ff, #1f5fae);
  --running: light-dark(#6fd58d, #1f7a33);
  --starting: light-dark(#b6e3ff, #0c4a8a);
  --calling: light-dark(#ffbd85, #a34d17);
  --in-rendezvous: light-dark(#dcb4ff, #6f45bf);
  --waiting: light-dark(#fae17d, #7d5e00);
  --delayed: light-dark(#fff1b8, #5c4d10);
  --leaving: light-dark(#f0d9b5, #6a4a25);
  --abnormal: light-dark(#ff9a9b, #b42f2b);
  --completed: light-dark(#b3bac2, #59616a);
  --terminated: light-dark(#e9ecef, #242a31);
}
:root[data-theme=\"light\"] { color-scheme: light; }
:root[data-theme=\"dark\"] { color-scheme: dark; }
* { box-sizing: border-box; }
[hidden] { display: none !important; }
html { font: 16px/1.4 system-ui, sans-serif; }
body { margin: 0; background: var(--page); color: var(--text); }
code, pre, .mono, textarea {
  font-family: ui-monospace, \"DejaVu Sans Mono\", Menlo, Consolas, monospace; font-size: .875re\
m;
}
button {
  font: inherit; color: inherit; background: var(--raised); border: 1px solid var(--line); borde\
r-radius: 6px;
  padding: .3rem .7rem; min-height: 2.25rem; min-width: 2.25rem; cursor: pointer;
}
button:hover:not(:disabled) { border-color: var(--accent); }
button:disabled { opacity: .45; cursor: default; }
:focus-visible { outline: 3px solid var(--accent); outline-offset: 1px; }
h1 { font-size: 1.05rem; margin: 0; font-weight: 650; overflow-wrap: anywhere; }
select { font: inherit; color: inherit; background: var(--raised); border: 1px solid var(--line)\
; border-radius: 6px; }
select { min-height: 2.25rem; padding: 0 .4rem; }
h2 { font-size: .95rem; margin: 0; font-weight: 650; }
ol, ul { list-style: none; margin: 0; padding: 0; }
.skip { position: absolute; left: -99rem; }
.skip:focus { left: .5rem; top: .5rem; z-index: 9; background: var(--page); padding: .5rem; }
.unseen { position: absolute; width: 1px; height: 1px; overflow: hidden; clip-path: inset(50%); \
white-space: nowrap; }

.app { display: grid; grid-template-rows: auto auto 1fr; height: 100dvh; }
header {
  display: flex; gap: .75rem; align-items: center; padding: .4rem .8rem; border-bottom: 1px soli\
d var(--line);
}
header h1 { flex: 1; }
.bar {
  display: grid; grid-template-columns: auto 1fr auto; gap: .4rem .8rem; align-items: center;
  padding: .5rem .8rem; border-bottom: 1px solid var(--line); background: var(--raised);
}
.bar .steps { display: flex; gap: .3rem; }
.bar input[type=range] { width: 100%; height: 2.25rem; margin: 0; accent-color: var(--accent); }
.bar .where { font-variant-numeric: tabular-nums; color: var(--faint); white-space: nowrap; }
.now {
  grid-column: 1 / -1; display: flex; flex-wrap: wrap; gap: .1rem 1rem; min-height: 1.5rem;
  align-items: baseline;
}
.now .mono { font-size: 1rem; font-weight: 650; overflow-wrap: anywhere; }
.now .forced, .faint { color: var(--faint); }
.bad { color: var(--bad); }

main { display: grid; grid-template-columns: minmax(15rem, 24%) 1fr minmax(15rem, 25%); min-heig\
ht: 0; }
main > section {
  min-width: 0; min-height: 0; display: flex; flex-direction: column; border-right: 1px solid va\
r(--line);
}
main > section:last-child { border-right: 0; }
.head {
  display: flex; justify-content: space-between; align-items: center; gap: .5rem; padding: .35re\
m .8rem;
  min-height: 2.4rem;
}
.head.why { padding-inline: 0; }
#treebox { padding-inline: 0; }
.scroll { overflow: auto; flex: 1; min-height: 0; padding-bottom: 1rem; }
.rows li {
  display: grid; grid-template-columns: 3.2rem 1fr; padding: .08rem .5rem .08rem 0; cursor: poin\
ter;
  border-left: 4px solid transparent; overflow-wrap: anywhere;
}
.rows .n { text-align: right; padding-right: .7rem; color: var(--faint); font-variant-numeric: t\
abular-nums; }
.rows li.later { opacity: .55; }
.rows li.note { color: var(--faint); cursor: default; font-size: .8rem; }
.rows li.here { background: var(--here); border-left-color: var(--accent); opacity: 1; }
.rows li:hover:not(.note) { background: color-mix(in srgb, var(--accent) 12%, transparent); }
.rows li.forced .t::before { content: \"↳ \"; color: var(--faint); }
.rows .why { grid-column: 2; font-size: .875rem; color: var(--bad); font-family: system-ui, sans\
-serif; }
.rows .why.shown { color: var(--faint); }

.picture { display: grid; grid-template-rows: auto auto minmax(9rem, 1fr); overflow: hidden; }
.cards {
  display: grid; grid-template-columns: repeat(auto-fill, minmax(9.5rem, 1fr)); gap: .5rem;
  padding: 0 .8rem .6rem; overflow: auto; max-height: 52dvh; align-content: start;
}
.card {
  border: 1px solid var(--line); border-left: .5rem solid var(--stage, var(--line)); border-radi\
us: 7px;
  padding: .3rem .5rem .4rem; background: var(--page); cursor: pointer; font-size: .875rem; min-\
width: 0;
}
.card.acts { outline: 2px solid var(--accent); }
.card.picked { box-shadow: 0 0 0 2px var(--text); }
.card.gone { opacity: .6; }
.card.circle { border-color: var(--bad); border-style: dashed; border-left-style: solid; }
.card button {
  border: 0; background: none; padding: 0; min-height: 1.5rem; font-weight: 700; font-size: 1rem\
;
  text-align: left; width: 100%; overflow-wrap: anywhere;
}
.card .stage {
  display: inline-block; background: var(--stage); color: var(--text); border-radius: 4px; paddi\
ng: 0 .35rem;
}
.card .in, .card .entry { margin-top: .15rem; overflow-wrap: anywhere; }
.card .entry b { font-weight: 600; }
.card .entry.open b::before { content: \"◉ \"; }
.card .chip {
  display: inline-block; border: 1px solid var(--line); border-radius: 1rem; padding: 0 .45rem;
  margin-left: .15rem; background: var(--raised);
}
.card .chip.served { background: var(--in-rendezvous); border-color: transparent; }
.time { min-height: 0; border-top: 1px solid var(--line); overflow-x: auto; overflow-y: hidden; \
position: relative; }
.time svg { display: block; }
.time text { font: 12px system-ui, sans-serif; fill: var(--text); }
.time .name { font-weight: 700; text-anchor: middle; }
.time .pos { text-anchor: end; fill: var(--faint); font-size: 11px; }
.time .grid { stroke: var(--line); }
.time .hererow { fill: var(--here); }
.time .call { stroke: var(--text); stroke-width: 1.5; stroke-dasharray: 3 3; fill: none; }
.time .served { stroke: var(--text); stroke-width: 1.5; stroke-dasharray: 8 4; fill: none; }
.time .met, .time .tip { stroke: var(--text); stroke-width: 2; fill: none; }
.time .tick { stroke: var(--faint); stroke-dasharray: 6 4; }
.time .block { stroke: var(--faint); stroke-width: 1.5; fill: none; }
.time .mark { fill: var(--text); }
.time .step { fill: var(--page); stroke: var(--text); stroke-width: 1.5; }
.time .later { opacity: .25; }

.whybox { padding: 0 .8rem .6rem; border-bottom: 1px solid var(--line); max-height: 45%; overflo\
w: auto; }
.whybox p { margin: .2rem 0 .4rem; }
.whybox .verdict { font-weight: 600; }
.whybox button.go { padding: .1rem .5rem; min-height: 1.8rem; margin: 0 .3rem .3rem 0; font-size\
: .875rem; }
.tree ul { padding-left: 1rem; border-left: 1px solid var(--line); }
.tree li { padding: .05rem 0; }
.tree .gone { text-decoration: line-through; color: var(--faint); }
details { padding: .2rem .8rem; }
summary { cursor: pointer; min-height: 2rem; padding: .3rem 0; font-weight: 650; font-size: .95r\
em; }
.text { overflow: auto; max-height: 60vh; margin: 0; }
.tabs { display: flex; gap: .25rem; }
.tabs button[aria-pressed=true] { background: var(--accent); color: var(--page); border-color: v\
ar(--accent); }
main:not([data-tab=all]) { grid-template-columns: 1fr; }
main[data-tab=tasks] > .code, main[data-tab=tasks] .time, main[data-tab=tasks] .journal,
main[data-tab=picture] > :not(.picture), main[data-tab=picture] .cards, main[data-tab=picture] .\
picture > .head,
main[data-tab=script] > :not(.code),
main[data-tab=journal] > :not(.side), main[data-tab=journal] .whybox { display: none; }
main[data-tab=tasks] { grid-template-columns: 1fr minmax(15rem, 30%); }
main[data-tab=tasks] .picture { display: flex; }
main[data-tab=tasks] .cards { max-height: none; flex: 1; }
main[data-tab=tasks] .whybox { max-height: none; border-bottom: 0; }
main[data-tab=picture] .picture { display: flex; }
main[data-tab=picture] .time { flex: 1; border-top: 0; }

@media (max-width: 899px) {
  .app { display: block; height: auto; }
  .bar {
    position: sticky; top: 0; z-index: 2; grid-template-columns: 1fr auto; padding: .3rem .5rem;
    gap: .3rem .5rem;
  }
  .bar .steps { grid-area: 2 / 1 / 3 / -1; display: grid; grid-template-columns: repeat(6, 1fr)\
; }
  .bar .steps button { min-height: 2.75rem; padding: 0; }
  .bar input[type=range] { grid-area: 1 / 1; }
  .bar .where { grid-area: 1 / 2; }
  header { flex-wrap: wrap; padding: .3rem .5rem; gap: .3rem .5rem; }
  .tabs { order: 9; width: 100%; }
  .tabs button { flex: 1; padding: .2rem; min-height: 2.75rem; }
  .tabs button[data-tab=all] { display: none; }
  main, main[data-tab=tasks] { display: block; }
  main > section { border-right: 0; }
  .picture, main[data-tab=picture] .picture, main[data-tab=tasks] .picture { display: block; ove\
rflow: visible; }
  .cards {
    max-height: none; grid-template-columns: repeat(auto-fill, minmax(8.5rem, 1fr)); padding: .2\
rem .5rem .6rem;
    overflow: visible;
  }
  .time { height: 65dvh; }
  .scroll { max-height: 66dvh; }
  .whybox { max-height: none; border-bottom: 0; }
}
@media (min-width: 900px) {
  main[data-tab=tasks] .cards { grid-template-columns: repeat(auto-fill, minmax(13.5rem, 1fr)); \
}
  main[data-tab=tasks] .card, main[data-tab=tasks] .whybox { font-size: 1.15rem; }
  main[data-tab=tasks] .card button { font-size: 1.35rem; }
  :not([data-tab=all]) > .code .rows, :not([data-tab=all]) > .side .rows { font-size: 1.15rem; }
}
@media (min-width: 1600px) { html { font-size: 18px; } }
@media (prefers-reduced-motion: no-preference) { .card { transition: border-color .12s; } }
@media (forced-colors: active) {
  .rows li.here { border-left-color: Highlight; }
  .card.acts { outline-color: Highlight; }
}
@media print {
  .bar .steps, .bar input, .tabs, header button { display: none; }
  .app { height: auto; display: block; }
  .scroll, .cards { max-height: none; overflow: visible; }
}
";
