//! The script of a page: steps through a play. Written by tools/write_page.

pub static STEPS: &str = "\
// Steps through a play: buttons, keys, the slider, and the place in the address, as `#34`, or `\
#2.34` in the second
// play.
const plays = JSON.parse($(\"document\").textContent).plays;

function nameOf(row) {
  if (row.position) return \"event \" + row.position;
  return row.kind === \"refused\" || row.kind === \"shown\" ? row.kind : \"the beginning\";
}

// Why a row came: the reason of a refusal, or what asked for an event or made it due.
function becauseOf(row) {
  if (row.kind === \"refused\") return row.why;
  return (row.rule ? `row ${row.rule}: ` : \"\") + (row.because || \"\");
}

function show() {
  const row = rows[place], moment = at(\"moment\", place), printed = row.printed || \"the beginn\
ing\";
  $(\"slider\").value = place;
  $(\"moment\").textContent = moment === undefined ? \"\" : \"moment \" + moment;
  $(\"where\").textContent = `${place} of ${rows.length - 1}`;
  $(\"line\").textContent = row.line ? `${row.line}  ${play.script[row.line - 1].trim()}` : play\
.file;
  $(\"event\").textContent = printed;
  $(\"event\").classList.toggle(\"bad\", row.kind === \"refused\");
  $(\"because\").textContent = becauseOf(row);
  $(\"slider\").setAttribute(\"aria-valuetext\", `${nameOf(row)}: ${row.printed || play.file}`);
  $(\"said\").textContent = `${nameOf(row)}: ${row.printed || \"\"} ${$(\"because\").textContent\
}`;
  for (const id of [\"first\", \"back\", \"backline\"]) $(id).disabled = place === 0;
  for (const id of [\"last\", \"on\", \"online\"]) $(id).disabled = place === rows.length - 1;
  mark($(\"script\"), row.line - 1, row.line);
  mark($(\"journal\"), place, place + 1);
  showCards();
  showWhy();
  showTime();
  for (const listener of show.after) listener();
  try {
    history.replaceState(null, \"\", \"#\" + addressOf());
  } catch { /* a page within a page */ }
}
show.after = [];

function go(to) {
  place = Math.max(0, Math.min(rows.length - 1, to));
  show();
}

function goLine(step) {
  const line = rows[place].line;
  if (step < 0) go(lineRow[line] - 1);
  else go(isSettled(place) && place + 1 < rows.length ? lastOf[rows[place + 1].line] : lastOf[li\
ne]);
}

function pick(name) {
  picked = name;
  showCards();
  showWhy();
}

// Opens a play at its beginning.
function openPlay(played) {
  load(played);
  $(\"title\").textContent = document.title = play.file;
  $(\"slider\").max = rows.length - 1;
  $(\"plays\").value = String(plays.indexOf(played));
  if (picked && !tasks.has(picked)) picked = null;
  showLists();
}

function addressOf() {
  const number = plays.indexOf(play);
  return number > 0 ? `${number + 1}.${place}` : String(place);
}

// Goes to the place that the address names.
function goToAddress() {
  const parts = location.hash.slice(1).split(\".\").map(Number);
  const row = parts.pop() || 0, played = plays[(parts.pop() || 1) - 1];
  if (played && played !== play) openPlay(played);
  go(row);
}

function isTyped(target) {
  return target.matches?.(\"textarea, input:not([type=range]), select\");
}

function goByKey(event) {
  const steps = { ArrowLeft: -1, ArrowRight: 1 };
  if (event.key in steps && event.shiftKey) goLine(steps[event.key]);
  else if (event.key in steps) go(place + steps[event.key]);
  else if (event.key === \"Home\") go(0);
  else if (event.key === \"End\") go(rows.length - 1);
  else if (event.key === \"Escape\" && picked) pick(null);
  else return;
  event.preventDefault();
}
document.addEventListener(\"keydown\", event => {
  if (!isTyped(event.target) && !event.ctrlKey && !event.altKey && !event.metaKey) goByKey(event\
);
});

const THEMES = [\"as the system\", \"light\", \"dark\"];
let theme = 0;
function setTheme(to) {
  theme = to % THEMES.length;
  if (theme) document.documentElement.dataset.theme = THEMES[theme];
  else delete document.documentElement.dataset.theme;
  for (const key of [\"title\", \"aria-label\"]) $(\"theme\").setAttribute(key, \"Colours: \" + \
THEMES[theme]);
}

// What is shown: all at once if there is room, else one part.
const roomy = matchMedia(\"(min-width: 900px)\");
let chosen = null;
function setTab() {
  const fits = chosen && (chosen !== \"all\" || roomy.matches);
  const name = fits ? chosen : roomy.matches ? \"all\" : \"tasks\";
  $(\"main\").dataset.tab = name;
  for (const b of $(\"tabs\").children) b.setAttribute(\"aria-pressed\", String(b.dataset.tab ==\
= name));
}

function listen() {
  for (const b of $(\"tabs\").children) b.onclick = () => { chosen = b.dataset.tab; setTab(); sh\
ow(); };
  roomy.onchange = () => { setTab(); show(); };
  $(\"theme\").onclick = () => setTheme(theme + 1);
  $(\"first\").onclick = () => go(0);
  $(\"last\").onclick = () => go(rows.length - 1);
  $(\"back\").onclick = () => go(place - 1);
  $(\"on\").onclick = () => go(place + 1);
  $(\"backline\").onclick = () => goLine(-1);
  $(\"online\").onclick = () => goLine(1);
  $(\"slider\").oninput = () => go(Number($(\"slider\").value));
  $(\"all\").onclick = () => pick(null);
  $(\"plays\").onchange = () => { openPlay(plays[Number($(\"plays\").value)]); go(0); };
  $(\"treebox\").ontoggle = () => { if ($(\"treebox\").open) showTree(); };
  addEventListener(\"resize\", () => showTime());
  addEventListener(\"hashchange\", () => { if (location.hash !== \"#\" + addressOf()) goToAddres\
s(); });
}

function start() {
  const started = performance.now();
  plays.forEach((played, i) => $(\"plays\").append(make(\"option\", { value: i }, played.file)))\
;
  $(\"plays\").hidden = plays.length < 2;
  $(\"title\").classList.toggle(\"unseen\", plays.length > 1);
  openPlay(plays[0]);
  $(\"app\").hidden = false;
  $(\"plain\").open = false;
  setTheme(0);
  setTab();
  listen();
  goToAddress();
  document.documentElement.dataset.ready = Math.round(performance.now() - started);
}
start();
";
