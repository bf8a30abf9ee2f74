//! The script of a page: script and journal. Written by tools/write_page.

pub static LISTS: &str = "\
// The script and the journal. The lists of a long play have only the items around the place, si\
nce each step lays all
// of them out.
const MOST = 800, AROUND = 200, NEAR = 30;

function fill(list, count, item) {
  Object.assign(list, { count, item, from: 0, to: 0, marked: null, later: 0, items: [] });
  list.replaceChildren();
}

function gap(from, to) {
  if (to <= from) return \"\";
  const text = make(\"span\", {}, `${from} to ${to}: step or slide there`);
  return make(\"li\", { class: \"note\" }, make(\"span\", { class: \"n\" }, \"…\"), text);
}

function around(list, to) {
  const all = list.count <= MOST;
  const low = list.from && NEAR, high = list.to < list.count ? NEAR : 0;
  if (list.to && (all || (to >= list.from + low && to < list.to - high))) return;
  list.from = all ? 0 : Math.max(0, to - AROUND);
  list.to = all ? list.count : Math.min(list.count, to + AROUND);
  list.items = [];
  for (let i = list.from; i < list.to; i++) list.items.push(list.item(i));
  list.later = list.to;
  const parts = [gap(1, list.from), ...list.items, gap(list.to + 1, list.count)];
  list.replaceChildren(...parts.filter(it => it));
}

function scriptItem(i) {
  const n = i + 1, plays = lineRow[n] !== undefined;
  const number = make(\"span\", { class: \"n\" }, String(n));
  const li = make(\"li\", { class: plays ? \"\" : \"note\" }, number, make(\"span\", { class: \"\
t\" }, play.script[i] || \" \"));
  if (plays) {
    li.onclick = () => go(lastOf[n]);
    const row = rows[lineRow[n]];
    if (row.kind === \"refused\") li.append(make(\"span\", { class: \"why\" }, `refused: ${row.w\
hy} [${row.cause}]`));
    if (row.kind === \"shown\") li.append(make(\"span\", { class: \"why shown\" }, \"shows \" + \
row.value));
  }
  for (const finding of play.findings) {
    if (finding.line === n) li.append(make(\"span\", { class: \"why\" }, `${finding.kind}: ${fin\
ding.message}`));
  }
  return li;
}

function journalItem(i) {
  const row = rows[i], bad = row.kind === \"refused\" ? \" bad\" : \"\";
  const number = make(\"span\", { class: \"n\" }, row.position ? String(row.position) : i ? \"\
–\" : \"\");
  const text = make(\"span\", { class: \"t\" + bad }, i ? row.printed : \"the beginning\");
  const li = make(\"li\", { class: row.forced_by ? \"forced\" : \"\" }, number, text);
  li.onclick = () => go(i);
  return li;
}

function showLists() {
  fill($(\"script\"), play.script.length, scriptItem);
  fill($(\"journal\"), rows.length, journalItem);
}

// Brings an item of a list into sight, within its box alone.
function bring(list, it) {
  const box = list.parentElement;
  const inner = box.getBoundingClientRect(), its = it.getBoundingClientRect();
  if (its.height && (its.top < inner.top + 10 || its.bottom > inner.bottom - 40)) {
    box.scrollTop += its.top - inner.top - box.clientHeight / 2;
  }
}

// Puts a mark on one item of a list, and on those that come later.
function mark(list, item, later) {
  if (list.marked) {
    list.marked.classList.remove(\"here\");
    list.marked.removeAttribute(\"aria-current\");
  }
  around(list, Math.max(0, item));
  const it = list.marked = list.items[item - list.from];
  if (it) {
    it.classList.add(\"here\");
    it.setAttribute(\"aria-current\", \"step\");
    bring(list, it);
    requestAnimationFrame(() => { if (it.isConnected && it.classList.contains(\"here\")) bring(l\
ist, it); });
  }
  const now = Math.max(list.from, Math.min(later, list.to));
  for (let i = Math.min(list.later, now); i < Math.max(list.later, now); i++) {
    list.items[i - list.from].classList.toggle(\"later\", i >= now);
  }
  list.later = now;
}
";
