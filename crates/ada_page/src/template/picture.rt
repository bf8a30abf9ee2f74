//! The script of a page: the picture. Written by tools/write_page.

pub static PICTURE: &str = "\
// The picture: a column for each task, time from above, the rows around the place that fit.
const ROW = 18, HEAD = 26, LEFT = 44, MARGIN = 8, LEAST_COLUMN = 66, MOST_COLUMN = 110, LETTER \
= 8;

// An element of SVG, with a text that shows when it is pointed at.
function draw(name, attributes = {}, title = null) {
  const it = document.createElementNS(\"http://www.w3.org/2000/svg\", name);
  for (const [key, value] of Object.entries(attributes)) it.setAttribute(key, value);
  if (title) {
    const text = draw(\"title\");
    text.textContent = title;
    it.append(text);
  }
  return it;
}

// Where everything stands: how wide a column is, which rows are shown, and the places of tasks \
and rows.
function frameOf(wide, high) {
  const names = [...tasks.keys()];
  const room = Math.floor((wide - LEFT - MARGIN) / names.length);
  const column = Math.max(LEAST_COLUMN, Math.min(MOST_COLUMN, room));
  const many = Math.max(3, Math.floor((high - HEAD - 24) / ROW));
  const from = Math.max(0, Math.min(place - Math.floor(many * 2 / 3), rows.length - many));
  return {
    names, column, from,
    to: Math.min(rows.length, from + many),
    width: LEFT + column * names.length + MARGIN,
    x: new Map(names.map((name, i) => [name, LEFT + column / 2 + column * i])),
    y: row => HEAD + (row - from) * ROW + ROW / 2,
  };
}

function showHead(svg, frame, name) {
  const most = Math.floor(frame.column / LETTER);
  const head = draw(\"text\", { class: \"name\", x: frame.x.get(name), y: 17 });
  head.textContent = name.length > most ? name.slice(0, most - 1) + \"…\" : name;
  const title = draw(\"title\");
  title.textContent = name;
  head.append(title);
  const foot = frame.y(frame.to - 1) + ROW / 2;
  svg.append(head, draw(\"path\", { class: \"grid\", d: `M${frame.x.get(name)} ${HEAD}V${foot}` \
}));
}

// What a task does from one row to another, as a bar; what comes later is faint.
function showBar(svg, frame, name, span, from, to, isLater) {
  const top = Math.max(from, frame.from - .5), bottom = Math.min(to, frame.to - .5);
  if (bottom <= top) return;
  svg.append(draw(\"rect\", {
    x: frame.x.get(name) - 6, y: frame.y(top), width: 12, height: (bottom - top) * ROW, rx: 2,
    style: `fill:var(--${span.stage.replace(/ /g, \"-\")})`, class: isLater ? \"later\" : \"\",
  }, `${name} ${WORDS[span.stage]}`));
}

function showBars(svg, frame, name) {
  const of = spans.get(name) || [], track = tracks.get(\"stage \" + name);
  for (let i = track ? lastAt(track, frame.from) : 0; i < of.length && of[i].from < frame.to; i+\
+) {
    const span = of[i];
    if (span.to <= frame.from || span.stage === \"terminated\") continue;
    showBar(svg, frame, name, span, span.from, Math.min(span.to, place), false);
    showBar(svg, frame, name, span, Math.max(span.from, place), span.to, true);
  }
}

function showBracket(svg, frame, bracket) {
  const top = Math.max(bracket.from, frame.from - .5), bottom = Math.min(bracket.to, frame.to - \
.5);
  if (bottom <= top) return;
  const inner = frame.x.get(bracket.by) - 9, outer = inner - 7;
  const end = bracket.to < frame.to ? \"H\" + inner : \"\";
  const line = `M${inner} ${frame.y(top)}H${outer}V${frame.y(bottom)}${end}`;
  svg.append(draw(\"path\", { class: \"block\", d: line }, \"block \" + bracket.block));
}

function showArrow(group, frame, kind, from, to, y) {
  if (!frame.x.has(from) || !frame.x.has(to)) return;
  const a = frame.x.get(from), b = frame.x.get(to), side = a < b ? -1 : 1;
  if (a === b) {
    group.append(draw(\"path\", { class: kind, d: `M${a} ${y - 4}H${a + 22}V${y + 4}H${a}` }));
    return;
  }
  const tip = `M${b + side * 8} ${y - 4}L${b} ${y}L${b + side * 8} ${y + 4}`;
  group.append(draw(\"path\", { class: kind, d: `M${a} ${y}H${b}` }), draw(\"path\", { class: \"\
tip\", d: tip }));
}

function showRow(svg, frame, row, i) {
  const group = draw(\"g\", { class: i > place ? \"later\" : \"\" }, row.printed || \"the beginn\
ing\"), y = frame.y(i);
  const text = draw(\"text\", { class: \"pos\", x: LEFT - 12, y: y + 4 });
  text.textContent = row.position || (row.kind === \"refused\" ? \"✗\" : \"\");
  group.append(text);
  if (row.kind === \"called\") showArrow(group, frame, \"call\", row.by, row.task, y);
  if (row.kind === \"met\") showArrow(group, frame, \"met\", row.caller, row.task, y);
  if (row.kind === \"ended\") showArrow(group, frame, \"met\", row.by, row.caller, y);
  if (row.kind === \"ticked\") group.append(draw(\"path\", { class: \"tick\", d: `M${LEFT} ${y}H\
${frame.width - MARGIN}` }));
  const who = row.by || row.caller || row.task, isForced = Boolean(row.forced_by);
  if (frame.x.has(who) && row.kind !== \"met\") {
    const circle = { class: isForced ? \"step\" : \"mark\", cx: frame.x.get(who), cy: y, r: isFo\
rced ? 4 : 3 };
    group.append(draw(\"circle\", circle));
  }
  svg.append(group);
}

// Whom tasks served last that wait for other calls, as dashed arrows beneath the place.
function showServed(svg, frame) {
  if (!isSettled(place)) return;
  let y = frame.y(place);
  for (const name of frame.names) {
    const why = at(\"why \" + name, place);
    if (!why?.served) continue;
    const group = draw(\"g\", {}, `${name} last served ${why.served}`);
    y += 6;
    showArrow(group, frame, \"served\", name, why.served, y);
    svg.append(group);
  }
}

function showTime() {
  const box = $(\"time\"), wide = box.clientWidth, high = box.clientHeight;
  if (!wide || high < 60) {
    box.replaceChildren();
    return;
  }
  const frame = frameOf(wide, high);
  const label = \"The play around event \" + (rows[place].position || place);
  const svg = draw(\"svg\", { width: frame.width, height: high - 4, role: \"img\", \"aria-labe\
l\": label });
  const here = { class: \"hererow\", x: 0, y: frame.y(place) - ROW / 2, width: frame.width, heig\
ht: ROW };
  svg.append(draw(\"rect\", here));
  for (const name of frame.names) showHead(svg, frame, name);
  for (const name of frame.names) showBars(svg, frame, name);
  for (const bracket of brackets) showBracket(svg, frame, bracket);
  for (let i = frame.from; i < frame.to; i++) showRow(svg, frame, rows[i], i);
  showServed(svg, frame);
  box.replaceChildren(svg);
  const who = frame.x.get(rows[place].by || rows[place].caller || rows[place].task);
  const isSeen = who >= box.scrollLeft + LEFT && who <= box.scrollLeft + wide - frame.column / 2\
;
  if (who !== undefined && !isSeen) box.scrollLeft = who - wide / 2;
}
";
