//! A play as SVG: a column for each task, time from above, and what each task does as a bar.
ghost use Rattle.std.specs.Prelude.{◌<◌, ◌≤◌};

use crate::draw::held::{Held, held_in};
use crate::draw::marks::{write_arrow, write_ends, write_event};
use crate::draw::markup::write_escaped;
use crate::draw::style::{STAGES, names_of, write_style};
use crate::draw::view::View;
use ada_events::TaskNo;
use ada_explain::Scene;
use ada_explain::lives::{Lives, Span, Stage};
use ada_explain::rows::{Row, Rows, Shows};
use ada_replay::Account;
use std::alloc::{AllocError, Global};

/// The height of a row, the width of a column, and what stands left of the columns and above the rows.
const ROW: usize = 20;

pub(crate) const COLUMN: usize = 90;

pub(crate) const LEFT: usize = 48;

const TOP: usize = 56;

/// The width of a column of the legend, and the height of a row of it.
const LEGEND_COLUMN: usize = 230;

const LEGEND_ROW: usize = 24;

static NAMESPACE: &str = "http://www.w3.org/2000/svg";

static TITLE: &str = "A play of a task script: a column for each task, time from above";

// The middle of a task's column.
pub(crate) fn x_of(task: TaskNo) -> usize {
    LEFT + COLUMN / 2 + COLUMN * usize::from(task.0)
}

// How wide a text of so many characters is, with some space after it.
fn text_width(characters: usize) -> usize {
    characters.saturating_mul(22) / 3 + 16
}

// The middle of a row of those that are drawn, from 1; the beginning at 0.
fn y_of(row: usize) -> usize {
    row.saturating_mul(ROW).saturating_add(TOP)
}

/// What is drawn: the scene, its rows, what its tasks do, who holds whom at the end, and which of the rows.
#[derive(Drop)]
pub(crate) struct Page<'a> {
    pub(crate) scene: Scene<'a>,
    rows: Rows<'a>,
    pub(crate) lives: Lives,
    /// None if the end isn't drawn.
    held: Vec<Held>,
    pub(crate) view: View,
    /// So many rows come before those that are drawn.
    before: usize,
    /// So many are drawn.
    count: usize,
}

/// Where a bar begins and ends.
#[derive(Clone, Copy)]
struct Bar {
    top: usize,
    bottom: usize,
}

/// Draws a play, of whose script this is the source.
pub fn write_picture<'a>(
    alloc: Global,
    source: &'a [u8],
    account: &'a Account,
    view: View,
) -> Result<String, AllocError> {
    let page = Page::of(alloc, source, account, view)?;
    let mut out = String::new(alloc);
    page.write_head(&mut out)?;
    page.write_columns(&mut out)?;
    page.write_spans(&mut out)?;
    page.write_rows(&mut out)?;
    write_ends(&mut out, &page)?;
    page.write_held(&mut out)?;
    page.write_legend(&mut out)?;
    write!(out, "</svg>\n")?;
    Ok(out)
}

// What all tasks do in a journal.
fn lives_of(alloc: Global, scene: Scene<'_>) -> Result<Lives, AllocError> {
    let mut lives = Lives::new(alloc)?;
    for (i, event) in scene.events.iter().enumerate() {
        lives.take(scene.events, i as u32 + 1, event)?;
    }
    lives.end(u32::MAX)?;
    Ok(lives)
}

// How many rows come before the event at a position: none before the first, and all if there is none.
fn rows_before(scene: Scene<'_>, rows: &Rows<'_>, position: u32) -> usize {
    if position <= 1 {
        0
    } else if position as usize > scene.events.len() {
        rows.rows.len()
    } else {
        rows.place(position).saturating_sub(1)
    }
}

impl<'a> Page<'a> {
    fn of(
        alloc: Global,
        source: &'a [u8],
        account: &'a Account,
        view: View,
    ) -> Result<Self, AllocError> {
        let scene = Scene::at_end(account);
        let rows = Rows::of(alloc, source, account)?;
        let before = rows_before(scene, &rows, view.part.from);
        let end = rows_before(scene, &rows, view.part.to.saturating_add(1));
        Ok(Page {
            scene,
            rows,
            lives: lives_of(alloc, scene)?,
            held: if view.part.to as usize >= scene.events.len() {
                held_in(alloc, scene)?
            } else {
                Vec::new(alloc)
            },
            view,
            before,
            count: end.saturating_sub(before),
        })
    }
}

impl Page<'_> {
    // How many of the first rows stand above the rows that are drawn, or among them.
    fn end(&self) -> usize {
        self.before.saturating_add(self.count)
    }

    /// The height of the event at a position; of one above the rows that are drawn, that of the beginning.
    pub(crate) fn y_at(&self, position: u32) -> usize {
        y_of(self.rows.place(position).saturating_sub(self.before))
    }

    fn height(&self) -> usize {
        let rows = self.count.saturating_add(self.held.len());
        y_of(rows.saturating_add(1))
    }

    // Where the column of the script's lines begins.
    fn beyond(&self) -> usize {
        let longest = self.rows.rows.iter().map(|row| row.printed.len()).max();
        self.right()
            .saturating_add(text_width(longest.unwrap_or(0)))
    }

    /// Where the column of the printed lines begins.
    pub(crate) fn right(&self) -> usize {
        self.lives
            .tasks()
            .saturating_mul(COLUMN)
            .saturating_add(LEFT + 8)
    }

    // The width of the picture, which has room for a column of the legend at least.
    fn width(&self) -> usize {
        if !self.view.has_text {
            return self.right().max(LEFT + LEGEND_COLUMN);
        }
        let longest = self.rows.rows.iter().map(|row| row.statement.len()).max();
        self.beyond()
            .saturating_add(text_width(longest.unwrap_or(0).saturating_add(6)))
    }

    fn write_head(&self, out: &mut String) -> Result<(), AllocError> {
        let width = self.width();
        let height = self.height().saturating_add(self.legend_height());
        write!(
            out,
            "<svg xmlns=\"{NAMESPACE}\" viewBox=\"0 0 {width} {height}\" role=\"img\">\n"
        )?;
        write!(out, "<title>{TITLE}</title>\n")?;
        write_style(out, self.view.scheme)
    }

    fn write_columns(&self, out: &mut String) -> Result<(), AllocError> {
        let bottom = self.height();
        for task in 0..self.lives.tasks().min(256) {
            let task = TaskNo(task as u16);
            let x = x_of(task);
            let name = self.scene.task(task);
            write!(
                out,
                "<g><title>{name}</title><path class=\"grid\" d=\"M {x} {TOP} V {bottom}\"/>"
            )?;
            write!(
                out,
                "<text class=\"head\" x=\"{x}\" y=\"28\">{name}</text></g>\n"
            )?;
        }
        Ok(())
    }

    // The bar of what a task does for a time, if it has a colour and is among the rows that are drawn.
    fn bar_of(&self, span: Span) -> Option<Bar> {
        if span.stage == Stage::Terminated || self.rows.place(span.from) > self.end() {
            return None;
        }
        let top = self.y_at(span.from);
        let bottom = if span.to == u32::MAX || self.rows.place(span.to) > self.end() {
            y_of(self.count).saturating_add(ROW / 2)
        } else {
            self.y_at(span.to)
        };
        if bottom > top {
            Some(Bar { top, bottom })
        } else {
            None
        }
    }

    fn write_spans(&self, out: &mut String) -> Result<(), AllocError> {
        for span in self.lives.spans() {
            if let Some(bar) = self.bar_of(*span) {
                write_bar(out, self.scene, *span, bar)?;
            }
        }
        Ok(())
    }

    // The row at a place among those that are drawn, from 0.
    fn row_at(&self, place: usize) -> Option<&Row<'_>> {
        self.rows.rows.get(self.before.saturating_add(place))
    }

    fn write_rows(&self, out: &mut String) -> Result<(), AllocError> {
        let right = self.right();
        let beyond = self.beyond();
        for place in 0..self.count {
            let Some(row) = self.row_at(place) else {
                return Ok(());
            };
            let y = y_of(place.saturating_add(1));
            write_position(out, row, y)?;
            if self.view.has_text {
                write_text(out, row, right, beyond, y)?;
            }
            if let Shows::Asked(position) | Shows::Forced(position) = row.shows {
                write_event(out, self, position)?;
            }
        }
        Ok(())
    }

    // A dashed arrow beneath the rows for each that holds another one.
    fn write_held(&self, out: &mut String) -> Result<(), AllocError> {
        let right = self.right();
        for (i, held) in self.held.iter().enumerate() {
            let y = y_of(self.count.saturating_add(i).saturating_add(1));
            write_arrow(out, "served", x_of(held.server), x_of(held.client), y)?;
            if self.view.has_text {
                let base = y.saturating_add(4);
                let server = self.scene.task(held.server);
                let client = self.scene.task(held.client);
                write!(out, "<text class=\"forced\" x=\"{right}\" y=\"{base}\">")?;
                write!(out, "{server} last served {client}</text>\n")?;
            }
        }
        Ok(())
    }

    // Whether a task does that somewhere among the rows that are drawn.
    fn occurs(&self, stage: Stage) -> bool {
        let mut spans = self.lives.spans().iter();
        spans.any(|span| span.stage == stage && self.bar_of(*span).is_some())
    }

    // How many states stand beside each other in the legend: one to three.
    fn legend_columns(&self) -> usize
        ensures some { 0 < result }
        ensures few { result ≤ 3 }
    {
        let room = self.width().saturating_sub(LEFT) / LEGEND_COLUMN;
        if room == 0 { 1 } else { room.min(3) }
    }

    fn legend_height(&self) -> usize {
        let states = STAGES
            .iter()
            .filter(|(stage, _, _)| self.occurs(*stage))
            .count();
        let columns = self.legend_columns();
        let rows = states.saturating_add(columns - 1) / columns;
        rows.saturating_mul(LEGEND_ROW).saturating_add(30)
    }

    fn write_legend(&self, out: &mut String) -> Result<(), AllocError> {
        let columns = self.legend_columns();
        let mut place = 0usize;
        for (stage, class, name) in &STAGES {
            if self.occurs(*stage) {
                let x = LEFT + (place % columns) * LEGEND_COLUMN;
                let row = (place / columns).saturating_mul(LEGEND_ROW);
                let y = self.height().saturating_add(20).saturating_add(row);
                write_stage(out, class, name, x, y)?;
                place = place.saturating_add(1);
            }
        }
        Ok(())
    }
}

// A line of the legend.
fn write_stage(
    out: &mut String,
    class: &str,
    name: &str,
    x: usize,
    y: usize,
) -> Result<(), AllocError> {
    let text_y = y.saturating_add(11);
    let text_x = x.saturating_add(22);
    write!(
        out,
        "<g><title>{name}</title><rect class=\"{class}\" x=\"{x}\" y=\"{y}\""
    )?;
    write!(out, " width=\"14\" height=\"14\"/>")?;
    write!(
        out,
        "<text x=\"{text_x}\" y=\"{text_y}\">{name}</text></g>\n"
    )
}

// A bar for what a task does for a time.
fn write_bar(out: &mut String, scene: Scene<'_>, span: Span, bar: Bar) -> Result<(), AllocError> {
    let (class, name) = names_of(span.stage);
    let task = scene.task(span.task);
    let x = x_of(span.task).saturating_sub(6);
    let top = bar.top;
    let height = bar.bottom.saturating_sub(top);
    write!(
        out,
        "<rect class=\"{class}\" x=\"{x}\" y=\"{top}\" width=\"12\" height=\"{height}\" rx=\"3\">"
    )?;
    write!(out, "<title>{task}: {name}</title></rect>\n")
}

// The position of a row's event.
fn write_position(out: &mut String, row: &Row<'_>, y: usize) -> Result<(), AllocError> {
    let (Shows::Asked(position) | Shows::Forced(position)) = row.shows else {
        return Ok(());
    };
    let base = y.saturating_add(4);
    write!(
        out,
        "<text class=\"position\" x=\"{}\" y=\"{base}\">{position}</text>\n",
        LEFT - 10
    )
}

// The printed line and the script's line of a row.
fn write_text(
    out: &mut String,
    row: &Row<'_>,
    right: usize,
    beyond: usize,
    y: usize,
) -> Result<(), AllocError> {
    let base = y.saturating_add(4);
    let class = match row.shows {
        Shows::Asked(_) => "asked",
        Shows::Forced(_) => "forced",
        Shows::Answer if row.printed.starts_with("refused") => "refused",
        Shows::Answer => "asked",
    };
    write!(out, "<text class=\"{class}\" x=\"{right}\" y=\"{base}\">")?;
    write_escaped(out, row.without_position())?;
    write!(out, "</text>")?;
    if row.is_first() {
        write!(
            out,
            "<text class=\"line\" x=\"{beyond}\" y=\"{base}\">{}  ",
            row.line
        )?;
        write_escaped(out, row.statement)?;
        write!(out, "</text>")?;
    }
    write!(out, "\n")
}
