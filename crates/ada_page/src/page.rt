//! Plays as a page of HTML, with all that it needs in it.

use crate::document::{Document, Play, Played};
use crate::template::frame::{
    BEFORE_PLAYS, BEFORE_SCRIPT, BEFORE_STYLE, BEFORE_TEXT, BEFORE_TITLE, END,
};
use crate::template::lists::LISTS;
use crate::template::picture::PICTURE;
use crate::template::reading::READING;
use crate::template::steps::STEPS;
use crate::template::style::STYLE;
use crate::template::tasks::TASKS;
use crate::texts::put_html;
use ada_explain::explanation::explanation_of;
use ada_lint::printing::print_review;
use ada_replay::RunFault;
use std::alloc::{AllocError, Global};

/// Plays some scripts, and writes a page that steps through the plays. It shows them as text too, where no script of a
/// page runs. Of a script with a faulty line those before the first one are played. An `Err` is `Memory`.
pub fn write_page(alloc: Global, plays: &[Play<'_>]) -> Result<Document, RunFault> {
    let mut document = Document::new(alloc);
    let mut text = String::new(alloc);
    for play in plays {
        let played = Played::of(alloc, play)?;
        document.push(play, &played).map_err(|_| RunFault::Memory)?;
        put_told(&mut text, play, &played).map_err(|_| RunFault::Memory)?;
    }
    document.end().map_err(|_| RunFault::Memory)?;
    let mut page = String::new(alloc);
    put_page(&mut page, plays, &text, &document.text).map_err(|_| RunFault::Memory)?;
    Ok(Document {
        text: page,
        is_faulty: document.is_faulty,
    })
}

fn put_page(
    page: &mut String,
    plays: &[Play<'_>],
    text: &str,
    document: &str,
) -> Result<(), AllocError> {
    page.push_str(BEFORE_TITLE)?;
    put_title(page, plays)?;
    page.push_str(BEFORE_STYLE)?;
    page.push_str(STYLE)?;
    page.push_str(BEFORE_TEXT)?;
    page.push_str(text)?;
    page.push_str(BEFORE_PLAYS)?;
    page.push_str(document)?;
    page.push_str(BEFORE_SCRIPT)?;
    for part in [READING, LISTS, TASKS, PICTURE, STEPS] {
        page.push_str(part)?;
    }
    page.push_str(END)
}

fn put_title(page: &mut String, plays: &[Play<'_>]) -> Result<(), AllocError> {
    match plays {
        [play] => put_html(page, play.file),
        _ => write!(page, "{} plays", plays.len()),
    }
}

// Appends what `explain` tells of a play, or `lint` of a script with a faulty line, as HTML.
fn put_told(out: &mut String, play: &Play<'_>, played: &Played) -> Result<(), AllocError> {
    let alloc = *out.allocator();
    let review = &played.review;
    let told = if review.fault.is_some() {
        print_review(alloc, play.file, play.text, review, usize::MAX)?
    } else {
        let shown = &played.shown;
        explanation_of(
            alloc,
            play.text,
            &shown.account,
            &shown.told.sentences,
            false,
        )?
        .text
    };
    put_section(out, play.file, &told)
}

fn put_section(out: &mut String, file: &str, told: &str) -> Result<(), AllocError> {
    put_html(out, file)?;
    out.push_str("\n\n")?;
    put_html(out, told)?;
    out.push('\n')
}
