//! How plays are shown as a page.

use crate::obeying::{STANDARD_INPUT, text_of};
use crate::output::write_text;
use crate::page_order::Paging;
use ada_findings::{Failure, Finding, ScopeFault};
use ada_page::{Document, Play, write_page, write_plays};
use ada_replay::RunFault;
use std::alloc::Global;
use std::io::{Input, Print};
use std::rt::Files;

/// Writes a page of the plays of some scripts, or its document. An `Err` names the file that can't be read; nothing is
/// written then.
pub fn tell_pages<'a, R: Files + Input + Print + AllocGlobal>(
    rt: &R,
    order: &Paging<'a>,
) -> Result<Finding, Failure<'a>> {
    let mut texts = Vec::new(rt.alloc());
    for file in &order.files {
        if let Err(fault) = push_text(rt, &mut texts, file) {
            return Err(Failure {
                file: Some(*file),
                fault,
            });
        }
    }
    match tell_texts(rt, order, &texts) {
        Ok(finding) => Ok(finding),
        Err(fault) => Err(Failure { file: None, fault }),
    }
}

// Puts the text of a file, or of the standard input, to those that were read.
fn push_text<R: Files + Input + AllocGlobal>(
    rt: &R,
    texts: &mut Vec<Vec<u8>>,
    file: &str,
) -> Result<(), ScopeFault> {
    let path = if file == "-" { None } else { Some(file) };
    let text = text_of(rt, path)?;
    texts.push(text).map_err(|_| RunFault::Memory)?;
    Ok(())
}

// How a file is called: the last part of its path.
fn name_of(file: &str) -> &str {
    match file.rsplit_once('/') {
        _ if file == "-" => STANDARD_INPUT,
        Some((_, name)) => name,
        None => file,
    }
}

fn document_of(alloc: Global, order: &Paging<'_>, texts: &[Vec<u8>]) -> Result<Document, RunFault> {
    let mut plays = Vec::new(alloc);
    for (file, text) in order.files.iter().zip(texts.iter()) {
        let file = name_of(file);
        plays
            .push(Play { file, text })
            .map_err(|_| RunFault::Memory)?;
    }
    if order.is_json {
        write_plays(alloc, &plays)
    } else {
        write_page(alloc, &plays)
    }
}

fn tell_texts<R: Print + AllocGlobal>(
    rt: &R,
    order: &Paging<'_>,
    texts: &[Vec<u8>],
) -> Result<Finding, ScopeFault> {
    let document = document_of(rt.alloc(), order, texts)?;
    write_text(rt, &document.text)?;
    Ok(if document.is_faulty {
        Finding::Faulty
    } else {
        Finding::Nothing
    })
}
