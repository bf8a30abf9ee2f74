//! Findings as JSON: an object for each, on a line of its own.

use crate::finding::{Finding, Kind};
use crate::review::Review;
use std::alloc::{AllocError, Global};

/// The first findings of a text, so many at most, each as a JSON object on a line, and an object that counts the
/// others. Columns count bytes, from 1.
pub fn write_review(alloc: Global, review: &Review, most: usize) -> Result<String, AllocError> {
    let mut written = String::new(alloc);
    let findings = &review.findings;
    for finding in findings.get(..most).unwrap_or(findings) {
        write_finding(&mut written, finding)?;
    }
    let left = findings.len().saturating_sub(most);
    if left > 0 {
        write!(written, "{{\"more\":{left}}}\n")?;
    }
    Ok(written)
}

fn write_finding(written: &mut String, finding: &Finding) -> Result<(), AllocError> {
    let number = finding.line;
    let column = finding.place.saturating_add(1);
    let length = finding.length;
    write!(
        written,
        "{{\"line\":{number},\"column\":{column},\"length\":{length}"
    )?;
    match finding.kind {
        Kind::Fault(cause) => write!(written, ",\"severity\":\"error\",\"code\":\"{cause}\"")?,
        Kind::Warning => written.push_str(",\"severity\":\"warning\",\"code\":null")?,
    }
    written.push_str(",\"message\":")?;
    write_quoted(written, &finding.message)?;
    written.push_str(",\"repair\":")?;
    match &finding.repair {
        Some(repair) => write_quoted(written, repair)?,
        None => written.push_str("null")?,
    }
    written.push_str("}\n")
}

// A text in quotation marks; what isn't printable ASCII stands by its numbers in UTF-16, as `\u00e9`.
fn write_quoted(written: &mut String, text: &str) -> Result<(), AllocError> {
    written.push('"')?;
    for unit in text.encode_utf16() {
        match unit {
            0x22 => written.push_str("\\\"")?,
            0x5C => written.push_str("\\\\")?,
            32..=126 => written.push((unit % 128) as u8 as char)?,
            _ => write!(written, "\\u{unit:04x}")?,
        }
    }
    written.push('"')
}
