//! A text that is told again only if it has changed.

use std::alloc::{AllocError, Global};
use std::mem;

/// What was told last, and what is told next. Both keep their memory.
#[derive(Drop)]
pub struct Changing {
    last: String,
    next: String,
}

impl Changing {
    /// Nothing was told yet.
    pub fn new(alloc: Global) -> Self {
        Changing {
            last: String::new(alloc),
            next: String::new(alloc),
        }
    }

    /// Where to write what is told next.
    pub fn anew(&mut self) -> &mut String {
        self.next.clear();
        &mut self.next
    }

    /// Whether what was written isn't what was told last. It is taken for told.
    pub fn take(&mut self) -> bool {
        if self.last.as_str() == self.next.as_str() {
            return false;
        }
        mem::swap(&mut self.last, &mut self.next);
        true
    }

    /// What was told last.
    pub fn last(&self) -> &str {
        &self.last
    }

    /// Whether nothing was told yet.
    pub fn is_untold(&self) -> bool {
        self.last.is_empty()
    }

    /// Appends what was written, after what stands before it, if it isn't what was told last.
    pub fn put(&mut self, out: &mut String, before: &str) -> Result<(), AllocError> {
        if self.take() {
            out.push_str(before)?;
            out.push_str(&self.last)?;
        }
        Ok(())
    }
}
