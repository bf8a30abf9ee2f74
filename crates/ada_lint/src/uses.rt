//! What the lines of a script use.

use ada_script::{Line, Statement};
use std::alloc::{AllocError, Global};
use std::collections::HashSet;

/// The tasks that the lines activate, the entries that they call and accept, each with its task, and whether they
/// complete the main program.
#[derive(Drop)]
pub struct Uses<'a> {
    pub activated: HashSet<&'a str>,
    pub called: HashSet<(&'a str, &'a str)>,
    pub accepted: HashSet<(&'a str, &'a str)>,
    pub completes_main: bool,
}

impl<'a> Uses<'a> {
    /// What these lines use.
    pub fn of(alloc: Global, lines: &'a [Line]) -> Result<Self, AllocError> {
        let mut uses = Uses {
            activated: HashSet::new(alloc),
            called: HashSet::new(alloc),
            accepted: HashSet::new(alloc),
            completes_main: false,
        };
        for line in lines {
            uses.note(&line.statement)?;
        }
        Ok(uses)
    }

    fn note(&mut self, statement: &'a Statement) -> Result<(), AllocError> {
        match statement {
            Statement::Activate { tasks, .. } => {
                for task in tasks.as_slice() {
                    self.activated.insert(task.as_str())?;
                }
            }
            Statement::Call { callee, entry, .. }
            | Statement::CallWithin { callee, entry, .. }
            | Statement::Try { callee, entry, .. } => {
                self.called
                    .insert((callee.as_str(), entry.family.as_str()))?;
            }
            Statement::Accept { by, entry } => {
                self.accepted.insert((by.as_str(), entry.family.as_str()))?;
            }
            Statement::Select { by, choices, .. } => {
                for choice in choices.as_slice() {
                    self.accepted
                        .insert((by.as_str(), choice.entry.family.as_str()))?;
                }
            }
            Statement::Complete { by } if by.as_str() == "main" => self.completes_main = true,
            _ => {}
        }
        Ok(())
    }
}
