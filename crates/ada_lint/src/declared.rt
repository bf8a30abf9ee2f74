//! What the lines so far declare.

use crate::nearest::Nearest;
use ada_script::{Declaration, Name, Statement};
use std::alloc::{AllocError, Global};

/// A name that a line declares.
#[derive(Drop)]
pub struct Declared {
    pub name: Name,
    pub line: u32,
    /// The names of a task's entries; none for a block.
    pub entries: Option<Vec<Name>>,
}

/// All names that the lines so far declare, in their order; the main program's isn't among them.
#[derive(Drop)]
pub struct Declarations {
    all: Vec<Declared>,
}

// The names of some families.
fn names_of(alloc: Global, families: &[Declaration]) -> Result<Vec<Name>, AllocError> {
    let mut names = Vec::new(alloc);
    for family in families {
        names.push(family.name.copy())?;
    }
    Ok(names)
}

impl Declarations {
    /// Nothing yet.
    pub fn new(alloc: Global) -> Self {
        Declarations {
            all: Vec::new(alloc),
        }
    }

    /// All of them.
    pub fn all(&self) -> &[Declared] {
        &self.all
    }

    /// Notes what a statement declares.
    pub fn note(
        &mut self,
        alloc: Global,
        line: u32,
        statement: &Statement,
    ) -> Result<(), AllocError> {
        match statement {
            Statement::Create { task, families, .. } => {
                let entries = names_of(alloc, families.as_slice())?;
                self.all.push(Declared {
                    name: task.copy(),
                    line,
                    entries: Some(entries),
                })?;
                Ok(())
            }
            Statement::Open { block, .. } => {
                self.all.push(Declared {
                    name: block.copy(),
                    line,
                    entries: None,
                })?;
                Ok(())
            }
            _ => Ok(()),
        }
    }

    /// The declaration of a name.
    pub fn get(&self, name: &str) -> Option<&Declared> {
        self.all
            .iter()
            .find(|declared| declared.name.as_str() == name)
    }

    /// The nearest name of a task, or of a task or a block.
    pub fn nearest(
        &self,
        alloc: Global,
        sought: &str,
        is_task: bool,
    ) -> Result<Option<&str>, AllocError> {
        let mut nearest = Nearest::to(sought);
        nearest.try_word(alloc, sought, "main")?;
        for declared in &self.all {
            if declared.entries.is_some() || !is_task {
                nearest.try_word(alloc, sought, declared.name.as_str())?;
            }
        }
        Ok(nearest.word)
    }

    /// The names of a task's entries.
    pub fn entries(&self, task: &str) -> &[Name] {
        match self.get(task) {
            Some(
                Declared {
                    entries: Some(entries),
                    ..
                },
            ) => entries.as_slice(),
            _ => &[],
        }
    }

    /// The nearest name of a task's entries.
    pub fn nearest_entry(
        &self,
        alloc: Global,
        task: &str,
        sought: &str,
    ) -> Result<Option<&str>, AllocError> {
        let mut nearest = Nearest::to(sought);
        for entry in self.entries(task) {
            nearest.try_word(alloc, sought, entry.as_str())?;
        }
        Ok(nearest.word)
    }
}
