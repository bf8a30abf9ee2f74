//! Entries of tasks that aren't named by themselves (4.1.3): objects of task types, and components.

use super::{Checker, trouble};
use crate::spelling::is_same;
use ada_text::tree::{ExpressionId, Identifier};
use ada_text::{Cause, Trouble};

impl<'a> Checker<'a> {
    /// Notes what a name with a selector is (4.1.3).
    pub fn selected(
        &mut self,
        id: ExpressionId,
        prefix: ExpressionId,
        selector: Identifier,
    ) -> Result<(), Trouble> {
        if let Some(meaning) = self.meaning_of(id) {
            return self.name(id, selector.at, meaning);
        }
        let task = self
            .class(prefix)
            .and_then(|class| class.base())
            .and_then(|base| self.task_of(base));
        let Some(task) = task else {
            return Err(trouble(selector.at, Cause::NoSuchSelector));
        };
        let position = self
            .entries_of(task)?
            .iter()
            .position(|entry| is_same(self.text, entry.name, selector));
        match position {
            Some(position) => {
                let class = self.entry_class(task, position)?;
                self.note(id, class);
                Ok(())
            }
            None => Err(trouble(selector.at, Cause::NoSuchEntry)),
        }
    }
}
