//! What attributes a kernel shows between two lines.

use ada_events::{Board, Refusal};
use ada_hall::Answer;
use ada_kernel::Kernel;
use ada_replay::shows::shown;
use ada_script::{Line, Names, Statement, Value};
use std::alloc::Global;
use std::test::Fail;

/// Whether a board shows a value for a statement.
fn is_on(
    board: &Board,
    kernel: &Kernel,
    names: &Names,
    statement: &Statement,
    value: Value,
) -> bool {
    match (statement, value) {
        (Statement::ShowCallable { task, .. }, Value::Truth(truth)) => {
            let task = names.task(task);
            task.0 < board.tasks && board.callable.get(usize::from(task.0)) == Some(&truth)
        }
        (Statement::ShowTerminated { task, .. }, Value::Truth(truth)) => {
            let task = names.task(task);
            task.0 < board.tasks && board.terminated.get(usize::from(task.0)) == Some(&truth)
        }
        (Statement::ShowCount { by, entry }, Value::Number(count)) => {
            let slot = kernel.slot(names.task(by), names.entry(by, entry));
            slot.is_some_and(|slot| {
                slot < board.slots && board.counts.get(usize::from(slot)) == Some(&count)
            })
        }
        _ => false,
    }
}

/// What a kernel shows at one moment.
#[derive(Drop)]
pub struct Moment {
    board: Board,
    /// The numbers of the lines whose attribute it wouldn't show, each with the cause.
    refused: Vec<(u32, Refusal)>,
}

impl Moment {
    /// What a new kernel shows.
    pub fn first(alloc: Global, names: &Names, lines: &[Line]) -> Result<Moment, Fail> {
        let kernel = Kernel::new(alloc)?;
        Moment::of(alloc, &kernel, names, lines)
    }

    /// What a kernel shows now, of the attributes that these lines ask for.
    pub fn of(
        alloc: Global,
        kernel: &Kernel,
        names: &Names,
        lines: &[Line],
    ) -> Result<Moment, Fail> {
        let mut refused = Vec::new(alloc);
        for line in lines {
            let answer = shown(kernel, names, &line.statement);
            if let (true, Err(cause)) = (line.statement.is_show(), answer) {
                refused.push((line.line, cause))?;
            }
        }
        Ok(Moment {
            board: kernel.board(),
            refused,
        })
    }

    /// Whether it shows the answer to a line: the value, or the cause for which the attribute is refused.
    pub fn shows(&self, kernel: &Kernel, names: &Names, line: &Line, answer: Answer) -> bool {
        match answer {
            Answer::Shown(value) => is_on(&self.board, kernel, names, &line.statement, value),
            Answer::Refused(cause) => self.refused.contains(&(line.line, cause)),
            Answer::Group { .. } => false,
        }
    }
}
