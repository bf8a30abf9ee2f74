//! Reading the lists that go on to the end of a line.

ghost use Rattle.std.specs.Prelude.{◌≡◌};
ghost use Rattle.std.specs.Str.{bytes_eq};
ghost use Rattle.std.specs.List.{list_any};
ghost use Rattle.ada_script.specs.internal.Reading.{Gives, GivesInMemory, tasks_at, family_at, families_at};

use crate::cursor::Words;
use crate::fault::Fault;
use crate::parts::{read_bounds, read_declared_task, read_name};
use ada_statements::{Declaration, Declarations, Name, Names, TaskNames};
use std::alloc::Global;

/// Takes the names of tasks, at most 256.
pub fn read_tasks(alloc: Global, names: &Names, words: &mut Words) -> Result<TaskNames, Fault>
    ensures { GivesInMemory result words.new (tasks_at names.now words.old) }
{
    let mut tasks = TaskNames::new(alloc);
    while !words.is_over() {
        if tasks.is_full() {
            return Err(Fault::BadStatement);
        }
        let task = read_declared_task(names, words)?;
        tasks.push(task.copy())?;
    }
    Ok(tasks)
}

/// Whether a family of this name is declared among these.
fn is_family(families: &Declarations, name: &Name) -> bool
    ensures { result ≡ list_any (λ family. bytes_eq name.now family.name) families.now }
{
    families
        .as_slice()
        .iter()
        .any(|family| *name == family.name)
}

/// Takes a family of entries, which has another name than those before it.
#[tactic(auto, unfolding(crate::specs::internal::Reading::family_at))]
fn read_family(families: &Declarations, words: &mut Words) -> Result<Declaration, Fault>
    ensures { Gives result words.new (family_at families.now words.old) }
{
    let name = read_name(words)?;
    if is_family(families, &name) {
        return Err(Fault::DoubleName);
    }
    let bounds = read_bounds(words)?;
    Ok(Declaration { name, bounds })
}

/// Takes the families of entries that a task declares, at most 16.
pub fn read_families(alloc: Global, words: &mut Words) -> Result<Declarations, Fault>
    ensures { GivesInMemory result words.new (families_at words.old) }
{
    let mut families = Declarations::new(alloc);
    while !words.is_over() {
        if families.is_full() {
            return Err(Fault::BadStatement);
        }
        let family = read_family(&families, words)?;
        families.push(family)?;
    }
    Ok(families)
}
