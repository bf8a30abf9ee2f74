//! The names of a script, and what they are bound to.

ghost use Rattle.std.specs.Prelude.{◌≡◌, ◌≤◌, None, Some, Ok, length, map, option_map, IfOk, IfSome, OnOk, OnErr, IsOkUnless};
ghost use Rattle.std.specs.Prelude.{option_copied, if◌then◌else◌, unwrap_or, is_some, IsTrue, [], true};
ghost use Rattle.std.specs.List.{position, list_any};
ghost use Rattle.std.specs.Map.{keys_of};
ghost use Rattle.std.specs.Str.{bytes_eq};
ghost use Rattle.ada_statements.specs.Binding.{place_of as found_place};
ghost use Rattle.ada_statements.specs.internal.Places.{kept, AreKept, IsNoted};
ghost use Rattle.ada_events.specs.declared.limits.TheConstants.{MOST_FAMILIES};

use crate::meaning::{Binding, Bound};
use crate::places::Places;
use crate::statement::Declarations;
use crate::{Cause, Declaration, EntryName, EntryNames, Made, Meaning, Name, Statement};
use ada_events::{Entry, Master, TaskNo};
use indexmap::IndexMap;
use std::alloc::{AllocError, Global};
use std::marker::Model;

/// The names that a script declares, each with what it stands for. Contracts see them as the list of
/// these pairs, in the order of their declaration.
#[derive(Drop)]
pub struct Names {
    table: IndexMap<Name, Meaning>,
    /// Where the bound names stand in the table, if that is kept.
    places: Option<Places>,
}

impl Model for Names {
    ghost use Rattle.ada_statements.specs.Scope.{Scope};

    ghost Value = { Scope };

    ghost view = { λ n. n.table.entries };

    ghost use Rattle.std.specs.Prelude.{IfSome};
    ghost use Rattle.ada_statements.specs.internal.Places.{AreKept};

    ghost invariant = { λ n. IfSome n.places (AreKept n.table.entries) };
}

impl Names {
    ghost use Rattle.ada_statements.specs.Binding.{task_of, master_of, family_number, entry_of, with_meaning, bind};
    ghost use Rattle.ada_statements.specs.internal.Places.{bound_by};
    ghost use Rattle.ada_statements.specs.Binding.{bound_to, families_in};
    ghost use Rattle.ada_statements.specs.Scope.{main_alone, meaning_of, is_declared, is_task, has_entry, entries_of, declare, with_name};
    ghost use Rattle.ada_statements.specs.declared.meaning.Meaning.TheVariants.{Task as TaskMeaning};

    /// The main program alone.
    pub fn new(alloc: Global) -> Result<Self, Cause>
        ensures main { IfOk result (λ names. names ≡ main_alone) }
        ensures memory { IsOkUnless result Cause.OutOfMemory }
    {
        let mut table = IndexMap::new(alloc);
        let main = Meaning::Task {
            entries: EntryNames::new(alloc),
            made: Some(Made {
                task: TaskNo(0),
                at: 0,
            }),
        };
        table.insert(Name::from_bytes(b"main"), main)?;
        Ok(Names {
            table,
            places: None,
        })
    }

    /// The same names.
    pub fn copy(&self) -> Result<Self, Cause>
        ensures names { IfOk result (λ names. names ≡ self.now) }
        ensures memory { IsOkUnless result Cause.OutOfMemory }
    {
        let alloc = *self.table.allocator();
        let mut names = Names {
            table: IndexMap::with_capacity(alloc, self.table.len())?,
            places: None,
        };
        for place in 0..self.table.len() {
            let Some((name, meaning)) = self.table.get_index(place) else {
                break;
            };
            names.insert(name, meaning.copy(alloc)?)?;
        }
        Ok(names)
    }

    /// What a name of these bytes stands for, if it is declared.
    #[inline(never)]
    pub fn meaning(&self, name: &[u8]) -> Option<&Meaning>
        ensures { option_copied result ≡ meaning_of self.now name.now }
    {
        self.table.get(name)
    }

    /// What a name stands for, if it is declared.
    // A name that was read in these names remembers its place.
    #[inline(always)]
    fn meaning_of(&self, name: &Name) -> Option<&Meaning>
        ensures { option_copied result ≡ meaning_of self.now name.now }
    {
        match self.remembered(name) {
            Some(meaning) => Some(meaning),
            None => self.meaning(name.as_bytes()),
        }
    }

    /// The same, if it stands at the place that the name remembers.
    #[inline(always)]
    fn remembered(&self, name: &Name) -> Option<&Meaning>
        ensures { IfSome result (λ meaning. meaning_of self.now name.now ≡ Some meaning.now) }
    {
        let (found, meaning) = self.table.get_index(name.place())?;
        if found.is_copy_of(name) {
            Some(meaning)
        } else {
            None
        }
    }

    /// The name of these bytes as it was declared, with what it stands for, if it is declared.
    // Inlined into those that look names up, which give less back and stand apart.
    #[inline(always)]
    fn declared(&self, name: &[u8]) -> Option<(&Name, &Meaning)>
        ensures name { IfSome result (λ entry. entry.0.now ≡ name.now) }
        ensures meaning { option_map (λ p. p.1.now) result ≡ meaning_of self.now name.now }
    {
        self.table.get_key_value(name)
    }

    /// Whether a name of these bytes is declared.
    pub fn is_declared(&self, name: &[u8]) -> bool
        ensures { result ≡ is_declared self.now name.now }
    {
        self.meaning(name).is_some()
    }

    /// A name of these bytes that isn't declared yet. It will be found at once if it is declared next.
    pub fn new_name(&self, name: &[u8]) -> Name
        requires { length name.now ≤ 16 }
        ensures { result ≡ name.now }
    {
        Name::from_bytes(name).copy_at(self.table.len())
    }

    /// The name of these bytes as it was declared, if it is. Copying it is cheaper than making a name of the bytes, and
    /// the copy is found at once.
    #[inline(never)]
    pub fn declared_name(&self, name: &[u8]) -> Option<&Name>
        ensures { option_copied result
            ≡ (if is_declared self.now name.now then Some name.now else None) }
    {
        match self.declared(name) {
            Some((declared, _)) => Some(declared),
            None => None,
        }
    }

    /// The name of these bytes as it was declared, if it is a task's.
    #[inline(never)]
    pub fn task_name(&self, name: &[u8]) -> Option<&Name>
        ensures { option_copied result
            ≡ (if is_task self.now name.now then Some name.now else None) }
    {
        match self.declared(name) {
            Some((declared, Meaning::Task { .. })) => Some(declared),
            _ => None,
        }
    }

    /// The names of a task's entries; none where the name is no task's.
    #[inline(always)]
    fn entries(&self, task: &Name) -> &[Name]
        ensures names { result.now ≡ unwrap_or (entries_of self.now task.now) [] }
        ensures few { length result.now ≤ MOST_FAMILIES }
    {
        match self.meaning_of(task) {
            Some(Meaning::Task { entries, .. }) => entries.as_slice(),
            _ => &[],
        }
    }

    /// The name of these bytes as it was declared, if the task of that name has an entry so named.
    pub fn entry_name(&self, task: &Name, entry: &[u8]) -> Option<&Name>
        ensures { option_copied result
            ≡ (if has_entry self.now task.now entry.now then Some entry.now else None) }
    {
        found_in(self.entries(task), entry)
    }

    /// The task that a name is bound to, or number 65,535, which no task has.
    #[inline(always)]
    pub fn task(&self, name: &Name) -> TaskNo
        ensures { result ≡ task_of self.now name.now }
    {
        match self.meaning_of(name) {
            Some(
                Meaning::Task {
                    made: Some(made),
                    ..
                },
            ) => made.task,
            _ => NO_TASK,
        }
    }

    /// The master that a name is bound to: the body of a task, or a block. A block that isn't bound
    /// stands for position 0, where no block is.
    pub fn master(&self, name: &Name) -> Master
        ensures { result ≡ master_of self.now name.now }
    {
        match self.meaning_of(name) {
            Some(Meaning::Task { made, .. }) => match made {
                Some(made) => Master::Body(made.task),
                None => Master::Body(NO_TASK),
            },
            Some(Meaning::Block { opened }) => Master::Block(opened.unwrap_or(0)),
            None => Master::Block(0),
        }
    }

    /// The place of a family in its task's declaration, or 255 where it isn't there.
    fn family_number(&self, task: &Name, family: &Name) -> u8
        ensures { result ≡ family_number self.now task.now family.now }
    {
        place_of(family, self.entries(task))
    }

    /// The entry of this name in a task. An index that is left out is 0.
    pub fn entry(&self, task: &Name, entry: &EntryName) -> Entry
        ensures { result ≡ entry_of self.now task.now entry.now }
    {
        Entry {
            family: self.family_number(task, &entry.family),
            index: entry.index.unwrap_or(0),
        }
    }

    /// The first name that is bound so, and what it stands for.
    // Inlined, so that what is asked for needn't lie in memory.
    #[inline(always)]
    pub fn bound_to(&self, bound: Bound) -> Option<(&Name, &Meaning)>
        ensures { option_map (λ p. (p.0.now, p.1.now)) result ≡ bound_to self.now bound }
    {
        match &self.places {
            Some(places) => match places.get(bound) {
                Some(place) => self.table.get_index(usize::from(place)),
                None => None,
            },
            None => self.first_bound_to(bound),
        }
    }

    /// The same, found by going over the names.
    fn first_bound_to(&self, bound: Bound) -> Option<(&Name, &Meaning)>
        ensures { option_map (λ p. (p.0.now, p.1.now)) result ≡ bound_to self.now bound }
    {
        for place in 0..self.table.len() {
            let Some((name, meaning)) = self.table.get_index(place) else {
                return None;
            };
            if meaning.is_bound_to(bound) {
                return Some((name, meaning));
            }
        }
        None
    }

    /// The names of the families of the task that is bound so, none where there is no such task.
    pub fn families(&self, bound: Bound) -> &[Name]
        ensures { result.now ≡ families_in (bound_to self.now bound) }
    {
        match self.bound_to(bound) {
            Some((_, Meaning::Task { entries, .. })) => entries.as_slice(),
            _ => &[],
        }
    }

    /// Binds the name of a `create` to the task that it made and the one of an `open` to the position
    /// of its event. `at` is the position of the statement's event; other statements bind nothing.
    pub fn bind(&mut self, statement: &Statement, at: u32, made: TaskNo)
        ensures { self.new ≡ bind self.old statement.now at made }
    {
        match statement {
            Statement::Create { task, .. } => {
                self.bind_name(task, Binding::Made(Made { task: made, at }));
            }
            Statement::Open { block, .. } => {
                self.bind_name(block, Binding::Opened(at));
            }
            _ => {}
        }
    }

    /// Whether a copy of the name stands at this place in the table.
    #[inline(always)]
    fn stands_at(&self, place: usize, name: &Name) -> bool
        ensures place { IsTrue result
            → position (bytes_eq name.now) (keys_of self.now) ≡ Some place }
        ensures found { IsTrue result → is_declared self.now name.now ≡ true }
    {
        if place >= self.table.len() {
            return false;
        }
        match self.table.get_index(place) {
            Some((found, _)) => found.is_copy_of(name),
            None => false,
        }
    }

    /// Where a name stands in the table.
    #[inline(always)]
    fn place(&self, name: &Name) -> Option<usize>
        ensures place { result ≡ position (bytes_eq name.now) (keys_of self.now) }
        ensures found { is_some result ≡ is_declared self.now name.now }
    {
        let place = name.place();
        if self.stands_at(place, name) {
            Some(place)
        } else {
            self.table.get_index_of(name)
        }
    }

    /// Binds a name. The places are no longer kept if it, or another name, was bound so before, or
    /// where there is no room.
    fn bind_name(&mut self, name: &Name, binding: Binding)
        ensures { self.new ≡ with_meaning self.old name.now (bound_by binding) }
    {
        let Some(place) = self.place(name) else {
            return;
        };
        let places = self.places.take();
        let Some(meaning) = self.table.get_index_mut(place) else {
            return;
        };
        let was_bound = meaning.is_bound();
        meaning.bind(binding);
        if !was_bound {
            self.places = with_place(places, meaning, place);
        }
    }

    /// Makes room for what the names will be bound to, so that each is found in constant time.
    pub fn make_room(&mut self) -> Result<(), Cause>
        ensures same { self.new ≡ self.old }
        ensures memory { IsOkUnless result Cause.OutOfMemory }
    {
        let places = Places::new(*self.table.allocator())?;
        self.places = self.noted_in(places);
        Ok(())
    }

    /// Notes the places of all names, if they can be kept.
    fn noted_in(&self, mut places: Places) -> Option<Places>
        requires { (bound : Bound) → kept places bound ≡ None }
        ensures { IfSome result (AreKept self.now) }
    {
        for place in 0..self.table.len() {
            let Some((_, meaning)) = self.table.get_index(place) else {
                return None;
            };
            if !places.note(meaning, place) {
                return None;
            }
        }
        Some(places)
    }

    /// Declares the name that a statement declares, if it declares one, with nothing bound to it. An
    /// `Err` leaves the names as they were.
    pub fn declare(&mut self, statement: &Statement) -> Result<(), Cause>
        ensures ok { OnOk result (self.new ≡ declare self.old statement.now) }
        ensures err { OnErr result (self.new ≡ self.old) }
        ensures memory { IsOkUnless result Cause.OutOfMemory }
    {
        match statement {
            Statement::Open { block, .. } => self.insert(block, Meaning::Block { opened: None }),
            Statement::Create { task, families, .. } => self.declare_task(task, families),
            _ => Ok(()),
        }
    }

    /// Declares the name of a task with these families. An `Err` leaves the names as they were.
    // Apart, so that no other statement waits for room for them.
    #[inline(never)]
    fn declare_task(&mut self, task: &Name, families: &Declarations) -> Result<(), Cause>
        ensures ok { OnOk result (self.new
            ≡ with_name self.old task.now (TaskMeaning (map (λ f. f.name) families.now) None)) }
        ensures err { OnErr result (self.new ≡ self.old) }
        ensures memory { IsOkUnless result Cause.OutOfMemory }
    {
        let entries = names_of(*self.table.allocator(), families.as_slice())?;
        self.insert(
            task,
            Meaning::Task {
                entries,
                made: None,
            },
        )
    }

    /// Declares a name. Places aren't kept then. An `Err` leaves the names as they were.
    fn insert(&mut self, name: &Name, meaning: Meaning) -> Result<(), Cause>
        ensures ok { OnOk result (self.new ≡ with_name self.old name.now meaning) }
        ensures err { OnErr result (self.new ≡ self.old) }
        ensures memory { IsOkUnless result Cause.OutOfMemory }
    {
        self.places = None;
        let place = self.table.len();
        self.table.insert(name.copy_at(place), meaning)?;
        Ok(())
    }
}

/// The number of a name that isn't bound to a task.
const NO_TASK: TaskNo = TaskNo(65_535);

/// The name of these bytes among others.
fn found_in<'n>(names: &'n [Name], bytes: &[u8]) -> Option<&'n Name>
    ensures { option_copied result
        ≡ (if list_any (bytes_eq bytes.now) names.now then Some bytes.now else None) }
{
    for name in names {
        if name.is(bytes) {
            return Some(name);
        }
    }
    None
}

/// The place of a name among others, or 255.
fn place_of(name: &Name, names: &[Name]) -> u8
    requires { length names.now ≤ MOST_FAMILIES }
    ensures { result ≡ found_place name.now names.now }
{
    for (i, other) in names.iter().enumerate() {
        if name == other {
            return i as u8;
        }
    }
    255
}

/// The places with that of one more name, which stands for this, if they are kept and it can be.
fn with_place(places: Option<Places>, meaning: &Meaning, place: usize) -> Option<Places>
    ensures { IfSome result (λ after. (before : Places) × (places ≡ Some before)
        × IsNoted before after meaning.now place) }
{
    let mut places = places?;
    if places.note(meaning, place) {
        Some(places)
    } else {
        None
    }
}

/// The names of some families.
fn names_of(alloc: Global, families: &[Declaration]) -> Result<EntryNames, AllocError>
    requires { length families.now ≤ MOST_FAMILIES }
    ensures { IfOk result (λ names. names ≡ map (λ f. f.name) families.now) }
{
    let mut names = EntryNames::new(alloc);
    for family in families {
        names.push(family.name.copy())?;
    }
    Ok(names)
}
