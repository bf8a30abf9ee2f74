//! A script, of which all schedules are searched.

ghost use Rattle.std.specs.Prelude.{◌≡◌, ◌≤◌, length, is_some, Some, true, IfOk, OnOk};
ghost use Rattle.ada_explore.specs.declared.turns.Turn.TheVariants.{Time as Pass};
ghost use Rattle.ada_explore.specs.Picks.{may_have as may_have_pick};
ghost use Rattle.ada_explore.specs.Scripts as scripts;
ghost use Rattle.ada_explore.specs.internal.Choosing.{AreKept, Has, HaveAllPicks, HaveLines};
ghost use Rattle.ada_explore.specs.internal.Choosing.{HavePicks, turn_of};

use crate::alike::say_alike;
use crate::named::{named_blocks, named_tasks, write_declared};
use crate::performing::perform;
use crate::turns::{may_have, picks_below};
use crate::{Freedom, Rest, Standing, Turn};
use ada_events::Refusal;
use ada_script::Script;
use ada_search::{Halt, Kept, KeyWriter, Schedules};
use ada_standing::Renaming;
use std::alloc::{AllocError, Global};

/// So many lines a script has at most.
const MOST_LINES: usize = 4096;

/// A script whose schedules are looked at.
#[derive(Clone, Copy)]
pub struct Space<'a> {
    pub alloc: Global,
    pub script: &'a Script,
    pub freedom: Freedom,
    ghost short: { length script.now ≤ 4096 },
}

// Adds a turn.
fn add(choices: &mut Vec<Turn>, turn: Turn) -> Result<(), Halt>
    ensures { OnOk result (AreKept choices.old.items choices.new.items
        × Has choices.new.items turn) }
{
    choices.push(turn).map_err(|_| Halt::Memory)
}

impl<'a> Space<'a> {
    /// The schedules of a script with this freedom. Fails with [`Halt::TooLong`] if the script has more lines than a
    /// script may have.
    pub fn new(alloc: Global, script: &'a Script, freedom: Freedom) -> Result<Self, Halt>
        ensures { IfOk result (λ space.
            (space.script.now ≡ script.now) × (space.freedom ≡ freedom)) }
    {
        if script.lines().len() > MOST_LINES {
            return Err(Halt::TooLong);
        }
        Ok(Space {
            alloc,
            script,
            freedom,
        })
    }

    // Adds the line at a place with a pick, if it may have that.
    fn add_pick(&self, choices: &mut Vec<Turn>, place: u16, pick: u32) -> Result<(), Halt>
        ensures { OnOk result (AreKept choices.old.items choices.new.items
            × (may_have_pick self.now.freedom.picks self.now.script.now place (Some pick) ≡ true
            → Has choices.new.items (turn_of place (Some pick)))) }
    {
        let pick = Some(pick);
        if !may_have(self.freedom.picks, self.script.lines(), place, pick) {
            return Ok(());
        }
        add(choices, Turn::Line { place, pick })
    }

    // Adds the line at a place as it is written, and with each pick that it may have below a number.
    fn add_picks(&self, choices: &mut Vec<Turn>, place: u16, below: u32) -> Result<(), Halt>
        ensures { OnOk result (HavePicks self.now.freedom self.now.script.now
            choices.old.items choices.new.items place below) }
    {
        add(choices, Turn::Line { place, pick: None })?;
        for pick in 0..below {
            self.add_pick(choices, place, pick)?;
        }
        Ok(())
    }

    // Adds the line at a place with each pick that it may have, if it may come.
    fn add_line(&self, choices: &mut Vec<Turn>, standing: &Standing, place: u16) -> Result<(), Halt>
        ensures { OnOk result (AreKept choices.old.items choices.new.items
            × (scripts.may_come self.now.script.now standing.now.kernel standing.now.rest place
            ≡ true → HaveAllPicks self.now.freedom self.now.script.now choices.new.items place)) }
    {
        let script = self.script.lines();
        if !standing.rest.may_come(script, &standing.kernel, place) {
            return Ok(());
        }
        let below = picks_below(self.freedom.picks, script, place);
        self.add_picks(choices, place, below)
    }

    // Adds each line that may come, with its picks.
    fn add_lines(&self, choices: &mut Vec<Turn>, standing: &Standing) -> Result<(), Halt>
        ensures { OnOk result (HaveLines self.now.freedom self.now.script.now
            standing.now.kernel standing.now.rest choices.old.items choices.new.items
            (length standing.now.rest.left)) }
    {
        for place in standing.rest.left() {
            self.add_line(choices, standing, *place)?;
        }
        Ok(())
    }

    // Whether time may pass.
    fn may_pass(&self, standing: &Standing) -> bool
        ensures { result ≡ is_some (scripts.asked_by self.now.freedom self.now.script.now
            standing.now.kernel standing.now.rest Pass) }
    {
        let script = self.script.lines();
        let (kernel, rest) = (&standing.kernel, &standing.rest);
        rest.may_take(script, self.freedom, kernel, Turn::Time)
            && rest.request_in(script, kernel, Turn::Time).is_some()
    }

    // Adds that time passes, if it may.
    fn add_time(&self, choices: &mut Vec<Turn>, standing: &Standing) -> Result<(), Halt>
        ensures { OnOk result (AreKept choices.old.items choices.new.items
            × (is_some (scripts.asked_by self.now.freedom self.now.script.now
            standing.now.kernel standing.now.rest Pass) ≡ true → Has choices.new.items Pass)) }
    {
        if self.may_pass(standing) {
            add(choices, Turn::Time)
        } else {
            Ok(())
        }
    }
}

impl<'a> Schedules for Space<'a> {
    ghost use Rattle.ada_explore.specs.Scripts.{scripted};
    ghost use Rattle.ada_explore.specs.Sameness.{SameRest};

    type Rest = Rest;

    type Choice = Turn;

    ghost told = { λ space. scripted space.freedom space.script.now };

    ghost same = { λ space. SameRest space.script.now };

    fn start(&self) -> Result<Rest, Halt> {
        let names = self.script.names().map_err(|_| Halt::Memory)?;
        Rest::new(self.alloc, self.script.lines(), self.freedom, names)
    }

    fn copy(&self, rest: &Rest) -> Result<Rest, Halt> {
        rest.copy(self.alloc)
    }

    fn choices(&self, standing: &Standing) -> Result<Vec<Turn>, Halt> {
        let mut choices = Vec::new(self.alloc);
        self.add_time(&mut choices, standing)?;
        self.add_lines(&mut choices, standing)?;
        Ok(choices)
    }

    fn take(&self, standing: &mut Standing, choice: Turn) -> Result<Option<Refusal>, Halt> {
        let script = self.script.lines();
        let (kernel, rest) = (&standing.kernel, &standing.rest);
        if rest.may_take(script, self.freedom, kernel, choice) {
            perform(script, standing, choice)
        } else {
            Err(Halt::NoChoice)
        }
    }

    fn is_same(&self, names: &Renaming, old: &Standing, new: &Standing) -> bool {
        old.rest.leaves_same(&new.rest)
            && say_alike(self.script.lines(), &old.rest, &new.rest, names)
    }

    fn kept(&self, standing: &Standing) -> Result<Kept, AllocError> {
        let script = self.script.lines();
        let named = named_tasks(script, &standing.rest);
        let blocks = named_blocks(self.alloc, script, &standing.rest)?;
        Kept::of(self.alloc, &standing.kernel, &named, &blocks)
    }

    fn write_rest(&self, rest: &Rest, key: &mut KeyWriter<'_, '_>) -> Result<(), AllocError> {
        for place in &rest.left {
            key.number(*place)?;
        }
        key.number(u16::MAX)?;
        write_declared(key, self.script.lines(), rest)
    }

    fn speaks(&self) {}
}
