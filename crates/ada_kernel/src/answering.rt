//! A kernel's answers by what is kept of its journal.

use crate::index::Index;
use ada_events::{Journal, Refusal, Request, Tail};
use ada_steps::Engine;

impl Engine for Index {
    ghost use Rattle.ada_kernel.specs.internal.Indexes.{IsIndexOf};

    ghost stands = { λ index journal. IsIndexOf index journal };

    // Inlined, so that a request whose kind is known there needn't lie in memory.
    #[inline(always)]
    fn begin(&mut self, journal: &mut Journal, request: &Request) -> Result<(), Refusal> {
        match request {
            Request::Open { by } => self.begin_open(journal, *by),
            Request::Create {
                by,
                master,
                families,
            } => self.begin_create(journal, *by, *master, families),
            Request::Activate { by, tasks } => self.begin_activate(journal, *by, tasks),
            Request::Elaborated { by, ok } => self.begin_elaborated(journal, *by, *ok),
            Request::Call {
                by,
                callee,
                entry,
                patience,
            } => self.begin_call(journal, *by, *callee, *entry, *patience),
            Request::Wait {
                by,
                choices,
                tail,
                pick,
            } => match (choices.as_slice().split_first(), tail) {
                (Some((choice, rest)), Tail::Nothing) if rest.is_empty() && choice.guard => {
                    self.begin_accept(journal, *by, choice.entry, *pick)
                }
                _ => self.begin_wait(journal, *by, choices, tail, *pick),
            },
            Request::Delay { by, duration } => self.begin_delay(journal, *by, *duration),
            Request::End { by, raised } => self.begin_end(journal, *by, *raised),
            Request::Close { by } => self.begin_close(journal, *by),
            Request::Complete { by } => self.begin_complete(journal, *by),
            Request::Abort { by, tasks } => self.begin_abort(journal, *by, tasks),
            Request::Tick { now } => self.begin_tick(journal, *now),
        }
    }

    // Inlined, so that no call is made where nothing is forced.
    #[inline(always)]
    fn advance(&mut self, journal: &mut Journal) -> bool {
        while let Some((row, key)) = self.agenda.first() {
            if self.take_first(journal, row, key) {
                return true;
            }
            self.agenda.remove(row, key);
        }
        false
    }
}
