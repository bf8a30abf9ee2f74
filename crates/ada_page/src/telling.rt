//! What is told of a play: its rows, and in the last row of each line what stands that isn't as it was told last.

use crate::changing::Changing;
use crate::circles::Circles;
use crate::nests::write_nests;
use crate::queues::Queues;
use crate::rows::Rows;
use crate::standing::Standing;
use crate::texts::{put_member, put_quoted};
use crate::whys::{Change, Waits, Whys, change_lives};
use ada_explain::Scene;
use ada_explain::clients::Clients;
use ada_explain::end::End;
use ada_explain::refusals::write_refused;
use ada_explain::sentences::Sentences;
use ada_explain::standstill::write_verdict;
use ada_kernel::Kernel;
use ada_replay::{Answer, Refused};
use ada_script::{Line, Names};
use ada_waiting::Verdict;
use std::alloc::{AllocError, Global};

/// Tells of a play, moment after moment.
#[derive(Drop)]
pub struct Teller {
    rows: Rows,
    clients: Clients,
    /// How many events the clients are of.
    taken: usize,
    queues: Queues,
    circling: Circles,
    whys: Whys,
    nests: Changing,
    circles: Changing,
    verdict: Changing,
    /// The verdict that was told last, if one was.
    ended: Option<Verdict>,
    sentences: Sentences,
    /// Room for a sentence.
    sentence: String,
}

/// What was told of a play.
#[derive(Drop)]
pub struct Told {
    /// The rows of the beginning and of each printed line, a list of objects whose last one is open.
    pub rows: String,
    /// Why each refused line was refused.
    pub sentences: Sentences,
}

/// What a line was answered, what was printed after it, and what stood in queues before it and after each event.
#[derive(Clone, Copy)]
pub struct Said<'a> {
    pub line: &'a Line,
    pub answer: Answer,
    pub printed: &'a [u8],
    pub queued: &'a [Vec<u32>],
}

impl Teller {
    /// Nothing was told yet.
    pub fn new(alloc: Global) -> Result<Self, AllocError> {
        Ok(Teller {
            rows: Rows::new(alloc)?,
            clients: Clients::new(alloc)?,
            taken: 0,
            queues: Queues::new(alloc),
            circling: Circles::new(alloc),
            whys: Whys::new(alloc),
            nests: Changing::new(alloc),
            circles: Changing::new(alloc),
            verdict: Changing::new(alloc),
            ended: None,
            sentences: Sentences::new(alloc),
            sentence: String::new(alloc),
        })
    }

    /// Tells what stands in a kernel whose journal is empty.
    pub fn begin(
        &mut self,
        kernel: &Kernel,
        names: &Names,
        standing: &Standing,
    ) -> Result<(), AllocError> {
        let scene = Scene::of(kernel, names);
        self.queues.tell(&mut self.rows.out, scene, &[])?;
        self.tell(kernel, names, standing)
    }

    // Tells what stands in a kernel now, but for its queues.
    fn tell(
        &mut self,
        kernel: &Kernel,
        names: &Names,
        standing: &Standing,
    ) -> Result<(), AllocError> {
        let scene = Scene::of(kernel, names);
        let newer = scene.events.get(self.taken..).unwrap_or(&[]);
        self.clients.take(scene.events, newer)?;
        self.taken = scene.events.len();
        let change = Change {
            runs: self.whys.is_other_run(standing),
            lives: change_lives(newer),
        };
        let end = End { scene };
        self.put_standing(&end, standing, change)?;
        self.put_verdict(&end, standing.verdict, change)
    }

    /// Tells what a line was answered, and what stands after it, or why it was refused, if it was: then nothing has
    /// changed.
    pub fn tell_line(
        &mut self,
        kernel: &Kernel,
        names: &Names,
        lines: &[Line],
        said: Said<'_>,
        standing: &Standing,
    ) -> Result<(), AllocError> {
        let scene = Scene::of(kernel, names);
        self.rows.write_answer(scene, said, &mut self.queues)?;
        let Answer::Refused(cause) = said.answer else {
            return self.tell(kernel, names, standing);
        };
        let refused = Refused {
            kernel,
            names,
            lines,
            statement: &said.line.statement,
            cause,
        };
        self.put_refused(refused)
    }

    fn put_refused(&mut self, refused: Refused<'_>) -> Result<(), AllocError> {
        let mut why = String::new(*self.sentence.allocator());
        write_refused(&mut why, refused)?;
        put_member(&mut self.rows.out, ",\"why\":", &why)?;
        self.sentences.sentences.push(why)?;
        Ok(())
    }

    /// What was told.
    pub fn into_told(self) -> Told {
        let rows = self.rows;
        Told {
            rows: rows.into_text(),
            sentences: self.sentences,
        }
    }

    fn put_standing<'x>(
        &mut self,
        end: &'x End<'x>,
        standing: &'x Standing,
        change: Change,
    ) -> Result<(), AllocError> {
        let out = &mut self.rows.out;
        let whys = Waits {
            end,
            standing,
            clients: &self.clients,
            change,
        };
        self.whys.tell(out, &whys)?;
        write_nests(self.nests.anew(), end.scene, standing)?;
        self.nests.put(out, ",\"nests\":")?;
        self.circling
            .write(self.circles.anew(), end, standing, &self.queues)?;
        self.circles.put(out, ",\"circles\":")
    }

    fn put_verdict(
        &mut self,
        end: &End<'_>,
        verdict: Verdict,
        change: Change,
    ) -> Result<(), AllocError> {
        let out = &mut self.rows.out;
        let ended = Some(verdict);
        if change.runs || self.ended != ended {
            self.ended = ended;
            self.sentence.clear();
            write_ending(&mut self.sentence, end, verdict)?;
            put_quoted(self.verdict.anew(), self.sentence.trim())?;
            self.verdict.put(out, ",\"verdict\":")?;
        }
        Ok(())
    }
}

fn write_ending(text: &mut String, end: &End<'_>, verdict: Verdict) -> Result<(), AllocError> {
    if verdict == Verdict::Finished {
        text.push_str("The main program is terminated.")
    } else {
        write_verdict(text, end, verdict)
    }
}
