//! The account of a play.
ghost use Rattle.std.specs.Prelude.{◌≡◌, IfOk, IfErr};
ghost use Rattle.ada_replay.specs.Ends.{state};
ghost use Rattle.ada_replay.specs.Replay.{beginning};
ghost use Rattle.ada_replay.specs.Accounts.{Accounts};

use crate::play::say;
use crate::witness::{Nobody, Refused, Witness};
use crate::{Answer, RunFault};
use ada_kernel::Kernel;
use ada_script::{Line, Names, Script};
use std::alloc::Global;

/// What a play of a script came to.
#[derive(Drop)]
pub struct Account {
    /// The lines of the script that aren't skipped, in their order.
    pub lines: Vec<Line>,
    /// The answer to each of them.
    pub answers: Vec<Answer>,
    /// What they printed: a line for each event, refusal and shown attribute, as a replay prints it.
    pub text: Vec<u8>,
    /// The kernel after the last of them.
    pub kernel: Kernel,
    /// The names of the script, with what they are bound to then.
    pub names: Names,
}

// Tells a witness of a line if it was refused.
fn tell<W: Witness>(
    witness: &mut W,
    kernel: &Kernel,
    names: &Names,
    lines: &[Line],
    line: &Line,
    answer: Answer,
) -> Result<(), RunFault>
    ensures err { IfErr result (λ fault. fault ≡ RunFault.Memory) }
{
    let Answer::Refused(cause) = answer else {
        return Ok(());
    };
    let refused = Refused {
        kernel,
        names,
        lines,
        statement: &line.statement,
        cause,
    };
    witness.note(refused).map_err(|_| RunFault::Memory)
}

// Plays some lines, one after another: their answers, and what they print.
fn answers_to<W: Witness>(
    alloc: Global,
    kernel: &mut Kernel,
    names: &mut Names,
    lines: &[Line],
    witness: &mut W,
) -> Result<(Vec<Answer>, Vec<u8>), RunFault>
    ensures ok { IfOk result (λ played.
        Accounts lines.now (state kernel.old names.old) played.0.items played.1.items
        (state kernel.new names.new)) }
    ensures err { IfErr result (λ fault. fault ≡ RunFault.Memory) }
{
    let mut answers = Vec::new(alloc);
    let mut text = Vec::new(alloc);
    for line in lines {
        let answer = say(kernel, names, line, &mut text)?;
        tell(witness, kernel, names, lines, line, answer)?;
        answers.push(answer).map_err(|_| RunFault::Memory)?;
    }
    Ok((answers, text))
}

/// Plays a script on a kernel of its own. An `Err` is `Memory`.
pub fn account_of(alloc: Global, script: Script) -> Result<Account, RunFault>
    ensures ok { IfOk result (λ account. (account.lines.items ≡ script)
        × Accounts script (beginning script) account.answers.items account.text.items
        (state account.kernel account.names)) }
    ensures err { IfErr result (λ fault. fault ≡ RunFault.Memory) }
{
    account_before(alloc, script, &mut Nobody)
}

/// Plays a script on a kernel of its own before a witness of its refused lines. An `Err` is `Memory`.
pub fn account_before<W: Witness>(
    alloc: Global,
    script: Script,
    witness: &mut W,
) -> Result<Account, RunFault>
    ensures ok { IfOk result (λ account. (account.lines.items ≡ script)
        × Accounts script (beginning script) account.answers.items account.text.items
        (state account.kernel account.names)) }
    ensures err { IfErr result (λ fault. fault ≡ RunFault.Memory) }
{
    let (lines, mut names) = script.into_parts().map_err(|_| RunFault::Memory)?;
    let mut kernel = Kernel::new(alloc).map_err(|_| RunFault::Memory)?;
    let (answers, text) = answers_to(alloc, &mut kernel, &mut names, &lines, witness)?;
    Ok(Account {
        lines,
        answers,
        text,
        kernel,
        names,
    })
}
