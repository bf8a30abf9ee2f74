//! Laws of scripts. A law is the contract of a function that does nothing.

ghost use Rattle.std.specs.Prelude.{◌≡◌, ℕ, List};
ghost use Rattle.ada_script.specs.Script.{IsScript, IsFirstFault};
ghost use Rattle.ada_statements.specs.declared.fault.ScriptFault.{ScriptFault};
ghost use Rattle.ada_script.specs.declared.script.Line.{Line};

/// A text is a script of one list of lines only: each line says one thing.
pub fn one_reading()
    ensures { (text : List ℕ) (lines others : List Line) → IsScript text lines
        → IsScript text others → lines ≡ others }
{}

/// A text with a line that isn't acceptable is no script.
pub fn no_reading()
    ensures { (text : List ℕ) (fault : ScriptFault) (lines : List Line) → IsFirstFault text fault
        → IsScript text lines → ⊥ }
{}

/// The first line of a text that isn't acceptable is one line.
pub fn one_fault()
    ensures { (text : List ℕ) (fault other : ScriptFault) → IsFirstFault text fault
        → IsFirstFault text other → fault.line ≡ other.line }
{}
