//! The name under which a hall, its board, its script and the shares of its total go together.

use ada_board::Naming;
use std::marker::Brand;
use std::sync::ledger::Ledger;

/// Which script a hall plays, which board it shows, and of which ledger the shares of its total are. A
/// program picks it where it calls a function that isn't generic in it, with `Brand`.
pub trait Session: Naming + Ledger {
    ghost use Rattle.std.specs.Prelude.{List};
    ghost use Rattle.ada_script.specs.declared.script.Line.{Line};

    ghost script: { List Line };
}

impl Session for Brand {
    ghost use Rattle.std.specs.Prelude.{[]};

    ghost script = { [] };
}
