//! A law of plays. A law is the contract of a function that does nothing.

ghost use Rattle.std.specs.Prelude.{◌≡◌, ℕ, List};
ghost use Rattle.ada_replay.specs.Play.{PlayState, Plays};
ghost use Rattle.ada_script.specs.declared.script.Line.{Line};

/// Lines have one play: what they print, and what they lead to, is one text and one state.
#[tactic(auto, using(crate::proofs::OnePlay::plays_once))]
pub fn one_play()
    ensures { (lines : List Line) (old a b : PlayState) (text other : List ℕ)
        → Plays lines old text a
        → Plays lines old other b → (text ≡ other) × (a ≡ b) }
{}
