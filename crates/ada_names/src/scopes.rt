//! What is visible (8.3).

ghost use Rattle.std.specs.Prelude.{◌≡◌, ◌-◌, ◌<◌, ℕ, None, [], ◌∷◌, length, drop, get_or, option_map, OnOk, OnErr};
ghost use Rattle.ada_names.specs.internal.Visibility.{innermost, meaning_within};

use crate::meaning::Meaning;
use crate::symbols::Symbol;
use std::alloc::{AllocError, Global};
use std::marker::Model;

/// What a declaration declares, and how many declarations stand outside of it.
#[derive(Clone, Copy)]
pub struct Visible {
    pub meaning: Meaning,
    pub outside: usize,
}

/// A name that is declared.
#[derive(Clone, Copy)]
pub struct Entity {
    pub symbol: Symbol,
    pub meaning: Meaning,
    /// The declaration of the same name that it hides or overloads.
    pub hidden: Option<Visible>,
}

/// The names that are declared in what encloses a place of the text. Contracts see them as a list, the innermost first.
#[derive(Drop)]
pub struct Scopes {
    /// The innermost last.
    entities: Vec<Entity>,
    /// The innermost declaration of each name.
    table: Vec<Option<Visible>>,
}

impl Model for Scopes {
    ghost use Rattle.std.specs.Prelude.{List, reverse};
    ghost use Rattle.ada_names.specs.declared.scopes.Entity.{Entity};
    ghost use Rattle.ada_names.specs.internal.Visibility.{AreKept};

    ghost Value = { List Entity };

    ghost view = { λ s. reverse s.entities.items };

    ghost invariant = { λ s. AreKept (reverse s.entities.items) s.table.items };
}

/// Makes a place for a name in a table.
fn make_room(table: &mut Vec<Option<Visible>>, symbol: usize) -> Result<(), AllocError>
    ensures room { OnOk result (symbol < length table.new.items) }
    ensures same { (k : ℕ) → get_or table.new.items k None ≡ get_or table.old.items k None }
{
    'room: while table.len() <= symbol {
        table.push(None)?;
    }
    Ok(())
}

impl Scopes {
    /// No names.
    pub fn new(alloc: Global) -> Self
        ensures { result ≡ [] }
    {
        Scopes {
            entities: Vec::new(alloc),
            table: Vec::new(alloc),
        }
    }

    /// How many names are declared.
    pub fn len(&self) -> usize
        ensures { result ≡ length self.now }
    {
        self.entities.len()
    }

    /// The innermost declaration of a name.
    fn visible(&self, symbol: Symbol) -> Option<Visible>
        ensures { result ≡ innermost self.now symbol.0 }
    {
        *self.table.get(symbol.0)?
    }

    /// What a name denotes.
    pub fn meaning(&self, symbol: Symbol) -> Option<Meaning>
        ensures { result ≡ option_map (λ visible. visible.meaning) (innermost self.now symbol.0) }
    {
        self.visible(symbol).map(|visible| visible.meaning)
    }

    /// What a name denotes, if at least so many declarations stand outside of its own.
    pub fn meaning_from(&self, symbol: Symbol, first: usize) -> Option<Meaning>
        ensures { result ≡ meaning_within first (innermost self.now symbol.0) }
    {
        match self.visible(symbol) {
            Some(visible) if first <= visible.outside => Some(visible.meaning),
            _ => None,
        }
    }

    /// What the innermost declaration of a name declares among those with indices from the first one to before the end.
    pub fn meaning_between(&self, symbol: Symbol, first: usize, end: usize) -> Option<Meaning> {
        self.entities
            .iter()
            .take(end)
            .skip(first)
            .rev()
            .find(|entity| entity.symbol == symbol)
            .map(|entity| entity.meaning)
    }

    /// Declares a name, and keeps all as it was where memory is wanting.
    pub fn declare(&mut self, symbol: Symbol, meaning: Meaning) -> Result<(), AllocError>
        ensures ok { OnOk result (self.new ≡ record {
          symbol = symbol;
          meaning = meaning;
          hidden = innermost self.old symbol.0;
        } ∷ self.old) }
        ensures err { OnErr result (self.new ≡ self.old) }
    {
        let hidden = self.visible(symbol);
        let outside = self.entities.len();
        make_room(&mut self.table, symbol.0)?;
        self.entities.push(Entity {
            symbol,
            meaning,
            hidden,
        })?;
        self.table[symbol.0] = Some(Visible { meaning, outside });
        Ok(())
    }

    /// Forgets the innermost declaration.
    fn forget(&mut self)
        ensures { self.new ≡ drop 1 self.old }
    {
        if let Some(entity) = self.entities.pop() {
            self.table[entity.symbol.0] = entity.hidden;
        }
    }

    /// Forgets all but so many declarations.
    pub fn close(&mut self, first: usize)
        ensures { self.new ≡ drop (length self.old - first) self.old }
    {
        'names: while self.len() > first {
            self.forget();
        }
    }
}
