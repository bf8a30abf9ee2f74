//! Types and subtypes (3.3).

ghost use Rattle.std.specs.Prelude.{◌≡◌};
ghost use Rattle.ada_types.specs.Types as types;

use crate::bounds::Bounds;
use ada_text::tree::DeclarationId;

/// The most components of an array, and the most entries of a family.
pub const MOST_COMPONENTS: u32 = 65_536;

/// The range of INTEGER, which is that of the base type of each integer type (3.5.4).
pub const INTEGER_RANGE: Bounds = Bounds {
    low: -2_147_483_648,
    high: 2_147_483_647,
};

/// The range of universal integers here (3.5.4).
pub const UNIVERSAL_RANGE: Bounds = Bounds {
    low: -9_223_372_036_854_775_808,
    high: 9_223_372_036_854_775_807,
};

/// The positions of CHARACTER (3.5.2).
pub const CHARACTER_RANGE: Bounds = Bounds { low: 0, high: 127 };

/// The range of DURATION (9.6) in thousandths of a second: a day.
pub const DURATION_RANGE: Bounds = Bounds {
    low: -86_400_000,
    high: 86_400_000,
};

/// The index of a type among those of a text.
#[derive(Clone, Copy, Debug, PartialEq, Eq, Hash)]
pub struct TypeId(pub usize);

impl TypeId {
    /// INTEGER (3.5.4).
    pub const INTEGER: TypeId = TypeId(0);
    /// BOOLEAN (3.5.3).
    pub const BOOLEAN: TypeId = TypeId(1);
    /// CHARACTER (3.5.2).
    pub const CHARACTER: TypeId = TypeId(2);
    /// The type of integer literals (2.4), which converts to each integer type (4.6).
    pub const UNIVERSAL: TypeId = TypeId(3);
    /// DURATION (9.6), and the type of real literals.
    pub const DURATION: TypeId = TypeId(4);
    /// STRING (3.6.3): what PUT and PUT_LINE write.
    pub const TEXT: TypeId = TypeId(5);
}

/// What a type is.
#[derive(Clone, Copy, Debug, PartialEq, Eq)]
pub enum TypeForm {
    /// An integer type (3.5.4), with the range of its first named subtype.
    Integer(Bounds),
    /// An enumeration type (3.5.1): its declaration, if it isn't BOOLEAN, and the number of its literals.
    Enumeration {
        owner: Option<DeclarationId>,
        count: u32,
    },
    /// CHARACTER (3.5.2).
    Character,
    /// The type of integer literals (2.4).
    Universal,
    /// DURATION (9.6).
    Duration,
    /// STRING (3.6.3).
    Text,
    /// An array type (3.6): the subtype of its index, and that of its components.
    Array {
        index: Subtype,
        component: Subtype,
    },
    /// The type of the tasks with this declaration (9.1).
    Task(DeclarationId),
}

impl TypeForm {
    /// The range of the base type, if that is scalar (3.5).
    pub fn range(self) -> Option<Bounds>
        ensures { result ≡ types.range_of self }
    {
        match self {
            TypeForm::Integer(_) => Some(INTEGER_RANGE),
            TypeForm::Enumeration { count, .. } => Some(Bounds {
                low: 0,
                high: i64::from(count) - 1,
            }),
            TypeForm::Character => Some(CHARACTER_RANGE),
            TypeForm::Universal => Some(UNIVERSAL_RANGE),
            TypeForm::Duration => Some(DURATION_RANGE),
            TypeForm::Text | TypeForm::Array { .. } | TypeForm::Task(_) => None,
        }
    }

    /// Whether this is an integer type (3.5.4), also that of literals.
    pub fn is_integer(self) -> bool
        ensures { result ≡ types.is_integer self }
    {
        matches!(self, TypeForm::Integer(_) | TypeForm::Universal)
    }

    /// Whether this is a discrete type (3.5).
    pub fn is_discrete(self) -> bool
        ensures { result ≡ types.is_discrete self }
    {
        self.is_integer() || matches!(self, TypeForm::Enumeration { .. } | TypeForm::Character)
    }
}

/// A subtype (3.3): its base type, and its range if that is scalar.
#[derive(Clone, Copy, Debug, PartialEq, Eq)]
pub struct Subtype {
    pub base: TypeId,
    pub bounds: Option<Bounds>,
}

impl Subtype {
    /// The subtype of a scalar type with this range.
    pub fn scalar(base: TypeId, bounds: Bounds) -> Self
        ensures { result ≡ types.scalar base bounds }
    {
        Subtype {
            base,
            bounds: Some(bounds),
        }
    }

    /// The only subtype of a type that isn't scalar.
    pub fn composite(base: TypeId) -> Self
        ensures { result ≡ types.composite base }
    {
        Subtype { base, bounds: None }
    }
}
