//! Why a text isn't of the subset.

use crate::kind::Kind;
use crate::place::Place;
use std::alloc::{AllocError, AllocFailed};
use std::fmt;
use thiserror::Error;

/// What could stand where another word stands.
#[derive(Clone, Copy, Debug, PartialEq, Eq)]
pub enum Wanted {
    /// This word.
    Word(Kind),
    /// An expression (4.4).
    Expression,
    /// A statement (5.1).
    Statement,
    /// A declaration (3.1) or `begin`.
    Declaration,
    /// The definition of a type (3.3.1).
    TypeDefinition,
    /// An alternative of a select statement (9.7).
    Alternative,
    /// An attribute of the subset (4.1.4).
    Attribute,
    /// A call (6.4) or an assignment (5.2).
    CallOrAssignment,
}

impl fmt::Display for Wanted {
    fn fmt<W: fmt::Write>(&self, f: &mut fmt::Formatter<W>) -> fmt::Result {
        match *self {
            Wanted::Word(kind) => write!(f, "{kind}"),
            Wanted::Expression => f.write_str("an expression"),
            Wanted::Statement => f.write_str("a statement"),
            Wanted::Declaration => f.write_str("a declaration or begin"),
            Wanted::TypeDefinition => f.write_str("the definition of a type"),
            Wanted::Alternative => f.write_str("accept, delay, terminate or an entry call"),
            Wanted::Attribute => f.write_str("an attribute of the subset"),
            Wanted::CallOrAssignment => f.write_str("a call or an assignment"),
        }
    }
}

/// What is wrong with a text.
#[derive(Clone, Copy, Debug, PartialEq, Eq, Error)]
pub enum Cause {
    /// More than 1 MiB.
    #[error("the text is longer than 1 MiB")]
    TextTooLong,
    /// More than 64 levels.
    #[error("statements, declarations or parentheses are nested more than 64 levels deep")]
    NestedTooDeep,
    /// More than 65,536 of a kind.
    #[error("the text has more than 65536 expressions, statements or declarations")]
    TooMany,
    /// A byte that begins no word (2.1).
    #[error("this character begins no word")]
    BadCharacter,
    /// A byte above 127 outside of a comment or a string literal.
    #[error("characters beyond ASCII stand in comments and strings alone")]
    NotAscii,
    /// A string literal without its end in the same line (2.6).
    #[error("the string has no end in its line")]
    OpenText,
    /// An identifier with two underscores in a row or one at its end (2.3).
    #[error("the name isn't well formed")]
    BadName,
    /// A numeric literal that isn't well formed (2.4), or that a letter follows (2.2).
    #[error("the number isn't well formed")]
    BadNumber,
    /// A number beyond 64 bits.
    #[error("the number is too large")]
    NumberTooLarge,
    /// Another word was wanted.
    #[error("{wanted} is wanted here, and there is {found}")]
    Unexpected { wanted: Wanted, found: Kind },
    /// `and`, `or`, `xor`, `and then` and `or else` in one expression (4.4).
    #[error("different logical operators in one expression want parentheses")]
    MixedOperators,
    /// Neither two bounds nor the attribute RANGE (3.5).
    #[error("a range is wanted here")]
    NoRange,
    /// Neither a range nor the name of a subtype (3.6.1).
    #[error("a range or the name of a subtype is wanted here")]
    NoDiscreteRange,
    /// A declaration that has to stand before all bodies (3.9).
    #[error("this has to be declared before the first body")]
    LateDeclaration,
    /// A selective wait that accepts no call (9.7.1).
    #[error("a selective wait wants an accept alternative")]
    NoAcceptAlternative,
    /// Two of `terminate`, `delay` and `else`, or `terminate` twice, or with statements after it (9.7.1).
    #[error("terminate stands alone, and neither terminate nor delay beside else")]
    ExclusiveAlternatives,
    /// An entry call with a guard, or with other alternatives than one delay or an else part (9.7.2, 9.7.3).
    #[error("beside an entry call stands a delay alternative or an else part")]
    CallAlternatives,
    /// The name after `end` is another one.
    #[error("this isn't the name that is ended here")]
    OtherName,
    /// 3.8.
    #[error("access types aren't in the subset")]
    AccessTypes,
    /// 3.7.
    #[error("records aren't in the subset")]
    Records,
    /// 3.6.
    #[error("arrays with several dimensions aren't in the subset")]
    SeveralDimensions,
    /// 3.6.
    #[error("unconstrained arrays aren't in the subset")]
    UnconstrainedArrays,
    /// 3.5.6.
    #[error("fixed and floating types aren't in the subset")]
    RealTypes,
    /// 3.4.
    #[error("derived types aren't in the subset")]
    DerivedTypes,
    /// 3.2.
    #[error("number declarations aren't in the subset")]
    NumberDeclarations,
    /// 7.4.
    #[error("private types aren't in the subset")]
    PrivateTypes,
    /// 7.
    #[error("packages aren't in the subset")]
    Packages,
    /// 12.
    #[error("generic units aren't in the subset")]
    Generics,
    /// 5.9.
    #[error("goto statements and labels aren't in the subset")]
    Labels,
    /// 10.2.
    #[error("separate bodies aren't in the subset")]
    Separate,
    /// 8.5.
    #[error("renaming isn't in the subset")]
    Renaming,
    /// 8.4.
    #[error("use clauses but of TEXT_IO aren't in the subset")]
    UseClauses,
    /// 10.1.1.
    #[error("context clauses but of TEXT_IO aren't in the subset")]
    ContextClauses,
    /// 13.
    #[error("representation clauses aren't in the subset")]
    RepresentationClauses,
    /// 6.1.
    #[error("default values of parameters aren't in the subset")]
    DefaultValues,
    /// 6.7.
    #[error("operators as functions aren't in the subset")]
    OperatorFunctions,
    /// 4.1.2.
    #[error("a range is no value, and slices aren't in the subset")]
    Slices,
    /// 5.8.
    #[error("return out of an accept statement isn't in the subset")]
    ReturnOfAccept,
    /// A use clause without a with clause before it (8.4).
    #[error("a use clause wants a with clause of its package before it")]
    UseWithoutWith,
    /// No declaration of this name is visible (8.3).
    #[error("this name isn't declared")]
    NotDeclared,
    /// The declaration of this name comes later, or isn't over (8.3).
    #[error("this name is used before it is declared")]
    UsedBeforeDeclaration,
    /// A name of TEXT_IO without the clauses that make it visible (8.4, 14.3).
    #[error("this name wants `with TEXT_IO; use TEXT_IO;` before the procedure")]
    TextIoNotNamed,
    /// Two declarations of one name in one declarative region (8.3).
    #[error("this name is declared twice in one declarative region")]
    DeclaredTwice,
    /// Two subprograms or entries of one name in one declarative region (6.6, 9.5).
    #[error("overloading of subprograms and of entries isn't in the subset")]
    Overloading,
    /// A name after a point that is declared in no enclosing unit, block or loop of the prefix (4.1.3).
    #[error("the prefix has no such name that is visible here")]
    NoSuchSelector,
    /// A name after that of a task and a point, or in an accept statement (9.5).
    #[error("the task has no entry of this name")]
    NoSuchEntry,
    /// 14.3.
    #[error("of TEXT_IO only PUT, PUT_LINE and NEW_LINE are in the subset")]
    OfTextIo,
    /// A body of a task without its declaration in the same declarative part (9.1).
    #[error("the task of this body isn't declared before it in the same declarative part")]
    BodyWithoutDeclaration,
    /// A task or a subprogram without its body in the same declarative part (3.9).
    #[error("the body of this doesn't come in the same declarative part")]
    NoBody,
    /// 3.9.
    #[error("this has a body already")]
    SecondBody,
    /// A body that isn't headed as its subprogram is declared (6.3.1).
    #[error("parameters and result aren't those of the subprogram's declaration")]
    OtherSpecification,
    /// An accept statement with other parameters than its entry (9.5).
    #[error("the parameters aren't those of the entry")]
    OtherParameters,
    /// 9.5.
    #[error("an entry of a family is accepted with its index, and a single entry without")]
    FamilyIndex,
    /// 9.5.
    #[error("an accept statement stands in the body of its task, and in no inner body")]
    AcceptOutsideOfTask,
    /// 9.5.
    #[error("an accept statement doesn't stand within another one of the same entry")]
    AcceptWithinAccept,
    /// 5.7.
    #[error("an exit statement stands in a loop, and leaves no body and no accept statement")]
    ExitOutsideOfLoop,
    /// 5.7.
    #[error("no loop of this name encloses the exit statement")]
    NoSuchLoop,
    /// 5.8.
    #[error("a return statement stands in the body of a subprogram")]
    ReturnOutsideOfSubprogram,
    /// 11.3.
    #[error("a raise statement without a name stands in an exception handler")]
    RaiseOutsideOfHandler,
    /// A raise statement or a handler of something else (11.2, 11.3).
    #[error("this isn't an exception")]
    NoException,
    /// 11.2.
    #[error("this exception has a handler already")]
    HandledTwice,
    /// 11.2.
    #[error("others stands alone, in the last handler")]
    OthersNotLast,
    /// A value, an object or a range of another type than its place wants (4.4, 5.2, 6.4.1).
    #[error("this isn't of the type that is wanted here")]
    WrongType,
    /// An enumeration literal that overloads others, or an aggregate, whose type nothing determines (8.7).
    #[error("nothing says of which type this is: qualify it")]
    UnknownType,
    /// A type, a procedure, an entry or an exception in place of a value (4.4).
    #[error("a value is wanted here")]
    NoValue,
    /// Something else than a type or a subtype (3.3.2).
    #[error("the name of a type or a subtype is wanted here")]
    NoSubtype,
    /// Something else than a discrete type (3.5), a scalar one for a membership test.
    #[error("this isn't of a discrete type")]
    NotDiscrete,
    /// A bound or a choice whose value isn't static (4.9).
    #[error("this has to be static")]
    NotStatic,
    /// A static value beyond the range of its base type (3.5.4, 4.10).
    #[error("the value lies outside of the range of its type")]
    ValueOutside,
    /// A static divisor of 0 (4.5.5).
    #[error("the divisor is zero")]
    DivisionByZero,
    /// Bounds like -1 .. 1, which are neither literals nor attributes, of no type (3.6.1).
    #[error("these bounds don't say of which type they are: write INTEGER range before them")]
    UniversalRange,
    /// A range with values that its type or subtype doesn't have (3.3.2, 3.5.4).
    #[error("the range lies outside of its type")]
    RangeOutside,
    /// An operator that operands of this type don't have (4.5).
    #[error("this operator isn't there for operands of this type")]
    NoOperator,
    /// 4.5.
    #[error("of operators on arrays only = and /= are in the subset")]
    ArrayOperators,
    /// 4.6.
    #[error("there is no conversion between these types")]
    NoConversion,
    /// An attribute of something that doesn't have it (4.1.4).
    #[error("the attribute doesn't fit what stands before it")]
    WrongPrefix,
    /// COUNT of an entry outside of the body of its task (9.9).
    #[error("COUNT stands in the body of the entry's task, and in no inner body")]
    CountElsewhere,
    /// 3.6.3.
    #[error("strings are written by PUT and PUT_LINE, and otherwise aren't in the subset")]
    Strings,
    /// 3.6.
    #[error("arrays of arrays aren't in the subset")]
    ArraysOfArrays,
    /// An array of more than 65,536 components.
    #[error("an array has at most 65536 components")]
    ArrayTooLong,
    /// A family of more than 65,536 entries.
    #[error("a family has at most 65536 entries")]
    FamilyTooLong,
    /// 3.2.1.
    #[error("a constant wants a value")]
    ConstantWithoutValue,
    /// An initial value, an assignment, a comparison or a constant of tasks (9.2).
    #[error("tasks are neither constants, nor assigned or compared")]
    TaskValues,
    /// A parameter or a result that is a task or an array of tasks.
    #[error("tasks as parameters aren't in the subset")]
    TaskParameters,
    /// A task or an object of a task type that a subprogram declares.
    #[error("tasks within subprograms aren't in the subset")]
    TasksInSubprogram,
    /// A constant, a parameter of mode `in` or of a loop, or no object at all (5.2, 6.4.1).
    #[error("a variable is wanted here")]
    NoVariable,
    /// 6.2.
    #[error("a parameter of mode out isn't read")]
    OutParameterRead,
    /// A component without one index (4.1.1).
    #[error("a component of an array has one index, by its position")]
    WrongIndex,
    /// Something with parentheses behind it that is neither an array, a type, a subprogram nor an entry (4.1, 6.4).
    #[error("nothing in parentheses may follow this")]
    NotCallable,
    /// A statement that calls neither a procedure nor an entry (6.4, 9.5).
    #[error("a procedure or an entry is wanted here")]
    NoProcedure,
    /// A conditional or timed entry call of something else (9.7.2, 9.7.3).
    #[error("an entry call is wanted here")]
    NoEntryCall,
    /// A call with too few or too many arguments (6.4.1).
    #[error("there are not as many arguments as parameters")]
    ArgumentCount,
    /// A name before an arrow that isn't one of the parameters (6.4.1).
    #[error("there is no parameter of this name")]
    NoSuchParameter,
    /// 6.4.1.
    #[error("this parameter has an argument already")]
    ArgumentTwice,
    /// Something by its position after something by its name (4.3, 6.4).
    #[error("by position nothing stands after what has a name or a choice")]
    PositionAfterName,
    /// 9.5.
    #[error("an entry of a family is called with its index, and a single entry without")]
    FamilyIndexOfCall,
    /// An abort statement or an attribute of something else than a task (9.9, 9.10).
    #[error("a task is wanted here")]
    NoTask,
    /// 5.3.
    #[error("a condition is of type BOOLEAN")]
    NoCondition,
    /// A choice with a value that another one has (4.3.2, 5.4).
    #[error("this choice has a value that another one has")]
    ChoiceTwice,
    /// A choice with a value that isn't chosen from (4.3.2, 5.4).
    #[error("this choice has a value that isn't among those to choose from")]
    ChoiceOutside,
    /// A case statement or an aggregate that lacks a value (4.3.2, 5.4).
    #[error("the choices don't cover all values")]
    ChoiceMissing,
    /// 4.3, 5.4.
    #[error("the choice others stands alone, and last")]
    OthersNotAlone,
    /// 4.3.2.
    #[error("after := an aggregate with others has no other choices")]
    OthersBesideChoices,
    /// An aggregate with `others` as an operand (4.3.2).
    #[error("an aggregate with others stands after :=, return or the name of its type, or as an argument")]
    OthersAsOperand,
    /// An aggregate with some values by position and others by choices (4.3).
    #[error("but for others, all components go by their position, or all by choices")]
    MixedAggregate,
    /// An aggregate of another number of values by position (4.3.2).
    #[error("the array has another number of components")]
    ComponentCount,
    /// 5.8.
    #[error("a return statement of a function wants a value")]
    ReturnWithoutValue,
    /// 5.8.
    #[error("a return statement of a procedure has no value")]
    ReturnWithValue,
    /// 6.5.
    #[error("a function wants a return statement")]
    NoReturn,
    /// 6.5.
    #[error("the parameters of a function are of mode in")]
    FunctionMode,
    /// A function in which its task may wait, so that an expression would be left half evaluated.
    #[error("functions that call entries, delay or abort aren't in the subset")]
    RequestInFunction,
    /// A subprogram that calls itself, perhaps through others (6.4).
    #[error("recursion isn't in the subset")]
    Recursion,
    /// A node that names no node, or stands outside of the text. No text is known that leads to it.
    #[error("the tree isn't whole")]
    BrokenTree,
    /// A growth was refused.
    #[error("memory is wanting")]
    OutOfMemory,
}

/// What is wrong with a text, and where.
#[derive(Clone, Copy, Debug, PartialEq, Eq, Error)]
#[error("{}:{}: {cause}", .place.line, .place.column)]
pub struct Fault {
    pub place: Place,
    pub cause: Cause,
}

/// What is wrong with a text, at the byte with this index.
#[derive(Clone, Copy, Debug)]
pub struct Trouble {
    pub at: u32,
    pub cause: Cause,
}

impl From<AllocError> for Trouble {
    fn from(_: AllocError) -> Self {
        Trouble {
            at: 0,
            cause: Cause::OutOfMemory,
        }
    }
}

impl<T: Drop> From<AllocFailed<T>> for Trouble {
    fn from(_: AllocFailed<T>) -> Self {
        Trouble {
            at: 0,
            cause: Cause::OutOfMemory,
        }
    }
}
