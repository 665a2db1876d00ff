ghost use Rattle.std.specs.Prelude.{◌≡◌};
ghost use Rattle.ato_base.specs.Faults.{kind_line, kind_number, kind_name};

use crate::{List, Name, NoMemory, Place};

/// What kind of fault stands in the input. The kinds are numbered from 1 in this order.
#[derive(Clone, Copy, Debug, PartialEq, Eq)]
pub enum FaultKind {
    /// The source is not UTF-8.
    BadText,
    /// No token begins here.
    BadChar,
    /// A string has no end.
    OpenString,
    /// A line's depth is no open level.
    BadIndent,
    /// A number leaves the range of fractions.
    WideNumber,
    /// No file begins with the tokens up to this one.
    Syntax,
    /// Too many parentheses stand inside each other.
    TooDeep,
    /// A file is not there, or its name is not plain.
    FileMissing,
    /// A file is longer than its limit.
    FileTooLong,
    /// The project has too many files.
    TooManyFiles,
    /// No such block or import is known.
    NameUnknown,
    /// A name is declared twice.
    NameTwice,
    /// The ancestors of a block never end.
    SuperLoop,
    /// An instance would contain itself.
    NestLoop,
    /// A name or pin label is no member where it stands.
    NoSuchMember,
    /// A replacement is no descendant of the type so far.
    NotSpecial,
    /// The tree of instances is too large.
    TreeTooLarge,
    /// Something stands where its kind may not.
    WrongKind,
    /// Two ends can not be connected.
    CannotConnect,
    /// The catalogue's header is missing or not of the form.
    NoHeader,
    /// A heading stands twice.
    ColumnTwice,
    /// A row has another number of cells than the header, or is not UTF-8.
    BadRow,
    /// A cell is not what its column asks for.
    BadCell,
    /// A part is named by an earlier row.
    PartTwice,
    /// The catalogue has too many rows.
    TooManyRows,
    /// Units are unknown or do not fit together.
    UnitFault,
    /// A quantity that is used has no value.
    Unvalued,
    /// A definition depends on itself.
    DefinitionLoop,
    /// The low end of a range is above its high end.
    EmptyRange,
    /// The problem is beyond a limit.
    ProblemTooLarge,
}

impl FaultKind {
    /// The number and the name of each kind.
    fn line(&self) -> (u8, &'static str)
        ensures number { result.0 ≡ (kind_line self.now).0 }
        ensures name { result.1.now ≡ (kind_line self.now).1 }
    {
        match self {
            FaultKind::BadText => (1, "BadText"),
            FaultKind::BadChar => (2, "BadChar"),
            FaultKind::OpenString => (3, "OpenString"),
            FaultKind::BadIndent => (4, "BadIndent"),
            FaultKind::WideNumber => (5, "WideNumber"),
            FaultKind::Syntax => (6, "Syntax"),
            FaultKind::TooDeep => (7, "TooDeep"),
            FaultKind::FileMissing => (8, "FileMissing"),
            FaultKind::FileTooLong => (9, "FileTooLong"),
            FaultKind::TooManyFiles => (10, "TooManyFiles"),
            FaultKind::NameUnknown => (11, "NameUnknown"),
            FaultKind::NameTwice => (12, "NameTwice"),
            FaultKind::SuperLoop => (13, "SuperLoop"),
            FaultKind::NestLoop => (14, "NestLoop"),
            FaultKind::NoSuchMember => (15, "NoSuchMember"),
            FaultKind::NotSpecial => (16, "NotSpecial"),
            FaultKind::TreeTooLarge => (17, "TreeTooLarge"),
            FaultKind::WrongKind => (18, "WrongKind"),
            FaultKind::CannotConnect => (19, "CannotConnect"),
            FaultKind::NoHeader => (20, "NoHeader"),
            FaultKind::ColumnTwice => (21, "ColumnTwice"),
            FaultKind::BadRow => (22, "BadRow"),
            FaultKind::BadCell => (23, "BadCell"),
            FaultKind::PartTwice => (24, "PartTwice"),
            FaultKind::TooManyRows => (25, "TooManyRows"),
            FaultKind::UnitFault => (26, "UnitFault"),
            FaultKind::Unvalued => (27, "Unvalued"),
            FaultKind::DefinitionLoop => (28, "DefinitionLoop"),
            FaultKind::EmptyRange => (29, "EmptyRange"),
            FaultKind::ProblemTooLarge => (30, "ProblemTooLarge"),
        }
    }

    /// The number that is printed behind an `F`.
    pub fn number(&self) -> u8
        ensures { result ≡ kind_number self.now }
    {
        self.line().0
    }

    /// The name that is printed behind the number.
    pub fn name(&self) -> &'static str
        ensures { result.now ≡ kind_name self.now }
    {
        self.line().1
    }
}

/// A fault of the input.
#[derive(Debug, Drop)]
pub struct Fault {
    pub kind: FaultKind,
    /// Where it stands.
    pub at: Place,
    /// A second place, where there is one.
    pub other: Option<Place>,
    /// The names from the root to the instance in which it stands.
    pub path: List<Name>,
}

/// Why a call has no answer: a fault of the input, or want of memory.
#[derive(Debug, Drop)]
pub enum Refusal {
    /// A fault of the input.
    Fault(Fault),
    /// Memory ran out.
    NoMemory,
}

impl From<NoMemory> for Refusal {
    ghost use Rattle.std.specs.Prelude.{◌≡◌};
    ghost use Rattle.ato_base.specs.declared.faults.Refusal.TheVariants as refusals;

    ghost from_gives = { λ _ e. e ≡ refusals.NoMemory };

    fn from(_error: NoMemory) -> Refusal {
        Refusal::NoMemory
    }
}
