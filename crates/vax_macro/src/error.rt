// What is wrong with a line.

/// Why a line is refused. Where a line has several faults, the first in this order counts.
#[derive(Clone, Copy, Debug, PartialEq, Eq, thiserror::Error)]
pub enum FaultKind {
    /// A byte or a line length outside the rules.
    #[error("a byte that belongs to no token, or more than 1,024 bytes")]
    Token,
    #[error("no such operator")]
    UnknownOperator,
    #[error("wrong number of operands")]
    Count,
    #[error("no such form of an operand, an expression or a statement")]
    Form,
    /// A name that must be defined already isn't, or a local label is defined nowhere in its block.
    #[error("a name that is not defined")]
    Undefined,
    #[error("a name that is defined twice")]
    Duplicate,
    #[error("a value out of range")]
    Range,
    #[error("an end without its begin, or a begin without its end")]
    Nesting,
    #[error("macros, repeats or conditions nested deeper than 64")]
    Depth,
    #[error("more than 100,000 expanded lines")]
    Lines,
    #[error("a section or the module is too long")]
    Large,
    /// A line that says so itself, by `.ERROR`.
    #[error("the source says that it is wrong here")]
    Message,
}

impl FaultKind {
    ghost use Rattle.std.specs.Prelude.{◌≡◌};
    ghost use Rattle.vax_macro.specs.Fault.{code_of};

    /// Its number in reports, from 1.
    pub fn code(self) -> u8
        ensures { result ≡ code_of self }
    {
        match self {
            FaultKind::Token => 1,
            FaultKind::UnknownOperator => 2,
            FaultKind::Count => 3,
            FaultKind::Form => 4,
            FaultKind::Undefined => 5,
            FaultKind::Duplicate => 6,
            FaultKind::Range => 7,
            FaultKind::Nesting => 8,
            FaultKind::Depth => 9,
            FaultKind::Lines => 10,
            FaultKind::Large => 11,
            FaultKind::Message => 12,
        }
    }
}

/// Why an expander gives no statement.
#[derive(Clone, Copy, Debug, PartialEq, Eq, thiserror::Error)]
pub enum MacroError {
    /// The first fault: the number of its line, and its kind.
    #[error("line {line}: {kind}")]
    Fault { line: u32, kind: FaultKind },
    #[error("out of memory")]
    NoMemory,
}
