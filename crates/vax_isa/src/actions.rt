//! What instructions do, by the shapes that they share (VAX MACRO and Instruction Set Reference Manual, instruction descriptions).
ghost use Rattle.std.specs.Prelude.{◌≡◌};

use vax_word::Size;

/// The size of an integer that is at most a longword.
#[derive(Clone, Copy, PartialEq, Eq)]
pub enum Narrow {
    B,
    W,
    L,
}

impl From<Narrow> for Size {
    ghost use Rattle.vax_isa.specs.Actions.{size_of};

    ghost from_gives = { λ narrow size. size ≡ size_of narrow };

    #[inline]
    fn from(size: Narrow) -> Size {
        match size {
            Narrow::B => Size::B,
            Narrow::W => Size::W,
            Narrow::L => Size::L,
        }
    }
}

/// What makes a result of one operand.
#[derive(Clone, Copy, PartialEq, Eq)]
pub enum Unary {
    /// MOV: the operand itself.
    Move,
    /// MCOM: its complement.
    Complement,
    /// MNEG: the operand subtracted from 0.
    Negate,
    /// MOVZ: the operand with zeros in front.
    ZeroExtend,
    /// CVT: the same signed integer at another size.
    Convert,
}

/// What makes a result of two operands.
#[derive(Clone, Copy, PartialEq, Eq)]
pub enum Binary {
    /// ADD, INC.
    Add,
    /// SUB, DEC: the first operand is subtracted from the second.
    Subtract,
    /// MUL.
    Multiply,
    /// DIV: the second operand is divided by the first.
    Divide,
    /// BIS: the bits of either.
    BitSet,
    /// BIC: the second's bits that the first hasn't.
    BitClear,
    /// XOR: the bits in which they differ.
    ExclusiveOr,
    /// ADWC: and the carry.
    AddWithCarry,
    /// SBWC: and the carry as the borrow.
    SubtractWithCarry,
}

/// Moves, conversions, arithmetic, logic, shifts, and addresses.
#[derive(Clone, Copy, PartialEq, Eq)]
pub enum Integer {
    /// MOV, MCOM, MNEG, MOVZ, CVT: source, destination.
    Unary {
        operation: Unary,
        from: Size,
        to: Size,
    },
    /// ADDx2, SUBx2, MULx2, DIVx2, BISx2, BICx2, XORx2, ADWC, SBWC: operand, place of the other operand and of the result.
    Two {
        operation: Binary,
        size: Narrow,
    },
    /// ADDx3, SUBx3, MULx3, DIVx3, BISx3, BICx3, XORx3: two operands, destination.
    Three {
        operation: Binary,
        size: Narrow,
    },
    /// INC, DEC: place.
    ByOne {
        operation: Binary,
        size: Narrow,
    },
    /// CLR: destination.
    Clear(Size),
    /// TST: source.
    Test(Narrow),
    /// CMP: two sources.
    Compare(Narrow),
    /// BIT: mask, source.
    BitTest(Narrow),
    /// ASH: count, source, destination.
    Shift(Size),
    /// ROTL: count, source, destination.
    Rotate,
    /// MOVA: address, destination.
    MoveAddress(Size),
    /// PUSHA: address.
    PushAddress(Size),
    /// PUSHL: source.
    Push,
    /// EMUL: multiplier, multiplicand, addend, product.
    ExtendedMultiply,
    /// EDIV: divisor, dividend, quotient, remainder.
    ExtendedDivide,
    /// INDEX: subscript, low, high, size, index so far, index.
    Index,
}

/// What the condition codes must be for a branch.
#[derive(Clone, Copy, PartialEq, Eq)]
pub enum Condition {
    /// BRB, BRW.
    Always,
    /// BNEQ, BNEQU.
    NotEqual,
    /// BEQL, BEQLU.
    Equal,
    /// BGTR.
    Greater,
    /// BLEQ.
    LessOrEqual,
    /// BGEQ.
    GreaterOrEqual,
    /// BLSS.
    Less,
    /// BGTRU.
    GreaterUnsigned,
    /// BLEQU.
    LessOrEqualUnsigned,
    /// BVC.
    OverflowClear,
    /// BVS.
    OverflowSet,
    /// BCC, BGEQU.
    CarryClear,
    /// BCS, BLSSU.
    CarrySet,
}

/// How signed longwords compare for a loop to go on.
#[derive(Clone, Copy, PartialEq, Eq)]
pub enum Relation {
    /// AOBLSS.
    Less,
    /// AOBLEQ.
    LessOrEqual,
    /// SOBGTR.
    Greater,
    /// SOBGEQ.
    GreaterOrEqual,
}

/// Branches, jumps, loops, and calls of subroutines.
#[derive(Clone, Copy, PartialEq, Eq)]
pub enum Control {
    /// BRB, BRW, and the branches on the condition codes: displacement of this size.
    Branch { condition: Condition, size: Narrow },
    /// BSBB, BSBW: displacement of this size.
    BranchSubroutine(Narrow),
    /// JMP: address.
    Jump,
    /// JSB: address.
    JumpSubroutine,
    /// RSB.
    Return,
    /// BLBS, BLBC: source of which the low bit must be so, displacement.
    LowBit { set: bool },
    /// AOBLSS, AOBLEQ: limit, index, displacement.
    AddOne(Relation),
    /// SOBGEQ, SOBGTR: index, displacement.
    SubtractOne(Relation),
    /// ACB: limit, addend, index, displacement.
    AddCompare(Narrow),
    /// CASE: selector, base, limit, and the table of displacements behind.
    Case(Narrow),
}

/// The access modes, from the most privileged on (VAX Architecture Reference Manual, process structure).
#[derive(Clone, Copy, PartialEq, Eq)]
pub enum AccessMode {
    Kernel,
    Executive,
    Supervisor,
    User,
}

impl AccessMode {
    ghost use Rattle.vax_isa.specs.Actions.{mode_number};

    /// 0 for kernel to 3 for user, as the processor status has it.
    #[inline]
    pub fn number(self) -> u8
        ensures { result ≡ mode_number self }
    {
        match self {
            AccessMode::Kernel => 0,
            AccessMode::Executive => 1,
            AccessMode::Supervisor => 2,
            AccessMode::User => 3,
        }
    }
}

/// Fields of bits.
#[derive(Clone, Copy, PartialEq, Eq)]
pub enum Field {
    /// EXTV, EXTZV: position, size, base, destination.
    Extract { signed: bool },
    /// CMPV, CMPZV: position, size, base, source.
    Compare { signed: bool },
    /// INSV: source, position, size, base.
    Insert,
    /// FFS, FFC: first position, size, base, position found. It looks for the first bit that is so.
    FindFirst { set: bool },
    /// BBS, BBC, BBSS, BBCS, BBSC, BBCC, BBSSI, BBCCI: position, base, displacement. The branch is taken where the bit is so; whether it
    /// is or not, the bit then becomes what is said, if anything is.
    Branch { set: bool, becomes: Option<bool> },
}

/// Calls of procedures, and the registers that they save.
#[derive(Clone, Copy, PartialEq, Eq)]
pub enum Call {
    /// CALLG: argument list, procedure.
    WithList,
    /// CALLS: number of arguments on the stack, procedure.
    WithStack,
    /// RET.
    Return,
    /// PUSHR: mask.
    PushRegisters,
    /// POPR: mask.
    PopRegisters,
}

/// Queues, and the aligned sum.
#[derive(Clone, Copy, PartialEq, Eq)]
pub enum Queue {
    /// INSQUE: entry, predecessor.
    Insert,
    /// REMQUE: entry, destination of its address.
    Remove,
    /// ADAWI: addend, sum.
    AddAligned,
}

/// Access modes, exceptions, and the registers of the processor.
#[derive(Clone, Copy, PartialEq, Eq)]
pub enum System {
    /// HALT.
    Halt,
    /// NOP.
    NoOperation,
    /// BPT.
    Breakpoint,
    /// XFC.
    Customer,
    /// REI.
    Return,
    /// CHMK, CHME, CHMS, CHMU: code.
    ChangeMode(AccessMode),
    /// PROBER, PROBEW: mode, length, base.
    Probe { writing: bool },
    /// MTPR: source, number of the processor register.
    ToRegister,
    /// MFPR: number of the processor register, destination.
    FromRegister,
    /// MOVPSL: destination.
    MoveStatus,
    /// BISPSW: mask.
    SetStatus,
    /// BICPSW: mask.
    ClearStatus,
}

/// Strings of characters.
#[derive(Clone, Copy, PartialEq, Eq)]
pub enum Text {
    /// MOVC3: length, source, destination.
    Move,
    /// MOVC5: source length, source, fill, destination length, destination.
    MoveFilled,
    /// MOVTC: source length, source, fill, table, destination length, destination.
    MoveTranslated,
    /// MOVTUC: source length, source, escape, table, destination length, destination.
    MoveTranslatedUntil,
    /// CMPC3: length, first, second.
    Compare,
    /// CMPC5: first length, first, fill, second length, second.
    CompareFilled,
    /// LOCC: character, length, string.
    Locate,
    /// SKPC: character, length, string.
    Skip,
    /// SCANC: length, string, table, mask.
    Scan,
    /// SPANC: length, string, table, mask.
    Span,
    /// MATCHC: object length, object, source length, source.
    Match,
}

/// What an instruction does with its operands.
#[derive(Clone, Copy, PartialEq, Eq)]
pub enum Action {
    Integer(Integer),
    Control(Control),
    Field(Field),
    Call(Call),
    Queue(Queue),
    System(System),
    Text(Text),
}
