//! What a line asks for.
use crate::command::{Command, Form};
use arrayvec::ArrayVec;
use std::marker::Model;

/// A name of 1 to 31 characters, in capitals. Contracts see the list itself.
#[derive(Drop)]
pub struct Name {
    items: ArrayVec<u8, 31>,
}

impl Model for Name {
    ghost use Rattle.std.specs.Prelude.{List, ℕ};

    ghost Value = { List ℕ };

    ghost view = { λ n. n.items.items };
}

impl Name {
    ghost use Rattle.std.specs.Prelude.{◌≡◌, ◌<◌, [], ◌∷◌, ◌++◌, length};

    pub(crate) fn new() -> Name
        ensures { result ≡ [] }
    {
        Name {
            items: ArrayVec::new(),
        }
    }

    pub(crate) fn push(&mut self, byte: u8)
        requires { length self.old < 31 }
        ensures { self.new ≡ self.old ++ byte ∷ [] }
    {
        self.items.push(byte);
    }

    /// The name's characters.
    pub fn as_slice(&self) -> &[u8]
        ensures { result.now ≡ self.now }
    {
        &self.items
    }
}

/// Characters to be put into memory, 1 to 64. Contracts see the list itself.
#[derive(Drop)]
pub struct Characters {
    items: ArrayVec<u8, 64>,
}

impl Model for Characters {
    ghost use Rattle.std.specs.Prelude.{List, ℕ};

    ghost Value = { List ℕ };

    ghost view = { λ c. c.items.items };
}

impl Characters {
    ghost use Rattle.std.specs.Prelude.{◌≡◌, ◌≤◌, length};

    pub(crate) fn new(bytes: &[u8]) -> Characters
        requires { length bytes.now ≤ 64 }
        ensures { result ≡ bytes.now }
    {
        let mut items = ArrayVec::new();
        items.try_extend_from_slice(bytes).unwrap();
        Characters { items }
    }

    /// The characters, in order.
    pub fn as_slice(&self) -> &[u8]
        ensures { result.now ≡ self.now }
    {
        &self.items
    }
}

/// What an expression begins with.
#[derive(Drop)]
pub enum Base {
    /// A register, R0 to R15.
    Register(u8),
    /// A symbol, or else a hexadecimal number.
    Named(Name),
}

/// An address or a number: the base, gone through so many times, and behind that an offset modulo 2^32.
#[derive(Drop)]
pub struct Expression {
    pub base: Base,
    /// How many `@`s there are: each stands for the longword at the address behind it, or for the contents of the register.
    pub through: u8,
    /// What is added, modulo 2^32.
    pub offset: u32,
}

/// So many values, instructions or bytes, 1 to 64, from an address on.
#[derive(Drop)]
pub struct Span {
    pub from: Expression,
    pub count: u8,
}

/// How many bytes a number has: 1, 2 or 4.
#[derive(Clone, Copy, PartialEq, Eq)]
pub enum Size {
    Byte,
    Word,
    Long,
}

/// What is put into memory.
#[derive(Drop)]
pub enum Value {
    /// A number of so many bytes.
    Number(Size, Expression),
    /// A number of eight bytes.
    Quadword(u64),
    /// A number that eight bytes have no room for.
    TooLarge,
    /// Characters.
    Text(Characters),
}

/// A field of the processor status longword.
#[derive(Clone, Copy, PartialEq, Eq)]
pub enum Field {
    /// The current access mode.
    Mode,
    /// The previous access mode.
    Previous,
    /// The interrupt priority level.
    Priority,
    /// Whether the interrupt stack is in use.
    InterruptStack,
    /// Whether the first part of an instruction is done.
    FirstPartDone,
    /// Whether a trace is pending.
    TracePending,
    /// Whether a decimal overflow traps.
    DecimalOverflow,
    /// Whether a floating underflow is a fault.
    FloatingUnderflow,
    /// Whether an integer overflow traps.
    IntegerOverflow,
    /// Whether instructions are traced.
    Trace,
    /// The condition code N.
    Negative,
    /// The condition code Z.
    Zero,
    /// The condition code V.
    Overflow,
    /// The condition code C.
    Carry,
}

/// What a debugger is asked for.
#[derive(Drop)]
pub enum Request {
    /// The value of a register, R0 to R15.
    ExamineRegister(u8),
    /// The processor status longword.
    ExamineStatus,
    /// One of its fields.
    ExamineField(Field),
    /// So many values of this form in memory.
    ExamineMemory(Form, Span),
    /// Another value of a register, R0 to R15.
    DepositRegister { register: u8, value: Expression },
    /// Another value of the processor status longword.
    DepositStatus(Expression),
    /// Another value of one of its fields.
    DepositField(Field, Expression),
    /// Another value in memory.
    DepositMemory { to: Expression, value: Value },
    /// So many instructions, or ten from PC on.
    Disassemble(Option<Span>),
    /// So many steps, 1 to 10^15.
    Step(u64),
    /// A step, in which a call is made whole.
    Over,
    /// Steps up to behind the return of the procedure.
    Out,
    /// Steps up to a stop.
    Go,
    /// Steps up to an address.
    Until(Expression),
    /// A stop before each step at an address.
    Break(Expression),
    /// A stop behind each step that changes one of these bytes.
    Watch(Span),
    /// No stop any more at an address, or none at all.
    Clear(Option<Expression>),
    /// The stops.
    Show,
    /// What is watched.
    ShowWatches,
    /// The frames of calls.
    Where,
    /// So many longwords of the stack, 1 to 64.
    Stack(u8),
    /// The entries of a queue.
    Queue(Expression),
    /// Which pages are resident, kept and modified.
    Pages,
    /// One attempt at a step.
    Turn,
    /// The page of an address made absent.
    Evict(Expression),
    /// All pages made absent.
    EvictAll,
    /// The program at its start again, with the stops and what is watched.
    Restart,
    /// The end, with the state in the record.
    Save,
    /// What may be asked for, or how one command is used.
    Help(Option<Command>),
    /// The end.
    Quit,
}

/// Why a line isn't understood.
#[derive(Clone, Copy, PartialEq, Eq)]
pub enum Refusal {
    /// It has more than 1,024 bytes.
    Length,
    /// No command begins so.
    Unknown,
    /// More than one does.
    Several,
    /// It isn't how this command is used.
    Usage(Command),
}

/// What a line says.
#[derive(Drop)]
pub enum Line {
    /// Nothing: it has no word.
    Blank,
    Request(Request),
    Refused(Refusal),
}
