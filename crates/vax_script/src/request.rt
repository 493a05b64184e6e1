//! What a line asks for.
use arrayvec::ArrayVec;
use std::marker::Model;

/// The first word of a line.
#[derive(Clone, Copy, PartialEq, Eq)]
pub(crate) enum Command {
    Examine,
    Deposit,
    Next,
    Continue,
    Show,
}

/// Bytes to be put into memory, 1 to 64. Contracts see the list itself.
#[derive(Drop)]
pub struct Deposit {
    items: ArrayVec<u8, 64>,
}

impl Model for Deposit {
    ghost use Rattle.std.specs.Prelude.{List, ℕ};

    ghost Value = { List ℕ };

    ghost view = { λ d. d.items.items };
}

impl Deposit {
    ghost use Rattle.std.specs.Prelude.{◌≡◌, [], ◌∷◌, ◌++◌, length, ◌<◌};

    pub(crate) fn new() -> Deposit
        ensures { result ≡ [] }
    {
        Deposit {
            items: ArrayVec::new(),
        }
    }

    pub(crate) fn push(&mut self, byte: u8)
        requires { length self.old < 64 }
        ensures { self.new ≡ self.old ++ byte ∷ [] }
    {
        self.items.push(byte);
    }

    /// The bytes, in order.
    pub fn as_slice(&self) -> &[u8]
        ensures { result.now ≡ self.now }
    {
        &self.items
    }
}

/// What a console is asked for.
#[derive(Drop)]
pub enum Request {
    /// The value of a register, R0 to R15.
    ExamineRegister(u8),
    /// Bytes of memory from an address on, 1 to 16.
    ExamineMemory { addr: u32, count: u8 },
    /// Another value of a register, R0 to R15.
    DepositRegister { register: u8, value: u32 },
    /// Other bytes of memory from an address on.
    DepositMemory { addr: u32, bytes: Deposit },
    /// So many steps, 1 to 10^15.
    Next(u64),
    /// All steps up to an ending or a limit.
    Continue,
    /// The report of the present state.
    Show,
}

/// What a line says.
#[derive(Drop)]
pub enum Line {
    /// Nothing.
    Blank,
    Request(Request),
    /// It has none of the forms.
    Malformed,
}
