//! Operands.
ghost use Rattle.std.specs.Prelude.{◌<◌};

use crate::dice::Dice;
use std::alloc::AllocError;
use vax_isa::{Letter, OperandKind};
use vax_vectors::Cell;

/// How many forms of specifiers there are to choose from.
const FORMS: u32 = 20;

/// What is being chosen: an instruction's bytes, the general registers, and bytes of memory.
#[derive(Drop)]
pub(crate) struct Draft {
    pub(crate) dice: Dice,
    pub(crate) code: Vec<u8>,
    pub(crate) regs: [u32; 16],
    pub(crate) ram: Vec<Cell>,
    /// Where the next pointer lies that an operand goes by.
    pub(crate) pointers: u32,
}

impl Draft {
    /// Puts the lowest bytes of a number into memory.
    pub(crate) fn put(&mut self, addr: u32, count: u8, value: u32) -> Result<(), AllocError> {
        let bytes = value.to_le_bytes();
        for k in 0..count {
            let cell = Cell {
                addr: addr.wrapping_add(u32::from(k)),
                byte: bytes[(k % 4) as usize],
            };
            if self.ram.push(cell).is_err() {
                return Err(AllocError);
            }
        }
        Ok(())
    }

    fn push(&mut self, byte: u8) -> Result<(), AllocError> {
        if self.code.push(byte).is_err() {
            return Err(AllocError);
        }
        Ok(())
    }

    /// Puts the lowest bytes of a number behind the instruction's.
    fn push_bytes(&mut self, count: u8, value: u32) -> Result<(), AllocError> {
        let bytes = value.to_le_bytes();
        for k in 0..count {
            self.push(bytes[(k % 4) as usize])?;
        }
        Ok(())
    }

    /// One of R1 to R11, with this value.
    fn register(&mut self, value: u32) -> u8
        ensures { result < 16 }
    {
        let n = 1 + self.dice.below(11);
        self.regs[n as usize] = value;
        n as u8
    }

    /// An address with a value there.
    fn target(&mut self, width: u8) -> Result<u32, AllocError> {
        let addr = self.dice.address();
        let value = self.dice.value();
        self.put(addr, width, value)?;
        Ok(addr)
    }

    /// The address of a pointer to an address with a value there.
    fn pointer(&mut self, width: u8) -> Result<u32, AllocError> {
        let addr = self.target(width)?;
        let place = self.pointers;
        self.pointers = place.wrapping_add(4);
        self.put(place, 4, addr)?;
        Ok(place)
    }

    /// A byte that is a specifier's mode with a register of this value.
    fn push_mode(&mut self, mode: u8, value: u32) -> Result<(), AllocError>
        requires { mode < 16 }
    {
        let n = self.register(value);
        self.push(16 * mode + n)
    }

    /// A specifier with a displacement of so many bytes.
    fn push_displaced(&mut self, mode: u8, count: u8, addr: u32) -> Result<(), AllocError>
        requires { mode < 16 }
    {
        let displacement = self.dice.below(0x40);
        self.push_mode(mode, addr.wrapping_sub(displacement))?;
        self.push_bytes(count, displacement)
    }

    /// An index.
    fn push_index(&mut self) -> Result<(), AllocError> {
        let index = self.dice.below(4);
        self.push_mode(4, index)
    }

    /// The specifier of an operand of this width in one of the forms.
    fn push_specifier(&mut self, form: u32, width: u8) -> Result<(), AllocError> {
        match form {
            0 | 1 => {
                let literal = self.dice.below(64) as u8;
                self.push(literal)
            }
            2 => {
                let value = self.dice.value();
                self.push_mode(5, value)
            }
            6 => {
                self.push(0x8F)?;
                let value = self.dice.value();
                self.push_bytes(width, value)
            }
            8 => {
                self.push(0x9F)?;
                let addr = self.target(width)?;
                self.push_bytes(4, addr)
            }
            17 => {
                self.push(0xCF)?;
                let displacement = self.dice.below(0x300);
                self.push_bytes(2, displacement)
            }
            18 => {
                let byte = self.dice.byte();
                self.push(byte)
            }
            7 | 10 | 12 | 14 => self.push_deferred(form, width),
            15 | 16 => self.push_indexed(form, width),
            _ => self.push_direct(form, width),
        }
    }

    /// A specifier that goes by a register to the operand.
    fn push_direct(&mut self, form: u32, width: u8) -> Result<(), AllocError> {
        let addr = self.target(width)?;
        match form {
            4 => self.push_mode(7, addr.wrapping_add(u32::from(width))),
            5 => self.push_mode(8, addr),
            9 => self.push_displaced(10, 1, addr),
            11 => self.push_displaced(12, 2, addr),
            13 => self.push_displaced(14, 4, addr),
            _ => self.push_mode(6, addr),
        }
    }

    /// A specifier that goes by a pointer to the operand.
    fn push_deferred(&mut self, form: u32, width: u8) -> Result<(), AllocError> {
        let place = self.pointer(width)?;
        match form {
            7 => self.push_mode(9, place),
            10 => self.push_displaced(11, 1, place),
            12 => self.push_displaced(13, 2, place),
            _ => self.push_displaced(15, 4, place),
        }
    }

    /// A specifier with an index.
    fn push_indexed(&mut self, form: u32, width: u8) -> Result<(), AllocError> {
        self.push_index()?;
        let addr = self.target(width)?;
        if form == 15 {
            self.push_mode(6, addr)
        } else {
            self.push_displaced(10, 1, addr)
        }
    }

    /// An operand of a kind.
    pub(crate) fn push_operand(
        &mut self,
        kind: OperandKind,
        number: u32,
    ) -> Result<(), AllocError> {
        if let Letter::Branch = kind.letter {
            let displacement = self.dice.next();
            return self.push_bytes(kind.width, displacement);
        }
        self.push_specifier(number % FORMS, kind.width)
    }
}
