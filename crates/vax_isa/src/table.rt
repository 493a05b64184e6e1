// The instructions by their opcodes (VAX MACRO and Instruction Set Reference Manual, instruction summary).

ghost use Rattle.std.specs.Prelude.{◌≡◌, map, option_map};
ghost use Rattle.std.specs.Str.{str_eq_ignore_ascii_case};
ghost use Rattle.vax_isa.specs.Entries.{counted, entry_action, entry_listing, entry_names, entry_row, first_named, listing_at, row_at, slots_of};
ghost use Rattle.vax_isa.specs.Rows.{plain, action_of, is_one_of};

use crate::actions::{
    AccessMode, Action, Binary, Call, Condition, Control, Field, Integer, Narrow, Queue, Relation,
    System, Text, Unary,
};
use crate::buckets::Bucket;
use crate::{Letter, OperandKind, Row};
use vax_word::Size;

/// A row, the other names that the manual gives its instruction, and what it does.
#[derive(Clone, Copy)]
pub(crate) struct Entry {
    pub row: Row,
    pub aliases: &'static [&'static str],
    pub action: Action,
}

impl Entry {
    fn is_named(&self, name: &str) -> bool
        ensures { result ≡ is_one_of (entry_names self.now) name.now }
    {
        is_called(self.row.name, name) || is_among(self.aliases, name)
    }
}

/// Whether a word is this name, in letters of either case.
fn is_called(word: &str, name: &str) -> bool
    ensures { result ≡ str_eq_ignore_ascii_case word.now name.now }
{
    word.eq_ignore_ascii_case(name)
}

/// Whether a name is one of these, in letters of either case.
fn is_among(aliases: &[&str], name: &str) -> bool
    ensures { result ≡ is_one_of (map (λ alias. alias.now) aliases.now) name.now }
{
    for alias in aliases {
        if is_called(alias, name) {
            return true;
        }
    }
    false
}

/// The slot of each opcode.
#[inline]
pub(crate) fn slots() -> &'static [Option<Entry>; 256]
    ensures rows { map (option_map entry_row) result.now ≡ map row_at (counted 0 256) }
    ensures actions { map (option_map entry_action) result.now ≡ map action_of (counted 0 256) }
    ensures listings { map (option_map entry_listing) result.now ≡ map listing_at (counted 0 256) }
{
    &TABLE
}

/// The first row with this name or alias in the slots of these opcodes.
pub(crate) fn named(slots: &[Option<Entry>; 256], codes: &Bucket, name: &str) -> Option<Row>
    ensures { option_map plain result
        ≡ option_map entry_row (first_named (slots_of slots.now codes.now) name.now) }
{
    for code in codes {
        if let Some(entry) = &slots[*code as usize]
            && entry.is_named(name)
        {
            return Some(entry.row);
        }
    }
    None
}

macro_rules! kind {
    ($letter:ident $width:literal) => {
        OperandKind {
            letter: Letter::$letter,
            width: $width,
        }
    };
}

const AB: OperandKind = kind!(Address 1);

const AW: OperandKind = kind!(Address 2);

const AL: OperandKind = kind!(Address 4);

const AQ: OperandKind = kind!(Address 8);

const BB: OperandKind = kind!(Branch 1);

const BW: OperandKind = kind!(Branch 2);

const MB: OperandKind = kind!(Modify 1);

const MW: OperandKind = kind!(Modify 2);

const ML: OperandKind = kind!(Modify 4);

const RB: OperandKind = kind!(Read 1);

const RW: OperandKind = kind!(Read 2);

const RL: OperandKind = kind!(Read 4);

const RQ: OperandKind = kind!(Read 8);

const VB: OperandKind = kind!(Field 1);

const WB: OperandKind = kind!(Write 1);

const WW: OperandKind = kind!(Write 2);

const WL: OperandKind = kind!(Write 4);

const WQ: OperandKind = kind!(Write 8);
// what stands past the last operand
const NO: OperandKind = kind!(Read 0);

const RESERVED: Option<Entry> = None;

macro_rules! integer {
    ($($action:tt)*) => { Action::Integer(Integer::$($action)*) };
}

macro_rules! control {
    ($($action:tt)*) => { Action::Control(Control::$($action)*) };
}

macro_rules! field {
    ($($action:tt)*) => { Action::Field(Field::$($action)*) };
}

macro_rules! system {
    ($($action:tt)*) => { Action::System(System::$($action)*) };
}

macro_rules! unary {
    ($operation:ident $from:ident $to:ident) => {
        Action::Integer(Integer::Unary { operation: Unary::$operation, from: Size::$from, to: Size::$to })
    };
}

macro_rules! two {
    ($operation:ident $size:ident) => { Action::Integer(Integer::Two { operation: Binary::$operation, size: Narrow::$size }) };
}

macro_rules! three {
    ($operation:ident $size:ident) => { Action::Integer(Integer::Three { operation: Binary::$operation, size: Narrow::$size }) };
}

macro_rules! by_one {
    ($operation:ident $size:ident) => { Action::Integer(Integer::ByOne { operation: Binary::$operation, size: Narrow::$size }) };
}

macro_rules! branch {
    ($condition:ident $size:ident) => { Action::Control(Control::Branch { condition: Condition::$condition, size: Narrow::$size }) };
}

macro_rules! row {
    ($code:literal, $name:literal $(or $alias:literal)*; $action:expr) => { row!(@ $code, $name $(or $alias)*; $action; 0, NO, NO, NO, NO, NO, NO) };
    ($code:literal, $name:literal $(or $alias:literal)*, $a:ident; $action:expr) => { row!(@ $code, $name $(or $alias)*; $action; 1, $a, NO, NO, NO, NO, NO) };
    ($code:literal, $name:literal $(or $alias:literal)*, $a:ident, $b:ident; $action:expr) => { row!(@ $code, $name $(or $alias)*; $action; 2, $a, $b, NO, NO, NO, NO) };
    ($code:literal, $name:literal $(or $alias:literal)*, $a:ident, $b:ident, $c:ident; $action:expr) => { row!(@ $code, $name $(or $alias)*; $action; 3, $a, $b, $c, NO, NO, NO) };
    ($code:literal, $name:literal $(or $alias:literal)*, $a:ident, $b:ident, $c:ident, $d:ident; $action:expr) => { row!(@ $code, $name $(or $alias)*; $action; 4, $a, $b, $c, $d, NO, NO) };
    ($code:literal, $name:literal $(or $alias:literal)*, $a:ident, $b:ident, $c:ident, $d:ident, $e:ident; $action:expr) => { row!(@ $code, $name $(or $alias)*; $action; 5, $a, $b, $c, $d, $e, NO) };
    ($code:literal, $name:literal $(or $alias:literal)*, $a:ident, $b:ident, $c:ident, $d:ident, $e:ident, $f:ident; $action:expr) => { row!(@ $code, $name $(or $alias)*; $action; 6, $a, $b, $c, $d, $e, $f) };
    (@ $code:literal, $name:literal $(or $alias:literal)*; $action:expr; $count:literal, $($kind:ident),*) => {
        Some(Entry { row: Row { code: $code, name: $name, count: $count, operands: [$($kind),*] }, aliases: &[$($alias),*], action: $action })
    };
}

/// The entry of each opcode. A reserved opcode has none.
#[rattlefmt::skip]
static TABLE: [Option<Entry>; 256] = [
    row!(0x00, "HALT"; system!(Halt)),
    row!(0x01, "NOP"; system!(NoOperation)),
    row!(0x02, "REI"; system!(Return)),
    row!(0x03, "BPT"; system!(Breakpoint)),
    row!(0x04, "RET"; Action::Call(Call::Return)),
    row!(0x05, "RSB"; control!(Return)),
    RESERVED, RESERVED, RESERVED, RESERVED, // 06 to 09
    row!(0x0A, "INDEX", RL, RL, RL, RL, RL, WL; integer!(Index)),
    RESERVED, // 0B
    row!(0x0C, "PROBER", RB, RW, AB; system!(Probe { writing: false })),
    row!(0x0D, "PROBEW", RB, RW, AB; system!(Probe { writing: true })),
    row!(0x0E, "INSQUE", AB, AB; Action::Queue(Queue::Insert)),
    row!(0x0F, "REMQUE", AB, WL; Action::Queue(Queue::Remove)),
    row!(0x10, "BSBB", BB; control!(BranchSubroutine(Narrow::B))),
    row!(0x11, "BRB", BB; branch!(Always B)),
    row!(0x12, "BNEQ" or "BNEQU", BB; branch!(NotEqual B)),
    row!(0x13, "BEQL" or "BEQLU", BB; branch!(Equal B)),
    row!(0x14, "BGTR", BB; branch!(Greater B)),
    row!(0x15, "BLEQ", BB; branch!(LessOrEqual B)),
    row!(0x16, "JSB", AB; control!(JumpSubroutine)),
    row!(0x17, "JMP", AB; control!(Jump)),
    row!(0x18, "BGEQ", BB; branch!(GreaterOrEqual B)),
    row!(0x19, "BLSS", BB; branch!(Less B)),
    row!(0x1A, "BGTRU", BB; branch!(GreaterUnsigned B)),
    row!(0x1B, "BLEQU", BB; branch!(LessOrEqualUnsigned B)),
    row!(0x1C, "BVC", BB; branch!(OverflowClear B)),
    row!(0x1D, "BVS", BB; branch!(OverflowSet B)),
    row!(0x1E, "BCC" or "BGEQU", BB; branch!(CarryClear B)),
    row!(0x1F, "BCS" or "BLSSU", BB; branch!(CarrySet B)),
    RESERVED, RESERVED, RESERVED, RESERVED, RESERVED, RESERVED, RESERVED, RESERVED, // 20 to 27
    row!(0x28, "MOVC3", RW, AB, AB; Action::Text(Text::Move)),
    row!(0x29, "CMPC3", RW, AB, AB; Action::Text(Text::Compare)),
    row!(0x2A, "SCANC", RW, AB, AB, RB; Action::Text(Text::Scan)),
    row!(0x2B, "SPANC", RW, AB, AB, RB; Action::Text(Text::Span)),
    row!(0x2C, "MOVC5", RW, AB, RB, RW, AB; Action::Text(Text::MoveFilled)),
    row!(0x2D, "CMPC5", RW, AB, RB, RW, AB; Action::Text(Text::CompareFilled)),
    row!(0x2E, "MOVTC", RW, AB, RB, AB, RW, AB; Action::Text(Text::MoveTranslated)),
    row!(0x2F, "MOVTUC", RW, AB, RB, AB, RW, AB; Action::Text(Text::MoveTranslatedUntil)),
    row!(0x30, "BSBW", BW; control!(BranchSubroutine(Narrow::W))),
    row!(0x31, "BRW", BW; branch!(Always W)),
    row!(0x32, "CVTWL", RW, WL; unary!(Convert W L)),
    row!(0x33, "CVTWB", RW, WB; unary!(Convert W B)),
    RESERVED, RESERVED, RESERVED, RESERVED, RESERVED, // 34 to 38
    row!(0x39, "MATCHC", RW, AB, RW, AB; Action::Text(Text::Match)),
    row!(0x3A, "LOCC", RB, RW, AB; Action::Text(Text::Locate)),
    row!(0x3B, "SKPC", RB, RW, AB; Action::Text(Text::Skip)),
    row!(0x3C, "MOVZWL", RW, WL; unary!(ZeroExtend W L)),
    row!(0x3D, "ACBW", RW, RW, MW, BW; control!(AddCompare(Narrow::W))),
    row!(0x3E, "MOVAW", AW, WL; integer!(MoveAddress(Size::W))),
    row!(0x3F, "PUSHAW", AW; integer!(PushAddress(Size::W))),
    RESERVED, RESERVED, RESERVED, RESERVED, RESERVED, RESERVED, RESERVED, RESERVED, RESERVED, RESERVED, RESERVED, RESERVED, RESERVED, RESERVED, RESERVED, RESERVED, // 40 to 4F
    RESERVED, RESERVED, RESERVED, RESERVED, RESERVED, RESERVED, RESERVED, RESERVED, // 50 to 57
    row!(0x58, "ADAWI", RW, MW; Action::Queue(Queue::AddAligned)),
    RESERVED, RESERVED, RESERVED, RESERVED, RESERVED, RESERVED, RESERVED, // 59 to 5F
    RESERVED, RESERVED, RESERVED, RESERVED, RESERVED, RESERVED, RESERVED, RESERVED, RESERVED, RESERVED, RESERVED, RESERVED, RESERVED, RESERVED, RESERVED, RESERVED, // 60 to 6F
    RESERVED, RESERVED, RESERVED, RESERVED, RESERVED, RESERVED, RESERVED, RESERVED, // 70 to 77
    row!(0x78, "ASHL", RB, RL, WL; integer!(Shift(Size::L))),
    row!(0x79, "ASHQ", RB, RQ, WQ; integer!(Shift(Size::Q))),
    row!(0x7A, "EMUL", RL, RL, RL, WQ; integer!(ExtendedMultiply)),
    row!(0x7B, "EDIV", RL, RQ, WL, WL; integer!(ExtendedDivide)),
    row!(0x7C, "CLRQ" or "CLRD" or "CLRG", WQ; integer!(Clear(Size::Q))),
    row!(0x7D, "MOVQ", RQ, WQ; unary!(Move Q Q)),
    row!(0x7E, "MOVAQ" or "MOVAD" or "MOVAG", AQ, WL; integer!(MoveAddress(Size::Q))),
    row!(0x7F, "PUSHAQ" or "PUSHAD" or "PUSHAG", AQ; integer!(PushAddress(Size::Q))),
    row!(0x80, "ADDB2", RB, MB; two!(Add B)),
    row!(0x81, "ADDB3", RB, RB, WB; three!(Add B)),
    row!(0x82, "SUBB2", RB, MB; two!(Subtract B)),
    row!(0x83, "SUBB3", RB, RB, WB; three!(Subtract B)),
    row!(0x84, "MULB2", RB, MB; two!(Multiply B)),
    row!(0x85, "MULB3", RB, RB, WB; three!(Multiply B)),
    row!(0x86, "DIVB2", RB, MB; two!(Divide B)),
    row!(0x87, "DIVB3", RB, RB, WB; three!(Divide B)),
    row!(0x88, "BISB2", RB, MB; two!(BitSet B)),
    row!(0x89, "BISB3", RB, RB, WB; three!(BitSet B)),
    row!(0x8A, "BICB2", RB, MB; two!(BitClear B)),
    row!(0x8B, "BICB3", RB, RB, WB; three!(BitClear B)),
    row!(0x8C, "XORB2", RB, MB; two!(ExclusiveOr B)),
    row!(0x8D, "XORB3", RB, RB, WB; three!(ExclusiveOr B)),
    row!(0x8E, "MNEGB", RB, WB; unary!(Negate B B)),
    row!(0x8F, "CASEB", RB, RB, RB; control!(Case(Narrow::B))),
    row!(0x90, "MOVB", RB, WB; unary!(Move B B)),
    row!(0x91, "CMPB", RB, RB; integer!(Compare(Narrow::B))),
    row!(0x92, "MCOMB", RB, WB; unary!(Complement B B)),
    row!(0x93, "BITB", RB, RB; integer!(BitTest(Narrow::B))),
    row!(0x94, "CLRB", WB; integer!(Clear(Size::B))),
    row!(0x95, "TSTB", RB; integer!(Test(Narrow::B))),
    row!(0x96, "INCB", MB; by_one!(Add B)),
    row!(0x97, "DECB", MB; by_one!(Subtract B)),
    row!(0x98, "CVTBL", RB, WL; unary!(Convert B L)),
    row!(0x99, "CVTBW", RB, WW; unary!(Convert B W)),
    row!(0x9A, "MOVZBL", RB, WL; unary!(ZeroExtend B L)),
    row!(0x9B, "MOVZBW", RB, WW; unary!(ZeroExtend B W)),
    row!(0x9C, "ROTL", RB, RL, WL; integer!(Rotate)),
    row!(0x9D, "ACBB", RB, RB, MB, BW; control!(AddCompare(Narrow::B))),
    row!(0x9E, "MOVAB", AB, WL; integer!(MoveAddress(Size::B))),
    row!(0x9F, "PUSHAB", AB; integer!(PushAddress(Size::B))),
    row!(0xA0, "ADDW2", RW, MW; two!(Add W)),
    row!(0xA1, "ADDW3", RW, RW, WW; three!(Add W)),
    row!(0xA2, "SUBW2", RW, MW; two!(Subtract W)),
    row!(0xA3, "SUBW3", RW, RW, WW; three!(Subtract W)),
    row!(0xA4, "MULW2", RW, MW; two!(Multiply W)),
    row!(0xA5, "MULW3", RW, RW, WW; three!(Multiply W)),
    row!(0xA6, "DIVW2", RW, MW; two!(Divide W)),
    row!(0xA7, "DIVW3", RW, RW, WW; three!(Divide W)),
    row!(0xA8, "BISW2", RW, MW; two!(BitSet W)),
    row!(0xA9, "BISW3", RW, RW, WW; three!(BitSet W)),
    row!(0xAA, "BICW2", RW, MW; two!(BitClear W)),
    row!(0xAB, "BICW3", RW, RW, WW; three!(BitClear W)),
    row!(0xAC, "XORW2", RW, MW; two!(ExclusiveOr W)),
    row!(0xAD, "XORW3", RW, RW, WW; three!(ExclusiveOr W)),
    row!(0xAE, "MNEGW", RW, WW; unary!(Negate W W)),
    row!(0xAF, "CASEW", RW, RW, RW; control!(Case(Narrow::W))),
    row!(0xB0, "MOVW", RW, WW; unary!(Move W W)),
    row!(0xB1, "CMPW", RW, RW; integer!(Compare(Narrow::W))),
    row!(0xB2, "MCOMW", RW, WW; unary!(Complement W W)),
    row!(0xB3, "BITW", RW, RW; integer!(BitTest(Narrow::W))),
    row!(0xB4, "CLRW", WW; integer!(Clear(Size::W))),
    row!(0xB5, "TSTW", RW; integer!(Test(Narrow::W))),
    row!(0xB6, "INCW", MW; by_one!(Add W)),
    row!(0xB7, "DECW", MW; by_one!(Subtract W)),
    row!(0xB8, "BISPSW", RW; system!(SetStatus)),
    row!(0xB9, "BICPSW", RW; system!(ClearStatus)),
    row!(0xBA, "POPR", RW; Action::Call(Call::PopRegisters)),
    row!(0xBB, "PUSHR", RW; Action::Call(Call::PushRegisters)),
    row!(0xBC, "CHMK", RW; system!(ChangeMode(AccessMode::Kernel))),
    row!(0xBD, "CHME", RW; system!(ChangeMode(AccessMode::Executive))),
    row!(0xBE, "CHMS", RW; system!(ChangeMode(AccessMode::Supervisor))),
    row!(0xBF, "CHMU", RW; system!(ChangeMode(AccessMode::User))),
    row!(0xC0, "ADDL2", RL, ML; two!(Add L)),
    row!(0xC1, "ADDL3", RL, RL, WL; three!(Add L)),
    row!(0xC2, "SUBL2", RL, ML; two!(Subtract L)),
    row!(0xC3, "SUBL3", RL, RL, WL; three!(Subtract L)),
    row!(0xC4, "MULL2", RL, ML; two!(Multiply L)),
    row!(0xC5, "MULL3", RL, RL, WL; three!(Multiply L)),
    row!(0xC6, "DIVL2", RL, ML; two!(Divide L)),
    row!(0xC7, "DIVL3", RL, RL, WL; three!(Divide L)),
    row!(0xC8, "BISL2", RL, ML; two!(BitSet L)),
    row!(0xC9, "BISL3", RL, RL, WL; three!(BitSet L)),
    row!(0xCA, "BICL2", RL, ML; two!(BitClear L)),
    row!(0xCB, "BICL3", RL, RL, WL; three!(BitClear L)),
    row!(0xCC, "XORL2", RL, ML; two!(ExclusiveOr L)),
    row!(0xCD, "XORL3", RL, RL, WL; three!(ExclusiveOr L)),
    row!(0xCE, "MNEGL", RL, WL; unary!(Negate L L)),
    row!(0xCF, "CASEL", RL, RL, RL; control!(Case(Narrow::L))),
    row!(0xD0, "MOVL", RL, WL; unary!(Move L L)),
    row!(0xD1, "CMPL", RL, RL; integer!(Compare(Narrow::L))),
    row!(0xD2, "MCOML", RL, WL; unary!(Complement L L)),
    row!(0xD3, "BITL", RL, RL; integer!(BitTest(Narrow::L))),
    row!(0xD4, "CLRL" or "CLRF", WL; integer!(Clear(Size::L))),
    row!(0xD5, "TSTL", RL; integer!(Test(Narrow::L))),
    row!(0xD6, "INCL", ML; by_one!(Add L)),
    row!(0xD7, "DECL", ML; by_one!(Subtract L)),
    row!(0xD8, "ADWC", RL, ML; two!(AddWithCarry L)),
    row!(0xD9, "SBWC", RL, ML; two!(SubtractWithCarry L)),
    row!(0xDA, "MTPR", RL, RL; system!(ToRegister)),
    row!(0xDB, "MFPR", RL, WL; system!(FromRegister)),
    row!(0xDC, "MOVPSL", WL; system!(MoveStatus)),
    row!(0xDD, "PUSHL", RL; integer!(Push)),
    row!(0xDE, "MOVAL" or "MOVAF", AL, WL; integer!(MoveAddress(Size::L))),
    row!(0xDF, "PUSHAL" or "PUSHAF", AL; integer!(PushAddress(Size::L))),
    row!(0xE0, "BBS", RL, VB, BB; field!(Branch { set: true, becomes: None })),
    row!(0xE1, "BBC", RL, VB, BB; field!(Branch { set: false, becomes: None })),
    row!(0xE2, "BBSS", RL, VB, BB; field!(Branch { set: true, becomes: Some(true) })),
    row!(0xE3, "BBCS", RL, VB, BB; field!(Branch { set: false, becomes: Some(true) })),
    row!(0xE4, "BBSC", RL, VB, BB; field!(Branch { set: true, becomes: Some(false) })),
    row!(0xE5, "BBCC", RL, VB, BB; field!(Branch { set: false, becomes: Some(false) })),
    row!(0xE6, "BBSSI", RL, VB, BB; field!(Branch { set: true, becomes: Some(true) })),
    row!(0xE7, "BBCCI", RL, VB, BB; field!(Branch { set: false, becomes: Some(false) })),
    row!(0xE8, "BLBS", RL, BB; control!(LowBit { set: true })),
    row!(0xE9, "BLBC", RL, BB; control!(LowBit { set: false })),
    row!(0xEA, "FFS", RL, RB, VB, WL; field!(FindFirst { set: true })),
    row!(0xEB, "FFC", RL, RB, VB, WL; field!(FindFirst { set: false })),
    row!(0xEC, "CMPV", RL, RB, VB, RL; field!(Compare { signed: true })),
    row!(0xED, "CMPZV", RL, RB, VB, RL; field!(Compare { signed: false })),
    row!(0xEE, "EXTV", RL, RB, VB, WL; field!(Extract { signed: true })),
    row!(0xEF, "EXTZV", RL, RB, VB, WL; field!(Extract { signed: false })),
    row!(0xF0, "INSV", RL, RL, RB, VB; field!(Insert)),
    row!(0xF1, "ACBL", RL, RL, ML, BW; control!(AddCompare(Narrow::L))),
    row!(0xF2, "AOBLSS", RL, ML, BB; control!(AddOne(Relation::Less))),
    row!(0xF3, "AOBLEQ", RL, ML, BB; control!(AddOne(Relation::LessOrEqual))),
    row!(0xF4, "SOBGEQ", ML, BB; control!(SubtractOne(Relation::GreaterOrEqual))),
    row!(0xF5, "SOBGTR", ML, BB; control!(SubtractOne(Relation::Greater))),
    row!(0xF6, "CVTLB", RL, WB; unary!(Convert L B)),
    row!(0xF7, "CVTLW", RL, WW; unary!(Convert L W)),
    RESERVED, RESERVED, // F8 to F9
    row!(0xFA, "CALLG", AB, AB; Action::Call(Call::WithList)),
    row!(0xFB, "CALLS", RL, AB; Action::Call(Call::WithStack)),
    row!(0xFC, "XFC"; system!(Customer)),
    RESERVED, RESERVED, RESERVED, // FD to FF
];
