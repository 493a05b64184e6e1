// The directives.

ghost use Rattle.std.specs.Prelude.{◌≡◌, map};
ghost use Rattle.std.specs.Str.{str_eq_ignore_ascii_case};
ghost use Rattle.vax_asm_statement.specs.Directives.{directives, further_directives, directive_of, named, first_directive, named_in, attributes, attribute_of, named_attribute, first_attribute};

use vax_asm_encode::DataKind;
use vax_dialect::Dialect;
use vax_word::Size;

/// An operand that stands without the name of an instruction.
#[derive(Clone, Copy, PartialEq, Eq)]
pub enum Referring {
    /// `.REF1`, `.REF2`, `.REF4`, `.REF8`: one that reads so many bytes, without an opcode.
    Read(Size),
    /// `POPL`: one that the longword is written to that is taken from the stack, as by `MOVL (SP)+`.
    Pop,
}

/// What a directive does (VAX MACRO and Instruction Set Reference Manual, "VAX MACRO assembler directives"). The directives of
/// macros, repeats and conditions are not among them, but an operator is that stands for bytes and an operand (opcode table, `POPL`).
#[derive(Clone, Copy, PartialEq, Eq)]
pub enum Directive {
    /// `.PSECT name,attributes`.
    Section,
    /// `.ENTRY name,mask`.
    Entry,
    /// `.BYTE`, `.WORD`, `.LONG`, `.QUAD`, `.OCTA`, `.SIGNED_BYTE`, `.SIGNED_WORD`: items of this kind.
    Data(DataKind),
    /// `.ADDRESS`: addresses.
    Address,
    /// `.ASCII`: pieces of text.
    Text,
    /// `.ASCIC`: the count of the bytes first.
    CountedText,
    /// `.ASCIZ`: a zero byte last.
    ZeroText,
    /// `.ASCID`: a descriptor first.
    DescribedText,
    /// `.BLKB`, `.BLKW`, `.BLKL`, `.BLKA`, `.BLKQ`, `.BLKF`, `.BLKD`, `.BLKG`, `.BLKO`, `.BLKH`: room for so many items of this kind.
    Space(DataKind),
    /// `.REF1`, `.REF2`, `.REF4`, `.REF8`, `POPL`: an operand.
    Reference(Referring),
    /// `.ALIGN`: up to a multiple of a power of two.
    Align,
    /// `.EVEN`: up to a multiple of two.
    Even,
    /// `.ODD`: up to what is no multiple of two.
    Odd,
    /// `.GLOBAL`, `.GLOBL`: names for other modules.
    Global,
    /// `.WEAK`: names for other modules, or from them if one has them.
    Weak,
    /// `.EXTERNAL`, `.EXTRN`: names of other modules.
    External,
    /// `.ENABLE`, `.ENABL`: functions of the assembler that are wanted.
    Enable,
    /// `.DISABLE`, `.DSABL`: those that aren't.
    Disable,
    /// `.DEFAULT`: the size of a displacement to what isn't known.
    Default,
    /// `.SAVE_PSECT`, `.SAVE`: the section is put aside.
    Save,
    /// `.RESTORE_PSECT`, `.RESTORE`: the section that was put aside last goes on.
    Restore,
    /// `.TITLE`, `.SBTTL`, `.SUBTITLE`, `.IDENT`, `.PAGE`, `.LIST`, `.NLIST`, `.SHOW`, `.NOSHOW`, `.CROSS`, `.NOCROSS`, `.DEBUG`,
    /// `.LIBRARY`, `.MCALL`, `.LINK`, `.TRANSFER`, `.PRINT`, `.WARN`: nothing in the module.
    Listing,
    /// `.NTYPE`: a name is assigned how an operand is addressed.
    OperandType,
    /// `.MASK`: a word that holds the mask of an entry.
    Mask,
    /// `.ERROR`: the source is wrong here.
    Error,
    /// `.END`: where the program begins.
    End,
}

#[derive(Clone, Copy)]
struct Named {
    name: &'static str,
    directive: Directive,
}

#[rattlefmt::skip]
static DIRECTIVES: [Named; 33] = [
    Named { name: ".PSECT", directive: Directive::Section },
    Named { name: ".ENTRY", directive: Directive::Entry },
    Named { name: ".BYTE", directive: Directive::Data(DataKind::Number(Size::B)) },
    Named { name: ".WORD", directive: Directive::Data(DataKind::Number(Size::W)) },
    Named { name: ".LONG", directive: Directive::Data(DataKind::Number(Size::L)) },
    Named { name: ".QUAD", directive: Directive::Data(DataKind::Number(Size::Q)) },
    Named { name: ".SIGNED_BYTE", directive: Directive::Data(DataKind::Signed(Size::B)) },
    Named { name: ".SIGNED_WORD", directive: Directive::Data(DataKind::Signed(Size::W)) },
    Named { name: ".ADDRESS", directive: Directive::Address },
    Named { name: ".ASCII", directive: Directive::Text },
    Named { name: ".ASCIC", directive: Directive::CountedText },
    Named { name: ".ASCIZ", directive: Directive::ZeroText },
    Named { name: ".BLKB", directive: Directive::Space(DataKind::Number(Size::B)) },
    Named { name: ".BLKW", directive: Directive::Space(DataKind::Number(Size::W)) },
    Named { name: ".BLKL", directive: Directive::Space(DataKind::Number(Size::L)) },
    Named { name: ".BLKA", directive: Directive::Space(DataKind::Number(Size::L)) },
    Named { name: ".BLKQ", directive: Directive::Space(DataKind::Number(Size::Q)) },
    Named { name: ".ALIGN", directive: Directive::Align },
    Named { name: ".EVEN", directive: Directive::Even },
    Named { name: ".GLOBAL", directive: Directive::Global },
    Named { name: ".GLOBL", directive: Directive::Global },
    Named { name: ".EXTERNAL", directive: Directive::External },
    Named { name: ".EXTRN", directive: Directive::External },
    Named { name: ".TITLE", directive: Directive::Listing },
    Named { name: ".SBTTL", directive: Directive::Listing },
    Named { name: ".SUBTITLE", directive: Directive::Listing },
    Named { name: ".IDENT", directive: Directive::Listing },
    Named { name: ".PAGE", directive: Directive::Listing },
    Named { name: ".LIST", directive: Directive::Listing },
    Named { name: ".NLIST", directive: Directive::Listing },
    Named { name: ".SHOW", directive: Directive::Listing },
    Named { name: ".NOSHOW", directive: Directive::Listing },
    Named { name: ".END", directive: Directive::End },
];

fn all_directives() -> &'static [Named; 33]
    ensures { map named result.now ≡ directives }
{
    &DIRECTIVES
}

/// Those of one dialect alone.
#[rattlefmt::skip]
static FURTHER_DIRECTIVES: [Named; 35] = [
    Named { name: ".ASCID", directive: Directive::DescribedText },
    Named { name: ".OCTA", directive: Directive::Data(DataKind::Octaword) },
    Named { name: ".BLKO", directive: Directive::Space(DataKind::Octaword) },
    Named { name: ".BLKH", directive: Directive::Space(DataKind::Octaword) },
    Named { name: ".BLKF", directive: Directive::Space(DataKind::Number(Size::L)) },
    Named { name: ".BLKD", directive: Directive::Space(DataKind::Number(Size::Q)) },
    Named { name: ".BLKG", directive: Directive::Space(DataKind::Number(Size::Q)) },
    Named { name: ".REF1", directive: Directive::Reference(Referring::Read(Size::B)) },
    Named { name: ".REF2", directive: Directive::Reference(Referring::Read(Size::W)) },
    Named { name: ".REF4", directive: Directive::Reference(Referring::Read(Size::L)) },
    Named { name: ".REF8", directive: Directive::Reference(Referring::Read(Size::Q)) },
    Named { name: "POPL", directive: Directive::Reference(Referring::Pop) },
    Named { name: ".NTYPE", directive: Directive::OperandType },
    Named { name: ".MASK", directive: Directive::Mask },
    Named { name: ".ODD", directive: Directive::Odd },
    Named { name: ".WEAK", directive: Directive::Weak },
    Named { name: ".ENABLE", directive: Directive::Enable },
    Named { name: ".ENABL", directive: Directive::Enable },
    Named { name: ".DISABLE", directive: Directive::Disable },
    Named { name: ".DSABL", directive: Directive::Disable },
    Named { name: ".DEFAULT", directive: Directive::Default },
    Named { name: ".SAVE_PSECT", directive: Directive::Save },
    Named { name: ".SAVE", directive: Directive::Save },
    Named { name: ".RESTORE_PSECT", directive: Directive::Restore },
    Named { name: ".RESTORE", directive: Directive::Restore },
    Named { name: ".CROSS", directive: Directive::Listing },
    Named { name: ".NOCROSS", directive: Directive::Listing },
    Named { name: ".DEBUG", directive: Directive::Listing },
    Named { name: ".LIBRARY", directive: Directive::Listing },
    Named { name: ".MCALL", directive: Directive::Listing },
    Named { name: ".LINK", directive: Directive::Listing },
    Named { name: ".TRANSFER", directive: Directive::Listing },
    Named { name: ".PRINT", directive: Directive::Listing },
    Named { name: ".WARN", directive: Directive::Listing },
    Named { name: ".ERROR", directive: Directive::Error },
];

fn all_further_directives() -> &'static [Named; 35]
    ensures { map named result.now ≡ further_directives }
{
    &FURTHER_DIRECTIVES
}

fn is_called(word: &str, name: &str) -> bool
    ensures { result ≡ str_eq_ignore_ascii_case word.now name.now }
{
    word.eq_ignore_ascii_case(name)
}

fn found(all: &[Named], name: &str) -> Option<Directive>
    ensures { result ≡ first_directive all.now name.now }
{
    for entry in all {
        if is_called(entry.name, name) {
            return Some(entry.directive);
        }
    }
    None
}

#[tactic(auto, using(crate::proofs::Tables::directive_found))]
fn common_directive(name: &str) -> Option<Directive>
    ensures { result ≡ named_in directives name.now }
{
    found(all_directives(), name)
}

#[tactic(auto, using(crate::proofs::Tables::further_found))]
fn further_directive(name: &str) -> Option<Directive>
    ensures { result ≡ named_in further_directives name.now }
{
    found(all_further_directives(), name)
}

/// The directive with this name in a dialect, in letters of either case.
#[tactic(auto, unfolding(crate::specs::Directives::directive_of))]
pub fn directive_named(dialect: Dialect, name: &str) -> Option<Directive>
    ensures { result ≡ directive_of dialect name.now }
{
    match common_directive(name) {
        Some(directive) => Some(directive),
        None => {
            if dialect.has_further_directives() {
                further_directive(name)
            } else {
                None
            }
        }
    }
}

/// What an attribute says of a section.
#[derive(Clone, Copy, PartialEq, Eq)]
pub enum Attribute {
    /// `BYTE`, `WORD`, `LONG`, `QUAD`, `PAGE`: the power of two that it is aligned to.
    Align(u8),
    /// `WRT`, `NOWRT`: whether it may be written.
    Write(bool),
    /// `ABS`, `REL`: whether it is absolute.
    Absolute(bool),
    /// `OVR`, `CON`: whether it is overlaid.
    Overlaid(bool),
    /// It is read, and changes nothing.
    Ignored,
}

#[derive(Clone, Copy)]
struct NamedAttribute {
    name: &'static str,
    attribute: Attribute,
}

#[rattlefmt::skip]
static ATTRIBUTES: [NamedAttribute; 21] = [
    NamedAttribute { name: "BYTE", attribute: Attribute::Align(0) },
    NamedAttribute { name: "WORD", attribute: Attribute::Align(1) },
    NamedAttribute { name: "LONG", attribute: Attribute::Align(2) },
    NamedAttribute { name: "QUAD", attribute: Attribute::Align(3) },
    NamedAttribute { name: "PAGE", attribute: Attribute::Align(9) },
    NamedAttribute { name: "WRT", attribute: Attribute::Write(true) },
    NamedAttribute { name: "NOWRT", attribute: Attribute::Write(false) },
    NamedAttribute { name: "PIC", attribute: Attribute::Ignored },
    NamedAttribute { name: "NOPIC", attribute: Attribute::Ignored },
    NamedAttribute { name: "EXE", attribute: Attribute::Ignored },
    NamedAttribute { name: "NOEXE", attribute: Attribute::Ignored },
    NamedAttribute { name: "RD", attribute: Attribute::Ignored },
    NamedAttribute { name: "SHR", attribute: Attribute::Ignored },
    NamedAttribute { name: "NOSHR", attribute: Attribute::Ignored },
    NamedAttribute { name: "CON", attribute: Attribute::Overlaid(false) },
    NamedAttribute { name: "REL", attribute: Attribute::Absolute(false) },
    NamedAttribute { name: "LCL", attribute: Attribute::Ignored },
    NamedAttribute { name: "GBL", attribute: Attribute::Ignored },
    NamedAttribute { name: "USR", attribute: Attribute::Ignored },
    NamedAttribute { name: "LIB", attribute: Attribute::Ignored },
    NamedAttribute { name: "NOVEC", attribute: Attribute::Ignored },
];

fn all_attributes() -> &'static [NamedAttribute; 21]
    ensures { map named_attribute result.now ≡ attributes }
{
    &ATTRIBUTES
}

fn found_attribute(all: &[NamedAttribute], name: &str) -> Option<Attribute>
    ensures { result ≡ first_attribute all.now name.now }
{
    for entry in all {
        if is_called(entry.name, name) {
            return Some(entry.attribute);
        }
    }
    None
}

/// The attribute of a section with this name, in letters of either case (VAX MACRO and Instruction Set Reference
/// Manual, `.PSECT`).
#[tactic(auto, using(crate::proofs::Tables::attribute_found), unfolding(crate::specs::Directives::attribute_of))]
pub fn attribute_named(name: &str) -> Option<Attribute>
    ensures { result ≡ attribute_of name.now }
{
    found_attribute(all_attributes(), name)
}
