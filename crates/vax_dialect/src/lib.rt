//! The dialects of the assembler's language (VAX MACRO and Instruction Set Reference Manual). What differs between them is
//! asked of a [`Dialect`] alone, and stands in specs/Differences.antt, one difference after another.
#![tactic(auto)]

ghost use Rattle.std.specs.Prelude.{◌≡◌};

/// A dialect of the language.
#[derive(Clone, Copy, PartialEq, Eq)]
pub enum Dialect {
    /// The smaller one, in which expressions have 64 bits and each directive that is there does all that it says.
    Vax,
    /// That of the manual, as far as it is there.
    Vms,
}

impl Dialect {
    ghost use Rattle.vax_dialect.specs.Differences.{assigns_places, has_argument_forms, has_arguments_by_value, has_empty_items, has_further_directives, has_longword_values, has_macro_directives, has_negative_repeats, has_places_in_operands, has_single_masks, has_string_operators, has_text_descriptors, has_unnamed_psect};

    /// Whether directives are there beside those that both dialects have.
    pub fn has_further_directives(self) -> bool
        ensures { result ≡ has_further_directives self }
    {
        match self {
            Dialect::Vax => false,
            Dialect::Vms => true,
        }
    }

    /// Whether `.` may stand in operands and in items.
    pub fn has_places_in_operands(self) -> bool
        ensures { result ≡ has_places_in_operands self }
    {
        match self {
            Dialect::Vax => false,
            Dialect::Vms => true,
        }
    }

    /// Whether operators of expressions see the low 32 bits of numbers, with their sign, and give such numbers.
    pub fn has_longword_values(self) -> bool
        ensures { result ≡ has_longword_values self }
    {
        match self {
            Dialect::Vax => false,
            Dialect::Vms => true,
        }
    }

    /// Whether an item of data without an expression is 0.
    pub fn has_empty_items(self) -> bool
        ensures { result ≡ has_empty_items self }
    {
        match self {
            Dialect::Vax => false,
            Dialect::Vms => true,
        }
    }

    /// Whether `.PSECT` without a name goes on in the section that has none.
    pub fn has_unnamed_psect(self) -> bool
        ensures { result ≡ has_unnamed_psect self }
    {
        match self {
            Dialect::Vax => false,
            Dialect::Vms => true,
        }
    }

    /// Whether `. = e` goes on at a place of the section.
    pub fn assigns_places(self) -> bool
        ensures { result ≡ assigns_places self }
    {
        match self {
            Dialect::Vax => false,
            Dialect::Vms => true,
        }
    }

    /// Whether a negative count of `.REPT` makes no copy.
    pub fn has_negative_repeats(self) -> bool
        ensures { result ≡ has_negative_repeats self }
    {
        match self {
            Dialect::Vax => false,
            Dialect::Vms => true,
        }
    }

    /// Whether `^/text/` is an argument as `<text>` is, and a `;` within brackets begins no comment.
    pub fn has_argument_forms(self) -> bool
        ensures { result ≡ has_argument_forms self }
    {
        match self {
            Dialect::Vax => false,
            Dialect::Vms => true,
        }
    }

    /// Whether an argument `\e` of a macro stands for the value of e in decimal digits.
    pub fn has_arguments_by_value(self) -> bool
        ensures { result ≡ has_arguments_by_value self }
    {
        match self {
            Dialect::Vax => false,
            Dialect::Vms => true,
        }
    }

    /// Whether `%LENGTH`, `%LOCATE` and `%EXTRACT` stand for their values in lines of macros and repeats.
    pub fn has_string_operators(self) -> bool
        ensures { result ≡ has_string_operators self }
    {
        match self {
            Dialect::Vax => false,
            Dialect::Vms => true,
        }
    }

    /// Whether `.MEXIT`, `.NARG`, `.NCHR`, `.MDELETE` and `.OPDEF` are there.
    pub fn has_macro_directives(self) -> bool
        ensures { result ≡ has_macro_directives self }
    {
        match self {
            Dialect::Vax => false,
            Dialect::Vms => true,
        }
    }

    /// Whether `.ASCID` is there, whose operands are pieces of text.
    pub fn has_text_descriptors(self) -> bool
        ensures { result ≡ has_text_descriptors self }
    {
        match self {
            Dialect::Vax => false,
            Dialect::Vms => true,
        }
    }

    /// Whether `^M` may stand before one register without brackets.
    pub fn has_single_masks(self) -> bool
        ensures { result ≡ has_single_masks self }
    {
        match self {
            Dialect::Vax => false,
            Dialect::Vms => true,
        }
    }
}
