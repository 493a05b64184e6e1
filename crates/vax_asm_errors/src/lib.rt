//! The errors of a source as text: each with its place, what is wrong, the line and a mark below it.
#![tactic(auto)]

mod circles;
mod errors;
mod facts;
mod laws;
mod line;
mod messages;
mod notes;
mod remarks;
mod said;
mod walk;

pub use errors::{MOST, Source, push_errors};
pub use laws::{
    errors_begin_with_the_refusal, sources_that_assemble_have_no_errors,
    sources_without_further_directives_have_remarks_alone,
};
pub use notes::Noted;
pub use remarks::push_remarks;
pub use said::Said;
pub use vax_asm_causes::Wanted;
pub use vax_prelude::{Prelude, Title};
