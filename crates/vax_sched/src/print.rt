//! The text of a schedule.
ghost use Rattle.std.specs.Prelude.{◌≡◌, ◌+◌, ◌<◌, ◌≤◌, ◌^◌, ◌++◌, true, IfOk, length};
ghost use Rattle.std.specs.List.{list_all};
ghost use Rattle.vax_sched.specs.Kept.{is_page, is_proper};
ghost use Rattle.vax_sched.specs.Printed.{at_line, each_line, printed, rule_line, target_text};

use crate::rule::{Repeated, Rule, Target};
use std::alloc::{AllocError, Global};
use vax_outside::Text;

/// Appends the line `at T PAGE`, with its LF.
#[tactic(auto, unfolding(crate::specs::Printed::at_line))]
pub fn push_at(text: &mut Text, turn: u64, page: u32)
    requires room { length text.old + 33 ≤ 512 }
    requires small { page < 2 ^ 23 }
    ensures exact { text.new ≡ text.old ++ at_line turn page }
    ensures short { length text.new ≤ length text.old + 33 }
{
    text.push(b"at ");
    text.push_decimal(turn);
    text.push(b" ");
    text.push_hex8(512 * page);
    text.push(b"\n");
}

/// Appends a page's address, or `all`.
fn push_target(text: &mut Text, target: Target)
    requires room { length text.old + 8 ≤ 512 }
    requires proper { is_page target ≡ true }
    ensures exact { text.new ≡ text.old ++ target_text target }
    ensures short { length text.new ≤ length text.old + 8 }
{
    match target {
        Target::Page(page) => text.push_hex8(512 * page),
        Target::All => text.push(b"all"),
    }
}

/// Appends an `each` line.
fn push_each(text: &mut Text, rule: Repeated)
    requires room { length text.old + 36 ≤ 512 }
    requires proper { is_page rule.target ≡ true }
    ensures exact { text.new ≡ text.old ++ each_line rule.turns rule.target }
{
    text.push(b"each ");
    text.push_decimal(rule.turns);
    text.push(b" ");
    push_target(text, rule.target);
    text.push(b"\n");
}

/// The line of a rule.
fn line_of(rule: Rule) -> Text
    requires { is_proper rule ≡ true }
    ensures { result ≡ rule_line rule }
{
    let mut text = Text::new();
    match rule {
        Rule::At(rule) => push_at(&mut text, rule.turn, rule.page),
        Rule::Each(rule) => push_each(&mut text, rule),
    }
    text
}

/// The lines of rules.
#[tactic(auto, unfolding(crate::specs::Printed::printed))]
pub(crate) fn text_of(alloc: Global, rules: &[Rule]) -> Result<Vec<u8>, AllocError>
    requires { list_all is_proper rules.now ≡ true }
    ensures { IfOk result (λ text. text.items ≡ printed rules.now) }
{
    let mut text = Vec::new(alloc);
    for rule in rules {
        text.extend_from_slice(line_of(*rule).as_slice())?;
    }
    Ok(text)
}
