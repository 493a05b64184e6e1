//! Where the names that modules share lead.
ghost use Rattle.std.specs.Prelude.{◌≡◌, IfOk, OnOk, option_copied};
ghost use Rattle.std.specs.List.{find};
ghost use Rattle.vax_link.specs.Leads as leads;
ghost use Rattle.vax_link.specs.Leads.{IsLead, IsLeads, IsLed, IsStep};
ghost use Rattle.vax_link.specs.Names as spec;
ghost use Rattle.vax_link.specs.Names.{Entries};
ghost use Rattle.vax_link.specs.Tables.{IsTable};

use crate::names::{Chased, Names, external_name, low_longword};
use std::alloc::{AllocError, Global};
use std::collections::HashMap;
use vax_module::{ExternalName, Module, Value};

/// What a name leads to, and in how many steps.
#[derive(Clone, Copy)]
struct Led {
    end: Chased,
    steps: u64,
}

/// What a name stands for: what is known to be its end, or another name and what is added to that.
#[derive(Clone, Copy)]
enum Step<'a> {
    Known(Led),
    On(&'a [u8], u32),
}

/// The names of modules, and where those lead that have been followed and stand for other names. So each is followed
/// once, however many lead to it.
#[derive(Drop)]
pub(crate) struct Leads<'a> {
    pub(crate) names: Names<'a>,
    led: HashMap<&'a [u8], Led>,
}

/// The end with more added to it.
fn moved(by: u32, end: Chased) -> Chased
    ensures { result ≡ leads.moved by end }
{
    match end {
        Chased::Ends(owner, value, offset) => Chased::Ends(owner, value, by.wrapping_add(offset)),
        Chased::Unknown(offset) => Chased::Unknown(by.wrapping_add(offset)),
        Chased::Circles => Chased::Circles,
    }
}

impl<'a> Leads<'a> {
    /// No name has been followed yet.
    pub(crate) fn new(alloc: Global, names: Names<'a>) -> Leads<'a>
        ensures names { result.names ≡ names.entry }
        ensures leads { (entries : Entries) → IsTable names.entry entries → IsLeads result entries }
    {
        Leads {
            names,
            led: HashMap::new(alloc),
        }
    }

    /// What a name stands for.
    fn step(&self, name: &'a [u8]) -> Step<'a>
        ensures { (entries : Entries) → IsLeads self.now entries →
            IsStep self.now.names.modules.now entries name.entry.now result }
    {
        let Some(definition) = self.names.defined.get(name) else {
            return Step::Known(Led {
                end: Chased::Unknown(0),
                steps: 1,
            });
        };
        let Value::External { index, offset } = definition.value else {
            return Step::Known(Led {
                end: Chased::Ends(definition.owner, definition.value, 0),
                steps: 1,
            });
        };
        match self.led.get(name) {
            Some(led) => Step::Known(*led),
            None => Step::On(
                external_name(self.names.modules, definition.owner, index),
                low_longword(offset),
            ),
        }
    }

    /// Where a name leads; none where it comes back to a name that it has met.
    fn lead(&self, name: &'a [u8]) -> Option<Led>
        ensures { (entries : Entries) → IsLeads self.now entries →
            IsLead self.now.names.modules.now entries name.entry.now result }
    {
        let mut name = name;
        let mut offset = 0u32;
        for steps in 0..self.names.steps {
            match self.step(name) {
                Step::Known(led) => {
                    if led.steps > self.names.steps - steps {
                        return None;
                    }
                    return Some(Led {
                        end: moved(offset, led.end),
                        steps: steps + led.steps,
                    });
                }
                Step::On(next, more) => {
                    name = next;
                    offset = offset.wrapping_add(more);
                }
            }
        }
        None
    }

    /// Keeps where a name leads, and each name on the way that isn't kept yet.
    fn remember(&mut self, name: &'a [u8], led: Led) -> Result<(), AllocError>
        ensures names { self.new.names ≡ self.old.names }
        ensures leads { (entries : Entries) → IsLeads self.old entries →
            IsLed self.old.names.modules.now entries name.entry.now led →
            OnOk result (IsLeads self.new entries) }
    {
        let mut name = name;
        let mut led = led;
        while led.steps > 1 {
            let Step::On(next, more) = self.step(name) else {
                return Ok(());
            };
            let Ok(_) = self.led.insert(name, led) else {
                return Err(AllocError);
            };
            name = next;
            led = Led {
                end: moved(more.wrapping_neg(), led.end),
                steps: led.steps - 1,
            };
        }
        Ok(())
    }

    /// Where a name leads.
    pub(crate) fn chase(&self, name: &'a [u8]) -> Chased
        ensures { (entries : Entries) → IsLeads self.now entries →
            result ≡ spec.chase self.now.names.modules.now entries name.entry.now }
    {
        match self.lead(name) {
            None => Chased::Circles,
            Some(led) => moved(0, led.end),
        }
    }

    /// Whether a name comes back to one that it has already met. Where it leads is kept.
    fn comes_back(&mut self, name: &'a [u8]) -> Result<bool, AllocError>
        ensures names { self.new.names ≡ self.old.names }
        ensures leads { (entries : Entries) → IsLeads self.old entries →
            OnOk result (IsLeads self.new entries) }
        ensures value { (entries : Entries) → IsLeads self.old entries →
            IfOk result (λ back. back ≡ spec.comes_back
            (spec.chase self.old.names.modules.now entries name.entry.now)) }
    {
        let Some(led) = self.lead(name) else {
            return Ok(true);
        };
        self.remember(name, led)?;
        Ok(matches!(led.end, Chased::Circles))
    }

    /// Whether no module defines a name that isn't weak, or its definition comes back to a name that it has already met.
    fn is_at_fault(&mut self, external: &'a ExternalName) -> Result<bool, AllocError>
        ensures names { self.new.names ≡ self.old.names }
        ensures leads { (entries : Entries) → IsLeads self.old entries →
            OnOk result (IsLeads self.new entries) }
        ensures value { (entries : Entries) → IsLeads self.old entries →
            IfOk result (λ fault. fault
            ≡ spec.is_at_fault self.old.names.modules.now entries external.entry.now) }
    {
        let name = external.name.as_slice();
        if !external.weak && !self.names.has(name) {
            return Ok(true);
        }
        self.comes_back(name)
    }

    /// The first of these external names that is at fault.
    fn undefined_of(
        &mut self,
        externals: &'a [ExternalName],
    ) -> Result<Option<&'a ExternalName>, AllocError>
        ensures names { self.new.names ≡ self.old.names }
        ensures leads { (entries : Entries) → IsLeads self.old entries →
            OnOk result (IsLeads self.new entries) }
        ensures value { (entries : Entries) → IsLeads self.old entries →
            IfOk result (λ found. option_copied found
            ≡ find (spec.is_at_fault self.old.names.modules.now entries) externals.entry.now) }
    {
        for external in externals {
            if self.is_at_fault(external)? {
                return Ok(Some(external));
            }
        }
        Ok(None)
    }

    /// The first external name at fault.
    pub(crate) fn undefined(&mut self) -> Result<Option<&'a ExternalName>, AllocError>
        ensures names { self.new.names ≡ self.old.names }
        ensures leads { (entries : Entries) → IsLeads self.old entries →
            OnOk result (IsLeads self.new entries) }
        ensures value { (entries : Entries) → IsLeads self.old entries →
            IfOk result (λ found. option_copied found
            ≡ find (spec.is_at_fault self.old.names.modules.now entries)
            (spec.externals self.old.names.modules.now)) }
    {
        for module in self.names.modules {
            if let Some(external) = self.undefined_of(module.externals.as_slice())? {
                return Ok(Some(external));
            }
        }
        Ok(None)
    }
}
