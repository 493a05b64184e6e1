//! Why saving was cut short.
use vax_outside::Failed;
use vax_pager::PageFault;

/// Why saving was cut short.
#[derive(Clone, Copy, PartialEq, Eq)]
pub(crate) enum Fault {
    /// A call of the page file failed.
    Page,
    /// A write failed.
    Write,
}

impl From<PageFault> for Fault {
    ghost use Rattle.std.specs.Prelude.{◌≡◌};
    ghost use Rattle.vax_save.specs.declared.fault.Fault.TheVariants as fault;

    ghost from_gives = { λ _ f. f ≡ fault.Page };

    fn from(_fault: PageFault) -> Fault {
        Fault::Page
    }
}

impl From<Failed> for Fault {
    ghost use Rattle.std.specs.Prelude.{◌≡◌};
    ghost use Rattle.vax_save.specs.declared.fault.Fault.TheVariants as fault;

    ghost from_gives = { λ _ f. f ≡ fault.Write };

    fn from(_failed: Failed) -> Fault {
        Fault::Write
    }
}
