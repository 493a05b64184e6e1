//! Laws of parts of a page file. Each is the contract of a call that does nothing.
ghost use Rattle.vax_window.specs.Windows.{LieApart, OthersStay};

/// No block of one process is one of another.
pub fn windows_lie_apart()
    ensures { LieApart }
{}

/// Where only a process's own blocks changed in its part, the blocks of another are as before.
pub fn other_windows_stay()
    ensures { OthersStay }
{}
