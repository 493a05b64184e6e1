//! What the reports are of.
ghost use Rattle.std.specs.Prelude.{◌≡◌, ℕ, List, map};
ghost use Rattle.vax_jobs.specs.Pool.{keeps_of};
ghost use Rattle.vax_jobs.specs.Running.{Stands, System};
ghost use Rattle.vax_jobs.specs.Shared.{Process};
ghost use Rattle.vax_jobs_report.specs.Reports.{machine_reports, process_reports};
ghost use Rattle.vax_report.specs.declared.Last.{Last};

/// The reports on machines that stand for flat machines are those on these.
pub fn reports_are_of_flat_machines()
    ensures { (limit : ℕ) (other : Last) (y : System) (processes : List Process)
        → y.pooling.processes ≡ map keeps_of y.machines → Stands y processes
        → machine_reports limit other y.machines ≡ process_reports limit other processes }
{}
