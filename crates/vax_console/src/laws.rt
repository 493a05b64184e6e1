//! The laws of sessions, each the contract of a call that does nothing.
ghost use Rattle.std.specs.Prelude.{◌≡◌, List};
ghost use Rattle.vax_flat.specs.Parts.{At};
ghost use Rattle.vax_flat.specs.Step.{Flat};
ghost use Rattle.vax_script.specs.declared.request.Line.{Line};
ghost use Rattle.vax_console.specs.Transcript.{session_after, transcript};
ghost use Rattle.vax_console.specs.Turns.{CarriesOutAll, Sends, Setting, Stand, session_at};

/// A session by turns is the flat machine's: lines that were carried out lead to where they lead it, and what was sent and replied is its output and
/// its transcript.
pub fn sessions_agree()
    ensures leads { (g : Setting) (lines : List Line) (s t : Stand) (m : Flat) →
        s.at.place ≡ At m → CarriesOutAll g lines s t →
        session_at t ≡ session_after g.limits.steps (session_at s) lines }
    ensures sends { (g : Setting) (lines : List Line) (s t : Stand) (m : Flat) →
        s.at.place ≡ At m → CarriesOutAll g lines s t →
        Sends s t (transcript g.limits.steps (session_at s) lines) }
{}
