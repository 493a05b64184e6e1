// What statements leave, made once more.

ghost use Rattle.std.specs.Prelude.{◌≡◌, IfOk, OnOk, map};
ghost use Rattle.vax_asm.specs.Placing.{placed};
ghost use Rattle.vax_asm.specs.PlacingView.{Places};
ghost use Rattle.vax_asm.specs.Walk.{nothing};
ghost use Rattle.vax_asm_check.specs.Restating.{restated};
ghost use Rattle.vax_asm_check.specs.View.{left_of, said_of, IsMark, IsMarkOf};
ghost use Rattle.vax_asm_faults.specs.Survey.{left_by};

use std::alloc::Global;
use vax_asm::{Placed, place};
use vax_asm_first::{Assignment, Origin, Standing};
use vax_dialect::Dialect;
use vax_macro::Line;
use vax_space::NoMemory;

/// A statement that stands: where it comes from, and its line.
#[derive(Drop)]
pub(crate) struct Stated {
    pub(crate) origin: Origin,
    pub(crate) line: Line,
}

/// What statements leave.
#[derive(Drop)]
pub(crate) struct Left {
    pub(crate) standing: Standing,
    /// The assignments that have no value yet, in order.
    pub(crate) assignments: Vec<Assignment>,
}

/// The same line once more.
pub(crate) fn copied(alloc: Global, line: &Line) -> Result<Line, NoMemory>
    ensures { IfOk result (λ l. l.text.items ≡ line.now.text.items) }
{
    let text = line.text.to_vec(alloc).map_err(|_| NoMemory)?;
    let pieces = line.pieces.to_vec(alloc).map_err(|_| NoMemory)?;
    Ok(Line {
        dialect: line.dialect,
        number: line.number,
        text,
        pieces,
    })
}

impl Left {
    pub(crate) fn new(alloc: Global, dialect: Dialect) -> Result<Left, NoMemory>
        ensures { IfOk result (λ l. left_of l ≡ nothing dialect) }
    {
        let standing = Standing::new(alloc, dialect)?;
        Ok(Left {
            standing,
            assignments: Vec::new(alloc),
        })
    }

    /// Carries out a statement. There is a mark before it, unless what it has done can't be undone.
    pub(crate) fn place(
        &mut self,
        alloc: Global,
        origin: Origin,
        said: Line,
    ) -> Result<Placed, NoMemory>
        ensures placed { Places
            (placed origin said.text.items) result (left_of self.old) (left_of self.new) }
        ensures mark { IsMark self.new.standing (left_of self.old).standing }
    {
        self.standing.mark();
        place(
            &mut self.standing,
            &mut self.assignments,
            alloc,
            origin,
            said,
        )
    }

    /// Makes all what it was at the mark, where there were so many assignments, which these statements leave that stand. Where there is
    /// no mark any more, they are carried out once more.
    pub(crate) fn go_back(
        &mut self,
        alloc: Global,
        dialect: Dialect,
        stood: &[Stated],
        many: usize,
    ) -> Result<(), NoMemory>
        requires { IsMarkOf self.old many (restated (map said_of stood.now) (nothing dialect)) }
        ensures { OnOk result
            (left_of self.new ≡ restated (map said_of stood.now) (nothing dialect)) }
    {
        if self.standing.go_back(alloc) {
            self.assignments.truncate(many);
            return Ok(());
        }
        *self = restated(alloc, dialect, stood)?;
        Ok(())
    }

    /// Carries out a statement once more.
    #[tactic(auto, using(crate::proofs::Restating::stands_again))]
    fn restate(&mut self, alloc: Global, stated: &Stated) -> Result<(), NoMemory>
        ensures { OnOk result (left_of self.new
            ≡ left_by
            (placed stated.now.origin stated.now.line.text.items (left_of self.old).standing)
            (left_of self.old)) }
    {
        let line = copied(alloc, &stated.line)?;
        match place(
            &mut self.standing,
            &mut self.assignments,
            alloc,
            stated.origin,
            line,
        )? {
            Placed::Stands => Ok(()),
            // What stood once stands again.
            Placed::FaultyLabel(_) | Placed::Faulty(_) => Err(NoMemory),
        }
    }
}

/// What statements of a dialect leave that stand one behind another from the first.
#[tactic(auto, using(crate::proofs::Restating::one_restated, crate::proofs::Restating::all_restated))]
pub(crate) fn restated(alloc: Global, dialect: Dialect, stood: &[Stated]) -> Result<Left, NoMemory>
    ensures { IfOk result (λ l. left_of l ≡ restated (map said_of stood.now) (nothing dialect)) }
{
    let mut left = Left::new(alloc, dialect)?;
    for stated in stood {
        left.restate(alloc, stated)?;
    }
    Ok(left)
}
