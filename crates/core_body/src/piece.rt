//! Pieces of the operand stack, and how they meet the types that are due.

ghost use Rattle.std.specs.Prelude.{◌≡◌, ◌↔◌, ◌∷◌, [], IsTrue, MatchOption, drop, length};
ghost use Rattle.std.specs.Bool.{OnTrue};
ghost use Rattle.core_body.specs.Context.{Context};
ghost use Rattle.core_body.specs.Sources.{front};
ghost use Rattle.core_body.specs.Pieces.{run_of, piece_of, NeverMeet, Meet};
ghost use Rattle.core_body.specs.Views.{context_of};

use crate::operand::{Operand, below};
use crate::parts::LONG;
use crate::source::{Run, Source, same_types};
use crate::spaces::Scope;
use virt_base::CoreType;

/// One operand, or one of each type of a run, the last on top.
#[derive(Clone, Copy)]
pub enum Piece {
    One(Operand),
    Many(Run),
}

/// The topmost operand of a piece, and what lies below it there.
#[derive(Clone, Copy)]
pub struct Parted {
    pub operand: Operand,
    pub part: Piece,
}

/// What is left of a piece, and of the types due, where the two have met.
#[derive(Clone, Copy)]
pub struct Met {
    pub part: Piece,
    pub due: Run,
}

pub fn nothing() -> Piece
    ensures { result ≡ Piece.Many (record { of = Source.Nothing; len = 0 }) }
{
    Piece::Many(Run {
        of: Source::Nothing,
        len: 0,
    })
}

/// Whether a piece is known for nothing by its length.
pub fn is_nothing(piece: Piece) -> bool
    ensures { OnTrue result ((c : Context) → piece_of c piece ≡ []) }
{
    match piece {
        Piece::One(_) => false,
        Piece::Many(run) => run.len == 0,
    }
}

fn split_run(scope: &Scope<'_>, run: Run) -> Option<Parted>
    ensures { MatchOption result (run_of (context_of scope.now) run ≡ []) (λ s. run_of (context_of scope.now) run ≡ s.operand ∷ piece_of (context_of scope.now) s.part) }
{
    let held = scope.front(run);
    let count = held.len();
    if count == 0 {
        return None;
    }
    let len = count - 1;
    Some(Parted {
        operand: Operand::Known(held[len]),
        part: Piece::Many(Run { of: run.of, len }),
    })
}

pub fn split(scope: &Scope<'_>, piece: Piece) -> Option<Parted>
    ensures { MatchOption result (piece_of (context_of scope.now) piece ≡ []) (λ s. piece_of (context_of scope.now) piece ≡ s.operand ∷ piece_of (context_of scope.now) s.part) }
{
    match piece {
        Piece::One(operand) => Some(Parted {
            operand,
            part: nothing(),
        }),
        Piece::Many(run) => split_run(scope, run),
    }
}

/// One operand meets the last of the types.
fn bite_one(scope: &Scope<'_>, found: Operand, due: Run) -> Option<Met>
    ensures { MatchOption result (NeverMeet (context_of scope.now) (Piece.One found) due) (λ b. Meet (context_of scope.now) (Piece.One found) due b.part b.due) }
{
    let want = scope.front(due);
    let count = want.len();
    if count == 0 {
        return Some(Met {
            part: Piece::One(found),
            due: Run { of: due.of, len: 0 },
        });
    }
    let len = count - 1;
    if below(found, Operand::Known(want[len])) {
        Some(Met {
            part: nothing(),
            due: Run { of: due.of, len },
        })
    } else {
        None
    }
}

/// Whether what is left of a run after its first types, and of the types due after theirs, is the same.
fn same_ends(
    scope: &Scope<'_>,
    run: Run,
    due: Run,
    kept: usize,
    left: usize,
    first: &[CoreType],
    second: &[CoreType],
) -> bool
    requires first { first.now ≡ drop kept (front (context_of scope.now) run) }
    requires second { second.now ≡ drop left (front (context_of scope.now) due) }
    requires len { length first.now ≡ length second.now }
    ensures { IsTrue result ↔ (first.now ≡ second.now) }
{
    let len = first.len();
    if len < LONG {
        return same_types(first, second);
    }
    if scope
        .spaces
        .types
        .same_slices(run.of, kept, due.of, left, len)
    {
        return true;
    }
    same_types(first, second)
}

/// A run meets as many of the types as it has, the last with the last.
fn bite_run(scope: &Scope<'_>, run: Run, due: Run) -> Option<Met>
    ensures { MatchOption result (NeverMeet (context_of scope.now) (Piece.Many run) due) (λ b. Meet (context_of scope.now) (Piece.Many run) due b.part b.due) }
{
    let held = scope.front(run);
    let want = scope.front(due);
    let kept = held.len().saturating_sub(want.len());
    let left = want.len().saturating_sub(held.len());
    let first = held.split_at(kept).1;
    let second = want.split_at(left).1;
    if same_ends(scope, run, due, kept, left, first, second) {
        Some(Met {
            part: Piece::Many(Run {
                of: run.of,
                len: kept,
            }),
            due: Run {
                of: due.of,
                len: left,
            },
        })
    } else {
        None
    }
}

/// A piece meets the types that are due; none where they never can.
pub fn bite(scope: &Scope<'_>, piece: Piece, due: Run) -> Option<Met>
    ensures { MatchOption result (NeverMeet (context_of scope.now) piece due) (λ b. Meet (context_of scope.now) piece due b.part b.due) }
{
    match piece {
        Piece::One(found) => bite_one(scope, found, due),
        Piece::Many(run) => if scope.same_fronts(run, due) {
            Some(Met {
                part: nothing(),
                due: Run { of: due.of, len: 0 },
            })
        } else {
            bite_run(scope, run, due)
        },
    }
}
