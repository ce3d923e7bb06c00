//! Day results as rows of a day table, and rows checked into day results.
ghost use Rattle.std.specs.Prelude.{◌≡◌, MatchBool, MatchOption};
ghost use Rattle.assessment.specs.Lines.{figures_in, PoolWithin, FiguresWithin, RowWithin};

use crate::day_result::{DayFigures, DayResult, DayRow, PoolFigures};
use pools::Pool;

const MOST_WATTS: u32 = 2_000_000_000;

fn pool_within(figures: PoolFigures) -> bool
    ensures { MatchBool result (PoolWithin figures) (PoolWithin figures → ⊥) }
{
    figures.availability <= figures.obligation && figures.obligation <= MOST_WATTS
}

fn each_within(figures: &DayFigures) -> bool
    ensures { MatchBool result (FiguresWithin figures.now) (FiguresWithin figures.now → ⊥) }
{
    Pool::ALL.iter().all(|pool| pool_within(figures.get(*pool)))
}

impl DayResult {
    /// The row that stores the result.
    pub fn row(&self) -> DayRow
        ensures { result ≡ Some self.now.figures }
    {
        Some(self.figures)
    }

    /// The result in a row, zeros for an empty place; None if the row is past a day result's limits.
    pub fn of_row(row: DayRow) -> Option<DayResult>
        ensures { MatchOption result (RowWithin row → ⊥) (λ d. d.figures ≡ figures_in row) }
    {
        let figures = row.unwrap_or_default();
        // The zeros of an empty place need no test.
        if row.is_some() && !each_within(&figures) {
            return None;
        }
        Some(DayResult { figures })
    }
}
