//! The whole job: from the bytes of a month file to the bytes of its statement.
ghost use Rattle.std.specs.Prelude.{◌≡◌, true, ◌++◌, IfOk, IfErr, OnOk};
ghost use Rattle.statement.specs.Laws.{PrintsClose, StatementsKeepTheLaw, RefusedInOneLine, RecordsDecide, DaysInAnyOrder};
ghost use Rattle.statement.specs.Months.{closed_of};
ghost use Rattle.statement.specs.Printing.{place_row, line_rows, statement_text, output, is_settled};
ghost use Rattle.statement.specs.Refusals.{RefusedBy};

use crate::closed_month::ClosedMonth;
use crate::line::PrintedLine;
use crate::month::settle_month;
use crate::no_statement::NoStatement;
use crate::rows::{header_row, line_row, pool_row};
use assessment::LineState;
use pools::Pool;
use settlement::{LINES, LineEntry, pool_at};
use std::alloc::{AllocError, Global};

/// The line of a place of the line table; an empty one is not printed.
fn place_row(place: usize, entry: &LineEntry) -> PrintedLine
    ensures { result ≡ place_row place entry.now }
{
    match entry.line.state {
        LineState::Empty => PrintedLine::empty(),
        LineState::Charged | LineState::Neutral | LineState::Paid => {
            // The line table is flat, as settlement writes it: LINES places to a resource.
            line_row(place / LINES, pool_at(place), entry)
        }
    }
}

#[tactic(auto, unfolding(crate::specs::Printing::rows_to, crate::specs::Printing::line_rows))]
fn put_lines(out: &mut Vec<u8>, lines: &[LineEntry]) -> Result<(), AllocError>
    ensures { OnOk result (out.new.items ≡ out.old.items ++ line_rows lines.now) }
{
    for (place, entry) in lines.iter().enumerate() {
        out.extend_from_slice(place_row(place, entry).written())?;
    }
    Ok(())
}

fn print_month(heap: Global, month: &ClosedMonth) -> Result<Vec<u8>, AllocError>
    ensures { IfOk result (λ v. v.items ≡ statement_text (closed_of month.now)) }
{
    let mut out = Vec::new(heap);
    out.extend_from_slice(header_row(month).written())?;
    put_lines(&mut out, &month.lines)?;
    out.extend_from_slice(pool_row(month, Pool::Generic).written())?;
    out.extend_from_slice(pool_row(month, Pool::Flexible).written())?;
    Ok(out)
}

/// The statement of a month file, as bytes, or the refusal of its first fault. Memory for the bytes is taken from `heap`; where it runs out
/// the answer is `OutOfMemory`.
#[tactic(auto, using(crate::proofs::Outputs::laws, crate::proofs::Outputs::refused_by), unfolding(crate::specs::Printing::output, crate::specs::Printing::is_settled))]
pub fn settle_file(heap: Global, file: &[u8]) -> Result<Vec<u8>, NoStatement>
    ensures settled { IfOk result (λ v. (is_settled file.now ≡ true) × (v.items ≡ output file.now)) }
    ensures refused { IfErr result (RefusedBy file.now) }
    ensures closed { IfOk result (λ v. PrintsClose file.now v.items) }
    ensures law { StatementsKeepTheLaw }
    ensures one_line { RefusedInOneLine }
    ensures records { RecordsDecide }
    ensures order { DaysInAnyOrder }
{
    let month = settle_month(file)?;
    Ok(print_month(heap, &month)?)
}
