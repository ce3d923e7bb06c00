//! The lines of a statement, and the line of a refusal. Each ends in a line feed.
ghost use Rattle.std.specs.Prelude.{◌≡◌, ◌+◌, ◌<◌, ◌≤◌, ◌++◌, length};
ghost use Rattle.pools.specs.PerPool.{entry_of};
ghost use Rattle.statement.specs.Rows.{two_digits, header_row, line_row, pool_row, refusal_row};

use crate::closed_month::ClosedMonth;
use crate::fault::{Located, StatementFault};
use crate::line::{LINE_BYTES, PrintedLine};
use pools::Pool;
use settlement::LineEntry;

fn put_two_digits(line: &mut PrintedLine, n: u32)
    requires { length line.old + 11 ≤ LINE_BYTES }
    ensures puts { line.new ≡ line.old ++ two_digits n }
    ensures room { length line.new ≤ length line.old + 11 }
{
    if n < 10 {
        line.put_byte(b'0');
    }
    line.put_decimal(n);
}

/// The header: the month, and whether it is binding or advisory.
pub(crate) fn header_row(month: &ClosedMonth) -> PrintedLine
    ensures { result ≡ header_row month.now.terms }
{
    let date = &month.terms.month;
    let mut line = PrintedLine::empty();
    line.put_text(b"MONTH ");
    line.put_decimal(date.year);
    line.put_byte(b'-');
    put_two_digits(&mut line, date.month);
    line.put_byte(b' ');
    line.put_text(month.standing.word().as_bytes());
    line.put_byte(b'\n');
    line
}

/// A line: its resource by number, its pool, obligation and availability in watts, its state, and what it is charged or paid in cents.
pub(crate) fn line_row(resource: usize, pool: Pool, entry: &LineEntry) -> PrintedLine
    ensures { result ≡ line_row resource pool entry.now }
{
    let mut line = PrintedLine::empty();
    line.put_decimal(resource);
    line.put_byte(b' ');
    line.put_byte(pool.letter());
    line.put_byte(b' ');
    line.put_decimal(entry.line.obligation);
    line.put_byte(b' ');
    line.put_decimal(entry.line.availability);
    line.put_byte(b' ');
    line.put_byte(entry.line.state.letter());
    line.put_byte(b' ');
    line.put_decimal(entry.cents);
    line.put_byte(b'\n');
    line
}

/// A pool: its charges in cents, the rate in cents per megawatt and month, its payments and the balance then shown, in cents.
pub(crate) fn pool_row(month: &ClosedMonth, pool: Pool) -> PrintedLine
    ensures { result ≡ pool_row pool (entry_of month.now.pools pool) (entry_of month.now.shown pool) }
{
    let close = month.pools.get(pool);
    let mut line = PrintedLine::empty();
    line.put_text(b"POOL ");
    line.put_byte(pool.letter());
    line.put_byte(b' ');
    line.put_decimal(close.charges);
    line.put_byte(b' ');
    line.put_decimal(close.rate);
    line.put_byte(b' ');
    line.put_decimal(close.payments);
    line.put_byte(b' ');
    line.put_decimal(month.shown.get(pool));
    line.put_byte(b'\n');
    line
}

/// A refusal: the fault's number, the letter of its layer, and the byte offset.
pub fn refusal_row(fault: Located<StatementFault>) -> PrintedLine
    ensures { result ≡ refusal_row fault }
{
    let label = fault.label();
    let mut line = PrintedLine::empty();
    line.put_text(b"REFUSED ");
    line.put_decimal(label.number);
    line.put_byte(b' ');
    // The letter, R, S or B, is one byte, so this does not fail.
    line.put_byte(u8::try_from(label.layer).unwrap());
    line.put_byte(b' ');
    line.put_decimal(label.place);
    line.put_byte(b'\n');
    line
}
