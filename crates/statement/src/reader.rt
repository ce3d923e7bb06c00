//! Reads the records of a month file, nothing but 32-bit numbers in big-endian order, each where a record of its kind is due.
ghost use Rattle.std.specs.Prelude.{◌≡◌, ◌+◌, ◌*◌, ◌<◌, ◌≤◌, length, IfOk, OnOk, MatchResult};
ghost use Rattle.statement.specs.Layout.{words_of, hours_told, month_of, resource_of, day_of, record_of, size_of};
ghost use Rattle.statement.specs.declared.fault.ReaderFault.TheVariants.{EndsInside};
ghost use Rattle.statement.specs.declared.reader.TheConstants.{MONTH_BYTES, RESOURCE_BYTES, DAY_BYTES};
ghost use Rattle.statement.specs.Reading.{as_month, as_resource, as_day};

use crate::fault::ReaderFault;
use crate::records::{FileRecord, NumberedResource};
use assessment::{DaySubmission, HOURS, HourBids, Showing, TradeMonth};
use pools::PerPool;
use settlement::{MonthTerms, ResourceDay, RosterEntry, SubmittedDay};
use std::array;

/// How many bytes a month record takes, its first word among them, as docs/month-file.md gives them.
pub const MONTH_BYTES: usize = 36;

/// How many bytes a resource takes, likewise.
pub const RESOURCE_BYTES: usize = 16;

/// How many bytes a resource's day takes, likewise.
pub const DAY_BYTES: usize = 412;

const WORD_BYTES: usize = 4;

/// For each market a bid of two words.
const HOUR_WORDS: usize = 4;

const BID_WORDS: usize = HOUR_WORDS * HOURS;

/// The words that the bytes begin with; a file that has fewer ends inside its record (40).
// By place, here and in `hours`, as docs/DECISIONS.md says.
fn words<const N: usize>(bytes: &[u8]) -> Result<[u32; N], ReaderFault>
    ensures { MatchResult result (λ ws. (4 * N ≤ length bytes.now) × (ws ≡ words_of N bytes.now)) (λ e. (length bytes.now < 4 * N) × (e ≡ EndsInside)) }
{
    let (words, _) = bytes.as_chunks::<WORD_BYTES>();
    if words.len() < N {
        return Err(ReaderFault::EndsInside);
    }
    Ok(array::from_fn(|i| u32::from_be_bytes(words[i])))
}

fn hours(bids: &[u32; BID_WORDS]) -> [HourBids; HOURS]
    ensures { result ≡ hours_told bids.now }
{
    let (hours, _) = bids.as_chunks::<HOUR_WORDS>();
    array::from_fn(|hour| HourBids::from(hours[hour]))
}

// Here and below, `within`: a record with its first word, 4 bytes, takes no more than there are.
/// The month record, from the bytes after its first word; cut short, 40.
#[tactic(auto, unfolding(crate::specs::Layout::month_of, crate::specs::Layout::words_of))]
fn read_month(rest: &[u8]) -> Result<FileRecord, ReaderFault>
    ensures value { result ≡ month_of rest.now }
    ensures within { IfOk result (λ x. size_of x ≤ 4 + length rest.now) }
{
    let [
        year,
        month,
        holidays,
        generic_start,
        category2_start,
        category3_start,
        standing,
        price,
    ] = words::<8>(rest)?;
    Ok(FileRecord::Month(MonthTerms {
        month: TradeMonth {
            year,
            month,
            holidays,
            generic_start,
            category2_start,
            category3_start,
        },
        standing,
        price,
    }))
}

#[tactic(auto, unfolding(crate::specs::Layout::resource_of, crate::specs::Layout::words_of))]
fn read_resource(rest: &[u8]) -> Result<FileRecord, ReaderFault>
    ensures value { result ≡ resource_of rest.now }
    ensures within { IfOk result (λ x. size_of x ≤ 4 + length rest.now) }
{
    let [number, category, identifier] = words::<3>(rest)?;
    Ok(FileRecord::Resource(NumberedResource {
        number,
        entry: RosterEntry {
            category,
            identifier,
        },
    }))
}

#[tactic(auto, using(crate::proofs::Parsed::take_rest_length), unfolding(crate::specs::Layout::day_of))]
fn read_day(rest: &[u8]) -> Result<FileRecord, ReaderFault>
    ensures value { result ≡ day_of rest.now }
    ensures within { IfOk result (λ x. size_of x ≤ 4 + length rest.now) }
{
    let [
        resource,
        day,
        generic_shown,
        flexible_shown,
        generic_exempt,
        flexible_exempt,
    ] = words::<6>(rest)?;
    let bids = words::<BID_WORDS>(&rest[6 * WORD_BYTES..])?;
    Ok(FileRecord::Day(SubmittedDay {
        at: ResourceDay { resource, day },
        submission: DaySubmission {
            showings: PerPool {
                generic: Showing {
                    shown: generic_shown,
                    exempt: generic_exempt,
                },
                flexible: Showing {
                    shown: flexible_shown,
                    exempt: flexible_exempt,
                },
            },
            hours: hours(&bids),
        },
    }))
}

/// The record that the bytes begin with: its first word tells its kind. Refused, whichever comes first: fewer than 4 bytes (40);
/// a kind that is none, however few bytes follow (41); a record cut short (40).
pub fn next_record(bytes: &[u8]) -> Result<FileRecord, ReaderFault>
    ensures value { result ≡ record_of bytes.now }
    ensures within { IfOk result (λ x. size_of x ≤ length bytes.now) }
{
    match bytes {
        [a, b, c, d, rest @ ..] => match u32::from_be_bytes([*a, *b, *c, *d]) {
            1 => read_month(rest),
            2 => read_resource(rest),
            3 => read_day(rest),
            _ => Err(ReaderFault::UnknownKind),
        },
        _ => Err(ReaderFault::EndsInside),
    }
}

/// The month record that the bytes begin with. Refuses what `next_record` refuses, and a record of another kind (43).
pub fn month_record(bytes: &[u8]) -> Result<MonthTerms, ReaderFault>
    ensures value { result ≡ as_month (record_of bytes.now) }
    ensures within { OnOk result (MONTH_BYTES ≤ length bytes.now) }
{
    match next_record(bytes)? {
        FileRecord::Month(terms) => Ok(terms),
        FileRecord::Resource(_) | FileRecord::Day(_) => Err(ReaderFault::Misplaced),
    }
}

/// The resource of this number that the bytes begin with; None where they begin with a day. Refuses what `next_record` refuses,
/// a month record, and a resource of another number (43).
pub fn roster_record(bytes: &[u8], number: usize) -> Result<Option<RosterEntry>, ReaderFault>
    ensures value { result ≡ as_resource number (record_of bytes.now) }
    ensures within { OnOk result (RESOURCE_BYTES ≤ length bytes.now) }
{
    match next_record(bytes)? {
        // `as` loses nothing: any u32 fits a usize.
        FileRecord::Resource(resource) if resource.number as usize == number => {
            Ok(Some(resource.entry))
        }
        FileRecord::Day(_) => Ok(None),
        FileRecord::Month(_) | FileRecord::Resource(_) => Err(ReaderFault::Misplaced),
    }
}

/// The day record that the bytes begin with. Refuses what `next_record` refuses, and a record of another kind (43).
pub fn day_record(bytes: &[u8]) -> Result<SubmittedDay, ReaderFault>
    ensures value { result ≡ as_day (record_of bytes.now) }
    ensures within { OnOk result (DAY_BYTES ≤ length bytes.now) }
{
    match next_record(bytes)? {
        FileRecord::Day(day) => Ok(day),
        FileRecord::Month(_) | FileRecord::Resource(_) => Err(ReaderFault::Misplaced),
    }
}
