//! The shipped books on examples, at their edges.
use fund::{
    BalanceBook, BookFault, FundBook, Journal, LIMIT, Overlay, Posting, Standing, account_of,
    make_room,
};
use pools::Pool;
use std::process::Abort;
use std::test::Fail;

fn journal(rt: &HostRuntime, places: usize) -> Result<Journal, Fail> {
    Ok(Journal::over(vec![in rt.alloc(); Posting::BLANK; places]?)?)
}

fn refuses(rt: &(impl Abort + AllocGlobal), places: usize) -> Result<(), Fail> {
    match Journal::over(vec![in rt.alloc(); Posting::BLANK; places]?) {
        Ok(_) => Err(Fail::new("the places are taken")),
        Err(refused) => {
            assert_eq!(rt; refused.places.len(), places);
            let label = refused.fault.label();
            assert_eq!(rt; label.number, 30);
            assert_eq!(rt; label.layer, 'B');
            assert!(rt; label.place.is_none());
            Ok(())
        }
    }
}

#[test]
fn journals_have_8_to_65536_places(rt: HostRuntime) -> Result<(), Fail> {
    refuses(&rt, 7)?;
    refuses(&rt, 65_537)?;
    assert_eq!(rt; journal(&rt, 8)?.free_places(), 8);
    let largest = journal(&rt, 65_536)?;
    assert_eq!(rt; largest.size(), 65_536);
    assert_eq!(rt; largest.free_places(), 65_536);
    Ok(())
}

#[test]
fn a_full_journal_is_ruled_off(rt: HostRuntime) -> Result<(), Fail> {
    let mut journal = journal(&rt, 8)?;
    for _ in 0..4 {
        journal.post_in(Pool::Flexible, 30)?;
        journal.post_in(Pool::Generic, 0)?;
    }
    assert_eq!(rt;
        journal.post_out(Pool::Flexible, LIMIT),
        Err(BookFault::NoFreePlace(Pool::Flexible))
    );
    journal.rule_off();
    assert_eq!(rt; journal.free_places(), 7);
    journal.post_in(Pool::Generic, 5)?;
    journal.rule_off();
    let postings = journal.postings();
    assert!(rt; postings.len() == 2);
    assert_eq!(rt; postings[0].side.pool, Pool::Generic);
    assert_eq!(rt; postings[0].amount, 5);
    assert_eq!(rt; postings[1].side.pool, Pool::Flexible);
    assert_eq!(rt; postings[1].amount, 120);
    Ok(())
}

#[test]
fn faults_say_what_is_wrong(rt: HostRuntime) -> Result<(), Fail> {
    for (fault, text) in [
        (BookFault::UnfitPlaces, "a journal has 8 to 65,536 places"),
        (
            BookFault::NoFreePlace(Pool::Generic),
            "no place is free for a posting to pool G",
        ),
        (
            BookFault::OverLimit(Pool::Flexible),
            "the balance of pool F would pass the limit",
        ),
        (
            BookFault::AboveBalance(Pool::Generic),
            "more is taken out of pool G than it holds",
        ),
        (
            BookFault::NoAdvisoryMonths,
            "this book keeps no advisory months",
        ),
    ] {
        assert_eq!(rt; format!(in rt.alloc(); "{fault}")?.as_str(), text);
    }
    Ok(())
}

fn limit_to_the_cent<B: FundBook>(rt: &impl Abort, book: &mut B) -> Result<(), Fail> {
    let pool = Pool::Generic;
    book.post_in(pool, LIMIT - 1)?;
    assert_eq!(rt; book.post_in(pool, 2), Err(BookFault::OverLimit(pool)));
    book.post_in(pool, 1)?;
    assert_eq!(rt; book.post_in(pool, 1), Err(BookFault::OverLimit(pool)));
    assert_eq!(rt; account_of(book, pool).shown, LIMIT);
    assert_eq!(rt;
        book.post_out(pool, LIMIT + 1),
        Err(BookFault::AboveBalance(pool))
    );
    book.post_out(pool, LIMIT)?;
    assert_eq!(rt; book.post_out(pool, 1), Err(BookFault::AboveBalance(pool)));
    Ok(())
}

#[test]
fn every_book_keeps_the_limit(rt: HostRuntime) -> Result<(), Fail> {
    limit_to_the_cent(&rt, &mut BalanceBook::new())?;
    limit_to_the_cent(&rt, &mut journal(&rt, 8)?)?;
    let mut overlay = Overlay::over(BalanceBook::new());
    overlay.stand(Standing::Advisory)?;
    limit_to_the_cent(&rt, &mut overlay)
}

/// There and back over any book that takes advisory months, with 100 in the generic pool.
fn an_advisory_month<B: FundBook>(rt: &impl Abort, book: &mut B) -> Result<(), Fail> {
    let pool = Pool::Generic;
    book.post_in(pool, 100)?;
    book.stand(Standing::Advisory)?;
    book.post_in(pool, 40)?;
    book.stand(Standing::Advisory)?;
    book.post_out(pool, 130)?;
    book.rule_off();
    let account = account_of(book, pool);
    assert_eq!(rt; account.binding, 100);
    assert_eq!(rt; account.shown, 10);
    assert_eq!(rt; book.free_places(), book.size());
    book.stand(Standing::Binding)?;
    assert_eq!(rt; account_of(book, pool).shown, 100);
    make_room(book, 4);
    book.post_out(pool, 100)?;
    assert_eq!(rt; account_of(book, pool).binding, 0);
    Ok(())
}

#[test]
fn overlays_stand_on_any_book(rt: HostRuntime) -> Result<(), Fail> {
    let mut plain = journal(&rt, 8)?;
    assert_eq!(rt;
        plain.stand(Standing::Advisory),
        Err(BookFault::NoAdvisoryMonths)
    );
    an_advisory_month(&rt, &mut Overlay::over(plain))?;
    let mut lower = Overlay::over(BalanceBook::new());
    lower.stand(Standing::Advisory)?;
    let mut upper = Overlay::over(lower);
    assert_eq!(rt; upper.standing(), Standing::Binding);
    an_advisory_month(&rt, &mut upper)
}
