//! Lines that are counted, and the summary of a count.
use crate::summary::summary_lines;
use crate::tally::{Tally, tally_in};
use std::test::Fail;

#[test]
fn a_reply_is_counted_by_its_word(rt: HostRuntime) {
    let tally = tally_in(
        b"u0 1 yes\nu1 1 no\nu2 1 refused\nu0 1 undecided\nu1 1 yes\n* restarted\nu2 1 error 20 3 4\nu10 64 yes\nu0 1 error 40\n",
    );
    assert_eq!(rt; tally.yes, 3);
    assert_eq!(rt; tally.no, 1);
    assert_eq!(rt; tally.refused, 1);
    assert_eq!(rt; tally.undecided, 1);
    assert_eq!(rt; tally.errors, 2);
}

#[test]
fn a_summary_has_eight_lines(rt: HostRuntime) -> Result<(), Fail> {
    let alloc = rt.alloc();
    let tally = Tally {
        yes: 31,
        no: 20,
        refused: 8,
        undecided: 1,
        errors: 0,
    };
    let mut text = String::new(alloc);
    for line in summary_lines(alloc, 4294967295, 3, 60, &tally)? {
        text.push_str(&line)?;
    }
    assert_eq!(rt;
        text.as_str(),
        "seed 4294967295\nusers 3\nasks 60\nyes 31\nno 20\nrefused 8\nundecided 1\nerrors 0\n"
    );
    Ok(())
}
