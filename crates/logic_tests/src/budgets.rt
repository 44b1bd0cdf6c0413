//! Budgets at which no probe is spent: (2n + 1) (n + 1)^(n + 1) for n variables, worked out by
//! hand.
use entailment::enough;
use std::process::Abort;
use std::test::Fail;

#[test]
fn budgets_that_suffice(rt: HostRuntime) -> Result<(), Fail> {
    assert_eq!(rt; enough(0), Some(1));
    assert_eq!(rt; enough(1), Some(12));
    assert_eq!(rt; enough(5), Some(513_216));
    assert_eq!(rt; enough(6), None);
    Ok(())
}
