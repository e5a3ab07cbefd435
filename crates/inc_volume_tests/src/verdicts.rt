use crate::shelf::{CASES, Case, full_shelf, name_of};
use inc_io::{LendFault, Name};
use inc_volume::{Verdict, judge, survey};
use std::alloc::Global;
use std::test::Fail;

/// Whether these are all names with their verdicts.
fn are_all(rows: &[(Name, Verdict)]) -> bool {
    if rows.len() != CASES.len() {
        return false;
    }
    for (place, case) in CASES.iter().enumerate() {
        if rows[place].0.as_slice() != case.name || rows[place].1 != case.verdict {
            return false;
        }
    }
    true
}

/// Whether a name has its verdict where it is judged alone.
fn is_judged(alloc: Global, case: &Case) -> Result<bool, Fail> {
    let mut shelf = full_shelf(alloc)?;
    let name = name_of(alloc, case.name)?;
    Ok(judge(alloc, &mut shelf, &name).ok() == Some(Some(case.verdict)))
}

fn are_judged(alloc: Global) -> Result<bool, Fail> {
    for case in &CASES {
        if !is_judged(alloc, case)? {
            return Ok(false);
        }
    }
    Ok(true)
}

#[test]
fn each_name_has_one_verdict(rt: HostRuntime) -> Result<(), Fail> {
    let mut shelf = full_shelf(rt.alloc())?;
    let list = survey(rt.alloc(), &mut shelf).map_err(|_| "a survey")?;
    assert!(rt; are_all(list.as_slice()));
    Ok(())
}

#[test]
fn a_name_is_judged_alone_as_among_all(rt: HostRuntime) -> Result<(), Fail> {
    assert!(rt; are_judged(rt.alloc())?);
    Ok(())
}

#[test]
fn a_failing_shelf_gives_no_verdict(rt: HostRuntime) -> Result<(), Fail> {
    let mut shelf = full_shelf(rt.alloc())?;
    let name = name_of(rt.alloc(), b"missing")?;
    assert_eq!(rt; judge(rt.alloc(), &mut shelf, &name), Ok(None));
    shelf.fail(vec![in rt.alloc(); 1, 4]?);
    let fault = survey(rt.alloc(), &mut shelf).err();
    assert_eq!(rt; fault, Some(LendFault::Failed));
    Ok(())
}
