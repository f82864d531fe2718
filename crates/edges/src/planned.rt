use planning::first_plan;
use records::{NarrowingFault, Window};
use std::process::Abort;
use std::test::Fail;

// The first plan over days that begin with day 10 is the one expected.
fn plans(
    rt: &impl Abort,
    pairs: &[(u16, u16)],
    records: &[Window],
    expected: &[u16],
) -> Result<(), Fail> {
    let days = first_plan(10, pairs, records)?.ok_or("no plan")?;
    assert_eq!(rt; days.as_slice(), expected);
    Ok(())
}

#[test]
fn first_plan_comes_first(rt: HostRuntime) -> Result<(), Fail> {
    let pairs = [(0, 1), (0, 1), (1, 2)];
    plans(
        &rt,
        &pairs,
        &[Window::from((10, 12)), Window::from((10, 12))],
        &[10, 12],
    )?;
    plans(
        &rt,
        &pairs,
        &[Window::from((10, 12)), Window::from((10, 10))],
        &[12, 10],
    )?;
    plans(
        &rt,
        &pairs,
        &[
            Window::from((10, 11)),
            Window::from((10, 11)),
            Window::from((10, 12)),
        ],
        &[10, 11, 12],
    )?;
    plans(&rt, &[(0, 0)], &[], &[])
}

#[test]
fn no_plan_is_none(rt: HostRuntime) -> Result<(), Fail> {
    let pairs = [(0, 1), (0, 1), (1, 2)];
    let early = [Window::from((10, 11)), Window::from((10, 11))];
    assert!(rt; first_plan(10, &pairs, &early)?.is_none());
    assert!(rt;
        first_plan(
            10,
            &[(0, 1)],
            &[Window::from((10, 10)), Window::from((10, 10))]
        )?
        .is_none()
    );
    match first_plan(10, &pairs, &[Window::from((10, 12)), Window::from((9, 12))]) {
        Err(fault) => {
            assert_eq!(rt; fault, NarrowingFault::BadWindow(1));
            Ok(())
        },
        Ok(_) => Err(Fail::new("the window begins before the days")),
    }
}
