use crate::contrary::Contrary;
use crate::interface::Kitchen;
use crate::noted::Noted;
use crate::resting::Resting;
use crate::track::Status;
use rules::refusal::Refusal;
use std::test::Fail;

#[test]
fn refuses_to_make(rt: HostRuntime) {
    assert_eq!(rt;
        [
            Noted::new(&[0; 9]).err(),
            Noted::new(&[1, 10_001]).err(),
            Noted::new(&[1; 8]).err(),
            Contrary::new(&[(2, 1); 9]).err(),
            Contrary::new(&[(2, 1)]).err(),
            Contrary::new(&[(1, 10_000); 8]).err(),
        ],
        [
            Some(Refusal::SpansFull),
            Some(Refusal::BoundsRange),
            None,
            Some(Refusal::SpansFull),
            Some(Refusal::BoundsRange),
            None,
        ]
    );
}

#[test]
fn starts_once(rt: HostRuntime) -> Result<(), Fail> {
    let mut k = Noted::new(&[2, 9])?;
    let answers = [k.start(2), k.start(0), k.start(0)];
    assert_eq!(rt;
        answers,
        [Err(Refusal::NoSpan), Ok(()), Err(Refusal::NotCold)]
    );
    k.advance();
    let on = k.status(0);
    k.advance();
    assert_eq!(rt;
        [on, k.status(0), k.status(1)],
        [Ok(Status::On(1)), Ok(Status::Done(2)), Ok(Status::Cold)]
    );
    Ok(())
}

#[test]
fn ends_after_a_start(rt: HostRuntime) -> Result<(), Fail> {
    let mut k = Contrary::new(&[(1, 3), (1, 3), (2, 3)])?;
    k.start(0)?;
    k.start(2)?;
    k.advance();
    let first = k.status(0);
    k.advance();
    let held = k.status(2);
    k.start(1)?;
    k.advance();
    assert_eq!(rt;
        [first, held, k.status(1), k.status(2)],
        [
            Ok(Status::Done(1)),
            Ok(Status::On(2)),
            Ok(Status::Done(1)),
            Ok(Status::Done(3)),
        ]
    );
    Ok(())
}

#[test]
fn adds_rests(rt: HostRuntime) -> Result<(), Fail> {
    let below = Contrary::new(&[(2, 3), (1, 1), (9_000, 9_900), (5, 6)])?;
    let k = Resting::over(below, &[4, 241, 240]);
    assert_eq!(rt;
        [k.bounds(0), k.bounds(1), k.bounds(2), k.bounds(3)],
        [Ok((6, 7)), Ok((241, 241)), Ok((9_100, 10_000)), Ok((5, 6))]
    );
    Ok(())
}

#[test]
fn rests_over_a_rest(rt: HostRuntime) -> Result<(), Fail> {
    let below = Contrary::new(&[(1, 2)])?;
    let mut k = Resting::over(Resting::over(below, &[1]), &[2]);
    k.start(0)?;
    for e in 1..4 {
        k.advance();
        assert_eq!(rt; k.status(0), Ok(Status::On(e)));
    }
    k.advance();
    assert_eq!(rt; k.status(0), Ok(Status::Done(4)));
    Ok(())
}
