use crate::run::Run;
use card::open::OpenCard;
use kitchen::interface::Kitchen;
use kitchen::noted::Noted;
use rules::parts::Tie;
use rules::refusal::Refusal;
use std::test::Fail;

#[test]
fn hears_before_it_orders(rt: HostRuntime) -> Result<(), Fail> {
    let mut card = OpenCard::new();
    card.open(4)?;
    card.add_span(0, 2, 3)?;
    card.add_order()?;
    card.add_tie(Tie {
        from: 1,
        to: 2,
        gap: 0,
    })?;
    card.add_tie(Tie {
        from: 2,
        to: 1,
        gap: 0,
    })?;
    let mut run = Run::begin(card.close());
    let mut kitchen = Noted::new(&[2])?;
    let mut list = [9; 32];
    let counts = [
        run.play(&mut kitchen, &mut list)?,
        run.play(&mut kitchen, &mut list)?,
        run.play(&mut kitchen, &mut list)?,
        run.play(&mut kitchen, &mut list)?,
        run.play(&mut kitchen, &mut list)?,
    ];
    assert_eq!(rt; counts, [1, 0, 2, 0, 0]);
    assert_eq!(rt; [list[0], list[1], list[2]], [1, 2, 9]);
    assert_eq!(rt;
        [run.ask(0), run.ask(1), run.ask(2), run.ask(3)],
        [Ok(Some(0)), Ok(Some(2)), Ok(Some(2)), Err(Refusal::NoPoint)]
    );
    assert_eq!(rt;
        run.play(&mut kitchen, &mut list).err(),
        Some(Refusal::HorizonPlayed)
    );
    Ok(())
}

#[test]
fn refuses(rt: HostRuntime) -> Result<(), Fail> {
    let mut card = OpenCard::new();
    card.add_span(0, 1, 1)?;
    let mut run = Run::begin(card.close());
    let mut none = Noted::new(&[])?;
    let mut list = [0; 32];
    assert_eq!(rt;
        run.play(&mut none, &mut list[..31]).err(),
        Some(Refusal::ShortBuffer)
    );
    assert_eq!(rt;
        run.play(&mut none, &mut list).err(),
        Some(Refusal::KitchenUnfit)
    );
    let mut kitchen = Noted::new(&[1])?;
    run.play(&mut kitchen, &mut list)?;
    kitchen.advance();
    assert_eq!(rt;
        run.play(&mut kitchen, &mut list).err(),
        Some(Refusal::KitchenDisagrees)
    );
    let mut card = run.end().reopen();
    card.add_tie(Tie {
        from: 1,
        to: 0,
        gap: 0,
    })?;
    card.add_tie(Tie {
        from: 0,
        to: 1,
        gap: 0,
    })?;
    let mut bad = Run::begin(card.close());
    assert_eq!(rt;
        bad.play(&mut none, &mut list[..0]).err(),
        Some(Refusal::Barred)
    );
    Ok(())
}
