// A reader's own plan, text after text.
use crate::sample::WORKED;
use std::test::Fail;
use table::Reader;

#[test]
fn text_takes_the_place_of_the_one_before(rt: HostRuntime) -> Result<(), Fail> {
    let mut reader = Reader::new();
    reader.read(b"node,3,E\nchain,1,10,10,0\nstep,3,1,5,0,0,1\n")?;
    reader.read(WORKED)?;
    assert_eq!(rt; reader.plan.solve()?, 3);
    assert_eq!(rt; reader.plan.ask(7, 2)?.response, 11);
    assert!(rt; reader.plan.ask(1, 1).is_err());
    Ok(())
}

#[test]
fn fault_leaves_the_plan_empty(rt: HostRuntime) -> Result<(), Fail> {
    let mut reader = Reader::new();
    reader.read(WORKED)?;
    assert_eq!(rt; reader.plan.solve()?, 3);
    let text = b"node,1,E\nchain,1,10,10,0\nstep,1,1,5,0,0,1\nchain,2,x,10,0\n";
    let Err(why) = reader.read(text) else {
        return Err(Fail::new("taken"));
    };
    assert_eq!(rt; why.fault.number(), 16);
    assert_eq!(rt; why.line, 4);
    assert!(rt; reader.plan.ask(7, 1).is_err());
    assert!(rt; reader.plan.ask(1, 1).is_err());
    assert_eq!(rt; reader.plan.solve()?, 1);
    Ok(())
}
