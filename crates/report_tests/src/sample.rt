// Texts for the tests, and what is reported of them.
use report::report;
use std::alloc::{AllocError, Global};
use std::process::Abort;
use std::test::Fail;

pub const WORKED: &[u8] =
    b"node,1,E\nnode,2,P\nchain,7,20,20,0\nstep,1,3,8,0,0,1\nstep,2,2,6,1,0,2\nchain,9,10,6,0\nstep,1,4,6,0,0,1\nchain,12,5,5,0\nstep,2,1,5,0,0,3\n";

// The report on a text is these bytes.
pub fn says(rt: &impl Abort, text: &[u8], expected: &[u8]) -> Result<(), Fail> {
    let mut buffer = [0; 2048];
    let told = report(text, &mut buffer)?;
    assert_eq!(rt; &buffer[..told.len.min(2048)], expected);
    Ok(())
}

// A chain of this id, with so many steps on node 1.
pub fn put_chain(text: &mut String, id: u32, steps: u32) -> Result<(), AllocError> {
    writeln!(text, "chain,{id},1000000,1000000,0")?;
    for _ in 0..steps {
        text.push_str("step,1,1,1000,0,0,1\n")?;
    }
    Ok(())
}

// One node, and chains of so many steps each, with ids from 1 on.
pub fn panel(alloc: Global, chains: u32, steps: u32) -> Result<String, AllocError> {
    let mut text = String::from_str(alloc, "node,1,E\n")?;
    for id in 1..=chains {
        put_chain(&mut text, id, steps)?;
    }
    Ok(text)
}
