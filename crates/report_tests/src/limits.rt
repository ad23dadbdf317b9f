// Texts at the limits.
use crate::sample::{panel, says};
use report::{Verdict, report};
use std::test::Fail;

#[test]
fn longest_text(rt: HostRuntime) -> Result<(), Fail> {
    let mut text = vec![in rt.alloc(); b'\n'; 32_768]?;
    says(&rt, text.as_slice(), b"refused,13,1,1\n")?;
    text.push(b'\n')?;
    says(&rt, text.as_slice(), b"refused,11,0,0\n")?;
    text.push(b'x')?;
    says(&rt, text.as_slice(), b"refused,11,0,0\n")
}

// The verdict on a panel of so many chains of so many steps.
fn verdict(rt: &HostRuntime, chains: u32, steps: u32) -> Result<Verdict, Fail> {
    let mut buffer = [0; 4096];
    let text = panel(rt.alloc(), chains, steps)?;
    Ok(report(text.as_bytes(), &mut buffer)?.verdict)
}

#[test]
fn sixteen_chains_of_four_steps(rt: HostRuntime) -> Result<(), Fail> {
    assert_eq!(rt; verdict(&rt, 16, 4)?, Verdict::Listed);
    assert_eq!(rt; verdict(&rt, 4, 16)?, Verdict::Listed);
    assert_eq!(rt; verdict(&rt, 1, 16)?, Verdict::Listed);
    Ok(())
}
