// What is said of a refused table.
use crate::sentences::sentence_on;
use report::report;
use std::process::Abort;
use std::test::Fail;

// The sentence on a text is this one.
fn says(rt: &(impl Abort + AllocGlobal), text: &[u8], expected: &str) -> Result<(), Fail> {
    let mut buffer = [0; 64];
    let told = report(text, &mut buffer)?;
    let why = sentence_on(text, told.verdict).ok_or("not refused")?;
    let said = format!(in rt.alloc(); "{why}")?;
    assert_eq!(rt; said.as_str(), expected);
    Ok(())
}

#[test]
fn field_is_named(rt: HostRuntime) -> Result<(), Fail> {
    let panel = b"node,1,E\nnode,2,P\nchain,7,20,20,0\nstep,1,3,8,,0,1\n";
    says(&rt, panel, "line 4: the delay (field 5) is empty")?;
    says(
        &rt,
        b"chain,1,010,10,0\n",
        "line 1: the period (field 3) is not a number of 1 to 7 digits, or has a leading zero",
    )?;
    says(
        &rt,
        b"node,1,e\n",
        "line 1: the letter (field 3) is neither E nor P",
    )?;
    says(
        &rt,
        b"chain,1,10,1000001,0\n",
        "line 1: the end-to-end deadline (field 4) is out of its range, 1 to 1,000,000",
    )?;
    says(
        &rt,
        b"node,1,E\r\n",
        "line 1: the letter (field 3) ends in a carriage return; a line ends in a line feed alone",
    )
}

#[test]
fn line_is_explained(rt: HostRuntime) -> Result<(), Fail> {
    says(&rt, b"node,1,E\n\n", "line 2: the line is empty")?;
    says(
        &rt,
        b"chain,1,10,10\n",
        "line 1: a chain line has 5 fields, and this one has 4",
    )?;
    says(
        &rt,
        b"step,1,1,1,0,0,1\n",
        "line 1: a step line may not stand before the first chain line",
    )?;
    says(
        &rt,
        b"node,1,E\nnode,1,P\n",
        "line 2: the node (field 2) has been given before",
    )?;
    says(
        &rt,
        b"node,1,E",
        "line 1: the last line does not end in a line feed; the text may be cut off",
    )
}

#[test]
fn chains_are_explained(rt: HostRuntime) -> Result<(), Fail> {
    says(
        &rt,
        b"chain,1,10,10,0\n",
        "line 1: the chain has no step, or more than 16",
    )?;
    says(
        &rt,
        b"node,1,E\nchain,1,10,10,1\nstep,1,10,10,0,0,1\n",
        "no response times carry the chains: in round 1 a step ends after its chain's end-to-end deadline, or a node has too much work",
    )
}
