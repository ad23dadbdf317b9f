// Every refusal of a text, with its line and its field.
use crate::sample::{WORKED, panel, says};
use std::test::Fail;

#[test]
fn worked_table_is_listed(rt: HostRuntime) -> Result<(), Fail> {
    says(
        &rt,
        WORKED,
        b"rounds,3\nstep,7,1,0,7\nstep,7,2,8,11\nstep,9,1,0,5\nstep,12,1,0,1\n",
    )?;
    says(&rt, b"", b"rounds,1\n")?;
    says(&rt, b"node,3,P\n", b"rounds,1\n")
}

#[test]
fn empty_delay_is_not_0(rt: HostRuntime) -> Result<(), Fail> {
    says(
        &rt,
        b"node,1,E\nnode,2,P\nchain,7,20,20,0\nstep,1,3,8,,0,1\nstep,2,2,6,1,0,2\nchain,9,10,6,0\nstep,1,4,6,0,0,1\nchain,12,5,5,0\nstep,2,1,5,0,0,3\n",
        b"refused,15,4,5\n",
    )
}

#[test]
fn node_or_chain_is_out_of_range(rt: HostRuntime) -> Result<(), Fail> {
    says(&rt, b"node,9,E\n", b"refused,1,1,2\n")?;
    says(&rt, b"node,0,E\n", b"refused,1,1,2\n")?;
    says(&rt, b"chain,0,10,10,0\n", b"refused,1,1,2\n")?;
    says(&rt, b"chain,1,0,10,0\n", b"refused,1,1,3\n")?;
    says(&rt, b"chain,1,10,1000001,0\n", b"refused,1,1,4\n")?;
    says(&rt, b"chain,1,10,10,1000001\n", b"refused,1,1,5\n")
}

#[test]
fn step_is_out_of_range(rt: HostRuntime) -> Result<(), Fail> {
    for (step, line) in [
        ("step,9,1,5,0,0,1", "refused,1,3,2"),
        ("step,1,0,5,0,0,1", "refused,1,3,3"),
        ("step,1,1,0,0,0,1", "refused,1,3,4"),
        ("step,1,1,5,1000001,0,1", "refused,1,3,5"),
        ("step,1,1,5,0,1000001,1", "refused,1,3,6"),
        ("step,1,1,5,0,0,256", "refused,1,3,7"),
    ] {
        let text = format!(in rt.alloc(); "node,1,E\nchain,1,10,10,0\n{step}\n")?;
        let expected = format!(in rt.alloc(); "{line}\n")?;
        says(&rt, text.as_bytes(), expected.as_bytes())?;
    }
    Ok(())
}

#[test]
fn chain_is_refused_at_its_own_line(rt: HostRuntime) -> Result<(), Fail> {
    says(&rt, b"chain,1,10,10,0\n", b"refused,2,1,0\n")?;
    says(
        &rt,
        b"chain,1,10,10,0\nchain,2,10,10,0\n",
        b"refused,2,1,0\n",
    )?;
    says(
        &rt,
        b"node,1,E\nchain,1,10,10,0\nstep,1,1,5,0,0,1\nchain,1,20,20,0\nstep,1,1,5,0,0,1\n",
        b"refused,5,4,0\n",
    )
}

#[test]
fn later_lines_come_before_the_chain(rt: HostRuntime) -> Result<(), Fail> {
    says(
        &rt,
        b"chain,1,10,10,0\nchain,2,0,10,0\n",
        b"refused,1,2,3\n",
    )?;
    says(
        &rt,
        b"chain,1,10,10,0\nstep,1,1,5,,0,1\n",
        b"refused,15,2,5\n",
    )?;
    says(
        &rt,
        b"chain,1,10,10,0\nstep,1,1,5,0,0,1\n",
        b"refused,19,2,2\n",
    )?;
    says(&rt, b"chain,1,10,10,0\nnode,1,E\n", b"refused,18,2,0\n")?;
    says(&rt, b"chain,1,10,10,0\nchain\n", b"refused,14,2,0\n")
}

#[test]
fn nothing_carries(rt: HostRuntime) -> Result<(), Fail> {
    says(
        &rt,
        b"node,1,E\nchain,1,10,10,1\nstep,1,10,10,0,0,1\n",
        b"refused,10,1\n",
    )?;
    says(
        &rt,
        b"node,1,E\nnode,2,P\nchain,7,20,10,0\nstep,1,3,8,0,0,1\nstep,2,2,6,1,0,2\nchain,9,10,6,0\nstep,1,4,6,0,0,1\nchain,12,5,5,0\nstep,2,1,5,0,0,3\n",
        b"refused,10,2\n",
    )
}

#[test]
fn last_line_is_not_ended(rt: HostRuntime) -> Result<(), Fail> {
    says(&rt, b"node,1,E\nnode,2,P", b"refused,12,2,0\n")?;
    says(&rt, b"node,1,E", b"refused,12,1,0\n")
}

#[test]
fn first_field_is_unknown(rt: HostRuntime) -> Result<(), Fail> {
    says(&rt, b"nodes,1,E\n", b"refused,13,1,1\n")?;
    says(&rt, b"node,1,E\n\n", b"refused,13,2,1\n")?;
    says(&rt, b"\n", b"refused,13,1,1\n")?;
    says(&rt, b"NODE,1,E\n", b"refused,13,1,1\n")
}

#[test]
fn count_of_fields_is_wrong(rt: HostRuntime) -> Result<(), Fail> {
    says(&rt, b"chain,1,10,10\n", b"refused,14,1,0\n")?;
    says(&rt, b"node,1,E,\n", b"refused,14,1,0\n")
}

#[test]
fn field_is_wrong(rt: HostRuntime) -> Result<(), Fail> {
    says(&rt, b"node,,E\n", b"refused,15,1,2\n")?;
    says(&rt, b"chain,1,010,10,0\n", b"refused,16,1,3\n")?;
    says(&rt, b"chain,1,10000000,10,0\n", b"refused,16,1,3\n")?;
    says(&rt, b"node,1,e\n", b"refused,17,1,3\n")
}

#[test]
fn bytes_that_no_rule_names(rt: HostRuntime) -> Result<(), Fail> {
    says(&rt, b"node,1,E\r\n", b"refused,17,1,3\n")?;
    says(&rt, b"chain,1,10,10,0\r\n", b"refused,16,1,5\n")?;
    says(&rt, b"chain,1,1\0,10,0\n", b"refused,16,1,3\n")?;
    says(&rt, b"chain,1,\xff,10,0\n", b"refused,16,1,3\n")?;
    says(&rt, b"chain, 1,10,10,0\n", b"refused,16,1,2\n")?;
    says(&rt, b" node,1,E\n", b"refused,13,1,1\n")?;
    says(&rt, b"\xef\xbb\xbfnode,1,E\n", b"refused,13,1,1\n")
}

#[test]
fn order_of_tests_in_a_line(rt: HostRuntime) -> Result<(), Fail> {
    // a misplaced step whose fields are no numbers, and out of range; and a node out of range that is not given
    says(&rt, b"step,1,x,1,0,0,1\n", b"refused,16,1,3\n")?;
    says(&rt, b"step,1,0,1,0,0,1\n", b"refused,18,1,0\n")?;
    says(
        &rt,
        b"node,1,E\nchain,1,10,10,0\nstep,2,0,5,0,0,1\n",
        b"refused,1,3,3\n",
    )?;
    says(&rt, b"node,1,E\nnode,1,x\n", b"refused,17,2,3\n")?;
    says(
        &rt,
        b"node,1,E\nchain,1,10,10,0\nnode,9,E\n",
        b"refused,18,3,0\n",
    )
}

#[test]
fn line_is_misplaced(rt: HostRuntime) -> Result<(), Fail> {
    says(&rt, b"step,1,1,1,0,0,1\n", b"refused,18,1,0\n")?;
    says(
        &rt,
        b"node,1,E\nchain,1,10,10,0\nnode,2,E\n",
        b"refused,18,3,0\n",
    )
}

#[test]
fn node_is_given_once_and_before_its_steps(rt: HostRuntime) -> Result<(), Fail> {
    says(&rt, b"node,1,E\nnode,1,P\n", b"refused,19,2,2\n")?;
    says(&rt, b"node,1,E\nnode,1,E\n", b"refused,19,2,2\n")?;
    says(
        &rt,
        b"node,1,E\nchain,1,10,10,0\nstep,2,1,5,0,0,1\n",
        b"refused,19,3,2\n",
    )
}

#[test]
fn seventeen_chains(rt: HostRuntime) -> Result<(), Fail> {
    says(
        &rt,
        panel(rt.alloc(), 17, 1)?.as_bytes(),
        b"refused,3,34,0\n",
    )
}

#[test]
fn sixty_five_steps(rt: HostRuntime) -> Result<(), Fail> {
    says(
        &rt,
        panel(rt.alloc(), 5, 13)?.as_bytes(),
        b"refused,4,58,0\n",
    )
}

#[test]
fn seventeen_steps(rt: HostRuntime) -> Result<(), Fail> {
    says(
        &rt,
        panel(rt.alloc(), 1, 17)?.as_bytes(),
        b"refused,2,2,0\n",
    )?;
    says(
        &rt,
        panel(rt.alloc(), 1, 40)?.as_bytes(),
        b"refused,2,2,0\n",
    )
}
