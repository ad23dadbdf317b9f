// Lines on examples.
#![tactic(auto)]

#[cfg(test)]
mod tests {
    use lines::{
        Fault, Kind, Line, LineFault, TextCursor, check_text, field_count, kind_of, number_in,
        read_line,
    };
    use mixed::Letter;
    use records::Chain;
    use std::test::Fail;

    // The number of the fault and its field, if the line is refused.
    fn refusal(line: &[u8]) -> Option<(u32, u32)> {
        let why = read_line(line).err()?;
        Some((why.fault.number(), why.field))
    }

    // A chain's fields are out of range only after its line is read.
    fn chain_in(line: &[u8]) -> Result<u32, LineFault> {
        match read_line(line)? {
            Line::Chain(fields) => Ok(Chain::try_from(fields)?.fields().id),
            _ => Ok(0),
        }
    }

    // The number of the fault and its line, if the text is refused.
    fn text_refusal(text: &[u8]) -> Option<(u32, u32)> {
        let why = check_text(text).err()?;
        Some((why.fault.number(), why.line))
    }

    #[test]
    fn node_is_read(rt: HostRuntime) -> Result<(), Fail> {
        let Line::Node(x) = read_line(b"node,8,P")? else {
            return Err(Fail::new("no node"));
        };
        assert_eq!(rt; x.node, 8);
        assert_eq!(rt; x.letter, Letter::P);
        Ok(())
    }

    #[test]
    fn chain_is_read(rt: HostRuntime) -> Result<(), Fail> {
        let Line::Chain(x) = read_line(b"chain,7,100,9999999,0")? else {
            return Err(Fail::new("no chain"));
        };
        assert_eq!(rt; x.id, 7);
        assert_eq!(rt; x.period, 100);
        assert_eq!(rt; x.deadline.ticks, 9_999_999);
        assert_eq!(rt; x.arrival_jitter, 0);
        Ok(())
    }

    #[test]
    fn step_is_read(rt: HostRuntime) -> Result<(), Fail> {
        let Line::Step(x) = read_line(b"step,1,3,8,5,0,255")? else {
            return Err(Fail::new("no step"));
        };
        assert_eq!(rt; x.node, 1);
        assert_eq!(rt; x.cost, 3);
        assert_eq!(rt; x.local.ticks, 8);
        assert_eq!(rt; x.delay, 5);
        assert_eq!(rt; x.blocking, 0);
        assert_eq!(rt; x.priority, 255);
        Ok(())
    }

    #[test]
    fn kind_and_fields_of_a_line(rt: HostRuntime) {
        assert_eq!(rt; kind_of(b"node"), Some(Kind::Node));
        assert_eq!(rt; kind_of(b"chain,1,2,3,x"), Some(Kind::Chain));
        assert_eq!(rt; kind_of(b"step,"), Some(Kind::Step));
        assert_eq!(rt; kind_of(b"nodes,1,E"), None);
        assert_eq!(rt; kind_of(b""), None);
        assert_eq!(rt; field_count(b""), 1);
        assert_eq!(rt; field_count(b"step,,"), 3);
    }

    #[test]
    fn kind_is_unknown(rt: HostRuntime) {
        assert_eq!(rt; refusal(b""), Some((13, 1)));
        assert_eq!(rt; refusal(b",,,"), Some((13, 1)));
        assert_eq!(rt; refusal(b"Node,1,E"), Some((13, 1)));
        assert_eq!(rt; refusal(b" node,1,E"), Some((13, 1)));
    }

    #[test]
    fn count_of_fields_is_wrong(rt: HostRuntime) {
        assert_eq!(rt; refusal(b"node"), Some((14, 0)));
        assert_eq!(rt; refusal(b"node,1,E,"), Some((14, 0)));
        assert_eq!(rt; refusal(b"chain,1,2,3"), Some((14, 0)));
        assert_eq!(rt; refusal(b"step,,,,,,,"), Some((14, 0)));
    }

    #[test]
    fn field_is_empty(rt: HostRuntime) {
        assert_eq!(rt; refusal(b"step,1,3,8,,0,1"), Some((15, 5)));
        assert_eq!(rt; refusal(b"step,,x,8,5,0,1"), Some((15, 2)));
        assert_eq!(rt; refusal(b"node,1,"), Some((15, 3)));
    }

    #[test]
    fn number_is_wrong(rt: HostRuntime) {
        assert_eq!(rt; refusal(b"chain,01,2,3,4"), Some((16, 2)));
        assert_eq!(rt; refusal(b"chain,1,12345678,3,4"), Some((16, 3)));
        assert_eq!(rt; refusal(b"chain,1,2,-3,"), Some((16, 4)));
        assert_eq!(rt; refusal(b"chain,1,2,3,+4"), Some((16, 5)));
    }

    #[test]
    fn letter_is_wrong(rt: HostRuntime) {
        assert_eq!(rt; refusal(b"node,1,e"), Some((17, 3)));
        assert_eq!(rt; refusal(b"node,1,EP"), Some((17, 3)));
        assert_eq!(rt; refusal(b"node,x,e"), Some((16, 2)));
    }

    #[test]
    fn odd_bytes_pass_for_nothing(rt: HostRuntime) {
        assert_eq!(rt; refusal(b"node,1,E\r"), Some((17, 3)));
        assert_eq!(rt; refusal(b"chain,1,2,3,4\r"), Some((16, 5)));
        assert_eq!(rt; refusal(b"chain,1\0,2,3,4"), Some((16, 2)));
        assert_eq!(rt; refusal(b"chain,1,\xff,3,4"), Some((16, 3)));
        assert_eq!(rt; refusal(b"chain,1,2, 3,4"), Some((16, 4)));
        assert_eq!(rt; refusal(b"chain,1,2,3,4 "), Some((16, 5)));
        assert_eq!(rt; refusal(b"node\0,1,E"), Some((13, 1)));
    }

    #[test]
    fn numbers_alone(rt: HostRuntime) {
        assert_eq!(rt; number_in(b"0"), Ok(0));
        assert_eq!(rt; number_in(b"9999999"), Ok(9_999_999));
        assert_eq!(rt; number_in(b"00"), Err(Fault::NotANumber));
        assert_eq!(rt; number_in(b""), Err(Fault::EmptyField));
    }

    #[test]
    fn record_fault_keeps_its_place(rt: HostRuntime) -> Result<(), Fail> {
        assert_eq!(rt; chain_in(b"chain,7,100,50,0"), Ok(7));
        let why = chain_in(b"chain,7,0,50,0").err().ok_or("taken")?;
        assert_eq!(rt; why.fault.number(), 1);
        assert_eq!(rt; why.field, 3);
        assert_eq!(rt; why.on(12).line, 12);
        Ok(())
    }

    #[test]
    fn text_is_taken_line_by_line(rt: HostRuntime) -> Result<(), Fail> {
        check_text(b"")?;
        check_text(b"node,1,E\n\n")?;
        let mut text = TextCursor::new(b"node,1,E\n\n");
        assert_eq!(rt; text.next().ok_or("no line")?.len(), 8);
        assert_eq!(rt; text.next().ok_or("no line")?.len(), 0);
        assert_eq!(rt; text.number(), 2);
        assert!(rt; text.next().is_none());
        assert_eq!(rt; TextCursor::new(b"node,1,E\n\n").count(), 2);
        Ok(())
    }

    #[test]
    fn text_is_refused(rt: HostRuntime) -> Result<(), Fail> {
        assert_eq!(rt; text_refusal(b"node,1,E\nnode,2,P"), Some((12, 2)));
        assert_eq!(rt; text_refusal(b"\n\n "), Some((12, 3)));
        let long = [b'\n'; 32_769];
        assert_eq!(rt; text_refusal(&long), Some((11, 0)));
        check_text(&long[0..32_768])?;
        Ok(())
    }
}
