// Buffers that just fit, that are too short, and what stays in them.
use crate::sample::WORKED;
use law::Refusal;
use lines::{Fault, TableFault};
use report::{Report, Verdict, report, write_fault, write_nothing_carries};

const EMPTY_DELAY: TableFault = TableFault {
    fault: Fault::EmptyField,
    line: 4,
    field: 5,
};

#[test]
fn rest_of_the_buffer_stays(rt: HostRuntime) {
    let mut buffer = [b'.'; 18];
    assert_eq!(rt; write_fault(&EMPTY_DELAY, &mut buffer), Ok(15));
    assert_eq!(rt; &buffer, b"refused,15,4,5\n...");
    assert_eq!(rt; write_nothing_carries(12, &mut buffer), Ok(14));
    assert_eq!(rt; &buffer, b"refused,10,12\n\n...");
}

#[test]
fn line_that_does_not_fit_is_not_begun(rt: HostRuntime) {
    let mut buffer = [b'.'; 14];
    assert_eq!(rt;
        write_fault(&EMPTY_DELAY, &mut buffer),
        Err(Refusal::BufferShort)
    );
    assert_eq!(rt; &buffer, b"..............");
    assert_eq!(rt;
        write_nothing_carries(123, &mut buffer),
        Err(Refusal::BufferShort)
    );
    assert_eq!(rt; &buffer, b"..............");
    assert_eq!(rt; write_nothing_carries(12, &mut buffer), Ok(14));
}

#[test]
fn report_that_does_not_fit_is_not_begun(rt: HostRuntime) {
    let mut short = [b'.'; 62];
    assert_eq!(rt; report(WORKED, &mut short), Err(Refusal::BufferShort));
    assert_eq!(rt; short, [b'.'; 62]);
    let mut buffer = [b'.'; 63];
    assert_eq!(rt;
        report(WORKED, &mut buffer),
        Ok(Report {
            verdict: Verdict::Listed,
            len: 63,
        })
    );
}

#[test]
fn refused_report_that_does_not_fit(rt: HostRuntime) {
    let mut buffer = [b'.'; 4];
    assert_eq!(rt; report(b"x\n", &mut buffer), Err(Refusal::BufferShort));
    assert_eq!(rt; &buffer, b"....");
}
