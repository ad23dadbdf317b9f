use crate::sample::{chain, step};
use records::{Chain, RecordFault, Step};

// The place of the fault, if no record is made.
fn fault_place<T: Drop>(made: Result<T, RecordFault>) -> Option<u32> {
    made.err().map(|fault| fault.place)
}

#[test]
fn costs_from_one_to_a_million(rt: HostRuntime) {
    assert_eq!(rt; fault_place(Step::try_from(step(1, 1, 0))), None);
    assert_eq!(rt; fault_place(Step::try_from(step(1, 1_000_000, 0))), None);
    assert_eq!(rt; fault_place(Step::try_from(step(1, 1_000_001, 0))), Some(2));
    assert_eq!(rt; fault_place(Step::try_from(step(1, 0, 0))), Some(2));
}

#[test]
fn the_first_field_out_of_range_is_named(rt: HostRuntime) {
    assert_eq!(rt; fault_place(Step::try_from(step(0, 0, 0))), Some(1));
    assert_eq!(rt; fault_place(Step::try_from(step(9, 1, 0))), Some(1));
    assert_eq!(rt; fault_place(Step::try_from(step(8, 1, 255))), None);
    assert_eq!(rt; fault_place(Step::try_from(step(8, 1, 256))), Some(6));
}

#[test]
fn chains_in_range(rt: HostRuntime) {
    assert_eq!(rt; fault_place(Chain::try_from(chain(1, 1, 1))), None);
    assert_eq!(rt;
        fault_place(Chain::try_from(chain(65_535, 1_000_000, 1_000_000))),
        None
    );
    assert_eq!(rt; fault_place(Chain::try_from(chain(65_536, 1, 1))), Some(1));
    assert_eq!(rt; fault_place(Chain::try_from(chain(0, 0, 0))), Some(1));
    assert_eq!(rt; fault_place(Chain::try_from(chain(1, 0, 0))), Some(2));
    assert_eq!(rt; fault_place(Chain::try_from(chain(1, 1, 0))), Some(3));
}
