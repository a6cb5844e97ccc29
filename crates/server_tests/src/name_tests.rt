//! Tests of the names of refusals.

use trace_model::refusal_name;

/// The number and the name of each refusal.
const NAMES: [(u8, &str); 23] = [
    (1, "Full"),
    (2, "Unforked"),
    (3, "Ended"),
    (4, "AlreadyForked"),
    (5, "TooManyThreads"),
    (6, "JoinsItself"),
    (7, "JoinUnknown"),
    (8, "JoinedTwice"),
    (9, "TooNested"),
    (10, "HeldByOther"),
    (11, "TooDeep"),
    (12, "NotHeld"),
    (13, "NoMemory"),
    (20, "BadBound"),
    (21, "TooManyQuestions"),
    (22, "NoSuchQuestion"),
    (23, "ReportTooLong"),
    (30, "NoSuchTask"),
    (31, "Double"),
    (32, "OtherBound"),
    (33, "OtherTrace"),
    (40, "BoardBusy"),
    (41, "TooManyCycles"),
];

/// Returns the name of the refusal with this number in `NAMES`, or `None` if there is none.
fn name_in_table(number: u8) -> Option<&'static str> {
    for (listed, name) in &NAMES {
        if *listed == number {
            return Some(*name);
        }
    }
    None
}

#[test]
fn each_number_has_its_name(rt: HostRuntime) {
    for number in 0..=u8::MAX {
        assert_eq!(rt;
            refusal_name(number),
            name_in_table(number),
            "refusal {number}"
        );
    }
}
