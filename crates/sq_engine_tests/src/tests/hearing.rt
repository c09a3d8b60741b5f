// What a client says of what it hears.
use sq_trial::{Failure, Heard, Hearing};
use std::alloc::Global;

// Three jobs were asked for, on these root keys. Partitions answered this.
const ASKED: [u64; 3] = [4, 4, 9];

// What a client says where partitions answer with these ids, root keys and numbers.
fn judge(alloc: Global, told: &[(u8, u64, u64, u64)]) -> Result<(), Failure> {
    let mut hearing = Hearing::new(alloc)?;
    for root in &ASKED {
        hearing.ask(*root)?;
    }
    for &(part, id, root, number) in told {
        hearing.hear_from(part, Heard { id, root, number })?;
    }
    hearing.judge()
}

// What partitions answered, and what a client says of it. Of two partitions the answers may come in any order.
const TOLD: [([(u8, u64, u64, u64); 3], Result<(), Failure>); 10] = [
    ([(0, 1, 4, 2), (1, 0, 4, 1), (1, 2, 9, 1)], Ok(())),
    ([(0, 0, 4, 1), (0, 1, 4, 2), (0, 2, 9, 1)], Ok(())),
    (
        [(0, 0, 4, 1), (0, 1, 4, 2), (0, 1, 4, 2)],
        Err(Failure::OutOfOrder),
    ),
    (
        [(0, 0, 4, 1), (0, 1, 4, 2), (1, 1, 4, 2)],
        Err(Failure::AnsweredTwice),
    ),
    (
        [(0, 1, 4, 2), (0, 0, 4, 1), (1, 2, 9, 1)],
        Err(Failure::OutOfOrder),
    ),
    (
        [(0, 0, 4, 1), (0, 1, 4, 3), (0, 2, 9, 1)],
        Err(Failure::WrongNumber),
    ),
    (
        [(0, 0, 4, 1), (1, 1, 4, 1), (0, 2, 9, 1)],
        Err(Failure::WrongNumber),
    ),
    (
        [(0, 0, 4, 1), (0, 1, 4, 2), (0, 2, 9, 2)],
        Err(Failure::WrongNumber),
    ),
    (
        [(0, 0, 4, 1), (0, 1, 4, 2), (0, 2, 4, 3)],
        Err(Failure::WrongAnswer),
    ),
    (
        [(0, 0, 4, 1), (0, 1, 4, 2), (0, 3, 9, 1)],
        Err(Failure::NoSuchJob),
    ),
];

#[test]
fn what_is_lost_doubled_or_out_of_order_is_told(rt: HostRuntime) {
    let alloc = rt.alloc();
    for (told, want) in &TOLD {
        assert_eq!(rt; judge(alloc, told), *want, "{told:?}");
        assert!(rt;
            judge(alloc, &told[..2]).is_err(),
            "the last answer is lost"
        );
    }
    let lost = judge(alloc, &[(0, 0, 4, 1), (0, 1, 4, 2)]);
    assert_eq!(rt; lost, Err(Failure::Unanswered));
}
