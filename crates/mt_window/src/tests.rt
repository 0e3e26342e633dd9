use super::Seen::{Duplicate, Fresh, Old};
use super::*;
use std::test::*;

// The first counter, and the greatest of all.
const FIRST: u32 = 0;

const LAST: u32 = 4_294_967_295;

// Where a window begins, and the counters that come to it in turn, each with its answer.
type Row = (u32, &'static [(u32, Seen)]);

const ROWS: [Row; 7] = [
    // The start itself is new once. One more than 32 below is old, and nothing rolls over.
    (
        1000,
        &[
            (1000, Fresh),
            (1000, Duplicate),
            (968, Fresh),
            (967, Old),
            (LAST, Fresh),
            (LAST, Duplicate),
            (FIRST, Old),
        ],
    ),
    // All within reach of a greatest counter that stays, in any order, each once.
    (
        500,
        &[
            (469, Fresh),
            (499, Fresh),
            (468, Fresh),
            (467, Old),
            (470, Fresh),
            (469, Duplicate),
            (468, Duplicate),
            (499, Duplicate),
            (500, Fresh),
            (500, Duplicate),
            (470, Duplicate),
            (471, Fresh),
        ],
    ),
    // A rise takes the marks along: of those that stay in reach it is known, the others are old.
    (
        10,
        &[
            (10, Fresh),
            (12, Fresh),
            (11, Fresh),
            (42, Fresh),
            (10, Duplicate),
            (9, Old),
            (13, Fresh),
            (43, Fresh),
            (10, Old),
            (11, Duplicate),
            (12, Duplicate),
            (13, Duplicate),
            (14, Fresh),
            (42, Duplicate),
        ],
    ),
    // Rises by 31, 32, 33, 63, 64 and 65, after which only what was accepted is a duplicate.
    (
        100,
        &[
            (100, Fresh),
            (131, Fresh),
            (100, Duplicate),
            (163, Fresh),
            (131, Duplicate),
            (132, Fresh),
            (196, Fresh),
            (163, Old),
            (164, Fresh),
            (259, Fresh),
            (227, Fresh),
            (258, Fresh),
            (323, Fresh),
            (291, Fresh),
            (322, Fresh),
            (388, Fresh),
            (356, Fresh),
            (387, Fresh),
            (355, Old),
        ],
    ),
    // From the first counter on, nothing is old until 33 are behind.
    (
        FIRST,
        &[
            (FIRST, Fresh),
            (FIRST, Duplicate),
            (32, Fresh),
            (FIRST, Duplicate),
            (1, Fresh),
            (33, Fresh),
            (FIRST, Old),
            (1, Duplicate),
            (2, Fresh),
        ],
    ),
    // At the last counter there is no further one.
    (
        LAST,
        &[
            (FIRST, Old),
            (LAST - 33, Old),
            (LAST - 32, Fresh),
            (LAST, Fresh),
            (LAST, Duplicate),
            (LAST - 32, Duplicate),
            (31, Old),
            (LAST - 1, Fresh),
            (LAST - 1, Duplicate),
        ],
    ),
    // The greatest of all jumps; what was there before is far behind.
    (
        FIRST,
        &[
            (5, Fresh),
            (LAST, Fresh),
            (5, Old),
            (FIRST, Old),
            (LAST - 5, Fresh),
            (LAST - 32, Fresh),
            (LAST - 33, Old),
        ],
    ),
];

#[test]
fn answers(rt: HostRuntime) {
    for (start, turns) in ROWS {
        let mut window = Window::new(start);
        for &(counter, want) in turns {
            assert_eq!(rt; window.accept(counter), want);
        }
    }

    // The laws do nothing.
    fresh_is_new_within_reach();
    accepted_is_not_fresh();
    none_is_accepted_twice();
}
