//! Grids that there can't be.
use crate::comparisons::{NO_MEMORY, same};
use crate::traces::axes;
use std::alloc::Global;
use std::process::Abort;
use study::Grid;

/// The highest seed that a scenario may have.
const HIGHEST_SEED: u64 = 9_223_372_036_854_775_807;

/// More combinations than there may be points or runs.
const MANY: &str = "b=1..=1000\nc=1..=1000\nd=1..=1000\ne=1..=1000";

/// More combinations than 64 bits can count.
const TOO_MANY: &str =
    "b=1..=1000\nc=1..=1000\nd=1..=1000\ne=1..=1000\nf=1..=1000\ng=1..=1000\nh=1..=1000";

/// What is varied, added up and dealt, the first seed and the last one, and what is answered: the first reason, where
/// there are several.
const REFUSED: &[(&str, &str, &str, u64, u64, &str)] = &[
    ("a=1", "a=1", "", 1, 0, "NoSeed"),
    ("a=1", "a=1", "", 1, HIGHEST_SEED + 1, "SeedTooHigh"),
    (MANY, "a=1", "a=2", 1, 1, "KeyTwice(\"a\")"),
    ("a=1\nb=1", "b=2\na=2", "", 1, 1, "KeyTwice(\"b\")"),
    ("a,c.d,a=1:2:3", "", "", 1, 1, "KeyTwice(\"a\")"),
    ("c[1].d=1", "", "c[*].d=2", 1, 1, "KeyTwice(\"c[*].d\")"),
    ("c[*].d=1", "c[2].d=2", "", 1, 1, "KeyTwice(\"c[2].d\")"),
    (
        "a=1..=1001\nb=1..=1000",
        "",
        "c=1,2,3",
        1,
        7,
        "TooManyPoints { points: 1001000 }",
    ),
    (
        TOO_MANY,
        "",
        "",
        1,
        1,
        "TooManyPoints { points: 18446744073709551615 }",
    ),
    ("", MANY, "a=1,2,3", 1, 7, "Uneven { seeds: 7, dealt: 3 }"),
    (
        "",
        MANY,
        "a=1,2,3",
        1,
        6,
        "TooManyRuns { runs: 6000000000000 }",
    ),
];

/// Why there is no such grid.
fn refusal(
    rt: &impl Abort,
    alloc: Global,
    (vary, over, deal): (&str, &str, &str),
    first: u64,
    last: u64,
) -> String {
    let (vary, over) = (axes(rt, alloc, vary), axes(rt, alloc, over));
    match Grid::new(alloc, vary, over, axes(rt, alloc, deal), first, last) {
        Ok(_) => panic!(rt; "the grid is taken"),
        Err(error) => format!(in alloc; "{error:?}").expect(rt, NO_MEMORY),
    }
}

#[test]
fn refused(rt: HostRuntime) {
    for &(vary, over, deal, first, last, wanted) in REFUSED {
        let told = refusal(&rt, rt.alloc(), (vary, over, deal), first, last);
        same(&rt, &told.as_str(), &wanted);
    }
}
