//! Outcomes.
use crate::comparisons::{NO_MEMORY, same};
use crate::findings::outcome;
use crate::traces::{scenario_of, trace_of};
use judges::{Answer, decisions};

const COORDINATOR: &str = "0,1,1,0,start,3,0,round:1
0,2,2,0,start,3,0,round:1
0,3,3,0,start,3,0,round:1
1,2,2,3,estimate,0,0,
2,1,2,1,alive,0,0,
2,1,3,1,alive,0,0,
2,2,1,1,alive,0,0,
2,2,1,2,estimate,3,0,
2,2,3,1,alive,0,0,
2,2,3,2,estimate,0,0,
2,3,1,1,alive,0,0,
2,3,2,1,alive,0,0,
3,2,2,4,proposal,1,0,
4,1,2,2,proposal,2,0,round:2
4,2,2,5,reply,0,0,
4,3,2,2,proposal,2,0,round:2
5,3,3,3,estimate,0,0,
6,2,1,3,reply,4,0,round:2
6,2,3,3,reply,0,0,
6,3,1,2,estimate,3,0,
7,2,2,6,decide,0,0,decided:10
7,3,3,4,proposal,1,0,
8,1,2,3,decide,3,0,decided:10
8,1,3,2,proposal,0,0,
8,2,3,4,proposal,0,0,
8,3,2,3,decide,3,0,decided:10
8,3,2,4,estimate,0,0,
8,3,3,5,reply,0,0,
9,1,1,3,decide,0,0,
9,3,3,6,decide,0,0,
10,1,3,3,decide,0,0,
10,2,1,4,decide,0,0,
10,2,3,5,decide,0,0,
10,3,1,3,decide,0,0,
";

/// Process 2 ends with no value, and the others note nothing.
const NO_VALUE: &str = "1,2,2,3,vector,2,0,round:2
3,2,1,3,last,0,0,novalue
";

/// The outcomes of runs of three processes.
#[test]
fn outcomes(rt: HostRuntime) {
    let alloc = rt.alloc();
    let (ten, none) = (Answer::Value(10), (Answer::None, None, 0));
    for &(horizon, rows, first, second, third) in &[
        (
            20,
            COORDINATOR,
            (ten, Some(8), 2),
            (ten, Some(7), 2),
            (ten, Some(8), 2),
        ),
        (10, NO_VALUE, none, (Answer::NoValue, Some(3), 2), none),
    ] {
        let scenario = scenario_of(&rt, alloc, 3, horizon, "");
        let trace = trace_of(&rt, alloc, rows);
        let outcomes = decisions(alloc, &scenario, &trace).expect(&rt, NO_MEMORY);
        let wanted = [
            outcome(&rt, 1, first),
            outcome(&rt, 2, second),
            outcome(&rt, 3, third),
        ];
        same(&rt, &outcomes.as_slice(), &wanted.as_slice());
    }
}
