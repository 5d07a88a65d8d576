//! When the watcher of a study is warned.

use crate::common::{NO_MEMORY, changed, same};
use crate::files::ONE_CRASH;
use reporting::MemoryOutlet;
use study::{Grid, Sources};
use study_commands::serve::serve;
use study_commands::warned::Warned;
use sweep::{Pass, Standing, Watcher};

/// Keeps the last that it heard, how often it was warned, and whether it had heard by then that all runs were read, and
/// of no run that was done.
#[derive(Drop)]
struct Keeper {
    last: Option<Standing>,
    warned: u64,
    in_time: bool,
    shows: bool,
}

impl Watcher for Keeper {
    ghost heard = { λ _ _ _. Unit {0} };

    ghost shows = { λ k. k.shows };

    fn hear(&mut self, standing: Standing) {
        self.last = Some(standing);
        self.shows = true;
    }

    fn limited(&mut self, _sources: &Sources, _grid: &Grid, _point: u64, _count: u64) {
        self.shows = false;
    }

    fn make_way(&mut self) {}

    fn hide(&mut self) {
        self.shows = false;
    }
}

impl Warned for Keeper {
    ghost warned = { λ _ _ _. Unit {0} };

    fn warn(&mut self, _line: &str) {
        let are_read = match &self.last {
            None => false,
            Some(last) => {
                last.pass == Pass::Reading && last.done == last.points.wrapping_mul(last.runs)
            }
        };
        self.in_time = self.in_time && are_read;
        self.warned = self.warned.saturating_add(1);
        self.shows = false;
    }
}

/// No detector of the study can suspect anybody before the horizon. The watcher is warned of that once: after it heard
/// that all six runs were read, and before it heard of one that was done.
#[test]
fn warned_before_the_first_run(rt: HostRuntime) {
    let alloc = rt.alloc();
    let file = changed(&rt, alloc, ONE_CRASH, "timeout = 5", "timeout = 10");
    let line = "fdstudy sweep - --seeds 1..=3 --vary link.loss=0,300 --columns runs";
    let words = line.split(' ').collect(alloc);
    let words: Vec<&str> = words.expect(&rt, NO_MEMORY);
    let (mut outlet, mut faults) = (MemoryOutlet::new(alloc), MemoryOutlet::new(alloc));
    let mut input = file.as_bytes();
    let mut keeper = Keeper {
        last: None,
        warned: 0,
        in_time: true,
        shows: false,
    };
    let watcher = &mut keeper;
    let status = serve(
        &rt,
        alloc,
        &words,
        &mut input,
        &mut outlet,
        &mut faults,
        watcher,
    );
    let text = b"runs\n3\n3\n".as_slice();
    same(&rt, &(status, outlet.bytes()), &(0, text));
    let last = Standing {
        pass: Pass::Running,
        points: 2,
        runs: 3,
        done: 6,
    };
    same(&rt, &keeper.last, &Some(last));
    assert!(rt; keeper.in_time && keeper.warned == 1 && !keeper.shows);
}
