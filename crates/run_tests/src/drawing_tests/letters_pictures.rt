//! Pictures of letters, and refusals.
use crate::comparisons::{NO_MEMORY, same};
use crate::traces::{
    CRASH_AT_3, number_of, pid, pid_of, scenario_of, small_number_of, trace_of, word_of,
};
use drawing::{DrawError, MOST_LETTERS, draw_letters};
use process_api::{Kind, Pid, Trace};
use reporting::{Letter, LetterFate};
use scenario::Scenario;
use std::alloc::Global;
use std::process::Abort;

fn kind_of<R: Abort>(rt: &R, word: &str) -> Kind {
    match word {
        "alive" => Kind::Alive,
        "suspects" => Kind::Suspects,
        "estimate" => Kind::Estimate,
        _ => panic!(rt; "no such kind"),
    }
}

fn fate_of<R: Abort>(rt: &R, word: &str) -> LetterFate {
    match word {
        "taken" => LetterFate::Taken,
        "lost" => LetterFate::Lost,
        "dead" => LetterFate::Dead,
        "late" => LetterFate::Late,
        _ => panic!(rt; "no such fate"),
    }
}

/// A letter of the form in which the letters of a run are printed.
fn letter_of<R: Abort>(rt: &R, row: &str) -> Letter {
    let mut parts = row.split(',');
    let sent = small_number_of(rt, parts.next());
    let sender = pid_of(rt, parts.next());
    let receiver = pid_of(rt, parts.next());
    let number = number_of(rt, parts.next());
    let kind = kind_of(rt, word_of(rt, parts.next()));
    let due = word_of(rt, parts.next());
    Letter {
        sent,
        sender,
        receiver,
        number,
        kind,
        due: if due.is_empty() {
            None
        } else {
            Some(number_of(rt, Some(due)))
        },
        fate: fate_of(rt, word_of(rt, parts.next())),
    }
}

pub fn letters_of<R: Abort>(rt: &R, alloc: Global, rows: &str) -> Vec<Letter> {
    let mut letters = Vec::new(alloc);
    for row in rows.lines() {
        letters.push(letter_of(rt, row)).expect(rt, NO_MEMORY);
    }
    letters
}

/// What became of a picture, in a word.
fn answer_of(drawn: Result<Vec<u8>, DrawError>) -> &'static str {
    match drawn {
        Ok(_) => "drawn",
        Err(DrawError::TooManyProcesses) => "processes",
        Err(DrawError::Ticks) => "ticks",
        Err(DrawError::TooManyLetters) => "letters",
        Err(DrawError::Memory(_)) => "memory",
    }
}

/// Process 2 crashes at tick 3, and process 1 suspects it at tick 9.
const ONE_CRASH: &str = "0,1,1,0,start,1,0,
0,2,2,0,start,1,0,
3,2,2,2,dead,0,0,
9,1,1,5,check,0,0,suspect:1:2
";

/// A run and its letters.
#[derive(Drop)]
struct Drawn {
    scenario: Scenario,
    trace: Trace,
    letters: Vec<Letter>,
}

impl Drawn {
    /// A run of so many processes over ten ticks, with these tables, entries and letters.
    fn new<R: Abort>(
        rt: &R,
        alloc: Global,
        (processes, tables): (u16, &str),
        entries: &str,
        letters: &str,
    ) -> Drawn {
        Drawn {
            scenario: scenario_of(rt, alloc, processes, 10, tables),
            trace: trace_of(rt, alloc, entries),
            letters: letters_of(rt, alloc, letters),
        }
    }

    /// Its picture between these ticks, with the letters of these processes.
    fn draw(&self, alloc: Global, of: &[Pid], from: u32, until: u32) -> Result<Vec<u8>, DrawError> {
        draw_letters(
            alloc,
            &self.scenario,
            &self.trace,
            &self.letters,
            of,
            from,
            until,
        )
    }
}

/// Letters take 2 ticks, and each process sends one every 4 ticks.
const LETTERS: &str = "0,1,2,1,alive,2,taken
0,2,1,1,alive,2,taken
4,1,2,2,alive,6,dead
8,1,2,3,alive,10,late
";

/// What the picture of ten ticks shows below its legend and its axis: a tick is 80 units wide, the lines of the
/// processes are at 106 and 160.
const SHAPES: &str = "<text class=\"title\" x=\"78\" y=\"110\" text-anchor=\"end\">process 1</text>
<line class=\"life\" x1=\"88\" y1=\"106\" x2=\"888\" y2=\"106\"/>
<text class=\"title\" x=\"78\" y=\"164\" text-anchor=\"end\">process 2</text>
<line class=\"life\" x1=\"88\" y1=\"160\" x2=\"328\" y2=\"160\"/>
<use href=\"#cross\" class=\"crash\" x=\"328\" y=\"160\"/>
<line marker-end=\"url(#head)\" class=\"detector\" x1=\"88\" y1=\"106\" x2=\"248\" y2=\"160\"/>
<line marker-end=\"url(#head)\" class=\"detector\" x1=\"88\" y1=\"160\" x2=\"248\" y2=\"106\"/>
<line class=\"dead\" x1=\"408\" y1=\"106\" x2=\"568\" y2=\"160\"/>
<line class=\"late\" x1=\"728\" y1=\"106\" x2=\"888\" y2=\"160\"/>
<circle class=\"first\" cx=\"808\" cy=\"106\" r=\"3\"/>
<text class=\"remark\" x=\"808\" y=\"100\" text-anchor=\"middle\">+2</text>
</svg>
";

/// The same from tick 4 on to tick 4 alone, 800 units wide: its letter is half way at the edge.
const TICK_4: &str = "<text class=\"title\" x=\"78\" y=\"110\" text-anchor=\"end\">process 1</text>
<line class=\"life\" x1=\"88\" y1=\"106\" x2=\"888\" y2=\"106\"/>
<text class=\"title\" x=\"78\" y=\"164\" text-anchor=\"end\">process 2</text>
<line class=\"life\" x1=\"88\" y1=\"160\" x2=\"88\" y2=\"160\"/>
<line class=\"late\" x1=\"88\" y1=\"106\" x2=\"888\" y2=\"133\"/>
</svg>
";

/// Process 1 suspects process 3 at ticks 5 and 6, and on layer 2 at tick 6. Process 3 decides at tick 7.
const NOTED: &str = "0,1,1,0,start,1,0,
5,1,1,1,check,0,0,suspect:1:3
6,1,1,2,share,0,0,suspect:2:3
7,1,3,1,alive,0,0,trust:1:3 trust:2:3
7,3,3,1,check,0,0,decided:7
";

/// A lost letter down and one up, and letters of the reduction and of consensus.
const SENT: &str = "4,1,3,1,alive,,lost
4,3,1,1,alive,,lost
6,1,2,1,suspects,7,taken
6,2,3,1,estimate,9,taken
";

const SHARE: &str = "[share]
period = 2
";

/// Ticks 4 to 8 of three processes: a tick is 160 units wide, the lines are at 115, 178 and 241.
const MARKED: &str =
    "<line marker-end=\"url(#stop)\" class=\"lost\" x1=\"88\" y1=\"115\" x2=\"100\" y2=\"157\"/>
<line marker-end=\"url(#stop)\" class=\"lost\" x1=\"88\" y1=\"241\" x2=\"100\" y2=\"199\"/>
<line marker-end=\"url(#head)\" class=\"reduction\" x1=\"408\" y1=\"115\" x2=\"568\" y2=\"178\"/>
<line class=\"late\" x1=\"408\" y1=\"178\" x2=\"888\" y2=\"241\"/>
<circle class=\"second\" cx=\"408\" cy=\"115\" r=\"3\"/>
<text class=\"remark\" x=\"408\" y=\"109\" text-anchor=\"middle\">+3</text>
<circle class=\"second\" cx=\"568\" cy=\"115\" r=\"3\"/>
<text class=\"remark\" x=\"568\" y=\"109\" text-anchor=\"middle\">-3</text>
<text class=\"remark\" x=\"568\" y=\"257\" text-anchor=\"end\">decides 7</text>
</svg>
";

/// The same with the letters of process 2 alone: the lost ones are of others.
const OF_2: &str = "<text class=\"title\" x=\"78\" y=\"245\" text-anchor=\"end\">process 3</text>
<line class=\"life\" x1=\"88\" y1=\"241\" x2=\"888\" y2=\"241\"/>
<circle class=\"decision\" cx=\"568\" cy=\"241\" r=\"4\"/>
<line marker-end=\"url(#head)\" class=\"reduction\" x1=\"408\" y1=\"115\" x2=\"568\" y2=\"178\"/>
<line class=\"late\" x1=\"408\" y1=\"178\" x2=\"888\" y2=\"241\"/>
<circle class=\"second\" cx=\"408\" cy=\"115\" r=\"3\"/>
<text class=\"remark\" x=\"408\" y=\"109\" text-anchor=\"middle\">+3</text>
<circle class=\"second\" cx=\"568\" cy=\"115\" r=\"3\"/>
<text class=\"remark\" x=\"568\" y=\"109\" text-anchor=\"middle\">-3</text>
<text class=\"remark\" x=\"568\" y=\"257\" text-anchor=\"end\">decides 7</text>
</svg>
";

/// The shapes with which pictures end: of two processes between two pairs of ticks, and of three.
#[test]
fn shapes(rt: HostRuntime) {
    let alloc = rt.alloc();
    let two = Drawn::new(&rt, alloc, (2, CRASH_AT_3), ONE_CRASH, LETTERS);
    let three = Drawn::new(&rt, alloc, (3, SHARE), NOTED, SENT);
    let second = [pid(&rt, 2)];
    let (all, second) = (&second[..0], &second[..]);
    for &(run, of, (from, until), shapes) in &[
        (&two, all, (0, 10), SHAPES),
        (&two, second, (4, 5), TICK_4),
        (&three, all, (4, 9), MARKED),
        (&three, second, (4, 9), OF_2),
    ] {
        let text = run.draw(alloc, of, from, until).expect(&rt, "no picture");
        assert!(rt; text.as_slice().ends_with(shapes.as_bytes()), "{from}");
    }
}

/// So many more letters are sent, all at tick 5; then a picture of these ticks is asked for, and this is answered.
const ANSWERS: [(usize, u32, u32, &str); 6] = [
    (0, 5, 5, "ticks"),
    (0, 6, 5, "ticks"),
    (0, 0, 11, "ticks"),
    (MOST_LETTERS - 1, 0, 10, "drawn"),
    (1, 0, 10, "letters"),
    (0, 5, 10, "drawn"),
];

#[test]
fn refusals(rt: HostRuntime) {
    let alloc = rt.alloc();
    let (start, letter) = ("0,1,1,0,start,1,0,\n", "4,1,2,1,alive,6,taken\n");
    let seventeen = Drawn::new(&rt, alloc, (17, ""), start, letter);
    same(
        &rt,
        &answer_of(seventeen.draw(alloc, &[], 5, 5)),
        &"processes",
    );
    let mut two = Drawn::new(&rt, alloc, (2, ""), start, letter);
    for (more, from, until, wanted) in &ANSWERS {
        for _ in 0..*more {
            let letter = letter_of(&rt, "5,1,2,1,alive,7,taken");
            two.letters.push(letter).expect(&rt, NO_MEMORY);
        }
        same(&rt, &answer_of(two.draw(alloc, &[], *from, *until)), wanted);
    }
    let third = [pid(&rt, 3)];
    same(&rt, &answer_of(two.draw(alloc, &third, 0, 10)), &"drawn");
}
