//! Two whole pictures, worked out by hand: of ticks 5 to 9, each 160 units wide.
use super::letters_pictures::letters_of;
use crate::comparisons::{NO_MEMORY, is_made_of};
use crate::traces::trace_of;
use drawing::{draw_letters, draw_suspicions};
use scenario::read_scenario;
use std::alloc::Global;
use std::process::Abort;

/// Process 2 of two crashes at tick 6, there is a reduction, and the link from process 2 to process 1 is cut at ticks 6
/// and 7.
const FILE: &str = "version = 2
processes = 2
horizon = 10
lookahead = 2
seed = 1
algorithm = \"none\"
[share]
period = 2
[[crash]]
process = 2
at = 6
[[outage]]
from = 2
to = 1
begin = 6
until = 8
[detector]
period = 4
check = 3
timeout = 5
[link]
min = 2
max = 2
";

/// Process 1 suspects process 2 from tick 7 on, and by the reduction from tick 8 on. It decides 7 at tick 9.
const NOTED: &str = "0,1,1,0,start,1,0,
0,2,2,0,start,1,0,
7,1,1,1,check,0,0,suspect:1:2
8,1,1,2,share,0,0,suspect:2:2
9,1,1,3,share,0,0,decided:7
";

/// The first letter is sent before tick 5.
const SENT: &str = "4,1,2,1,alive,6,dead
5,1,2,2,suspects,7,dead
5,2,1,1,alive,7,taken
7,1,2,3,alive,,lost
9,1,2,4,alive,11,late
";

/// How each class is painted: the colours of Okabe and Ito, heads for letters that are taken alone, and what differs on
/// a dark background.
const STYLE: &str = "\
<style>
:root{color-scheme:light dark}
text{font:12px sans-serif;fill:#24292f}
.title{font-weight:bold}
.remark{font-size:10px;paint-order:stroke;stroke:#fff;stroke-width:3px}
line,use{fill:none;stroke-width:1}
.axis,.life{stroke:#57606a}
.grid{stroke:#57606a;stroke-opacity:0.25}
.first{fill:#0072b2}
.second{fill:#e69f00}
.outage{fill:#d8dee4}
.crash{stroke:#d55e00;stroke-width:2}
.decision{fill:#009e73}
.detector{stroke:#0072b2}
.reduction{transform:translate(-2px);stroke:#e69f00;marker-end:url(#head2)}
.consensus{transform:translate(2px);stroke:#009e73;marker-end:url(#head3)}
.lost{stroke:#d55e00}
.dead{stroke:#8c959f;stroke-dasharray:5 3}
.late{stroke:#8c959f;stroke-dasharray:2 3}
.head{fill:#0072b2}
.head2{fill:#e69f00}
.head3{fill:#009e73}
.stop{fill:none;stroke:#d55e00}
@media(prefers-color-scheme:dark){
text{fill:#e6edf3}
.remark{stroke:#0d1117}
.axis,.life,.grid{stroke:#9da7b1}
.first{fill:#56b4e9}
.outage{fill:#30363d}
.detector{stroke:#56b4e9}
.head{fill:#56b4e9}
}
</style>
<defs>
<marker id=\"head\" viewBox=\"0 0 8 8\" refX=\"8\" refY=\"4\" markerWidth=\"7\" markerHeight=\"7\" orient=\"auto\">
<path class=\"head\" d=\"M0 0L8 4L0 8Z\"/>
</marker>
<marker id=\"head2\" viewBox=\"0 0 8 8\" refX=\"8\" refY=\"4\" markerWidth=\"7\" markerHeight=\"7\" orient=\"auto\">
<path class=\"head2\" d=\"M0 0L8 4L0 8Z\"/>
</marker>
<marker id=\"head3\" viewBox=\"0 0 8 8\" refX=\"8\" refY=\"4\" markerWidth=\"7\" markerHeight=\"7\" orient=\"auto\">
<path class=\"head3\" d=\"M0 0L8 4L0 8Z\"/>
</marker>
<marker id=\"stop\" viewBox=\"-4 -4 8 8\" markerWidth=\"8\" markerHeight=\"8\">
<path class=\"stop\" d=\"M-3 -3L3 3M3 -3L-3 3\"/>
</marker>
<path id=\"cross\" d=\"M-4 -4L4 4M4 -4L-4 4\"/>
</defs>
";

/// Groups of 42 and 26 units, between 80 above and 28 below.
const SUSPICIONS_HEAD: &str = "\
<svg xmlns=\"http://www.w3.org/2000/svg\" role=\"img\" viewBox=\"0 0 928 176\" width=\"928\" height=\"176\">
";

/// The title, and what bars, marks and bands mean; then the band of the one row that has one.
const SUSPICIONS_LEGEND: &str = "\
<text class=\"title\" x=\"88\" y=\"20\" text-anchor=\"start\">Who suspects whom, ticks 5 to 9</text>
<rect class=\"first\" x=\"88\" y=\"34\" width=\"24\" height=\"6\"/>
<text class=\"label\" x=\"118\" y=\"42\" text-anchor=\"start\">suspected by the base detector</text>
<use href=\"#cross\" class=\"crash\" x=\"328\" y=\"38\"/>
<text class=\"label\" x=\"340\" y=\"42\" text-anchor=\"start\">crash</text>
<circle class=\"decision\" cx=\"398\" cy=\"38\" r=\"4\"/>
<text class=\"label\" x=\"410\" y=\"42\" text-anchor=\"start\">decision</text>
<rect class=\"second\" x=\"488\" y=\"34\" width=\"24\" height=\"6\"/>
<text class=\"label\" x=\"518\" y=\"42\" text-anchor=\"start\">suspected by the reduction</text>
<rect class=\"outage\" x=\"708\" y=\"34\" width=\"24\" height=\"6\"/>
<text class=\"label\" x=\"738\" y=\"42\" text-anchor=\"start\">outage</text>
<text class=\"label\" x=\"888\" y=\"20\" text-anchor=\"end\">pairs without a bar, left out: 1</text>
<rect class=\"outage\" x=\"248\" y=\"96\" width=\"320\" height=\"16\"/>
";

/// Six labels, at the ends of five ticks. The rows end at 148.
const SUSPICIONS_AXIS: &str = "\
<line class=\"axis\" x1=\"88\" y1=\"72\" x2=\"888\" y2=\"72\"/>
<line class=\"axis\" x1=\"88\" y1=\"148\" x2=\"888\" y2=\"148\"/>
<line class=\"grid\" x1=\"88\" y1=\"72\" x2=\"88\" y2=\"148\"/>
<text class=\"label\" x=\"88\" y=\"68\" text-anchor=\"middle\">5</text>
<text class=\"label\" x=\"88\" y=\"162\" text-anchor=\"middle\">5</text>
<line class=\"grid\" x1=\"248\" y1=\"72\" x2=\"248\" y2=\"148\"/>
<text class=\"label\" x=\"248\" y=\"68\" text-anchor=\"middle\">6</text>
<text class=\"label\" x=\"248\" y=\"162\" text-anchor=\"middle\">6</text>
<line class=\"grid\" x1=\"408\" y1=\"72\" x2=\"408\" y2=\"148\"/>
<text class=\"label\" x=\"408\" y=\"68\" text-anchor=\"middle\">7</text>
<text class=\"label\" x=\"408\" y=\"162\" text-anchor=\"middle\">7</text>
<line class=\"grid\" x1=\"568\" y1=\"72\" x2=\"568\" y2=\"148\"/>
<text class=\"label\" x=\"568\" y=\"68\" text-anchor=\"middle\">8</text>
<text class=\"label\" x=\"568\" y=\"162\" text-anchor=\"middle\">8</text>
<line class=\"grid\" x1=\"728\" y1=\"72\" x2=\"728\" y2=\"148\"/>
<text class=\"label\" x=\"728\" y=\"68\" text-anchor=\"middle\">9</text>
<text class=\"label\" x=\"728\" y=\"162\" text-anchor=\"middle\">9</text>
<line class=\"grid\" x1=\"888\" y1=\"72\" x2=\"888\" y2=\"148\"/>
<text class=\"label\" x=\"888\" y=\"68\" text-anchor=\"middle\">10</text>
<text class=\"label\" x=\"888\" y=\"162\" text-anchor=\"middle\">10</text>
";

/// The rows begin at 80, 96 and 122. Process 2 suspects nobody.
const SUSPICIONS_ROWS: &str = "\
<text class=\"title\" x=\"78\" y=\"92\" text-anchor=\"end\">process 1</text>
<line class=\"life\" x1=\"88\" y1=\"88\" x2=\"888\" y2=\"88\"/>
<circle class=\"decision\" cx=\"728\" cy=\"88\" r=\"4\"/>
<text class=\"label\" x=\"78\" y=\"108\" text-anchor=\"end\">1: 2</text>
<line class=\"grid\" x1=\"88\" y1=\"111\" x2=\"888\" y2=\"111\"/>
<rect class=\"first\" x=\"408\" y=\"97\" width=\"480\" height=\"6\"/>
<rect class=\"second\" x=\"568\" y=\"104\" width=\"320\" height=\"6\"/>
<use href=\"#cross\" class=\"crash\" x=\"248\" y=\"104\"/>
<text class=\"title\" x=\"78\" y=\"134\" text-anchor=\"end\">process 2</text>
<line class=\"life\" x1=\"88\" y1=\"130\" x2=\"248\" y2=\"130\"/>
<use href=\"#cross\" class=\"crash\" x=\"248\" y=\"130\"/>
</svg>
";

/// Two rooms of 54 units.
const LETTERS_HEAD: &str = "\
<svg xmlns=\"http://www.w3.org/2000/svg\" role=\"img\" viewBox=\"0 0 928 216\" width=\"928\" height=\"216\">
";

/// The title, and what arrows, marks and bands mean; then the band of process 2.
const LETTERS_LEGEND: &str = "\
<text class=\"title\" x=\"88\" y=\"20\" text-anchor=\"start\">What went from whom to whom, ticks 5 to 9</text>
<line marker-end=\"url(#head)\" class=\"detector\" x1=\"88\" y1=\"34\" x2=\"112\" y2=\"34\"/>
<text class=\"label\" x=\"118\" y=\"38\" text-anchor=\"start\">letter of a detector</text>
<line marker-end=\"url(#head)\" class=\"reduction\" x1=\"248\" y1=\"34\" x2=\"272\" y2=\"34\"/>
<text class=\"label\" x=\"278\" y=\"38\" text-anchor=\"start\">of the reduction</text>
<line marker-end=\"url(#head)\" class=\"consensus\" x1=\"388\" y1=\"34\" x2=\"412\" y2=\"34\"/>
<text class=\"label\" x=\"418\" y=\"38\" text-anchor=\"start\">of consensus</text>
<line marker-end=\"url(#stop)\" class=\"lost\" x1=\"513\" y1=\"34\" x2=\"533\" y2=\"34\"/>
<text class=\"label\" x=\"543\" y=\"38\" text-anchor=\"start\">lost</text>
<line class=\"dead\" x1=\"588\" y1=\"34\" x2=\"612\" y2=\"34\"/>
<text class=\"label\" x=\"618\" y=\"38\" text-anchor=\"start\">to a crashed process</text>
<line class=\"late\" x1=\"763\" y1=\"34\" x2=\"787\" y2=\"34\"/>
<text class=\"label\" x=\"793\" y=\"38\" text-anchor=\"start\">due later</text>
<use href=\"#cross\" class=\"crash\" x=\"88\" y=\"50\"/>
<text class=\"label\" x=\"100\" y=\"54\" text-anchor=\"start\">crash</text>
<circle class=\"decision\" cx=\"158\" cy=\"50\" r=\"4\"/>
<text class=\"label\" x=\"170\" y=\"54\" text-anchor=\"start\">decision</text>
<circle class=\"second\" cx=\"238\" cy=\"50\" r=\"3\"/>
<text class=\"label\" x=\"250\" y=\"54\" text-anchor=\"start\">+2: suspects process 2, -2: trusts it again</text>
<rect class=\"outage\" x=\"528\" y=\"46\" width=\"24\" height=\"6\"/>
<text class=\"label\" x=\"558\" y=\"54\" text-anchor=\"start\">outage</text>
<rect class=\"outage\" x=\"248\" y=\"152\" width=\"320\" height=\"16\"/>
";

/// The lines of the processes are at 106 and 160; arrows and marks stand on them.
const LETTERS_SHAPES: &str = "\
<text class=\"title\" x=\"78\" y=\"110\" text-anchor=\"end\">process 1</text>
<line class=\"life\" x1=\"88\" y1=\"106\" x2=\"888\" y2=\"106\"/>
<circle class=\"decision\" cx=\"728\" cy=\"106\" r=\"4\"/>
<text class=\"title\" x=\"78\" y=\"164\" text-anchor=\"end\">process 2</text>
<line class=\"life\" x1=\"88\" y1=\"160\" x2=\"248\" y2=\"160\"/>
<use href=\"#cross\" class=\"crash\" x=\"248\" y=\"160\"/>
<line class=\"dead\" x1=\"88\" y1=\"106\" x2=\"408\" y2=\"160\"/>
<line marker-end=\"url(#head)\" class=\"detector\" x1=\"88\" y1=\"160\" x2=\"408\" y2=\"106\"/>
<line marker-end=\"url(#stop)\" class=\"lost\" x1=\"408\" y1=\"106\" x2=\"420\" y2=\"133\"/>
<line class=\"late\" x1=\"728\" y1=\"106\" x2=\"888\" y2=\"133\"/>
<text class=\"remark\" x=\"728\" y=\"122\" text-anchor=\"end\">decides 7</text>
<circle class=\"second\" cx=\"568\" cy=\"106\" r=\"3\"/>
<text class=\"remark\" x=\"568\" y=\"100\" text-anchor=\"middle\">+2</text>
</svg>
";

/// The same labels where the rooms end at 188, 40 units further down.
fn letters_axis<R: Abort>(rt: &R, alloc: Global) -> String {
    let lines = SUSPICIONS_AXIS.replace(alloc, "\"148\"", "\"188\"");
    let axis = lines
        .expect(rt, NO_MEMORY)
        .replace(alloc, "\"162\"", "\"202\"");
    axis.expect(rt, NO_MEMORY)
}

#[test]
fn whole_pictures(rt: HostRuntime) {
    let alloc = rt.alloc();
    let scenario = read_scenario(alloc, FILE.as_bytes());
    let scenario = scenario.expect(&rt, "not a scenario");
    let trace = trace_of(&rt, alloc, NOTED);
    let text = draw_suspicions(alloc, &scenario, &trace, 5, 10);
    let text = text.expect(&rt, "no picture");
    let pieces = [
        SUSPICIONS_HEAD,
        STYLE,
        SUSPICIONS_LEGEND,
        SUSPICIONS_AXIS,
        SUSPICIONS_ROWS,
    ];
    is_made_of(&rt, &text, &pieces);
    let letters = letters_of(&rt, alloc, SENT);
    let text = draw_letters(alloc, &scenario, &trace, &letters, &[], 5, 10);
    let text = text.expect(&rt, "no picture");
    let axis = letters_axis(&rt, alloc);
    let pieces = [
        LETTERS_HEAD,
        STYLE,
        LETTERS_LEGEND,
        axis.as_str(),
        LETTERS_SHAPES,
    ];
    is_made_of(&rt, &text, &pieces);
}
