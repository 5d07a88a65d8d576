//! The rows of a study beside reports of its runs.

use crate::common::{NO_MEMORY, printed, same};
use std::alloc::{AllocError, Global};
use std::process::Abort;

/// How a column comes from the numbers that a measure has in the reports of a point's five runs.
#[derive(Clone, Copy)]
enum How {
    /// It is the same for all points.
    Fixed(u64),
    /// It is their sum.
    Sum,
    /// It is how many there are.
    Count,
    /// It is how many of them are 0.
    Zeros,
    /// It is the one at the nearest rank for so many hundredths; those that are open come last.
    Rank(usize),
    /// It is the greatest.
    Greatest,
    /// It is the sum over the reports of the square of what they add up to in one.
    Squares,
    /// It is the count of reports in which they add up to more than 0.
    Reports,
    /// It is the number of the first such report, from 1.
    First,
    /// It is the count of reports in which they differ.
    Differ,
}

/// The columns that are asked for, each with its measure and how it comes from it. None of the runs passes its limit.
/// In each of them two pairs are watched for all 60 ticks, and the four with the process that crashes for 3; and two
/// processes are correct.
const COLUMNS: [(&str, &str, How); 37] = [
    ("runs", "", How::Fixed(5)),
    ("limited", "", How::Fixed(0)),
    ("entries", "entries", How::Sum),
    ("sent", "sent", How::Sum),
    ("lost", "lost", How::Sum),
    ("pair_ticks", "", How::Fixed(660)),
    ("mistakes", "mistakes", How::Sum),
    ("mistake_ticks", "mistake_ticks", How::Sum),
    ("mistakes_squared_sum", "mistakes", How::Squares),
    ("runs_with_mistakes", "mistakes", How::Reports),
    ("recurrence_sum", "recurrence_sum", How::Sum),
    ("recurrence_count", "recurrence_count", How::Sum),
    ("duration_sum", "duration_sum", How::Sum),
    ("duration_count", "duration_count", How::Sum),
    ("good_sum", "good_sum", How::Sum),
    ("good_count", "good_count", How::Sum),
    ("detections", "detection", How::Count),
    ("undetected", "undetected", How::Count),
    ("at_once", "detection", How::Zeros),
    ("detection_sum", "detection", How::Sum),
    ("detection_p50", "detection", How::Rank(50)),
    ("detection_p90", "detection", How::Rank(90)),
    ("detection_p99", "detection", How::Rank(99)),
    ("detection_max", "detection", How::Greatest),
    ("strong_completeness", "strong_completeness", How::Count),
    ("weak_completeness", "weak_completeness", How::Count),
    ("strong_accuracy", "strong_accuracy", How::Count),
    ("weak_accuracy", "weak_accuracy", How::Count),
    (
        "eventual_strong_accuracy",
        "eventual_strong_accuracy",
        How::Count,
    ),
    (
        "eventual_weak_accuracy",
        "eventual_weak_accuracy",
        How::Count,
    ),
    ("to_decide", "", How::Fixed(10)),
    ("decided", "tick", How::Count),
    ("decision_tick_sum", "tick", How::Sum),
    ("decision_tick_max", "tick", How::Greatest),
    ("rounds_max", "rounds", How::Greatest),
    ("disagreements", "value", How::Differ),
    ("mistake_run", "mistakes", How::First),
];

/// Three processes of which the second crashes at tick 3, with a reduction and proposals.
const SHARED: &str = "version = 1
processes = 3
horizon = 60
lookahead = 2
seed = 1
algorithm = \"s\"
proposals = [10, 20, 30]
detector = { period = 4, check = 3, timeout = 5 }
share = { period = 4 }
link = { min = 2, max = 4 }
crash = [{ process = 2, at = 3 }]
";

/// Twelve points of five seeds each, with both algorithms.
const GRID: &str =
    "--seeds 1..=5 --vary algorithm=s,es --vary detector.timeout=4,9 --vary link.loss=0,150,300";

/// The layer of a report's row, its measure and its value.
fn parts_of(row: &str) -> (&str, &str, &str) {
    let mut fields = row.split(',').skip(1);
    let layer = fields.next().unwrap_or("");
    let measure = fields.nth(2).unwrap_or("");
    (layer, measure, fields.next().unwrap_or(""))
}

/// The number that a row has of a measure: a verdict that holds is a 1, and so is, of `undetected`, a detection that
/// didn't come.
fn number_in(row: &str, layer: &str, measure: &str) -> Option<u64> {
    let (its_layer, its_measure, value) = parts_of(row);
    if its_layer != "0" && its_layer != layer {
        return None;
    }
    if its_measure == measure {
        return if value == "yes" {
            Some(1)
        } else {
            value.parse::<u64>().ok()
        };
    }
    let is_open = measure == "undetected" && its_measure == "detection" && value == "none";
    is_open.then_some(1)
}

/// The numbers that a measure has in a report, in the rows of the whole run and in those of a layer, in rising order.
/// Of the ticks those count at which a process decided a value: the row of the tick follows that of the value.
fn numbers_of(
    alloc: Global,
    report: &str,
    layer: &str,
    measure: &str,
) -> Result<Vec<u64>, AllocError> {
    let mut numbers = Vec::new(alloc);
    let mut is_decided = measure != "tick";
    for row in report.lines() {
        if let Some(number) = number_in(row, layer, measure)
            && is_decided
        {
            numbers.push(number)?;
        }
        if measure == "tick" && row.contains(",value,") {
            is_decided = number_in(row, layer, "value").is_some();
        }
    }
    numbers.sort()?;
    Ok(numbers)
}

/// What the reports of a point's runs have of a measure together.
#[derive(Drop)]
struct Totals {
    /// All numbers, in rising order.
    numbers: Vec<u64>,
    /// What they add up to in each report.
    sums: Vec<u64>,
    /// In how many reports they differ.
    differing: u64,
    /// How many are open: detections that didn't come.
    open: usize,
}

impl Totals {
    /// Those of the rows of a layer.
    fn new(
        alloc: Global,
        reports: &[String],
        layer: &str,
        measure: &str,
    ) -> Result<Totals, AllocError> {
        let (mut numbers, mut sums) = (Vec::new(alloc), Vec::new(alloc));
        let (mut differing, mut open) = (0u64, 0usize);
        for report in reports {
            let own = numbers_of(alloc, report.as_str(), layer, measure)?;
            if own.first() != own.last() {
                differing = differing.saturating_add(1);
            }
            if measure == "detection" {
                let none = numbers_of(alloc, report.as_str(), layer, "undetected")?;
                open = open.saturating_add(none.len());
            }
            sums.push(added_up(&own))?;
            numbers.extend_from_slice(&own)?;
        }
        numbers.sort()?;
        Ok(Totals {
            numbers,
            sums,
            differing,
            open,
        })
    }

    /// The number at the nearest rank for so many hundredths, where one stands there.
    fn at_rank(&self, hundredths: usize) -> Option<u64> {
        let count = self.numbers.len().saturating_add(self.open);
        let rank = hundredths.saturating_mul(count).div_ceil(100);
        self.numbers.get(rank.saturating_sub(1)).copied()
    }

    /// The square of each sum, added up.
    fn squares(&self) -> u64 {
        let mut all = 0u64;
        for sum in &self.sums {
            all = all.saturating_add(sum.saturating_mul(*sum));
        }
        all
    }

    /// The place of the first sum above 0, from 1.
    fn first(&self) -> Option<u64> {
        for (place, sum) in self.sums.iter().enumerate() {
            if *sum > 0 {
                return Some((place as u64).saturating_add(1));
            }
        }
        None
    }

    /// How many of some numbers are 0.
    fn zeros(numbers: &[u64]) -> u64 {
        let mut count = 0u64;
        for number in numbers {
            if *number == 0 {
                count = count.saturating_add(1);
            }
        }
        count
    }

    /// What stands in a column, where that is a number.
    fn column(&self, how: How) -> Option<u64> {
        match how {
            How::Fixed(number) => Some(number),
            How::Sum => Some(added_up(&self.numbers)),
            How::Count => Some(self.numbers.len() as u64),
            How::Zeros => Some(Totals::zeros(&self.numbers)),
            How::Rank(hundredths) => self.at_rank(hundredths),
            How::Greatest => self.numbers.last().copied(),
            How::Squares => Some(self.squares()),
            How::Reports => {
                let none = Totals::zeros(&self.sums);
                Some((self.sums.len() as u64).saturating_sub(none))
            }
            How::First => self.first(),
            How::Differ => Some(self.differing),
        }
    }
}

/// The sum of numbers.
fn added_up(numbers: &[u64]) -> u64 {
    let mut sum = 0u64;
    for number in numbers {
        sum = sum.saturating_add(*number);
    }
    sum
}

/// A row is that of a layer, and each column after it, by the name in the header, is what these reports add up to.
fn is_sum<R: Abort>(
    rt: &R,
    alloc: Global,
    header: &str,
    row: &str,
    layer: &str,
    reports: &[String],
) {
    let mut names = header.split(',').skip(3);
    let mut fields = row.split(',').skip(3);
    let came = (row, names.next(), fields.next());
    same(rt, &came, &(row, Some("layer"), Some(layer)));
    for (column, measure, how) in &COLUMNS {
        let totals = Totals::new(alloc, reports, layer, measure).expect(rt, NO_MEMORY);
        let text = match totals.column(*how) {
            Some(number) => format!(in alloc; "{number}").expect(rt, NO_MEMORY),
            None => String::new(alloc),
        };
        let came = (row, names.next(), fields.next());
        same(rt, &came, &(row, Some(*column), Some(text.as_str())));
    }
    same(rt, &(row, names.next(), fields.next()), &(row, None, None));
}

/// The names of the columns that are asked for.
fn names(alloc: Global) -> Result<String, AllocError> {
    let mut names = String::from_str(alloc, "algorithm,detector.timeout,link.loss,layer")?;
    for (column, _, _) in &COLUMNS {
        names.push(',')?;
        names.push_str(column)?;
    }
    Ok(names)
}

/// Twelve points of five seeds each, with both algorithms and two layers: a row is what the reports add up to that
/// `fdbench list` prints of the files of its runs.
#[test]
fn rows_are_reports_added_up(rt: HostRuntime) {
    let alloc = rt.alloc();
    let columns = names(alloc).expect(&rt, NO_MEMORY);
    let line = format!(in alloc; "fdstudy sweep - {GRID} --columns {columns}");
    let table = printed(&rt, alloc, &line.expect(&rt, NO_MEMORY), SHARED);
    let mut rows = table.lines();
    let header = rows.next().unwrap_or("");
    for point in 1..=12u8 {
        let mut reports = Vec::new(alloc);
        for run in 1..=5u8 {
            let line = format!(in alloc; "fdstudy show - {GRID} --point {point} --run {run}");
            let shown = printed(&rt, alloc, &line.expect(&rt, NO_MEMORY), SHARED);
            let report = printed(&rt, alloc, "fdbench list -", &shown);
            reports.push(report).expect(&rt, NO_MEMORY);
        }
        for layer in ["1", "2"] {
            let row = rows.next().unwrap_or("");
            is_sum(&rt, alloc, header, row, layer, &reports);
        }
    }
    assert!(rt; rows.next().is_none());
}
