//! The rows of a study: sums over the runs of each of its points.
//!
//! A run is done within its limit and has a trace, or it passes the limit (`specs/Results.antt`). [`RunNumbers`] are
//! the numbers of one run, [`UnitSums`] are the sums over the runs of a point, and [`Table`] forms the text of rows.
//! The numbers of a row are defined by sums, counts and quantifiers over a list of runs (`specs/Columns.antt`), and so
//! are its columns (`specs/ColumnTable.antt`) and its text (`specs/Layout.antt`). A [`Layout`] says whether rows tell
//! of points or of single runs, and which columns they have (`specs/Layout.antt`). It is proved that the sums of a
//! point, to which runs were added one by one, are those of the list of these runs. It is proved too that the text has
//! the rows of all points, or of all runs (`specs/StudyText.antt`).
//!
//! A row of layer 1 tells a bound of its detections, by what no run breaks (`detector_bounds`) and the trusts of its
//! runs, where each lies before the horizon. It is proved that then each crash that was to be detected was, and none
//! later.
//!
//! A layout may have groups of pairs of processes ([`PairGroup`], `specs/Groups.antt`), as words say them
//! (`specs/GroupWords.antt`). Then a point has its rows once for each group, and the columns about pairs count those of
//! the group. A run is done and measured once, whatever the groups.
//!
//! Lengths of mistakes, detection times, ticks of last decisions and rounds are kept with how often each came. So
//! memory grows with the number of different ones, and not with the runs. Sums have 128 bits, and are exact for up to
//! 1,000,000,000,000 runs.
//!
//! [`in_parallel`] shares out calls for consecutive numbers among threads, and gives what they answer in the numbers'
//! order (`specs/Results.antt`). A sweep has its runs read and done by it.
//!
//! For example, let process 2 of two crash at tick 3 of 10, process 1 detect it at tick 9, and the study have this one
//! run, with `detector.timeout` 5. Its row begins `5,1,1,0,12,4,0,6,`: a time-out of 5, layer 1, one run, no run that
//! passed its limit, 12 entries, 4 letters sent, none lost, and 6 ticks of watching, 3 for each of the two pairs.
#![tactic(auto)]

mod adding;
mod batches;
mod bounds;
mod checking;
mod column_table;
mod columns;
mod decisions;
mod error;
mod fields;
mod group;
mod group_words;
mod laws;
mod layout;
mod limits;
mod measuring;
mod names;
mod numbering;
mod pairs;
mod parallel;
mod picking;
mod point_sums;
mod progress;
mod run_numbers;
mod standard_error;
mod sweeping;
mod swept_study;
mod table;
mod texts;
mod unit_sums;
mod value_counts;
mod watcher;

pub use checking::check_study;
pub use columns::{
    Columns, DecisionSums, DetectionBounds, Distribution, FirstRuns, LayerSums, PairSums,
    RunCounts, TraceSums, VerdictCounts,
};
pub use error::{GroupError, LayoutError, SweepError};
pub use group::{Group, PairBlock, PairGroup, Processes};
pub use laws::{law_one_text, law_shard_texts};
pub use layout::{Layout, Rows};
pub use numbering::points_of;
pub use parallel::{all_of, in_parallel};
pub use point_sums::PointSums;
pub use run_numbers::{GroupNumbers, RunNumbers};
pub use sweeping::{run_study, sweep};
pub use swept_study::SweptStudy;
pub use table::Table;
pub use unit_sums::UnitSums;
pub use watcher::{Pass, Standing, Unwatched, Watcher};
