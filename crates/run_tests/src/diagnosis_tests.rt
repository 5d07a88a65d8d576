//! Diagnoses of bytes that are no text, and of a file's table.
use crate::comparisons::{NO_MEMORY, same};
use diagnosis::{Diagnosis, diagnose, diagnose_table};

/// Two processes, of which the second crashes at tick 3.
const CRASH_FILE: &str = "version = 1
processes = 2
horizon = 10
lookahead = 2
seed = 1
algorithm = \"none\"
detector = { period = 4, check = 3, timeout = 5, grow = 1 }
link = { min = 2, max = 2 }
crash = [{ process = 2, at = 3 }]
";

/// Bytes that are no text, and the table of the crash file: of each of its two processes 1 start, 3 beats, 4 checks and
/// 3 letters.
#[test]
fn whole_files(rt: HostRuntime) {
    let alloc = rt.alloc();
    let said = diagnose(alloc, b"seed = 1\n# \xff\n");
    let Diagnosis::Refused(refused) = said.expect(&rt, NO_MEMORY) else {
        panic!(rt; "the bytes are accepted");
    };
    let said = format!(in alloc; "{refused}").expect(&rt, NO_MEMORY);
    let wanted = "NotToml: line 2, column 3: invalid UTF-8";
    same(&rt, &said.as_str(), &wanted);
    let table = toml::table_from_str(alloc, CRASH_FILE).expect(&rt, "no TOML");
    let said = diagnose_table(alloc, &table);
    let Diagnosis::Accepted(file) = said.expect(&rt, NO_MEMORY) else {
        panic!(rt; "the table is refused");
    };
    same(&rt, &(file.processes, file.horizon), &(2, 10));
    same(
        &rt,
        &(file.estimate.entries, file.estimate.seconds),
        &(22, 1),
    );
}
