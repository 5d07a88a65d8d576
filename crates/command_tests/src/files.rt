//! Scenario files.

/// Two processes, of which the second crashes at tick 3.
pub const ONE_CRASH: &str = "version = 1
processes = 2
horizon = 10
lookahead = 2
seed = 1
algorithm = \"none\"
detector = { period = 4, check = 3, timeout = 5, grow = 1 }
link = { min = 2, max = 2 }
crash = [{ process = 2, at = 3 }]
";

/// One process and one tick.
pub const ONE_PROCESS: &str = "version = 1
processes = 1
horizon = 1
lookahead = 1
seed = 1
algorithm = \"none\"
detector = { period = 4, check = 3, timeout = 5, grow = 1 }
link = { min = 1, max = 1 }
";

/// Three processes that agree by rotating coordinators, with a quiet detector.
pub const COORDINATORS: &str = "version = 1
processes = 3
horizon = 20
lookahead = 2
seed = 1
algorithm = \"es\"
proposals = [10, 20, 30]
detector = { period = 100, check = 100, timeout = 100, grow = 1 }
link = { min = 2, max = 2 }
";

/// Five processes over links that lose and delay letters.
pub const FIVE: &str = "version = 1
processes = 5
horizon = 200
lookahead = 2
seed = 1
algorithm = \"es\"
proposals = [1, 2, 3, 4, 5]
detector = { period = 5, check = 3, timeout = 12, grow = 2 }
link = { min = 2, max = 9, loss = 300 }
";
