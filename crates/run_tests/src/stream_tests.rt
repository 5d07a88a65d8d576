//! Words and fates with values from outside: they were computed by a program of its own, written apart from this one
//! and checked with the block of RFC 8439, section 2.3.2, and the 8-round vectors of
//! draft-strombergson-chacha-test-vectors.
ghost use Rattle.std.specs.Prelude.{◌≡◌};

use crate::common::{pid, scenario_of};
use crate::comparisons::{NO_MEMORY, same};
use process_api::Pid;
use rand_chacha::ChaCha8Rng;
use rand_core::{Rng, SeedableRng};
use scenario::Scenario;
use std::alloc::Global;
use std::process::Abort;
use streams::{Fate, SenderWords, Streams};

/// Links that lose three letters of ten.
const LOSSY: &str = "[link]\nmin = 2\nmax = 9\nloss = 300\n";

/// A scenario of five processes with this seed and these links.
fn scenario<R: Abort>(rt: &R, alloc: Global, seed: u64, links: &str) -> Scenario {
    let text = format!(in alloc;
        "version = 2\nprocesses = 5\nhorizon = 200\nlookahead = 2\nseed = {seed}\nalgorithm = \"none\"\n\
         [detector]\nperiod = 5\ncheck = 3\ntimeout = 12\ngrow = 2\n{links}"
    );
    scenario_of(rt, alloc, &text.expect(rt, NO_MEMORY))
}

/// The process of a number that may be out of range.
fn process<R: Abort>(rt: &R, number: u16) -> Pid
    ensures { result ≡ number }
{
    Pid::new(number).expect(rt, "no process")
}

/// Kept words of the links of one sender under a seed, to receivers up to 256.
fn words_of<R: Abort>(rt: &R, alloc: Global, seed: u64, from: Pid) -> SenderWords {
    SenderWords::new(alloc, seed, from, 257).expect(rt, NO_MEMORY)
}

/// Letters 1 to 12 of a link, each sent at the tick of its number and asked for in their turn: their delays, and 0 for
/// a lost one.
fn delays<R: Abort>(rt: &R, alloc: Global, scenario: &Scenario, from: u16, to: u16) -> [u32; 12] {
    let streams = Streams::new(scenario);
    let last = scenario.processes();
    assert!(rt; from != to && from <= last && to <= last);
    let (from, to) = (process(rt, from), process(rt, to));
    let mut words = words_of(rt, alloc, scenario.seed(), from);
    let mut delays = [0u32; 12];
    for place in 0..12usize {
        let fate = streams.next_fate(from, to, place as u64 + 1, place as u32 + 1, &mut words);
        if let Fate::Delay(ticks) = fate {
            delays[place] = ticks;
        }
    }
    delays
}

/// The places of the words in `WORDS`.
const PLACES: [u16; 7] = [0, 1, 2, 15, 16, 17, 1000];

/// Words of a link's stream under a seed: the seed, the link's ends, and the words at `PLACES`.
const WORDS: [(u64, u16, u16, [u32; 7]); 6] = [
    (
        1,
        1,
        1,
        [
            0xa0e95ecf, 0x61a94a49, 0xedd5053e, 0xc8e3fad8, 0x7d5a35b4, 0x6788dd93, 0x06bca377,
        ],
    ),
    (
        1,
        1,
        2,
        [
            0x8c6fea14, 0x1a8125d4, 0xac499192, 0x2c2ddfdd, 0x6c38c98a, 0xdf48c9ef, 0xeb23cab2,
        ],
    ),
    (
        1,
        2,
        1,
        [
            0xd03b2e30, 0x95ae2983, 0x9fcec436, 0xca586cf0, 0xe201d0ab, 0x678ff9b2, 0xbf9f41bd,
        ],
    ),
    (
        258,
        1,
        2,
        [
            0x29d55c06, 0xfe70b8e5, 0xa808c2a6, 0xedf88f46, 0x34722d1d, 0x99771e02, 0xd305ea68,
        ],
    ),
    (
        9223372036854775807,
        64,
        63,
        [
            0xc5c7d6ac, 0xc4c40c80, 0x8a018642, 0x1f968f22, 0x0ca62962, 0x87d10b86, 0x5c835e1a,
        ],
    ),
    (
        1,
        256,
        255,
        [
            0xaa781756, 0x138c5cab, 0xe14fb910, 0xa8c4dcc5, 0x9d31a364, 0x59ef084e, 0x49d245b8,
        ],
    ),
];

#[test]
fn words_of_streams(rt: HostRuntime) {
    for (seed, from, to, words) in WORDS {
        let (sender, receiver) = (process(&rt, from), process(&rt, to));
        let mut kept = words_of(&rt, rt.alloc(), seed, sender);
        let mut came = [0u32; 7];
        for index in 0..7usize {
            let place = PLACES[index];
            let number = u64::from(place) / 2 + 1;
            let pair = kept.pair_at(seed, sender, receiver, number);
            came[index] = if place % 2 == 0 { pair.0 } else { pair.1 };
        }
        same(&rt, &(seed, (from, to), came), &(seed, (from, to), words));
    }
}

#[test]
fn words_of_senders_in_turn(rt: HostRuntime) {
    // receivers 1 and 2 have a place, and others none
    let made = SenderWords::new(rt.alloc(), 1, pid(1), 3);
    let mut kept = made.expect(&rt, NO_MEMORY);
    for index in 0..7usize {
        let place = PLACES[index];
        let number = u64::from(place) / 2 + 1;
        for (seed, from, to, words) in WORDS {
            let (sender, receiver) = (process(&rt, from), process(&rt, to));
            let pair = kept.pair_at(seed, sender, receiver, number);
            let came = if place % 2 == 0 { pair.0 } else { pair.1 };
            same(
                &rt,
                &(seed, (from, to), came),
                &(seed, (from, to), words[index]),
            );
        }
    }
}

/// Lossy links, of which one loses nothing.
const ONE_SAFE: &str = "[link]\nmin = 2\nmax = 9\nloss = 300\n\n\
    [[links]]\nfrom = 3\nto = 4\nmin = 2\nmax = 9\nloss = 0\n";

/// Outages of two lossy links: letters 3 to 6 from process 1 to 2 are sent in one or in both of two that overlap.
const OUTAGES: &str = "[link]\nmin = 2\nmax = 9\nloss = 300\n\
    [[outage]]\nfrom = 1\nto = 2\nbegin = 3\nuntil = 6\n\
    [[outage]]\nfrom = 1\nto = 2\nbegin = 4\nuntil = 7\n\
    [[outage]]\nfrom = 5\nto = 1\nbegin = 1\nuntil = 2\n";

/// Links that lose nothing and have one delay: they draw no words.
const SURE: &str = "[link]\nmin = 5\nmax = 5\n";

/// Sure links, of which one has an outage.
const SURE_CUT: &str =
    "[link]\nmin = 5\nmax = 5\n[[outage]]\nfrom = 5\nto = 4\nbegin = 0\nuntil = 12\n";

/// Links under seed 1, the ends of one of them, and the delays of its letters. Another link's numbers don't change
/// them; what is sent in an outage is lost, and the other letters keep their fates.
const DELAYS: [(&str, (u16, u16), [u32; 12]); 12] = [
    (LOSSY, (1, 2), [6, 3, 8, 6, 9, 3, 0, 7, 9, 8, 0, 6]),
    (LOSSY, (2, 1), [5, 3, 3, 4, 0, 7, 5, 2, 4, 6, 0, 0]),
    (LOSSY, (3, 4), [9, 5, 3, 4, 0, 3, 3, 3, 0, 9, 0, 6]),
    (LOSSY, (5, 1), [5, 5, 0, 0, 2, 6, 5, 0, 7, 7, 0, 0]),
    (ONE_SAFE, (1, 2), [6, 3, 8, 6, 9, 3, 0, 7, 9, 8, 0, 6]),
    (SURE, (1, 2), [5; 12]),
    (SURE, (5, 4), [5; 12]),
    (OUTAGES, (1, 2), [6, 3, 0, 0, 0, 0, 0, 7, 9, 8, 0, 6]),
    (OUTAGES, (2, 1), [5, 3, 3, 4, 0, 7, 5, 2, 4, 6, 0, 0]),
    (OUTAGES, (5, 1), [0, 5, 0, 0, 2, 6, 5, 0, 7, 7, 0, 0]),
    (SURE_CUT, (5, 4), [0, 0, 0, 0, 0, 0, 0, 0, 0, 0, 0, 5]),
    (SURE_CUT, (4, 5), [5; 12]),
];

#[test]
fn fates_of_links(rt: HostRuntime) {
    for (links, (from, to), wanted) in DELAYS {
        let scenario = scenario(&rt, rt.alloc(), 1, links);
        let came = delays(&rt, rt.alloc(), &scenario, from, to);
        same(
            &rt,
            &(links, (from, to), came),
            &(links, (from, to), wanted),
        );
    }
}

/// The words of the stream of the link from process 3 to 4 under seed 258, read one after the other from place 0.
fn words_in_turn<R: Abort>(rt: &R, alloc: Global) -> Vec<u32> {
    let mut key = [0u8; 32];
    key[0] = 2;
    key[1] = 1;
    let mut generator = ChaCha8Rng::from_seed(key);
    generator.set_stream(2 * 65536 + 3);
    let mut words = Vec::new(alloc);
    for _ in 0..200u32 {
        let pushed = words.push(generator.next_u32());
        pushed.expect(rt, NO_MEMORY);
    }
    words
}

/// What becomes of a letter with these words over `LOSSY` links.
fn fate_by(first: u32, second: u32) -> Fate {
    if first % 1000 < 300 {
        Fate::Lost
    } else {
        Fate::Delay(2 + second % 8)
    }
}

#[test]
fn any_order_gives_the_same(rt: HostRuntime) {
    let words = words_in_turn(&rt, rt.alloc());
    let scenario = scenario(&rt, rt.alloc(), 258, LOSSY);
    assert!(rt; scenario.processes() == 5);
    let streams = Streams::new(&scenario);
    let (from, to) = (pid(3), pid(4));
    // words of another seed and sender at first
    let mut kept = words_of(&rt, rt.alloc(), 1, pid(2));
    for number in (1..=100u64).rev() {
        let at = 2 * (number as usize - 1);
        assert!(rt; at + 1 < words.len());
        let fate = fate_by(words[at], words[at + 1]);
        for sent_at in [0, 199, u32::MAX] {
            let one = streams.fate(from, to, number, sent_at);
            let next = streams.next_fate(from, to, number, sent_at, &mut kept);
            same(&rt, &(one, next), &(fate, fate));
        }
    }
}
