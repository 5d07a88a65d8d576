//! Findings at points of a study.
ghost use Rattle.std.specs.{Prelude.{◌≡◌, ◌+◌, ◌^◌, ◌<◌, is_some, length}, List.{count_by, position, range_with_len}};
ghost use Rattle.study_commands.specs.Warnings.{found};

/// What is found at some of a study's points.
#[derive(Clone, Copy)]
pub(crate) struct Found<T> {
    /// At how many of them.
    pub points: u64,
    /// The first of these, from 0.
    pub first: u64,
    /// What is found there.
    pub what: T,
}

/// At how many points anything is found.
fn count_of<T>(all: &[Option<T>]) -> u64
    ensures { result ≡ count_by is_some all.now }
{
    let mut count = 0;
    for each in all {
        if each.is_some() {
            count += 1;
        }
    }
    count
}

/// The first place at which anything is found.
fn place_of<T>(all: &[Option<T>]) -> Option<usize>
    ensures { result ≡ position is_some all.now }
{
    for (place, each) in all.iter().enumerate() {
        if each.is_some() {
            return Some(place);
        }
    }
    None
}

/// What is found at the points from a number on, if anything is.
pub(crate) fn first_of<T: Copy>(all: &[Option<T>], begin: u64) -> Option<Found<T>>
    requires { begin + length all.now < 2 ^ 64 }
    ensures { result ≡ found (range_with_len begin (length all.now)) all.now }
{
    let place = place_of(all)?;
    let what = all[place]?;
    Some(Found {
        points: count_of(all),
        first: begin + place as u64,
        what,
    })
}
