//! Calls for consecutive numbers, shared out among threads.
ghost use Rattle.std.specs.{Prelude.{◌≡◌, ℕ, ◌+◌, ◌^◌, ◌<◌, ◌≤◌, None, IfOk, Ok, map, vec_len}, List.{All}};
ghost use Rattle.sweep.specs.Results.{AreAnswers, ArePlaces, IsPlaced, with_answers, with_columns};

use std::alloc::{AllocError, Global};
use std::marker::{Send, Sync};
use std::sync::atomic::{AtomicU64, Ordering};
use std::thread::{self, Threads};

/// What the job gives for numbers that no other thread has taken, one after the other, each with its place: how far its
/// number is from the first. `next` holds how many numbers are taken; it decides who makes a call, and nothing else.
fn answer_some<T: Drop, F: Fn(u64) -> T>(
    alloc: Global,
    first: u64,
    count: u64,
    next: &AtomicU64,
    job: &F,
) -> Result<Vec<(u64, T)>, AllocError>
    requires room { first + count < 2 ^ 64 }
    requires accepts { (number : ℕ) → first ≤ number → number < first + count → F.pre job.now number }
    ensures { IfOk result (λ v. All (IsPlaced F.Fn job.now first count) v.items) }
{
    let mut answers = Vec::new(alloc);
    for _ in 0..count {
        let place = next.fetch_add(1, Ordering::SeqCst);
        if place >= count {
            break;
        }
        answers.push((place, job(first + place)))?;
    }
    Ok(answers)
}

/// All of the answers, where none is missing.
pub fn all_of<T: Drop>(
    alloc: Global,
    answers: Vec<Result<T, AllocError>>,
) -> Result<Vec<T>, AllocError>
    ensures { IfOk result (λ v. map Ok v.items ≡ answers.items) }
{
    let mut all = Vec::with_capacity(alloc, answers.len())?;
    for answer in answers {
        all.push(answer?)?;
    }
    Ok(all)
}

/// So many places, all empty.
fn empty_places<T: Drop>(alloc: Global, count: u64) -> Result<Vec<Option<T>>, AllocError>
    ensures count { IfOk result (λ v. vec_len v ≡ count) }
    ensures empty { IfOk result (λ v. All (λ place. place ≡ None) v.items) }
{
    let mut places = Vec::with_capacity(alloc, count as usize)?;
    for _ in 0..count {
        places.push(None)?;
    }
    Ok(places)
}

/// Puts each answer into its place.
fn put_all<T: Drop>(places: &mut Vec<Option<T>>, answers: Vec<(u64, T)>)
    requires { All (λ answer. answer.0 < vec_len places.old) answers.items }
    ensures { places.new.items ≡ with_answers places.old.items answers.items }
{
    for (place, answer) in answers {
        places[place as usize] = Some(answer);
    }
}

/// Puts each answer of each column into its place.
fn put_columns<T: Drop>(places: &mut Vec<Option<T>>, columns: Vec<Vec<(u64, T)>>)
    requires { All (λ column. All (λ answer. answer.0 < vec_len places.old) column.items) columns.items }
    ensures { places.new.items ≡ with_columns places.old.items columns.items }
{
    for answers in columns {
        put_all(places, answers);
    }
}

/// The answers in the order of their places. Where a place is empty, the job is called for its number.
fn filled<T: Drop, F: Fn(u64) -> T>(
    alloc: Global,
    first: u64,
    places: Vec<Option<T>>,
    job: &F,
) -> Result<Vec<T>, AllocError>
    requires room { first + vec_len places < 2 ^ 64 }
    requires accepts { (number : ℕ) → first ≤ number → number < first + vec_len places → F.pre job.now number }
    requires places { ArePlaces F.Fn job.now first places.items }
    ensures { IfOk result (λ v. AreAnswers F.Fn job.now first (vec_len places) v.items) }
{
    let mut answers = Vec::with_capacity(alloc, places.len())?;
    let mut number = first;
    for place in places {
        let answer = match place {
            Some(answer) => answer,
            None => job(number),
        };
        answers.push(answer)?;
        number += 1;
    }
    Ok(answers)
}

/// What the job gives for each of `count` numbers from `first`, in their order, by so many threads: this one and, for
/// each more, one that is started. Each takes the next number that nobody has taken as soon as it has done its last, so
/// none waits while another has calls left. No more are started than there are numbers. Where the system refuses a
/// thread, others do its part.
///
/// # Errors
///
/// `AllocError` where memory was refused.
pub fn in_parallel<R: Threads + Sync, T: Send + Drop, F: Fn(u64) -> T + Sync>(
    rt: &R,
    alloc: Global,
    first: u64,
    count: u64,
    threads: u8,
    job: &F,
) -> Result<Vec<T>, AllocError>
    requires room { first + count < 2 ^ 64 }
    requires accepts { (number : ℕ) → first ≤ number → number < first + count → F.pre job.now number }
    ensures { IfOk result (λ v. AreAnswers F.Fn job.now first count v.items) }
{
    let workers = u64::from(threads).max(1).min(count);
    let next = AtomicU64::new(0);
    let columns = thread::map_indices(
        rt,
        alloc,
        workers as usize,
        &|_worker: usize| answer_some(alloc, first, count, &next, job),
    )?;
    let mut places = empty_places(alloc, count)?;
    put_columns(&mut places, all_of(alloc, columns)?);
    filled(alloc, first, places, job)
}
