//! Reading the words of the command line.

ghost use Rattle.std.specs.Prelude.{◌≡◌, ◌↔◌, ◌∷◌, [], ℕ, List, Option, map, string_bytes, IsTrue, IfOk, IfSome, IfNone, IsErrOf, MatchOption};
ghost use Rattle.mk_words.specs.Given.{given, plains_given, AskFor};
ghost use Rattle.mk_words.specs.Requests.{IsChosen, IsBound, IsTask, IsNumberIn, AreSizes, WriteSizes, IsRequest, IsOnlyRequest, AreWrong, WantOne};

use crate::numbers::{cut_at_cross, number_in};
use crate::options::Setting;
use crate::parser::{parse, plain_given, value_given};
use crate::request::{ProjectName, Request, Sizes, Task, UsageFault};
use clap::ArgMatches;
use mk_model::{NoMemory, WORKERS_MAX};
use std::alloc::Global;

/// How many cells a made table may have.
const MOST_CELLS: u32 = 512;

/// The number of the option, from `least` to `most`, or the default where it is not given.
fn number_given(
    matches: &ArgMatches<'_>,
    setting: Setting,
    least: u64,
    most: u64,
    default: u64,
) -> Option<u64>
    ensures some { IfSome result (IsChosen least most default (given setting matches.now)) }
    ensures none { IfNone result ((n : ℕ) → IsChosen least most default (given setting matches.now) n → ⊥) }
{
    match value_given(matches, setting) {
        Some(value) => number_in(value.as_bytes(), least, most),
        None => Some(default),
    }
}

/// The bound of the weights, or none where it is not given.
fn bound_given(matches: &ArgMatches<'_>) -> Option<Option<u64>>
    ensures some { IfSome result (IsBound 18446744073709551615 (given Setting.Upto matches.now)) }
    ensures none { IfNone result ((n : Option ℕ) → IsBound 18446744073709551615 (given Setting.Upto matches.now) n → ⊥) }
{
    match value_given(matches, Setting::Upto) {
        Some(value) => match number_in(value.as_bytes(), 0, u64::MAX) {
            Some(bound) => Some(Some(bound)),
            None => None,
        },
        None => Some(None),
    }
}

/// The size that the word writes.
fn size_in(word: &[u8]) -> Option<u32>
    ensures some { IfSome result (IsNumberIn 2 16 word.now) }
    ensures none { IfNone result ((n : ℕ) → IsNumberIn 2 16 word.now n → ⊥) }
{
    match number_in(word, 2, 16) {
        Some(size) => Some(size as u32),
        None => None,
    }
}

/// The two sizes that the words write.
fn two_sizes(alloc: Global, first: &[u8], second: &[u8]) -> Result<Option<Vec<u32>>, NoMemory>
    ensures { IfOk result (λ found. MatchOption found
        ((numbers : List ℕ) → WriteSizes (first.now ∷ second.now ∷ []) numbers → ⊥)
        (λ sizes. WriteSizes (first.now ∷ second.now ∷ []) sizes.items)) }
{
    let Some(a) = size_in(first) else {
        return Ok(None);
    };
    let Some(b) = size_in(second) else {
        return Ok(None);
    };
    Ok(Some(vec![in alloc; a, b]?))
}

/// The three sizes that the words write.
fn three_sizes(
    alloc: Global,
    first: &[u8],
    second: &[u8],
    third: &[u8],
) -> Result<Option<Vec<u32>>, NoMemory>
    ensures { IfOk result (λ found. MatchOption found
        ((numbers : List ℕ) → WriteSizes (first.now ∷ second.now ∷ third.now ∷ []) numbers → ⊥)
        (λ sizes. WriteSizes (first.now ∷ second.now ∷ third.now ∷ []) sizes.items)) }
{
    let Some(a) = size_in(first) else {
        return Ok(None);
    };
    let Some(b) = size_in(second) else {
        return Ok(None);
    };
    let Some(c) = size_in(third) else {
        return Ok(None);
    };
    if a * b * c > MOST_CELLS {
        return Ok(None);
    }
    Ok(Some(vec![in alloc; a, b, c]?))
}

/// The sizes that the word writes.
fn sizes_in(alloc: Global, word: &[u8]) -> Result<Option<Vec<u32>>, NoMemory>
    ensures { IfOk result (λ found. MatchOption found
        ((numbers : List ℕ) → AreSizes word.now numbers → ⊥)
        (λ sizes. AreSizes word.now sizes.items)) }
{
    let Some(cut) = cut_at_cross(word) else {
        return Ok(None);
    };
    match cut_at_cross(cut.behind) {
        None => two_sizes(alloc, cut.front, cut.behind),
        Some(rest) => three_sizes(alloc, cut.front, rest.front, rest.behind),
    }
}

/// The model of this value, where no plain word is there.
fn model_task(alloc: Global, value: &[u8]) -> Result<Task, UsageFault>
    ensures ok { IfOk result (IsTask (value.now ∷ []) []) }
    ensures words { IsErrOf result UsageFault.Words → (task : Task) → IsTask (value.now ∷ []) [] task → ⊥ }
{
    match sizes_in(alloc, value)? {
        Some(sizes) => Ok(Task::Model(Sizes { sizes })),
        None => Err(UsageFault::Words),
    }
}

/// The project of this name.
fn project_task(alloc: Global, name: &str) -> Result<Task, UsageFault>
    ensures ok { IfOk result (IsTask [] (name.now ∷ [])) }
    ensures words { IsErrOf result UsageFault.Words → (task : Task) → IsTask [] (name.now ∷ []) task → ⊥ }
{
    if name.is_empty() {
        return Err(UsageFault::Words);
    }
    Ok(Task::Project(ProjectName {
        name: String::from_str(alloc, name)?,
    }))
}

/// What the values give to do.
fn task_given(alloc: Global, matches: &ArgMatches<'_>) -> Result<Task, UsageFault>
    ensures ok { IfOk result (IsTask (given Setting.Model matches.now) (plains_given matches.now)) }
    ensures words { IsErrOf result UsageFault.Words → (task : Task) → IsTask (given Setting.Model matches.now) (plains_given matches.now) task → ⊥ }
{
    match value_given(matches, Setting::Model) {
        Some(value) => match plain_given(matches) {
            Some(_) => Err(UsageFault::Words),
            None => model_task(alloc, value.as_bytes()),
        },
        None => match plain_given(matches) {
            Some(name) => project_task(alloc, name),
            None => Err(UsageFault::Words),
        },
    }
}

/// What the values ask for.
fn request_of(alloc: Global, matches: &ArgMatches<'_>) -> Result<Request, UsageFault>
    ensures ok { IfOk result (AskFor (λ s. given s matches.now) (plains_given matches.now)) }
    ensures words { IsErrOf result UsageFault.Words → (request : Request) → AskFor (λ s. given s matches.now) (plains_given matches.now) request → ⊥ }
{
    let most = u64::from(WORKERS_MAX);
    let Some(workers) = number_given(matches, Setting::Workers, 1, most, 4) else {
        return Err(UsageFault::Words);
    };
    let Some(budget) = number_given(matches, Setting::Budget, 0, 100_000_000, 20_000_000) else {
        return Err(UsageFault::Words);
    };
    let Some(upto) = bound_given(matches) else {
        return Err(UsageFault::Words);
    };
    let task = task_given(alloc, matches)?;
    Ok(Request {
        workers: workers as u32,
        budget,
        upto,
        task,
    })
}

/// What the words behind the program's name ask for.
///
/// The options are `--workers`, `--budget`, `--upto` and `--model`, each given at most once: as two words, of which the value
/// is no option word (two bytes or more, of which the first is `-`), or as one word `--name=value`. The word `--`, where it
/// does not stand as a value, ends them. There is one plain word that isn't empty, the project, or else `--model` is given.
pub fn read_words(alloc: Global, words: &[String]) -> Result<Request, UsageFault>
    ensures ok { IfOk result (IsRequest (map string_bytes words.now)) }
    ensures only { IfOk result (IsOnlyRequest (map string_bytes words.now)) }
    ensures words { IsErrOf result UsageFault.Words → AreWrong (map string_bytes words.now) }
{
    match parse(alloc, words) {
        Ok(matches) => request_of(alloc, &matches),
        Err(fault) => Err(fault),
    }
}

/// Are the words not in the language, or do they ask for one worker?
pub fn wants_one(alloc: Global, words: &[String]) -> Result<bool, NoMemory>
    ensures { IfOk result (λ one. IsTrue one ↔ WantOne (map string_bytes words.now)) }
{
    match read_words(alloc, words) {
        Ok(request) => Ok(request.workers == 1),
        Err(UsageFault::Words) => Ok(true),
        Err(UsageFault::Memory) => Err(NoMemory),
    }
}
