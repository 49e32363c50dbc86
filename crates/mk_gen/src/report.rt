//! The summary of a model: its sizes, its table, and how many moves of each weight it has.

ghost use Rattle.std.specs.Prelude.{◌≡◌, ◌++◌, IfOk, string_bytes, map, decimal, length};
ghost use Rattle.std.specs.List.{join_with_byte};
ghost use Rattle.mk_gen.specs.Summaries.{model_line, table_line, moves_line, weight_line};
ghost use Rattle.mk_gen.specs.Summaries.{times_in, weight_lines, summary_text};
ghost use Rattle.mk_gen.specs.Parts.{x_before};

use mk_model::NoMemory;
use std::alloc::{AllocError, Global};

/// The text of a model's summary: the line `model` with its sizes, the line `rows` and `columns` of its table, the line
/// `moves`, and for each weight of the moves, which are handed in ascending, how many have it.
pub fn summary(
    alloc: Global,
    sizes: &[u32],
    rows: u32,
    columns: u32,
    weights: &[i128],
) -> Result<String, NoMemory>
    ensures { IfOk result (λ text. string_bytes text ≡ summary_text sizes.now rows columns weights.now) }
{
    let mut text = String::new(alloc);
    text.push_str(head_of(alloc, sizes, rows, columns, weights.len())?.as_str())?;
    text.push_str(lines_of(alloc, weights)?.as_str())?;
    Ok(text)
}

/// The first three lines.
fn head_of(
    alloc: Global,
    sizes: &[u32],
    rows: u32,
    columns: u32,
    moves: usize,
) -> Result<String, NoMemory>
    ensures { IfOk result (λ text. string_bytes text ≡ model_line sizes.now ++ (table_line rows columns ++ moves_line moves)) }
{
    let sizes = sizes_text(alloc, sizes)?;
    let text = format!(in alloc; "model {sizes}\nrows {rows} columns {columns}\nmoves {moves}\n")?;
    Ok(text)
}

/// The sizes, with `x` between them.
fn sizes_text(alloc: Global, sizes: &[u32]) -> Result<String, AllocError>
    ensures { IfOk result (λ text. string_bytes text ≡ join_with_byte 120 (map decimal sizes.now)) }
{
    let mut text = String::new(alloc);
    for place in 0..sizes.len() {
        text.push_str(size_text(alloc, place, sizes[place])?.as_str())?;
    }
    Ok(text)
}

/// The size at a place, with `x` before it unless it is the first.
fn size_text(alloc: Global, place: usize, size: u32) -> Result<String, AllocError>
    ensures { IfOk result (λ text. string_bytes text ≡ x_before place ++ decimal size) }
{
    if place == 0 {
        format!(in alloc; "{size}")
    } else {
        format!(in alloc; "x{size}")
    }
}

/// A line for each weight, once.
fn lines_of(alloc: Global, weights: &[i128]) -> Result<String, AllocError>
    ensures { IfOk result (λ text. string_bytes text ≡ weight_lines weights.now) }
{
    let mut kinds = weights.to_vec(alloc)?;
    kinds.dedup();
    let mut text = String::new(alloc);
    for weight in &kinds {
        text.push_str(line_of(alloc, *weight, times_in(weights, *weight))?.as_str())?;
    }
    Ok(text)
}

/// The line of a weight.
fn line_of(alloc: Global, weight: i128, count: usize) -> Result<String, AllocError>
    ensures { IfOk result (λ text. string_bytes text ≡ weight_line weight count) }
{
    format!(in alloc; "weight {weight} moves {count}\n")
}

/// How often the weight stands among the weights.
fn times_in(weights: &[i128], weight: i128) -> usize
    ensures { result ≡ times_in weights.now weight }
{
    weights.iter().filter(|other| **other == weight).count()
}
