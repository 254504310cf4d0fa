//! Searches in a graph of numbers that lead to lower ones.
ghost use Rattle.std.specs.Prelude.{◌≡◌, ◌≤◌, ◌<◌, ◌+◌, ◌↔◌, ℕ, length, All, Contains, IsTrue, IfOk};
ghost use Rattle.sysmods.specs.Graphs.{IsFalling, IsSearchDown, LeadsDown, Marks, list_at};

use std::alloc::{AllocError, Global};

// Marks each of these numbers.
fn mark_numbers(numbers: &[usize], marks: &mut Vec<bool>)
    requires { All (λ n. n < length marks.old.items) numbers.now }
    ensures { Marks numbers.now marks.old.items marks.new.items }
{
    for number in numbers {
        marks[*number] = true;
    }
}

// Marks the successors of the number, if it is marked itself.
fn mark_successors(successors: &[Vec<usize>], number: usize, marks: &mut Vec<bool>)
    requires number { number < length successors.now }
    requires marks { number < length marks.old.items }
    requires falling { IsFalling (list_at successors.now) }
    ensures { (high : ℕ) → IsSearchDown (list_at successors.now) high (number + 1) marks.old.items
        → IsSearchDown (list_at successors.now) high number marks.new.items }
{
    if !marks[number] {
        return;
    }
    mark_numbers(successors[number].as_slice(), marks);
}

// Whether none of these numbers is above the bound.
fn none_above(numbers: &[usize], bound: usize) -> bool
    ensures { IsTrue result ↔ All (λ n. n ≤ bound) numbers.now }
{
    numbers.iter().all(|number| *number <= bound)
}

// Whether the number is one of these.
fn has_number(numbers: &[usize], number: usize) -> bool
    ensures { IsTrue result ↔ Contains numbers.now number }
{
    numbers.contains(&number)
}

/// Whether the number `high` leads to the lower number `low`. `successors` has for each number the lower ones to which
/// it leads in one step. The search goes through the numbers between the two, from the highest down, unless `high`
/// itself leads to none of them.
pub(crate) fn leads_down(
    alloc: Global,
    successors: &[Vec<usize>],
    high: usize,
    low: usize,
) -> Result<bool, AllocError>
    requires high { high < length successors.now }
    requires low { low < high }
    requires falling { IsFalling (list_at successors.now) }
    ensures { IfOk result (λ found. IsTrue found ↔ LeadsDown (list_at successors.now) high low) }
{
    let firsts = successors[high].as_slice();
    if none_above(firsts, low) {
        return Ok(has_number(firsts, low));
    }
    let mut marks = vec![in alloc; false; high]?;
    mark_numbers(firsts, &mut marks);
    let mut next = high;
    while low + 1 < next {
        if marks[low] {
            return Ok(true);
        }
        next -= 1;
        mark_successors(successors, next, &mut marks);
    }
    Ok(marks[low])
}
