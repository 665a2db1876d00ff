ghost use Rattle.std.specs.Prelude.{◌≡◌, ◌<◌, ◌+◌, IfOk, IsTrue, All, length, [], ◌∷◌, ◌++◌, replicate, slice_index, vec_len};
ghost use Rattle.ato_nets.specs.ClassNumbers.{AreClassNumbers};
ghost use Rattle.ato_nets.specs.Flooding.{AreRows, AreMutual, IsFlooded, unnumbered, with_neighbour};

use ato_base::{List, NoMemory};
use std::alloc::Global;

/// As many empty rows as there are points.
fn empty_rows(alloc: Global, count: usize) -> Result<Vec<List<usize>>, NoMemory>
    ensures { IfOk result (λ rows. rows.items ≡ replicate count []) }
{
    let mut rows = Vec::new(alloc);
    for _ in 0..count {
        rows.push(List::new(alloc))?;
    }
    Ok(rows)
}

/// Puts a neighbour at the end of a point's row.
fn add_neighbour(rows: &mut [List<usize>], point: usize, neighbour: usize) -> Result<(), NoMemory>
    requires { point < length rows.old }
    ensures { IfOk result (λ _. rows.new ≡ with_neighbour rows.old point neighbour) }
{
    let row = &mut rows[point];
    row.push(neighbour)
}

/// Enters each join into the rows of both its points.
fn add_joins(rows: &mut [List<usize>], joins: &[(usize, usize)]) -> Result<(), NoMemory>
    requires empty { AreRows [] rows.old }
    requires inside { All (λ join. (join.0 < length rows.old) × (join.1 < length rows.old)) joins.now }
    ensures { IfOk result (λ _. AreRows joins.now rows.new) }
{
    for &(first, second) in joins {
        add_neighbour(rows, first, second)?;
        add_neighbour(rows, second, first)?;
    }
    Ok(())
}

/// The row of neighbours of each of so many points.
fn neighbours(
    alloc: Global,
    count: usize,
    joins: &[(usize, usize)],
) -> Result<Vec<List<usize>>, NoMemory>
    requires { All (λ join. (join.0 < count) × (join.1 < count)) joins.now }
    ensures rows { IfOk result (λ rows. AreRows joins.now rows.items) }
    ensures size { IfOk result (λ rows. length rows.items ≡ count) }
{
    let mut rows = empty_rows(alloc, count)?;
    add_joins(&mut rows, joins)?;
    Ok(rows)
}

/// Gives the number of a point to its neighbours that have none yet, and stacks those.
fn number_neighbours(
    rows: &[List<usize>],
    point: usize,
    start: usize,
    numbers: &mut [usize],
    stack: &mut Vec<usize>,
) -> Result<(), NoMemory>
    requires mutual { AreMutual rows.now }
    requires point_inside { point < length rows.now }
    requires start_inside { start < length rows.now }
    requires flooded { IsFlooded rows.now (start + 1) start numbers.old (stack.old.items ++ point ∷ []) }
    ensures flooded { IfOk result (λ _. IsFlooded rows.now (start + 1) start numbers.new stack.new.items) }
    ensures room { IfOk result (λ _. unnumbered rows.now numbers.new + vec_len stack.new ≡ unnumbered rows.now numbers.old + vec_len stack.old) }
{
    let row = rows[point].as_slice();
    for &next in row {
        if numbers[next] == rows.len() {
            numbers[next] = start;
            stack.push(next)?;
        }
    }
    Ok(())
}

/// Numbers the neighbours of the stacked points, and theirs, until no point is left to look at.
fn empty_stack(
    rows: &[List<usize>],
    start: usize,
    numbers: &mut [usize],
    stack: &mut Vec<usize>,
) -> Result<(), NoMemory>
    requires mutual { AreMutual rows.now }
    requires inside { start < length rows.now }
    requires flooded { IsFlooded rows.now (start + 1) start numbers.old stack.old.items }
    ensures flooded { IfOk result (λ _. IsFlooded rows.now (start + 1) start numbers.new []) }
    ensures empty { IfOk result (λ _. stack.new.items ≡ []) }
{
    while let Some(point) = stack.pop() {
        number_neighbours(rows, point, start, numbers, stack)?;
    }
    Ok(())
}

/// Numbers each point of a class whose least point has no number yet.
fn flood_class(
    rows: &[List<usize>],
    start: usize,
    numbers: &mut [usize],
    stack: &mut Vec<usize>,
) -> Result<(), NoMemory>
    requires mutual { AreMutual rows.now }
    requires inside { start < length rows.now }
    requires flooded { IsFlooded rows.now start start numbers.old [] }
    requires new { slice_index numbers.old start ≡ length rows.now }
    requires empty { stack.old.items ≡ [] }
    ensures flooded { IfOk result (λ _. IsFlooded rows.now (start + 1) start numbers.new []) }
    ensures empty { IfOk result (λ _. stack.new.items ≡ []) }
{
    numbers[start] = start;
    stack.push(start)?;
    empty_stack(rows, start, numbers, stack)
}

/// Floods from each point in turn that no earlier flood has reached.
fn number_all(
    rows: &[List<usize>],
    numbers: &mut [usize],
    stack: &mut Vec<usize>,
) -> Result<(), NoMemory>
    requires mutual { AreMutual rows.now }
    requires flooded { IsFlooded rows.now 0 0 numbers.old [] }
    requires empty { stack.old.items ≡ [] }
    ensures { IfOk result (λ _. IsFlooded rows.now (length rows.now) (length rows.now) numbers.new []) }
{
    for start in 0..rows.len() {
        if numbers[start] == rows.len() {
            flood_class(rows, start, numbers, stack)?;
        }
    }
    Ok(())
}

/// The least number of a point joined with each of so many points, by flooding the lists of their
/// neighbours. The time is linear in the points and the joins.
pub fn class_numbers(
    alloc: Global,
    count: usize,
    joins: &[(usize, usize)],
) -> Result<Vec<usize>, NoMemory>
    requires { All (λ join. (join.0 < count) × (join.1 < count)) joins.now }
    ensures { IfOk result (λ of. AreClassNumbers count joins.now of.items) }
{
    let rows = neighbours(alloc, count, joins)?;
    let mut numbers = vec![in alloc; count; count]?;
    let mut stack = Vec::new(alloc);
    number_all(&rows, &mut numbers, &mut stack)?;
    Ok(numbers)
}

#[cfg(test)]
mod tests {
    use super::class_numbers;
    use ato_base::NoMemory;
    use std::alloc::Global;
    use std::test::Fail;

    /// Whether each join is one of two of so many points.
    fn are_inside(count: usize, joins: &[(usize, usize)]) -> bool
        ensures { IsTrue result → All (λ join. (join.0 < count) × (join.1 < count)) joins.now }
    {
        joins.iter().all(|join| join.0 < count && join.1 < count)
    }

    /// Joins, with their name, and the numbers of the points.
    const CASES: &[(&str, &[(usize, usize)], &[usize])] = &[
        ("no points", &[], &[]),
        ("no joins", &[], &[0, 1, 2]),
        (
            "a chain written right to left",
            &[(3, 2), (2, 1), (1, 0)],
            &[0, 0, 0, 0],
        ),
        (
            "a star",
            &[(3, 0), (3, 1), (3, 2), (3, 4)],
            &[0, 0, 0, 0, 0],
        ),
        (
            "two classes",
            &[(5, 1), (4, 2), (2, 0)],
            &[0, 1, 0, 3, 0, 1],
        ),
        ("a ring", &[(0, 1), (1, 2), (2, 3), (3, 0)], &[0, 0, 0, 0]),
        (
            "two classes that the last join merges",
            &[(2, 1), (3, 4), (4, 2)],
            &[0, 1, 1, 1, 1],
        ),
        ("a join with itself", &[(1, 1)], &[0, 1]),
        ("a join twice", &[(2, 1), (2, 1), (1, 2)], &[0, 1, 1]),
    ];

    /// Whether the points have these numbers.
    fn has_numbers(
        alloc: Global,
        joins: &[(usize, usize)],
        want: &[usize],
    ) -> Result<bool, NoMemory> {
        if !are_inside(want.len(), joins) {
            return Ok(false);
        }
        let numbers = class_numbers(alloc, want.len(), joins)?;
        Ok(numbers.as_slice() == want)
    }

    #[test]
    fn points_have_the_least_number_of_their_class(rt: HostRuntime) -> Result<(), Fail> {
        for (name, joins, want) in CASES {
            assert!(rt; has_numbers(rt.alloc(), joins, want)?, "{name}");
        }
        Ok(())
    }
}
