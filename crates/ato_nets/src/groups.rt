ghost use Rattle.std.specs.Prelude.{◌≡◌, ◌++◌, ◌∷◌, ◌+◌, ◌<◌, ◌≤◌, [], All, ℕ, OnOk, IfOk, length, slice_set};
ghost use Rattle.std.specs.List.{slice_index, slice_index_or};
ghost use Rattle.ato_base.specs.Classes.{Classes};
ghost use Rattle.ato_nets.specs.Groups.{SameClass, numbers_below};

use ato_base::{List, NoMemory};
use std::alloc::Global;

/// Puts a point behind those of a group.
fn push_into(groups: &mut List<List<usize>>, place: usize, point: usize) -> Result<(), NoMemory>
    requires { place < length groups.old }
    ensures { OnOk result (groups.new ≡ slice_set groups.old place (slice_index_or groups.old place [] ++ point ∷ [])) }
{
    let rows = groups.as_mut_slice();
    let row = &mut rows[place];
    row.push(point)
}

/// Puts a group of one point behind the others.
fn push_new(alloc: Global, groups: &mut List<List<usize>>, point: usize) -> Result<(), NoMemory>
    ensures { OnOk result (groups.new ≡ groups.old ++ (point ∷ []) ∷ []) }
{
    let mut group = List::new(alloc);
    group.push(point)?;
    groups.push(group)
}

/// Puts a point into the group of its class, which is made where the class has no place yet. A place is
/// 0, or one more than the place of the group.
fn place_point(
    alloc: Global,
    groups: &mut List<List<usize>>,
    places: &mut Vec<usize>,
    class: usize,
    point: usize,
) -> Result<(), NoMemory>
    requires class { class < length places.old.items }
    requires place { slice_index places.old.items class ≤ length groups.old }
    ensures new { slice_index places.old.items class ≡ 0 → OnOk result
        ((groups.new ≡ groups.old ++ (point ∷ []) ∷ []) × (places.new.items ≡ slice_set places.old.items class (length groups.old + 1))) }
    ensures old { (place : ℕ) → slice_index places.old.items class ≡ place + 1 → OnOk result
        ((groups.new ≡ slice_set groups.old place (slice_index_or groups.old place [] ++ point ∷ [])) × (places.new.items ≡ places.old.items)) }
{
    let place = places[class];
    if place == 0 {
        push_new(alloc, groups, point)?;
        places[class] = groups.len();
        Ok(())
    } else {
        push_into(groups, place - 1, point)
    }
}

/// So many points, of which the first has the number `first`, in groups by their class numbers `of`.
/// In a group a point has its number without `first`. Groups stand in the order of their first points.
pub fn groups_of(
    alloc: Global,
    of: &[usize],
    first: usize,
    count: usize,
) -> Result<List<List<usize>>, NoMemory>
    requires size { length of.now ≡ first + count }
    requires numbers { All (λ number. number < length of.now) of.now }
    ensures { IfOk result (λ groups. Classes (SameClass of.now first) (numbers_below count) groups) }
{
    let mut groups = List::new(alloc);
    let mut places = vec![in alloc; 0; of.len()]?;
    for point in 0..count {
        place_point(alloc, &mut groups, &mut places, of[first + point], point)?;
    }
    Ok(groups)
}
