//! Reading and mending the cells of a tree.
ghost use Rattle.std.specs.Prelude.{◌≡◌, ◌+◌, ◌-◌, ◌*◌, ◌^◌, ◌<◌, ◌≤◌, ◌++◌, true, IfOk, IfSome};
ghost use Rattle.std.specs.Prelude.{IfNone, None, length, drop, slice_set, replicate, vec_len};
ghost use Rattle.due_tree.specs.Due.{is_due};
ghost use Rattle.due_tree.specs.Cells.{lesser, at, least_below, IsTree, IsTreeBut, IsClear};
ghost use Rattle.due_tree.specs.Cells.{IsShape, IsTreeWhole};

use std::alloc::AllocError;

/// The most places of one tree.
const MOST: usize = 1 << 58;

/// Whether a number is there, and at most the bound.
pub fn is_due(cell: Option<u64>, bound: u64) -> bool
    ensures { result ≡ is_due bound cell }
{
    match cell {
        None => false,
        Some(number) => number <= bound,
    }
}

/// The lesser of two numbers, of which each may be absent.
pub fn lesser(a: Option<u64>, b: Option<u64>) -> Option<u64>
    ensures { result ≡ lesser a b }
{
    match (a, b) {
        (None, other) => other,
        (Some(m), None) => Some(m),
        (Some(m), Some(n)) => Some(m.min(n)),
    }
}

/// What a cell has.
pub(crate) fn at(cells: &[Option<u64>], node: usize) -> Option<u64>
    ensures { result ≡ at cells.now node }
{
    if node < cells.len() {
        cells[node]
    } else {
        None
    }
}

/// The least of what the children of `node` have.
fn least_below(cells: &[Option<u64>], node: usize) -> Option<u64>
    requires { node < 2 ^ 59 }
    ensures { result ≡ least_below cells.now node }
{
    lesser(at(cells, 2 * node), at(cells, 2 * node + 1))
}

/// Writes a place, and mends the cells above it.
pub(crate) fn put(cells: &mut [Option<u64>], leaves: usize, place: usize, number: Option<u64>)
    requires small { leaves < 2 ^ 59 }
    requires place { leaves + place < length cells.old }
    requires ended { length cells.old ≤ 2 * leaves }
    requires tree { IsTree leaves cells.old }
    ensures places { drop leaves cells.new ≡ slice_set (drop leaves cells.old) place number }
    ensures tree { IsTree leaves cells.new }
{
    cells[leaves + place] = number;
    let mut node = (leaves + place) / 2;
    while node > 0 {
        let least = least_below(cells, node);
        // The cells above say what they did where this one does.
        if cells[node] == least {
            return;
        }
        cells[node] = least;
        node /= 2;
    }
}

/// Mends all cells, given the places.
pub(crate) fn build(cells: &mut [Option<u64>], leaves: usize)
    requires small { leaves < 2 ^ 59 }
    requires begun { leaves ≤ length cells.old }
    ensures places { drop leaves cells.new ≡ drop leaves cells.old }
    ensures tree { IsTree leaves cells.new }
{
    let mut node = leaves;
    while node > 1 {
        node -= 1;
        cells[node] = least_below(cells, node);
    }
}

/// The first due place's cell below `node`, which is due, at `height` levels above the places.
pub(crate) fn descend(
    cells: &[Option<u64>],
    leaves: usize,
    node: usize,
    height: usize,
    bound: u64,
) -> usize
    requires tree { IsTree leaves cells.now }
    requires small { leaves < 2 ^ 59 }
    requires begins { leaves ≤ node * 2 ^ height }
    requires ends { (node + 1) * 2 ^ height ≤ 2 * leaves }
    requires due { is_due bound (at cells.now node) ≡ true }
    ensures low { node * 2 ^ height ≤ result }
    ensures due { is_due bound (at cells.now result) ≡ true }
    ensures clear { IsClear bound cells.now (node * 2 ^ height) result }
{
    let mut cell = node;
    let mut above = height;
    while above > 0 {
        above -= 1;
        cell = 2 * cell;
        if !is_due(at(cells, cell), bound) {
            cell += 1;
        }
    }
    cell
}

/// The first due place's cell from the cell `from` on.
pub(crate) fn first_cell(
    cells: &[Option<u64>],
    leaves: usize,
    height: usize,
    from: usize,
    bound: u64,
) -> Option<usize>
    requires whole { IsTreeWhole height leaves cells.now }
    requires begins { leaves ≤ from }
    requires ends { from < 2 * leaves }
    ensures least { IfSome result (λ cell. from ≤ cell) }
    ensures due { IfSome result (λ cell. is_due bound (at cells.now cell) ≡ true) }
    ensures clear { IfSome result (IsClear bound cells.now from) }
    ensures none { IfNone result (IsClear bound cells.now from (2 * leaves)) }
{
    if is_due(at(cells, from), bound) {
        return Some(from);
    }
    let mut node = from;
    for above in 0..height {
        if node % 2 == 0 && is_due(at(cells, node + 1), bound) {
            return Some(descend(cells, leaves, node + 1, above, bound));
        }
        node /= 2;
    }
    None
}

/// The places of a tree, copied behind the cells of a higher one.
pub(crate) fn moved(
    cells: &Vec<Option<u64>>,
    old: usize,
    leaves: usize,
    places: usize,
) -> Result<Vec<Option<u64>>, AllocError>
    requires small { leaves < 2 ^ 59 }
    requires old { old ≤ length cells.now.items }
    requires room { length cells.now.items - old ≤ places }
    requires places { places ≤ leaves }
    ensures tree { IfOk result (λ v. IsTree leaves v.items) }
    ensures places { IfOk result (λ v. drop leaves v.items ≡ drop old cells.now.items ++ replicate
        (places - (length cells.now.items - old)) None) }
    ensures len { IfOk result (λ v. vec_len v ≡ leaves + places) }
{
    let mut wider = Vec::with_capacity(*cells.allocator(), 2 * leaves)?;
    wider.resize(leaves, None)?;
    wider.extend_from_slice(&cells[old..])?;
    wider.resize(leaves + places, None)?;
    build(&mut wider, leaves);
    Ok(wider)
}

/// The height and the number of leaves of a tree for that many places.
pub(crate) fn size_for(places: usize) -> Result<(usize, usize), AllocError>
    ensures shape { IfOk result (λ size. IsShape size.0 size.1 (size.1 + places)) }
    ensures fits { IfOk result (λ size. places ≤ size.1) }
{
    if places > MOST {
        return Err(AllocError);
    }
    let mut height = 0;
    let mut leaves = 1;
    while leaves < places {
        leaves *= 2;
        height += 1;
    }
    Ok((height, leaves))
}
