//! The numbers of canonical paths.
ghost use Rattle.std.specs.Prelude.{◌≡◌, ◌<◌, ◌≤◌, ◌+◌, ◌^◌, ◌++◌, ℕ, suc, All, length, slice_index, IfOk, OnOk};
ghost use Rattle.canonical_paths.specs.steps.Tables.{move_by, moved_to, component_entries, IsAliasIn};

use priz_base::NoMem;
use sqlite_items::Items;
use std::alloc::Global;

/// What a binding of a component binds: how many paths, the number of the first inside the
/// component, and the number of the first of those that they stand for.
#[derive(Clone, Copy)]
pub(crate) struct Alias {
    pub left: u32,
    pub size: u32,
    pub right: u32,
}

/// Adds the entries of a component to the table of its concept. The table of the paths inside of it
/// is given.
pub(crate) fn add_entries(
    alloc: Global,
    table: &mut Items<u32>,
    aliases: &[Alias],
    inside: &[u32],
) -> Result<(), NoMem>
    requires room { length table.old + length inside.now + 1 < 2 ^ 32 }
    requires inside { All (λ n. n < length inside.now) inside.now }
    requires aliases { All (IsAliasIn (length inside.now) (length table.old)) aliases.now }
    ensures { OnOk result (table.new
        ≡ table.old ++ component_entries table.old aliases.now inside.now) }
{
    let own = table.len() as u32;
    let moved = moved(alloc, table.as_slice(), aliases, inside.len() as u32)?;
    table.push(own)?;
    for n in inside {
        table.push(moved[*n as usize])?;
    }
    Ok(())
}

// Where each path inside a component is, of which there are so many.
fn moved(alloc: Global, table: &[u32], aliases: &[Alias], count: u32) -> Result<Vec<u32>, NoMem>
    requires room { length table.now + count + 1 < 2 ^ 32 }
    requires aliases { All (IsAliasIn count (length table.now)) aliases.now }
    ensures count { IfOk result (λ v. length v.items ≡ count) }
    ensures each { IfOk result (λ v. (n : ℕ) → n < count
        → slice_index v.items n ≡ moved_to table.now aliases.now (suc (length table.now)) n) }
{
    let mut moved = unmoved(alloc, table.len() as u32 + 1, count)?;
    for alias in aliases {
        move_alias(moved.as_mut_slice(), table, *alias);
    }
    Ok(moved)
}

// So many numbers, one behind the other.
fn unmoved(alloc: Global, start: u32, count: u32) -> Result<Vec<u32>, NoMem>
    requires { start + count < 2 ^ 32 }
    ensures count { IfOk result (λ v. length v.items ≡ count) }
    ensures each { IfOk result (λ v. (n : ℕ) → n < count → slice_index v.items n ≡ start + n) }
{
    let mut numbers = Vec::new(alloc);
    for n in 0..count {
        numbers.push(start + n)?;
    }
    Ok(numbers)
}

// What is bound stands for other paths.
fn move_alias(moved: &mut [u32], table: &[u32], alias: Alias)
    requires room { length moved.old + length table.now < 2 ^ 32 }
    requires alias { IsAliasIn (length moved.old) (length table.now) alias }
    ensures { (n : ℕ) → slice_index moved.new n
        ≡ move_by table.now n (slice_index moved.old n) alias }
{
    for k in 0..alias.size {
        moved[(alias.left + k) as usize] = table[(alias.right + k) as usize];
    }
}
