//! Labels of bags.

ghost use Rattle.std.specs.Prelude.{◌≡◌, ◌<◌, ◌≤◌, ◌^◌, ℕ, vec_len, OnOk, OnErr};
ghost use Rattle.fol_bags.specs.Labels.{numbered, swapped};

use std::alloc::{AllocError, Global};
use std::marker::Model;

/// How many labels there are, at most.
const MOST_LABELS: usize = 1 << 32;

/// The number that stands in the list for this one.
fn number(numbers: &[u32], n: usize) -> usize
    ensures { result ≡ numbered numbers.now n }
{
    match numbers.get(n) {
        Some(found) => *found as usize,
        None => n,
    }
}

/// Makes the list as long as that. Each number stays what it is.
fn extend(numbers: &mut Vec<u32>, len: usize) -> Result<(), AllocError>
    requires { len ≤ 2 ^ 32 }
    ensures ok { OnOk result (len ≤ vec_len numbers.new) }
    ensures same { (n : ℕ) → numbered numbers.new.items n ≡ numbered numbers.old.items n }
{
    for n in numbers.len()..len {
        numbers.push(n as u32)?;
    }
    Ok(())
}

/// Makes both lists longer than that, if they are not. Each number stays what it is.
fn extend_both(owners: &mut Vec<u32>, labels: &mut Vec<u32>, last: usize) -> Result<(), AllocError>
    ensures ok { OnOk result ((last < vec_len owners.new) × (last < vec_len labels.new)) }
    ensures owners { (n : ℕ) → numbered owners.new.items n ≡ numbered owners.old.items n }
    ensures labels { (n : ℕ) → numbered labels.new.items n ≡ numbered labels.old.items n }
{
    if last >= MOST_LABELS {
        return Err(AllocError);
    }
    extend(owners, last + 1)?;
    extend(labels, last + 1)
}

/// What stands for `a` stands for `b` then, and the other way round.
fn swap(numbers: &mut Vec<u32>, a: usize, b: usize)
    requires a_in { a < vec_len numbers.old }
    requires b_in { b < vec_len numbers.old }
    ensures { (n : ℕ) → numbered numbers.new.items n
        ≡ numbered numbers.old.items (swapped a b n) }
{
    numbers.swap(a, b);
}

/// A label for each bag, so that two bags can be exchanged while whatever has their labels stays as it is. Before the first exchange each
/// bag's label is its own number, which takes no memory. Contracts see the list of the bags by label.
#[derive(Drop)]
pub struct Labels {
    /// The bag of each label; past the end it has the label's number.
    owners: Vec<u32>,
    /// The label of each bag; past the end it is the bag's number.
    labels: Vec<u32>,
}

impl Model for Labels {
    ghost use Rattle.std.specs.Prelude.{ℕ, List};
    ghost use Rattle.fol_bags.specs.Labels.{AreInverse, numbered};

    ghost Value = { List ℕ };

    ghost view = { λ l. l.owners.items };

    ghost invariant = { λ l. AreInverse (numbered l.owners.items) (numbered l.labels.items) };
}

impl Labels {
    /// Each bag has the label of its own number. Takes no memory.
    pub fn new(alloc: Global) -> Labels
        ensures { (n : ℕ) → numbered result n ≡ n }
    {
        Labels {
            owners: Vec::new(alloc),
            labels: Vec::new(alloc),
        }
    }

    /// The bag whose label it is.
    pub fn owner(&self, label: usize) -> usize
        ensures { result ≡ numbered self.now label }
    {
        number(&self.owners, label)
    }

    /// The label of the bag, which no other bag has.
    pub fn label(&self, bag: usize) -> usize
        ensures its { numbered self.now result ≡ bag }
        ensures alone { (n : ℕ) → numbered self.now n ≡ bag → n ≡ result }
    {
        number(&self.labels, bag)
    }

    /// The label of the bag `a` is that of `b` then, and the other way round. If memory runs out, or a number has more than 32 bits, nothing
    /// has changed.
    pub fn exchange(&mut self, a: usize, b: usize) -> Result<(), AllocError>
        ensures ok { OnOk result ((n : ℕ)
            → numbered self.new n ≡ swapped a b (numbered self.old n)) }
        ensures err { OnErr result ((n : ℕ) → numbered self.new n ≡ numbered self.old n) }
    {
        extend_both(&mut self.owners, &mut self.labels, a.max(b))?;
        let label = number(&self.labels, a);
        let other = number(&self.labels, b);
        swap(&mut self.labels, a, b);
        swap(&mut self.owners, label, other);
        Ok(())
    }
}
