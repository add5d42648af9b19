//! A binary heap of variables by their scores, in which a variable is found by a table of places.
//!
//! Variables in a heap by their scores: Eén and Sörensson, "An Extensible SAT-solver", SAT 2003. That a parent's score is
//! nowhere lower than a child's is not promised; which variables stand in the heap is.
ghost use Rattle.std.specs.Prelude.{◌≡◌, ◌+◌, ◌<◌, ◌≤◌, ℕ, true, false, None, IfSome, OnOk, OnErr, length, slice_index_or, slice_set};
ghost use Rattle.craig_order.specs.Heap.{IsHeapGrown, empty_heap, standing};

use crate::permutation::Permutation;
use crate::scores::Scores;
use craig_base::Var;
use std::alloc::{AllocError, Global};
use std::marker::Model;

/// Some of the known variables in a binary heap.
///
/// It is seen as a list of truth values, which say by variable whether it stands in the heap, and how many do.
#[derive(Drop)]
pub(crate) struct Heap {
    // the variables of the heap in its order, and then the others
    permutation: Permutation,
    // how many stand in the heap
    size: usize,
}

impl Model for Heap {
    ghost use Rattle.std.specs.Prelude.{◌≤◌, length};
    ghost use Rattle.craig_order.specs.Heap.{HeapView, standing};

    ghost Value = { HeapView };

    ghost view = { λ h. record { stands = standing h.size h.permutation; size = h.size } };

    ghost invariant = { λ h. h.size ≤ length h.permutation };
}

impl Heap {
    /// The heap that knows no variable, which takes no memory.
    pub(crate) fn new(alloc: Global) -> Heap
        ensures { result ≡ empty_heap }
    {
        Heap {
            permutation: Permutation::new(alloc),
            size: 0,
        }
    }

    /// How many variables are known.
    pub(crate) fn len(&self) -> usize
        ensures { result ≡ length self.now.stands }
    {
        self.permutation.len()
    }

    /// Makes the variables below a number known. The new ones stand in the heap, and come last where they have the least
    /// scores. After an error all is as before.
    pub(crate) fn grow(&mut self, count: usize) -> Result<(), AllocError>
        requires more { length self.old.stands ≤ count }
        requires few { count ≤ 2147483648 }
        ensures grown { OnOk result (IsHeapGrown self.old.stands self.new.stands count) }
        ensures unchanged { OnErr result (self.new ≡ self.old) }
    {
        let known = self.permutation.len();
        self.permutation.grow(count)?;
        for var in known..count {
            self.append(var);
        }
        Ok(())
    }

    /// Puts a variable that doesn't stand in the heap last.
    fn append(&mut self, var: usize)
        requires known { var < length self.old.stands }
        requires absent { slice_index_or self.old.stands var false ≡ false }
        ensures stands { self.new.stands ≡ slice_set self.old.stands var true }
        ensures larger { self.new.size ≡ self.old.size + 1 }
    {
        let last = self.size;
        let place = self.permutation.place_of(var);
        self.permutation.exchange(place, last);
        self.size = last + 1;
    }

    /// Puts a variable into the heap, where it doesn't stand there.
    pub(crate) fn insert(&mut self, scores: &Scores, var: Var)
        requires known { var.0 < length self.old.stands }
        requires scores { length self.old.stands ≤ scores.now }
        ensures { self.new.stands ≡ slice_set self.old.stands var.0 true }
    {
        let last = self.size;
        if self.permutation.place_of(var.0 as usize) >= last {
            self.append(var.0 as usize);
            sift_up(&mut self.permutation, scores, last);
        }
    }

    /// Moves a variable up whose score was raised, where it stands in the heap.
    pub(crate) fn raise(&mut self, scores: &Scores, var: Var)
        requires known { var.0 < length self.old.stands }
        requires scores { length self.old.stands ≤ scores.now }
        ensures { self.new ≡ self.old }
    {
        let place = self.permutation.place_of(var.0 as usize);
        if place < self.size {
            sift_up(&mut self.permutation, scores, place);
        }
    }

    /// Takes the first variable out.
    pub(crate) fn pop(&mut self, scores: &Scores) -> Option<Var>
        requires scores { length self.old.stands ≤ scores.now }
        ensures known { IfSome result (λ v. v.0 < length self.old.stands) }
        ensures taken { IfSome result (λ v. self.new.stands ≡ slice_set self.old.stands v.0 false) }
        ensures smaller { IfSome result (λ v. self.new.size < self.old.size) }
        ensures none { result ≡ None → (v : ℕ) → slice_index_or self.old.stands v false ≡ false }
        ensures unchanged { result ≡ None → self.new ≡ self.old }
    {
        if self.size == 0 {
            return None;
        }
        let last = self.size - 1;
        let var = self.permutation.at(0);
        self.permutation.exchange(0, last);
        sift_down(&mut self.permutation, scores, last);
        self.size = last;
        Some(Var(var as u32))
    }
}

/// Moves the variable at a place up past those of lower scores.
fn sift_up(permutation: &mut Permutation, scores: &Scores, place: usize)
    requires within { place < length permutation.old }
    requires scores { length permutation.old ≤ scores.now }
    ensures known { length permutation.new ≡ length permutation.old }
    ensures stand { (size : ℕ) → place < size → standing size permutation.new ≡ standing size permutation.old }
{
    let score = scores.of(permutation.at(place));
    let mut place = place;
    while place > 0 {
        let parent = (place - 1) / 2;
        if scores.of(permutation.at(parent)) >= score {
            return;
        }
        permutation.exchange(place, parent);
        place = parent;
    }
}

/// Moves the first variable of a heap of a size down past those of higher scores.
fn sift_down(permutation: &mut Permutation, scores: &Scores, size: usize)
    requires within { size ≤ length permutation.old }
    requires scores { length permutation.old ≤ scores.now }
    ensures known { length permutation.new ≡ length permutation.old }
    ensures stand { standing size permutation.new ≡ standing size permutation.old }
{
    let mut place = 0;
    while let Some(child) = higher_child(permutation, scores, size, place) {
        if scores.of(permutation.at(child)) <= scores.of(permutation.at(place)) {
            return;
        }
        permutation.exchange(place, child);
        place = child;
    }
}

/// The place of the child that has the higher score, where there is a child.
fn higher_child(
    permutation: &Permutation,
    scores: &Scores,
    size: usize,
    place: usize,
) -> Option<usize>
    requires within { size ≤ length permutation.now }
    requires scores { length permutation.now ≤ scores.now }
    ensures { IfSome result (λ child. (place < child) × (child < size)) }
{
    if place >= size / 2 {
        return None;
    }
    let left = 2 * place + 1;
    let right = left + 1;
    if right < size && scores.of(permutation.at(right)) > scores.of(permutation.at(left)) {
        return Some(right);
    }
    Some(left)
}
