// The order of decisions.
ghost use Rattle.std.specs.Prelude.{◌≡◌, ◌⊎◌, ◌+◌, ◌<◌, ◌≤◌, ℕ, Some, true, [], IfOk, IfNone, IfSome, OnOk, length, slice_get};
ghost use Rattle.search.specs.Watching.{is_among};

use crate::beginning::Beginning;
use crate::first_variables::FirstVariables;
use std::alloc::{AllocError, Global};

/// How active a variable was in conflicts.
#[derive(Clone, Copy, Debug)]
pub(crate) struct Activity {
    /// What its bumps added.
    pub score: f64,
    /// The number of its last bump, or 0.
    pub last: u64,
}

const NONE: Activity = Activity {
    score: 0.0,
    last: 0,
};

/// Variables, those first that were active in conflicts, in a heap (activities and their decay as in MiniSat). What contracts say is which ones are in
/// it; their order is free.
#[derive(Drop)]
pub(crate) struct Order {
    pub heap: Vec<u32>,
    /// By variable, where it came to stand when it was last moved. One that left the heap isn't there any more.
    pub places: Vec<usize>,
    /// By variable.
    pub activities: Vec<Activity>,
    /// What a bump adds.
    pub increment: f64,
    /// How many bumps there were.
    pub bumps: u64,
    /// By variable, whether it was true when it last left the trail, or else its first sign.
    pub phases: Vec<bool>,
    /// Which come first of those that were never bumped.
    pub first: FirstVariables,
}

// Activities above this one are scaled.
const MOST: f64 = 1e100;

// By which activities are scaled.
const SCALE: f64 = 1e-100;

// What an earlier bump counts, beside one in the next conflict.
const DECAY: f64 = 0.95;

// So many variables, from 1 on, the lowest first.
fn lowest_first(alloc: Global, variables: u32) -> Result<Vec<u32>, AllocError>
    requires { variables ≤ 1073741824 }
    ensures { IfOk result (λ heap. (v : ℕ) → 1 ≤ v → v ≤ variables → is_among v heap.items ≡ true) }
{
    let mut heap = Vec::new(alloc);
    for variable in 0..variables {
        heap.push(variable + 1)?;
    }
    Ok(heap)
}

// So many variables, from 1 on, the highest first.
fn highest_first(alloc: Global, variables: u32) -> Result<Vec<u32>, AllocError>
    requires { variables ≤ 1073741824 }
    ensures { IfOk result (λ heap. (v : ℕ) → 1 ≤ v → v ≤ variables → is_among v heap.items ≡ true) }
{
    let mut heap = Vec::new(alloc);
    for place in 0..variables {
        heap.push(variables - place)?;
    }
    Ok(heap)
}

// By variable, where it stands in such a list.
fn first_places(
    alloc: Global,
    variables: u32,
    first: FirstVariables,
) -> Result<Vec<usize>, AllocError>
    requires { variables ≤ 1073741824 }
{
    let mut places = Vec::new(alloc);
    places.push(0)?;
    for variable in 0..variables {
        let place = match first {
            FirstVariables::Lowest => variable,
            FirstVariables::Highest => variables - variable - 1,
        };
        places.push(place as usize)?;
    }
    Ok(places)
}

// By variable, its first sign.
fn first_signs(alloc: Global, variables: u32, beginning: Beginning) -> Result<Vec<bool>, AllocError>
    requires { variables ≤ 1073741824 }
{
    let mut signs = Vec::new(alloc);
    for variable in 0..=variables {
        signs.push(beginning.sign(variable))?;
    }
    Ok(signs)
}

impl Order {
    /// All of so many variables, from 1 on.
    pub fn new(alloc: Global, variables: u32, beginning: Beginning) -> Result<Order, AllocError>
        requires { variables ≤ 1073741824 }
        ensures { IfOk result (λ order. (v : ℕ) → 1 ≤ v → v ≤ variables → is_among v order.heap.items ≡ true) }
    {
        let first = beginning.first;
        let heap = match first {
            FirstVariables::Lowest => lowest_first(alloc, variables)?,
            FirstVariables::Highest => highest_first(alloc, variables)?,
        };
        Ok(Order {
            heap,
            places: first_places(alloc, variables, first)?,
            activities: vec![in alloc; NONE; variables as usize + 1]?,
            increment: 1.0,
            bumps: 0,
            phases: first_signs(alloc, variables, beginning)?,
            first,
        })
    }

    fn activity(&self, variable: u32) -> Activity {
        match self.activities.get(variable as usize) {
            Some(activity) => *activity,
            None => NONE,
        }
    }

    // Whether a variable goes before another: it is more active; of variables that are as active, the one that was bumped
    // last goes first, and of those that never were, the lowest or the highest.
    fn precedes(&self, first: u32, second: u32) -> bool {
        let one = self.activity(first);
        let other = self.activity(second);
        if one.score != other.score {
            return one.score > other.score;
        }
        if one.last != other.last {
            return one.last > other.last;
        }
        match self.first {
            FirstVariables::Lowest => first < second,
            FirstVariables::Highest => first > second,
        }
    }

    /// Whether a variable was true when it last left the trail; its first sign where it was never on it.
    pub fn phase(&self, variable: u32) -> bool {
        match self.phases.get(variable as usize) {
            Some(phase) => *phase,
            None => false,
        }
    }

    /// The literal of a variable leaves the trail.
    pub fn save_phase(&mut self, literal: i32)
        ensures { self.new.heap ≡ self.old.heap }
    {
        let variable = literal.unsigned_abs() as usize;
        if variable < self.phases.len() {
            self.phases[variable] = literal > 0;
        }
    }

    // Notes where a variable stands.
    fn note(&mut self, at: usize)
        requires { at < length self.old.heap.items }
        ensures { self.new.heap ≡ self.old.heap }
    {
        let variable = self.heap[at] as usize;
        if variable < self.places.len() {
            self.places[variable] = at;
        }
    }

    fn exchange(&mut self, first: usize, second: usize)
        requires first { first < length self.old.heap.items }
        requires second { second < length self.old.heap.items }
        ensures members { (v : ℕ) → is_among v self.new.heap.items ≡ is_among v self.old.heap.items }
        ensures length { length self.new.heap.items ≡ length self.old.heap.items }
    {
        self.heap.swap(first, second);
        self.note(first);
        self.note(second);
    }

    // Where a variable stands in the heap, if it does.
    fn place_of(&self, variable: u32) -> Option<usize>
        ensures { IfSome result (λ at. slice_get self.now.heap.items at ≡ Some variable) }
    {
        match self.places.get(variable as usize) {
            Some(at) => {
                if *at < self.heap.len() && self.heap[*at] == variable {
                    Some(*at)
                } else {
                    None
                }
            }
            None => None,
        }
    }

    // Moves a variable up as far as it goes before others.
    fn rise(&mut self, at: usize)
        requires { at < length self.old.heap.items }
        ensures members { (v : ℕ) → is_among v self.new.heap.items ≡ is_among v self.old.heap.items }
    {
        let mut at = at;
        while at > 0 {
            let parent = (at - 1) / 2;
            if !self.precedes(self.heap[at], self.heap[parent]) {
                return;
            }
            self.exchange(at, parent);
            at = parent;
        }
    }

    // The one of two children that goes before the other, if there is one.
    fn child_of(&self, at: usize) -> Option<usize>
        requires { at < length self.now.heap.items }
        ensures { IfSome result (λ child. (at < child) × (child < length self.now.heap.items)) }
    {
        let left = at + at + 1;
        if left >= self.heap.len() {
            return None;
        }
        let right = left + 1;
        if right < self.heap.len() && self.precedes(self.heap[right], self.heap[left]) {
            return Some(right);
        }
        Some(left)
    }

    // Moves a variable down as far as others go before it.
    fn sink(&mut self, at: usize)
        requires { at < length self.old.heap.items }
        ensures members { (v : ℕ) → is_among v self.new.heap.items ≡ is_among v self.old.heap.items }
        ensures length { length self.new.heap.items ≡ length self.old.heap.items }
    {
        let mut at = at;
        while let Some(child) = self.child_of(at) {
            if !self.precedes(self.heap[child], self.heap[at]) {
                return;
            }
            self.exchange(at, child);
            at = child;
        }
    }

    /// Puts a variable into the heap, if it isn't there.
    pub fn insert(&mut self, variable: u32) -> Result<(), AllocError>
        ensures here { OnOk result (is_among variable self.new.heap.items ≡ true) }
        ensures keeps { OnOk result ((v : ℕ) → is_among v self.old.heap.items ≡ true → is_among v self.new.heap.items ≡ true) }
    {
        if self.place_of(variable).is_some() {
            return Ok(());
        }
        let last = self.heap.len();
        self.heap.push(variable)?;
        self.note(last);
        self.rise(last);
        Ok(())
    }

    /// The first variable.
    pub fn first(&self) -> Option<u32>
        ensures none { IfNone result (self.now.heap.items ≡ []) }
        ensures some { IfSome result (λ v. slice_get self.now.heap.items 0 ≡ Some v) }
    {
        self.heap.first().copied()
    }

    /// Takes the first variable away.
    pub fn drop_first(&mut self)
        requires { 0 < length self.old.heap.items }
        ensures members { (v : ℕ) → is_among v self.old.heap.items ≡ true → (slice_get self.old.heap.items 0 ≡ Some v) ⊎ (is_among v self.new.heap.items ≡ true) }
        ensures length { length self.new.heap.items + 1 ≡ length self.old.heap.items }
    {
        self.heap.swap_remove(0);
        if !self.heap.is_empty() {
            self.note(0);
            self.sink(0);
        }
    }

    // Scales all activities.
    fn rescale(&mut self)
        ensures { self.new.heap ≡ self.old.heap }
    {
        for activity in self.activities.iter_mut() {
            activity.score = activity.score * SCALE;
        }
        self.increment = self.increment * SCALE;
    }

    /// A variable was active in a conflict.
    pub fn bump(&mut self, variable: u32)
        ensures { (v : ℕ) → is_among v self.new.heap.items ≡ is_among v self.old.heap.items }
    {
        let index = variable as usize;
        if index >= self.activities.len() {
            return;
        }
        let score = self.activities[index].score + self.increment;
        self.bumps = self.bumps.saturating_add(1);
        self.activities[index] = Activity {
            score,
            last: self.bumps,
        };
        if score > MOST {
            self.rescale();
        }
        if let Some(at) = self.place_of(variable) {
            self.rise(at);
        }
    }

    /// The variables of these literals were active in a conflict, and earlier bumps count less from now on.
    pub fn bump_all(&mut self, literals: &[i32])
        ensures { (v : ℕ) → is_among v self.new.heap.items ≡ is_among v self.old.heap.items }
    {
        for literal in literals {
            self.bump(literal.unsigned_abs());
        }
        self.increment = self.increment / DECAY;
    }
}
