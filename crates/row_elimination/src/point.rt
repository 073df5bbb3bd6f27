//! The trial point.

ghost use Rattle.std.specs.Prelude.{◌≡◌, ◌<◌, ◌≤◌, ◌+◌, ◌*ℤ◌, ◌+ℤ◌, ◌<ℤ◌, ◌^◌, ◌≢◌, IsTrue, IfOk, IfSome, Some, None, false, pos, neg_ℤ, slice_index_or, replicate, length, vec_len, slice_set, option_and_then, if◌then◌else◌};
ghost use Rattle.std.specs.Option.{option_map};
ghost use Rattle.std.specs.Int.{int_div_euclid};
ghost use Rattle.st_linear.specs.Linear.{is_wide, narrow, small, is_small};
ghost use Rattle.elimination_laws.specs.Mixing.{part};
ghost use Rattle.st_linear.specs.Linear.{is_zero, is_within};
ghost use Rattle.elimination_laws.specs.Stages.{forms};
ghost use Rattle.row_elimination.specs.Plain.{tracked_row, rows};
ghost use Rattle.row_elimination.specs.Places.{use_plain};
ghost use Rattle.row_elimination.specs.Runs.{uses_plain};
ghost use Rattle.elimination_laws.specs.Points.{evaluated_but, rest_value, floor_by, least_allowed, greatest_allowed, raised, lowered, highest, lowest, chosen, solution, value_for, pointed, meets, holds_at, all_hold_at};

use crate::mixing::part;
use crate::row::Row;
use crate::stage::Used;
use st_linear::Line;
use st_memory::Memory;
use std::alloc::Global;

const WIDE: u128 = 1 << 126;

const LIMIT: u128 = 1 << 100;

#[tactic(auto, unfolding(st_linear::specs::Linear::is_wide))]
fn narrow(x: i128) -> Option<i128>
    ensures value { result ≡ narrow x }
    ensures within { IfSome result (λ r. is_wide r ≡ false) }
{
    if x.unsigned_abs() < WIDE {
        Some(x)
    } else {
        None
    }
}

#[tactic(auto, unfolding(st_linear::specs::Linear::is_wide))]
fn narrow_sum(x: &i128, y: &i128) -> Option<i128>
    ensures value { result ≡ narrow (x.now +ℤ y.now) }
    ensures within { IfSome result (λ r. is_wide r ≡ false) }
{
    match x.checked_add(*y) {
        Some(sum) => {
            if sum.unsigned_abs() < WIDE {
                Some(sum)
            } else {
                None
            }
        }
        None => None,
    }
}

#[tactic(auto, unfolding(st_linear::specs::Linear::is_wide))]
fn narrow_product(x: &i128, y: &i128) -> Option<i128>
    ensures { result ≡ narrow (x.now *ℤ y.now) }
{
    match x.checked_mul(*y) {
        Some(product) => {
            if product.unsigned_abs() < WIDE {
                Some(product)
            } else {
                None
            }
        }
        None => None,
    }
}

/// The value of a variable, 0 where it has none.
fn value_at(values: &[i128], var: u32) -> i128
    ensures { result ≡ slice_index_or values.now var (pos 0) }
{
    let index = var as usize;
    if index < values.len() {
        values[index]
    } else {
        0
    }
}

/// The entries but the variable's own, on top of a number.
fn evaluate_but(
    var: usize,
    values: &[i128],
    entries: &[(u32, i128)],
    constant: i128,
) -> Option<i128>
    requires { is_wide constant ≡ false }
    ensures value { result ≡ evaluated_but var values.now entries.now constant }
    ensures within { IfSome result (λ r. is_wide r ≡ false) }
{
    let mut sum = constant;
    for e in entries {
        if e.0 as usize != var {
            sum = add_entry(&sum, &e.1, values, e.0)?;
        }
    }
    Some(sum)
}

fn add_entry(sum: &i128, by: &i128, values: &[i128], var: u32) -> Option<i128>
    ensures value { result ≡ option_and_then (λ p. narrow (sum.now +ℤ p)) (narrow (by.now *ℤ slice_index_or values.now var (pos 0))) }
    ensures within { IfSome result (λ r. is_wide r ≡ false) }
{
    let value = value_at(values, var);
    let product = narrow_product(by, &value)?;
    narrow_sum(sum, &product)
}

/// A line's value without the variable's own entry.
fn rest_value(var: usize, values: &[i128], constant: i128, entries: &[(u32, i128)]) -> Option<i128>
    ensures value { result ≡ option_and_then (evaluated_but var values.now entries.now) (narrow constant) }
    ensures within { IfSome result (λ r. is_wide r ≡ false) }
{
    evaluate_but(var, values, entries, narrow(constant)?)
}

fn meets(equal: bool, value: i128) -> bool
    ensures { result ≡ meets equal value }
{
    if equal { value == 0 } else { value >= 0 }
}

fn holds_at(values: &[i128], line: &Line) -> bool
    ensures { result ≡ holds_at values.now line.now }
{
    match rest_value(
        values.len(),
        values,
        line.form.constant(),
        line.form.entries(),
    ) {
        Some(value) => meets(line.equal, value),
        None => false,
    }
}

/// Whether each line holds.
pub(crate) fn all_hold_at(values: &[i128], lines: &[Line]) -> bool
    ensures { result ≡ all_hold_at values.now lines.now }
{
    for line in lines {
        if !holds_at(values, line) {
            return false;
        }
    }
    true
}

fn floor_quotient(x: i128, by: u128) -> i128
    requires positive { 0 < by }
    requires bound { by < 2 ^ 100 }
    ensures { result ≡ int_div_euclid x (pos by) }
{
    x.div_euclid(by as i128)
}

/// A number divided by the size of a coefficient, rounded down.
#[tactic(auto, unfolding(st_linear::specs::Linear::is_within))]
fn floor_by(a: &i128, r: &i128) -> i128
    requires { IsTrue (is_within (2 ^ 100) a.now) }
    ensures { result ≡ floor_by a.now r.now }
{
    if *a == 0 {
        0
    } else {
        floor_quotient(*r, a.unsigned_abs())
    }
}

/// The least whole number that a lower bound allows.
#[tactic(auto, unfolding(st_linear::specs::Linear::is_wide), using(crate::proofs::Quotients::floor_size))]
fn least_allowed(a: &i128, r: &i128) -> i128
    requires a_within { IsTrue (is_within (2 ^ 100) a.now) }
    requires r_narrow { is_wide r.now ≡ false }
    ensures { result ≡ least_allowed a.now r.now }
{
    -floor_by(a, r)
}

fn raised(best: Option<i128>, x: i128) -> i128
    ensures { result ≡ raised best x }
{
    match best {
        None => x,
        Some(y) => { if y < x { x } else { y } }
    }
}

fn lowered(best: Option<i128>, x: i128) -> i128
    ensures { result ≡ lowered best x }
{
    match best {
        None => x,
        Some(y) => { if x < y { x } else { y } }
    }
}

/// What a lower bound allows, or more.
fn raise(var: u32, values: &[i128], row: &Row, best: Option<i128>) -> Option<i128>
    ensures { result ≡ option_map (λ r. raised best (least_allowed (part var row.now.entries.items) r)) (rest_value var values.now (tracked_row row.now).form) }
{
    let rest = rest_value(var as usize, values, row.constant, row.entries.as_slice())?;
    let a = part(var, row.entries.as_slice());
    Some(raised(best, least_allowed(&a, &rest)))
}

fn lower(var: u32, values: &[i128], row: &Row, best: Option<i128>) -> Option<i128>
    ensures { result ≡ option_map (λ r. lowered best (greatest_allowed (part var row.now.entries.items) r)) (rest_value var values.now (tracked_row row.now).form) }
{
    let rest = rest_value(var as usize, values, row.constant, row.entries.as_slice())?;
    let a = part(var, row.entries.as_slice());
    Some(lowered(best, floor_by(&a, &rest)))
}

/// The least number that all lower bounds allow, if there are any.
fn highest(var: u32, values: &[i128], bounds: &[Row]) -> Option<Option<i128>>
    ensures { result ≡ highest var values.now (forms (rows bounds.now)) None }
{
    let mut best = None;
    for row in bounds {
        best = Some(raise(var, values, row, best)?);
    }
    Some(best)
}

/// The greatest number that all upper bounds allow, if there are any.
fn lowest(var: u32, values: &[i128], bounds: &[Row]) -> Option<Option<i128>>
    ensures { result ≡ lowest var values.now (forms (rows bounds.now)) None }
{
    let mut best = None;
    for row in bounds {
        best = Some(lower(var, values, row, best)?);
    }
    Some(best)
}

#[tactic(auto, unfolding(st_linear::specs::Linear::is_within))]
fn small(x: i128) -> Option<i128>
    ensures { result ≡ small x }
{
    if x.unsigned_abs() < LIMIT {
        Some(x)
    } else {
        None
    }
}

/// The number that an equation asks for, if it is whole.
fn solution(c: &i128, r: &i128) -> Option<i128>
    requires c_within { IsTrue (is_within (2 ^ 100) c.now) }
    requires r_narrow { is_wide r.now ≡ false }
    ensures { result ≡ solution c.now r.now }
{
    if *c == 0 {
        return None;
    }
    if r.unsigned_abs() % c.unsigned_abs() != 0 {
        return None;
    }
    if *c > 0 {
        small(least_allowed(c, r))
    } else {
        small(floor_by(c, r))
    }
}

fn chosen(low: Option<i128>, high: Option<i128>) -> i128
    ensures { result ≡ chosen low high }
{
    match low {
        Some(x) => x,
        None => match high {
            Some(y) => y,
            None => 0,
        },
    }
}

fn solved_value(var: u32, values: &[i128], row: &Row) -> Option<i128>
    ensures { result ≡ option_and_then (solution (part var row.now.entries.items)) (rest_value var values.now (tracked_row row.now).form) }
{
    let rest = rest_value(var as usize, values, row.constant, row.entries.as_slice())?;
    let c = part(var, row.entries.as_slice());
    solution(&c, &rest)
}

fn bounded_value(var: u32, values: &[i128], lowers: &[Row], uppers: &[Row]) -> Option<i128>
    ensures { result ≡ option_and_then (λ low. option_and_then (λ high. small (chosen low high)) (lowest var values.now (forms (rows uppers.now)) None)) (highest var values.now (forms (rows lowers.now)) None) }
{
    let low = highest(var, values, lowers)?;
    let high = lowest(var, values, uppers)?;
    small(chosen(low, high))
}

/// A variable's value, with the values of those above it.
fn value_for(var: u32, values: &[i128], used: &Used) -> Option<i128>
    ensures { result ≡ value_for var values.now (use_plain used.now) }
{
    match used {
        Used::Equation(row) => solved_value(var, values, row),
        Used::Bounds(lowers, uppers) => bounded_value(var, values, lowers, uppers),
    }
}

fn set_at(values: &mut [i128], index: usize, value: i128)
    ensures { values.new ≡ slice_set values.old index value }
{
    if index < values.len() {
        values[index] = value;
    }
}

/// Fills in the values, from the last variable down.
pub(crate) fn fill(values: &mut [i128], uses: &[Used]) -> bool
    requires { length uses.now < 2 ^ 32 }
    ensures { pointed 0 (uses_plain uses.now) values.old ≡ (if result then Some values.new else None) }
{
    let mut k = uses.len();
    while k > 0 {
        k -= 1;
        match value_for(k as u32, values, &uses[k]) {
            Some(value) => set_at(values, k, value),
            None => return false,
        }
    }
    true
}
