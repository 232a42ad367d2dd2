// Sums, products and quotients of any two numbers.
ghost use Rattle.std.specs.Prelude.{◌≡◌, ℕ, ◌<◌, ◌*◌, ◌/◌, ◌+ℤ◌, ◌-ℤ◌, ◌*ℤ◌, ◌&&◌, pos, Some, None, IfSome, if◌then◌else◌};
ghost use Rattle.st_numbers.specs.Gcd.{gcd};
ghost use Rattle.st_numbers.specs.Numbers.{in_range, IsProper};
ghost use Rattle.st_numbers.specs.Answers.{integer_answer, quotient_answer, total_answer, sum_answer, product_answer, divide_answer};

use crate::answer::{Ratio, answer_quotient, answer_ratio, ratio_of, scaled};
use crate::divisor::greatest_divisor;
use crate::message::{Number, NumberAnswer};
use object_heap::{Trouble, Value};

// Two numerators over one denominator.
#[derive(Clone, Copy)]
struct Terms {
    left: i128,
    right: i128,
    below: u128,
}

// Two numbers over their least common denominator, where all three numbers fit.
fn over_one_denominator(x: Ratio, y: Ratio) -> Option<Terms>
    requires left { 0 < x.denominator }
    requires right { 0 < y.denominator }
    ensures positive { IfSome result (λ t. 0 < t.below) }
    ensures terms { let g = gcd x.denominator y.denominator in let left = x.numerator *ℤ pos (y.denominator / g) in let right = y.numerator *ℤ pos (x.denominator / g) in let below = x.denominator * (y.denominator / g) in result ≡ (if in_range left && in_range right && in_range (pos below) then Some (record { left = left; right = right; below = below }) else None) }
{
    let divisor = greatest_divisor(x.denominator, y.denominator);
    let factor = y.denominator / divisor;
    let left = scaled(x.numerator, factor)?;
    let right = scaled(y.numerator, x.denominator / divisor)?;
    let below = size_product(x.denominator, factor)?;
    Some(Terms { left, right, below })
}

// The product of two sizes, or None where it doesn't fit.
fn size_product(a: u128, b: u128) -> Option<u128>
    ensures product { result ≡ (if in_range (pos (a * b)) then Some (a * b) else None) }
    ensures positive { 0 < a → 0 < b → IfSome result (λ n. 0 < n) }
{
    let product = a.checked_mul(b)?;
    if product < 1 << 127 {
        return Some(product);
    }
    None
}

// The sum of two numerators over one denominator.
fn answer_sum(terms: Terms) -> NumberAnswer
    requires { 0 < terms.below }
    ensures { result ≡ total_answer ◌+ℤ◌ terms.left terms.right terms.below }
{
    match terms.left.checked_add(terms.right) {
        Some(total) => answer_quotient(total < 0, total.unsigned_abs(), terms.below),
        None => NumberAnswer::IntegerLimit,
    }
}

// Their difference.
fn answer_difference(terms: Terms) -> NumberAnswer
    requires { 0 < terms.below }
    ensures { result ≡ total_answer ◌-ℤ◌ terms.left terms.right terms.below }
{
    match terms.left.checked_sub(terms.right) {
        Some(total) => answer_quotient(total < 0, total.unsigned_abs(), terms.below),
        None => NumberAnswer::IntegerLimit,
    }
}

// The sum of two Integers.
fn integer_sum(a: i128, b: i128) -> NumberAnswer
    ensures { result ≡ integer_answer (a +ℤ b) }
{
    match a.checked_add(b) {
        Some(sum) => NumberAnswer::Value(Value::Integer(sum)),
        None => NumberAnswer::IntegerLimit,
    }
}

// Their difference.
fn integer_difference(a: i128, b: i128) -> NumberAnswer
    ensures { result ≡ integer_answer (a -ℤ b) }
{
    match a.checked_sub(b) {
        Some(difference) => NumberAnswer::Value(Value::Integer(difference)),
        None => NumberAnswer::IntegerLimit,
    }
}

// Their product.
fn integer_product(a: i128, b: i128) -> NumberAnswer
    ensures { result ≡ integer_answer (a *ℤ b) }
{
    match a.checked_mul(b) {
        Some(product) => NumberAnswer::Value(Value::Integer(product)),
        None => NumberAnswer::IntegerLimit,
    }
}

// The sum of any two numbers, over the least common denominator.
fn rational_sum(x: Number, y: Number) -> NumberAnswer
    requires receiver { IsProper x }
    requires argument { IsProper y }
    ensures { result ≡ sum_answer ◌+ℤ◌ x y }
{
    match over_one_denominator(ratio_of(x), ratio_of(y)) {
        Some(terms) => answer_sum(terms),
        None => NumberAnswer::IntegerLimit,
    }
}

// The difference, likewise.
fn rational_difference(x: Number, y: Number) -> NumberAnswer
    requires receiver { IsProper x }
    requires argument { IsProper y }
    ensures { result ≡ sum_answer ◌-ℤ◌ x y }
{
    match over_one_denominator(ratio_of(x), ratio_of(y)) {
        Some(terms) => answer_difference(terms),
        None => NumberAnswer::IntegerLimit,
    }
}

/// The sum, over the least common denominator: each number on the way has to fit.
pub fn add(x: Number, y: Number) -> NumberAnswer
    requires receiver { IsProper x }
    requires argument { IsProper y }
    ensures { result ≡ sum_answer ◌+ℤ◌ x y }
{
    match (x, y) {
        (Number::Integer(a), Number::Integer(b)) => integer_sum(a, b),
        _ => rational_sum(x, y),
    }
}

/// The difference, likewise.
pub fn subtract(x: Number, y: Number) -> NumberAnswer
    requires receiver { IsProper x }
    requires argument { IsProper y }
    ensures { result ≡ sum_answer ◌-ℤ◌ x y }
{
    match (x, y) {
        (Number::Integer(a), Number::Integer(b)) => integer_difference(a, b),
        _ => rational_difference(x, y),
    }
}

// a/b times c/d, both in lowest terms: what they have in common crosswise is divided out first, so
// that no number on the way is greater than one of the answer.
fn cross_product(negative: bool, a: u128, b: u128, c: u128, d: u128) -> NumberAnswer
    requires first { gcd a b ≡ 1 }
    requires second { gcd c d ≡ 1 }
    requires below { 0 < b }
    requires below_too { 0 < d }
    ensures { result ≡ quotient_answer negative (a * c) (b * d) }
{
    let outer = greatest_divisor(a, d);
    let inner = greatest_divisor(c, b);
    let Some(numerator) = (a / outer).checked_mul(c / inner) else {
        return NumberAnswer::IntegerLimit;
    };
    let Some(denominator) = (b / inner).checked_mul(d / outer) else {
        return NumberAnswer::IntegerLimit;
    };
    answer_ratio(negative, numerator, denominator)
}

// The product of any two numbers.
fn rational_product(x: Number, y: Number) -> NumberAnswer
    requires receiver { IsProper x }
    requires argument { IsProper y }
    ensures { result ≡ product_answer x y }
{
    let left = ratio_of(x);
    let right = ratio_of(y);
    cross_product(
        (left.numerator < 0) != (right.numerator < 0),
        left.numerator.unsigned_abs(),
        left.denominator,
        right.numerator.unsigned_abs(),
        right.denominator,
    )
}

/// The product.
pub fn multiply(x: Number, y: Number) -> NumberAnswer
    requires receiver { IsProper x }
    requires argument { IsProper y }
    ensures { result ≡ product_answer x y }
{
    match (x, y) {
        (Number::Integer(a), Number::Integer(b)) => integer_product(a, b),
        _ => rational_product(x, y),
    }
}

#[tactic(auto, using(crate::proofs::GcdLaws::gcd_comm))]
pub fn divide(x: Number, y: Number) -> NumberAnswer
    requires receiver { IsProper x }
    requires argument { IsProper y }
    ensures { result ≡ divide_answer x y }
{
    let left = ratio_of(x);
    let right = ratio_of(y);
    if right.numerator == 0 {
        return NumberAnswer::Trouble(Trouble::ZeroDivide);
    }
    cross_product(
        (left.numerator < 0) != (right.numerator < 0),
        left.numerator.unsigned_abs(),
        left.denominator,
        right.denominator,
        right.numerator.unsigned_abs(),
    )
}
