// Sums of products of 32-bit numbers, from 16-bit halves: document 02, T-03. Every product of matrix or vertex numbers
// is one of the two products here, whose factors have 16 bits by their types or by what is required (checks/products).
#![tactic(auto)]

ghost use Rattle.std.specs.Prelude.{◌≡◌, ◌+◌, ◌*◌, ◌/◌, ◌%◌, ◌^◌, ◌<◌, ◌≤◌, pos, ◌+ℤ◌, ◌*ℤ◌, unsigned_abs};
ghost use Rattle.lowbits.specs.Bits.{floor_bits, low_bits, signed_low};
ghost use Rattle.products.specs.Inside.{number, sum_of};

use lowbits::{bits32, signed32};

// A sum of products in parts: what counts from bit 32 on, from bit 16 on and from bit 0 on, and the sum of the factors
// that are in offset binary.
#[derive(Clone, Copy, Debug, PartialEq, Eq)]
pub struct Sum {
    pub upper: u32,
    pub middle: u32,
    pub lower: u32,
    pub factors: u32,
}

// A number in offset binary, a + 2^31: its halves have no sign.
#[tactic(auto, using(crate::proofs::Sums::from_bits))]
pub fn offset(a: i32) -> u32
    ensures { number result ≡ a }
{
    bits32(a).wrapping_add(0x8000_0000)
}

// The halves of a number without a sign.
fn high_half(a: u32) -> u16
    ensures { result ≡ a / 0x1_0000 }
{
    (a >> 16) as u16
}

fn low_half(a: u32) -> u16
    ensures { result ≡ a % 0x1_0000 }
{
    (a & 0xffff) as u16
}

// The product of two halves without a sign.
fn half_product(a: u16, b: u16) -> u32
    ensures { result ≡ a * b }
{
    (a as u32) * (b as u32)
}

// The four products of the halves of x and a.
#[derive(Clone, Copy)]
struct Products {
    upper: u32,
    left: u32,
    right: u32,
    lower: u32,
}

fn half_products(x: u32, a: u32) -> Products
    ensures { x * a ≡ result.upper * 2 ^ 32 + (result.left + result.right) * 2 ^ 16 + result.lower }
{
    let x_high = high_half(x);
    let x_low = low_half(x);
    let a_high = high_half(a);
    let a_low = low_half(a);
    Products {
        upper: half_product(x_high, a_high),
        left: half_product(x_high, a_low),
        right: half_product(a_high, x_low),
        lower: half_product(x_low, a_low),
    }
}

// A sum that wraps.
fn add3(a: u32, b: u32, c: u32) -> u32
    ensures { result ≡ (a + b + c) % 2 ^ 32 }
{
    a.wrapping_add(b).wrapping_add(c)
}

// The sum of no products.
pub fn no_product() -> Sum
    ensures { (sum_of result ≡ 0) × (result.lower ≡ 0) }
{
    Sum {
        upper: 0,
        middle: 0,
        lower: 0,
        factors: 0,
    }
}

// The sum and a product of two numbers in offset binary. The lower product is split again, so that the lower parts'
// sum does not wrap. For the crates above.
#[tactic(auto, using(crate::proofs::Sums::plus))]
pub fn plus_product(s: Sum, x: u32, a: u32) -> Sum
    requires { s.lower < 2 ^ 20 }
    ensures result_value { sum_of result ≡ (sum_of s + low_bits 48 (number x *ℤ number a)) % 2 ^ 48 }
    ensures lower_bound { result.lower ≤ s.lower + 0xffff }
{
    let p = half_products(x, a);
    Sum {
        upper: s.upper.wrapping_add(p.upper),
        middle: add3(s.middle, p.left, p.right).wrapping_add(high_half(p.lower) as u32),
        lower: s.lower + low_half(p.lower) as u32,
        factors: add3(s.factors, x, a),
    }
}

// A product of two numbers in offset binary, alone: nothing is added up, so the upper product joins the middle ones and
// the lower one stays whole.
#[tactic(auto, using(crate::proofs::Sums::alone))]
pub fn one_product(x: u32, a: u32) -> Sum
    ensures { sum_of result ≡ low_bits 48 (number x *ℤ number a) }
{
    let p = half_products(x, a);
    Sum {
        upper: 0,
        middle: add3(p.upper << 16, p.left, p.right),
        lower: p.lower,
        factors: x.wrapping_add(a),
    }
}

// A signed number's bits from bit 16 on: its upper half, with its sign.
fn from_bit_16(a: i32) -> i32
    ensures { (result ≡ floor_bits 16 a) × (unsigned_abs result ≤ 0x8000) }
{
    a >> 16
}

// And its low 16 bits, without a sign.
fn below_bit_16(a: i32) -> u16
    ensures { result ≡ low_bits 16 a }
{
    low_half(bits32(a))
}

// The product of a number of 16 bits and a half, with a sign or without.
fn short_product(x: i16, half: i32) -> i32
    requires { unsigned_abs half ≤ 0xffff }
    ensures { result ≡ x *ℤ half }
{
    (x as i32) * half
}

// The sum and the product of a number of 16 bits and any number. For the crates above.
pub fn plus_short(s: Sum, x: i16, a: i32) -> Sum
    requires { s.lower < 2 ^ 20 }
    ensures result_value { sum_of result ≡ (sum_of s + low_bits 48 (x *ℤ a)) % 2 ^ 48 }
    ensures lower_bound { result.lower ≤ s.lower + 0xffff }
{
    let h = short_product(x, from_bit_16(a));
    let l = short_product(x, below_bit_16(a) as i32);
    Sum {
        middle: add3(s.middle, bits32(h), bits32(from_bit_16(l))),
        lower: s.lower + below_bit_16(l) as u32,
        ..s
    }
}

// The sum, divided by 4096 rounding down, its low 32 bits as a signed number.
#[tactic(auto, using(crate::proofs::Sums::rounds), unfolding(lowbits::specs::Bits::low_bits))]
pub fn rounded_sum(s: Sum) -> i32
    ensures { result ≡ signed_low 32 (pos (sum_of s / 4096)) }
{
    let u = add3(s.upper << 20, s.middle << 4, s.lower >> 12);
    signed32(u.wrapping_sub(s.factors << 19))
}

// The rounded sum and a number more, its low 32 bits as a signed number.
#[tactic(auto, using(lowbits::proofs::Read::wrapping_sum, lowbits::proofs::Laws::signed_sum))]
pub fn rounded_plus(s: Sum, d: i32) -> i32
    ensures { result ≡ signed_low 32 (pos (sum_of s / 4096) +ℤ d) }
{
    rounded_sum(s).wrapping_add(d)
}
