// The words of the tree by masks and shifts. What holds of a field holds at any place and width.
#![tactic(auto)]

ghost use Rattle.std.proofs.Common.{lit<, lit≤};
ghost use Rattle.std.specs.Prelude.{ℕ, ◌≡◌, ◌+◌, ◌-◌, ◌^◌, ◌≤◌, ◌<◌};
ghost use Rattle.word.specs.rules.Word.{Place, field, add_field, layout, add_fields, return_occ, leaf_bits, wanted_bits, swap_of, masked_swap, take_bits, give_bits};

// A field of an inner word: how many bits stand below it, and how many it has.
pub trait InnerField {
    const SHIFT: u64;

    const WIDTH: u64;

    ghost SHIFT: { ℕ };

    ghost WIDTH: { ℕ };

    // it lies in a word
    ghost lies: { Place SHIFT WIDTH };
}

// "Inner word, from bit 63 down: Exp 1 bit, Occ 1, TCnt 15, TMax 15, DCnt 16, DMax 16." Exp "is kept as found and never consulted".
pub struct Occ;

pub struct Tcnt;

pub struct Tmax;

pub struct Dcnt;

pub struct Dmax;

impl InnerField for Occ {
    const SHIFT: u64 = 62;

    const WIDTH: u64 = 1;

    ghost SHIFT = { 62 };

    ghost WIDTH = { 1 };

    ghost lies = { record { some = lit< tt; short = lit< tt; inside = lit≤ tt } };
}

impl InnerField for Tcnt {
    const SHIFT: u64 = 47;

    const WIDTH: u64 = 15;

    ghost SHIFT = { 47 };

    ghost WIDTH = { 15 };

    ghost lies = { record { some = lit< tt; short = lit< tt; inside = lit≤ tt } };
}

impl InnerField for Tmax {
    const SHIFT: u64 = 32;

    const WIDTH: u64 = 15;

    ghost SHIFT = { 32 };

    ghost WIDTH = { 15 };

    ghost lies = { record { some = lit< tt; short = lit< tt; inside = lit≤ tt } };
}

impl InnerField for Dcnt {
    const SHIFT: u64 = 16;

    const WIDTH: u64 = 16;

    ghost SHIFT = { 16 };

    ghost WIDTH = { 16 };

    ghost lies = { record { some = lit< tt; short = lit< tt; inside = lit≤ tt } };
}

impl InnerField for Dmax {
    const SHIFT: u64 = 0;

    const WIDTH: u64 = 16;

    ghost SHIFT = { 0 };

    ghost WIDTH = { 16 };

    ghost lies = { record { some = lit< tt; short = lit< tt; inside = lit≤ tt } };
}

// The top bit of every field, and all other bits. Exp is bit 63; the top bit of another field lies just below the field above it.
const TOPS: u64 = (1 << 63)
    | (1 << 62)
    | (1 << (Occ::SHIFT - 1))
    | (1 << (Tcnt::SHIFT - 1))
    | (1 << (Tmax::SHIFT - 1))
    | (1 << (Dcnt::SHIFT - 1));

const LOWS: u64 = !TOPS;

// A 1 in Occ and a 1 in TCnt.
pub const OCC_RETURNED: u64 = (1 << Occ::SHIFT) | (1 << Tcnt::SHIFT);

// The number in a field.
pub fn field(word: u64, shift: u64, width: u64) -> u64
    requires { Place shift width }
    ensures { result ≡ field shift width word }
{
    (word >> shift) & ((1u64 << width) - 1)
}

// A masked fetch-add: the word after `delta` is added within a field, which wraps by itself. Both are masked before the sum, so that it fits.
pub fn add_field(word: u64, shift: u64, width: u64, delta: u64) -> u64
    requires { Place shift width }
    ensures { result ≡ add_field shift width delta word }
{
    let ones = (1u64 << width) - 1;
    let sum = ((word >> shift) & ones) + (delta & ones);
    (word & !(ones << shift)) | ((sum & ones) << shift)
}

// The number in a field of an inner word.
pub fn get<F: InnerField>(word: u64) -> u64
    ensures { result ≡ field F.SHIFT F.WIDTH word }
{
    field(word, F::SHIFT, F::WIDTH)
}

// The word after `delta` is added within a field of it.
pub fn add<F: InnerField>(word: u64, delta: u64) -> u64
    ensures { result ≡ add_field F.SHIFT F.WIDTH delta word }
{
    add_field(word, F::SHIFT, F::WIDTH, delta)
}

// Every field of both words added in one sum. It leaves the top bits out, so that nothing is carried out of a field; they are added last, without a carry.
pub fn add_fields(word: u64, deltas: u64) -> u64
    ensures { result ≡ add_fields layout deltas word }
{
    ((word & LOWS) + (deltas & LOWS)) ^ ((word ^ deltas) & TOPS)
}

// Occ - 1 and TCnt + 1 in one add.
pub fn return_occ(word: u64) -> u64
    ensures { result ≡ return_occ word }
{
    add_fields(word, OCC_RETURNED)
}

// The bits low up to high of a leaf, high not among them. It is right for the whole leaf too, where `1 << 64` would be refused.
pub fn leaf_bits(low: u64, high: u64) -> u64
    requires { (low < high) × (high ≤ 64) }
    ensures { result ≡ leaf_bits low high }
{
    (u64::MAX >> (64 - (high - low))) << low
}

// The wanted bits of the leaf whose first unit is `edge`, for a window [l, r) that meets it. Both edges are clipped to the leaf, and the bits between them picked, without a
// branch. "Bit b is set exactly when unit b is in the part" (document 02, request 2.5) is `wanted_exactly` in proofs/laws/Leaf.antt; of no other word is it so (`wanted_only`).
pub fn wanted_bits(edge: u64, l: u64, r: u64) -> u64
    requires { (l < r) × (l < edge + 64) × (edge < r) × (edge + 64 < 2 ^ 64) }
    ensures { result ≡ wanted_bits edge l r }
{
    let low = l.saturating_sub(edge);
    let high = 64 - (edge + 64).saturating_sub(r);
    leaf_bits(low, high)
}

// A masked compare-and-swap: it compares the bits of `compared`, and sets those of `swapped`. It answers the word that it leaves, or None where the compared bits are not as
// expected, and the word stays.
pub fn masked_swap(word: u64, compared: u64, expected: u64, swapped: u64, value: u64) -> Option<u64>
    ensures { swap_of result word ≡ masked_swap compared expected swapped value word }
{
    if word & compared == expected & compared {
        Some((word & !swapped) | (value & swapped))
    } else {
        None
    }
}

// Swaps the bits from all 0 to all 1. This and the next differ in a constant; each is one call of the general form above, which a function of both constants would only repeat.
pub fn take_bits(word: u64, bits: u64) -> Option<u64>
    ensures { swap_of result word ≡ take_bits bits word }
{
    masked_swap(word, bits, 0, bits, bits)
}

// Swaps the bits from all 1 to all 0.
pub fn give_bits(word: u64, bits: u64) -> Option<u64>
    ensures { swap_of result word ≡ give_bits bits word }
{
    masked_swap(word, bits, bits, bits, 0)
}
