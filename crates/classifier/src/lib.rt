// NPN classes of tables: the least image among all 768, sixteen at a time, and the first transform that reaches it.
#![tactic(auto)]

ghost use Rattle.std.specs.Prelude.{◌≡◌, ℕ, ◌+◌, ◌*◌, ◌<◌, ◌≤◌, true, false, slice_index};
ghost use Rattle.tables.specs.Tables.{complement, flipped};
ghost use Rattle.transforms.specs.Images.{image, transform_at};
ghost use Rattle.classifier.specs.Extremes.{AreImages, Seen, class_of, IsClass, IsReached};

use tables::{Table, Variable, flip_variable, invert};
use transforms::Transform;

/// The class of a table, by its representative, and the first transform that reaches it.
#[derive(Clone, Copy, PartialEq, Eq, Debug)]
pub struct Class {
    pub representative: Table,
    pub transform: Transform,
}

// Twice as many images: `n` more, from the first `n`, with variable `v` of the image inverted.
// A loop: with `array::from_fn` over `[Table; 2 * n]`, 500 thousand classes a second in place of 810 thousand.
fn flip_more(images: [Table; 16], n: usize, v: Variable) -> [Table; 16]
    requires { n ≤ 8 }
    ensures kept { (m : ℕ) → m < n → slice_index result m ≡ slice_index images m }
    ensures more { (m : ℕ) → m < n → slice_index result (n + m) ≡ flipped (slice_index images m) v }
{
    let mut all = images;
    for m in 0..n {
        all[n + m] = flip_variable(images[m], v);
    }
    all
}

// The images of `f` under order `q`, by the mask: each from one that differs in one input. The order is a number below
// 24 and no type, since it is a part of each transform's number `16 * q + m`.
fn order_images(f: Table, q: usize) -> [Table; 16]
    requires { q < 24 }
    ensures { AreImages f q 16 result }
{
    let plain = Transform::nth(16 * q);
    let order = plain.order();
    let one = [plain.image_of(f); 16];
    let two = flip_more(one, 1, order.at(Variable::V0));
    let four = flip_more(two, 2, order.at(Variable::V1));
    let eight = flip_more(four, 4, order.at(Variable::V2));
    flip_more(eight, 8, order.at(Variable::V3))
}

// An image, and the number of the first transform that reaches it.
#[derive(Clone, Copy)]
struct Reached {
    image: Table,
    at: usize,
}

impl Reached {
    // Image `g`, of transform number `n`, if it is better. Field by field: a choice of structs is a branch, at half the speed.
    fn or_better(self, better: bool, g: Table, n: usize) -> Reached
        ensures better { better ≡ true → result ≡ record { image = g; at = n } }
        ensures kept { better ≡ false → result ≡ self }
    {
        let (image, at) = if better {
            (g, n)
        } else {
            (self.image, self.at)
        };
        Reached { image, at }
    }
}

// The least and the largest image among those seen so far.
#[derive(Clone, Copy)]
struct Extremes {
    low: Reached,
    high: Reached,
}

impl Extremes {
    // One image more, that of transform number `n`.
    fn with(self, g: Table, n: usize) -> Extremes
        requires { n < 384 }
        ensures { (f : ℕ) → g ≡ image (transform_at n) f → Seen f n self → Seen f (n + 1) result }
    {
        Extremes {
            low: self.low.or_better(g < self.low.image, g, n),
            high: self.high.or_better(g > self.high.image, g, n),
        }
    }
}

// The extremes after the sixteen images of order `q`.
fn scan_order(f: Table, q: usize, seen: Extremes) -> Extremes
    requires { (q < 24) × Seen f (16 * q) seen }
    ensures { Seen f (16 * q + 16) result }
{
    let mut seen = seen;
    for (m, g) in order_images(f, q).iter().enumerate() {
        seen = seen.with(*g, 16 * q + m);
    }
    seen
}

// The extremes of all 384 images that are not inverted: one of them decides the class.
fn scan(f: Table) -> Extremes
    ensures few { result.high.at < 384 }
    ensures low { result.low.image ≤ complement result.high.image → IsReached f result.low.image result.low.at }
    ensures high { complement result.high.image < result.low.image → IsReached f (complement result.high.image) (384 + result.high.at) }
    ensures law { IsClass f (class_of f) }
{
    let plain = Reached { image: f, at: 0 };
    let mut seen = Extremes {
        low: plain,
        high: plain,
    };
    for q in 0..24 {
        seen = scan_order(f, q, seen);
    }
    seen
}

/// The class of a table. The inverted images are those not inverted, read from the largest down.
pub fn classify(f: Table) -> Class
    ensures class { result ≡ class_of f }
    ensures law { IsClass f result }
{
    let seen = scan(f);
    let inverse = invert(seen.high.image);
    if inverse < seen.low.image {
        Class {
            representative: inverse,
            transform: Transform::nth(384 + seen.high.at),
        }
    } else {
        Class {
            representative: seen.low.image,
            transform: Transform::nth(seen.low.at),
        }
    }
}
