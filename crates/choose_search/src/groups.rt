// The words of a group share p3 and p4. By p4 the numbers of the first stage come to the two of a group's last
// butterfly; that, by p2, gives the sums of the words with p1 = 0, and the four turns of each those of the others. It
// comes to two keys: that of the group's best word, and the next.
ghost use Rattle.std.specs.Prelude.{◌≡◌, cond, ◌+◌, ◌-◌, ◌*◌, ◌≤◌, ◌<◌};
ghost use Rattle.std.specs.Int.Signed.{lt_z};
ghost use Rattle.base.specs.Whole.{Within};
ghost use Rattle.rules_chips.specs.Bounds.{Bounded};
ghost use Rattle.choose_stages.specs.Numbers.{whole};
ghost use Rattle.choose_walsh.specs.Turns.{plus, sided, four_top, four_next, top_of, next_of};
ghost use Rattle.choose_search.specs.Keys.{told};
ghost use Rattle.choose_walsh.specs.Search.{group_of, merged, met, four_more};

use choose_stages::{Complex, Lane};

// Two keys of a group: the largest, and the next.
#[derive(Clone, Copy)]
struct Two<T> {
    first: T,
    second: T,
}

// What a column has so far: the largest key, the next, and the group of the first.
#[derive(Clone, Copy)]
pub struct Best<T> {
    pub first: T,
    pub second: T,
    pub group: T,
}

// A number as it is, or turned round where y is below 0.
fn sided<T: Lane>(y: T, a: T) -> T
    requires { Within T.limit (T.value a) }
    ensures answer { T.value result ≡ sided (T.value y) (T.value a) }
{
    if y.below(T::of(0)) { a.negated() } else { a }
}

// The larger key of the words whose sums are y + a and y - a, and that of those with b: the larger of both, and the
// other. Opposite words count as one.
fn four<T: Lane>(y: T, a: T, b: T) -> Two<T>
    requires { Within (4 * (16 * T.most + 4)) (T.value y) × Within (4 * (16 * T.most + 4)) (T.value a)
        × Within (4 * (16 * T.most + 4)) (T.value b) }
    ensures answer { (T.value result.first ≡ four_top (T.value y) (T.value a) (T.value b))
        × (T.value result.second ≡ four_next (T.value y) (T.value a) (T.value b)) }
{
    let t = sided(y, a).credit();
    let u = sided(y, b).credit().minus(T::of(1));
    let m = y.magnitude();
    let top = t.larger(u);
    Two {
        first: m.plus(top),
        second: m.plus(t.lower(u, top)),
    }
}

// The two keys of a group in one column.
fn group<T: Lane>(y: Complex<T>, x: Complex<T>) -> Two<T>
    requires { Bounded (4 * (16 * T.most + 4)) (whole T.value y) × Bounded (4 * (16 * T.most + 4)) (whole T.value x) }
    ensures answer { (T.value result.first ≡ top_of (whole T.value y) (whole T.value x))
        × (T.value result.second ≡ next_of (whole T.value y) (whole T.value x)) }
{
    let p = four(y.i, x.i, x.q);
    let q = four(y.q, x.q, x.i.negated());
    let t = p.first;
    let u = q.first.minus(T::of(4));
    let v = p.second.larger(q.second.minus(T::of(4)));
    let top = t.larger(u);
    Two {
        first: top,
        second: t.lower(u, top).larger(v),
    }
}

// The group g if a key is above the largest so far, else the group that was.
fn place<T: Lane>(best: T, key: T, g: T, was: T) -> T
    ensures answer { result ≡ cond (lt_z (T.value best) (T.value key)) g was }
{
    if best.below(key) { g } else { was }
}

// One group more.
fn merge<T: Lane>(b: Best<T>, k: Two<T>, g: T) -> Best<T>
    ensures answer { told T.value result
        ≡ merged (told T.value b) (T.value k.first) (T.value k.second) (group_of (T.value g)) }
{
    let t = b.first;
    let u = k.first;
    Best {
        first: t.larger(u),
        second: b.second.larger(t.smaller(u).larger(k.second)),
        group: place(t, u, g, b.group),
    }
}

// One group more, from what its last butterfly is of: y and x, each a sum of two.
fn meet<T: Lane>(
    b: Best<T>,
    y: Complex<T>,
    a: Complex<T>,
    x: Complex<T>,
    c: Complex<T>,
    g: T,
) -> Best<T>
    requires { Bounded (2 * (16 * T.most + 4)) (whole T.value y) × Bounded (2 * (16 * T.most + 4)) (whole T.value a)
        × Bounded (2 * (16 * T.most + 4)) (whole T.value x) × Bounded (2 * (16 * T.most + 4)) (whole T.value c) }
    ensures answer { told T.value result
        ≡ met (told T.value b) (plus (whole T.value y) (whole T.value a)) (plus (whole T.value x) (whole T.value c))
        (group_of (T.value g)) }
{
    merge(b, group(y.plus(a), x.plus(c)), g)
}

// The four groups of one p3 in one column: q and p come to the odd chips' number by p4, f and e to the even ones'.
pub fn column<T: Lane>(
    b: Best<T>,
    q: Complex<T>,
    p: Complex<T>,
    f: Complex<T>,
    e: Complex<T>,
    g: u8,
) -> Best<T>
    requires { Bounded (2 * (16 * T.most + 4)) (whole T.value q) × Bounded (2 * (16 * T.most + 4)) (whole T.value p)
        × Bounded (2 * (16 * T.most + 4)) (whole T.value f) × Bounded (2 * (16 * T.most + 4)) (whole T.value e)
        × (g ≤ 12) }
    ensures answer { told T.value result
        ≡ four_more (told T.value b) (whole T.value q) (whole T.value p) (whole T.value f) (whole T.value e) g }
{
    let p1 = p.back();
    let p2 = p1.back();
    let e1 = e.back();
    let e2 = e1.back();
    let one = T::of(1);
    let g0 = T::of(g);
    let g1 = g0.plus(one);
    let g2 = g1.plus(one);
    let b1 = meet(b, q, p, f, e, g0);
    let b2 = meet(b1, q, p1, f, e1, g1);
    let b3 = meet(b2, q, p2, f, e2, g2);
    meet(b3, q, p2.back(), f, e2.back(), g2.plus(one))
}
