// The first stage of butterflies, over sixteen symbols abreast. A complex row is sixteen numbers of I and then sixteen
// of Q; each loop goes over the columns of rows, and the compiler does as many of them at once as there is room for.
// Rows to work in are lent.
#![tactic(auto)]

ghost use Rattle.std.specs.Prelude.{◌≡◌, [], ◌∷◌, ◌+◌, ◌*◌, ◌≤◌, ◌<◌, length, map, pos};
ghost use Rattle.base.specs.Whole.{Within};
ghost use Rattle.rules_choosing.specs.Scores.{RowWithin};
ghost use Rattle.rules_chips.specs.Bounds.{Bounded};
ghost use Rattle.choose_walsh.specs.Turns.{plus, back};
ghost use Rattle.choose_stages.specs.Numbers.{whole};
ghost use Rattle.choose_walsh.specs.Rows.{row_at, FourWithin, FourScaled, RowBounded, RowsBounded, Entered, Flown, Paired};

pub mod lanes;
mod narrow;
mod wide;

pub use crate::lanes::Lane;

// A complex number.
#[derive(Clone, Copy)]
pub struct Complex<T> {
    pub i: T,
    pub q: T,
}

impl<T: Lane> Complex<T> {
    // The number in column l of the complex row that begins at x.
    pub fn at(row: &[T], x: usize, l: usize) -> Complex<T>
        requires { x + l + 16 < length row.now }
        ensures answer { whole T.value result ≡ row_at (map T.value row.now) x l }
    {
        Complex {
            i: row[x + l],
            q: row[x + l + 16],
        }
    }

    // The sum of two.
    pub fn plus(self, other: Complex<T>) -> Complex<T>
        requires { Bounded T.limit (plus (whole T.value self) (whole T.value other)) }
        ensures answer { whole T.value result
            ≡ plus (whole T.value self) (whole T.value other) }
    {
        Complex {
            i: self.i.plus(other.i),
            q: self.q.plus(other.q),
        }
    }

    // Turned back by a quarter turn.
    pub fn back(self) -> Complex<T>
        requires { Within T.limit (T.value self.i) }
        ensures answer { whole T.value result ≡ back 1 (whole T.value self) }
    {
        Complex {
            i: self.q,
            q: self.i.negated(),
        }
    }
}

// Four chips of sixteen symbols as they enter every word, from place x on: the third and the fourth by a factor of
// their own, the fourth with more.
fn four<T: Lane>(row: &[T::Chip], x: usize, third: i8, fourth: i8, more: i8, z: &mut [T])
    requires { (length row.now ≡ 256) × (length z.old ≡ 256) × (x ≤ 128)
        × Within 16 third × Within 16 fourth × Within 4 more × T.Recorded row.now }
    ensures z { FourScaled (T.chips row.now) x (pos 16 ∷ pos 16 ∷ third ∷ fourth ∷ [])
        (pos 0 ∷ pos 0 ∷ pos 0 ∷ more ∷ []) (map T.value z.old) 32 (map T.value z.new) }
    ensures small { FourWithin T.most (T.chips row.now) x 32 }
{
    for l in 0..32 {
        let a = x + l;
        let c0 = T::entered(row, a, 16, 0);
        let c1 = T::entered(row, a + 32, 16, 0);
        let c2 = T::entered(row, a + 64, third, 0);
        let c3 = T::entered(row, a + 96, fourth, more);
        z[a] = c0;
        z[a + 32] = c1;
        z[a + 64] = c2;
        z[a + 96] = c3;
    }
}

// All eight chips: the minus of chips 3 and 6 is put in here.
pub fn enter<T: Lane>(row: &[T::Chip], z: &mut [T])
    requires { (length row.now ≡ 256) × (length z.old ≡ 256) × T.Recorded row.now }
    ensures z { Entered (T.chips row.now) (map T.value z.new) }
    ensures small { RowWithin T.most (T.chips row.now) }
{
    four(row, 0, 16, -16, 0, z);
    four(row, 128, -16, 16, 4, z);
}

// One butterfly: four rows of o from z on are the row at y and the one at x, turned back by 0, 1, 2, 3 quarter turns.
fn butterfly<T: Lane>(s: &[T], x: usize, y: usize, o: &mut [T], z: usize)
    requires { (length s.now ≡ 256) × (length o.old ≡ 512) × (x ≤ 224) × (y ≤ 224) × (z ≤ 384)
        × RowBounded (16 * T.most + 4) (map T.value s.now) x × RowBounded (16 * T.most + 4) (map T.value s.now) y }
    ensures o { Flown (map T.value s.now) x y (map T.value o.old) z 16 (map T.value o.new) }
{
    for l in 0..16 {
        let u = Complex::at(s, x, l);
        let v = Complex::at(s, y, l);
        let u1 = u.back();
        let u2 = u1.back();
        let r0 = v.plus(u);
        let r1 = v.plus(u1);
        let r2 = v.plus(u2);
        let r3 = v.plus(u2.back());
        let c = z + l;
        o[c] = r0.i;
        o[c + 16] = r0.q;
        o[c + 32] = r1.i;
        o[c + 48] = r1.q;
        o[c + 64] = r2.i;
        o[c + 80] = r2.q;
        o[c + 96] = r3.i;
        o[c + 112] = r3.q;
    }
}

// The first stage, four butterflies by p3: chips 0 and 2, 1 and 3, 4 and 6, 5 and 7.
pub fn pairs<T: Lane>(z: &[T], a: &mut [T])
    requires { (length z.now ≡ 256) × (length a.old ≡ 512) × RowsBounded (16 * T.most + 4) 8 (map T.value z.now) }
    ensures a { Paired (map T.value z.now) (map T.value a.new) }
{
    butterfly(z, 0, 64, a, 0);
    butterfly(z, 32, 96, a, 128);
    butterfly(z, 128, 192, a, 256);
    butterfly(z, 160, 224, a, 384);
}
