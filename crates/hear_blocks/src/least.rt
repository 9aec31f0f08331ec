// The smallest lead of a block, and the first symbol that has it.
ghost use Rattle.std.specs.Prelude.{◌≡◌, ℕ, ◌+◌, ◌^◌, ◌<◌, ◌≤◌, false, length, take, if◌then◌else◌, nat_lt, slice_index};
ghost use Rattle.rules_reading.specs.Leads.{lead_at, least_from, least_of};

use rules_calls::Least;

// Whether one of the first m leads may be below a number: no says that none is. Of a lead that is, the difference wraps
// to 2^31 or more. There is no branch and no comparison, so that the compiler takes several at a time.
fn any_below(leads: &[u32; 64], m: usize, limit: u32) -> bool
    requires { (m ≤ 64) × (limit ≤ 2147483648) }
    ensures answer { result ≡ false → (j : ℕ) → j < m → limit ≤ slice_index leads.now j }
{
    let mut any: u32 = 0;
    for l in 0..m {
        any = any | std::num::wrapping_sub_u32(leads[l], limit);
    }
    2147483648 <= any
}

// The same; a whole block, as most are, by a loop of known length.
fn any_lower(leads: &[u32; 64], m: usize, limit: u32) -> bool
    requires { (m ≤ 64) × (limit ≤ 2147483648) }
    ensures answer { result ≡ false → (j : ℕ) → j < m → limit ≤ slice_index leads.now j }
{
    if m == 64 {
        any_below(leads, 64, limit)
    } else {
        any_below(leads, m, limit)
    }
}

// The smallest lead so far, and then a symbol's: it takes the place only if it is smaller.
fn lower(least: Least, lead: u32, symbol: usize) -> Least
    ensures answer { result ≡ (if nat_lt lead least.lead then lead_at lead symbol else least) }
{
    let x = lead as usize;
    if x < least.lead {
        Least { lead: x, symbol }
    } else {
        least
    }
}

// The smallest lead so far, and then m symbols from a number on, symbol by symbol.
fn least_by_symbol(least: Least, symbol: usize, leads: &[u32; 64], m: usize) -> Least
    requires { (m ≤ 64) × (symbol + m < 2 ^ 64) × (length leads.now ≡ 64) }
    ensures answer { result ≡ least_from symbol least (take m leads.now) }
{
    let mut low = least;
    for l in 0..m {
        low = lower(low, leads[l], symbol + l);
    }
    low
}

// The same, after the quick test: few blocks have a smaller one.
pub fn least_after(least: Least, symbol: usize, leads: &[u32; 64], m: usize) -> Least
    requires { (m ≤ 64) × (symbol + m < 2 ^ 64) × (length leads.now ≡ 64) }
    ensures answer { result ≡ least_from symbol least (take m leads.now) }
{
    let limit = least.lead;
    if limit <= 2147483648 {
        if !any_lower(leads, m, limit as u32) {
            return least;
        }
    }
    least_by_symbol(least, symbol, leads, m)
}

// A lead as a number of any size.
fn wide(x: u32) -> usize
    ensures answer { result ≡ x }
{
    x as usize
}

// The smallest lead of a frame's first m symbols.
pub fn least_of(leads: &[u32; 64], m: usize) -> Least
    requires { (0 < m) × (m ≤ 64) × (length leads.now ≡ 64) }
    ensures answer { result ≡ least_of (take m leads.now) }
{
    let lead = wide(leads[0]);
    let first = Least { lead, symbol: 0 };
    least_after(first, 0, leads, m)
}
