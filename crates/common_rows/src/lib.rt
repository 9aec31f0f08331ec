// Rows lent for writing: what every call does to a whole buffer of octets, and to what is left of a row of numbers.
#![tactic(auto)]

ghost use Rattle.std.specs.Prelude.{◌≡◌, ◌++◌, ◌-◌, ◌≤◌, length, take, replicate};

// All of a row set to v.
pub fn fill(row: &mut [u8], v: u8)
    ensures row { row.new ≡ replicate (length row.old) v }
{
    row.fill(v);
}

// The numbers of a row from a place on set to 0.
pub fn clear(row: &mut [u64], from: usize)
    requires { from ≤ length row.old }
    ensures row { row.new
        ≡ take from row.old ++ replicate (length row.old - from) 0 }
{
    row[from..].fill(0);
}
