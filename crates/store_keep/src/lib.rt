// The store of a table's radio settings, read, written and changed. `table` is what is asked of its table of contents.
#![tactic(auto)]

ghost use Rattle.std.specs.Prelude.{◌≡◌, true, ◌++◌, ◌+◌, ◌-◌, ◌≤◌, ◌<◌, length, replicate};
ghost use Rattle.rules_rates.specs.Rates.{rate_of};
ghost use Rattle.rules_frame.specs.Frame.{kind_of, goes_with};
ghost use Rattle.rules_store.specs.Store.{store_read, store_changed, change_left};
ghost use Rattle.rules_store.specs.Store.{allowed_settings, allowed_in, is_setting, changed};
ghost use Rattle.rules_store.specs.Pieces.{store_of, store_written, write_left};
ghost use Rattle.store_keep.specs.Refusals.{number_shown};
ghost use Rattle.store_keep.specs.Reading.{shown, told_at, all_of, Located};

use refusal::StoreRefusal;
use rules_store::Settings;

mod refusal;
mod table;

// The three settings of a store.
#[derive(Clone, Copy)]
pub struct Three {
    pub kind: u64,
    pub rate: u64,
    pub phase: u64,
}

// ---- what the three settings may be

// Whether the rate of a code goes with the kind of a number.
fn goes(kind: u64, rate: u64) -> bool
    ensures answer { result ≡ goes_with (kind_of kind) (rate_of rate) }
{
    common_kinds::goes_with(common_kinds::kind_of(kind), rules_rates::rate_of(rate))
}

// What refusals 1, 2, 3 and 5 allow, the three together.
fn allowed(kind: u64, rate: u64, phase: u64) -> bool
    ensures answer { result ≡ allowed_settings kind rate phase }
{
    common_kinds::is_kind(kind) && rules_rates::is_code(rate) && goes(kind, rate) && phase < 4
}

// ---- reading

// Where the first of the three settings of a store stands, or refusals 21 to 27, in this order.
fn locate(store: &[u8]) -> Result<usize, StoreRefusal>
    ensures answer { Located store.now result }
{
    if store.len() < 2 {
        return Err(StoreRefusal::ShortTable);
    }
    let n = usize::from(store[1]);
    if store.len() < 2 + 4 * n {
        return Err(StoreRefusal::ShortTable);
    }
    if 16 < n {
        return Err(StoreRefusal::ManyEntries);
    }
    table::ask(store, n)?;
    table::find_three(store, n)
}

// The three settings by where the first of them stands, or refusal 28.
fn values(store: &[u8], at: usize) -> Result<Three, StoreRefusal>
    requires { at + 2 < length store.now }
    ensures answer { shown result ≡ told_at store.now at }
{
    let kind = u64::from(store[at]);
    let rate = u64::from(store[at + 1]);
    let phase = u64::from(store[at + 2]);
    if !allowed(kind, rate, phase) {
        return Err(StoreRefusal::NotAllowed);
    }
    Ok(Three { kind, rate, phase })
}

// The three settings of a store, or why it is refused.
fn told(store: &[u8]) -> Result<Three, StoreRefusal>
    ensures answer { shown result ≡ store_read store.now }
{
    let at = locate(store)?;
    values(store, at)
}

// What a store tells: its three settings, or refusals 21 to 28, in this order, and zeros.
pub fn read(store: &[u8]) -> Settings
    ensures answer { result ≡ store_read store.now }
{
    match told(store) {
        Ok(s) => Settings {
            number: 0,
            kind: s.kind,
            rate: s.rate,
            phase: s.phase,
        },
        Err(refusal) => Settings {
            number: refusal as u64,
            kind: 0,
            rate: 0,
            phase: 0,
        },
    }
}

// ---- writing

// Version 1 with the three entries and their bodies, and zeros behind them.
fn put(kind: u8, rate: u8, phase: u8, store: &mut [u8])
    requires { 17 ≤ length store.old }
    ensures store { store.new
        ≡ store_of kind rate phase ++ replicate (length store.old - 17) 0 }
{
    let row = [
        1u8, 3, 1, 14, 0, 1, 2, 15, 0, 1, 3, 16, 0, 1, kind, rate, phase,
    ];
    store[..17].copy_from_slice(&row);
    common_rows::fill(&mut store[17..], 0);
}

// A store of 17 octets, then zeros that are no part of it; or refusal 28 or 29, and zeros.
fn lay(kind: u64, rate: u64, phase: u64, store: &mut [u8]) -> Result<(), StoreRefusal>
    ensures answer { number_shown result ≡ store_written kind rate phase (length store.old) }
    ensures store { store.new ≡ write_left kind rate phase (length store.old) }
{
    if !allowed(kind, rate, phase) {
        common_rows::fill(store, 0);
        return Err(StoreRefusal::NotAllowed);
    }
    if store.len() < 17 {
        common_rows::fill(store, 0);
        return Err(StoreRefusal::NoRoom);
    }
    put(kind as u8, rate as u8, phase as u8, store);
    Ok(())
}

// A store of three settings: 0, or 28 or 29.
pub fn write(kind: u64, rate: u64, phase: u64, store: &mut [u8]) -> u64
    ensures answer { result ≡ store_written kind rate phase (length store.old) }
    ensures store { store.new ≡ write_left kind rate phase (length store.old) }
{
    refusal::number(lay(kind, rate, phase, store))
}

// ---- changing one setting

// Whether a value is allowed as the setting of a tag beside the other two of allowed settings: only what it changes is
// asked.
fn stands(tag: u64, value: u64, s: Three) -> bool
    requires { (is_setting tag ≡ true) × (allowed_in (all_of s) ≡ true) }
    ensures answer { result ≡ allowed_in (changed tag value (all_of s)) }
{
    match tag {
        1 => common_kinds::is_kind(value) && goes(value, s.rate),
        2 => rules_rates::is_code(value) && goes(s.kind, value),
        _ => value < 4,
    }
}

// One octet of the store is another; or a refusal as of a read, 30 or 28, and the store is as it was.
fn replace(store: &mut [u8], tag: u64, value: u64) -> Result<(), StoreRefusal>
    ensures answer { number_shown result ≡ store_changed store.old tag value }
    ensures store { store.new ≡ change_left store.old tag value }
{
    let at = locate(store)?;
    let s = values(store, at)?;
    if tag < 1 || 3 < tag {
        return Err(StoreRefusal::NoSuchTag);
    }
    if !stands(tag, value, s) {
        return Err(StoreRefusal::NotAllowed);
    }
    store[at + (tag as usize - 1)] = value as u8;
    Ok(())
}

// One setting of a store changed: 0, or a refusal as of a read, 30 or 28.
pub fn change(store: &mut [u8], tag: u64, value: u64) -> u64
    ensures answer { result ≡ store_changed store.old tag value }
    ensures store { store.new ≡ change_left store.old tag value }
{
    refusal::number(replace(store, tag, value))
}
