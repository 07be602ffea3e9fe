// The two switches.
ghost use Rattle.std.specs.Prelude.{◌≡◌, ◌++◌, ◌∷◌, ◌<◌, ◌≤◌, ◌^◌, ◌≤ℤ◌, ◌<ℤ◌, ◌+ℤ◌, ◌-ℤ◌, ◌↔◌, IsTrue, ℕ, ℤ, pos, List as list_of, length, Some, IfOk, IfSome, MatchOption, OnOk};
ghost use Rattle.std.specs.List.{flat_map, All};
ghost use Rattle.std.specs.Cmp.Rules.{comparing};
ghost use Rattle.std.proofs.Common.{rules};
ghost use Rattle.cf_code.specs.Equality.{table_eq, lookup_eq};
ghost use Rattle.std.specs.Int.{w32};
ghost use Rattle.std.specs.Int.RustNames.{FitsSigned};
ghost use Rattle.cf_code.specs.Bytes.{four, signed_four, IsTwo};
ghost use Rattle.cf_code.specs.Switches.{far, pair, table_body, lookup_body, table_spelling, lookup_spelling, padding_at, high_key, Rise, FitsCase, FitsTableBody, FitsLookupBody, FitsTable, FitsLookup};

use crate::jump::far_target;
use jv_base::{List, Mem};
use std::alloc::Global;

/// A switch over the keys from `low` on, one for each target (JVM Specification SE 8, 6.5, tableswitch). The padding is
/// the 0 to 3 bytes behind the opcode, whatever they are.
#[derive(Debug, Drop)]
pub struct TableSwitch {
    pub padding: List<u8>,
    pub default: u16,
    pub low: i32,
    pub targets: List<u16>,
}

/// A switch over keys that rise (JVM Specification SE 8, 6.5, lookupswitch). The padding is the 0 to 3 bytes behind the
/// opcode, whatever they are.
#[derive(Debug, Drop)]
pub struct LookupSwitch {
    pub padding: List<u8>,
    pub default: u16,
    pub cases: List<Case>,
}

impl PartialEq for TableSwitch {
    ghost eq = { table_eq };

    ghost laws = { Prim.search (comparing, rules) };

    fn eq(&self, other: &TableSwitch) -> bool {
        self.padding.as_slice() == other.padding.as_slice()
            && self.default == other.default
            && self.low == other.low
            && self.targets.as_slice() == other.targets.as_slice()
    }
}

impl Eq for TableSwitch {
    ghost laws = { Prim.search (comparing, rules) };
}

impl PartialEq for LookupSwitch {
    ghost eq = { lookup_eq };

    ghost laws = { Prim.search (comparing, rules) depth 9 };

    fn eq(&self, other: &LookupSwitch) -> bool {
        self.padding.as_slice() == other.padding.as_slice()
            && self.default == other.default
            && self.cases.as_slice() == other.cases.as_slice()
    }
}

impl Eq for LookupSwitch {
    ghost laws = { Prim.search (comparing, rules) depth 9 };
}

/// A key of a switch, and the pc that it leads to.
#[derive(Clone, Copy, Debug, PartialEq, Eq)]
pub struct Case {
    pub key: i32,
    pub target: u16,
}

/// The padding behind an opcode at a pc, and the bytes after it.
pub(crate) fn split_padding(pc: u16, bytes: &[u8]) -> Option<(&[u8], &[u8])>
    ensures found { IfSome result (λ r. (bytes.now ≡ r.0.now ++ r.1.now) × (length r.0.now ≡ padding_at pc)) }
    ensures only { (p t : list_of ℕ) → length p ≡ padding_at pc → bytes.now ≡ p ++ t → MatchOption result ⊥ (λ r. (r.0.now ≡ p) × (r.1.now ≡ t)) }
{
    bytes.split_at_checked(3 - usize::from(pc) % 4)
}

/// The target whose offset from a pc is at the front of the bytes, and what follows it.
fn next_target(pc: u16, bytes: &[u8]) -> Option<(u16, &[u8])>
    ensures found { IfSome result (λ r. (bytes.now ≡ far pc r.0 ++ r.1.now) × IsTwo r.0 × (length r.1.now < length bytes.now)) }
    ensures only { (t : ℕ) (tail : list_of ℕ) → IsTwo t → bytes.now ≡ far pc t ++ tail → MatchOption result ⊥ (λ r. (r.0 ≡ t) × (r.1.now ≡ tail)) }
{
    let [a, b, c, d, after @ ..] = bytes else {
        return None;
    };
    Some((far_target(pc, *a, *b, *c, *d)?, after))
}

/// The targets whose offsets from a pc these bytes are. None where one is no pc of two bytes.
fn read_targets(alloc: Global, pc: u16, bytes: &[u8]) -> Mem<Option<List<u16>>>
    ensures found { IfOk result (λ r. IfSome r (λ ts. (bytes.now ≡ flat_map (far pc) ts) × All IsTwo ts)) }
    ensures only { (ts : list_of ℕ) → All IsTwo ts → bytes.now ≡ flat_map (far pc) ts → IfOk result (λ r. r ≡ Some ts) }
{
    let mut targets = Vec::new(alloc);
    let mut rest = bytes;
    while let Some((target, after)) = next_target(pc, rest) {
        targets.push(target)?;
        rest = after;
    }
    if rest.is_empty() {
        Ok(Some(List::from_vec(targets)))
    } else {
        Ok(None)
    }
}

/// The case whose key, and offset from a pc, are at the front of the bytes, and what follows it.
fn next_case(pc: u16, bytes: &[u8]) -> Option<(Case, &[u8])>
    ensures found { IfSome result (λ r. (bytes.now ≡ pair pc r.0 ++ r.1.now) × FitsCase r.0 × (length r.1.now < length bytes.now)) }
    ensures only { (c : Case) (tail : list_of ℕ) → FitsCase c → bytes.now ≡ pair pc c ++ tail → MatchOption result ⊥ (λ r. (r.0 ≡ c) × (r.1.now ≡ tail)) }
{
    let [a, b, c, d, after @ ..] = bytes else {
        return None;
    };
    let key = i32::from_be_bytes([*a, *b, *c, *d]);
    let (target, after) = next_target(pc, after)?;
    Some((Case { key, target }, after))
}

/// The cases whose keys, and offsets from a pc, these bytes are. None where a target is no pc of two bytes.
fn read_pairs(alloc: Global, pc: u16, bytes: &[u8]) -> Mem<Option<List<Case>>>
    ensures found { IfOk result (λ r. IfSome r (λ cs. (bytes.now ≡ flat_map (pair pc) cs) × All FitsCase cs)) }
    ensures only { (cs : list_of Case) → All FitsCase cs → bytes.now ≡ flat_map (pair pc) cs → IfOk result (λ r. r ≡ Some cs) }
{
    let mut cases = Vec::new(alloc);
    let mut rest = bytes;
    while let Some((case, after)) = next_case(pc, rest) {
        cases.push(case)?;
        rest = after;
    }
    if rest.is_empty() {
        Ok(Some(List::from_vec(cases)))
    } else {
        Ok(None)
    }
}

/// Whether each key is above the one before.
pub(crate) fn rise(cases: &[Case]) -> bool
    ensures { IsTrue result ↔ Rise cases.now }
{
    for k in 1..cases.len() {
        if cases[k].key <= cases[k - 1].key {
            return false;
        }
    }
    true
}

/// The signed number of four bytes at the front, and what follows it.
pub(crate) fn next_int(bytes: &[u8]) -> Option<(i32, &[u8])>
    ensures found { IfSome result (λ r. bytes.now ≡ signed_four r.0 ++ r.1.now) }
    ensures only { (z : ℤ) (tail : list_of ℕ) → FitsSigned w32 z → bytes.now ≡ signed_four z ++ tail → MatchOption result ⊥ (λ r. (r.0 ≡ z) × (r.1.now ≡ tail)) }
{
    let [a, b, c, d, after @ ..] = bytes else {
        return None;
    };
    Some((i32::from_be_bytes([*a, *b, *c, *d]), after))
}

/// The number of four bytes at the front, and what follows it.
pub(crate) fn next_count(bytes: &[u8]) -> Option<(u32, &[u8])>
    ensures found { IfSome result (λ r. bytes.now ≡ four r.0 ++ r.1.now) }
    ensures only { (n : ℕ) (tail : list_of ℕ) → n < 2 ^ 32 → bytes.now ≡ four n ++ tail → MatchOption result ⊥ (λ r. (r.0 ≡ n) × (r.1.now ≡ tail)) }
{
    let [a, b, c, d, after @ ..] = bytes else {
        return None;
    };
    Some((u32::from_be_bytes([*a, *b, *c, *d]), after))
}

/// How many keys there are from one to another, with both.
pub(crate) fn key_count(low: i32, high: i32) -> usize
    ensures some { low ≤ℤ high → pos result ≡ high -ℤ low +ℤ pos 1 }
    ensures none { high <ℤ low → result ≡ 0 }
    ensures within { result ≤ 2 ^ 32 }
{
    if low <= high {
        (i64::from(high) - i64::from(low) + 1) as usize
    } else {
        0
    }
}

/// Whether so many keys, and one at least, go from one to another.
fn is_whole(low: i32, high: i32, count: usize) -> bool
    ensures { IsTrue result ↔ (0 < count) × (high ≡ low +ℤ pos count -ℤ pos 1) }
{
    0 < count && count == key_count(low, high)
}

/// The default, the least and the greatest key of a table, and the bytes of its offsets.
fn table_head(pc: u16, bytes: &[u8]) -> Option<(u16, i32, i32, &[u8])>
    ensures found { IfSome result (λ r. (bytes.now ≡ far pc r.0 ++ (signed_four r.1 ++ (signed_four r.2 ++ r.3.now))) × IsTwo r.0) }
    ensures only { (default : ℕ) (low high : ℤ) (tail : list_of ℕ) → IsTwo default → FitsSigned w32 low → FitsSigned w32 high → bytes.now ≡ far pc default ++ (signed_four low ++ (signed_four high ++ tail)) → MatchOption result ⊥ (λ r. (r.0 ≡ default) × (r.1 ≡ low) × (r.2 ≡ high) × (r.3.now ≡ tail)) }
{
    let (default, rest) = next_target(pc, bytes)?;
    let (low, rest) = next_int(rest)?;
    let (high, rest) = next_int(rest)?;
    Some((default, low, high, rest))
}

/// The default, the least key and the targets of a table, from behind its padding.
fn read_table_body(alloc: Global, pc: u16, bytes: &[u8]) -> Mem<Option<(u16, i32, List<u16>)>>
    ensures found { IfOk result (λ o. IfSome o (λ r. (bytes.now ≡ table_body pc r.0 r.1 r.2) × FitsTableBody r.0 r.1 r.2)) }
    ensures only { (default : ℕ) (low : ℤ) (targets : list_of ℕ) → FitsTableBody default low targets → bytes.now ≡ table_body pc default low targets → IfOk result (λ r. r ≡ Some (default, low, targets)) }
{
    let Some((default, low, high, offsets)) = table_head(pc, bytes) else {
        return Ok(None);
    };
    let Some(targets) = read_targets(alloc, pc, offsets)? else {
        return Ok(None);
    };
    if !is_whole(low, high, targets.length()) {
        return Ok(None);
    }
    Ok(Some((default, low, targets)))
}

/// The table at a pc, from behind its opcode. None where the least key is above the greatest, where the offsets do not
/// fill the bytes, or where a target is no pc of two bytes.
pub(crate) fn read_table(alloc: Global, pc: u16, bytes: &[u8]) -> Mem<Option<TableSwitch>>
    ensures found { IfOk result (λ o. IfSome o (λ s. (170 ∷ bytes.now ≡ table_spelling pc s) × FitsTable pc s)) }
    ensures only { (s : TableSwitch) → FitsTable pc s → 170 ∷ bytes.now ≡ table_spelling pc s → IfOk result (λ r. r ≡ Some s) }
{
    let Some((padding, rest)) = split_padding(pc, bytes) else {
        return Ok(None);
    };
    let Some((default, low, targets)) = read_table_body(alloc, pc, rest)? else {
        return Ok(None);
    };
    let padding = List::copied(alloc, padding)?;
    Ok(Some(TableSwitch {
        padding,
        default,
        low,
        targets,
    }))
}

/// The default and the cases, from behind the padding.
fn read_lookup_body(alloc: Global, pc: u16, bytes: &[u8]) -> Mem<Option<(u16, List<Case>)>>
    ensures found { IfOk result (λ o. IfSome o (λ r. (bytes.now ≡ lookup_body pc r.0 r.1) × FitsLookupBody r.0 r.1)) }
    ensures only { (default : ℕ) (cases : list_of Case) → FitsLookupBody default cases → bytes.now ≡ lookup_body pc default cases → IfOk result (λ r. r ≡ Some (default, cases)) }
{
    let Some((default, rest)) = next_target(pc, bytes) else {
        return Ok(None);
    };
    let Some((count, rest)) = next_count(rest) else {
        return Ok(None);
    };
    let Some(cases) = read_pairs(alloc, pc, rest)? else {
        return Ok(None);
    };
    if cases.length() != count as usize || !rise(cases.as_slice()) {
        return Ok(None);
    }
    Ok(Some((default, cases)))
}

/// The switch at a pc, from behind its opcode. None where the pairs do not fill the bytes, where the keys do not rise, or
/// where a target is no pc of two bytes.
pub(crate) fn read_lookup(alloc: Global, pc: u16, bytes: &[u8]) -> Mem<Option<LookupSwitch>>
    ensures found { IfOk result (λ o. IfSome o (λ s. (171 ∷ bytes.now ≡ lookup_spelling pc s) × FitsLookup pc s)) }
    ensures only { (s : LookupSwitch) → FitsLookup pc s → 171 ∷ bytes.now ≡ lookup_spelling pc s → IfOk result (λ r. r ≡ Some s) }
{
    let Some((padding, rest)) = split_padding(pc, bytes) else {
        return Ok(None);
    };
    let Some((default, cases)) = read_lookup_body(alloc, pc, rest)? else {
        return Ok(None);
    };
    let padding = List::copied(alloc, padding)?;
    Ok(Some(LookupSwitch {
        padding,
        default,
        cases,
    }))
}

/// Puts the offset of a target at the end.
fn put_target(out: &mut Vec<u8>, pc: u16, target: u16) -> Mem<()>
    ensures { OnOk result (out.new.items ≡ out.old.items ++ far pc target) }
{
    let offset = i32::from(target) - i32::from(pc);
    out.extend_from_slice(&offset.to_be_bytes())
}

/// Puts the offset of each target at the end.
fn put_targets(out: &mut Vec<u8>, pc: u16, targets: &[u16]) -> Mem<()>
    ensures { OnOk result (out.new.items ≡ out.old.items ++ flat_map (far pc) targets.now) }
{
    for target in targets {
        put_target(out, pc, *target)?;
    }
    Ok(())
}

/// Puts the key and the offset of each case at the end.
fn put_pairs(out: &mut Vec<u8>, pc: u16, cases: &[Case]) -> Mem<()>
    ensures { OnOk result (out.new.items ≡ out.old.items ++ flat_map (pair pc) cases.now) }
{
    for case in cases {
        out.extend_from_slice(&case.key.to_be_bytes())?;
        put_target(out, pc, case.target)?;
    }
    Ok(())
}

/// The greatest key of a table.
fn high_of(switch: &TableSwitch) -> i32
    requires { FitsTableBody switch.now.default switch.now.low switch.now.targets }
    ensures { result ≡ high_key switch.now.low switch.now.targets }
{
    (i64::from(switch.low) + switch.targets.length() as i64 - 1) as i32
}

/// Puts a signed number of four bytes at the end.
fn put_int(out: &mut Vec<u8>, value: i32) -> Mem<()>
    ensures { OnOk result (out.new.items ≡ out.old.items ++ signed_four value) }
{
    out.extend_from_slice(&value.to_be_bytes())
}

/// Puts the least and the greatest key of a table at the end.
fn put_keys(out: &mut Vec<u8>, switch: &TableSwitch) -> Mem<()>
    requires { FitsTableBody switch.now.default switch.now.low switch.now.targets }
    ensures { OnOk result (out.new.items ≡ out.old.items ++ (signed_four switch.now.low ++ signed_four (high_key switch.now.low switch.now.targets))) }
{
    put_int(out, switch.low)?;
    put_int(out, high_of(switch))
}

/// Puts the bytes of a table behind its padding at the end.
fn put_table_body(out: &mut Vec<u8>, pc: u16, switch: &TableSwitch) -> Mem<()>
    requires { FitsTableBody switch.now.default switch.now.low switch.now.targets }
    ensures { OnOk result (out.new.items ≡ out.old.items ++ table_body pc switch.now.default switch.now.low switch.now.targets) }
{
    put_target(out, pc, switch.default)?;
    put_keys(out, switch)?;
    put_targets(out, pc, switch.targets.as_slice())?;
    Ok(())
}

/// Puts the bytes of a table at a pc at the end.
pub(crate) fn put_table(out: &mut Vec<u8>, pc: u16, switch: &TableSwitch) -> Mem<()>
    requires { FitsTable pc switch.now }
    ensures { OnOk result (out.new.items ≡ out.old.items ++ table_spelling pc switch.now) }
{
    out.extend_from_slice(&[170])?;
    out.extend_from_slice(switch.padding.as_slice())?;
    put_table_body(out, pc, switch)
}

/// Puts the bytes of a switch over cases at a pc at the end.
pub(crate) fn put_lookup(out: &mut Vec<u8>, pc: u16, switch: &LookupSwitch) -> Mem<()>
    requires { FitsLookup pc switch.now }
    ensures { OnOk result (out.new.items ≡ out.old.items ++ lookup_spelling pc switch.now) }
{
    out.extend_from_slice(&[171])?;
    out.extend_from_slice(switch.padding.as_slice())?;
    put_target(out, pc, switch.default)?;
    out.extend_from_slice(&(switch.cases.length() as u32).to_be_bytes())?;
    put_pairs(out, pc, switch.cases.as_slice())
}
