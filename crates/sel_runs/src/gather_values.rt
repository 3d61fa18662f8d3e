//! Gathers values and bits from several sources, one row reference at a time.

ghost use Rattle.std.specs.Prelude.{◌≡◌, ◌≤◌, ◌<◌, ◌+◌, ◌∷◌, ◌++◌, [], ◌↔◌, All, None, false, length, slice_index_or, map, take, drop, vec_len, vec_capacity, IfOk, IfErr, OnOk, IsTrue};
ghost use Rattle.std.specs.Option.{ForSome, option_copied};
ghost use Rattle.sel_bits.specs.Faults.{IsOutOfMemory};
ghost use Rattle.sel_bits.specs.Words.{word_of};
ghost use Rattle.sel_bits.specs.Validity.{Covers, valid_at, bits_for};
ghost use Rattle.sel_runs.specs.Picks.{found, pick, PickFits};
ghost use Rattle.sel_runs.specs.Plans.{HasBit, bit_found, bits_found};

use crate::bits::validity_from;
use crate::copy_values::{append_runs, copy_bits, copy_plan};
use crate::part::Part;
use crate::row_refs::Plan;
use sel_bits::bit_sink::BitSink;
use sel_bits::bitmap::Bitmap;
use sel_bits::faults::PolarsResult;
use sel_bits::packer::{BitPacker, MOST_BITS};
use std::alloc::Global;

/// Returns the value at each row reference, and `zero` for null references. Errors: `OutOfMemory`.
#[inline(always)]
fn gather_values<P: Plan, T: Copy + Drop>(
    alloc: Global,
    plan: &P,
    parts: &[Part<T>],
    zero: T,
) -> PolarsResult<Vec<T>>
    requires { All (PickFits (map (λ s. s.values.now) parts.now)) (P.picks plan.now) }
    ensures values { IfOk result (λ values. values.items ≡
        pick zero (map (λ s. s.values.now) parts.now) (P.picks plan.now)) }
    ensures refusal { IfErr result IsOutOfMemory }
{
    if plan.is_wide() {
        return copy_plan(alloc, plan, parts, zero);
    }
    if let [part] = parts {
        return gather_one(alloc, plan, part.values, zero);
    }
    let len = plan.len();
    let mut values = Vec::with_capacity(alloc, len)?;
    let mut rest = plan.again();
    for k in 0..len {
        let pick = rest.next();
        values.push_reserved(value_of_pick(parts, pick, zero));
    }
    Ok(values)
}

// Returns the value of a single source at each row reference, and `zero` for null references.
// Errors: `OutOfMemory`.
fn gather_one<P: Plan, T: Copy + Drop>(
    alloc: Global,
    plan: &P,
    from: &[T],
    zero: T,
) -> PolarsResult<Vec<T>>
    requires { All (PickFits (from.now ∷ [])) (P.picks plan.now) }
    ensures values { IfOk result (λ values. values.items ≡
        pick zero (from.now ∷ []) (P.picks plan.now)) }
    ensures refusal { IfErr result IsOutOfMemory }
{
    let len = plan.len();
    let mut values = Vec::with_capacity(alloc, len)?;
    let mut rest = plan.again();
    for k in 0..len {
        let pick = rest.next();
        values.push_reserved(value_of_place(from, pick, zero));
    }
    Ok(values)
}

// Returns the value of a single source at a row reference, or `zero` if it is null.
#[inline(always)]
fn value_of_place<T: Copy>(values: &[T], pick: Option<(u32, u32)>, zero: T) -> T
    requires { PickFits (values.now ∷ []) pick }
    ensures { result ≡ found zero (values.now ∷ []) pick }
{
    match pick {
        None => zero,
        Some((_, i)) => value_in(values, i as usize),
    }
}

// Returns the value at a row reference, or `zero` if it is null.
#[inline(always)]
fn value_of_pick<T: Copy + Drop>(parts: &[Part<T>], pick: Option<(u32, u32)>, zero: T) -> T
    requires { PickFits (map (λ s. s.values.now) parts.now) pick }
    ensures { result ≡ found zero (map (λ s. s.values.now) parts.now) pick }
{
    match pick {
        None => zero,
        Some((s, i)) => {
            let part = &parts[s as usize];
            value_in(part.values, i as usize)
        }
    }
}

#[inline(always)]
fn value_in<T: Copy>(values: &[T], i: usize) -> T
    requires { i < length values.now }
    ensures { result ≡ slice_index_or values.now i result }
{
    values[i]
}

/// Returns the value at each row reference, `zero` for null references, and the validity of these
/// rows, none if all are valid.
///
/// If some row may be null, evaluates each row reference once for both.
///
/// # Requires
/// Every non-null row reference refers to a value of a source; check with [`plan_has_values`].
///
/// # Errors
/// `OutOfMemory` if an allocation fails.
#[inline(always)]
pub fn gather_parts<P: Plan, T: Copy + Drop>(
    alloc: Global,
    plan: &P,
    parts: &[Part<T>],
    zero: T,
) -> PolarsResult<(Vec<T>, Option<Bitmap>)>
    requires { All (PickFits (map (λ s. s.values.now) parts.now)) (P.picks plan.now) }
    ensures values { IfOk result (λ rows. rows.0.items ≡
        pick zero (map (λ s. s.values.now) parts.now) (P.picks plan.now)) }
    ensures bits { IfOk result (λ rows. bits_for (length (P.picks plan.now)) rows.1 ≡
        bits_found (map (λ s. option_copied s.validity) parts.now) (P.picks plan.now)) }
    ensures covers { IfOk result (λ rows. Covers rows.1 (length (P.picks plan.now))) }
    ensures refusal { IfErr result IsOutOfMemory }
{
    if !plan.has_nulls() && !is_any_hidden(parts) {
        let values = gather_values(alloc, plan, parts, zero)?;
        return Ok((values, None));
    }
    let len = plan.len();
    let (values, bits) = gather_hidden(alloc, plan, parts, zero)?;
    let validity = validity_from(bits, len)?;
    Ok((values, validity))
}

/// Returns whether every non-null row reference of `plan` refers to a value of a source.
pub fn plan_has_values<P: Plan, T: Copy>(parts: &[Part<T>], plan: &P) -> bool
    ensures { IsTrue result ↔
        All (PickFits (map (λ s. s.values.now) parts.now)) (P.picks plan.now) }
{
    let mut rest = plan.again();
    let mut left = plan.len();
    while left > 0 {
        if !has_value(parts, rest.next()) {
            return false;
        }
        left -= 1;
    }
    true
}

// Returns whether a row reference is null, or refers to a value of a source.
fn has_value<T: Copy>(parts: &[Part<T>], pick: Option<(u32, u32)>) -> bool
    ensures { IsTrue result ↔ PickFits (map (λ s. s.values.now) parts.now) pick }
{
    let Some((source, row)) = pick else {
        return true;
    };
    if source as usize >= parts.len() {
        return false;
    }
    (row as usize) < parts[source as usize].values.len()
}

/// Returns whether some source has a validity bitmap.
pub(crate) fn is_any_hidden<T: Copy>(parts: &[Part<T>]) -> bool
    ensures { (result ≡ false) ↔ All (λ s. option_copied s.validity ≡ None) parts.now }
{
    parts.iter().any(|part| part.validity.is_some())
}

// Returns the value and the validity bit at each row reference; `zero` and false for null
// references. Errors: `OutOfMemory`.
fn gather_hidden<P: Plan, T: Copy + Drop>(
    alloc: Global,
    plan: &P,
    parts: &[Part<T>],
    zero: T,
) -> PolarsResult<(Vec<T>, BitPacker)>
    requires { All (PickFits (map (λ s. s.values.now) parts.now)) (P.picks plan.now) }
    ensures values { IfOk result (λ rows. rows.0.items ≡
        pick zero (map (λ s. s.values.now) parts.now) (P.picks plan.now)) }
    ensures bits { IfOk result (λ rows. rows.1 ≡
        bits_found (map (λ s. option_copied s.validity) parts.now) (P.picks plan.now)) }
    ensures refusal { IfErr result IsOutOfMemory }
{
    if plan.is_wide() {
        let values = copy_plan(alloc, plan, parts, zero)?;
        let bits = copy_validity(alloc, plan, parts)?;
        return Ok((values, bits));
    }
    let len = plan.len();
    let mut values = Vec::with_capacity(alloc, len)?;
    let mut bits = BitPacker::with_capacity(alloc, len)?;
    let mut rest = plan.again();
    let mut at = 0;
    while at < len {
        let count = (len - at).min(MOST_BITS);
        let word = push_word(&mut values, &mut rest, parts, zero, count);
        bits.append(word, count as u32)?;
        at += count;
    }
    Ok((values, bits))
}

// Returns the validity bit at each row reference, false for null references, copied by the runs of
// the plan. Errors: `OutOfMemory`.
fn copy_validity<P: Plan, T: Copy>(
    alloc: Global,
    plan: &P,
    parts: &[Part<T>],
) -> PolarsResult<BitPacker>
    requires { All (HasBit (map (λ s. option_copied s.validity) parts.now)) (P.picks plan.now) }
    ensures bits { IfOk result (λ bits. bits ≡
        bits_found (map (λ s. option_copied s.validity) parts.now) (P.picks plan.now)) }
    ensures refusal { IfErr result IsOutOfMemory }
{
    if let [only] = parts {
        return copy_bits(alloc, plan, &[only.validity]);
    }
    if let [one, other] = parts {
        return copy_bits(alloc, plan, &[one.validity, other.validity]);
    }
    let maps = validities_of(alloc, parts)?;
    copy_bits(alloc, plan, &maps)
}

// Returns the validity of each source. Errors: `OutOfMemory`.
fn validities_of<'a, T: Copy>(
    alloc: Global,
    parts: &[Part<'a, T>],
) -> PolarsResult<Vec<Option<&'a Bitmap>>>
    ensures maps { IfOk result (λ maps. map option_copied maps.items ≡
        map (λ s. option_copied s.validity) parts.now) }
    ensures refusal { IfErr result IsOutOfMemory }
{
    let mut maps = Vec::with_capacity(alloc, parts.len())?;
    for part in parts {
        maps.push(part.validity)?;
    }
    Ok(maps)
}

// Appends the values at the next `count` row references, consumes these references, and returns
// their validity bits as one word.
#[inline(always)]
fn push_word<P: Plan, T: Copy + Drop>(
    values: &mut Vec<T>,
    plan: &mut P,
    parts: &[Part<T>],
    zero: T,
    count: usize,
) -> u64
    requires fits { All (PickFits (map (λ s. s.values.now) parts.now)) (P.picks plan.old) }
    requires inside { count ≤ length (P.picks plan.old) }
    requires short { count ≤ 64 }
    requires room { vec_len values.old + count ≤ vec_capacity values.old }
    ensures values { values.new.items ≡ values.old.items ++
        pick zero (map (λ s. s.values.now) parts.now) (take count (P.picks plan.old)) }
    ensures word { result ≡ word_of (take count (bits_found
        (map (λ s. option_copied s.validity) parts.now) (P.picks plan.old))) }
    ensures rest { P.picks plan.new ≡ drop count (P.picks plan.old) }
    ensures len { vec_len values.new ≡ vec_len values.old + count }
    ensures capacity { vec_capacity values.new ≡ vec_capacity values.old }
{
    let mut word = 0;
    for i in 0..count {
        let pick = plan.next();
        let (value, bit) = row_of_pick(parts, pick, zero);
        values.push_reserved(value);
        word += u64::from(bit) << i;
    }
    word
}

// Returns the value and the validity bit at a row reference; `zero` and false if it is null.
#[inline(always)]
fn row_of_pick<T: Copy + Drop>(parts: &[Part<T>], pick: Option<(u32, u32)>, zero: T) -> (T, bool)
    requires { PickFits (map (λ s. s.values.now) parts.now) pick }
    ensures value { result.0 ≡ found zero (map (λ s. s.values.now) parts.now) pick }
    ensures bit { result.1 ≡ bit_found (map (λ s. option_copied s.validity) parts.now) pick }
{
    match pick {
        None => (zero, false),
        Some((s, i)) => {
            let part = &parts[s as usize];
            let value = value_in(part.values, i as usize);
            (value, is_valid_in(part.validity, i as usize))
        }
    }
}

/// Returns the validity of the gathered rows, given the validity of each source; none if all rows
/// are valid.
///
/// # Requires
/// Every non-null row reference refers to an entry of `maps`, and to a bit of that bitmap if it is
/// present; check with [`plan_has_bits`].
///
/// # Errors
/// `OutOfMemory` if an allocation fails.
pub fn validity_at<P: Plan>(
    alloc: Global,
    plan: &P,
    maps: &[Option<&Bitmap>],
) -> PolarsResult<Option<Bitmap>>
    requires { All (HasBit (map option_copied maps.now)) (P.picks plan.now) }
    ensures bits { IfOk result (λ validity. bits_for (length (P.picks plan.now)) validity ≡
        bits_found (map option_copied maps.now) (P.picks plan.now)) }
    ensures covers { IfOk result (λ validity. Covers validity (length (P.picks plan.now))) }
    ensures refusal { IfErr result IsOutOfMemory }
{
    if !plan.has_nulls() && !is_any_there(maps) {
        return Ok(None);
    }
    let len = plan.len();
    let bits = gather_bits(alloc, plan, maps)?;
    let validity = validity_from(bits, len)?;
    Ok(validity)
}

/// Returns whether some bitmap is present.
pub(crate) fn is_any_there(maps: &[Option<&Bitmap>]) -> bool
    ensures { (result ≡ false) ↔ All (λ map. option_copied map ≡ None) maps.now }
{
    maps.iter().any(|map| map.is_some())
}

/// Returns the bit at each row reference: true if the source has no bitmap, false for null
/// references.
///
/// # Requires
/// Every non-null row reference refers to an entry of `maps`, and to a bit of that bitmap if it is
/// present; check with [`plan_has_bits`].
///
/// # Errors
/// `OutOfMemory` if an allocation fails.
pub fn gather_bits<P: Plan>(
    alloc: Global,
    plan: &P,
    maps: &[Option<&Bitmap>],
) -> PolarsResult<BitPacker>
    requires { All (HasBit (map option_copied maps.now)) (P.picks plan.now) }
    ensures bits { IfOk result (λ bits. bits ≡
        bits_found (map option_copied maps.now) (P.picks plan.now)) }
    ensures refusal { IfErr result IsOutOfMemory }
{
    let mut bits = BitPacker::with_capacity(alloc, plan.len())?;
    append_bits(&mut bits, plan, maps)?;
    Ok(bits)
}

/// Appends the bit at each row reference, as [`gather_bits`] returns them.
///
/// # Requires
/// Every non-null row reference refers to an entry of `maps`, and to a bit of that bitmap if it is
/// present; check with [`plan_has_bits`].
///
/// # Errors
/// `OutOfMemory` if an allocation fails; part of the bits may have been appended then.
pub fn append_bits<P: Plan, S: BitSink>(
    sink: &mut S,
    plan: &P,
    maps: &[Option<&Bitmap>],
) -> PolarsResult<()>
    requires { All (HasBit (map option_copied maps.now)) (P.picks plan.now) }
    ensures bits { OnOk result (S.so_far sink.new ≡ S.so_far sink.old ++
        bits_found (map option_copied maps.now) (P.picks plan.now)) }
    ensures beside { S.beside sink.new ≡ S.beside sink.old }
    ensures refusal { IfErr result IsOutOfMemory }
{
    if plan.is_wide() {
        return append_runs(sink, plan, maps);
    }
    let len = plan.len();
    let mut rest = plan.again();
    let mut at = 0;
    while at < len {
        let count = (len - at).min(MOST_BITS);
        sink.append_word(word_of_picks(&mut rest, maps, count), count as u32)?;
        at += count;
    }
    Ok(())
}

/// Returns whether every non-null row reference refers to an entry of `maps`, and to a bit of that
/// bitmap if it is present.
pub fn plan_has_bits<P: Plan>(maps: &[Option<&Bitmap>], plan: &P) -> bool
    ensures { IsTrue result ↔ All (HasBit (map option_copied maps.now)) (P.picks plan.now) }
{
    let mut rest = plan.again();
    let mut left = plan.len();
    while left > 0 {
        if !has_bit(maps, rest.next()) {
            return false;
        }
        left -= 1;
    }
    true
}

// Returns whether a row reference is null, or refers to an entry of `maps` and to a bit of that
// bitmap if it is present.
fn has_bit(maps: &[Option<&Bitmap>], pick: Option<(u32, u32)>) -> bool
    ensures { IsTrue result ↔ HasBit (map option_copied maps.now) pick }
{
    let Some((source, row)) = pick else {
        return true;
    };
    if source as usize >= maps.len() {
        return false;
    }
    match maps[source as usize] {
        None => true,
        Some(bits) => (row as usize) < bits.len(),
    }
}

// Consumes the next `count` row references, and returns the bits at them as one word.
#[inline(always)]
fn word_of_picks<P: Plan>(plan: &mut P, maps: &[Option<&Bitmap>], count: usize) -> u64
    requires fits { All (HasBit (map option_copied maps.now)) (P.picks plan.old) }
    requires inside { count ≤ length (P.picks plan.old) }
    requires short { count ≤ 64 }
    ensures word { result ≡ word_of
        (take count (bits_found (map option_copied maps.now) (P.picks plan.old))) }
    ensures rest { P.picks plan.new ≡ drop count (P.picks plan.old) }
{
    let mut word = 0;
    for i in 0..count {
        let pick = plan.next();
        word += u64::from(bit_of_pick(maps, pick)) << i;
    }
    word
}

// Returns the bit at a row reference: true if the source has no bitmap, false if the reference is
// null.
#[inline(always)]
fn bit_of_pick(maps: &[Option<&Bitmap>], pick: Option<(u32, u32)>) -> bool
    requires { HasBit (map option_copied maps.now) pick }
    ensures { result ≡ bit_found (map option_copied maps.now) pick }
{
    match pick {
        None => false,
        Some((s, i)) => is_valid_in(maps[s as usize], i as usize),
    }
}

// Returns whether row `i` is valid.
#[inline(always)]
fn is_valid_in(validity: Option<&Bitmap>, i: usize) -> bool
    requires { ForSome (option_copied validity) (λ v. i < length v.bits) }
    ensures { result ≡ valid_at (option_copied validity.entry) i }
{
    match validity {
        None => true,
        Some(bits) => bits.get_bit(i),
    }
}
