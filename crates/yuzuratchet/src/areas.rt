//! Whether the areas that a caller names fit.

ghost use Rattle.std.specs.Prelude.{◌≡◌, ◌+◌};
ghost use Rattle.std.specs.List.{list_any};
ghost use Rattle.yuzuratchet.specs.Areas.{is_null, is_empty, is_large, overlap, any_overlap, is_misaligned, misfit_of};

/// An area of memory, by its address and its size in bytes, and of how many bytes its address has to be a multiple; 0 is of
/// any.
#[repr(C)]
#[derive(Clone, Copy)]
pub struct Area {
    pub at: u64,
    pub size: u64,
    pub align: u64,
}

/// Why areas don't fit, as the header numbers it.
#[derive(Clone, Copy)]
pub(crate) enum Misfit {
    None = 0,
    Null = 5,
    Empty = 6,
    Large = 7,
    Overlap = 8,
    Misaligned = 9,
}

/// Whether its pointer is null.
fn is_null(area: &Area) -> bool
    ensures { result ≡ is_null area.now }
{
    area.at == 0
}

/// Whether it has no byte.
fn is_empty(area: &Area) -> bool
    ensures { result ≡ is_empty area.now }
{
    area.size == 0
}

/// The address behind its last byte.
fn end(area: &Area) -> u128
    ensures { result ≡ area.now.at + area.now.size }
{
    u128::from(area.at) + u128::from(area.size)
}

/// Whether it has 2^63 bytes or more, or runs past the last address.
fn is_large(area: &Area) -> bool
    ensures { result ≡ is_large area.now }
{
    area.size >= 1 << 63 || end(area) > 1 << 64
}

/// Whether two areas share a byte.
fn overlap(one: &Area, other: &Area) -> bool
    ensures { result ≡ overlap one.now other.now }
{
    u128::from(one.at) < end(other) && u128::from(other.at) < end(one)
}

/// Whether an area shares a byte with one of others.
fn overlaps_any(area: &Area, others: &[Area]) -> bool
    ensures { result ≡ list_any (overlap area.now) others.now }
{
    others.iter().any(|other| overlap(area, other))
}

/// Whether two of the areas share a byte.
fn any_overlap(areas: &[Area]) -> bool
    ensures { result ≡ any_overlap areas.now }
{
    for (place, area) in areas.iter().enumerate() {
        if overlaps_any(area, &areas[place + 1..]) {
            return true;
        }
    }
    false
}

/// Whether one of the pointers is null.
fn any_null(areas: &[Area]) -> bool
    ensures { result ≡ list_any is_null areas.now }
{
    areas.iter().any(|area| is_null(area))
}

/// Whether one of the areas has no byte.
fn any_empty(areas: &[Area]) -> bool
    ensures { result ≡ list_any is_empty areas.now }
{
    areas.iter().any(|area| is_empty(area))
}

/// Whether one of the areas has too many bytes.
fn any_large(areas: &[Area]) -> bool
    ensures { result ≡ list_any is_large areas.now }
{
    areas.iter().any(|area| is_large(area))
}

/// Whether its address is no multiple of what it has to be one of.
fn is_misaligned(area: &Area) -> bool
    ensures { result ≡ is_misaligned area.now }
{
    area.align > 0 && area.at % area.align > 0
}

/// Whether one of the areas is misaligned.
fn any_misaligned(areas: &[Area]) -> bool
    ensures { result ≡ list_any is_misaligned areas.now }
{
    areas.iter().any(|area| is_misaligned(area))
}

/// Why areas don't fit: the first reason that holds of any.
pub(crate) fn misfit_of(areas: &[Area]) -> Misfit
    ensures { result ≡ misfit_of areas.now }
{
    if any_null(areas) {
        return Misfit::Null;
    }
    if any_empty(areas) {
        return Misfit::Empty;
    }
    if any_large(areas) {
        return Misfit::Large;
    }
    if any_overlap(areas) {
        return Misfit::Overlap;
    }
    if any_misaligned(areas) {
        return Misfit::Misaligned;
    }
    Misfit::None
}
