//! The texts of ranges of whole numbers.
ghost use Rattle.std.specs.Prelude.{◌≡◌, ◌<◌, ◌≤◌, ◌^◌, length, IfSome};
ghost use Rattle.std.specs.Char.{is_ascii_digit};
ghost use Rattle.std.specs.List.{prefix_len};
ghost use Rattle.ato_first_catalog.specs.Ranges.{number_of, range_of, up_to};

/// How many digits a cell begins with.
fn digit_count(cell: &[u8]) -> usize
    ensures count { result ≡ prefix_len is_ascii_digit cell.now }
    ensures within { result ≤ length cell.now }
{
    for (i, byte) in cell.iter().enumerate() {
        if !byte.is_ascii_digit() {
            return i;
        }
    }
    cell.len()
}

/// The number that 1 to 18 digits write, as in a cell of a catalogue. Leading zeros are allowed. Any other text has none.
#[tactic(auto, unfolding(crate::specs::Ranges::number_of))]
pub fn number(digits: &[u8]) -> Option<u64>
    ensures { result ≡ number_of digits.now }
{
    if digits.len() == 0 || digits.len() > 18 {
        return None;
    }
    let mut value = 0u64;
    for digit in digits {
        if !digit.is_ascii_digit() {
            return None;
        }
        value = value * 10 + u64::from(*digit - b'0');
    }
    Some(value)
}

/// The range from a number on, by what stands behind its digits.
#[tactic(auto, unfolding(crate::specs::Ranges::up_to))]
fn range_up(low: u64, rest: &[u8]) -> Option<(u64, u64)>
    ensures { result ≡ up_to low rest.now }
{
    if rest.len() == 0 {
        return Some((low, low));
    }
    if !rest.starts_with(b" to ".as_slice()) {
        return None;
    }
    let high = number(&rest[4..])?;
    if low <= high { Some((low, high)) } else { None }
}

/// The two ends of the range that a cell writes: `3`, or `3 to 5`.
#[tactic(auto, unfolding(crate::specs::Ranges::range_of))]
pub(crate) fn read_range(cell: &[u8]) -> Option<(u64, u64)>
    ensures { result ≡ range_of cell.now }
{
    let split = digit_count(cell);
    let low = number(&cell[..split])?;
    range_up(low, &cell[split..])
}
