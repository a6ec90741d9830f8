ghost use Rattle.std.specs.Prelude.{◌≡◌, min, if◌then◌else◌, Some, None};
ghost use Rattle.std.specs.Str.Parse.{digits_value};
ghost use Rattle.std.specs.Str.{all_ascii_digits};
ghost use Rattle.trace.specs.Numbers.{number_of};

use trace::fault::NumberFault;

// The first number past every limit. Larger ones count as this one, however long they are.
const TOO_LARGE: u64 = 4294967296;

// The number that digits write, or none where a byte is no digit.
// By hand: with the library's `parse`, which wants a text and tells less of what is no number, a field takes twice the
// instructions.
fn digits_value(digits: &[u8]) -> Option<u64>
    ensures { result ≡ (if all_ascii_digits digits.now then Some (min (digits_value 10 digits.now) 4294967296) else None) }
{
    let mut total: u64 = 0;
    for b in digits {
        if *b < b'0' || *b > b'9' {
            return None;
        }
        total = (total * 10 + u64::from(*b - b'0')).min(TOO_LARGE);
    }
    Some(total)
}

// The number that a field holds: one digit or more, with no leading zero, up to the limit.
pub fn number(field: &[u8], limit: u32) -> Result<u32, NumberFault>
    ensures { result ≡ number_of limit field.now }
{
    if matches!(field, [] | [b'0', _, ..]) {
        return Err(NumberFault::NotANumber);
    }
    let total = digits_value(field).ok_or(NumberFault::NotANumber)?;
    if total > u64::from(limit) {
        return Err(NumberFault::AboveLimit);
    }
    Ok(total as u32)
}
