ghost use Rattle.std.specs.Prelude.{◌≡◌, ℕ, ◌-◌, ◌/◌, ◌<◌, ◌≤◌, min, List, length, MatchOption, ◌==◌};
ghost use Rattle.store.specs.Stores.{at};
ghost use Rattle.store.specs.Records.{whole, mark_of, value_of, records, held, contents, used_in, Latest, written, with_record};
ghost use Rattle.store.specs.Logs.{NextFree};

use super::store::PutRefused;

// How many bytes a record has.
const RECORD: usize = 8;

// Byte 0 of a used record.
const MARK: u8 = 0xA5;

// How many items a log has that was made for so many, whatever its records are.
pub(crate) fn count_items(items: u8) -> usize
    ensures { (bytes : List ℕ) (used : ℕ) → result ≡ length (contents bytes items used) }
{
    usize::from(items)
}

// The whole records, from the front.
fn records(bytes: &[u8]) -> &[[u8; 8]]
    ensures { result.now ≡ records bytes.now (whole bytes.now) }
{
    let (records, _) = bytes.as_chunks();
    records
}

// Whether a record has the mark of a used one.
fn is_marked(bytes: &[u8; 8]) -> bool
    ensures { result ≡ (mark_of bytes.now 0 == 165) }
{
    bytes[0] == MARK
}

// The number of records from the front up to the first that has no mark.
pub(crate) fn count_used(bytes: &[u8]) -> usize
    ensures { result ≡ used_in bytes.now }
{
    records(bytes)
        .iter()
        .take_while(|record| is_marked(record))
        .count()
}

// The value in a record.
fn read_value(bytes: &[u8; 8]) -> u32
    ensures { result ≡ value_of bytes.now 0 }
{
    let [_, _, _, _, a, b, c, d] = *bytes;
    u32::from_be_bytes([a, b, c, d])
}

// The value in the last of the first records that is of an item, or 0 if none is: the value of an item that was never
// put. It looks from the back, where an item that is put often is found soon.
fn last_value(bytes: &[u8], item: u8, used: usize) -> u32
    requires { used ≤ whole bytes.now }
    ensures { result ≡ held bytes.now item used }
{
    records(bytes)[..used]
        .iter()
        .rev()
        .find(|record| record[1] == item)
        .map_or(0, read_value)
}

// The value of an item by the used records, or nothing for an item from `items` on.
pub(crate) fn read_item(bytes: &[u8], items: u8, used: usize, item: u32) -> Option<u32>
    ensures means { result ≡ at (contents bytes.now items (min used (whole bytes.now))) item }
    ensures latest { MatchOption result (items ≤ item) (Latest bytes.now item (min used (whole bytes.now))) }
{
    if item >= u32::from(items) {
        return None;
    }
    let used = used.min(bytes.len() / RECORD);
    Some(last_value(bytes, item as u8, used))
}

// The number of whole records in so many bytes that are not used.
pub(crate) fn count_free(len: usize, used: usize) -> usize
    ensures { result ≡ len / 8 - min used (len / 8) }
{
    let whole = len / RECORD;
    whole - used.min(whole)
}

// The number of the record that a put to an item writes, in so many bytes, or why it is refused.
pub(crate) fn next_free(len: usize, items: u8, used: usize, item: u32) -> Result<usize, PutRefused>
    ensures { NextFree (len / 8) items used item result }
{
    if item >= u32::from(items) {
        Err(PutRefused::Outside)
    } else if used >= len / RECORD {
        Err(PutRefused::NoRoom)
    } else {
        Ok(used)
    }
}

// The bytes of a used record, with the value high byte first.
fn encode(item: u8, value: u32) -> [u8; 8]
    ensures { result ≡ written item value }
{
    let [a, b, c, d] = value.to_be_bytes();
    [MARK, item, 0, 0, a, b, c, d]
}

// Writes a used record in the place of record n.
pub(crate) fn write_record(bytes: &mut [u8], n: usize, item: u8, value: u32)
    requires { n < whole bytes.old }
    ensures { bytes.new ≡ with_record bytes.old n item value }
{
    let at = n * RECORD;
    bytes[at..at + RECORD].copy_from_slice(&encode(item, value));
}
