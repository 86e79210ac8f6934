// The rules about a record as a whole.
ghost use Rattle.std.specs.Prelude.{◌≡◌, ◌≤◌, length, sum_by};
ghost use Rattle.std.specs.List.{list_all};
ghost use Rattle.std.specs.Str.{is_utf8};
ghost use Rattle.bl_rows.specs.FirstFaults.{are_small, whole_code};

use bl_outside::{Text, is_utf8};
use bl_value::{Columns, LogCode};

/// The most bytes that the fields of a record may have together.
const RECORD_LIMIT: usize = 1_048_576;

fn are_texts(fields: &[Text]) -> bool
    ensures { result ≡ list_all is_utf8 fields.now }
{
    fields.iter().all(|field| is_utf8(field.as_slice()))
}

fn are_small(fields: &[Text]) -> bool
    ensures { result ≡ are_small fields.now }
{
    let mut room: usize = RECORD_LIMIT;
    for field in fields {
        if field.len() > room {
            return false;
        }
        room -= field.len();
    }
    true
}

/// The code of the first rule about the whole record that is broken.
pub fn whole_fault(columns: &Columns, fields: &[Text]) -> Option<LogCode>
    ensures { result ≡ whole_code columns.now fields.now }
{
    if fields.len() != columns.uses.len() {
        return Some(LogCode::ColumnCount);
    }
    if !are_texts(fields) {
        return Some(LogCode::NotUtf8);
    }
    if !are_small(fields) {
        return Some(LogCode::RecordTooLarge);
    }
    None
}
