// A law of the definitions. The function does nothing: its contract is the law.
ghost use Rattle.bl_rows.specs.FirstFaults.{HasOneRow};

/// A record has one row under the columns of its file.
pub fn a_record_has_one_row()
    ensures { HasOneRow }
{}
