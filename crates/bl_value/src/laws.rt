// Laws of the definitions. The functions do nothing: their contracts are the laws.
ghost use Rattle.std.specs.Prelude.{◌≡◌, ℤ};
ghost use Rattle.bl_value.specs.Cells.{cell};
ghost use Rattle.bl_value.specs.Dates.{date_text};
ghost use Rattle.bl_value.specs.Valid.{IsDate};
ghost use Rattle.bl_value.specs.declared.value.Value.TheVariants as value;
ghost use Rattle.bl_value.specs.declared.value_type.ValueType.TheVariants as type;

/// The text of a date is a cell of that date.
pub fn date_texts_are_read_back()
    ensures { (seconds : ℤ) → IsDate seconds
        → cell type.Date (date_text seconds) ≡ Ok (value.Date seconds) }
{}
