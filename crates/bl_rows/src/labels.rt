// The labels of a vertex.
ghost use Rattle.std.specs.Prelude.{◌≡◌, ◌++◌, ◌∷◌, [], nat_eq, IfOk, OnOk};
ghost use Rattle.std.specs.Cmp.Lexicographic.{pointwise};
ghost use Rattle.bl_value.specs.Once.{once_behind};
ghost use Rattle.bl_rows.specs.Rows.{labels_in, labels_of, some_labels};

use bl_outside::{List, NoMemory, Text};
use bl_value::{EachOnce, is_one_item, read_item, without_spaces};
use std::alloc::Global;

/// The labels of a vertex, each once.
pub fn labels_in(alloc: Global, label_cell: &[u8]) -> Result<List<Text>, NoMemory>
    ensures { IfOk result (λ labels. labels ≡ labels_in label_cell.now) }
{
    if is_one_item(label_cell) {
        return label_of(alloc, label_cell);
    }
    labels_of_items(alloc, label_cell)
}

// The label of one item, where it isn't empty.
fn label_of(alloc: Global, item: &[u8]) -> Result<List<Text>, NoMemory>
    ensures { IfOk result (λ labels. labels ≡ labels_of (item.now ∷ [])) }
{
    let label = without_spaces(item);
    if label.is_empty() {
        return Ok(List::new(alloc));
    }
    let mut labels = List::with_capacity(alloc, 1)?;
    labels.push(Text::copy_of(alloc, label)?)?;
    Ok(labels)
}

fn labels_of_items(alloc: Global, label_cell: &[u8]) -> Result<List<Text>, NoMemory>
    ensures { IfOk result (λ labels. labels ≡ labels_in label_cell.now) }
{
    let mut labels = EachOnce::new(alloc);
    let mut item = Vec::new(alloc);
    let mut left = Some(label_cell);
    while let Some(rest) = left {
        left = read_item(rest, &mut item)?;
        push_label(alloc, item.as_slice(), &mut labels)?;
    }
    Ok(labels.into_list())
}

// Adds the label of an item, where it isn't empty, unless it is there.
fn push_label(alloc: Global, item: &[u8], labels: &mut EachOnce<Text>) -> Result<(), NoMemory>
    ensures { OnOk result
        (labels.new ≡ labels.old
        ++ once_behind (pointwise nat_eq) labels.old (some_labels (item.now ∷ []))) }
{
    let label = without_spaces(item);
    if label.is_empty() {
        return Ok(());
    }
    labels.push(alloc, Text::copy_of(alloc, label)?)
}
