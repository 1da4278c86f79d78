//! What holds of the texts of a table and of free blocks, whatever the layout.

ghost use Rattle.std.specs.Prelude.{◌≡◌, ℕ, List, Some};
ghost use Rattle.serde_json.specs.Data.{Data};
ghost use Rattle.pt_sector.specs.Sectors.{Sectors};
ghost use Rattle.pt_edit.specs.declared.free.FreeBlock.{FreeBlock};
ghost use Rattle.pt_members.specs.declared.layout.Layout.{Layout};
ghost use Rattle.pt_recover.specs.Denotes.{Denotes};
ghost use Rattle.pt_tables.specs.Free.{free_data};
ghost use Rattle.pt_tables.specs.Text.{IsText, table_data};
ghost use Rattle.pt_tables.specs.Shown.{InOrder, Widths};

/// A text is that of one value.
pub fn value_is_one()
    ensures { (text : List ℕ) (x y : Data) → IsText text x → IsText text y → x ≡ y }
{}

/// Two layouts in order with one text are equal, and so are the names of their devices and the sizes of their sectors. How wide the
/// fields of a layout are, `field_widths` says of each that a program has.
pub fn layout_is_one()
    ensures { (text device other : List ℕ) (b c : ℕ) (o p : Layout) → Widths o → Widths p → InOrder o → InOrder p
        → IsText text (table_data device b o) → IsText text (table_data other c p) → (device ≡ other) × (b ≡ c) × (o ≡ p) }
{}

/// A layout that a disk denotes is in order.
pub fn denoted_in_order()
    ensures { (b : ℕ) (d : Sectors) (o : Layout) → Denotes b d (Some o) → InOrder o }
{}

/// Two layouts that disks denote are equal where they have one text, and so are the names of their devices and the sizes of their
/// sectors.
pub fn same_text()
    ensures { (text device other : List ℕ) (b c : ℕ) (d e : Sectors) (o p : Layout) → Widths o → Widths p → Denotes b d (Some o)
        → Denotes c e (Some p) → IsText text (table_data device b o) → IsText text (table_data other c p)
        → (device ≡ other) × (b ≡ c) × (o ≡ p) }
{}

/// Two lists of free blocks with one text are equal.
pub fn blocks_are_one()
    ensures { (text : List ℕ) (xs ys : List FreeBlock) → IsText text (free_data xs) → IsText text (free_data ys) → xs ≡ ys }
{}
