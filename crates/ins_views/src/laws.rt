//! Laws of the views. None of these functions does anything: each carries a law.
ghost use Rattle.std.specs.Prelude.{◌≡◌, ◌+◌, ℕ, Some, None, if◌then◌else◌};
ghost use Rattle.elf_load.specs.Image.{ImageFields};
ghost use Rattle.rv_isa.specs.Kinds.{ends_block};
ghost use Rattle.rv_isa.specs.Table.{Fields};
ghost use Rattle.ins_views.specs.Blocks.{block_length};
ghost use Rattle.ins_views.specs.Memory.{instruction_of};
ghost use Rattle.ins_views.specs.Views.{IsViews, ViewFields, ins_at, views_of};

/// The views of an image have the instructions of its loaded memory.
pub fn instructions_of_memory()
    ensures { (image : ImageFields) (pc : ℕ) → ins_at (views_of image) pc ≡ instruction_of image pc }
{}

/// A block is one instruction longer than what follows its first one, unless that ends it.
pub fn block_by_block()
    ensures { (views : ViewFields) (pc : ℕ) (i : Fields) → IsViews views → ins_at views pc ≡ Some i
        → block_length views pc ≡ (if ends_block i.op then 1 else block_length views (pc + 4) + 1) }
{}

/// Where no instruction stands, none follow one another.
pub fn no_block()
    ensures { (views : ViewFields) (pc : ℕ) → ins_at views pc ≡ None → block_length views pc ≡ 0 }
{}
