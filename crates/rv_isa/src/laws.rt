// Laws of the table.
ghost use Rattle.std.specs.Prelude.{◌≡◌, ◌↔◌, ℕ, Some, slice_get};
ghost use Rattle.rv_isa.specs.Table.{Fields, IsInstr, Decodes, HasPlainBits, row_of};
ghost use Rattle.rv_isa.specs.Decoded.{decoded, ops};
ghost use Rattle.rv_isa.specs.Places.{place_of};
ghost use Rattle.rv_isa.specs.declared.op.Op.{Op};

/// A word has at most one instruction, which is what `decoded` gives.
pub fn one_instruction()
    ensures { (word : ℕ) (i : Fields) → (decoded word ≡ Some i) ↔ Decodes word i }
{}

/// An instruction other than fence has at most one word whose ignored bits are 0.
pub fn one_word()
    ensures { (word other : ℕ) (i : Fields) → HasPlainBits (row_of i.op) word
        → HasPlainBits (row_of i.op) other → Decodes word i → Decodes other i → word ≡ other }
{}

/// What a word decodes to is an instruction, with its fields in the range of its form.
pub fn in_form()
    ensures { (word : ℕ) (i : Fields) → Decodes word i → IsInstr i }
{}

/// An instruction's name stands at its place in the table.
pub fn name_at_place()
    ensures { (op : Op) → slice_get ops (place_of op) ≡ Some op }
{}
