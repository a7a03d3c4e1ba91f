// What holds of table files, whoever reads or writes them.
ghost use Rattle.std.specs.Prelude.{◌≡◌, ◌≤◌, ℕ, List, length, Result};
ghost use Rattle.binding_rules.specs.Tables.{BindingTable};
ghost use Rattle.table_costs.specs.FirstLines.{IsTooCostly};
ghost use Rattle.binding_file.specs.Files.{TableOf, TextOf, most_bytes};
ghost use Rattle.binding_file.specs.declared.refusals.FileRefused.{FileRefused};

use addr_text::one_address;

/// A file has one answer: it spells one table, or it is refused for one reason. A text within the size of a file that does not cost
/// too much has the answer of what it spells.
pub fn one_table()
    ensures answer { (bytes : List ℕ) (answer other : Result BindingTable FileRefused) → TableOf bytes answer → TableOf bytes other → answer ≡ other }
    ensures text { (bytes : List ℕ) (answer : Result BindingTable FileRefused) → length bytes ≤ most_bytes → (IsTooCostly bytes → ⊥) →
        TextOf bytes answer → TableOf bytes answer }
{
    one_address();
}
