// What holds of compiled tables, whoever reads their words.
ghost use Rattle.std.specs.Prelude.{◌≡◌, ℕ, false, List};
ghost use Rattle.binding_rules.specs.Tables.{BindingTable};
ghost use Rattle.binding_rules.specs.declared.settings.Edition.TheVariants as edition;
ghost use Rattle.table_words.specs.Bounds.{most_shapes};
ghost use Rattle.table_words.specs.Layout.{IsCompiled, has_two_shapes};

/// In a table of edition One no address has two shapes, nor where one is the greatest number of shapes at an address.
pub fn one_shape()
    ensures edition_one { (t : BindingTable) (list : List ℕ) → IsCompiled t list → t.edition ≡ edition.One → has_two_shapes t.bindings ≡ false }
    ensures count { (t : BindingTable) (list : List ℕ) → IsCompiled t list → most_shapes t.bindings ≡ 1 → has_two_shapes t.bindings ≡ false }
{}
