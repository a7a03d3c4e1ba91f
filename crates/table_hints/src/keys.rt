// The keys of a TOML table.
ghost use Rattle.std.specs.Prelude.{◌≡◌, option_map};
ghost use Rattle.toml.specs.View.{table_view};
ghost use Rattle.table_hints.specs.UnknownKeys.{other_key};

use binding_file::{Name, is_one_of};
use toml::Table;

/// The first key of the table that is none of these.
pub(crate) fn other_key<'a>(names: &[Name], table: &'a Table) -> Option<&'a str>
    ensures { option_map (λ k. k.now) result ≡ other_key names.now (table_view table.now) }
{
    'keys: for (key, _) in table {
        if !is_one_of(names, key.as_str()) {
            return Some(key.as_str());
        }
    }
    None
}
