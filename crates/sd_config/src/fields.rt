ghost use Rattle.std.specs.Prelude.{◌≡◌};
ghost use Rattle.std.specs.Option.{option_map};
ghost use Rattle.toml.specs.Data.{get_member};
ghost use Rattle.toml.specs.View.{view, table_view};
ghost use Rattle.sd_model_settings.specs.Values.{both, required, optional, text, whole_read};
ghost use Rattle.sd_config.specs.Answers.{seen_by};
ghost use Rattle.sd_config.specs.Values.{passes};

use crate::fault::ValueFault;
use crate::values::{self, TextRule};
use sd_outside::Name;
use toml::{Table, Value};

/// What a table has under a name.
pub(crate) fn found<'a>(table: &'a Table, name: &str) -> Option<&'a Value>
    ensures { option_map (λ v. view v.now) result ≡ get_member name.now (table_view table.now) }
{
    table.get(name)
}

/// Two fields of an entry. Another kind of either comes before a range of either.
pub(crate) fn both<A: Drop, B: Drop>(
    first: Result<A, ValueFault>,
    second: Result<B, ValueFault>,
) -> Result<(A, B), ValueFault>
    ensures { seen_by (λ p. p) result ≡ both (seen_by (λ x. x) first) (seen_by (λ y. y) second) }
{
    match (first, second) {
        (Ok(x), Ok(y)) => Ok((x, y)),
        (Err(ValueFault::Kind), _) | (_, Err(ValueFault::Kind)) => Err(ValueFault::Kind),
        _ => Err(ValueFault::Range),
    }
}

/// A text that an entry has to have.
pub(crate) fn required_text(table: &Table, name: &str, rule: TextRule) -> Result<Name, ValueFault>
    ensures { seen_by (λ n. n.items) result
        ≡ required (text (passes rule)) (get_member name.now (table_view table.now)) }
{
    match found(table, name) {
        Some(value) => values::text(value, rule),
        None => Err(ValueFault::Kind),
    }
}

/// A port that an entry has to have.
pub(crate) fn required_port(table: &Table, name: &str) -> Result<u16, ValueFault>
    ensures { seen_by (λ n. n) result
        ≡ required (whole_read 1 65535) (get_member name.now (table_view table.now)) }
{
    match found(table, name) {
        Some(value) => match values::whole(value, 1, 65535) {
            Ok(port) => Ok(port as u16),
            Err(fault) => Err(fault),
        },
        None => Err(ValueFault::Kind),
    }
}

/// A port of an entry, or the default.
pub(crate) fn optional_port(table: &Table, name: &str, default: u16) -> Result<u16, ValueFault>
    ensures { seen_by (λ n. n) result
        ≡ optional (whole_read 1 65535) default (get_member name.now (table_view table.now)) }
{
    match found(table, name) {
        Some(_) => required_port(table, name),
        None => Ok(default),
    }
}
