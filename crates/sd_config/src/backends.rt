ghost use Rattle.std.specs.Prelude.{◌≡◌, ◌+◌, length};
ghost use Rattle.toml.specs.View.{view};
ghost use Rattle.sd_model_outside.specs.Backend.{backends};
ghost use Rattle.sd_model_settings.specs.Entries.{is_backend, is_class_name};
ghost use Rattle.sd_config.specs.Answers.{seen_by};
ghost use Rattle.sd_plan.specs.Values.{name_bytes};
ghost use Rattle.sd_model_settings.specs.Values.{ranged, are_distinct, listed, text};
ghost use Rattle.std.specs.Str.{bytes_eq};

use crate::fault::ValueFault;
use crate::lists::distinct_texts;
use crate::values::TextRule;
use arrayvec::ArrayVec;
use sd_outside::{BACKEND_COUNT, Name};
use toml::Value;

/// How many names the setting `backends` has at most: those of all backends, and the repeater's.
pub(crate) const MOST_BACKENDS: usize = BACKEND_COUNT + 1;

/// The names of backends, each at most once.
pub(crate) fn backends(value: &Value) -> Result<ArrayVec<Name, MOST_BACKENDS>, ValueFault>
    ensures { seen_by (λ v. name_bytes v.items) result ≡ ranged (are_distinct bytes_eq) (listed (length backends + 1) (text is_backend) (view value.now)) }
{
    distinct_texts(value, TextRule::Backend)
}

/// The names of classes of timers' lines, each at most once.
pub(crate) fn class_names(value: &Value) -> Result<ArrayVec<Name, 16>, ValueFault>
    ensures { seen_by (λ v. name_bytes v.items) result ≡ ranged (are_distinct bytes_eq) (listed 16 (text is_class_name) (view value.now)) }
{
    distinct_texts(value, TextRule::ClassName)
}
