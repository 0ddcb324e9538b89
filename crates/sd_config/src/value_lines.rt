//! The line of a setting of each kind, by the kinds' names in the table of settings.
ghost use Rattle.std.specs.Prelude.{◌≡◌, ◌≤◌, length, map, decimal, codes, if◌then◌else◌};
ghost use Rattle.sd_model_text.specs.Numbers.{number_text};
ghost use Rattle.sd_law_settings.specs.Ranges.{AreThresholds, AreBackends, AreClassNames};
ghost use Rattle.sd_model_settings.specs.ConfigText.{config_line, with_commas};
ghost use Rattle.sd_plan.specs.Values.{micros, name_bytes};

use crate::config_lines::{line_of, number_line};
use crate::config_value::{ReplyLine, push_joined};
use sd_decimal::Micro;
use sd_outside::Name;

pub(crate) fn whole(name: &str, number: u32) -> ReplyLine
    requires { length name.now ≤ 64 }
    ensures { result.items ≡ config_line name.now (decimal number) }
{
    number_line(name.as_bytes(), u64::from(number))
}

pub(crate) fn share(name: &str, number: u32) -> ReplyLine
    requires { length name.now ≤ 64 }
    ensures { result.items ≡ config_line name.now (decimal number) }
{
    whole(name, number)
}

pub(crate) fn flag(name: &str, flag: bool) -> ReplyLine
    requires { length name.now ≤ 64 }
    ensures { result.items ≡ config_line name.now (if flag then codes "true" else codes "false") }
{
    if flag {
        line_of(name.as_bytes(), b"true")
    } else {
        line_of(name.as_bytes(), b"false")
    }
}

pub(crate) fn text(name: &str, text: &Name) -> ReplyLine
    requires { length name.now ≤ 64 }
    ensures { result.items ≡ config_line name.now text.now.items }
{
    line_of(name.as_bytes(), text.as_slice())
}

pub(crate) fn thresholds(name: &str, thresholds: &[Micro]) -> ReplyLine
    requires name { length name.now ≤ 64 }
    requires range { AreThresholds (micros thresholds.now) }
    ensures { result.items ≡ config_line name.now (with_commas (map number_text (micros thresholds.now))) }
{
    let mut value = ReplyLine::new();
    push_joined(thresholds, &mut value);
    line_of(name.as_bytes(), value.as_slice())
}

// The line of texts that are short together.
fn names(name: &str, names: &[Name]) -> ReplyLine
    requires name { length name.now ≤ 64 }
    requires short { length (with_commas (name_bytes names.now)) ≤ 320 }
    ensures { result.items ≡ config_line name.now (with_commas (name_bytes names.now)) }
{
    let mut value = ReplyLine::new();
    push_joined(names, &mut value);
    line_of(name.as_bytes(), value.as_slice())
}

pub(crate) fn backends(name: &str, backends: &[Name]) -> ReplyLine
    requires name { length name.now ≤ 64 }
    requires range { AreBackends (name_bytes backends.now) }
    ensures { result.items ≡ config_line name.now (with_commas (name_bytes backends.now)) }
{
    names(name, backends)
}

pub(crate) fn class_names(name: &str, classes: &[Name]) -> ReplyLine
    requires name { length name.now ≤ 64 }
    requires range { AreClassNames (name_bytes classes.now) }
    ensures { result.items ≡ config_line name.now (with_commas (name_bytes classes.now)) }
{
    names(name, classes)
}
